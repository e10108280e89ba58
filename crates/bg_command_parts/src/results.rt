//! The results of games, as a record grows.

use bg_console::Called;
use bg_match::{Number, Phase, Record, Standing};
use bg_system::Names;
use std::fmt;
use std::fmt::{Display, Formatter, Write};

/// The result of a game, as it is printed: `game 2: X wins 2 points, 3-1`, with the points of X
/// before those of O. A winner with a name is called by it: `game 2: Anna (X) wins 2 points, 3-1`.
#[derive(Clone, Copy)]
pub struct GameResult {
    game: u8,
    winner: Called,
    points: u16,
    score: (u16, u16),
    /// Whether the match ended with it.
    is_last: bool,
}

impl GameResult {
    /// Returns the result of the game that ended between two standings, if one did.
    fn between(before: &Standing, after: &Standing, names: &Names) -> Option<GameResult> {
        let ((old_x, old_o), score) = (before.score(), after.score());
        let (x, o) = (score.0.saturating_sub(old_x), score.1.saturating_sub(old_o));
        let (winner, points) = match (x, o) {
            (0, 0) => return None,
            (points, 0) => (Called::x(names), points),
            (_, points) => (Called::o(names), points),
        };
        Some(GameResult {
            game: before.game(),
            winner,
            points,
            score,
            is_last: matches!(after.phase(), Phase::Over(_)),
        })
    }

    /// Returns the result of the match, if it ended.
    pub fn of_match(&self) -> Option<MatchResult> {
        let result = *self;
        if result.is_last {
            Some(MatchResult(result))
        } else {
            None
        }
    }
}

impl Display for GameResult {
    fn fmt<W: Write>(&self, f: &mut Formatter<W>) -> fmt::Result {
        let GameResult {
            game,
            winner,
            points,
            score: (x, o),
            ..
        } = *self;
        let unit = if points == 1 { "point" } else { "points" };
        write!(f, "game {game}: {winner} wins {points} {unit}, {x}-{o}")
    }
}

/// The result of a match, as it is printed: `the match is over: X wins, 7-3`.
#[derive(Clone, Copy)]
pub struct MatchResult(GameResult);

impl Display for MatchResult {
    fn fmt<W: Write>(&self, f: &mut Formatter<W>) -> fmt::Result {
        let (winner, (x, o)) = (self.0.winner, self.0.score);
        write!(f, "the match is over: {winner} wins, {x}-{o}")
    }
}

/// Follows a record, and finds the games that end in it.
#[derive(Drop)]
pub struct Results {
    /// The standing of the match after the entries that were followed.
    standing: Standing,
    followed: Number,
}

impl Results {
    /// Begins to follow a record, after the entries that it has now.
    pub fn of(record: &Record) -> Results {
        Results {
            standing: record.standing(),
            followed: record.len(),
        }
    }

    /// Returns how many entries were followed. After [`next`](Results::next) has returned a result,
    /// this is the number of the entry that ended the game.
    pub fn followed(&self) -> Number {
        self.followed
    }

    /// Returns the result of the next game that has ended, between players with these names, or
    /// `None` if no other game has. The record of a restarted party may hold less for a while.
    pub fn next(&mut self, record: &Record, names: &Names) -> Option<GameResult> {
        for number in self.followed.saturating_add(1)..=record.len() {
            let before_it = self.standing;
            let entry = record.entry(number)?;
            if self.standing.apply(entry).is_err() {
                // It is another record than before, and is followed from here on.
                *self = Results::of(record);
                return None;
            }
            self.followed = number;
            if let Some(result) = GameResult::between(&before_it, &self.standing, names) {
                return Some(result);
            }
        }
        None
    }
}
