//! The views of a person at a terminal.

use crate::foreign_entries::NOT_CHOSEN;
use crate::play::Table;
use crate::play::answers::answers_text;
use crate::play::joining::Joining;
use crate::play::kept_choices::kept_text;
use crate::play::players::{named_score, players_text};
use crate::seats::Round;
use bg_board::Player;
use bg_command_parts::Silence;
use bg_console::{allocated, put_entries, written};
use bg_match::{Number, Record, Standing};
use bg_processes::{Going, LivenessChange};
use bg_reports::Ending;
use bg_table::{Drawing, prompt_text, result_text, seat_view_text};
use std::alloc::{AllocError, Global};

/// The hint to a player who comes.
const HINT: &[u8] = b"`help` lists what you can type; Enter alone draws the board";

/// The start of the line of an entry that begins a game.
const OPENING: &[u8] = b"open ";

/// The start of the line of the score in a view of a match.
const SCORE: &[u8] = b"score: ";

/// Number of entries that are shown at once, at most. A screen has little more.
const MOST_NEWS: Number = 20;

/// The message behind the reason why nothing is heard of the referee.
const KEPT_MEANWHILE: &str =
    "What you choose now is kept, and sent when the referee is heard again";

impl<'a> Table<'a> {
    /// Shows the standing of the match as far as the seat knows it, as
    /// [`show_table`](Self::show_table) does, below the names of the players.
    pub(super) fn greet(&mut self) -> Result<(), Ending> {
        let is_first = self.stood.is_none();
        self.note_shown();
        self.show_players()?;
        if is_first {
            self.screen.say(HINT)?;
        }
        self.show_table()
    }

    /// Shows the board below the names of the players, and what the player may do.
    pub(super) fn look_at_table(&self) -> Result<(), Ending> {
        self.show_players()?;
        self.show_board()?;
        self.offer()
    }

    /// Shows the names of the players, if one has a name.
    fn show_players(&self) -> Result<(), Ending> {
        let names = &self.seat.names;
        let players = allocated(self.rt, players_text(self.rt.alloc(), names, self.player))?;
        if players.is_empty() {
            return Ok(());
        }
        self.screen.say(players.as_bytes())
    }

    /// Notes that all entries are shown, and forgets what was typed of a turn before them.
    pub(super) fn note_shown(&mut self) {
        self.typed.clear();
        self.listed = 0;
        if let Some(record) = self.seat.record() {
            self.shown = record.len();
            self.stood = Some(record.standing());
        }
    }

    /// Shows the board. Below it, plays the only legal turn where that is to be done at once, and
    /// else shows what the player may do.
    fn show_table(&mut self) -> Result<(), Ending> {
        self.show_board()?;
        if self.plays_at_once()? {
            Ok(())
        } else {
            self.offer()
        }
    }

    /// Shows the board, with the names of the players beside the score where they fit.
    fn show_board(&self) -> Result<(), Ending> {
        match self.seat.record() {
            Some(record) => {
                let view = allocated(self.rt, self.view(self.rt.alloc(), record))?;
                self.screen.show_board(&view, self.player)
            }
            None => Ok(()),
        }
    }

    /// Returns the player's view of a record, as the screen has room for it.
    fn view(&self, alloc: Global, record: &Record) -> Result<Vec<u8>, AllocError> {
        let (player, columns) = (self.player, self.screen.columns);
        let view = seat_view_text(alloc, record, player, Drawing::fitting(columns))?;
        let (standing, names) = (record.standing(), &self.seat.names);
        match named_score(alloc, &standing, names, player, columns)? {
            Some(score) => with_score(alloc, &view, score.as_bytes()),
            None => Ok(view),
        }
    }

    /// Shows the only legal turn if there is one, and what the player may do or that their choice
    /// waits.
    fn offer(&self) -> Result<(), Ending> {
        self.show_forced()?;
        self.prompt()
    }

    /// Prints whose turn it is and what the player may do, with the outcome of each answer to an
    /// offer, or that their choice waits.
    pub(super) fn prompt(&self) -> Result<(), Ending> {
        let alloc = self.rt.alloc();
        if let Some((_, action)) = self.seat.open_claim() {
            return self.screen.say_made(kept_text(alloc, self.player, &action));
        }
        let Some(record) = self.seat.record() else {
            return Ok(());
        };
        let standing = record.standing();
        let answers = allocated(self.rt, answers_text(alloc, &standing, self.player))?;
        if !answers.is_empty() {
            self.screen.say(&answers)?;
        }
        self.screen
            .say_turn(prompt_text(alloc, &standing, self.player))?;
        self.tell_typed()
    }

    /// Shows a player at the table what a round brought, and below it whose turn it is and what the
    /// player may do.
    pub(super) fn show_round(&mut self, round: Round) -> Result<(), Ending> {
        if !self.is_seated() {
            return Ok(());
        }
        let mut wants_prompt = false;
        if let Some(word) = round.word {
            self.is_silent = word == LivenessChange::Silent;
            self.say_liveness(word)?;
            wants_prompt = true;
        }
        if self.joining == Joining::Joined {
            if let Some(number) = self.foreign.take().or(round.foreign) {
                self.screen.say_number(NOT_CHOSEN.0, number, NOT_CHOSEN.1)?;
                wants_prompt = true;
            }
            if self.seat.held() > self.shown {
                wants_prompt = !self.show_news(round.going)?;
            }
        }
        wants_prompt = self.tell_of_unanswered(round)? || wants_prompt;
        if self.tell_of_opponent()? || wants_prompt {
            return self.prompt();
        }
        Ok(())
    }

    /// Prints whether the referee is heard of. If it isn't, prints why that may be, and what
    /// becomes of a choice.
    fn say_liveness(&self, word: LivenessChange) -> Result<(), Ending> {
        let alloc = self.rt.alloc();
        let line = if word == LivenessChange::Silent {
            let why = Silence::of(self.rt, &self.seat.table);
            format!(in alloc; "{word}: {why}. {KEPT_MEANWHILE}")
        } else {
            format!(in alloc; "{word}")
        };
        self.screen.say(allocated(self.rt, line)?.as_bytes())
    }

    /// Shows the entries that came, the result of a game or the match, and the board where they
    /// matter to the player; of more entries than a screen has, the board alone. Returns whether it
    /// showed the board, which has a prompt below it.
    fn show_news(&mut self, going: Going) -> Result<bool, Ending> {
        let Some(record) = self.seat.record() else {
            return Ok(false);
        };
        if record.len().saturating_sub(self.shown) > MOST_NEWS {
            self.greet()?;
            return Ok(true);
        }
        self.screen.print(&self.news(record)?)?;
        self.note_shown();
        let acts = going == Going::Over || self.seat.awaits(self.player);
        if acts {
            self.show_table()?;
        }
        Ok(acts)
    }

    /// Returns the lines of the entries of a record that were not shown yet, with the result of a
    /// game or the match.
    fn news(&self, record: &Record) -> Result<Vec<u8>, Ending> {
        let rt = self.rt;
        let mut text = Vec::new(rt.alloc());
        written(rt, put_entries(&mut text, record, self.shown))?;
        match &self.stood {
            Some(before) => {
                let after = record.standing();
                allocated(
                    rt,
                    with_result(rt.alloc(), &text, before, &after, self.player),
                )
            }
            None => Ok(text),
        }
    }
}

/// Returns a view of a match with this line in place of its line of the score.
fn with_score(alloc: Global, view: &[u8], score: &[u8]) -> Result<Vec<u8>, AllocError> {
    let mut text = Vec::new(alloc);
    for line in view.split_inclusive(|byte| *byte == b'\n') {
        if line.starts_with(SCORE) {
            text.extend_from_slice(score)?;
            text.push(b'\n')?;
        } else {
            text.extend_from_slice(line)?;
        }
    }
    Ok(text)
}

/// Returns the lines of the entries between two standings, as this player is told of them: with the
/// result of a game behind its last entry, before the opening of the next one if that has come too.
fn with_result(
    alloc: Global,
    entries: &[u8],
    before: &Standing,
    after: &Standing,
    player: Player,
) -> Result<Vec<u8>, AllocError> {
    let result = result_text(alloc, before, after, player)?;
    let mut text = Vec::new(alloc);
    let mut rest = result.as_slice();
    for line in entries.split_inclusive(|byte| *byte == b'\n') {
        if line.starts_with(OPENING) {
            text.extend_from_slice(rest)?;
            rest = &[];
        }
        text.extend_from_slice(line)?;
    }
    text.extend_from_slice(rest)?;
    Ok(text)
}
