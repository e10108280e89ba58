//! The replay of a file: what its cells add to a record.
ghost use Rattle.std.specs.Prelude.{◌≡◌, ◌⊎◌, ◌↔◌, [], ◌∷◌, None, IsTrue, OnOk};
ghost use Rattle.std.specs.Bool.{OnTrue, OnFalse};
ghost use Rattle.bg_match.specs.Match.{IsLog};
ghost use Rattle.bg_mat.specs.Telling.{Does, Game, deed_of, GoesOn, IsOver, IsOverMatch};
ghost use Rattle.bg_mat.specs.Replaying.{Adds, Begins, GoesOnBy, IsReplay, TellsScores, place_of};
ghost use Rattle.bg_mat.specs.ItemFaults.{IsDeedFault, RefusesEntry};
ghost use Rattle.bg_mat.specs.Refusals.{IsRefusedItem, Refuses, RefusesAt};
ghost use Rattle.bg_mat.specs.Rows.Headings.{IsScoresLine};
ghost use Rattle.std.specs.Prelude.{IfErr};

use crate::MatFault;
use crate::faults::{ReadFault, refused};
use crate::playing::moving::entry_of_dice;
use crate::rows::cells::Cell;
use crate::rows::headings::has_scores;
use bg_board::Player;
use bg_match::{Entry, EntryFault, Phase, Record, Standing};
use bg_turns::Dice;
use std::alloc::Global;

mod doubling;
mod moving;
mod winning;

/// A turn of which only the dice are given, pending until it is known whether the player moved.
#[derive(Clone, Copy, Debug, PartialEq, Eq)]
pub(crate) struct PendingTurn {
    line: u32,
    player: Player,
    dice: Dice,
}

/// What was read so far: the record and its standing, the line of each entry, the number of the
/// current game, the scores before it, and a pending turn.
#[derive(Drop)]
pub(crate) struct Replay {
    pub(crate) log: Record,
    pub(crate) lines: Vec<u32>,
    standing: Standing,
    game: u8,
    before: (u16, u16),
    pending: Option<PendingTurn>,
}

impl Replay {
    /// Creates the replay of a match without entries, of which nothing is read yet.
    pub(crate) fn new(alloc: Global, log: Record) -> Replay
        requires log { IsLog log }
        requires empty { log.entries ≡ [] }
        ensures { Begins log result }
    {
        let standing = log.standing();
        Replay {
            log,
            lines: Vec::new(alloc),
            standing,
            game: 0,
            before: (0, 0),
            pending: None,
        }
    }

    /// Appends an entry, with the line that it comes from.
    fn add(&mut self, line: u32, entry: Entry) -> Result<(), ReadFault>
        requires replay { IsReplay self.old }
        requires closed { self.old.pending ≡ None }
        ensures done { OnOk result (Adds self.old self.new line entry) }
        ensures fault { IfErr result (RefusesAt line (RefusesEntry self.old.log entry)) }
    {
        if self.lines.push(line).is_err() {
            return Err(ReadFault::Memory);
        }
        match self.log.push(entry) {
            Ok(()) => {
                self.standing = self.log.standing();
                Ok(())
            }
            Err(EntryFault::Memory) => Err(ReadFault::Memory),
            Err(why) => Err(refused(line, MatFault::Entry(why))),
        }
    }

    /// Returns whether the current game goes on.
    fn goes_on(&self) -> bool
        ensures on { OnTrue result (GoesOn (place_of self.now)) }
        ensures over { OnFalse result (IsOver (place_of self.now)) }
    {
        match self.standing.phase() {
            Phase::Over(_) => false,
            _ => self.standing.game() == self.game,
        }
    }

    /// Returns whether a game is to be opened.
    fn is_opening(&self) -> bool
        ensures { IsTrue result ↔ (self.now.standing.phase ≡ Phase.Opening) }
    {
        matches!(self.standing.phase(), Phase::Opening)
    }

    /// Returns the fault of a line that begins a game where none is to be opened.
    fn game_fault(&self) -> MatFault
        ensures { ((result ≡ MatFault.Entry EntryFault.MatchOver) × IsOverMatch self.now.standing)
            ⊎ ((result ≡ MatFault.GameGoesOn) × (IsOverMatch self.now.standing → ⊥)) }
    {
        match self.standing.phase() {
            Phase::Over(_) => MatFault::Entry(EntryFault::MatchOver),
            _ => MatFault::GameGoesOn,
        }
    }

    /// Begins the game with this number.
    pub(crate) fn begin_game(&mut self, line: u32, number: u16) -> Result<(), ReadFault>
        requires { IsReplay self.old }
        ensures done { OnOk result (GoesOnBy self.old self.new (record { line = line; item = Game number } ∷ [])) }
        ensures closed { OnOk result (self.new.pending ≡ None) }
        ensures fault { IfErr result (Refuses (IsRefusedItem self.old line (Game number))) }
    {
        self.close(false)?;
        if number != u16::from(self.game) + 1 {
            return Err(refused(line, MatFault::WrongGame));
        }
        let game = self.standing.game();
        if number != u16::from(game) || !self.is_opening() {
            return Err(refused(line, self.game_fault()));
        }
        self.game = game;
        self.before = self.standing.score();
        Ok(())
    }

    /// Appends what a player does, after the pending turn, if there is one.
    pub(crate) fn play(&mut self, line: u32, player: Player, cell: Cell) -> Result<(), ReadFault>
        requires { IsReplay self.old }
        ensures done { OnOk result (GoesOnBy self.old self.new
            (record { line = line; item = Does player (deed_of cell) } ∷ [])) }
        ensures fault { IfErr result (Refuses (IsRefusedItem self.old line (Does player (deed_of cell)))) }
    {
        let stays = self.stays_before(player, &cell);
        self.close(stays)?;
        self.play_next(line, player, cell)
    }

    /// Appends what a player does, where no turn is pending.
    fn play_next(&mut self, line: u32, player: Player, cell: Cell) -> Result<(), ReadFault>
        requires replay { IsReplay self.old }
        requires closed { self.old.pending ≡ None }
        ensures done { OnOk result (GoesOnBy self.old self.new
            (record { line = line; item = Does player (deed_of cell) } ∷ [])) }
        ensures fault { IfErr result (RefusesAt line
            (IsDeedFault self.old.log (place_of self.old) player (deed_of cell))) }
    {
        match cell {
            Cell::Wins(win) => self.win(line, player, win),
            cell if self.goes_on() => self.act(line, player, cell),
            _ => Err(refused(line, MatFault::GameOver)),
        }
    }

    /// Appends what a player does in a game that goes on.
    fn act(&mut self, line: u32, player: Player, cell: Cell) -> Result<(), ReadFault>
        requires replay { IsReplay self.old }
        requires goes_on { GoesOn (place_of self.old) }
        requires closed { self.old.pending ≡ None }
        ensures done { OnOk result (GoesOnBy self.old self.new
            (record { line = line; item = Does player (deed_of cell) } ∷ [])) }
        ensures fault { IfErr result (RefusesAt line
            (IsDeedFault self.old.log (place_of self.old) player (deed_of cell))) }
    {
        match cell {
            Cell::Turn(dice, legs) if legs.is_empty() => {
                if let Err(why) = entry_of_dice(player, dice, &self.standing) {
                    return Err(refused(line, why));
                }
                self.pending = Some(PendingTurn { line, player, dice });
                Ok(())
            }
            Cell::Turn(dice, legs) => self.turn(line, player, dice, &legs),
            Cell::CannotMove(dice) => self.cannot_move(line, player, dice),
            Cell::Unknown(_) => Err(refused(line, MatFault::UnknownTurn)),
            Cell::Doubles(shows) => self.double(line, player, shows),
            Cell::Takes => self.take(line, player),
            Cell::Drops => self.drop(line, player),
            Cell::Wins(win) => self.win(line, player, win),
        }
    }

    /// Compares a line with the scores before the game.
    pub(crate) fn tell_scores(&self, number: u32, line: &[u8]) -> Result<(), ReadFault>
        requires replay { IsReplay self.now }
        requires closed { self.now.pending ≡ None }
        ensures done { OnOk result (TellsScores self.now self.now number line.now) }
        ensures fault { IfErr result (RefusesAt number (λ why. (why ≡ MatFault.WrongScores)
            × (IsScoresLine line.now self.now.standing.x_score self.now.standing.o_score → ⊥))) }
    {
        let (x, o) = self.standing.score();
        if !has_scores(line, x, o) {
            return Err(refused(number, MatFault::WrongScores));
        }
        Ok(())
    }
}
