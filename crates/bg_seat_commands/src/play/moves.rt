//! A turn as a person types it, whole or step by step.

use crate::play::Table;
use crate::play::single_dice::in_single_dice;
use crate::play::slips::slip_text;
use crate::play::turn_words::{
    adds_nothing, only_way, together, turn_beyond, which_of, with_steps, without_move,
};
use bg_board::Board;
use bg_console::{allocated, no_memory};
use bg_match::{Action, Phase};
use bg_reports::Ending;
use bg_table::turn_refusal_text;
use bg_turns::{Dice, Turn, TurnFault, judge_turn};
use bg_typed::{TypedFault, fits_marks, read_turn, typed_steps};

/// The message on a line that is none of those that may be typed.
const NOT_UNDERSTOOD: &[u8] = b"that is not understood: `help` lists what may be typed";

/// The faults of a typed movement, in words.
const TOO_MANY_STEPS: &[u8] = b"a turn has four steps at most";

const WRONG_HITS: &[u8] =
    b"this turn doesn't hit exactly where you marked it with `*`: leave the marks out, or mark all hits";

const SEVERAL_TURNS: &[u8] = b"several turns are legal: `legal` lists them";

const NO_SUCH_TURN: &[u8] = b"no legal turn has this movement: `legal` lists those that are";

impl<'a> Table<'a> {
    /// Returns the board and the dice that the player is to move, if there are any.
    pub(super) fn to_move(&self) -> Option<(Board, Dice)> {
        let standing = self.seat.record()?.standing();
        match standing.phase() {
            Phase::ToMove(mover, dice) if mover == self.player => Some((standing.board(), dice)),
            _ => None,
        }
    }

    /// Plays a line as a turn, or as one more part of a turn.
    pub(super) fn move_by(&mut self, line: &[u8]) -> Result<(), Ending> {
        let rt = self.rt;
        let Some((board, dice)) = self.to_move() else {
            return self.refuse_move(line);
        };
        if !self.typed.is_empty() && adds_nothing(line) {
            return self.refuse_part(&board, dice);
        }
        let whole = allocated(rt, together(rt.alloc(), &self.typed, line))?;
        match read_turn(rt.alloc(), &whole, &board, self.player, dice) {
            Ok(turn) => self.play_read(&whole, &board, dice, turn),
            Err(TypedFault::NoSuchTurn) => self.go_on(whole, &board, dice),
            Err(TypedFault::SeveralTurns) => match self.only_way()? {
                Some(turn) => self.choose(Action::Move(turn)),
                None => self.screen.say(SEVERAL_TURNS),
            },
            Err(fault) => self.refuse_line(line, &fault),
        }
    }

    /// Returns the greatest legal turn, where all legal turns lead to one position.
    pub(super) fn only_way(&self) -> Result<Option<Turn>, Ending> {
        match self.to_move() {
            Some((board, dice)) => {
                let only = only_way(self.rt.alloc(), &board, self.player, dice);
                allocated(self.rt, only)
            }
            None => Ok(None),
        }
    }

    /// Plays the only legal turn, where there is one and such a turn is to be played at once.
    /// Returns whether it is played.
    pub(super) fn plays_at_once(&mut self) -> Result<bool, Ending> {
        if !self.plays_forced || !self.claims_nothing() {
            return Ok(false);
        }
        let Some(turn) = self.only_way()? else {
            return Ok(false);
        };
        let behind = if turn.steps().is_empty() {
            " nothing can be moved"
        } else {
            ""
        };
        self.say_steps("the only turn is played:", &turn, behind)?;
        self.choose(Action::Move(turn))?;
        Ok(!self.claims_nothing())
    }

    /// Prints why a line is not a move now.
    fn refuse_move(&mut self, line: &[u8]) -> Result<(), Ending> {
        match typed_steps(self.rt.alloc(), line) {
            Ok(turn) => self.choose(Action::Move(turn)),
            Err(fault) => self.refuse_line(line, &fault),
        }
    }

    /// Prints why a line is not a turn: of one that is no movement its likely slip, if it has one.
    fn refuse_line(&self, line: &[u8], fault: &TypedFault) -> Result<(), Ending> {
        if *fault == TypedFault::NotAMovement {
            let slip = slip_text(self.rt.alloc(), without_move(line));
            if let Some(text) = allocated(self.rt, slip)? {
                return self.screen.say(&text);
            }
        }
        self.tell_fault(fault)
    }

    /// Prints that more must be played than the typed part of a turn, with a turn that begins so.
    fn refuse_part(&self, board: &Board, dice: Dice) -> Result<(), Ending> {
        let part = match typed_steps(self.rt.alloc(), &self.typed) {
            Ok(part) => in_single_dice(part, dice),
            Err(fault) => return self.tell_fault(&fault),
        };
        if let Some(turn) = self.beyond(board, dice, &part)? {
            self.say_steps("you must play more:", &turn, " can be played")?;
        }
        self.tell_typed()
    }

    /// Prints why a turn can't be played, and what was typed of it before.
    fn refuse_turn(
        &self,
        board: &Board,
        dice: Dice,
        turn: &Turn,
        fault: TurnFault,
    ) -> Result<(), Ending> {
        let text = turn_refusal_text(self.rt.alloc(), board, self.player, dice, turn, fault);
        self.screen.say_made(text)?;
        self.tell_typed()
    }

    /// Keeps what was typed of a turn, where a legal turn begins with its steps and they hit where
    /// hits are marked, if any are. Otherwise prints why it is refused.
    fn go_on(&mut self, typed: Vec<u8>, board: &Board, dice: Dice) -> Result<(), Ending> {
        let alloc = self.rt.alloc();
        let fits = match typed_steps(alloc, &typed) {
            Ok(part) => {
                let part = in_single_dice(part, dice);
                if !self.begins_turn(board, dice, &part)? {
                    return Ok(());
                }
                fits_marks(alloc, &typed, board, self.player, &part)
            }
            Err(fault) => Err(fault),
        };
        match fits {
            Ok(true) => {
                self.typed = typed;
                self.tell_typed()
            }
            Ok(false) => self.tell_fault(&TypedFault::WrongHits),
            Err(fault) => self.tell_fault(&fault),
        }
    }

    /// Returns whether a legal turn begins with the steps of this one and has more. Otherwise prints
    /// why this one can't be played.
    fn begins_turn(&self, board: &Board, dice: Dice, part: &Turn) -> Result<bool, Ending> {
        let Err(fault) = judge_turn(board, self.player, dice, part) else {
            return Ok(false);
        };
        if fault == TurnFault::MoreCanBePlayed && self.beyond(board, dice, part)?.is_some() {
            return Ok(true);
        }
        self.refuse_turn(board, dice, part, fault)?;
        Ok(false)
    }

    /// Plays the turn that was read. But asks which one is meant where what was typed is also a
    /// step that another turn begins with: `3/off` may take both dice, or the larger one alone.
    fn play_read(
        &mut self,
        typed: &[u8],
        board: &Board,
        dice: Dice,
        turn: Turn,
    ) -> Result<(), Ending> {
        match self.turn_begun(typed, board, dice, &turn)? {
            Some(other) => self.ask_which(&turn, &other),
            None => self.choose(Action::Move(turn)),
        }
    }

    /// Returns the greatest legal turn that begins with the steps as they were typed and has more,
    /// where these are not the turn that was read.
    fn turn_begun(
        &self,
        typed: &[u8],
        board: &Board,
        dice: Dice,
        turn: &Turn,
    ) -> Result<Option<Turn>, Ending> {
        match typed_steps(self.rt.alloc(), typed) {
            Ok(part) if !part.steps().is_empty() && part.steps() != turn.steps() => {
                self.beyond(board, dice, &part)
            }
            _ => Ok(None),
        }
    }

    /// Returns the greatest legal turn that begins with the steps of this one and has more.
    fn beyond(&self, board: &Board, dice: Dice, part: &Turn) -> Result<Option<Turn>, Ending> {
        let rt = self.rt;
        allocated(rt, turn_beyond(rt.alloc(), board, self.player, dice, part))
    }

    /// Asks which of two turns is meant.
    fn ask_which(&self, one: &Turn, other: &Turn) -> Result<(), Ending> {
        self.screen
            .say_made(which_of(self.rt.alloc(), self.player, one, other))
    }

    /// Prints why what was typed is not a turn.
    fn tell_fault(&self, fault: &TypedFault) -> Result<(), Ending> {
        let words = match fault {
            TypedFault::NotAMovement => NOT_UNDERSTOOD,
            TypedFault::TooManySteps => TOO_MANY_STEPS,
            TypedFault::WrongHits => WRONG_HITS,
            TypedFault::SeveralTurns => SEVERAL_TURNS,
            TypedFault::NoSuchTurn => NO_SUCH_TURN,
            TypedFault::Ambiguous(one, other) => return self.ask_which(one, other),
            TypedFault::Memory => return Err(no_memory(self.rt)),
        };
        self.screen.say(words)
    }

    /// Prints what was typed of a turn, if anything was.
    pub(super) fn tell_typed(&self) -> Result<(), Ending> {
        match typed_steps(self.rt.alloc(), &self.typed) {
            Ok(turn) if !self.typed.is_empty() => {
                self.say_steps("so far", &turn, ": type the next step, or `undo`")
            }
            _ => Ok(()),
        }
    }

    /// Prints the steps of a turn between these words.
    fn say_steps(&self, before: &str, turn: &Turn, behind: &str) -> Result<(), Ending> {
        let line = with_steps(self.rt.alloc(), before, self.player, turn, behind);
        self.screen.say_made(line)
    }
}
