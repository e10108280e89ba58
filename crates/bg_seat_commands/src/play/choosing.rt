//! A person's choices at a terminal, and the reasons for refusing them.

use crate::play::Table;
use bg_match::Action;
use bg_party::ChooseFault;
use bg_reports::Ending;
use bg_table::{offered, refusal_text};
use bg_world::{Outcome, outcome_text};

/// The messages on a choice that can't be sent yet, that could not be saved, and that can't be
/// made.
const KEPT: &[u8] = b"your choice is kept, and sent when the referee is heard again";

const UNSAVED: &[u8] = b"your choice could not be saved, and was not made: choose again";

const STANDS_STILL: &[u8] = b"nothing can be chosen until your files can be read again";

impl<'a> Table<'a> {
    /// Returns whether no choice waits for the referee.
    pub(super) fn claims_nothing(&self) -> bool {
        self.seat.open_claim().is_none()
    }

    /// Returns whether the player may offer to resign now, and no choice waits for the referee.
    pub(super) fn may_resign(&self) -> bool {
        match self.seat.record() {
            Some(record) => {
                self.claims_nothing() && offered(&record.standing(), self.player).resign
            }
            None => false,
        }
    }

    /// Claims an action, or prints why it can't be claimed.
    pub(super) fn choose(&mut self, action: Action) -> Result<(), Ending> {
        match self.seat.choose(action.copy())? {
            Outcome::Chose(Ok(_)) => self.note_chosen(),
            Outcome::Chose(Err(fault)) => self.refuse(&action, fault),
            Outcome::SaveFault => self.screen.say(UNSAVED),
            Outcome::Down => self.screen.say(STANDS_STILL),
            outcome => self.screen.say(outcome_text(&outcome).as_str().as_bytes()),
        }
    }

    /// Forgets what was typed of a turn, as a choice is made. Says so where the choice waits for
    /// the referee.
    fn note_chosen(&mut self) -> Result<(), Ending> {
        self.typed.clear();
        if self.is_silent {
            self.screen.say(KEPT)
        } else {
            Ok(())
        }
    }

    /// Prints why an action can't be claimed, what the player may do instead, and what was typed of
    /// a turn.
    fn refuse(&self, action: &Action, fault: ChooseFault) -> Result<(), Ending> {
        let (ChooseFault::Illegal(fault), Some(record)) = (fault, self.seat.record()) else {
            return self.prompt();
        };
        let standing = record.standing();
        let text = refusal_text(self.rt.alloc(), &standing, self.player, action, fault);
        self.screen.say_turn(text)?;
        self.tell_typed()
    }
}
