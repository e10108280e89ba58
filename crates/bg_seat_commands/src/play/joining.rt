//! A person's way to the table.

use crate::play::Table;
use crate::seats::Round;
use bg_processes::Going;
use bg_reports::Ending;

/// Number of ticks for which a player who comes waits for what the referee has, at most.
const TICKS_TO_WAIT: u32 = 10;

/// Number of ticks without an entry after which the seat has what the referee has.
const STILL_TICKS: u32 = 3;

/// How far a player has come to the table. Entries that come before the player has joined are not
/// shown one by one: they may have been shown to the player before.
#[derive(Clone, Copy, PartialEq, Eq)]
pub(super) enum Joining {
    /// Nothing is shown yet, after so many ticks.
    Waiting(u32),
    /// The board is shown as the seat knows it, and the referee isn't heard yet.
    Seated,
    /// The present board is shown.
    Joined,
}

impl<'a> Table<'a> {
    /// Returns whether the board was shown.
    pub(super) fn is_seated(&self) -> bool {
        !matches!(self.joining, Joining::Waiting(_))
    }

    /// Shows the board when this round shows that the seat has what the referee has, or after a
    /// second as the seat knows it.
    pub(super) fn join(&mut self, round: Round) -> Result<(), Ending> {
        if self.joining == Joining::Joined {
            return Ok(());
        }
        self.foreign = self.foreign.or(round.foreign);
        if self.has_caught_up(round) {
            let has_news = self.seat.held() > self.shown;
            let is_seated = self.is_seated();
            self.joining = Joining::Joined;
            return if has_news || !is_seated {
                self.greet()
            } else {
                Ok(())
            };
        }
        if let Joining::Waiting(ticks) = self.joining {
            let ticks = ticks.saturating_add(u32::from(round.tick));
            self.joining = Joining::Waiting(ticks);
            if ticks > TICKS_TO_WAIT {
                return self.sit_down();
            }
        }
        Ok(())
    }

    /// Shows the board as the seat knows it, unless it was shown.
    pub(super) fn sit_down(&mut self) -> Result<(), Ending> {
        if self.is_seated() {
            return Ok(());
        }
        self.joining = Joining::Seated;
        self.greet()
    }

    /// Returns whether the seat has what the referee has, as far as this round shows that: the
    /// referee is heard, and nothing came for some ticks.
    fn has_caught_up(&mut self, round: Round) -> bool {
        if round.going == Going::Over {
            return true;
        }
        if !round.tick {
            return false;
        }
        let held = self.seat.held();
        let is_still = held == self.caught_up && self.seat.link().heard() > 0;
        self.caught_up = held;
        self.still = if is_still {
            self.still.saturating_add(1)
        } else {
            0
        };
        self.still >= STILL_TICKS
    }
}
