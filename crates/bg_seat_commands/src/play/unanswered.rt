//! The message on a choice that the referee doesn't answer.

use crate::play::Table;
use crate::seats::Round;
use bg_match::Number;
use bg_reports::Ending;

/// Number of ticks for which a choice waits, at least, before the player is told: three seconds.
const TICKS_TO_ANSWER: u32 = 30;

/// Number of these ticks, at least, in which the referee is heard, so that it is not away.
const HEARD_TICKS: u32 = 3;

/// The message, once for a choice.
const NO_ANSWER: &[u8] =
    b"the referee is heard, and doesn't answer your choice: whoever runs it finds the reason in its messages, perhaps that its folder is an older copy";

/// The choice that waits for the referee, and how long it does.
#[derive(Clone, Copy, Default)]
pub(super) struct Unanswered {
    /// The number of the entry that is claimed.
    claimed: Option<Number>,
    /// Number of ticks since it is, without a silence of the referee.
    ticks: u32,
    /// Number of these ticks in which something came from the referee.
    heard_ticks: u32,
    /// The socket's last count of what came.
    heard: u32,
    is_told: bool,
}

impl Unanswered {
    /// Counts a round with a tick, after which this entry is claimed and so many datagrams ever
    /// came from the referee. Returns whether the player is to be told now.
    fn count_tick(&mut self, claimed: Option<Number>, heard: u32, is_silent: bool) -> bool {
        let is_heard = heard != self.heard;
        let is_told = self.is_told && claimed == self.claimed;
        if claimed.is_none() || claimed != self.claimed || is_silent {
            *self = Unanswered::default();
        }
        self.claimed = claimed;
        self.heard = heard;
        self.is_told = is_told;
        self.ticks = self.ticks.saturating_add(1);
        self.heard_ticks = self.heard_ticks.saturating_add(u32::from(is_heard));
        if claimed.is_none() || self.ticks < TICKS_TO_ANSWER || self.heard_ticks < HEARD_TICKS {
            return false;
        }
        self.is_told = true;
        !is_told
    }
}

impl<'a> Table<'a> {
    /// Prints that the referee is heard and doesn't answer the player's choice, where that is so
    /// for three seconds. Returns whether it was printed.
    pub(super) fn tell_of_unanswered(&mut self, round: Round) -> Result<bool, Ending> {
        if !round.tick {
            return Ok(false);
        }
        let claimed = self.seat.open_claim().map(|(number, _)| number);
        let heard = self.seat.link().heard();
        if !self.unanswered.count_tick(claimed, heard, self.is_silent) {
            return Ok(false);
        }
        self.screen.say(NO_ANSWER)?;
        Ok(true)
    }
}
