//! The messages on a referee that isn't heard.

use crate::silences::Silence;
use bg_console::say;
use bg_processes::{Liveness, LivenessChange, MatchFile, PartySocket};
use bg_wire::REFEREE;
use std::time::Clock;

/// The message to a log, if a referee that was heard is silent.
const A_MINUTE: &str = "no word from the referee for a minute";

/// Who reads standard error. What they are told of a silent referee depends on it.
#[derive(Clone, Copy, PartialEq, Eq)]
pub enum Audience {
    /// Nobody, since the screen shows each silence.
    Nobody,
    /// A person at a terminal, who is told of each silence of three seconds.
    Person,
    /// A log, which is told after three seconds if the referee was never heard, and otherwise after
    /// a minute of silence.
    Log,
    /// A log in which a [`Logbook`](crate::Logbook) tells of that minute.
    LogWithLogbook,
}

/// Reports on standard error that the referee of a match isn't heard, and that it is heard again
/// (docs/OPERATING.md, "Messages").
#[derive(Drop)]
pub struct SilenceReporter<'a> {
    rt: &'a HostRuntime,
    table: MatchFile,
    audience: Audience,
    /// Whether a silence was reported that has not ended.
    is_told: bool,
}

impl<'a> SilenceReporter<'a> {
    /// Creates a reporter on the referee of the match of this file, which has reported nothing yet.
    pub fn new(rt: &'a HostRuntime, table: MatchFile, audience: Audience) -> SilenceReporter<'a> {
        SilenceReporter {
            rt,
            table,
            audience,
            is_told: false,
        }
    }

    /// Reports what a round over this socket has changed, by the referee's liveness. Call it after
    /// each round.
    pub fn after_round<C: Clock>(&mut self, socket: &PartySocket<'_, C>, liveness: &Liveness) {
        let was_heard = socket.heard() > 0;
        let is_told = liveness.is_silent()
            && match self.audience {
                Audience::Nobody => false,
                Audience::Person => true,
                Audience::Log => !was_heard || !socket.hears(REFEREE),
                Audience::LogWithLogbook => !was_heard,
            };
        if is_told == self.is_told {
            return;
        }
        self.is_told = is_told;
        if is_told {
            self.say_silence(was_heard);
        } else if self.audience != Audience::LogWithLogbook {
            say(self.rt, LivenessChange::HeardAgain);
        }
    }

    /// Reports a silence, and its likely reason.
    fn say_silence(&self, was_heard: bool) {
        let why = Silence::of(self.rt, &self.table);
        if was_heard && self.audience == Audience::Log {
            say(self.rt, format_args!("{A_MINUTE}: {why}"));
        } else {
            let silent = LivenessChange::Silent;
            say(self.rt, format_args!("{silent}: {why}"));
        }
    }
}
