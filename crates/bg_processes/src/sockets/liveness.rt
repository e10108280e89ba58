//! The liveness of the referee, as a party hears of it.
ghost use Rattle.std.specs.Prelude.{◌≡◌};
ghost use Rattle.bg_processes.specs.Liveness.{at_first, is_silent, asks_in, after_round, change_between};

use crate::sockets::party_sockets::PartySocket;
use std::fmt;
use std::fmt::{Display, Formatter, Write};
use std::time::Clock;

/// Number of ticks from one on which a party asks whether the referee is there to the next such
/// one.
const TICKS_TO_ASK: u8 = 10;

/// Number of ticks without a sign of the referee after which it counts as silent. Each comes a
/// tenth of a second after the one before, or later.
const SILENT_TICKS: u8 = 31;

/// A change in the referee's liveness.
#[derive(Clone, Copy, Debug, PartialEq, Eq)]
pub enum LivenessChange {
    /// Nothing was heard of the referee for three seconds in which the process listened.
    Silent,
    /// The referee is heard of again.
    HeardAgain,
}

impl Display for LivenessChange {
    fn fmt<W: Write>(&self, f: &mut Formatter<W>) -> fmt::Result {
        f.write_str(match self {
            LivenessChange::Silent => "no word from the referee for three seconds",
            LivenessChange::HeardAgain => "the referee is heard again",
        })
    }
}

/// Asks the referee once a second whether it is there, and counts for how many ticks nothing of it
/// came (docs/OPERATING.md, "Ports"). However long a process computes or stands still between two
/// rounds, that is one tick, so only time in which it listened counts.
#[derive(Debug, Drop)]
pub struct Liveness {
    /// Number of ticks before the one on which the party asks next.
    wait: u8,
    /// The socket's last count.
    heard: u32,
    /// Number of ticks since that count came, at most those of silence.
    unheard: u8,
}

impl Liveness {
    /// Creates the state of a process that begins.
    pub fn new() -> Liveness
        ensures { result ≡ at_first }
    {
        Liveness {
            wait: 0,
            heard: 0,
            unheard: 0,
        }
    }

    /// Returns whether the referee counts as silent: at least 31 ticks were due since something of
    /// it came, which takes three seconds or more.
    pub fn is_silent(&self) -> bool
        ensures { result ≡ is_silent self.now }
    {
        self.unheard >= SILENT_TICKS
    }

    /// Returns what has changed after a round over this socket, if anything has. `tick` says
    /// whether a tick was due in it. Before, it asks the referee, if that is due.
    pub fn after_round<C: Clock>(
        &mut self,
        socket: &PartySocket<'_, C>,
        tick: bool,
    ) -> Option<LivenessChange> {
        if self.asks(tick) {
            socket.ask();
        }
        self.count_round(socket.heard(), tick)
    }

    /// Returns whether the party asks the referee in a round: on its first tick, and on each tenth
    /// after that. `tick` says whether a tick is due in it.
    pub fn asks(&self, tick: bool) -> bool
        ensures { result ≡ asks_in self.now tick }
    {
        tick && self.wait == 0
    }

    /// Counts a round, and returns what it has changed, if anything. `heard` is the number of
    /// datagrams that ever came from the referee, and `tick` says whether a tick was due.
    pub fn count_round(&mut self, heard: u32, tick: bool) -> Option<LivenessChange>
        ensures after { self.new ≡ after_round self.old heard tick }
        ensures told { result ≡ change_between self.old self.new }
    {
        let was_silent = self.is_silent();
        if heard != self.heard {
            self.heard = heard;
            self.unheard = 0;
        }
        if tick {
            self.wait = self.wait.checked_sub(1).unwrap_or(TICKS_TO_ASK - 1);
            self.unheard = self.unheard.saturating_add(1);
        }
        self.unheard = self.unheard.min(SILENT_TICKS);
        match (was_silent, self.is_silent()) {
            (false, true) => Some(LivenessChange::Silent),
            (true, false) => Some(LivenessChange::HeardAgain),
            (false, false) | (true, true) => None,
        }
    }
}
