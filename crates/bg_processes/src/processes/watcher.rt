//! A watcher of a match, in a process of its own.
ghost use Rattle.std.specs.Prelude.{◌≡◌, ◌≤◌, ◌↔◌, IsOk, IfOk};
ghost use Rattle.bg_match.specs.Limits.{IsMatchLength};
ghost use Rattle.bg_match.specs.Terms.{match_length};
ghost use Rattle.bg_wire.specs.Entries.Codes.{first_watcher};
ghost use Rattle.bg_protocol.specs.Worlds.Views.{link_view};
ghost use Rattle.bg_processes.specs.Rounds.{ends_takes as is_last_take, most_taken};
ghost use Rattle.bg_processes.specs.Runs.{Repeats};
ghost use Rattle.bg_processes.specs.WatcherRounds.{PlaysWatcherRound, RunsWatcher, SendsWhere, WatcherBegins};
ghost use Rattle.bg_processes.specs.WatcherRounds.{WatcherHappens, log_of, take_at, tick_at, watcher_moment};

use crate::processes::rounds::{Going, MOST_PARTIES, MOST_TAKEN, ends_takes, is_over};
use bg_auto::Observer;
use bg_match::{LengthFault, Record, Terms};
use bg_world::{Event, Link, Outcome, WatcherNode};
use std::alloc::Global;

/// A watcher of a match as a process runs it, over its own link (docs/PROTOCOL.md,
/// "Parties in processes of their own"). A round takes what has come, and sends. Between two rounds
/// the process waits.
pub struct WatcherProcess<L> {
    party: u8,
    node: WatcherNode,
    link: L,
}

// Written out, so that an owner proves one call, and not the drop of each field.
impl<L: Drop> Drop for WatcherProcess<L> {
    fn drop(self) {
        let WatcherProcess {
            party: _,
            node: _,
            link: _,
        } = self;
    }
}

impl<L: Link + Drop> WatcherProcess<L> {
    /// Creates a watcher that holds no entry. `party` is its number, from 3.
    ///
    /// # Errors
    /// `LengthOutOfRange` where the length is not from 1 to 99.
    pub fn begin(
        alloc: Global,
        party: u8,
        id: u64,
        terms: Terms,
        link: L,
    ) -> Result<WatcherProcess<L>, LengthFault>
        requires { first_watcher ≤ party }
        ensures ok { IsOk result ↔ IsMatchLength (match_length terms) }
        ensures begins { IfOk result (λ process. WatcherBegins party id terms (link_view L.Link link)
            (watcher_moment L.Link process)) }
    {
        Ok(WatcherProcess {
            party,
            node: WatcherNode::fresh(alloc, party, id, terms)?,
            link,
        })
    }
}

impl<L: Link> WatcherProcess<L> {
    /// Returns the watcher's record.
    pub fn held(&self) -> &Record
        ensures { result.now ≡ log_of (watcher_moment L.Link self.now) }
    {
        self.node.held()
    }

    /// Returns the watcher's link, for instance to wait for it.
    pub fn link(&self) -> &L
        ensures { result.now ≡ self.now.link }
    {
        &self.link
    }

    /// Runs one round; `tick` says whether a tick is due. The observer is told what happens.
    pub fn round<O: Observer>(&mut self, tick: bool, observer: &mut O) -> Going
        ensures parts { PlaysWatcherRound L.is_honest (watcher_moment L.Link self.old) tick result
            (watcher_moment L.Link self.new) }
        ensures runs { RunsWatcher L.is_honest (watcher_moment L.Link self.old) (watcher_moment L.Link self.new) }
    {
        self.play(tick, observer)
    }

    /// Runs the parts of one round.
    fn play<O: Observer>(&mut self, tick: bool, observer: &mut O) -> Going
        ensures { PlaysWatcherRound L.is_honest (watcher_moment L.Link self.old) tick result
            (watcher_moment L.Link self.new) }
    {
        self.take_all(observer);
        if is_over(Some(self.node.held())) {
            return Going::Over;
        }
        self.send(tick, observer);
        Going::On
    }

    fn take_all<O: Observer>(&mut self, observer: &mut O)
        ensures { Repeats (WatcherHappens L.is_honest) take_at is_last_take most_taken
            (watcher_moment L.Link self.old) (watcher_moment L.Link self.new) }
    {
        for _ in 0..MOST_TAKEN {
            if ends_takes(&self.take(observer)) {
                return;
            }
        }
    }

    /// Sends where a tick is due.
    fn send<O: Observer>(&mut self, tick: bool, observer: &mut O)
        ensures { SendsWhere L.is_honest tick (watcher_moment L.Link self.old) (watcher_moment L.Link self.new) }
    {
        if tick {
            self.tick(observer);
        }
    }

    fn take<O: Observer>(&mut self, observer: &mut O) -> Outcome
        ensures { WatcherHappens L.is_honest (watcher_moment L.Link self.old) (take_at (watcher_moment L.Link self.old))
            result (watcher_moment L.Link self.new) }
    {
        let outcome = self.node.take(&mut self.link, 0);
        let event = Event::Take {
            party: self.party,
            pick: 0,
            word: 0,
        };
        observer.happened(&event, &outcome, Some(self.node.held().len()));
        outcome
    }

    fn tick<O: Observer>(&mut self, observer: &mut O) -> Outcome
        ensures { WatcherHappens L.is_honest (watcher_moment L.Link self.old) (tick_at (watcher_moment L.Link self.old))
            result (watcher_moment L.Link self.new) }
    {
        let outcome = self.node.tick(&mut self.link, MOST_PARTIES);
        let event = Event::Tick { party: self.party };
        observer.happened(&event, &outcome, Some(self.node.held().len()));
        outcome
    }
}
