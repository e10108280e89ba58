//! A match with all its parties in one process.
ghost use Rattle.std.specs.Prelude.{◌≡◌, ◌↔◌, IfOk, IsTrue, option_copied};
ghost use Rattle.bg_hosted.specs.HostedMatches.{IsWon};
ghost use Rattle.bg_protocol.specs.Protocol.Roles.{role};
ghost use Rattle.bg_protocol.specs.Worlds.Calls.{Calls};
ghost use Rattle.bg_protocol.specs.Worlds.Starts.{held_of};

use crate::QueueLink;
use bg_auto::DiceAttempts;
use bg_match::{Number, Phase, Record, Terms};
use bg_wire::{FIRST_WATCHER, REFEREE, SEAT_OF_O, SEAT_OF_X};
use bg_world::{Event, Keeper, Keepers, Outcome, Setup, World, WorldFault};
use std::alloc::Global;

/// The party whose record is shown to everybody. It is a watcher, so it holds only entries that the
/// referee has sent, and the referee sends an entry only after saving it.
pub(crate) const TELLER: u8 = FIRST_WATCHER;

/// The parties that follow the referee: the two seats and the teller.
pub(crate) const FOLLOWERS: [u8; 3] = [SEAT_OF_X, SEAT_OF_O, TELLER];

/// The parties that save, and so can restart.
const SAVERS: [u8; 3] = [REFEREE, SEAT_OF_X, SEAT_OF_O];

/// A match whose parties all run in this process: the referee, the two seats, and a watcher, the
/// teller. They send through a queue in memory, and save through keepers.
///
/// Players act through [`HostedMatch::act`]. Everybody is shown the record of the teller, so
/// nothing is shown that the referee hasn't saved.
#[derive(Drop)]
pub struct HostedMatch<K> {
    pub(crate) world: World<QueueLink, K>,
    pub(crate) dice: DiceAttempts,
    pub(crate) key: [u8; 32],
    /// The number of entries in the referee's last save.
    pub(crate) saved: Number,
    /// The number of the last claim that was saved since this value was made; 0 before the first.
    pub(crate) claimed: Number,
    /// Whether the next tick has something left to do.
    pub(crate) restless: bool,
}

impl<K: Keeper + Drop> HostedMatch<K> {
    ghost use Rattle.bg_hosted.specs.HostedMatches.{fresh_match, world_of};
    ghost use Rattle.bg_hosted.specs.Lives.{Begins};

    /// Returns a match that continues from what its keepers hold; over empty keepers, it begins.
    /// Its dice are made from the key (docs/FORMATS.md, "Random words"). All of its lives over the
    /// same keepers are one run: see [`lives_are_one_run`](crate::lives_are_one_run).
    ///
    /// # Errors
    /// - `LengthOutOfRange` if the length is not from 1 to 99;
    /// - `Memory` if memory runs out.
    pub fn begin(
        alloc: Global,
        id: u64,
        terms: Terms,
        key: [u8; 32],
        keepers: Keepers<K>,
    ) -> Result<HostedMatch<K>, WorldFault>
        ensures { IfOk result (λ hosted. Begins K.is_honest (fresh_match K.Keeper id terms keepers)
            (world_of K.Keeper hosted)) }
    {
        let mut hosted = HostedMatch::fresh(alloc, id, terms, key, keepers)?;
        hosted.go_on();
        Ok(hosted)
    }

    /// Returns a match whose parties are all new: nothing has been read from the keepers yet. Fails
    /// like [`HostedMatch::begin`].
    fn fresh(
        alloc: Global,
        id: u64,
        terms: Terms,
        key: [u8; 32],
        keepers: Keepers<K>,
    ) -> Result<HostedMatch<K>, WorldFault>
        ensures { IfOk result (λ hosted. world_of K.Keeper hosted ≡ fresh_match K.Keeper id terms keepers) }
    {
        let setup = Setup {
            id,
            length: terms.length,
            rules: terms.rules,
            watchers: 1,
        };
        Ok(HostedMatch {
            world: World::new(alloc, setup, QueueLink::new(alloc), keepers)?,
            dice: DiceAttempts::first(Some(0)),
            key,
            saved: 0,
            claimed: 0,
            restless: false,
        })
    }
}

impl<K: Keeper> HostedMatch<K> {
    ghost use Rattle.bg_hosted.specs.Going.{GoesOn, IsNoChoice};
    ghost use Rattle.bg_hosted.specs.HostedMatches.{IsOverBy, count_of, told_of, world_of};
    ghost use Rattle.bg_hosted.specs.Lives.{Begins, Restarts};

    /// Returns the record that everybody may see, which is the teller's; `None` if the teller is
    /// down.
    pub fn shown(&self) -> Option<&Record>
        ensures { option_copied result ≡ told_of (world_of K.Keeper self.now) }
    {
        self.world.held(TELLER)
    }

    /// Returns the number of entries that everybody may see; 0 if the teller is down.
    pub fn told(&self) -> Number
        ensures { result ≡ count_of (told_of (world_of K.Keeper self.now)) }
    {
        self.held_by(TELLER)
    }

    /// Returns whether the record that everybody may see says that the match is over.
    pub fn is_over(&self) -> bool
        ensures { IsTrue result ↔ IsOverBy (told_of (world_of K.Keeper self.now)) }
    {
        match self.shown() {
            Some(record) => is_won(record),
            None => false,
        }
    }

    /// Returns whether [`HostedMatch::tick`] has something left to do, for instance after a failed
    /// save.
    pub fn is_restless(&self) -> bool {
        self.restless
    }

    /// Returns whether fewer entries are shown than the referee has saved. After the start of a
    /// long match, it takes some ticks until all are shown.
    pub fn is_behind(&self) -> bool {
        self.told() < self.saved
    }

    /// Restarts each party whose last restart has failed, and lets the seats and the teller send
    /// what is due. Then lets all parties work until nothing changes. Call it again after a while
    /// if [`HostedMatch::is_restless`] says so.
    pub fn tick(&mut self)
        ensures { GoesOn K.is_honest (world_of K.Keeper self.old) (world_of K.Keeper self.new) }
    {
        self.restart_lost();
        for party in FOLLOWERS {
            let _ = self.pass(Event::Tick { party });
        }
        self.settle();
    }

    /// Restarts each party that saves and is down because its last restart has failed.
    fn restart_lost(&mut self)
        ensures { GoesOn K.is_honest (world_of K.Keeper self.old) (world_of K.Keeper self.new) }
    {
        for party in SAVERS {
            self.restart_if_down(party);
        }
    }

    /// Restarts a party if it is down.
    fn restart_if_down(&mut self, party: u8)
        ensures { GoesOn K.is_honest (world_of K.Keeper self.old) (world_of K.Keeper self.new) }
    {
        if self.world.held(party).is_none() {
            self.restart(party);
        }
    }

    /// Restarts each party that saves, from what its keeper holds. Then lets all parties work until
    /// nothing changes.
    fn go_on(&mut self)
        ensures { Begins K.is_honest (world_of K.Keeper self.old) (world_of K.Keeper self.new) }
    {
        self.restart(REFEREE);
        self.restart(SEAT_OF_X);
        self.restart(SEAT_OF_O);
        self.tick();
    }

    /// Restarts a party from what its keeper holds. If that fails, the match is restless.
    pub(crate) fn restart(&mut self, party: u8)
        ensures { Restarts K.is_honest (world_of K.Keeper self.old) party (world_of K.Keeper self.new) }
    {
        if self.happen(Event::Restart { party }) != Outcome::Restarted {
            self.restless = true;
        }
        if party == REFEREE {
            self.saved = self.held_by(REFEREE);
        }
    }

    /// Returns the number of entries that a party holds; 0 if it is down.
    pub(crate) fn held_by(&self, party: u8) -> Number
        ensures { result ≡ count_of (held_of (world_of K.Keeper self.now) (role party)) }
    {
        match self.world.held(party) {
            Some(record) => record.len(),
            None => 0,
        }
    }

    /// Runs an event by which no player acts, and returns its outcome.
    pub(crate) fn pass(&mut self, event: Event) -> Outcome
        requires { IsNoChoice event }
        ensures { GoesOn K.is_honest (world_of K.Keeper self.old) (world_of K.Keeper self.new) }
    {
        self.happen(event)
    }

    /// Runs an event, and returns its outcome.
    pub(crate) fn happen(&mut self, event: Event) -> Outcome
        ensures { Calls (Unit {0}) K.is_honest (world_of K.Keeper self.old) event result (world_of K.Keeper self.new) }
    {
        self.dice.step(&mut self.world, event)
    }
}

/// Returns whether the record says that a player has won the match.
fn is_won(log: &Record) -> bool
    ensures { IsTrue result ↔ IsWon log.now }
{
    match log.standing().phase() {
        Phase::Over(_) => true,
        _ => false,
    }
}
