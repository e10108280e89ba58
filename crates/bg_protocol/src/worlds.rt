//! The parties of a match, between a link and their keepers.
ghost use Rattle.std.specs.Prelude.{◌≡◌, ◌≤◌, IfOk, MatchResult, option_copied};
ghost use Rattle.bg_board.specs.declared.players.Player.TheVariants.{X, O};
ghost use Rattle.bg_match.specs.Limits.{IsMatchLength};
ghost use Rattle.bg_match.specs.Terms.{match_length};
ghost use Rattle.bg_protocol.specs.Worlds.Starts.{terms_in, IsWorldFault};
ghost use Rattle.bg_protocol.specs.Protocol.State.{IsSetup};

pub(crate) mod laws;
pub(crate) mod runs;
pub(crate) mod setups;
pub(crate) mod simulations;
pub(crate) mod steps;

use crate::{Keeper, Keepers, Link, RefereeNode, Role, SeatNode, Setup, Watchers, WorldFault};
use bg_board::Player;
use bg_match::{Action, Number, Record, Terms};
use bg_wire::FIRST_WATCHER;
use std::alloc::Global;

/// A world: a referee, two seats and the watchers, with a link between them and a keeper for each
/// party that saves (docs/PROTOCOL.md, "The state and its steps").
///
/// Contracts see the match, the link, the keepers, and the core of each party that is up.
pub struct World<L, K> {
    pub(crate) alloc: Global,
    pub(crate) id: u64,
    pub(crate) terms: Terms,
    pub(crate) link: L,
    pub(crate) keepers: Keepers<K>,
    pub(crate) referee: RefereeNode,
    pub(crate) x: SeatNode,
    pub(crate) o: SeatNode,
    pub(crate) watchers: Watchers,
    ghost length_in_range: { IsMatchLength (match_length terms) },
    ghost same_id: { (referee.id ≡ id) × (x.id ≡ id) × (o.id ≡ id) },
    ghost same_terms: { (referee.terms ≡ terms) × (x.terms ≡ terms) × (o.terms ≡ terms) },
    ghost players: { (x.player ≡ X) × (o.player ≡ O) },
}

// Written out, so that an owner proves one call, and not the drop of each field.
impl<L: Drop, K: Drop> Drop for World<L, K> {
    fn drop(self) {
        let World {
            alloc: _,
            id: _,
            terms: _,
            link: _,
            keepers: _,
            referee: _,
            x: _,
            o: _,
            watchers: _,
        } = self;
    }
}

impl<L: Link + Drop, K: Keeper + Drop> World<L, K> {
    ghost use Rattle.bg_protocol.specs.Worlds.Starts.{AreUnused, fresh_world};
    ghost use Rattle.bg_protocol.specs.Worlds.Views.{keeper_view, link_view};
    ghost use Rattle.bg_protocol.specs.Worlds.World.{view_of};
    ghost use Rattle.bg_protocol.specs.Worlds.WorldState.{IsReachedWorld};

    /// Returns a world where nothing has happened yet: all parties are fresh and up
    /// (docs/PROTOCOL.md, "The state and its steps"). It asks nothing of the link and of the
    /// keepers.
    ///
    /// # Errors
    /// The first that holds:
    /// - `TooManyWatchers` where more than 253 watch;
    /// - `LengthOutOfRange` where the length is not from 1 to 99;
    /// - `Memory` where there is no memory for the watchers.
    ///
    /// A refusal drops the link and the keepers.
    pub fn new(
        alloc: Global,
        setup: Setup,
        link: L,
        keepers: Keepers<K>,
    ) -> Result<World<L, K>, WorldFault>
        ensures start { IfOk result (λ world. view_of L.Link K.Keeper world ≡ fresh_world setup
            (link_view L.Link link) (keeper_view K.Keeper keepers.referee) (keeper_view K.Keeper keepers.x)
            (keeper_view K.Keeper keepers.o)) }
        // Over a link that nothing was sent over, and empty slots, it is a world that a run leads
        // to.
        ensures reached { IfOk result (λ world. AreUnused (link_view L.Link link) (keeper_view K.Keeper keepers.referee)
            (keeper_view K.Keeper keepers.x) (keeper_view K.Keeper keepers.o)
            → IsReachedWorld (view_of L.Link K.Keeper world)) }
        ensures refusal { MatchResult result (λ _. IsSetup setup.id (terms_in setup) setup.watchers)
            (λ fault. IsWorldFault fault setup) }
    {
        World::begin(alloc, setup, link, keepers)
    }

    /// Returns a world where nothing has happened yet.
    fn begin(
        alloc: Global,
        setup: Setup,
        link: L,
        keepers: Keepers<K>,
    ) -> Result<World<L, K>, WorldFault>
        ensures start { IfOk result (λ world. view_of L.Link K.Keeper world ≡ fresh_world setup
            (link_view L.Link link) (keeper_view K.Keeper keepers.referee) (keeper_view K.Keeper keepers.x)
            (keeper_view K.Keeper keepers.o)) }
        ensures refusal { MatchResult result (λ _. IsSetup setup.id (terms_in setup) setup.watchers)
            (λ fault. IsWorldFault fault setup) }
    {
        setup.check()?;
        let (id, terms) = (setup.id, setup.terms());
        let watchers = Watchers::fresh(alloc, id, terms, setup.watchers)?;
        Ok(World {
            alloc,
            id,
            terms,
            link,
            keepers,
            referee: RefereeNode::fresh(alloc, id, terms).unwrap(),
            x: SeatNode::fresh(alloc, Player::X, id, terms).unwrap(),
            o: SeatNode::fresh(alloc, Player::O, id, terms).unwrap(),
            watchers,
        })
    }
}

impl<L: Link, K: Keeper> World<L, K> {
    ghost use Rattle.bg_protocol.specs.Protocol.Roles.{role};
    ghost use Rattle.std.specs.Borrow.{sem};
    ghost use Rattle.bg_protocol.specs.Worlds.HeldKeepers.{LendsKeepers};
    ghost use Rattle.bg_protocol.specs.Worlds.Nodes.{seat_claim};
    ghost use Rattle.bg_protocol.specs.Worlds.Starts.{held_of};
    ghost use Rattle.bg_protocol.specs.Worlds.Views.{link_view, parties, seat_core};
    ghost use Rattle.bg_protocol.specs.Worlds.World.{seat_of, view_of};

    /// Returns the link.
    pub fn link(&self) -> &L
        ensures { link_view L.Link result.now ≡ (view_of L.Link K.Keeper self.now).link }
    {
        &self.link
    }

    /// Returns the keepers, for a host that writes the saves that it has begun. All else of the
    /// world stays.
    pub fn keepers_mut(&mut self) -> &mut Keepers<K>
        ensures* lends { sem 𝓛 (LendsKeepers L.row K.row self.entry result) }
        ensures value { result.now ≡ self.old.keepers }
    {
        &mut self.keepers
    }

    /// Returns the allocator that the world asks for its room.
    pub fn allocator(&self) -> Global
        ensures { result ≡ self.now.alloc }
    {
        self.alloc
    }

    /// Returns the number of parties, from 3 to 256; they have the numbers from 0.
    pub fn parties(&self) -> usize
        ensures value { result ≡ parties (view_of L.Link K.Keeper self.now) }
        ensures some { 1 ≤ result }
        ensures few { result ≤ 256 }
    {
        usize::from(FIRST_WATCHER) + self.watchers.len()
    }

    /// Returns the seat of a player.
    fn seat(&self, player: Player) -> &SeatNode
        ensures { result.now ≡ seat_of self.now player }
    {
        match player {
            Player::X => &self.x,
            Player::O => &self.o,
        }
    }

    /// Returns the record of a party, from 0, or `None` exactly where there is no such party, or it
    /// is down.
    pub fn held(&self, party: u8) -> Option<&Record>
        ensures { option_copied result ≡ held_of (view_of L.Link K.Keeper self.now) (role party) }
    {
        match Role::of(party) {
            Role::Referee => self.referee.held(),
            Role::Seat(player) => self.seat(player).held(),
            Role::Watcher(index) => self.watchers.held(index),
        }
    }

    /// Returns the last claim of a player's seat: the number, from 1, of the entry that shall answer
    /// the action, and the action (docs/PROTOCOL.md, "Claims"). `None` also where the seat is down.
    pub fn claim(&self, player: Player) -> Option<(Number, Action)>
        ensures { result ≡ seat_claim (seat_core (view_of L.Link K.Keeper self.now) player) }
    {
        self.seat(player).claim()
    }
}
