//! The cores of the parties of a match, as one type.
ghost use Rattle.std.specs.Prelude.{◌≡◌, ◌≤◌, ℕ, List, IfOk, IfSome};
ghost use Rattle.bg_wire.specs.Entries.Codes.{first_watcher, referee as referee_party};
ghost use Rattle.bg_wire.specs.Packets.PacketText.{IsPacket};
ghost use Rattle.bg_wire.specs.Parties.{party_of};
ghost use Rattle.bg_parties.specs.Calls.{to_referee};
ghost use Rattle.bg_wire.specs.Saved.Restoring.{Restores};
ghost use Rattle.bg_wire.specs.Saved.SavedText.{IsSavable, parts_of};

use crate::{MOST_SENT, OpenFault, RoleFault, SaveFault, Taken};
use arrayvec::ArrayVec;
use bg_board::Player;
use bg_match::{Action, Number, Terms};
use bg_party::{ChooseFault, Seat, Watcher};
use bg_referee::{DueFault, Referee};
use bg_wire::{
    Packet, REFEREE, RestoreRefusal, SEAT_OF_O, SEAT_OF_X, Saved, Slot, party_of, restore,
};
use std::alloc::Global;

/// The core of a party, by its role (docs/PROTOCOL.md, "Parties").
#[derive(Debug, Drop)]
pub(crate) enum Core {
    /// Party 0.
    Referee(Referee),
    /// Party 1, which sits for X, or 2, which sits for O.
    Seat(Seat),
    /// A party from 3 to 255.
    Watcher(Watcher),
}

/// Returns the state that the slots of a party restore.
fn restored(
    alloc: Global,
    party: u8,
    id: u64,
    terms: Terms,
    slot0: &[u8],
    slot1: &[u8],
) -> Result<Option<Saved>, RestoreRefusal>
    ensures restores { Restores slot0.now slot1.now party id terms result }
    ensures party { IfOk result (λ found. IfSome found (λ saved. saved.party ≡ party)) }
    ensures savable { IfOk result (λ found. IfSome found (λ saved. IsSavable (parts_of saved))) }
{
    restore(alloc, slot0, slot1, party, id, terms.length, terms.rules)
}

impl Core {
    ghost use Rattle.bg_parties.specs.Party.{Opens, next_save_of};
    ghost use Rattle.bg_parties.specs.Calls.{PartyChooses, PartyDues, PartySaves, PartyTakes, PartyTicks, after_save};

    /// Returns the core of the party of this number, as its slots restore it.
    pub(crate) fn open(
        alloc: Global,
        number: u8,
        id: u64,
        terms: Terms,
        slot0: &[u8],
        slot1: &[u8],
    ) -> Result<Core, OpenFault>
        ensures { Opens slot0.now slot1.now number id terms result }
    {
        match number {
            REFEREE => Core::referee(alloc, id, terms, slot0, slot1),
            SEAT_OF_X => Core::seat(alloc, Player::X, id, terms, slot0, slot1),
            SEAT_OF_O => Core::seat(alloc, Player::O, id, terms, slot0, slot1),
            _ => Core::watcher(alloc, number, id, terms),
        }
    }

    /// Returns the referee that the slots restore, or a fresh one.
    fn referee(
        alloc: Global,
        id: u64,
        terms: Terms,
        slot0: &[u8],
        slot1: &[u8],
    ) -> Result<Core, OpenFault>
        ensures { Opens slot0.now slot1.now referee_party id terms result }
    {
        let Ok(fresh) = Referee::fresh(alloc, id, terms.length, terms.rules) else {
            return Err(OpenFault::LengthOutOfRange);
        };
        match restored(alloc, REFEREE, id, terms, slot0, slot1) {
            Ok(Some(saved)) => Ok(Core::Referee(Referee::resume(alloc, saved))),
            Ok(None) => Ok(Core::Referee(fresh)),
            Err(why) => Err(OpenFault::Restore(why)),
        }
    }

    /// Returns the seat of a player that the slots restore, or a fresh one.
    fn seat(
        alloc: Global,
        player: Player,
        id: u64,
        terms: Terms,
        slot0: &[u8],
        slot1: &[u8],
    ) -> Result<Core, OpenFault>
        ensures { Opens slot0.now slot1.now (party_of player) id terms result }
    {
        let Ok(fresh) = Seat::fresh(alloc, player, id, terms.length, terms.rules) else {
            return Err(OpenFault::LengthOutOfRange);
        };
        match restored(alloc, party_of(player), id, terms, slot0, slot1) {
            Ok(Some(saved)) => Ok(Core::Seat(Seat::resume(alloc, saved))),
            Ok(None) => Ok(Core::Seat(fresh)),
            Err(why) => Err(OpenFault::Restore(why)),
        }
    }

    /// Returns a fresh watcher. `number` is its party, from 3.
    fn watcher(alloc: Global, number: u8, id: u64, terms: Terms) -> Result<Core, OpenFault>
        requires { first_watcher ≤ number }
        ensures { (slot0 slot1 : List ℕ) → Opens slot0 slot1 number id terms result }
    {
        match Watcher::fresh(alloc, number, id, terms.length, terms.rules) {
            Ok(watcher) => Ok(Core::Watcher(watcher)),
            Err(_) => Err(OpenFault::LengthOutOfRange),
        }
    }

    /// Adds an entry of the referee's own.
    pub(crate) fn due(&mut self, word: u32) -> Result<Number, RoleFault<DueFault>>
        ensures { PartyDues self.old word result self.new }
    {
        match self {
            Core::Referee(referee) => match referee.due(word) {
                Ok(number) => Ok(number),
                Err(why) => Err(RoleFault::Core(why)),
            },
            Core::Seat(_) | Core::Watcher(_) => Err(RoleFault::OtherRole),
        }
    }

    /// Claims an action for a seat.
    pub(crate) fn choose(&mut self, action: Action) -> Result<Number, RoleFault<ChooseFault>>
        ensures { PartyChooses self.old action result self.new }
    {
        match self {
            Core::Seat(seat) => match seat.choose(action) {
                Ok(number) => Ok(number),
                Err(why) => Err(RoleFault::Core(why)),
            },
            Core::Referee(_) | Core::Watcher(_) => Err(RoleFault::OtherRole),
        }
    }

    /// Takes a packet.
    pub(crate) fn take(&mut self, packet: &Packet, word: u32) -> Taken
        requires { IsPacket packet.now }
        ensures { PartyTakes self.old packet.now word result self.new }
    {
        match self {
            Core::Referee(referee) => Taken::Referee(referee.take(packet, word)),
            Core::Seat(seat) => Taken::Follower(seat.take(packet)),
            Core::Watcher(watcher) => Taken::Follower(watcher.take(packet)),
        }
    }

    /// Returns the packets to send without being asked.
    pub(crate) fn tick(&mut self) -> ArrayVec<(u8, Packet), MOST_SENT>
        ensures { PartyTicks self.old result.items self.new }
    {
        match self {
            Core::Referee(referee) => referee.tick(),
            Core::Seat(seat) => to_referee(seat.tick()),
            Core::Watcher(watcher) => to_referee(watcher.tick()),
        }
    }

    /// Returns the slot, the number and the text of the next save.
    pub(crate) fn to_save(&self) -> Result<(Slot, u32, Vec<u8>), SaveFault>
        ensures saves { PartySaves self.now result }
        ensures next { IfOk result (λ next. next.1 ≡ next_save_of self.now) }
    {
        let next = match self {
            Core::Referee(referee) => referee.to_save(),
            Core::Seat(seat) => seat.to_save(),
            Core::Watcher(_) => return Err(RoleFault::OtherRole),
        };
        match next {
            Ok(next) => Ok(next),
            Err(why) => Err(RoleFault::Core(why)),
        }
    }

    /// Marks the next save, of this number, as written.
    pub(crate) fn mark_saved(&mut self, save: u32)
        requires { save ≡ next_save_of self.old }
        ensures { self.new ≡ after_save self.old save }
    {
        match self {
            Core::Referee(referee) => referee.mark_saved(save),
            Core::Seat(seat) => seat.mark_saved(save),
            Core::Watcher(_) => {}
        }
    }
}

/// Addresses what a follower sends to the referee.
fn to_referee(packet: Option<Packet>) -> ArrayVec<(u8, Packet), MOST_SENT>
    ensures { result.items ≡ to_referee packet }
{
    let mut sent = ArrayVec::new();
    if let Some(packet) = packet {
        sent.push((REFEREE, packet));
    }
    sent
}
