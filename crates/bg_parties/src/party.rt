//! A party of a match with the save that is under way.
ghost use Rattle.std.specs.Prelude.{◌≡◌, ◌↔◌, Ok, Err, Some, None, IsOk, IfOk, IfErr, is_ok};
ghost use Rattle.bg_wire.specs.Packets.PacketText.{IsPacket};
ghost use Rattle.bg_parties.specs.Party.{IsUnderWay, Opens};
ghost use Rattle.bg_parties.specs.Calls.{PartyChooses, PartyDues, PartySaves, PartyTakes, PartyTicks};
ghost use Rattle.bg_parties.specs.Calls.{begun_save, claim_of, kept_save, log_of, saved_of};

use crate::cores::Core;
use crate::{NotUnderWay, OpenFault, RoleFault, SaveFault};
use arrayvec::ArrayVec;
use bg_match::{Action, Number, Record, Terms};
use bg_party::{ChooseFault, Learned};
use bg_referee::{DueFault, TakeOutcome};
use bg_wire::{Packet, Slot};
use std::alloc::Global;

/// The greatest number of packets that a party sends on a tick.
pub const MOST_SENT: usize = 2;

/// The outcome of a packet that a party takes.
#[derive(Debug, PartialEq, Eq, Drop)]
pub enum Taken {
    /// The referee, with its answer.
    Referee(TakeOutcome),
    /// A seat or a watcher, with what it learns.
    Follower(Learned),
}

impl Taken {
    ghost use Rattle.bg_parties.specs.Calls.{grows as record_grows};

    /// Returns whether the record has grown.
    pub fn grows(&self) -> bool
        ensures { result ≡ record_grows self.now }
    {
        matches!(
            self,
            Taken::Referee(TakeOutcome::Accepted(_)) | Taken::Follower(Learned::Grew(_))
        )
    }
}

/// The referee, a seat or a watcher of one match, for a host that keeps its slots and carries its
/// packets (docs/USING.md).
///
/// A save that is under way is part of it. [`to_save`](Party::to_save) begins one, and a change of
/// the record or the claim ends it. [`mark_saved`](Party::mark_saved) is refused for any number but
/// that save's. So no entry counts as saved that no slot has, whatever the order of the calls.
///
/// Contracts see the core, and the number of the save that is under way.
#[derive(Debug, Drop)]
pub struct Party {
    core: Core,
    under_way: Option<u32>,
    ghost next: { IsUnderWay core under_way },
}

impl Party {
    ghost use Rattle.bg_parties.specs.Calls.{after_save, grows};

    /// Opens the party of this number in a match, as its two slots restore it: 0 is the referee, 1
    /// and 2 are the seats of X and of O. Each is fresh where its slots are empty. A watcher, 3 to
    /// 255, is fresh whatever they have. No save is under way.
    ///
    /// # Errors
    /// `LengthOutOfRange` where the length is not from 1 to 99; then, for the referee and for
    /// seats, `Restore` with what [`restore`] refuses.
    pub fn open(
        alloc: Global,
        number: u8,
        id: u64,
        terms: Terms,
        slot0: &[u8],
        slot1: &[u8],
    ) -> Result<Party, OpenFault>
        ensures opened { IfOk result (λ party. Opens slot0.now slot1.now number id terms (Ok party.core)
            × (party.under_way ≡ None)) }
        ensures refused { IfErr result (λ why. Opens slot0.now slot1.now number id terms (Err why)) }
    {
        let core = Core::open(alloc, number, id, terms, slot0, slot1)?;
        Ok(Party {
            core,
            under_way: None,
        })
    }

    /// Returns the record.
    pub fn held(&self) -> &Record
        ensures { result.now ≡ log_of self.now.core }
    {
        match &self.core {
            Core::Referee(referee) => referee.held(),
            Core::Seat(seat) => seat.held(),
            Core::Watcher(watcher) => watcher.held(),
        }
    }

    /// Returns the number of saved entries of the referee, which is the number of the last one that
    /// is saved. It tells the parties no others.
    pub fn saved(&self) -> Option<Number>
        ensures { result ≡ saved_of self.now.core }
    {
        match &self.core {
            Core::Referee(referee) => Some(referee.saved()),
            Core::Seat(_) | Core::Watcher(_) => None,
        }
    }

    /// Returns the last claim of a seat: the number of the entry that shall answer the action, from
    /// 1, and the action.
    pub fn claim(&self) -> Option<(Number, Action)>
        ensures { result ≡ claim_of self.now.core }
    {
        match &self.core {
            Core::Seat(seat) => seat.claim(),
            Core::Referee(_) | Core::Watcher(_) => None,
        }
    }

    /// Opens a game with the dice of a random word, or passes a turn, where the party is the
    /// referee. Returns the number of that entry (docs/PROTOCOL.md,
    /// "What the referee adds itself"). A refusal changes nothing.
    ///
    /// # Errors
    /// `OtherRole` where the party is not the referee; else `Core` with what [`Referee::due`]
    /// refuses.
    pub fn due(&mut self, word: u32) -> Result<Number, RoleFault<DueFault>>
        ensures dues { PartyDues self.old.core word result self.new.core }
        ensures save { self.new.under_way ≡ kept_save self.old.under_way (is_ok result) }
    {
        let number = self.core.due(word)?;
        self.under_way = None;
        Ok(number)
    }

    /// Claims an action as the next entry, where the party is a seat, and returns its number
    /// (docs/PROTOCOL.md, "Claims"). A refusal changes nothing.
    ///
    /// # Errors
    /// `OtherRole` where the party is no seat; else `Core` with what [`Seat::choose`] refuses.
    pub fn choose(&mut self, action: Action) -> Result<Number, RoleFault<ChooseFault>>
        ensures chooses { PartyChooses self.old.core action result self.new.core }
        ensures save { self.new.under_way ≡ kept_save self.old.under_way (is_ok result) }
    {
        let number = self.core.choose(action)?;
        self.under_way = None;
        Ok(number)
    }

    /// Takes a packet. The referee answers it, and accepts a roll with the dice of the random word.
    /// A seat or a watcher learns from it (docs/PROTOCOL.md, "What the referee answers",
    /// "What a follower learns"). The packet must have an encoding, as each that `decode` returns
    /// does.
    pub fn take(&mut self, packet: &Packet, word: u32) -> Taken
        requires { IsPacket packet.now }
        ensures takes { PartyTakes self.old.core packet.now word result self.new.core }
        ensures save { self.new.under_way ≡ kept_save self.old.under_way (grows result) }
    {
        let taken = self.core.take(packet, word);
        if taken.grows() {
            self.under_way = None;
        }
        taken
    }

    /// Returns the packets to send without being asked, each beside the party that it goes to
    /// (docs/PROTOCOL.md, "What the referee sends unasked", "When a follower sends"). A save that
    /// is under way stays so.
    pub fn tick(&mut self) -> ArrayVec<(u8, Packet), MOST_SENT>
        ensures ticks { PartyTicks self.old.core result.items self.new.core }
        ensures save { self.new.under_way ≡ self.old.under_way }
    {
        self.core.tick()
    }

    /// Begins the next save, and returns its slot, its number and its text (docs/PROTOCOL.md,
    /// "Saving"). Once the text is durable, call [`mark_saved`](Party::mark_saved). A refusal
    /// changes nothing.
    ///
    /// # Errors
    /// `OtherRole` where the party is a watcher, which saves nothing. Else `Core` with `SavesSpent`
    /// where the last save was that of number 4294967295, or `Memory` where there is no memory for
    /// the text.
    pub fn to_save(&mut self) -> Result<(Slot, u32, Vec<u8>), SaveFault>
        ensures saves { PartySaves self.old.core result }
        ensures same { self.new.core ≡ self.old.core }
        ensures save { self.new.under_way ≡ begun_save self.old.under_way result }
    {
        let (slot, save, text) = self.core.to_save()?;
        self.under_way = Some(save);
        Ok((slot, save, text))
    }

    /// Abandons the save that is under way, as where its text could not be kept. Then no save is
    /// under way.
    pub fn abandon_save(&mut self)
        ensures same { self.new.core ≡ self.old.core }
        ensures save { self.new.under_way ≡ None }
    {
        self.under_way.take();
    }

    /// Marks the save that is under way as written: what its text has is saved, and no save is
    /// under way any more.
    ///
    /// # Errors
    /// `NotUnderWay` exactly where no save of this number is under way: none was begun, or the
    /// record or the claim has changed since. Then another has to be begun, and nothing changes.
    pub fn mark_saved(&mut self, save: u32) -> Result<(), NotUnderWay>
        ensures ok { IsOk result ↔ (self.old.under_way ≡ Some save) }
        ensures saved { IfOk result (λ done. (self.new.core ≡ after_save self.old.core save)
            × (self.new.under_way ≡ None)) }
        ensures same { IfErr result (λ why. self.new ≡ self.old) }
    {
        if self.under_way != Some(save) {
            return Err(NotUnderWay);
        }
        self.core.mark_saved(save);
        self.under_way = None;
        Ok(())
    }
}
