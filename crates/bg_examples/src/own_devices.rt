//! Devices of one's own for a world: mail boxes in memory that carry the datagrams, and files that
//! keep what is saved.
ghost use Rattle.std.specs.Prelude.{[], None, length};
ghost use Rattle.bg_protocol.specs.Devices.Handed.{noted_answer};
ghost use Rattle.bg_protocol.specs.Protocol.Slots.{empty_slots};

use crate::slot_files::SlotFiles;
use arrayvec::ArrayVec;
use bg_streams::History;
use bg_wire::{Datagram, FIRST_WATCHER, REFEREE, SEAT_OF_O, SEAT_OF_X, Slot};
use bg_world::{
    DeviceFault, Event, Keeper, Keepers, Link, Outcome, Setup, Taken, World, WorldFault,
    count_failed, note_taken,
};
use std::alloc::{AllocError, Global};
use std::collections::VecDeque;
use std::fs::File;
use std::io;
use std::io::ErrorKind;
use std::rt::Files;
use thiserror::Error;

/// A mail box for each party.
#[derive(Drop)]
struct Mail {
    boxes: Vec<VecDeque<Datagram>>,
}

impl Mail {
    fn new(alloc: Global, parties: usize) -> Result<Mail, AllocError> {
        let mut boxes = Vec::new(alloc);
        for _ in 0..parties {
            boxes.push(VecDeque::new(alloc))?;
        }
        Ok(Mail { boxes })
    }

    fn put(&mut self, datagram: &Datagram) -> Result<(), DeviceFault> {
        let Some(mail) = self.boxes.get_mut(usize::from(datagram.to)) else {
            return Err(DeviceFault::Failed);
        };
        mail.push_back(datagram.copy())?;
        Ok(())
    }

    fn get(&mut self, party: u8) -> Option<ArrayVec<u8, 256>> {
        let datagram = self.boxes.get_mut(usize::from(party))?.pop_front()?;
        ArrayVec::try_from(datagram.bytes.bytes.as_slice()).ok()
    }
}

/// The link. What contracts read of it stands beside the mail boxes, so that no call of theirs can
/// change it.
#[derive(Drop)]
pub struct MailLink {
    mail: Mail,
    takes: History,
    sends: History,
    faults: History,
    taken: Result<Option<History>, DeviceFault>,
}

impl MailLink {
    /// Returns a link for the parties from 0 to `parties - 1`, over which nothing was sent.
    ///
    /// # Errors
    /// `AllocError` where memory runs out.
    pub fn new(alloc: Global, parties: usize) -> Result<MailLink, AllocError> {
        Ok(MailLink {
            mail: Mail::new(alloc, parties)?,
            takes: History::new(),
            sends: History::new(),
            faults: History::new(),
            taken: Ok(None),
        })
    }
}

impl Link for MailLink {
    // It claims no honesty, and has no plan, so what was sent need not be stated either.
    ghost is_honest = { ⊥ };

    ghost plan = { λ _. None };

    ghost sent = { λ _. [] };

    ghost faults = { λ link. length link.faults.bytes };

    ghost takes = { λ link. length link.takes.bytes };

    ghost sends = { λ link. length link.sends.bytes };

    ghost taken = { λ link. noted_answer link.taken };

    fn send(&mut self, datagram: &Datagram) -> Result<(), DeviceFault> {
        self.sends = self.sends.marked();
        let result = self.mail.put(datagram);
        self.faults = count_failed(&self.faults, &result);
        result
    }

    fn take(&mut self, party: u8, _pick: u32) -> Taken {
        self.takes = self.takes.marked();
        let taken = Ok(self.mail.get(party));
        self.taken = note_taken(&taken);
        taken
    }
}

/// A keeper: the files of a party, and beside them what contracts read.
#[derive(Drop)]
pub struct FileKeeper<'a, R> {
    files: SlotFiles<'a, R>,
    writes: History,
    reads: History,
    faults: History,
    written: Result<(), DeviceFault>,
}

impl<'a, R: Files<File = File> + AllocGlobal> FileKeeper<'a, R> {
    /// Returns a keeper over the files of a party in a folder.
    ///
    /// # Errors
    /// Those of [`SlotFiles::open`].
    pub fn new(rt: &'a R, folder: &str, party: u8) -> io::Result<FileKeeper<'a, R>> {
        Ok(FileKeeper {
            files: SlotFiles::open(rt, folder, party)?,
            writes: History::new(),
            reads: History::new(),
            faults: History::new(),
            written: Ok(()),
        })
    }
}

/// Returns the fault of a device for an error of the system.
fn fault_of(error: io::Error) -> DeviceFault {
    match error.kind() {
        ErrorKind::OutOfMemory => DeviceFault::Memory,
        _ => DeviceFault::Failed,
    }
}

impl<'a, R: Files<File = File> + AllocGlobal> Keeper for FileKeeper<'a, R> {
    ghost is_honest = { ⊥ };

    ghost plan = { λ _. None };

    ghost slots = { λ _. empty_slots };

    ghost faults = { λ keeper. length keeper.faults.bytes };

    ghost writes = { λ keeper. length keeper.writes.bytes };

    ghost reads = { λ keeper. length keeper.reads.bytes };

    ghost written = { λ keeper. keeper.written };

    fn write(&mut self, slot: Slot, bytes: &[u8]) -> Result<(), DeviceFault> {
        self.writes = self.writes.marked();
        self.written = self.files.write(slot, bytes).map_err(fault_of);
        self.faults = count_failed(&self.faults, &self.written);
        self.written
    }

    fn read(&mut self, slot: Slot) -> Result<Vec<u8>, DeviceFault> {
        self.reads = self.reads.marked();
        let result = self.files.read(slot).map_err(fault_of);
        self.faults = count_failed(&self.faults, &result);
        result
    }
}

/// The reason why there is no world over a folder.
#[derive(Debug, Drop, Error)]
pub enum BeginFault {
    #[error(transparent)]
    World(#[from] WorldFault),
    #[error(transparent)]
    System(#[from] io::Error),
    #[error("party {0} does not begin again: {1:?}")]
    Restart(u8, Outcome),
}

/// Returns a world over the files of a folder. The parties that save restart from their files, so
/// the first process begins the match, and a later one continues it.
pub fn world_over<'a, R: Files<File = File> + AllocGlobal>(
    rt: &'a R,
    folder: &str,
    setup: Setup,
) -> Result<World<MailLink, FileKeeper<'a, R>>, BeginFault> {
    let keepers = Keepers {
        referee: FileKeeper::new(rt, folder, REFEREE)?,
        x: FileKeeper::new(rt, folder, SEAT_OF_X)?,
        o: FileKeeper::new(rt, folder, SEAT_OF_O)?,
    };
    let parties = usize::from(FIRST_WATCHER) + usize::from(setup.watchers);
    let link = MailLink::new(rt.alloc(), parties).map_err(WorldFault::from)?;
    let mut world = World::new(rt.alloc(), setup, link, keepers)?;
    for party in [REFEREE, SEAT_OF_X, SEAT_OF_O] {
        match world.step(Event::Restart { party }) {
            Outcome::Restarted => {}
            outcome => return Err(BeginFault::Restart(party, outcome)),
        }
    }
    Ok(world)
}
