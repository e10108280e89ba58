//! Two files that keep the saved texts of a party.
use bg_wire::Slot;
use std::alloc::{AllocError, Global};
use std::fs::File;
use std::io;
use std::io::{ErrorKind, Read, Write};
use std::rt::Files;

/// The file of a slot.
#[derive(Drop)]
struct SlotFile {
    path: String,
    /// Whether it has been there in this process. Then it is no empty slot where it is missing.
    was_there: bool,
}

/// The two files of a party in a folder, and a third one whose lock keeps other processes from
/// writing to them.
#[derive(Drop)]
pub struct SlotFiles<'a, R> {
    rt: &'a R,
    folder: String,
    zero: SlotFile,
    one: SlotFile,
    /// Whether a file has bytes that the disk may lose, and could not be emptied. Then nothing is
    /// read or written.
    is_lost: bool,
    _lock: File,
}

/// Returns the name of a file of the party in the folder.
fn name_of(alloc: Global, folder: &str, party: u8, ending: &str) -> Result<String, AllocError> {
    format!(in alloc; "{folder}/party-{party}.{ending}")
}

impl SlotFile {
    fn new(path: String) -> SlotFile {
        SlotFile {
            path,
            was_there: false,
        }
    }

    /// Opens the file for reading. Returns `None` where it has been missing from the start.
    fn opened<R: Files<File = File>>(&mut self, rt: &R) -> io::Result<Option<File>> {
        match File::open(rt, &self.path) {
            Err(error) if error.kind() == ErrorKind::NotFound && !self.was_there => Ok(None),
            Err(error) => Err(error),
            Ok(file) => {
                self.was_there = true;
                Ok(Some(file))
            }
        }
    }

    /// Creates the file, or empties it.
    fn emptied<R: Files<File = File>>(&mut self, rt: &R) -> io::Result<File> {
        let file = File::create(rt, &self.path)?;
        self.was_there = true;
        Ok(file)
    }
}

impl<'a, R: Files<File = File> + AllocGlobal> SlotFiles<'a, R> {
    /// Opens the files `party-P.0` and `party-P.1` of a folder, for the party P.
    ///
    /// # Errors
    /// Why they can't be opened, such as another process that has them.
    pub fn open(rt: &'a R, folder: &str, party: u8) -> io::Result<SlotFiles<'a, R>> {
        let alloc = rt.alloc();
        let lock = File::create(rt, &name_of(alloc, folder, party, "lock")?)?;
        lock.try_lock()?;
        Ok(SlotFiles {
            rt,
            folder: format!(in alloc; "{folder}")?,
            zero: SlotFile::new(name_of(alloc, folder, party, "0")?),
            one: SlotFile::new(name_of(alloc, folder, party, "1")?),
            is_lost: false,
            _lock: lock,
        })
    }

    /// Returns the file of the slot.
    fn slot_file(&mut self, slot: Slot) -> io::Result<&mut SlotFile> {
        match slot {
            _ if self.is_lost => Err(io::Error::from(ErrorKind::Other)),
            Slot::Zero => Ok(&mut self.zero),
            Slot::One => Ok(&mut self.one),
        }
    }

    /// Makes a file durable. The name of a new file is durable only once its folder is synced too.
    fn sync(&self, file: &File) -> io::Result<()> {
        file.sync_all()?;
        File::open(self.rt, &self.folder)?.sync_all()
    }

    /// Returns the bytes of the slot, or none where its file has been missing from the start. They
    /// are synced first: a process that was killed may have left bytes that were not.
    pub fn read(&mut self, slot: Slot) -> io::Result<Vec<u8>> {
        let rt = self.rt;
        let mut bytes = Vec::new(rt.alloc());
        if let Some(mut file) = self.slot_file(slot)?.opened(rt)? {
            self.sync(&file)?;
            file.read_to_end(&mut bytes)?;
        }
        Ok(bytes)
    }

    /// Replaces the text of the slot, and syncs it to the disk. If that fails, the file is emptied:
    /// the system would still return the text, but the disk may lose it.
    pub fn write(&mut self, slot: Slot, text: &[u8]) -> io::Result<()> {
        let rt = self.rt;
        let mut file = self.slot_file(slot)?.emptied(rt)?;
        file.write_all(text)?;
        let synced = self.sync(&file);
        if synced.is_err() {
            self.is_lost = file.set_len(0).is_err() || file.sync_all().is_err();
        }
        synced
    }
}
