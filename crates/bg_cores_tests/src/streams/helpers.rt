//! A reader and a writer that go part by part, and fail where a test wants them to.
use std::alloc::Global;
use std::io::{self, Read, Write};

/// Gives some bytes, at most so many in a read, and fails at one of its reads, if any; without end
/// the same bytes again.
#[derive(Drop)]
pub(crate) struct Fed<'a> {
    bytes: &'a [u8],
    pub(crate) step: usize,
    pub(crate) endless: bool,
    pub(crate) fails_at: u32,
    pub(crate) reads: u32,
}

impl Fed<'_> {
    pub(crate) fn new(bytes: &[u8], step: usize) -> Fed<'_> {
        Fed {
            bytes,
            step,
            endless: false,
            fails_at: 0,
            reads: 0,
        }
    }
}

impl Read for Fed<'_> {
    fn read(&mut self, part: &mut [u8]) -> io::Result<usize> {
        self.reads = self.reads.saturating_add(1);
        if self.reads == self.fails_at {
            return Err(io::Error::other("broken"));
        }
        let count = self.bytes.len().min(self.step).min(part.len());
        part[..count].copy_from_slice(&self.bytes[..count]);
        if !self.endless {
            self.bytes = &self.bytes[count..];
        }
        Ok(count)
    }
}

/// Takes so many bytes, at most so many in a write, then fails; or fails as it is flushed.
#[derive(Drop)]
pub(crate) struct Slow {
    pub(crate) taken: Vec<u8>,
    step: usize,
    room: usize,
    pub(crate) loses: bool,
    pub(crate) flushed: usize,
}

impl Slow {
    pub(crate) fn new(alloc: Global, step: usize, room: usize) -> Slow {
        Slow {
            taken: Vec::new(alloc),
            step,
            room,
            loses: false,
            flushed: 0,
        }
    }
}

impl Write for Slow {
    fn write(&mut self, part: &[u8]) -> io::Result<usize> {
        let room = self.room.saturating_sub(self.taken.len());
        if room == 0 {
            return Err(io::Error::other("full"));
        }
        let count = part.len().min(self.step).min(room);
        self.taken.extend_from_slice(&part[..count])?;
        Ok(count)
    }

    fn flush(&mut self) -> io::Result<()> {
        if self.loses {
            return Err(io::Error::other("lost"));
        }
        self.flushed = self.taken.len();
        Ok(())
    }
}

/// Whether bytes are so many, and each of them an "a".
pub(crate) fn is_filled(bytes: &[u8], count: usize) -> bool {
    bytes.len() == count && bytes.iter().all(|byte| *byte == b'a')
}
