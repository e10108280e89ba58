//! Sources and sinks of bytes: devices whose bytes and failures contracts see.
ghost use Rattle.std.specs.Prelude.{◌≡◌, ℕ, ◌+◌, List, [], Option, None, Some, OnOk, option_copied};
ghost use Rattle.std.specs.Io.{ReadsAtMost};
ghost use Rattle.std.specs.Io.KnownBytes.{Appends, Keeps, ReadConsumes};
ghost use Rattle.bg_streams.specs.Devices.{CountsEnd, CountsFailure, Gives, TakesWritten, WritesBytes};

use crate::{History, StreamFault};
use std::io;
use std::io::{Read, Write};

/// Keeps the reason why a device failed, in place of that of an earlier failure.
fn keep_error(last: &mut Option<io::Error>, error: io::Error) -> StreamFault
    ensures { last.new ≡ Some error }
{
    *last = Some(error);
    StreamFault
}

/// A source of bytes. Contracts see what it gave, the number of times it was asked, and the number
/// of times it failed.
pub trait Source {
    /// The bytes that are left, where they are known.
    ghost remaining: { Self → Option (List ℕ) };

    /// All bytes that its reads gave, in order.
    ghost given: { Self → List ℕ };

    /// The number of times it said that nothing is left: gave nothing, though there was room.
    ghost ends: { Self → ℕ };

    /// The number of times it was asked for bytes.
    ghost reads: { Self → ℕ };

    /// The number of times it failed.
    ghost failures: { Self → ℕ };

    /// Reads some bytes into the buffer, and returns their number: 0 at the end.
    fn read(&mut self, buffer: &mut [u8]) -> Result<usize, StreamFault>
        ensures bound { ReadsAtMost result buffer.new }
        ensures bytes { ReadConsumes (remaining self.old) (remaining self.new) result buffer.new }
        ensures given { Gives (given self.old) (given self.new) result buffer.new }
        ensures ends { CountsEnd (ends self.old) (ends self.new) result buffer.new }
        ensures reads { reads self.new ≡ reads self.old + 1 }
        ensures cause { CountsFailure (failures self.old) (failures self.new) result };
}

/// A sink of bytes. Contracts see what it took, and the number of times it failed.
pub trait Sink {
    /// The bytes that it holds, where they are known.
    ghost contents: { Self → Option (List ℕ) };

    /// All bytes of its writes that succeeded, in order. It may still hold some of them back.
    ghost written: { Self → List ℕ };

    /// All bytes that it has flushed: those that were written when it was last flushed, and the
    /// flush succeeded.
    ghost taken: { Self → List ℕ };

    /// The number of times it was flushed.
    ghost flushes: { Self → ℕ };

    /// The number of times it failed.
    ghost failures: { Self → ℕ };

    /// Writes all of the bytes. After a failure it is not known how many of them went out.
    fn write_all(&mut self, bytes: &[u8]) -> Result<(), StreamFault>
        ensures bytes { OnOk result (Appends (contents self.old) (contents self.new) bytes.now) }
        ensures written { WritesBytes (written self.old) (written self.new) result bytes.now }
        ensures taken { taken self.new ≡ taken self.old }
        ensures flushes { flushes self.new ≡ flushes self.old }
        ensures cause { CountsFailure (failures self.old) (failures self.new) result };

    /// Flushes all that was written, so that nothing is held back. After a failure it is not known
    /// how many bytes went out.
    fn flush(&mut self) -> Result<(), StreamFault>
        ensures bytes { OnOk result (Keeps (contents self.old) (contents self.new)) }
        ensures written { written self.new ≡ written self.old }
        ensures taken { TakesWritten (taken self.old) (taken self.new) result (written self.old) }
        ensures flushes { flushes self.new ≡ flushes self.old + 1 }
        ensures cause { CountsFailure (failures self.old) (failures self.new) result };
}

/// A source that reads from any reader.
#[derive(Drop)]
pub struct Reading<R> {
    reader: R,
    error: Option<io::Error>,
    given: History,
    ends: History,
    reads: History,
    failures: History,
}

impl<R: Read> Reading<R> {
    ghost use Rattle.bg_streams.specs.DeviceParts.{read_error_of, reader_of, given_of, ends_of, reads_of};
    ghost use Rattle.bg_streams.specs.DeviceParts.{read_failures_of};

    /// Returns a source that reads from this reader. It has not been asked yet, so it has given
    /// nothing and has not failed.
    pub fn new(reader: R) -> Reading<R>
        ensures reader { reader_of result ≡ reader }
        ensures error { read_error_of result ≡ None }
        ensures given { given_of result ≡ [] }
        ensures ends { ends_of result ≡ 0 }
        ensures reads { reads_of result ≡ 0 }
        ensures failures { read_failures_of result ≡ 0 }
    {
        Reading {
            reader,
            error: None,
            given: History::new(),
            ends: History::new(),
            reads: History::new(),
            failures: History::new(),
        }
    }

    /// Returns the error of the reader's last failure, if it failed.
    pub fn error(&self) -> Option<&io::Error>
        ensures { option_copied result ≡ read_error_of self.now }
    {
        self.error.as_ref()
    }
}

impl<R: Read> Source for Reading<R> {
    ghost use Rattle.bg_streams.specs.DeviceParts.{reader_of, given_of, ends_of, reads_of, read_failures_of};

    ghost remaining = { λ s. R.remaining (reader_of s) };

    ghost given = { given_of };

    ghost ends = { ends_of };

    ghost reads = { reads_of };

    ghost failures = { read_failures_of };

    fn read(&mut self, buffer: &mut [u8]) -> Result<usize, StreamFault> {
        self.reads = self.reads.marked();
        match self.reader.read(buffer) {
            Ok(count) => {
                self.given = self.given.then(&buffer[..count]);
                if count == 0 && !buffer.is_empty() {
                    self.ends = self.ends.marked();
                }
                Ok(count)
            }
            Err(error) => {
                self.failures = self.failures.marked();
                Err(keep_error(&mut self.error, error))
            }
        }
    }
}

/// A sink that writes to any writer.
#[derive(Drop)]
pub struct Writing<W> {
    writer: W,
    error: Option<io::Error>,
    written: History,
    taken: History,
    flushes: History,
    failures: History,
}

impl<W: Write> Writing<W> {
    ghost use Rattle.bg_streams.specs.DeviceParts.{write_error_of, writer_of, written_of, taken_of, flushes_of};
    ghost use Rattle.bg_streams.specs.DeviceParts.{write_failures_of};

    /// Returns a sink that writes to this writer. It has taken nothing yet, and has not failed.
    pub fn new(writer: W) -> Writing<W>
        ensures writer { writer_of result ≡ writer }
        ensures error { write_error_of result ≡ None }
        ensures written { written_of result ≡ [] }
        ensures taken { taken_of result ≡ [] }
        ensures flushes { flushes_of result ≡ 0 }
        ensures failures { write_failures_of result ≡ 0 }
    {
        Writing {
            writer,
            error: None,
            written: History::new(),
            taken: History::new(),
            flushes: History::new(),
            failures: History::new(),
        }
    }

    /// Returns the error of the writer's last failure, if it failed.
    pub fn error(&self) -> Option<&io::Error>
        ensures { option_copied result ≡ write_error_of self.now }
    {
        self.error.as_ref()
    }
}

impl<W: Write> Sink for Writing<W> {
    ghost use Rattle.bg_streams.specs.DeviceParts.{writer_of, written_of, taken_of, flushes_of, write_failures_of};

    ghost contents = { λ s. W.contents (writer_of s) };

    ghost written = { written_of };

    ghost taken = { taken_of };

    ghost flushes = { flushes_of };

    ghost failures = { write_failures_of };

    fn write_all(&mut self, bytes: &[u8]) -> Result<(), StreamFault> {
        if let Err(error) = self.writer.write_all(bytes) {
            self.failures = self.failures.marked();
            return Err(keep_error(&mut self.error, error));
        }
        self.written = self.written.then(bytes);
        Ok(())
    }

    fn flush(&mut self) -> Result<(), StreamFault> {
        self.flushes = self.flushes.marked();
        if let Err(error) = self.writer.flush() {
            self.failures = self.failures.marked();
            return Err(keep_error(&mut self.error, error));
        }
        self.taken = self.written.copy();
        Ok(())
    }
}
