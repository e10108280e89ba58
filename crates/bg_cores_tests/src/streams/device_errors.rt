//! The last error of a reader or a writer is kept.
use crate::checks::check_row;
use bg_streams::{Reading, Sink, Source, StreamFault, Writing};
use std::io::{self, ErrorKind, Read, Write};

/// Fails in all calls, in each for another reason.
#[derive(Drop)]
struct Broken {
    kinds: [ErrorKind; 2],
}

impl Broken {
    fn fail(&mut self) -> io::Error {
        self.kinds.swap(0, 1);
        self.kinds[1].into()
    }
}

impl Read for Broken {
    fn read(&mut self, _: &mut [u8]) -> io::Result<usize> {
        Err(self.fail())
    }
}

impl Write for Broken {
    fn write(&mut self, _: &[u8]) -> io::Result<usize> {
        Err(self.fail())
    }

    fn flush(&mut self) -> io::Result<()> {
        Err(self.fail())
    }
}

fn kind_of(error: Option<&io::Error>) -> Option<ErrorKind> {
    error.map(|error| error.kind())
}

/// Whether a read fails, and this is the reason that is kept.
fn is_read_error(input: &mut Reading<Broken>, kind: ErrorKind) -> bool {
    input.read(&mut [0]) == Err(StreamFault) && kind_of(input.error()) == Some(kind)
}

/// Whether a write fails, and this is the reason that is kept.
fn is_write_error(output: &mut Writing<Broken>, kind: ErrorKind) -> bool {
    output.write_all(b"a") == Err(StreamFault) && kind_of(output.error()) == Some(kind)
}

/// Whether a flush fails, and this is the reason that is kept.
fn is_flush_error(output: &mut Writing<Broken>, kind: ErrorKind) -> bool {
    output.flush() == Err(StreamFault) && kind_of(output.error()) == Some(kind)
}

const KINDS: [ErrorKind; 2] = [ErrorKind::TimedOut, ErrorKind::BrokenPipe];

/// Whether a reader has no error at first, and then that of its last read.
fn keeps_read_errors() -> bool {
    let mut input = Reading::new(Broken { kinds: KINDS });
    kind_of(input.error()).is_none()
        && is_read_error(&mut input, ErrorKind::TimedOut)
        && is_read_error(&mut input, ErrorKind::BrokenPipe)
}

/// Whether a writer has no error at first, and then that of its last call.
fn keeps_write_errors() -> bool {
    let mut output = Writing::new(Broken { kinds: KINDS });
    kind_of(output.error()).is_none()
        && is_write_error(&mut output, ErrorKind::TimedOut)
        && is_flush_error(&mut output, ErrorKind::BrokenPipe)
}

#[test]
fn last_error_is_kept(rt: HostRuntime) {
    check_row(&rt, "of a reader", keeps_read_errors());
    check_row(&rt, "of a writer", keeps_write_errors());
}
