//! A runtime that keeps what is printed and what is said.

use crate::lasting::lasting_text;
use std::alloc::{Alloc, AllocError, Global};
use std::cell::{Cell, RefCell};
use std::fmt::Display;
use std::io;
use std::io::ErrorKind;
use std::time::{Clock, Duration};

/// The system's memory and clock; its standard output and its standard error are kept.
#[derive(Drop)]
pub(crate) struct KeptOutput<'a> {
    rt: &'a HostRuntime,
    said: Cell<String>,
    printed: RefCell<Vec<u8>>,
}

impl<'a> KeptOutput<'a> {
    pub(crate) fn new(rt: &'a HostRuntime) -> KeptOutput<'a> {
        KeptOutput {
            rt,
            said: Cell::new(String::new(rt.alloc())),
            printed: RefCell::new(Vec::new(rt.alloc())),
        }
    }

    /// What was said since the last call. It lasts as long as the process.
    pub(crate) fn said(&self) -> &'a str {
        lasting_text(self.take_said())
    }

    fn take_said(&self) -> String {
        self.said.replace(String::new(self.rt.alloc()))
    }

    fn say<D: Display + Drop>(&self, value: D, end: &str) -> Result<(), AllocError> {
        let mut said = self.take_said();
        write!(said, "{value}{end}")?;
        self.said.set(said);
        Ok(())
    }

    /// What was printed.
    pub(crate) fn into_printed(self) -> Vec<u8> {
        self.printed.into_inner()
    }
}

impl<'a> Alloc for KeptOutput<'a> {
    type A = Global;

    fn alloc(&self) -> Global {
        self.rt.alloc()
    }
}

impl<'a> Eprint for KeptOutput<'a> {
    fn eprint<D: Display + Drop>(&self, value: D) -> io::Result<()> {
        Ok(self.say(value, "")?)
    }

    fn eprintln<D: Display + Drop>(&self, value: D) -> io::Result<()> {
        Ok(self.say(value, "\n")?)
    }
}

impl<'a> Print for KeptOutput<'a> {
    fn print<D: Display + Drop>(&self, _value: D) -> io::Result<()> {
        Err(io::Error::from(ErrorKind::Unsupported))
    }

    fn println<D: Display + Drop>(&self, _value: D) -> io::Result<()> {
        Err(io::Error::from(ErrorKind::Unsupported))
    }

    fn write_all(&self, bytes: &[u8]) -> io::Result<()> {
        match self.printed.try_borrow_mut() {
            Ok(mut printed) => Ok(printed.extend_from_slice(bytes)?),
            Err(_) => Err(io::Error::from(ErrorKind::ResourceBusy)),
        }
    }
}

impl<'a> Clock for KeptOutput<'a> {
    fn monotonic(&self) -> io::Result<Duration> {
        self.rt.monotonic()
    }

    fn since_1970(&self) -> io::Result<Duration> {
        self.rt.since_1970()
    }

    fn sleep(&self, duration: Duration) {
        self.rt.sleep(duration)
    }
}
