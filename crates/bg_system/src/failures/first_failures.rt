//! Noting failed calls of a device.
ghost use Rattle.std.specs.Prelude.{◌≡◌, ◌+◌, ◌||◌, false, true, length, if◌then◌else◌, is_err, is_ok};

use crate::failures::Failures;
use crate::failures::device_failures::FailedCall;
use bg_streams::History;
use std::io;

/// Notes why calls of one kind fail at a device: only the first of consecutive failures.
///
/// Contracts see whether the last call failed, and the number of failures noted.
#[derive(Drop)]
pub struct FirstFailures<'a> {
    failures: &'a Failures,
    /// Whether the last call failed.
    failing: bool,
    /// A mark for each failure noted.
    noted: History,
}

impl<'a> FirstFailures<'a> {
    /// Creates notes of calls of which none has failed yet.
    pub fn new(failures: &'a Failures) -> FirstFailures<'a>
        ensures failing { result.failing ≡ false }
        ensures noted { length result.noted.bytes ≡ 0 }
    {
        FirstFailures {
            failures,
            failing: false,
            noted: History::new(),
        }
    }

    /// Returns the system's result of a call. Notes why the call failed, unless the call before it
    /// failed too.
    pub fn after<T>(&mut self, call: FailedCall, answer: io::Result<T>) -> io::Result<T>
        ensures answer { result ≡ answer }
        ensures failing { self.new.failing ≡ is_err answer }
        ensures noted { length self.new.noted.bytes
            ≡ (if is_ok answer || self.old.failing then length self.old.noted.bytes
            else length self.old.noted.bytes + 1) }
    {
        match answer {
            Ok(value) => {
                self.failing = false;
                Ok(value)
            }
            Err(error) => {
                self.note_first(call, error);
                Err(error)
            }
        }
    }

    /// Notes why a call failed, unless the call before it failed too.
    fn note_first(&mut self, call: FailedCall, error: io::Error)
        ensures failing { self.new.failing ≡ true }
        ensures noted { length self.new.noted.bytes
            ≡ (if self.old.failing then length self.old.noted.bytes else length self.old.noted.bytes + 1) }
    {
        if self.failing {
            return;
        }
        self.failing = true;
        self.failures.note(call, error);
        self.noted = self.noted.marked();
    }
}
