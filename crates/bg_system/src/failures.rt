//! The failures of devices, for the process that runs them to report.
ghost use Rattle.std.specs.Iterator.{at_most};

pub(crate) mod device_failures;
pub(crate) mod first_failures;

use crate::failures::device_failures::{DeviceFailure, FailedCall};
use arrayvec::ArrayVec;
use std::cell::{Cell, RefCell};
use std::io;

/// Number of failures kept at most. No event notes more, so none is lost if they are taken out
/// after each event. A tick of the referee sends to at most 255 parties, and only the first of
/// consecutive failed sends is noted.
const ROOM: usize = 128;

/// The failures of devices, kept until they are taken out. The devices of a process borrow it when
/// they are made, and note their failures in it. The process that runs them takes these out, even
/// while they run, and reports them as it likes.
///
/// Only the first of consecutive failures of one kind, at one file, one socket or one folder, is
/// noted. So a device that stays broken neither fills the screen nor hides another.
#[derive(Drop)]
pub struct Failures {
    noted: RefCell<ArrayVec<Option<DeviceFailure>, ROOM>>,
    are_final: Cell<bool>,
}

impl Failures {
    /// Creates the list of failures, which is empty.
    pub fn new() -> Failures {
        Failures {
            noted: RefCell::new(ArrayVec::new()),
            are_final: Cell::new(false),
        }
    }

    /// Notes why a call failed. Leaves this failure out where 128 failures were noted and not taken
    /// out.
    pub fn note(&self, call: FailedCall, error: io::Error) {
        if let Ok(mut noted) = self.noted.try_borrow_mut() {
            let _ = noted.try_push(Some(DeviceFailure { call, error }));
        }
    }

    /// Returns whether a device failed for good. Its files no longer count, and the process that
    /// uses it may as well end.
    pub fn are_final(&self) -> bool {
        self.are_final.get()
    }

    /// Marks that a device failed for good.
    pub(crate) fn make_final(&self) {
        self.are_final.set(true);
    }

    /// Takes the failures out, the oldest first, as the iterator is advanced.
    pub fn drain(&self) -> DrainedFailures<'_> {
        DrainedFailures {
            failures: self,
            left: ROOM,
        }
    }
}

/// An iterator that takes failures out, the oldest first. Failures that it has not reached stay.
#[derive(Drop)]
pub struct DrainedFailures<'a> {
    failures: &'a Failures,
    /// Number of failures that may still come.
    left: usize,
}

impl<'a> Iterator for DrainedFailures<'a> {
    type Item = DeviceFailure;

    ghost remaining = { λ drained. at_most drained.left };

    fn next(&mut self) -> Option<DeviceFailure> {
        self.left = self.left.checked_sub(1)?;
        let mut noted = self.failures.noted.try_borrow_mut().ok()?;
        noted.pop_at(0)?
    }
}
