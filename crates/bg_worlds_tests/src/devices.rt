//! Devices of the tests' own, in memory: a link and keepers, which record what they are asked, and
//! fail where they are told to.

pub(crate) mod keepers;
pub(crate) mod links;

use crate::checks::lasting;
use bg_text::{put_number, put_text};
use bg_wire::{Packet, decode};
use bg_world::{DeviceFault, FailRead, FailSend, Tear};
use std::alloc::{AllocError, Global};
use std::cell::RefCell;
use std::process::Abort;

/// Which calls of the devices fail: at most one of each kind.
#[derive(Clone, Copy)]
pub(crate) struct Failing {
    pub(crate) tear: Option<Tear>,
    pub(crate) send: Option<FailSend>,
    pub(crate) read: Option<FailRead>,
}

pub(crate) const NO_FAILURE: Failing = Failing {
    tear: None,
    send: None,
    read: None,
};

/// Where the write of this number at a party is torn, and nothing else fails.
pub(crate) fn tearing(party: u8, nth: u32, cut: Option<u32>) -> Failing {
    Failing {
        tear: Some(Tear { party, nth, cut }),
        ..NO_FAILURE
    }
}

/// Adds words to a text, and numbers behind them.
fn put(text: &mut Vec<u8>, words: &str, numbers: &[u32]) -> Result<(), AllocError> {
    put_text(text, words)?;
    for number in numbers {
        put_text(text, " ")?;
        put_number(text, u64::from(*number))?;
    }
    Ok(())
}

/// Adds what a datagram says: "want" and a party with how many entries it holds, "claim" and a
/// party with the number of the entry that it claims, "entries" and the first one's number with how
/// many they are, or "garbled", where it is no packet. Where there is none that is "nothing".
fn put_said(text: &mut Vec<u8>, datagram: Option<&[u8]>) -> Result<(), AllocError> {
    let Some(bytes) = datagram else {
        return put(text, ": nothing", &[]);
    };
    match decode(bytes) {
        Ok(Packet::Want { sender, held, .. }) => put(text, ": want", &[sender.into(), held]),
        Ok(Packet::Claim { sender, number, .. }) => put(text, ": claim", &[sender.into(), number]),
        Ok(Packet::Entries { start, list, .. }) => {
            put(text, ": entries", &[start, list.entries.len() as u32])
        }
        Err(_) => put(text, ": garbled", &[]),
    }
}

/// The calls of all devices of a match, in order, and which of them fail. A call is a line:
/// - "read 1 0": slot 0 of party 1 is read;
/// - "write 1 0 2 3 4": to slot 0 of party 1 save 2 is written, in which entry 3 is claimed, 0
///   where none is, and 4 are held; "failed write" where that fails;
/// - "take 1 0: want 2 3": party 1 takes with pick 0, and is handed what says this;
/// - "send 1: want 2 3": to party 1 this is sent.
#[derive(Drop)]
pub(crate) struct Recorder {
    pub(crate) alloc: Global,
    calls: RefCell<Vec<u8>>,
    failing: Failing,
}

impl Recorder {
    pub(crate) fn new(alloc: Global, failing: Failing) -> Recorder {
        Recorder {
            alloc,
            calls: RefCell::new(Vec::new(alloc)),
            failing,
        }
    }

    /// A recorder that lasts as long as its process. The first try may lack memory.
    pub(crate) fn that_lasts(
        rt: &impl Abort,
        alloc: Global,
        failing: Failing,
    ) -> &'static Recorder {
        match lasting(alloc, Recorder::new(alloc, failing)) {
            Ok(recorder) => recorder,
            Err(AllocError) => lasting(alloc, Recorder::new(alloc, failing)).expect(rt, "memory"),
        }
    }

    /// The lines of the calls so far.
    pub(crate) fn into_calls(self) -> Vec<u8> {
        self.calls.into_inner()
    }

    /// A keeper is called.
    fn record(&self, words: &str, numbers: &[u32]) -> Result<(), DeviceFault> {
        match self.calls.try_borrow_mut() {
            Ok(mut calls) => {
                put(&mut calls, words, numbers)?;
                Ok(put_text(&mut calls, "\n")?)
            }
            Err(_) => Err(DeviceFault::Failed),
        }
    }

    /// A link is called, and handed a datagram or asked for one.
    fn record_said(
        &self,
        words: &str,
        numbers: &[u32],
        datagram: Option<&[u8]>,
    ) -> Result<(), DeviceFault> {
        match self.calls.try_borrow_mut() {
            Ok(mut calls) => {
                put(&mut calls, words, numbers)?;
                put_said(&mut calls, datagram)?;
                Ok(put_text(&mut calls, "\n")?)
            }
            Err(_) => Err(DeviceFault::Failed),
        }
    }

    /// How the send of this number fails, if it does.
    fn send_failure(&self, nth: u32) -> Option<FailSend> {
        match self.failing.send {
            Some(failure) if failure.nth == nth => Some(failure),
            _ => None,
        }
    }

    /// How the write of this number at a party is torn, if it is.
    fn tear(&self, party: u8, nth: u32) -> Option<Tear> {
        match self.failing.tear {
            Some(tear) if tear.party == party && tear.nth == nth => Some(tear),
            _ => None,
        }
    }

    /// Whether the read of this number at a party fails.
    fn fails_read(&self, party: u8, nth: u32) -> bool {
        match self.failing.read {
            Some(failure) => failure.party == party && failure.nth == nth,
            None => false,
        }
    }
}
