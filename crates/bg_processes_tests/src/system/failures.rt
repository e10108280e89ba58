//! What devices note of their failures, until it is taken out.
use crate::checks::{check, check_number};
use crate::helpers::told_failures::{check_told, failures};
use bg_system::{DrainedFailures, FailedCall, Failures, FirstFailures, SlotName};
use bg_wire::Slot;
use std::io;
use std::io::ErrorKind;
use std::process::Abort;

/// The file of slot 1 of party 2.
const FILE: SlotName = SlotName {
    party: 2,
    slot: Slot::One,
};

/// Notes that a call failed for this reason.
fn note(failures: &Failures, call: FailedCall, kind: ErrorKind) {
    failures.note(call, io::Error::from(kind));
}

/// Notes that a call was not permitted.
fn refuse(failures: &Failures, call: FailedCall) {
    note(failures, call, ErrorKind::PermissionDenied);
}

/// Notes that no datagram could be sent to a party.
fn note_send(failures: &Failures, to: u8) {
    note(failures, FailedCall::Send { to }, ErrorKind::StorageFull);
}

/// What is told of calls that were not permitted, of devices over a folder whose name has a line
/// feed.
const WORDS: &str = "\
no socket for party 3 on 127.0.0.1: permission denied
no datagram could be sent to party 255: permission denied
the socket of party 0 could not be read: permission denied
o'hara\\n/party-2.1 could not be written: permission denied
o'hara\\n/party-2.1 could not be read: permission denied
o'hara\\n could not be synced: permission denied
o'hara\\n can't be found: permission denied
o'hara\\n/party-2.1 could not be emptied after a sync that failed: permission denied
";

#[test]
fn words_of_failures(rt: HostRuntime) {
    check_words(&rt);
}

/// Each call is told in its words.
fn check_words(rt: &(impl AllocGlobal + Abort)) {
    let failures = failures(rt);
    refuse(failures, FailedCall::Open { party: 3 });
    refuse(failures, FailedCall::Send { to: 255 });
    refuse(failures, FailedCall::Receive { party: 0 });
    refuse(failures, FailedCall::Write(FILE));
    refuse(failures, FailedCall::Read(FILE));
    refuse(failures, FailedCall::Sync);
    refuse(failures, FailedCall::Find);
    refuse(failures, FailedCall::TakeBack(FILE));
    check_told(rt, failures, "o'hara\n", WORDS);
}

/// The next failure is that of a send to this party.
fn check_next(rt: &impl Abort, drained: &mut DrainedFailures<'_>, to: u8) {
    check_number(rt, "to party", to.into(), is_send(drained, to));
}

/// Whether there is a failure next, and it is that of a send to this party.
fn is_send(drained: &mut DrainedFailures<'_>, to: u8) -> bool {
    match drained.next() {
        Some(failure) => {
            failure.call == FailedCall::Send { to }
                && failure.error.kind() == ErrorKind::StorageFull
        }
        None => false,
    }
}

#[test]
fn the_oldest_failure_comes_first_and_once(rt: HostRuntime) {
    check_oldest(&rt);
}

/// Failures are taken out in their order, once.
fn check_oldest(rt: &(impl AllocGlobal + Abort)) {
    let failures = failures(rt);
    for to in 1..4 {
        note_send(failures, to);
    }
    // What is not asked for stays.
    check_next(rt, &mut failures.drain(), 1);
    note_send(failures, 4);
    check_rest(rt, &mut failures.drain());
    check(rt, failures.drain().next().is_none(), "nothing comes twice");
}

/// Those to the parties from 2 to 4 come, and no other.
fn check_rest(rt: &impl Abort, drained: &mut DrainedFailures<'_>) {
    for to in 2..5 {
        check_next(rt, drained, to);
    }
    check(rt, drained.next().is_none(), "no other failure");
}

#[test]
fn the_newest_failures_are_left_out(rt: HostRuntime) {
    check_newest(&rt);
}

/// There is room for 128 failures, and again when they are taken out.
fn check_newest(rt: &(impl AllocGlobal + Abort)) {
    let failures = failures(rt);
    for to in 0..=u8::MAX {
        note_send(failures, to);
    }
    check(rt, is_last(failures, 127), "the last failure");
    note_send(failures, 9);
    check(rt, failures.drain().count() == 1, "one failure");
}

/// Whether the last failure is that of a send to this party.
fn is_last(failures: &Failures, to: u8) -> bool {
    match failures.drain().last() {
        Some(failure) => failure.call == FailedCall::Send { to },
        None => false,
    }
}

/// A write answered so, and the answer is handed on.
fn check_after(
    rt: &impl Abort,
    writes: &mut FirstFailures<'_>,
    answered: Result<i32, ErrorKind>,
    what: &str,
) {
    let given = writes.after(FailedCall::Write(FILE), answered.map_err(io::Error::from));
    let given = given.map_err(|error| error.kind());
    check(rt, given == answered, what);
}

fn next_kind(drained: &mut DrainedFailures<'_>) -> Option<ErrorKind> {
    Some(drained.next()?.error.kind())
}

#[test]
fn the_first_of_failures_that_follow_each_other_is_noted(rt: HostRuntime) {
    check_first(&rt);
}

/// Of writes that fail in a row the first is noted.
fn check_first(rt: &(impl AllocGlobal + Abort)) {
    let failures = failures(rt);
    let mut writes = FirstFailures::new(failures);
    check_after(rt, &mut writes, Err(ErrorKind::OutOfMemory), "the first");
    check_after(rt, &mut writes, Err(ErrorKind::StorageFull), "the second");
    check_after(rt, &mut writes, Ok(7), "a success");
    check_after(rt, &mut writes, Err(ErrorKind::NotFound), "the third");
    check(rt, are_two(&mut failures.drain()), "two are noted");
}

/// Whether there are the two that are noted, and no other.
fn are_two(drained: &mut DrainedFailures<'_>) -> bool {
    next_kind(drained) == Some(ErrorKind::OutOfMemory)
        && next_kind(drained) == Some(ErrorKind::NotFound)
        && next_kind(drained).is_none()
}
