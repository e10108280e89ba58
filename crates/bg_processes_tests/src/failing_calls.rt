//! Matches over sockets and files of which one call fails.
use super::loops::count_of;
use crate::checks::check_number;
use crate::helpers::devices::{keeper, link};
use crate::helpers::failing_devices::{Calls, Failing};
use crate::helpers::folders::{new_folder, remove_folder};
use crate::helpers::hosts::{Host, Hosted};
use crate::helpers::lasting::lasting;
use crate::helpers::played_loops::SEED;
use bg_auto::{LoopFault, PARTIES, run_rounds};
use bg_match::Rules;
use bg_processes::{Failures, FileKeeper};
use bg_streams::Writing;
use bg_wire::{REFEREE, SEAT_OF_O, SEAT_OF_X};
use bg_world::{Keeper, Keepers, Link, Outcome, RestoreCause};
use std::alloc::Global;

/// The files of three parties.
fn keepers<'a>(
    rt: &'a impl Host,
    folder: &str,
    failures: &'a Failures,
) -> Keepers<FileKeeper<'a, HostRuntime>> {
    Keepers {
        referee: keeper(rt, rt.host(), folder, REFEREE, failures),
        x: keeper(rt, rt.host(), folder, SEAT_OF_X, failures),
        o: keeper(rt, rt.host(), folder, SEAT_OF_O, failures),
    }
}

/// Plays ten rounds over devices of which one call fails.
fn play_failing(
    rt: &impl Host,
    folder: &str,
    calls: &Calls,
    text: &mut Vec<u8>,
) -> Result<(), LoopFault> {
    let link = link(rt, rt.host(), PARTIES, &calls.failures);
    let keepers = keepers(rt, folder, &calls.failures);
    play_ten(rt.alloc(), link, keepers, calls, text)
}

/// Plays ten rounds over any devices, of whose calls one fails.
fn play_ten<L: Link + Drop, K: Keeper + Drop>(
    alloc: Global,
    link: L,
    keepers: Keepers<K>,
    calls: &Calls,
    text: &mut Vec<u8>,
) -> Result<(), LoopFault> {
    let link = Failing::new(link, calls);
    let keepers = Keepers {
        referee: Failing::new(keepers.referee, calls),
        x: Failing::new(keepers.x, calls),
        o: Failing::new(keepers.o, calls),
    };
    let mut output = Writing::new(text);
    run_rounds(alloc, SEED, 1, Rules::One, 10, link, keepers, &mut output)
}

/// Whether all parties are up in the end, and none holds more than the referee.
pub(crate) fn is_sound(text: &[u8]) -> bool {
    match count_of(text, 0) {
        Some(most) => holds_up_to(text, 1, most)
            && holds_up_to(text, 2, most)
            && holds_up_to(text, 3, most),
        None => false,
    }
}

/// Whether a party is up, and holds no more entries than so many.
fn holds_up_to(text: &[u8], party: usize, most: u32) -> bool {
    match count_of(text, party) {
        Some(count) => count <= most,
        None => false,
    }
}

/// The call of this number fails, in a match of its own. Whether the match came to it.
fn comes_to_call(rt: &impl Host, name: &str, failing: u32) -> bool {
    let folder = new_folder(rt, name);
    let calls: &Calls = lasting(rt, Calls::new(failing));
    let is_as_expected = comes_to(rt, folder, calls);
    remove_folder(rt, folder);
    if calls.made.get() < failing {
        return false;
    }
    check_number(rt, "call", failing.into(), is_as_expected);
    true
}

/// Whether ten rounds come to their end, or the match ends where a read fails.
fn comes_to(rt: &impl Host, folder: &str, calls: &Calls) -> bool {
    let text = lasting(rt, Vec::new(rt.alloc()));
    match play_failing(rt, folder, calls, text) {
        Ok(()) => !calls.failed_to_read.get() && is_sound(text.as_slice()),
        Err(fault) => calls.failed_to_read.get() && fault == STOPPED,
    }
}

/// Why a match ends of which a read fails.
const STOPPED: LoopFault = LoopFault::Stopped(Outcome::RestoreFault(RestoreCause::Device));

/// Each call of ten rounds fails once. Of four calls in a row a test takes the one of this rest by
/// four, so that none takes long.
fn check_each_fourth_call(rt: &impl Host, name: &str, rest: u32) {
    for failing in 1..=MOST_CALLS {
        if failing % 4 == rest && !comes_to_call(rt, name, failing) {
            return;
        }
    }
    panic!(rt; "more calls than expected")
}

/// Ten rounds make fewer calls.
const MOST_CALLS: u32 = 1000;

#[test]
fn one_call_that_fails_of_the_first_and_each_fourth(rt: HostRuntime) {
    check_each_fourth_call(&rt, "one-call-1", 1);
}

#[test]
fn one_call_that_fails_of_the_second_and_each_fourth(rt: HostRuntime) {
    check_each_fourth_call(&rt, "one-call-2", 2);
}

#[test]
fn one_call_that_fails_of_the_third_and_each_fourth(rt: HostRuntime) {
    check_each_fourth_call(&rt, "one-call-3", 3);
}

#[test]
fn one_call_that_fails_of_the_fourth_and_each_fourth(rt: HostRuntime) {
    check_each_fourth_call(&rt, "one-call-0", 0);
}
