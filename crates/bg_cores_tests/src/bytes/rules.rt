//! Saved texts by the second rules, and passes.

use crate::bytes::bytes::{joined, turn, with_byte, with_bytes};
use crate::bytes::refused_saves::check_load_fault;
use crate::bytes::saves::{OLD_REFEREE_SAVE, REFEREE_SAVE, check_saved, kept};
use crate::checks::check_bytes;
use bg_match::{Entry, Rules};
use bg_wire::{LoadFault, RestoreRefusal, Saved, restore};
use std::alloc::Global;
use std::process::Abort;

/// The referee's save 2 of match 1, of length 1, by the second rules: the opening 2 1, 13-11 6-5,
/// O's 4 3, 24-20 13-10, X's 6 6, with which he cannot leave the bar, and the pass.
const PASSED_SAVE: [u8; 46] = [
    0x42, 0x47, 0x53, 0x32, 0, 0, 0, 0, 0, 0, 0, 0, 0x01, 0x01, 0x02, 0, 0, 0, 0x02, 0, 0, 0, 0,
    0x06, 0x01, 0x02, 0x01, 0x06, 0x02, 0x0d, 0x0b, 0x06, 0x05, 0x02, 0x04, 0x03, 0x06, 0x02, 0x18,
    0x14, 0x0d, 0x0a, 0x02, 0x06, 0x06, 0x0a,
];

/// Whether the referee of match 1, of length 1, restores a match by these rules of slot 0.
fn restores(alloc: Global, slot0: &[u8], rules: Rules) -> bool {
    match restore(alloc, slot0, &[], 0, 1, 1, rules) {
        Ok(Some(saved)) => saved.log.rules() == rules,
        _ => false,
    }
}

/// Why the referee restores nothing of slot 0 by these rules.
fn refusal(alloc: Global, slot0: &[u8], rules: Rules) -> Option<RestoreRefusal> {
    restore(alloc, slot0, &[], 0, 1, 1, rules).err()
}

/// A text is of the rules that it tells, and of no others.
#[test]
fn rules_are_saved(rt: HostRuntime) {
    let third = with_byte(&rt, &REFEREE_SAVE, 14, 3);
    check_load_fault(&rt, third.as_slice(), LoadFault::Field(14));
    check_rules(
        &rt,
        with_byte(&rt, &REFEREE_SAVE, 14, 2).as_slice(),
        Rules::Two,
        Rules::One,
    );
    // A text of the first layout is of the first rules.
    check_restored(&rt, &OLD_REFEREE_SAVE, Rules::One, Rules::Two);
    check_rules(&rt, &REFEREE_SAVE, Rules::One, Rules::Two);
}

/// A text of the second layout is of its own rules, and of no others.
fn check_rules(rt: &(impl AllocGlobal + Abort), bytes: &[u8], own: Rules, other: Rules) {
    let saved = kept(rt, bytes);
    check_bytes(rt, bytes, saved.log.rules() == own);
    check_saved(rt, saved, bytes);
    check_restored(rt, bytes, own, other);
}

/// A text is restored by its own rules, and by no others.
fn check_restored(rt: &(impl AllocGlobal + Abort), text: &[u8], own: Rules, other: Rules) {
    check_bytes(rt, text, restores(rt.alloc(), text, own));
    let refusal = refusal(rt.alloc(), text, other);
    check_bytes(rt, text, refusal == Some(RestoreRefusal::WrongMatch));
}

/// Whether this is the save with the pass.
fn is_passed_save(rt: &impl Abort, saved: &Saved) -> bool {
    let moved = Entry::Moved(turn(rt, &[(24, 20), (13, 10)]));
    (saved.log.len(), saved.log.rules()) == (6, Rules::Two)
        && saved.log.entry(4) == Some(&moved)
        && saved.log.entry(6) == Some(&Entry::Passed)
}

#[test]
fn worked_pass(rt: HostRuntime) {
    let saved = kept(&rt, &PASSED_SAVE);
    check_saved(&rt, saved, &PASSED_SAVE);
    check_bytes(&rt, &PASSED_SAVE, is_passed_save(&rt, saved));
    for cut in 0..PASSED_SAVE.len() {
        check_load_fault(&rt, &PASSED_SAVE[..cut], LoadFault::Short);
    }
}

/// By the first rules the same pass does not follow, and by the second the empty move does not.
#[test]
fn passes_of_other_rules(rt: HostRuntime) {
    let first = with_byte(&rt, &PASSED_SAVE, 14, 1);
    check_load_fault(&rt, first.as_slice(), LoadFault::Illegal(6));
    check_empty_move(&rt, joined(&rt, &PASSED_SAVE[..45], &[0x06, 0]).as_slice());
    check_early_passes(&rt);
}

/// The empty move does not follow by the second rules, and does by the first.
fn check_empty_move(rt: &(impl AllocGlobal + Abort), empty_move: &[u8]) {
    check_load_fault(rt, empty_move, LoadFault::Illegal(6));
    let moved = with_byte(rt, empty_move, 14, 1);
    check_saved(rt, kept(rt, moved.as_slice()), moved.as_slice());
}

/// A pass where a step can be played, and one before the roll.
fn check_early_passes(rt: &(impl AllocGlobal + Abort)) {
    let two_entries = with_byte(rt, &PASSED_SAVE[..27], 23, 2);
    let early = joined(rt, two_entries.as_slice(), &[0x0a]);
    check_load_fault(rt, early.as_slice(), LoadFault::Illegal(2));
    let before = with_bytes(rt, &PASSED_SAVE, 42, &[0x0a, 0x02, 0x06, 0x06]);
    check_load_fault(rt, before.as_slice(), LoadFault::Illegal(5));
}

/// The first layout has no code for a pass.
#[test]
fn no_pass_in_the_first_layout(rt: HostRuntime) {
    let front = joined(&rt, &OLD_REFEREE_SAVE[..19], &[0, 0x06]);
    let old = joined(&rt, front.as_slice(), &PASSED_SAVE[24..]);
    check_load_fault(&rt, old.as_slice(), LoadFault::Field(42));
}
