//! What faults print.
use super::lines::FAULTS;
use crate::checks::check_printed;
use bg_match::{ExtendFault, LengthFault};

#[test]
fn faults_printed(rt: HostRuntime) {
    for (words, fault) in &FAULTS {
        check_printed(&rt, fault, words);
    }
}

#[test]
fn faults_of_lengths_printed(rt: HostRuntime) {
    check_printed(&rt, &LengthFault::LengthOutOfRange, "length out of range");
}

#[test]
fn faults_of_lists_printed(rt: HostRuntime) {
    let illegal = ExtendFault::Illegal(1_000_001);
    check_printed(&rt, &illegal, "illegal entry 1000001");
    check_printed(&rt, &ExtendFault::Memory, "out of memory");
}
