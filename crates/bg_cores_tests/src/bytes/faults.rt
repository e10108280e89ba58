//! The texts of faults.
use crate::checks::{check_row, check_told};
use crate::lasting::lasting_text;
use bg_wire::{LoadFault, RestoreRefusal, SaveRefusal, WireFault};
use std::fmt::Display;
use std::process::Abort;

/// A fault is printed so.
fn check_printed<T: Display>(rt: &(impl AllocGlobal + Abort), fault: &T, text: &str) {
    let printed = lasting_text(rt, format!(in rt.alloc(); "{fault}"));
    check_told(rt, printed, text);
}

/// Whether the words of a fault, and the number behind them, if there is one, are this text.
fn are_words((words, number): (&'static str, Option<u64>), text: &str) -> bool {
    match (text.strip_prefix(words), number) {
        (Some(rest), Some(number)) => rest.parse().ok() == Some(number),
        (Some(rest), None) => rest.is_empty(),
        (None, _) => false,
    }
}

static WIRE_FAULTS: [(WireFault, &str); 6] = [
    (WireFault::Short, "short"),
    (WireFault::Magic, "bad magic"),
    (WireFault::Version, "bad version"),
    (WireFault::Kind, "bad kind"),
    (WireFault::Field(97), "bad field at 97"),
    (WireFault::Extra, "extra bytes"),
];

/// A fault of packets is printed so, and its words are the same.
#[test]
fn wire_faults(rt: HostRuntime) {
    for (fault, text) in &WIRE_FAULTS {
        check_printed(&rt, fault, text);
        check_row(&rt, text, are_words(fault.words(), text));
    }
}

static LOAD_FAULTS: [(LoadFault, &str); 6] = [
    (LoadFault::Short, "short"),
    (LoadFault::Magic, "bad magic"),
    (LoadFault::Field(10000037), "bad field at 10000037"),
    (LoadFault::Extra, "extra bytes"),
    (LoadFault::Illegal(1000000), "illegal entry 1000000"),
    (LoadFault::Memory, "out of memory"),
];

/// A fault of saved texts is printed so, and its words are the same.
#[test]
fn load_faults(rt: HostRuntime) {
    for (fault, text) in &LOAD_FAULTS {
        check_printed(&rt, fault, text);
        check_row(&rt, text, are_words(fault.words(), text));
    }
}

#[test]
fn refusals(rt: HostRuntime) {
    check_printed(&rt, &SaveRefusal::SavesSpent, "saves spent");
    check_printed(&rt, &SaveRefusal::Memory, "out of memory");
    check_printed(&rt, &RestoreRefusal::Damaged, "damaged");
    check_printed(&rt, &RestoreRefusal::WrongMatch, "wrong match");
    check_printed(&rt, &RestoreRefusal::Memory, "out of memory");
}
