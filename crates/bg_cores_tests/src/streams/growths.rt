//! Refused growths.
use super::helpers::{Fed, is_filled};
use crate::checks::{check_no_growth_is_left, check_row};
use bg_streams::{EngineFault, Reading, read_input};
use std::alloc::Global;
use std::process::Abort;

/// What is read of 10000 bytes.
fn read_some(alloc: Global) -> Result<Vec<u8>, EngineFault> {
    let bytes = [b'a'; 10000];
    read_input(alloc, &mut Reading::new(Fed::new(&bytes, 3000)), 20000)
}

/// The same, also where memory is refused once.
fn read_again(rt: &impl Abort, alloc: Global) -> Vec<u8> {
    match read_some(alloc) {
        Err(EngineFault::Memory) => read_some(alloc),
        read => read,
    }
    .expect(rt, "what is read")
}

fn is_read(rt: &impl Abort, alloc: Global) -> bool {
    is_filled(&read_again(rt, alloc), 10000)
}

/// Where memory is refused the same call then succeeds. No run of the tests refuses any, but
/// `tools/checks/refuse_growths` refuses each growth in turn.
#[test]
fn refused_growths_of_inputs(rt: HostRuntime) {
    check_row(&rt, "10000 bytes", is_read(&rt, rt.alloc()));
    check_no_growth_is_left(&rt);
}
