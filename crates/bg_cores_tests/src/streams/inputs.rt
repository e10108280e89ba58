//! Inputs that are read whole, and of which no more is read than one byte over the limit.
use super::helpers::{Fed, is_filled};
use crate::checks::check_number;
use bg_streams::{EngineFault, Reading, read_input};
use std::alloc::Global;
use std::process::Abort;

const INPUT: &[u8] = b"length 1\nopen 3 1\n";

/// Whether this much of an input is read, in so many reads.
fn is_read(alloc: Global, reader: &mut Fed<'_>, most: usize, read: &[u8], reads: u32) -> bool {
    match read_input(alloc, &mut Reading::new(&mut *reader), most) {
        Ok(input) => input.as_slice() == read && reader.reads == reads,
        Err(_) => false,
    }
}

/// Whether this much of an input that comes in such parts is read, in so many reads.
fn gives(alloc: Global, step: usize, most: usize, read: &[u8], reads: u32) -> bool {
    is_read(alloc, &mut Fed::new(INPUT, step), most, read, reads)
}

fn gives_nothing(alloc: Global) -> bool {
    is_read(alloc, &mut Fed::new(b"", 1), 0, b"", 1)
}

/// An input that comes in such parts is read whole in so many reads, whatever is the limit.
fn check_whole(rt: &impl Abort, alloc: Global, step: usize, reads: u32) {
    for &most in &[18, 19, 1000, usize::MAX] {
        check_number(rt, "at most", most, gives(alloc, step, most, INPUT, reads));
    }
}

#[test]
fn read_to_the_end(rt: HostRuntime) {
    for &(step, reads) in &[(1, 19), (7, 4), (18, 2), (1000, 2)] {
        check_whole(&rt, rt.alloc(), step, reads);
    }
    check_number(
        &rt,
        "bytes of an empty input:",
        0,
        gives_nothing(rt.alloc()),
    );
}

/// Whether an input that comes at once is read up to one byte over the limit.
fn is_cut(alloc: Global, most: usize) -> bool {
    match INPUT.get(..most.saturating_add(1)) {
        Some(read) => gives(alloc, 1000, most, read, 1),
        None => false,
    }
}

#[test]
fn read_to_one_byte_over_the_limit(rt: HostRuntime) {
    for most in 0..INPUT.len() {
        check_number(&rt, "at most", most, is_cut(rt.alloc(), most));
    }
    let holds = gives(rt.alloc(), 1, 8, b"length 1\n", 9);
    check_number(&rt, "one by one, at most", 8, holds);
}

/// Whether an input without end is read up to one byte over the limit, in so many reads.
fn is_cut_off(alloc: Global, most: usize, reads: u32) -> bool {
    let mut endless = Fed::new(&[b'a'; 5000], 5000);
    endless.endless = true;
    match read_input(alloc, &mut Reading::new(&mut endless), most) {
        Ok(input) => is_filled(&input, most.saturating_add(1)) && endless.reads == reads,
        Err(_) => false,
    }
}

#[test]
fn read_in_chunks(rt: HostRuntime) {
    check_number(&rt, "at most", 8191, is_cut_off(rt.alloc(), 8191, 2));
    check_number(&rt, "at most", 8192, is_cut_off(rt.alloc(), 8192, 3));
}

/// Whether an input is read up to the read that fails.
fn is_read_until(alloc: Global, fails_at: u32) -> bool {
    let mut reader = Fed::new(INPUT, 1);
    reader.fails_at = fails_at;
    let fault = read_input(alloc, &mut Reading::new(&mut reader), 1000).err();
    fault == Some(EngineFault::Read) && reader.reads == fails_at
}

#[test]
fn readers_that_fail(rt: HostRuntime) {
    for &fails_at in &[1, 2, 18, 19] {
        let holds = is_read_until(rt.alloc(), fails_at);
        check_number(&rt, "at read", fails_at as usize, holds);
    }
}
