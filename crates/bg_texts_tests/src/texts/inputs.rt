//! Inputs whose first or second line is refused, and inputs that are too long.
use super::pictures::{HEADER, START, check_drawings, check_each, check_judged};
use bg_text::MAX_INPUT;
use std::alloc::Global;
use std::process::Abort;

pub(crate) const TOO_LONG: &str = "refused: input too long\nTooLong";

pub(crate) const NO_LENGTH: &str = "refused at line 1: not a length line\nRefused(1)";

pub(crate) const LENGTH_OUT_OF_RANGE: &str = "refused at line 1: length out of range\nRefused(1)";

/// Some bytes, and one byte so many times.
pub(crate) fn followed_by(
    rt: &impl Abort,
    alloc: Global,
    start: &str,
    byte: u8,
    count: usize,
) -> Vec<u8> {
    let rest = vec![in alloc; byte; count].expect(rt, "memory");
    let mut text = Vec::from_slice(alloc, start.as_bytes()).expect(rt, "memory");
    text.extend_from_slice(&rest).expect(rt, "memory");
    text
}

/// Inputs whose first line is of another shape.
static NO_LENGTH_LINES: [&str; 14] = [
    "",
    "\n",
    "\0",
    "open 3 1\n",
    "length",
    "length \n",
    "length 1\r\n",
    "length 1\0\n",
    "length 1 \n",
    "length  1\n",
    " length 1\n",
    "Length 1\n",
    "length +1\n",
    "length 1000\n",
];

/// The judge says this of some bytes, and one byte so many times.
fn check_followed(
    rt: &impl Abort,
    alloc: Global,
    start: &str,
    byte: u8,
    count: usize,
    wanted: &str,
) {
    let input = followed_by(rt, alloc, start, byte, count);
    check_judged(rt, alloc, start, &input, wanted);
}

#[test]
fn no_length_lines_refused(rt: HostRuntime) {
    check_each(&rt, rt.alloc(), &NO_LENGTH_LINES, NO_LENGTH);
    check_judged(&rt, rt.alloc(), "no text", b"\xff\xfe\n", NO_LENGTH);
    check_followed(&rt, rt.alloc(), "length ", b'1', 300, NO_LENGTH);
    check_followed(&rt, rt.alloc(), "", b'X', MAX_INPUT, NO_LENGTH);
}

static OTHER_LENGTHS_REFUSED: [&str; 5] = [
    "length 0\n",
    "length 000\n",
    "length 01\nopen 3 1\n",
    "length 100",
    "length 999\n",
];

static LONE_LENGTH_LINES: [[&str; 5]; 3] = [
    ["length 1", HEADER, START, "opening", "ok 0\nFine(0)"],
    ["length 1\n", HEADER, START, "opening", "ok 0\nFine(0)"],
    [
        "length 99\n",
        "length 99 game 1 score 0-0 cube 1 middle",
        START,
        "opening",
        "ok 0\nFine(0)",
    ],
];

#[test]
fn lengths_of_first_lines(rt: HostRuntime) {
    check_each(&rt, rt.alloc(), &OTHER_LENGTHS_REFUSED, LENGTH_OUT_OF_RANGE);
    check_drawings(&rt, rt.alloc(), &LONE_LENGTH_LINES);
}

/// The first line alone of an input is good, and the second is no line.
const LINE_2_REFUSED: &str = "length 1 game 1 score 0-0 cube 1 middle crawford
  13  14  15  16  17  18  19  20  21  22  23  24
  X5   .   .   .  O3   .  O5   .   .   .   .  X2
  O5   .   .   .  X3   .  X5   .   .   .   .  O2
  12  11  10   9   8   7   6   5   4   3   2   1
bar X 0 O 0 off X 0 O 0
opening
refused at line 2: not a line
Refused(2)";

static LATER_LINES: [&str; 4] = [
    "length 1\n\n",
    "length 1\n\nopen 3 1\n",
    "length 1\n\0\n",
    "length 1\nopen 3 1\r\nX move 8-5 6-5\r\n",
];

#[test]
fn later_lines_refused(rt: HostRuntime) {
    check_each(&rt, rt.alloc(), &LATER_LINES, LINE_2_REFUSED);
    check_judged(
        &rt,
        rt.alloc(),
        "no text",
        b"length 1\n\xff",
        LINE_2_REFUSED,
    );
}

#[test]
fn long_later_lines_refused(rt: HostRuntime) {
    let rest = MAX_INPUT - 9;
    check_followed(
        &rt,
        rt.alloc(),
        "length 1\nopen 3 ",
        b'1',
        300,
        LINE_2_REFUSED,
    );
    check_followed(&rt, rt.alloc(), "length 1\n", b'X', rest, LINE_2_REFUSED);
    check_followed(&rt, rt.alloc(), "length 1\n", b'\n', rest, LINE_2_REFUSED);
}

#[test]
fn inputs_that_are_too_long(rt: HostRuntime) {
    check_followed(&rt, rt.alloc(), "", b'X', MAX_INPUT + 1, TOO_LONG);
    check_followed(&rt, rt.alloc(), "length 1\n", b'X', MAX_INPUT - 8, TOO_LONG);
    check_followed(&rt, rt.alloc(), "length 0\n", b'X', MAX_INPUT - 8, TOO_LONG);
}
