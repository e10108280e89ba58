//! The judge between readers and writers: slow ones, endless ones, and those that fail.
use super::helpers::{Fed, Slow};
use super::inputs::followed_by;
use super::records::{MATCH, TEXT_OF_MATCH};
use crate::checks::{check_number, check_row};
use bg_streams::{EngineFault, Reading, Writing};
use bg_text::{MAX_INPUT, Verdict, judge, judge_text};
use std::alloc::Global;
use std::io::{Read, Write};
use std::process::Abort;

/// Judges what a reader gives, and writes to a writer.
pub(crate) fn verdict_on<R: Read, W: Write>(
    alloc: Global,
    reader: &mut R,
    writer: &mut W,
) -> Result<Verdict, EngineFault> {
    judge(alloc, &mut Reading::new(reader), &mut Writing::new(writer))
}

/// Whether what a reader gives is judged so, and this is written and flushed, at most so many bytes
/// in a write.
fn is_judged(
    alloc: Global,
    reader: &mut Fed<'_>,
    step: usize,
    verdict: Result<Verdict, EngineFault>,
    text: &[u8],
) -> bool {
    let mut writer = Slow::new(alloc, step, 1000);
    let found = verdict_on(alloc, reader, &mut writer);
    found == verdict && writer.taken.as_slice() == text && writer.flushed == text.len()
}

/// Whether an input, of which a reader gives at most so many bytes in a read, is read whole and
/// judged so.
fn is_whole(
    alloc: Global,
    input: &[u8],
    (read, written): (usize, usize),
    verdict: Verdict,
    text: &[u8],
) -> bool {
    let mut reader = Fed::new(input, read);
    is_judged(alloc, &mut reader, written, Ok(verdict), text)
        && reader.given == input.len()
        && reader.reads <= 41_943_041
}

/// An input is read whole and judged so, by each of these parts.
fn check_parts(
    rt: &impl Abort,
    alloc: Global,
    input: &[u8],
    parts: &[(usize, usize)],
    verdict: Verdict,
    text: &[u8],
) {
    for &part in parts {
        let holds = is_whole(alloc, input, part, verdict, text);
        check_number(rt, "reads of", part.0, holds);
    }
}

static PARTS: [(usize, usize); 4] = [(1, 1), (1, 1000), (7, 3), (1000, 1000)];

#[test]
fn read_and_written_in_parts(rt: HostRuntime) {
    let (input, text) = (MATCH.as_bytes(), TEXT_OF_MATCH.as_bytes());
    check_parts(&rt, rt.alloc(), input, &PARTS, Verdict::Fine(2), text);
}

/// Inputs, to be read in parts.
static INPUTS: [&str; 7] = [
    MATCH,
    "length 1\nopen 3 1\nX move 8-5 6-5",
    "length 3 rules 2\nopen 1 3\nX roll 1 2\nO move 8-5 6-5\nrubbish",
    "length 3\nopen 3 1\n\nX move 8-5 6-5\n",
    "length 100\nopen 3 1\n",
    "length 1\n",
    "",
];

/// Whatever the parts are in which an input comes, it is judged as it is where it comes at once.
fn check_each_size(rt: &impl Abort, alloc: Global, input: &str) {
    let whole = judge_text(alloc, input.as_bytes()).expect(rt, "memory");
    for step in 1..=input.len() {
        let (bytes, parts) = (input.as_bytes(), (step, 1000));
        let holds = is_whole(alloc, bytes, parts, whole.verdict, &whole.text);
        check_number(rt, input, step, holds);
    }
}

#[test]
fn read_in_parts_of_each_size(rt: HostRuntime) {
    for input in &INPUTS {
        check_each_size(&rt, rt.alloc(), input);
    }
}

/// Whether a text is judged between slices.
fn is_judged_by_slices(alloc: Global) -> bool {
    let (mut reader, mut written) = (MATCH.as_bytes(), Vec::new(alloc));
    let verdict = verdict_on(alloc, &mut reader, &mut written);
    verdict == Ok(Verdict::Fine(2)) && written.as_slice() == TEXT_OF_MATCH.as_bytes()
}

#[test]
fn read_and_written_by_slices(rt: HostRuntime) {
    check_row(&rt, MATCH, is_judged_by_slices(rt.alloc()));
}

/// Whether an input is read up to the read that fails.
fn is_read_up_to(alloc: Global, fails_at: u32) -> bool {
    let mut reader = Fed::new(MATCH.as_bytes(), 1);
    reader.fails_at = fails_at;
    let fault = Err(EngineFault::Read);
    is_judged(alloc, &mut reader, 1000, fault, b"") && reader.reads == fails_at
}

#[test]
fn readers_that_fail(rt: HostRuntime) {
    for &fails_at in &[1, 2, 20, 33, 34] {
        let holds = is_read_up_to(rt.alloc(), fails_at);
        check_number(&rt, "fails at", fails_at as usize, holds);
    }
}

/// Whether a reader without end is read up to one byte over the limit.
fn is_read_beyond(alloc: Global, step: usize) -> bool {
    let mut reader = Fed::new(b"", step);
    reader.endless = true;
    let verdict = Ok(Verdict::TooLong);
    is_judged(
        alloc,
        &mut reader,
        1000,
        verdict,
        b"refused: input too long\n",
    ) && reader.reads <= 41_943_041
        && reader.given == 41_943_041
}

#[test]
fn readers_that_never_end(rt: HostRuntime) {
    for &step in &[64, 1000, 100_000_000] {
        check_number(&rt, "reads of", step, is_read_beyond(rt.alloc(), step));
    }
}

/// So many bytes are read whole and judged so, by parts of one size and of another.
fn check_long(
    rt: &impl Abort,
    alloc: Global,
    count: usize,
    steps: (usize, usize),
    verdict: Verdict,
    text: &[u8],
) {
    let input = followed_by(rt, alloc, "", b'X', count);
    let parts = [(steps.0, 1000), (steps.1, 1000)];
    check_parts(rt, alloc, &input, &parts, verdict, text);
}

#[test]
fn longest_input_is_read(rt: HostRuntime) {
    let text = b"refused at line 1: not a length line\n";
    let refused = Verdict::Refused(1);
    check_long(&rt, rt.alloc(), MAX_INPUT, (64, 4096), refused, text);
    let text = b"refused: input too long\n";
    let long = Verdict::TooLong;
    check_long(&rt, rt.alloc(), MAX_INPUT + 1, (1000, 4096), long, text);
}

/// Whether a writer with this room, which is less than the text, or which fails as it is flushed,
/// has taken what it has room for.
fn is_filled(alloc: Global, text: &[u8], room: usize) -> bool {
    let mut writer = Slow::new(alloc, 50, room);
    writer.flushes = room < text.len();
    let verdict = verdict_on(alloc, &mut MATCH.as_bytes(), &mut writer);
    verdict == Err(EngineFault::Write)
        && text.starts_with(&writer.taken)
        && writer.taken.len() == room
}

#[test]
fn writers_that_fail(rt: HostRuntime) {
    let text = TEXT_OF_MATCH.as_bytes();
    for &room in &[0, 1, 100, text.len().saturating_sub(1), text.len()] {
        check_number(&rt, "room for", room, is_filled(rt.alloc(), text, room));
    }
}
