//! Lines of each kind of entry, and lines of each fault.
use crate::checks::{check_row, check_words, parted};
use bg_text::{entry_text, parse_entry};
use std::alloc::{AllocError, Global};
use std::process::Abort;

/// What a line is read as, or is refused for.
fn told_of(alloc: Global, line: &[u8]) -> Result<String, AllocError> {
    let read = parse_entry(line);
    format!(in alloc; "{read:?}")
}

/// Whether what a line is read as is written as that line, where it is the line of an entry.
fn is_written(line: &str) -> bool {
    match parse_entry(line.as_bytes()) {
        Ok((by, entry)) => entry_text(by, &entry).as_str() == line,
        Err(_) => true,
    }
}

/// The line of each row is read as the seat and the entry, or refused for the fault, that stand
/// behind the arrow.
fn check_lines(rt: &impl Abort, alloc: Global, rows: &str) {
    for row in rows.lines() {
        let (line, wanted) = parted(rt, row);
        check_words(rt, row, told_of(alloc, line.as_bytes()), wanted);
        check_row(rt, row, is_written(line));
    }
}

/// Dice and doubles, turns, resignations, and a pass.
const LINES_OF_ENTRIES: &str = "\
open 3 1 -> Ok((None, Opening(Three, One)))
open 4 4 -> Ok((None, Opening(Four, Four)))
O roll 6 2 -> Ok((Some(O), Rolled(Dice { first: Six, second: Two })))
X double -> Ok((Some(X), Doubled))
O take -> Ok((Some(O), Taken))
X drop -> Ok((Some(X), Dropped))
X move -> Ok((Some(X), Moved([])))
X move 8-5 6-5 -> Ok((Some(X), Moved([Step { from: 8, to: 5 }, Step { from: 6, to: 5 }])))
O move bar-off 1-off -> Ok((Some(O), Moved([Step { from: 25, to: 0 }, Step { from: 1, to: 0 }])))
X move bar-24 bar-24 bar-24 bar-24 -> Ok((Some(X), Moved([\
Step { from: 25, to: 24 }, Step { from: 25, to: 24 }, Step { from: 25, to: 24 }, Step { from: 25, to: 24 }])))
X resign normal -> Ok((Some(X), Resigned(Normal)))
O resign gammon -> Ok((Some(O), Resigned(Gammon)))
X resign backgammon -> Ok((Some(X), Resigned(Backgammon)))
O accept -> Ok((Some(O), Accepted))
X reject -> Ok((Some(X), Rejected))
pass -> Ok((None, Passed))
";

#[test]
fn lines_of_entries(rt: HostRuntime) {
    check_lines(&rt, rt.alloc(), LINES_OF_ENTRIES);
}

/// Lines that are no entry, and why. A blank behind a line's words is one that the line has.
const NO_ENTRIES: &str = "\
X move 0-off -> Err(BadNumber)
X move 25-20 -> Err(BadNumber)
X move 3-0 -> Err(BadNumber)
X move 03-1 -> Err(BadNumber)
X move 5-5 -> Err(BadNumber)
X move 5-8 -> Err(BadNumber)
X move 24-23 24-23 24-23 24-23 0-off -> Err(BadNumber)
open 0 1 -> Err(BadNumber)
open 3 7 -> Err(BadNumber)
O roll 06 2 -> Err(BadNumber)
X move 24-23 24-23 24-23 24-23 24-23 -> Err(TooManySteps)
\x20-> Err(NotALine)
X -> Err(NotALine)
x take -> Err(NotALine)
X open 3 1 -> Err(NotALine)
open 3 -> Err(NotALine)
open 3 1 1 -> Err(NotALine)
roll 6 2 -> Err(NotALine)
X roll -> Err(NotALine)
X resign -> Err(NotALine)
X moves 8-5 -> Err(NotALine)
X move 0-off bar -> Err(NotALine)
X move off-3 -> Err(NotALine)
X move 8-bar -> Err(NotALine)
X move 8-5-3 -> Err(NotALine)
X move 100-5 -> Err(NotALine)
X  take -> Err(NotALine)
X move  8-5 -> Err(NotALine)
\x20X take -> Err(NotALine)
X take  -> Err(NotALine)
X move 8-5  -> Err(NotALine)
X take\r -> Err(NotALine)
X take\0 -> Err(NotALine)
X take\u{80} -> Err(NotALine)
X pass -> Err(NotALine)
O pass -> Err(NotALine)
pass 1 -> Err(NotALine)
pass 8-5 -> Err(NotALine)
pass  -> Err(NotALine)
\x20pass -> Err(NotALine)
passed -> Err(NotALine)
pas -> Err(NotALine)
Pass -> Err(NotALine)
pass\0 -> Err(NotALine)
";

/// A line that is no text, or a long one, has none of the shapes of a line.
fn check_refused(rt: &impl Abort, alloc: Global, name: &str, line: &[u8]) {
    check_words(rt, name, told_of(alloc, line), "Err(NotALine)");
}

#[test]
fn refused_lines(rt: HostRuntime) {
    check_lines(&rt, rt.alloc(), NO_ENTRIES);
    check_refused(&rt, rt.alloc(), "X take\\xff", b"X take\xff");
    check_refused(&rt, rt.alloc(), "300 digits", &[b'3'; 300]);
}

#[test]
fn long_numbers(rt: HostRuntime) {
    let mut line = [b'1'; 307];
    line[..7].copy_from_slice(b"open 3 ");
    check_refused(&rt, rt.alloc(), "open 3 and 300 digits", &line);
}
