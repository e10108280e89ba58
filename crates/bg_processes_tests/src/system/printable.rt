//! What messages show of names.
use crate::checks::{check, is_printed};
use bg_system::{Printable, PrintableLines};
use std::process::Abort;

/// Names, and behind an arrow what is shown of each; between bars. The last ones turn the direction
/// of writing round or have no width, have quotes, and are empty.
const SHOWN: &str = "party-0.1 -> party-0.1\
    |a b/o'hara's/Ærø/日本 -> a b/o'hara's/Ærø/日本\
    |\u{1b}[2J\u{7f}\u{9b}\r -> \\u{1b}[2J\\u{7f}\\u{9b}\\r\
    |two\nlines\ttab -> two\\nlines\\ttab\
    |\u{202e}\u{200b} -> \\u{202e}\\u{200b}\
    |a\\b\"c' -> a\\\\b\\\"c'\
    | -> ";

/// A row's name is shown as it says.
fn check_row(rt: &(impl AllocGlobal + Abort), row: &str) {
    let (name, shown) = row.split_once(" -> ").expect(rt, "an arrow");
    check(rt, is_printed(rt.alloc(), &Printable(name), shown), row);
}

#[test]
fn names_cant_break_a_terminal(rt: HostRuntime) {
    for row in SHOWN.split('|') {
        check_row(&rt, row);
    }
}

#[test]
fn lines_stay_lines(rt: HostRuntime) {
    let lines = PrintableLines("one '\u{1b}[2J'\n\n  two\n");
    let is_so = is_printed(rt.alloc(), &lines, "one '\\u{1b}[2J'\n\n  two\n");
    check(&rt, is_so, "lines are shown as lines");
}
