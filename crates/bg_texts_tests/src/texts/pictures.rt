//! The boards that are expected, and the comparison of what is drawn and judged with them.
use crate::checks::{check_text, check_words, text_of};
use bg_match::Standing;
use bg_text::{board_text, judge_text};
use std::alloc::{AllocError, Global};
use std::process::Abort;

pub(crate) const HEADER: &str = "length 1 game 1 score 0-0 cube 1 middle crawford";

pub(crate) const START: &str = "  13  14  15  16  17  18  19  20  21  22  23  24
  X5   .   .   .  O3   .  O5   .   .   .   .  X2
  O5   .   .   .  X3   .  X5   .   .   .   .  O2
  12  11  10   9   8   7   6   5   4   3   2   1
bar X 0 O 0 off X 0 O 0
";

/// X has moved 8-5 6-5.
pub(crate) const OPENED: &str = "  13  14  15  16  17  18  19  20  21  22  23  24
  X5   .   .   .  O3   .  O5   .   .   .   .  X2
  O5   .   .   .  X2   .  X4  X2   .   .   .  O2
  12  11  10   9   8   7   6   5   4   3   2   1
bar X 0 O 0 off X 0 O 0
";

/// What the judge says of an input, and the verdict behind it.
fn told_of(alloc: Global, input: &[u8]) -> Result<String, AllocError> {
    let judged = judge_text(alloc, input)?;
    let text = text_of(&judged.text);
    let verdict = judged.verdict;
    format!(in alloc; "{text}{verdict:?}")
}

/// The same.
pub(crate) fn judged(rt: &impl Abort, alloc: Global, input: &[u8]) -> String {
    told_of(alloc, input).expect(rt, "memory")
}

/// The judge says this of an input, and comes to the verdict behind it.
pub(crate) fn check_judged(rt: &impl Abort, alloc: Global, row: &str, input: &[u8], wanted: &str) {
    check_words(rt, row, told_of(alloc, input), wanted);
}

/// The same, of several inputs.
pub(crate) fn check_each(rt: &impl Abort, alloc: Global, inputs: &[&str], wanted: &str) {
    for input in inputs {
        check_judged(rt, alloc, input, input.as_bytes(), wanted);
    }
}

/// The judge draws this of an input: a row has the input, the header, the points, the phase, and
/// what is said last with the verdict.
pub(crate) fn check_drawn(rt: &impl Abort, alloc: Global, row: &[&str; 5]) {
    let [input, header, points, phase, last] = *row;
    let wanted = format!(in alloc; "{header}\n{points}{phase}\n{last}").expect(rt, "memory");
    check_judged(rt, alloc, input, input.as_bytes(), wanted.as_str());
}

/// The same, of several rows.
pub(crate) fn check_drawings(rt: &impl Abort, alloc: Global, rows: &[[&str; 5]]) {
    for row in rows {
        check_drawn(rt, alloc, row);
    }
}

/// The board of a standing is drawn so.
pub(crate) fn check_board(rt: &impl Abort, alloc: Global, standing: &Standing, wanted: &str) {
    check_text(rt, wanted, board_text(alloc, standing), wanted);
}
