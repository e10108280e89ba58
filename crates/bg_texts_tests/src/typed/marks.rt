//! Marks of hits in a part of a turn.
use super::{Place, placed};
use crate::checks::check_row;
use bg_board::Die;
use bg_turns::Turn;
use bg_typed::{fits_marks, typed_steps};
use std::alloc::Global;
use std::process::Abort;

/// The steps that are typed, without the marks.
fn steps_of(rt: &impl Abort, alloc: Global, typed: &str) -> Turn {
    typed_steps(alloc, typed.as_bytes()).expect(rt, "steps")
}

/// Whether the steps hit just where their marks say.
fn fits(rt: &impl Abort, alloc: Global, at: &Place, typed: &str) -> bool {
    let steps = steps_of(rt, alloc, typed);
    fits_marks(alloc, typed.as_bytes(), &at.board, at.player, &steps).expect(rt, "marks")
}

/// O has single checkers on his 5 and his 7 point, which are 20 and 18 to X.
static MARKS: [(&str, bool); 11] = [
    ("24/20*", true),
    ("24/20", true),
    ("24/22*", false),
    ("24/22", true),
    ("m 24-20*", true),
    ("24/18* 24/20*", true),
    ("24/18* 24/20", false),
    ("24/18 24/20*", false),
    ("24/18 24/20", true),
    ("13/11* 24/20", false),
    ("13/11* 24/20*", false),
];

#[test]
fn marks_of_parts(rt: HostRuntime) {
    let at = placed(&rt, "24:2 13:13", "24:2 7:1 6:11 5:1", Die::Six, Die::Four);
    for &(typed, wanted) in &MARKS {
        check_row(&rt, typed, fits(&rt, rt.alloc(), &at, typed) == wanted);
    }
}
