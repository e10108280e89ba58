//! What is said of match files that give no record, by the fault that was met.
use super::told;
use crate::checks::{check_row, check_words};
use bg_mat::{ImportFault, MatFault, import_mat};
use bg_match::{EntryFault, Rules};
use bg_reports::said_of_import_fault;
use std::alloc::Global;
use std::process::Abort;

/// A match that is good by the first rules: X, who is on the bar and can't enter, resigns in place
/// of his turn. By the second rules this turn is to be passed, and nobody resigns in it.
const OFFER_IN_A_TURN_WITHOUT_STEPS: &str = " 1 point match

 Game 1
 A : 0                          B : 0
  1) 21: 13/11 6/5               43: 24/20* 13/10
  2) 66:
                                 Wins 1 point
";

/// Why a text is refused that is imported by these rules.
fn fault_of(alloc: Global, rules: Rules, text: &str) -> Option<ImportFault> {
    import_mat(alloc, 1, rules, text.as_bytes()).err()
}

/// This is said of a fault of a file, and the verdict stands behind it.
fn check_said(rt: &impl Abort, alloc: Global, text: &str, fault: ImportFault, wanted: &str) {
    let said = said_of_import_fault(alloc, "the file", text.as_bytes(), fault, None);
    check_words(rt, wanted, told(alloc, said), wanted);
}

/// A text that is imported by these rules is refused, and this is said.
fn check_refused(rt: &impl Abort, alloc: Global, rules: Rules, text: &str, wanted: &str) {
    let fault = fault_of(alloc, rules, text).expect(rt, wanted);
    check_said(rt, alloc, text, fault, wanted);
}

/// A file is refused for what is wrong by the rules that it was read by.
#[test]
fn a_match_file_is_refused_by_its_rules(rt: HostRuntime) {
    let text = OFFER_IN_A_TURN_WITHOUT_STEPS;
    let fault = fault_of(rt.alloc(), Rules::One, text);
    check_row(&rt, "good by the first rules", fault.is_none());
    let wanted =
        "the file: refused at line 7: wrong phase:                                  Wins 1 point\nRefused(7)";
    check_refused(&rt, rt.alloc(), Rules::Two, text, wanted);
}

static REFUSED: [(&str, &str); 3] = [
    (
        "",
        "the file: refused at line 1: no length of the match\nRefused(1)",
    ),
    (
        ";\n 0 point match\n",
        "the file: refused at line 2: a money game:  0 point match\nRefused(2)",
    ),
    (
        " 1 point match\n\n Game 2\x1b\n",
        "the file: refused at line 3: not a line of a match file:  Game 2\\x1b\nRefused(3)",
    ),
];

#[test]
fn match_files_that_are_refused(rt: HostRuntime) {
    for &(text, wanted) in &REFUSED {
        check_refused(&rt, rt.alloc(), Rules::One, text, wanted);
        check_refused(&rt, rt.alloc(), Rules::Two, text, wanted);
    }
}

fn has_no_verdict(alloc: Global, fault: ImportFault) -> bool {
    said_of_import_fault(alloc, "a", b"line\n", fault, None).is_err()
}

/// What is too long has a verdict and no line; want of memory has none.
#[test]
fn faults_of_no_line(rt: HostRuntime) {
    let (long, memory) = (ImportFault::TooLong, ImportFault::Memory);
    let wanted = "a: refused: input too long\nTooLong";
    let said = said_of_import_fault(rt.alloc(), "a", b"line\n", long, Some(80));
    check_words(&rt, wanted, told(rt.alloc(), said), wanted);
    check_row(&rt, "want of memory", has_no_verdict(rt.alloc(), memory));
}

/// The reason is the fault's, and is not looked for in the bytes.
#[test]
fn the_fault_says_the_reason(rt: HostRuntime) {
    let why = MatFault::Entry(EntryFault::MatchOver);
    let fault = ImportFault::Refused { line: 1, why };
    let wanted = "the file: refused at line 1: match over: length 1\nRefused(1)";
    check_said(&rt, rt.alloc(), "length 1\nopen 3 1\n", fault, wanted);
}
