//! The judge where a turn is to be passed, and where none is. The expected texts are those of the
//! rules and formats, worked out by hand.
use super::pictures::{HEADER, START, check_drawings, check_drawn};
use super::rules::SECOND_HEADER;
use super::transcripts::{full_text, is_judged};
use crate::checks::{check_row, check_told, text_of};
use crate::records::{push_lines, written};
use bg_match::{Entry, MOST_ENTRIES, Record, Rules};
use bg_text::Verdict;
use std::alloc::Global;
use std::process::Abort;

/// Five entries, after which X has a checker on the bar, and no step by his sixes.
const SHUT_OUT: &str = "open 2 1\nX move 13-11 6-5\nO roll 4 3\nO move 24-20 13-10\nX roll 6 6\n";

const HIT: &str = "  13  14  15  16  17  18  19  20  21  22  23  24
  X4   .  O1   .  O3   .  O5   .   .   .   .  X2
  O4  X1   .   .  X3   .  X4  O1   .   .   .  O1
  12  11  10   9   8   7   6   5   4   3   2   1
bar X 1 O 0 off X 0 O 0
";

const DUE: &str = "X to pass 6 6";

/// The judge draws this where X was shut out, by the first rules or the second: a row has the line
/// behind that, the phase, and what is said last with the verdict.
fn check_shut_out(rt: &impl Abort, alloc: Global, length: &str, header: &str, row: &[&str; 3]) {
    let [line, phase, last] = *row;
    let input = format!(in alloc; "{length}\n{SHUT_OUT}{line}").expect(rt, "memory");
    check_drawn(rt, alloc, &[input.as_str(), header, HIT, phase, last]);
}

const WRONG_PHASE: &str = "refused at line 7: wrong phase\nRefused(7)";

const NOT_A_LINE: &str = "refused at line 7: not a line\nRefused(7)";

const BAD_NUMBER: &str = "refused at line 7: bad number\nRefused(7)";

const TOO_MANY_STEPS: &str = "refused at line 7: too many steps\nRefused(7)";

/// By the second rules: the pass, lines of either player and an opening, which follow no turn that
/// is to be passed, and lines with faults.
static WHERE_A_PASS_IS_DUE: [[&str; 3]; 24] = [
    ["pass", "O to roll", "ok 6\nFine(6)"],
    ["", DUE, "ok 5\nFine(5)"],
    ["X move", DUE, WRONG_PHASE],
    ["X move 24-18", DUE, WRONG_PHASE],
    ["X move bar-24 24-23 23-22 22-21", DUE, WRONG_PHASE],
    ["X resign normal", DUE, WRONG_PHASE],
    ["X roll 1 2", DUE, WRONG_PHASE],
    ["X double", DUE, WRONG_PHASE],
    ["X accept", DUE, WRONG_PHASE],
    ["O move", DUE, WRONG_PHASE],
    ["O resign backgammon", DUE, WRONG_PHASE],
    ["O roll 1 2", DUE, WRONG_PHASE],
    ["O take", DUE, WRONG_PHASE],
    ["O reject", DUE, WRONG_PHASE],
    ["open 2 1", DUE, WRONG_PHASE],
    ["open 3 3", DUE, WRONG_PHASE],
    ["X pass\n", DUE, NOT_A_LINE],
    ["O pass\n", DUE, NOT_A_LINE],
    ["pass 1\n", DUE, NOT_A_LINE],
    ["pass \n", DUE, NOT_A_LINE],
    ["\n", DUE, NOT_A_LINE],
    ["O roll 7 1\n", DUE, BAD_NUMBER],
    ["X move 3-24\n", DUE, BAD_NUMBER],
    ["O move 6-5 6-5 6-5 6-5 6-5\n", DUE, TOO_MANY_STEPS],
];

#[test]
fn entries_where_a_pass_is_due(rt: HostRuntime) {
    for row in &WHERE_A_PASS_IS_DUE {
        check_shut_out(&rt, rt.alloc(), "length 1 rules 2", SECOND_HEADER, row);
    }
}

const WRONG_PLAYER: &str = "refused at line 7: wrong player\nRefused(7)";

static BY_FIRST_RULES: [[&str; 3]; 5] = [
    ["X move", "O to roll", "ok 6\nFine(6)"],
    ["pass", "X to move 6 6", WRONG_PHASE],
    ["O move", "X to move 6 6", WRONG_PLAYER],
    ["O roll 1 2", "X to move 6 6", WRONG_PLAYER],
    ["X roll 1 2", "X to move 6 6", WRONG_PHASE],
];

#[test]
fn first_rules_where_no_step_is_left(rt: HostRuntime) {
    for row in &BY_FIRST_RULES {
        check_shut_out(&rt, rt.alloc(), "length 1", HEADER, row);
    }
}

/// Within a match, and after it.
static PASSES_THAT_ARE_NOT_DUE: [[&str; 5]; 6] = [
    [
        "length 1 rules 2\npass",
        SECOND_HEADER,
        START,
        "opening",
        "refused at line 2: wrong phase\nRefused(2)",
    ],
    [
        "length 1 rules 2\nopen 3 1\npass",
        SECOND_HEADER,
        START,
        "X to move 3 1",
        "refused at line 3: wrong phase\nRefused(3)",
    ],
    [
        "length 1 rules 2\nopen 3 1\nO move",
        SECOND_HEADER,
        START,
        "X to move 3 1",
        "refused at line 3: wrong player\nRefused(3)",
    ],
    [
        "length 1 rules 2\nopen 3 1\nX resign gammon\npass",
        SECOND_HEADER,
        START,
        "X resigns gammon",
        "refused at line 4: wrong phase\nRefused(4)",
    ],
    [
        "length 1 rules 2\nopen 3 1\nX resign normal\nO accept\npass",
        "length 1 rules 2 game 1 score 0-1 cube 1 middle crawford",
        START,
        "O wins the match",
        "refused at line 5: match over\nRefused(5)",
    ],
    [
        "length 1 rules 2\nopen 3 1\nX resign normal\nO accept\nX pass",
        "length 1 rules 2 game 1 score 0-1 cube 1 middle crawford",
        START,
        "O wins the match",
        "refused at line 5: not a line\nRefused(5)",
    ],
];

#[test]
fn entries_where_none_is_due(rt: HostRuntime) {
    check_drawings(&rt, rt.alloc(), &PASSES_THAT_ARE_NOT_DUE);
}

/// Whether a pass behind the text of a full record is refused.
fn is_refused_behind(alloc: Global, text: &mut Vec<u8>) -> bool {
    let last = b"\nrefused at line 1000002: record full\n";
    let bytes = 18 + 9 + 499_999 * (20 + 9) + 20;
    text.len() == bytes
        && text.extend_from_slice(b"pass").is_ok()
        && is_judged(
            alloc,
            text.as_slice(),
            Verdict::Refused(MOST_ENTRIES + 2),
            last,
        )
}

#[test]
fn passes_in_a_full_record(rt: HostRuntime) {
    let mut text = full_text(&rt, rt.alloc(), Rules::Two);
    let is_refused = is_refused_behind(rt.alloc(), &mut text);
    check_row(&rt, "a pass more", is_refused);
}

const PASSED: &str = "length 1 rules 2
open 2 1
X move 13-11 6-5
O roll 4 3
O move 24-20 13-10
X roll 6 6
pass
";

/// The transcript of a match in which X, who was shut out, is passed.
fn transcript_of_passed(rt: &impl Abort, alloc: Global) -> Vec<u8> {
    let mut record = Record::new(alloc, 1, 1, Rules::Two).expect(rt, "a record");
    push_lines(rt, &mut record, SHUT_OUT);
    let is_passed = record.push(Entry::Passed).is_ok() && record.by(6).is_none();
    check_row(rt, "no seat passes", is_passed);
    written(rt, alloc, &record)
}

#[test]
fn transcript_of_a_pass(rt: HostRuntime) {
    let transcript = transcript_of_passed(&rt, rt.alloc());
    check_told(&rt, "transcript", text_of(&transcript), PASSED);
    let verdict = Verdict::Fine(6);
    let is_judged = is_judged(rt.alloc(), &transcript, verdict, b"\nok 6\n");
    check_row(&rt, "verdict", is_judged);
}
