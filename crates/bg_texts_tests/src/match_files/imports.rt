//! What match files tell.
use super::records::{
    ONE_POINT, THREE_POINTS, check_lines, check_one_point, check_transcript, read, read_rows,
};
use crate::checks::check_row;
use bg_board::{Die, Player};
use bg_mat::Imported;
use bg_match::Phase;
use bg_turns::Dice;
use std::alloc::Global;
use std::process::Abort;

/// What is read has this transcript, whose entries stand in these lines.
fn check_read(
    rt: &impl Abort,
    alloc: Global,
    imported: &Imported,
    transcript: &str,
    lines: &[u32],
) {
    check_transcript(rt, alloc, &imported.record, transcript);
    check_lines(rt, imported, lines);
}

const TWO_CELLS: &str = "  1) 31: 8/5 6/5        24: 8/4 6/4
  2) 65: 24/18 18/13
";

const OF_TWO_CELLS: &str = "length 1
open 3 1
X move 8-5 6-5
O roll 2 4
O move 8-4 6-4
X roll 6 5
X move 24-18 18-13
";

#[test]
fn rows_of_two_cells(rt: HostRuntime) {
    let imported = read_rows(&rt, rt.alloc(), ONE_POINT, TWO_CELLS);
    check_read(
        &rt,
        rt.alloc(),
        &imported,
        OF_TWO_CELLS,
        &[5, 5, 5, 5, 6, 6],
    );
    check_row(&rt, "number of the match", imported.record.id() == 7);
}

const COMMENTS: &str =
    "; [Site \"x\"]\r\n; y\r\n1 points match \r\n\r\nGame 1\r\nA (1.5): 0 B: of C : 0\r\n\
    ; z\r\n\t42: 8/4 6/4\r\n\r\n                31: 8/5 6/5";

const OF_COMMENTS: &str = "length 1
open 4 2
X move 8-4 6-4
O roll 3 1
O move 8-5 6-5
";

#[test]
fn comments_and_other_line_ends(rt: HostRuntime) {
    let imported = read(&rt, rt.alloc(), COMMENTS);
    check_read(&rt, rt.alloc(), &imported, OF_COMMENTS, &[8, 8, 10, 10]);
}

static BY_O: [&str; 2] = [
    "  1)                             31: 8/5 6/5\n",
    "  1)                             13: 8/5 6/5\n",
];

/// The opener is who moves first, whatever the order of the dice.
#[test]
fn opening_by_o(rt: HostRuntime) {
    for rows in &BY_O {
        check_one_point(
            &rt,
            rt.alloc(),
            rows,
            "length 1\nopen 1 3\nO move 8-5 6-5\n",
        );
    }
}

const DOUBLES: &str = "  1) 31: 8/5 6/5             Doubles => 2
  2)  Takes                      42: 8/4 6/4
  3)  Doubles => 4             Drops
      Wins 2 points

 Game 2
 A : 2 B : 0
";

const OF_DOUBLES: &str = "length 3
open 3 1
X move 8-5 6-5
O double
X take
O roll 4 2
O move 8-4 6-4
X double
O drop
";

#[test]
fn doubles_and_answers(rt: HostRuntime) {
    let imported = read_rows(&rt, rt.alloc(), THREE_POINTS, DOUBLES);
    check_read(
        &rt,
        rt.alloc(),
        &imported,
        OF_DOUBLES,
        &[5, 5, 5, 6, 6, 6, 7, 7],
    );
    check_row(&rt, "score", imported.record.standing().score() == (2, 0));
}

/// What is read of rows has so many entries, and ends in this phase.
fn check_end(rt: &impl Abort, alloc: Global, head: &str, rows: &str, len: u32, phase: Phase) {
    let imported = read_rows(rt, alloc, head, rows);
    let found = (imported.record.len(), imported.record.standing().phase());
    check_row(rt, rows, found == (len, phase));
}

/// A game that is dropped needs no row of a win.
#[test]
fn win_that_no_row_tells(rt: HostRuntime) {
    let rows =
        "31: 8/5 6/5   Doubles => 2\nDrops\nGame 2\nA : 0 B : 1\n                21: 13/11 6/5\n";
    let phase = Phase::ToAct(Player::X);
    check_end(&rt, rt.alloc(), THREE_POINTS, rows, 6, phase);
}

/// The points of a win that nothing else tells say at which level the other player resigned.
const WINS: [(&str, &str); 3] = [
    (
        "  1) 31: 8/5 6/5\n      Wins 1 point\n",
        "length 3\nopen 3 1\nX move 8-5 6-5\nO resign normal\nX accept\n",
    ),
    (
        "  1) 31: 8/5 6/5\n      Wins 2 points\n",
        "length 3\nopen 3 1\nX move 8-5 6-5\nO resign gammon\nX accept\n",
    ),
    (
        "  1) 31: 8/5 6/5\n      Wins 3 points and the match\n",
        "length 3\nopen 3 1\nX move 8-5 6-5\nO resign backgammon\nX accept\n",
    ),
];

#[test]
fn resignations_by_points(rt: HostRuntime) {
    for (rows, transcript) in &WINS {
        let imported = read_rows(&rt, rt.alloc(), THREE_POINTS, rows);
        check_read(&rt, rt.alloc(), &imported, transcript, &[5, 5, 6, 6]);
    }
}

/// Who loses by the row behind his dice has not moved them.
#[test]
fn resignation_with_dice_to_move(rt: HostRuntime) {
    let rows = "  1) 31: 8/5 6/5             42:\n      Wins 2 points\n";
    let transcript = "length 3\nopen 3 1\nX move 8-5 6-5\nO roll 4 2\nO resign gammon\nX accept\n";
    let imported = read_rows(&rt, rt.alloc(), THREE_POINTS, rows);
    check_read(&rt, rt.alloc(), &imported, transcript, &[5, 5, 5, 6, 6]);
}

/// The last dice are still to be moved where a step can be played.
#[test]
fn dice_at_the_end(rt: HostRuntime) {
    let rows = "  1) 31: 8/5 6/5             42:\n";
    let dice = Dice {
        first: Die::Four,
        second: Die::Two,
    };
    let phase = Phase::ToMove(Player::O, dice);
    check_end(&rt, rt.alloc(), ONE_POINT, rows, 3, phase);
}

/// Sixteen blanks stand for an empty left column, and fifteen do not.
static BEHIND_BLANKS: [(&str, Player); 2] = [
    ("               31: 8/5 6/5\n", Player::O),
    ("                31: 8/5 6/5\n", Player::X),
];

#[test]
fn blanks_before_a_lone_cell(rt: HostRuntime) {
    for &(rows, next) in &BEHIND_BLANKS {
        check_end(&rt, rt.alloc(), ONE_POINT, rows, 2, Phase::ToAct(next));
    }
}
