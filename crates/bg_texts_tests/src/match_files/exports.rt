//! What records are written as.
use super::records::{THREE_POINTS, check_transcript, is_same, read, read_back, read_rows};
use crate::checks::{check_row, check_text};
use crate::records::record_of;
use bg_mat::export_mat;
use std::alloc::Global;
use std::process::Abort;

/// Two games of a match to three points: a win by a drop, and one by an offer to resign in the
/// midst of a turn.
const TWO_GAMES: &str = " 3 point match

 Game 1
 X : 0                          O : 0
  1) 31: 8/5 6/5                  Doubles => 2
  2)  Takes                      21: 24/23 6/4
  3)  Doubles => 4                Drops
      Wins 2 points

 Game 2
 X : 2                          O : 0
  1)                             46: 24/18 13/9
  2) 61: 13/7* 8/7               21:
      Wins 1 point and the match
";

/// A drop of X, with the win beside it, and a row of X alone.
const DROP_OF_X: &str = " 3 point match

 Game 1
 X : 0                          O : 0
  1) 31: 8/5 6/5                  Doubles => 2
  2)  Drops                       Wins 1 point

 Game 2
 X : 0                          O : 1
  1) 61: 13/7 8/7                 Doubles => 2
  2)  Takes                      \n";

/// What is written of the record of a text, which has so many entries, is that text.
fn check_written(rt: &impl Abort, alloc: Global, text: &str, len: u32) {
    let imported = read(rt, alloc, text);
    check_text(rt, text, export_mat(alloc, &imported.record), text);
    check_row(rt, text, imported.record.len() == len);
}

/// What is written of a record is what was read of such a text.
#[test]
fn games_as_they_are_written(rt: HostRuntime) {
    check_written(&rt, rt.alloc(), TWO_GAMES, 15);
    check_written(&rt, rt.alloc(), DROP_OF_X, 8);
}

/// The ends of the front parts of the two games, and how many entries stand before them.
static ENDS: [(&str, u32); 6] = [
    (" 3 point match\n", 0),
    ("Doubles => 2\n", 3),
    ("24/23 6/4\n", 6),
    ("Wins 2 points\n", 8),
    ("46: 24/18 13/9\n", 10),
    ("21:\n", 13),
];

fn check_files_that_break_off(rt: &(impl AllocGlobal + Abort)) {
    for &(end, len) in &ENDS {
        let (_, rest) = TWO_GAMES.split_once(end).expect(rt, end);
        let text = TWO_GAMES.strip_suffix(rest).expect(rt, end);
        check_written(rt, rt.alloc(), text, len);
    }
}

/// A file that breaks off within a game, behind a win, or with dice that are not moved comes back
/// as it was.
#[test]
fn files_that_break_off(rt: HostRuntime) {
    check_files_that_break_off(&rt);
}

/// What is written of the record of some rows ends so.
fn check_end(rt: &impl Abort, alloc: Global, rows: &str, end: &str) {
    let imported = read_rows(rt, alloc, THREE_POINTS, rows);
    let written = export_mat(alloc, &imported.record).expect(rt, "memory");
    check_row(rt, end, written.ends_with(end.as_bytes()));
}

/// Of two checkers that come to a hit the first has the mark; the bar is 25, and off is 0.
#[test]
fn marks_and_points(rt: HostRuntime) {
    let rows = "  1) 31: 24/23 13/10   55: 8/3(2) 6/1*(2)\n";
    check_end(&rt, rt.alloc(), rows, "55: 8/3 8/3 6/1* 6/1\n");
    let rows = "  1) 31: 24/23 13/10   65: 8/2* 6/1*\n  2) 21: bar/23* bar/24*\n";
    check_end(&rt, rt.alloc(), rows, "  2) 21: 25/23* 25/24*           \n");
}

const OFFERS: &str = "length 3 rules 2
open 1 3
O resign normal
X reject
O move 8-5 6-5
X roll 2 4
X resign gammon
O reject
X move 8-4 6-4
O resign normal
";

const NO_OFFERS: &str = "length 3
open 1 3
O move 8-5 6-5
X roll 2 4
X move 8-4 6-4
";

/// An offer to resign that is not accepted is left out, and the order of the dice of a throw is
/// kept.
#[test]
fn offers_that_are_not_accepted(rt: HostRuntime) {
    let record = record_of(&rt, rt.alloc(), OFFERS);
    let imported = read_back(&rt, rt.alloc(), &record);
    check_transcript(&rt, rt.alloc(), &imported.record, NO_OFFERS);
}

/// A record without entries is a length, and records are read back as they were.
static ROWS: [&str; 6] = [
    "",
    "  1) 31: 8/5 6/5\n",
    "  1) 31: 8/5 6/5   42:\n",
    "                    31: 8/5 6/5\nDoubles => 2\n",
    "31: 8/5 6/5   Doubles => 2\nTakes   42: 8/4 6/4\n 12) Doubles => 4   Takes\n",
    "31: 8/5 6/5   66: 24/18(2) 13/7(2)\n                    Wins 2 points\n",
];

fn check_read_back(rt: &impl Abort, alloc: Global, row: &str) {
    let imported = read_rows(rt, alloc, THREE_POINTS, row);
    let again = read_back(rt, alloc, &imported.record);
    check_row(rt, row, is_same(&again.record, &imported.record));
}

#[test]
fn records_read_back(rt: HostRuntime) {
    for row in &ROWS {
        check_read_back(&rt, rt.alloc(), row);
    }
}
