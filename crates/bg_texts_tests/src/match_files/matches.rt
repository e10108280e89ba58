//! A whole match that another program wrote.
use super::records::{check_lines, is_same, read, read_back};
use crate::checks::check_row;
use bg_board::Player;
use bg_mat::Imported;
use bg_match::Phase;
use std::alloc::Global;
use std::process::Abort;

/// X resigns at the end, which only the points of the last line tell.
const MATCH: &str = " 1 point match

 Game 1
 Ada : 0                        Zoe : 0
  1) 51: 13/8 24/23              63: 24/18 24/21 
  2) 33: 24/21 23/20 21/18 18/15 33: 21/18 18/15 18/15 13/10*
  3) 43: 25/22 13/9              61: 15/14 15/9 
  4) 32: 13/10 22/20             51: 14/13 13/8 
  5) 63: 13/10 13/7              54: 13/9 13/8 
  6) 43: 10/7 10/6               61: 13/12 13/7 
  7) 31: 8/7 9/6                 64: 12/8 10/4 
  8) 42: 20/18* 18/14            54: 25/20 20/16 
  9) 41: 14/10 10/9*             65: 25/20 20/14 
 10) 61: 20/14 14/13             43: 14/10 10/7 
 11) 63: 9/6 13/7                65: 9/3 9/4 
 12) 21: 8/7 8/6                 42: 8/6 8/4 
 13) 64: 8/2 7/3                 64: 8/2 8/4 
 14) 21: 7/5 7/6                 41: 8/7 8/4 
 15) 52: 7/2 5/3                 66: 7/1 7/1 6/0 6/0
 16) 62: 7/1 2/0                 41: 1/0 4/0 
 17) 11: 3/2 2/1 1/0 1/0         11: 6/5 2/1 1/0 1/0
 18) 63: 6/3 6/0                 66: 6/0 6/0 6/0 5/0
 19) 51: 6/5 5/0                 65: 4/0 4/0 
 20) 44: 6/2 6/2 6/2 6/2         42: 4/0 4/2 
                                  Wins 1 point

";

/// What is written of what was read is read back the same.
fn check_match(rt: &impl Abort, alloc: Global, imported: &Imported) {
    let (record, lines) = (&imported.record, imported.lines.as_slice());
    check_row(rt, "82 entries", record.len() == 82);
    check_row(rt, "first line", lines.first() == Some(&5));
    check_row(rt, "last line", lines.last() == Some(&25));
    let phase = record.standing().phase();
    check_row(rt, "phase", phase == Phase::Over(Player::O));
    let again = read_back(rt, alloc, record);
    check_row(rt, "read back", is_same(&again.record, record));
    check_lines(rt, &again, lines);
}

#[test]
fn match_of_another_program(rt: HostRuntime) {
    let imported = read(&rt, rt.alloc(), MATCH);
    check_match(&rt, rt.alloc(), &imported);
}
