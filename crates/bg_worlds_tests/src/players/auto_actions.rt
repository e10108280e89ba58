//! What automatic players do.
use super::actions::{action, empty_record, push};
use crate::checks::{check, lasting};
use crate::sections::{lines_of, names_of};
use bg_board::{Die, Player};
use bg_match::{Action, Entry, Level, MOST_ENTRIES, Record, Rules};
use bg_text::parse_action;
use bg_turns::{Dice, Turn, legal_turns};
use std::process::Abort;

/// The lines of a match: its length, entries, "offers 4", which are as many offers to resign that
/// are rejected, and what a player then does, "-" where nothing.
///
/// Only who acts does something. Every fifth entry drops a double, and every sixteenth one doubles
/// where it may: played to two points, the second game is the Crawford game.
const MATCHES: &str = "\
only_who_acts_does_something
length 1
X: -
O: -
open 3 1
X resign normal
X: -
O: reject
O accept
X: -
O: -

only_who_acts_after_a_move
length 1
open 3 1
X move 8-5 6-5
X: -
O: roll

every_fifth_entry_drops_a_double
length 5
open 3 1
X move 8-5 6-5
O resign normal
X reject
O resign normal
X reject
O resign normal
X reject
O double
X: drop
O: -

another_entry_takes_a_double
length 5
open 3 1
X move 8-5 6-5
O double
X: take
O: -

no_sixteenth_entry_rolls
length 3
open 3 1
X resign normal
O accept
open 3 1
X move 8-5 6-5
offers 4
X: -
O: roll

every_sixteenth_entry_doubles_where_it_may
length 3
open 3 1
X resign normal
O accept
open 3 1
X move 8-5 6-5
offers 5
X: -
O: double

a_sixteenth_entry_rolls_in_the_crawford_game
length 2
open 3 1
X resign normal
O accept
open 3 1
X move 8-5 6-5
offers 5
X: -
O: roll
";

/// Whether a player does this after a record.
fn does(
    rt: &(impl AllocGlobal + Abort),
    record: &Record,
    player: Player,
    expected: Option<&Action>,
) -> bool {
    let found = action(rt.alloc(), record, player).expect(rt, "memory");
    found.as_ref() == expected
}

/// After a record a player does this.
fn check_action(
    rt: &(impl AllocGlobal + Abort),
    record: &Record,
    player: Player,
    expected: Option<&Action>,
) {
    assert!(rt; does(rt, record, player, expected), "{player:?}");
}

/// After a record a player does nothing.
fn check_idle(rt: &(impl AllocGlobal + Abort), record: &Record, player: Player) {
    check_action(rt, record, player, None);
}

/// Whether a player does what the words say after a record.
fn does_words(
    rt: &(impl AllocGlobal + Abort),
    record: &Record,
    player: Player,
    words: &str,
) -> bool {
    match words {
        "-" => does(rt, record, player, None),
        _ => {
            let expected = parse_action(words.as_bytes()).expect(rt, "an action");
            does(rt, record, player, Some(&expected))
        }
    }
}

/// Adds offers to resign which are rejected.
fn offer(rt: &impl Abort, record: &mut Record, count: u32) {
    for _ in 0..count {
        check(
            rt,
            "an offer",
            record.push(Entry::Resigned(Level::Normal)).is_ok(),
        );
        check(rt, "an answer", record.push(Entry::Rejected).is_ok());
    }
}

/// A line of a match, behind its length.
fn check_line(rt: &(impl AllocGlobal + Abort), record: &mut Record, line: &str) {
    if let Some(count) = line.strip_prefix("offers ") {
        offer(rt, record, count.parse().expect(rt, "a number"));
    } else if let Some(words) = line.strip_prefix("X: ") {
        check(rt, line, does_words(rt, record, Player::X, words));
    } else if let Some(words) = line.strip_prefix("O: ") {
        check(rt, line, does_words(rt, record, Player::O, words));
    } else {
        push(rt, record, line);
    }
}

fn check_match(rt: &(impl AllocGlobal + Abort), name: &str) {
    check_lines(rt, &lines_of(rt, MATCHES, "", name));
}

/// The lines of a match hold, the first of which has its length.
fn check_lines(rt: &(impl AllocGlobal + Abort), lines: &[&str]) {
    let (first, lines) = lines.split_first().expect(rt, "a line");
    let length = first.strip_prefix("length ").expect(rt, "a length");
    let record = record_that_lasts(rt, length.parse().expect(rt, "a number"));
    for line in lines {
        check_line(rt, record, line);
    }
}

/// A record of no entry by the first rules, which lasts as long as its process.
fn record_that_lasts(rt: &(impl AllocGlobal + Abort), length: u8) -> &'static mut Record {
    lasting(rt.alloc(), empty_record(rt, length, Rules::One)).expect(rt, "memory")
}

#[test]
fn actions_in_matches(rt: HostRuntime) {
    for name in &names_of(&rt, MATCHES) {
        check_match(&rt, name);
    }
}

/// The turn of the index n mod k, of the k legal turns, where n is the number of the next entry.
fn next_turn(rt: &(impl AllocGlobal + Abort), record: &Record) -> Turn {
    let dice = Dice {
        first: Die::Three,
        second: Die::One,
    };
    let board = record.standing().board();
    let turns = legal_turns(rt.alloc(), &board, Player::X, dice).expect(rt, "memory");
    turn_by(&turns, record.len() as usize + 1).expect(rt, "a turn")
}

/// The turn of the index n mod k, of these k turns.
fn turn_by(turns: &[Turn], number: usize) -> Option<Turn> {
    let index = number.checked_rem(turns.len())?;
    Some(turns.get(index)?.copy())
}

/// As entry n the turn of index n mod k is played, of the k legal turns.
#[test]
fn turn_goes_by_the_number_of_the_entry(rt: HostRuntime) {
    let record = record_that_lasts(&rt, 1);
    push(&rt, record, "open 3 1");
    for _ in 0..10 {
        check_next_turn(&rt, record);
        check_idle(&rt, record, Player::O);
        offer(&rt, record, 1);
    }
}

/// X plays the turn that goes by the number of the entry.
fn check_next_turn(rt: &(impl AllocGlobal + Abort), record: &Record) {
    let expected = Action::Move(next_turn(rt, record));
    check_action(rt, record, Player::X, Some(&expected));
}

fn check_full_record(rt: &(impl AllocGlobal + Abort)) {
    let record = record_that_lasts(rt, 1);
    push(rt, record, "open 3 1");
    offer(rt, record, 499_999);
    check(rt, "a turn is played", moves(rt, record));
    push(rt, record, "X resign normal");
    check(rt, "the record is full", record.len() == MOST_ENTRIES);
    check_idle(rt, record, Player::X);
    check_idle(rt, record, Player::O);
}

/// Nothing follows a full record.
#[test]
fn full_record(rt: HostRuntime) {
    check_full_record(&rt);
}

/// Whether X moves.
fn moves(rt: &(impl AllocGlobal + Abort), record: &Record) -> bool {
    let last = action(rt.alloc(), record, Player::X).expect(rt, "memory");
    matches!(last, Some(Action::Move(_)))
}
