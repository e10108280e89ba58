//! Plays: lines that are done to a record, or tell what it then has. At the head of each stand the
//! names of what it tries, the length of the match and its rules, as "crawford_game: 3 by rules 1".
//!
//! - "double" appends an entry, and "double -> wrong phase" is refused so;
//! - "may: roll 6 6" says that an entry follows, and leaves it at that;
//! - "copy" goes on with a copy, which is compared;
//! - "stands: 7, start, X acts, 2 O, 3-2, plain, 4" tells the standing;
//! - "by 2: X", "entry 2: double" and "entries: 2" tell the entries, where "nobody" and "none"
//!   stand for what is not there;
//! - "actor: referee", "id: 7" and the like tell a part.
//!
//! Each call of the library stands in one short function with no contract, so that what the call
//! ensures does not burden the proofs of the tests.
use super::applied::check_applied;
use super::is_refused;
use super::lines::{self, crawford, cube, entry, fault, phase, score};
use super::records::copies;
use crate::checks::{check_line, check_row};
use crate::words::{board, parted, player, rules, small_number};
use bg_match::{Actor, Entry, Number, Record, Rules, Standing};
use std::process::Abort;

/// The number of an entry.
fn number(rt: &impl Abort, word: &str) -> Number {
    word.parse().expect(rt, "a number")
}

/// Who acts, as "referee", "X" or "nobody".
fn actor(rt: &impl Abort, word: &str) -> Actor {
    match word {
        "referee" => Actor::Referee,
        "nobody" => Actor::Nobody,
        _ => Actor::Seat(player(rt, word)),
    }
}

/// A record of this length that has no entries.
pub(super) fn begun(rt: &(impl AllocGlobal + Abort), length: u8, rules: Rules) -> Record {
    let record = Record::new(rt.alloc(), 7, length, rules).expect(rt, "a record");
    check_row(rt, "the rules", is_by_rules(&record, rules));
    record
}

/// Whether a record and its standing are by these rules.
fn is_by_rules(record: &Record, rules: Rules) -> bool {
    record.rules() == rules && record.standing().rules() == rules
}

/// Whether an entry is appended, as it is checked and as it is pushed, and the rules stay the same.
pub(super) fn is_pushed(record: &mut Record, entry: &Entry) -> bool {
    let rules = record.rules();
    record.check(entry) == Ok(())
        && record.push(entry.copy()) == Ok(())
        && is_by_rules(record, rules)
}

/// Whether the entry of this number is this one.
fn is_entry(record: &Record, number: Number, entry: &Entry) -> bool {
    record.entry(number) == Some(entry)
}

/// Whether the entry of this number is that of a line, or none is there.
fn has_entry(rt: &impl Abort, record: &Record, number: Number, line: &str) -> bool {
    match line {
        "none" => record.entry(number).is_none(),
        _ => is_entry(record, number, &entry(rt, line)),
    }
}

/// Whether the entry of this number was made by this seat, or by none.
fn has_maker(rt: &impl Abort, record: &Record, number: Number, word: &str) -> bool {
    match word {
        "nobody" => record.by(number).is_none(),
        _ => record.by(number) == Some(player(rt, word)),
    }
}

fn may_follow(record: &Record, entry: &Entry) -> bool {
    record.check(entry) == Ok(())
}

/// Whether this one acts, by the record and by its standing.
fn has_actor(record: &Record, actor: Actor) -> bool {
    record.actor() == actor && record.standing().actor() == actor
}

fn stands_at(record: &Record, standing: Option<Standing>) -> bool {
    Some(record.standing()) == standing
}

/// Whether a record has so many entries.
pub(super) fn has_len(record: &Record, len: Number) -> bool {
    record.len() == len && record.is_empty() == (len == 0)
}

/// Whether a part of a standing is this.
pub(super) fn is_part(rt: &impl Abort, standing: &Standing, part: &str, words: &str) -> bool {
    match part {
        "board" => standing.board() == board(rt, words),
        "phase" => standing.phase() == phase(rt, words),
        "cube" => standing.cube() == cube(rt, words),
        "actor" => standing.actor() == actor(rt, words),
        _ => is_small_part(rt, standing, part, words),
    }
}

fn is_small_part(rt: &impl Abort, standing: &Standing, part: &str, words: &str) -> bool {
    match part {
        "length" => standing.length() == small_number(rt, words),
        "score" => standing.score() == score(rt, words),
        "mark" => standing.crawford() == crawford(rt, words),
        "game" => standing.game() == small_number(rt, words),
        _ => panic!(rt; "no part: {part}"),
    }
}

/// Whether what a line tells of the entries of this number holds.
fn is_told(rt: &impl Abort, record: &Record, what: &str, words: &str) -> bool {
    let (what, word) = parted(rt, what, " ");
    let number = number(rt, word);
    match what {
        "by" => has_maker(rt, record, number, words),
        "entry" => has_entry(rt, record, number, words),
        _ => panic!(rt; "no such line: {what}"),
    }
}

/// Whether what a line tells of a record holds.
fn holds(rt: &impl Abort, record: &Record, what: &str, words: &str) -> bool {
    match what {
        "may" => may_follow(record, &entry(rt, words)),
        "stands" => stands_at(record, lines::standing(rt, record.rules(), words)),
        "actor" => has_actor(record, actor(rt, words)),
        "board" | "phase" | "game" => is_part(rt, &record.standing(), what, words),
        _ => has_number(rt, record, what, words),
    }
}

/// Whether what a line tells of the numbers of a record holds.
fn has_number(rt: &impl Abort, record: &Record, what: &str, words: &str) -> bool {
    match what {
        "entries" => has_len(record, number(rt, words)),
        "id" => record.id() == u64::from(small_number(rt, words)),
        "length" => record.length() == small_number(rt, words),
        _ => is_told(rt, record, what, words),
    }
}

/// Whether what a line does to a record is done.
fn is_done(rt: &impl Abort, record: &mut Record, line: &str) -> bool {
    match line {
        "copy" => copies(record),
        _ => is_pushed(record, &entry(rt, line)),
    }
}

/// Whether a line of a play holds.
fn is_played(rt: &impl Abort, record: &mut Record, line: &str) -> bool {
    if let Some((line, why)) = line.split_once(" -> ") {
        let why = fault(rt, why);
        return is_refused(record, &entry(rt, line), why);
    }
    match line.split_once(": ") {
        Some((what, words)) => holds(rt, record, what, words),
        None => is_done(rt, record, line),
    }
}

/// The lines of a play hold, one after the other, and its entries are applied likewise.
fn check_lines(rt: &impl Abort, record: &mut Record, names: &str, lines: &str) {
    for line in lines.lines() {
        check_line(rt, names, line, is_played(rt, record, line));
    }
    check_applied(rt, names, record);
}

fn check_play(rt: &(impl AllocGlobal + Abort), play: &str) {
    let (head, lines) = parted(rt, play, "\n");
    let (names, terms) = parted(rt, head, ": ");
    let (length, word) = parted(rt, terms, " by rules ");
    let (length, rules) = (small_number(rt, length), rules(rt, word));
    check_lines(rt, &mut begun(rt, length, rules), names, lines);
}

/// The lines of all plays hold.
pub(super) fn check_plays(rt: &(impl AllocGlobal + Abort), plays: &str) {
    for play in plays.split("\n\n") {
        check_play(rt, play);
    }
}
