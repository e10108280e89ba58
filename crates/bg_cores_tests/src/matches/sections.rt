//! Sections of rows about standings. At the head of each stand the names of what it tries, and the
//! rules, as "cubes_of_standings: rules 1". A row has the parts of a standing, as "7, start, X
//! acts, 2 O, 3-2, plain, 4", and what is told of it:
//!
//! - "double -> wrong phase" refuses an entry;
//! - "after double: STANDING" tells where an entry leads;
//! - "back after: resign gammon, reject" says that entries lead back to it;
//! - "actor: X" and the like tell a part;
//! - "is one" says that these are the parts of a standing, and "is none" that they are not.
use super::applied::{check_tried, is_applied};
use super::lines::{entry, fault, standing};
use super::plays::is_part;
use crate::checks::check_line;
use crate::words::{parted, rules};
use bg_match::{Entry, EntryFault, Rules, Standing};
use std::process::Abort;

/// Whether an entry leads from a standing to this one.
fn leads_to(before: &Standing, entry: &Entry, after: Option<Standing>) -> bool {
    after.is_some() && before.next(entry).ok() == after && is_applied(before, entry)
}

fn fails(standing: &Standing, entry: &Entry, why: EntryFault) -> bool {
    standing.next(entry) == Err(why)
}

/// Whether an entry leads on from a standing, which goes there.
fn goes_on(standing: &mut Standing, entry: &Entry) -> bool {
    match standing.next(entry) {
        Ok(next) => {
            *standing = next;
            true
        }
        Err(_) => false,
    }
}

/// Whether entries lead back to a standing.
fn leads_back(rt: &impl Abort, standing: &Standing, lines: &str) -> bool {
    let mut now = *standing;
    for line in lines.split(", ") {
        if !goes_on(&mut now, &entry(rt, line)) {
            return false;
        }
    }
    now == *standing
}

/// Whether what is told of a standing holds.
fn is_told(rt: &impl Abort, before: &Standing, what: &str, words: &str) -> bool {
    if what == "back after" {
        return leads_back(rt, before, words);
    }
    match what.strip_prefix("after ") {
        Some(line) => {
            let after = standing(rt, before.rules(), words);
            leads_to(before, &entry(rt, line), after)
        }
        None => is_part(rt, before, what, words),
    }
}

/// Whether a line holds of a standing.
fn is_so(rt: &impl Abort, standing: &Standing, line: &str) -> bool {
    if let Some((line, why)) = line.split_once(" -> ") {
        let why = fault(rt, why);
        return fails(standing, &entry(rt, line), why);
    }
    let (what, words) = parted(rt, line, ": ");
    is_told(rt, standing, what, words)
}

/// Whether a row holds. Entries are tried at its standing.
fn holds(rt: &impl Abort, rules: Rules, row: &str) -> bool {
    let (parts, line) = parted(rt, row, "; ");
    let found = standing(rt, rules, parts);
    if line == "is none" {
        return found.is_none();
    }
    let Some(standing) = found else {
        return false;
    };
    check_tried(rt, row, &standing);
    line == "is one" || is_so(rt, &standing, line)
}

fn check_section(rt: &impl Abort, section: &str) {
    let (head, rows) = parted(rt, section, "\n");
    let (names, word) = parted(rt, head, ": rules ");
    let rules = rules(rt, word);
    for row in rows.lines() {
        check_line(rt, names, row, holds(rt, rules, row));
    }
}

/// The rows of all sections hold.
pub(super) fn check_sections(rt: &impl Abort, sections: &str) {
    for section in sections.split("\n\n") {
        check_section(rt, section);
    }
}
