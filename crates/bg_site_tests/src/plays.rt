//! Plays at sites over a shelf.
//!
//! A play has a line for each thing that happens at a site, or is to be seen there. "other " stands
//! before what happens at another site over the same shelf, and "not " before what is not so:
//! - "REQUEST > WORDS", "REQUEST > WORDS > WORDS": the answer to a request has these words
//!   (`crate::requests` has the requests);
//! - "renew": the match `made` is taken in as the shelf has it now;
//! - "change shown", "change hidden": the operator has removed its names, given new links, and
//!   wants it so;
//! - "remove": it is removed;
//! - "matches 3": there are so many;
//! - "fail", "full": the next write fails, or each one from now on, as nothing more is taken;
//! - "restless": something is left to do;
//! - "idle 10", "minute 9": matches are idle after so many minutes, and this one begins.

use crate::checks::{check_answer, check_row};
use crate::keepers::{Shelf, lasting_shelf};
use crate::requests::{answer_to, lasting_site, lasting_store, request_of};
use bg_match::{Rules, Terms};
use bg_site::{Changed, Seats, Site, Store, digest_of};
use bg_system::Names;
use bg_world::Keeper;
use std::process::Abort;

/// What the operator has made of the match.
fn changed(is_hidden: bool) -> Changed {
    Changed {
        names: Names::none(),
        seats: Some(Seats {
            x: digest_of("of x"),
            o: digest_of("of o"),
        }),
        is_hidden,
    }
}

/// Whether the match is taken in as its store has it now.
fn is_renewed<K: Keeper + Drop, S: Store<K> + Drop>(store: &mut S, site: &mut Site<K, S>) -> bool {
    let terms = Terms {
        length: 1,
        rules: Rules::One,
    };
    match store.make(terms, Names::none()) {
        Some(made) => site.replace(made.found),
        None => false,
    }
}

fn number(rt: &impl Abort, digits: &str) -> u64 {
    digits.parse().expect(rt, "a number")
}

/// Whether a line without a request comes to what it says.
fn is_so<K: Keeper + Drop, S: Store<K> + Drop>(
    rt: &impl Abort,
    shelf: &Shelf,
    store: &mut S,
    site: &mut Site<K, S>,
    line: &str,
) -> bool {
    let (word, rest) = line.split_once(' ').unwrap_or((line, ""));
    match word {
        "renew" => return is_renewed(store, site),
        "change" => return site.change("made", changed(rest == "hidden")),
        "remove" => return site.remove("made"),
        "matches" => return site.len() as u64 == number(rt, rest),
        "restless" => return site.is_restless(),
        "fail" => shelf.fail_after(0),
        "full" => shelf.fill(),
        "idle" => site.set_idle(number(rt, rest)),
        "minute" => site.begin_minute(number(rt, rest)),
        _ => check_row(rt, line, false),
    }
    true
}

/// Whether an answer has these words, which may stand in two parts.
fn has_words(answer: &str, words: &str) -> bool {
    let (status, rest) = words.split_once(" > ").unwrap_or((words, ""));
    answer.contains(status) && answer.contains(rest)
}

/// A line comes to what it says, or doesn't where "not " stands before it.
pub(crate) fn check_line<K: Keeper + Drop, S: Store<K> + Drop>(
    rt: &(impl AllocGlobal + Abort),
    host: &HostRuntime,
    shelf: &Shelf,
    store: &mut S,
    site: &mut Site<K, S>,
    row: &str,
) {
    let line = row.strip_prefix("not ").unwrap_or(row);
    let is_wanted = line.len() == row.len();
    match line.split_once(" > ") {
        Some((request, words)) => {
            let answer = answer_to(rt, host, site, request_of(rt, request));
            check_answer(rt, row, answer, has_words(answer, words) == is_wanted);
        }
        None => check_row(rt, row, is_so(rt, shelf, store, site, line) == is_wanted),
    }
}

/// Each line comes to what it says at one of two sites.
fn check_lines<K: Keeper + Drop, S: Store<K> + Drop>(
    rt: &(impl AllocGlobal + Abort),
    host: &HostRuntime,
    shelf: &Shelf,
    store: &mut S,
    site: &mut Site<K, S>,
    other: &mut Site<K, S>,
    play: &str,
) {
    for line in play.lines() {
        match line.strip_prefix("other ") {
            Some(line) => check_line(rt, host, shelf, store, other, line),
            None => check_line(rt, host, shelf, store, site, line),
        }
    }
}

/// Each line of a play comes to what it says.
pub(crate) fn check_play(rt: &(impl AllocGlobal + Abort), host: &HostRuntime, play: &str) {
    let shelf = lasting_shelf(rt);
    let (site, other) = (lasting_site(rt, shelf), lasting_site(rt, shelf));
    check_lines(rt, host, shelf, lasting_store(rt, shelf), site, other, play);
}
