//! The saves of a party, and the messages if it can't go on because of them.

use crate::others_saves::owner_of;
use bg_console::{failed_barely, no_memory, say, say_failures, slot_path, wrong};
use bg_match::{LengthFault, Rules};
use bg_processes::{Failures, MatchFile, Printable, read_saved};
use bg_reports::Ending;
use bg_system::number_of_rules;
use bg_wire::{REFEREE, Slot, load};
use bg_world::{Outcome, RestoreCause, outcome_text};
use std::fmt;
use std::fmt::{Display, Formatter, Write};
use std::fs::File;

/// A match, as a message describes that of a save or a match file.
#[derive(Clone, Copy, PartialEq, Eq)]
struct MatchWords {
    id: u64,
    length: u8,
    rules: u8,
}

impl MatchWords {
    fn of(id: u64, length: u8, rules: Rules) -> MatchWords {
        MatchWords {
            id,
            length,
            rules: number_of_rules(rules),
        }
    }
}

impl Display for MatchWords {
    fn fmt<W: Write>(&self, f: &mut Formatter<W>) -> fmt::Result {
        let MatchWords { id, length, rules } = *self;
        write!(f, "match {id}, length {length}, rules {rules}")
    }
}

/// The match that a party is to play, as it was asked for.
#[derive(Clone, Copy)]
pub enum Asked<'a> {
    /// That of a match file or a key file.
    File(&'a MatchFile),
    /// That of the options of `loop`: the seed, the length and the rules.
    Options(u64, u8, Rules),
}

impl<'a> Asked<'a> {
    fn words(self) -> MatchWords {
        match self {
            Asked::File(table) => {
                MatchWords::of(table.id, table.terms.length, table.terms.rules)
            }
            Asked::Options(id, length, rules) => MatchWords::of(id, length, rules),
        }
    }

    /// Returns where it was asked for, as a message says it.
    fn place(self) -> &'static str {
        match self {
            Asked::File(_) => "the match file",
            Asked::Options(..) => "this call",
        }
    }
}

/// The saves of a party: the folder that they are in, and the match that the party is to play.
#[derive(Clone, Copy)]
pub struct OwnSaves<'a> {
    pub folder: &'a str,
    pub party: u8,
    pub asked: Asked<'a>,
}

/// Returns the process of a party with these saves, where it has begun. Reports what failed as it
/// began, and why it has not begun.
pub fn begun<P: Drop>(
    rt: &HostRuntime,
    failures: &Failures,
    saves: OwnSaves<'_>,
    attempt: Result<(P, Outcome), LengthFault>,
) -> Result<P, Ending> {
    say_failures(rt, failures, saves.folder);
    let Ok((process, outcome)) = attempt else {
        return Err(wrong(rt, LengthFault::LengthOutOfRange));
    };
    if outcome != Outcome::Restarted {
        return Err(stopped(rt, saves, &outcome));
    }
    Ok(process)
}

/// Reports why a party is down for good, in a line of its own, and returns `Failed`. The line
/// before that says what to do and, if its saves are the reason, whose saves they are.
pub fn stopped(rt: &HostRuntime, saves: OwnSaves<'_>, outcome: &Outcome) -> Ending {
    say_remedy(rt, saves, outcome);
    let line = outcome_text(outcome);
    failed_barely(rt, line.as_str())
}

/// Reports what to do about a party that is down for good, and what is wrong with its saves if they
/// are the reason. A file that can't be read was reported before.
fn say_remedy(rt: &HostRuntime, saves: OwnSaves<'_>, outcome: &Outcome) {
    let (folder, owner) = (Printable(saves.folder), owner_of(saves.party));
    match outcome {
        Outcome::RestoreFault(RestoreCause::Damaged) => say(
            rt,
            format_args!(
                "the saves of {owner} in {folder} are damaged: `bg_relay show {folder}` says how"
            ),
        ),
        Outcome::RestoreFault(RestoreCause::WrongMatch) => {
            if let Some(found) = newest_save(rt, saves.folder, saves.party) {
                say_other_match(rt, saves, found);
            }
        }
        Outcome::SavesSpent => {
            let remedy = if saves.party == REFEREE {
                "`bg_relay recover` makes one that it can go on with"
            } else {
                "give another --dir"
            };
            say(
                rt,
                format_args!("{owner} can save no more in {folder}: {remedy}"),
            );
        }
        Outcome::RestoreFault(RestoreCause::Device) => {}
        // Only lack of memory ends a party otherwise.
        _ => {
            let _ = no_memory(rt);
        }
    }
}

/// Reports that a folder has a save that isn't of this match, or isn't of this party.
fn say_other_match(rt: &HostRuntime, saves: OwnSaves<'_>, found: FoundSave) {
    let (folder, whose, theirs) = (Printable(saves.folder), owner_of(found.party), found.words);
    let (asked, own) = (saves.asked.place(), saves.asked.words());
    let remedy = Remedy::of(saves, theirs);
    say(
        rt,
        format_args!("{folder} has saves of {whose} of {theirs}; {asked} is of {own}: {remedy}"),
    );
}

/// The remedy where the folder of a party has saves of another match or another party.
#[derive(Clone, Copy)]
enum Remedy {
    /// For the referee, whose folder has files of the match with this number.
    OfReferee(u64),
    /// For a seat, whose folder has saves of the match with this number.
    OtherMatch(u64),
    /// For a call of `loop`, whose folder has saves of this match.
    OtherOptions(MatchWords),
    /// For a seat, whose folder has other saves of its match.
    OtherFolder,
}

impl Remedy {
    /// Returns the remedy where a party has saves of this match.
    fn of(saves: OwnSaves<'_>, theirs: MatchWords) -> Remedy {
        match saves.asked {
            Asked::Options(..) if theirs != saves.asked.words() => Remedy::OtherOptions(theirs),
            Asked::Options(..) => Remedy::OtherFolder,
            Asked::File(_) if saves.party == REFEREE => Remedy::OfReferee(theirs.id),
            Asked::File(table) if theirs.id != table.id => Remedy::OtherMatch(theirs.id),
            Asked::File(_) => Remedy::OtherFolder,
        }
    }
}

impl Display for Remedy {
    fn fmt<W: Write>(&self, f: &mut Formatter<W>) -> fmt::Result {
        match *self {
            Remedy::OfReferee(id) => write!(
                f,
                "put the saves of this match in their place, or all files of match {id}"
            ),
            Remedy::OtherMatch(id) => {
                write!(f, "give another --dir, or the key file of match {id}")
            }
            Remedy::OtherOptions(MatchWords { id, length, rules }) => write!(
                f,
                "give another --dir, or --seed {id} --length {length} --rules {rules}"
            ),
            Remedy::OtherFolder => f.write_str("give another --dir"),
        }
    }
}

/// A save that was found in a folder: its number, its party and its match.
#[derive(Clone, Copy)]
struct FoundSave {
    number: u32,
    party: u8,
    words: MatchWords,
}

/// Returns the latest save of a party in a folder, or `None` if neither file holds one.
fn newest_save(rt: &HostRuntime, folder: &str, party: u8) -> Option<FoundSave> {
    let zero = save_in(rt, folder, party, Slot::Zero);
    let one = save_in(rt, folder, party, Slot::One);
    match (zero, one) {
        (Some(zero), Some(one)) if zero.number < one.number => Some(one),
        (Some(zero), _) => Some(zero),
        (None, one) => one,
    }
}

/// Reads a party's file in a folder, if it holds a save.
fn save_in(rt: &HostRuntime, folder: &str, party: u8, slot: Slot) -> Option<FoundSave> {
    let path = slot_path(rt.alloc(), folder, party, slot).ok()?;
    let saved = load(rt.alloc(), &read_saved(rt, path.as_str()).ok()?).ok()?;
    Some(FoundSave {
        number: saved.save,
        party: saved.party,
        words: MatchWords::of(saved.log.id(), saved.log.length(), saved.log.rules()),
    })
}
