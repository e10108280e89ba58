//! The records that seats and transcripts hold of a match.

use crate::inputs::{STANDARD_INPUT, check_name, file_bytes, record_in, shown, standard_input};
use crate::saved_files::{slot_of, slots_of};
use bg_board::Player;
use bg_console::{allocated, no_memory, say, wrong, wrong_at};
use bg_match::{Number, Record};
use bg_reports::{Compared, Ending, SlotBytes, compare};
use bg_system::{MatchFile, Printable};
use bg_wire::{REFEREE, RestoreRefusal, Saved, Slot, party_of, restore};

/// The record that one of the sources holds of the match, with the name of the source.
#[derive(Drop)]
pub(crate) struct Held<'a> {
    pub(crate) name: &'a str,
    pub(crate) saved: Saved,
}

impl<'a> Held<'a> {
    /// Creates a source that holds no entry.
    pub(crate) fn nothing(
        rt: &HostRuntime,
        file: MatchFile,
        name: &'a str,
    ) -> Result<Held<'a>, Ending> {
        match Record::new(rt.alloc(), file.id, file.terms.length, file.terms.rules) {
            Ok(record) => Ok(Held {
                name,
                saved: saved_of(record),
            }),
            Err(_) => Err(wrong(rt, "length out of range")),
        }
    }

    /// Reads the transcript with this name as a source.
    pub(crate) fn of_transcript(
        rt: &HostRuntime,
        file: MatchFile,
        name: &'a str,
    ) -> Result<Held<'a>, Ending> {
        check_name(rt, name)?;
        let bytes = if name == STANDARD_INPUT {
            standard_input(rt)?
        } else {
            file_bytes(rt, name)?
        };
        let shown = allocated(rt, shown(rt.alloc(), name))?;
        let record = record_in(rt, shown.as_str(), file.id, &bytes)?;
        Ok(Held {
            name,
            saved: saved_of(record),
        })
    }

    /// Becomes the other one where that holds more. Ends with `WrongArguments` where an entry
    /// differs, or they are of different matches.
    pub(crate) fn take(&mut self, rt: &HostRuntime, other: Held<'a>) -> Result<(), Ending> {
        let (one, two) = (self.name, other.name);
        match compare(&self.saved, &other.saved) {
            Compared::Behind(0) => {}
            Compared::Behind(_) => *self = other,
            Compared::Differs(number) => return Err(differ(rt, one, two, number)),
            Compared::OtherMatch => {
                let words = " is of another length or other rules: nothing was made; leave it out";
                return Err(wrong_at(rt, two, words));
            }
        }
        Ok(())
    }
}

/// Reports that two sources differ at an entry.
fn differ(rt: &HostRuntime, one: &str, two: &str, number: Number) -> Ending {
    let (one, two) = (Printable(one), Printable(two));
    wrong(
        rt,
        format_args!(
            "{one} and {two} differ at entry {number}: nothing was made; leave out the one of another match"
        ),
    )
}

/// Returns a record as the referee's first save.
fn saved_of(log: Record) -> Saved {
    Saved {
        party: REFEREE,
        save: 1,
        claim: None,
        log,
    }
}

/// Returns what the seat of this player has saved in its folder. Returns `None`, and reports it,
/// where the seat has saved nothing.
pub(crate) fn seat_of(
    rt: &HostRuntime,
    file: MatchFile,
    folder: &str,
    player: Player,
) -> Result<Option<Saved>, Ending> {
    let party = party_of(player);
    match restored(rt, file, folder, party)? {
        Ok(Some(saved)) => Ok(Some(saved)),
        Ok(None) => {
            check_seat(rt, folder, player)?;
            let shown = Printable(folder);
            say(
                rt,
                format_args!("{shown} has no save of party {party}: it counts as holding nothing"),
            );
            Ok(None)
        }
        Err(RestoreRefusal::Damaged) => {
            let why = " are damaged (`show` says how): nothing was made; put a copy in their place";
            Err(wrong_seat(rt, folder, party, why))
        }
        Err(RestoreRefusal::WrongMatch) => {
            let why = " are of another match: nothing was made; name the folder of this one";
            Err(wrong_seat(rt, folder, party, why))
        }
        Err(RestoreRefusal::Memory) => Err(no_memory(rt)),
    }
}

/// Returns what the files of a party in a folder restore, or why they restore nothing.
fn restored(
    rt: &HostRuntime,
    file: MatchFile,
    folder: &str,
    party: u8,
) -> Result<Result<Option<Saved>, RestoreRefusal>, Ending> {
    let SlotBytes { zero, one } = slots_of(rt, folder, party)?;
    let (length, rules) = (file.terms.length, file.terms.rules);
    Ok(restore(rt.alloc(), &zero, &one, party, file.id, length, rules))
}

/// Reports why the files of a party in a folder are refused.
fn wrong_seat(rt: &HostRuntime, folder: &str, party: u8, why: &str) -> Ending {
    let shown = Printable(folder);
    wrong(
        rt,
        format_args!("the files of party {party} in {shown}{why}"),
    )
}

/// Refuses a folder for this player's seat that has saves of the other seat.
fn check_seat(rt: &HostRuntime, folder: &str, player: Player) -> Result<(), Ending> {
    let other = party_of(player.opponent());
    if !has_saved(rt, folder, other, Slot::Zero)? && !has_saved(rt, folder, other, Slot::One)? {
        return Ok(());
    }
    let (own, shown) = (party_of(player), Printable(folder));
    Err(wrong(
        rt,
        format_args!(
            "{shown} has saves of party {other}, and none of party {own}: nothing was made; name the folder of that seat"
        ),
    ))
}

/// Returns whether a party's file in a folder has a byte.
fn has_saved(rt: &HostRuntime, folder: &str, party: u8, slot: Slot) -> Result<bool, Ending> {
    Ok(!slot_of(rt, folder, party, slot)?.is_empty())
}
