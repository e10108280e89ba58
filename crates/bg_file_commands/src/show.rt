//! The command that shows saved files.

use crate::inputs::check_name;
use crate::outputs::print_report;
use crate::saved_files::{saved_bytes, slots_of};
use bg_console::{allocated, check_folder, path_in, print_text, say, say_of, wrong_at};
use bg_options::ShowOptions;
use bg_reports::{Ending, SlotBytes, folder_text, party_text, restored_transcript, show_text};
use bg_wire::{REFEREE, SEAT_OF_O, SEAT_OF_X};
use std::alloc::{AllocError, Global};
use std::fs;
use std::io::ErrorKind;

/// The message behind the name of a file that is shown alone.
const NO_FOLDER: &str = " is no folder: name the two files of a party, or a folder";

/// The messages behind the name of what isn't there, shown alone or as a file of a party.
const NOT_THERE: &str = " is not there: name the two files of a party, or a folder";

const COUNTS_AS_EMPTY: &str = " is not there, and counts as empty: name a file that is there";

/// Shows the saved files that the options name.
pub fn run(rt: &HostRuntime, options: ShowOptions<'_>) -> Result<Ending, Ending> {
    let ShowOptions {
        path0,
        path1,
        wants_transcript,
    } = options;
    check_name(rt, path0)?;
    match path1 {
        Some(path1) if wants_transcript => print_transcript(rt, path0, path1),
        Some(path1) => show_files(rt, path0, path1),
        None => show_folder(rt, path0),
    }
}

/// Shows the two files of a party.
fn show_files(rt: &HostRuntime, path0: &str, path1: &str) -> Result<Ending, Ending> {
    let slots = named_slots(rt, path0, path1)?;
    let loads = print_report(rt, show_text(rt.alloc(), &slots.zero, &slots.one))?;
    if !loads {
        say_missing(rt, path0, path1);
    }
    Ok(Ending::Shown { loads })
}

/// Reports which of the two files of a party aren't there.
fn say_missing(rt: &HostRuntime, path0: &str, path1: &str) {
    for path in [path0, path1] {
        if is_missing(rt, path) {
            say_of(rt, path, COUNTS_AS_EMPTY);
        }
    }
}

/// Returns whether nothing is at a path.
fn is_missing(rt: &HostRuntime, path: &str) -> bool {
    match fs::metadata(rt, path) {
        Ok(_) => false,
        Err(error) => error.kind() == ErrorKind::NotFound,
    }
}

/// Reads the bytes of the two files of a party.
fn named_slots(rt: &HostRuntime, path0: &str, path1: &str) -> Result<SlotBytes, Ending> {
    check_name(rt, path1)?;
    Ok(SlotBytes {
        zero: saved_bytes(rt, path0)?,
        one: saved_bytes(rt, path1)?,
    })
}

/// Prints the transcript of what the two files of a party restore. Where that is nothing, it
/// reports what they hold.
fn print_transcript(rt: &HostRuntime, path0: &str, path1: &str) -> Result<Ending, Ending> {
    let slots = named_slots(rt, path0, path1)?;
    let transcript = restored_transcript(rt.alloc(), &slots.zero, &slots.one);
    match allocated(rt, transcript)? {
        Some(text) => {
            print_text(rt, &text)?;
            Ok(Ending::Shown { loads: true })
        }
        None => {
            say_missing(rt, path0, path1);
            say_slots(rt, &slots)
        }
    }
}

/// Reports what the two files of a party hold, of which none loads.
fn say_slots(rt: &HostRuntime, slots: &SlotBytes) -> Result<Ending, Ending> {
    let (text, _) = allocated(rt, show_text(rt.alloc(), &slots.zero, &slots.one))?;
    for line in str::from_utf8(&text).unwrap_or_default().lines() {
        say(rt, line);
    }
    Ok(Ending::Shown { loads: false })
}

/// Shows the files of the parties in a folder. Shows the referee's alone where its seats have their
/// own folders.
fn show_folder(rt: &HostRuntime, folder: &str) -> Result<Ending, Ending> {
    if is_missing(rt, folder) {
        return Err(wrong_at(rt, folder, NOT_THERE));
    }
    check_folder(rt, folder, NO_FOLDER)?;
    let parties = parties_in(rt, folder)?;
    let loads = print_report(rt, parties.report(rt.alloc()))?;
    Ok(Ending::Shown { loads })
}

/// The saved files of a folder.
#[derive(Drop)]
struct Parties {
    referee: SlotBytes,
    x: SlotBytes,
    o: SlotBytes,
    /// Whether the folder is that of a referee.
    has_match: bool,
}

impl Parties {
    /// Returns the report on the files, and whether one of them loads.
    fn report(&self, alloc: Global) -> Result<(Vec<u8>, bool), AllocError> {
        if self.has_match && !has_bytes(&self.x) && !has_bytes(&self.o) {
            return party_text(alloc, REFEREE, &self.referee);
        }
        folder_text(alloc, &self.referee, &self.x, &self.o)
    }
}

/// Reads the saved files of a folder.
fn parties_in(rt: &HostRuntime, folder: &str) -> Result<Parties, Ending> {
    Ok(Parties {
        has_match: has_match(rt, folder)?,
        referee: slots_of(rt, folder, REFEREE)?,
        x: slots_of(rt, folder, SEAT_OF_X)?,
        o: slots_of(rt, folder, SEAT_OF_O)?,
    })
}

/// Returns whether one of the two files of a party has a byte.
fn has_bytes(slots: &SlotBytes) -> bool {
    !slots.zero.is_empty() || !slots.one.is_empty()
}

/// Returns whether a folder is that of a referee whose seats have folders of their own.
fn has_match(rt: &HostRuntime, folder: &str) -> Result<bool, Ending> {
    let path = allocated(rt, path_in(rt.alloc(), folder, "match"))?;
    Ok(fs::metadata(rt, path.as_str()).is_ok())
}
