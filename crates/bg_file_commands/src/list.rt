//! The command that lists matches.

mod aligning;
mod examining;
mod locks;
mod objects;
mod rows;
mod saves;
mod times;

use crate::attempts::gathered;
use crate::list::aligning::aligned;
pub(crate) use crate::list::examining::standing_in;
use crate::list::examining::{Listed, Soundness, examine};
pub(crate) use crate::list::locks::Locks;
use crate::list::objects::put_object;
use crate::list::rows::put_row;
use bg_console::{
    Finding, MatchBelow, NO_MATCH, allocated, matches_below, print_text, say_of, wrong,
};
use bg_options::{ListFormat, ListOptions};
use bg_reports::{Ending, Found};
use std::io;

/// Lists the matches in the folders that the options name, and below them.
pub fn run(rt: &HostRuntime, options: ListOptions<'_, '_>) -> Result<Ending, Ending> {
    let ListOptions { folders, format } = options;
    if folders.contains(&"") {
        return Err(wrong(rt, "the name of a folder is empty"));
    }
    let locks = Locks::read(rt);
    let mut lines = Vec::new(rt.alloc());
    let mut worst = Soundness::Sound;
    for folder in folders {
        worst = worst.or(list(rt, format, folder, &locks, &mut lines)?);
    }
    print_lines(rt, format, &lines)?;
    Ok(Ending::Checked(match worst {
        Soundness::Sound => Found::Good,
        Soundness::Unsound => Found::Refused,
        Soundness::Unread => Found::Unjudged,
    }))
}

/// Appends the lines of the matches in a folder and below it, whose parts are not aligned yet.
/// Returns the worst that was found. Reports where there is no match.
fn list(
    rt: &HostRuntime,
    format: ListFormat,
    folder: &str,
    locks: &Locks,
    lines: &mut Vec<u8>,
) -> Result<Soundness, Ending> {
    let mut worst = Soundness::Sound;
    let mut has_match = false;
    for place in gathered(rt, matches_below(rt, folder))? {
        if !matches!(place.finding, Finding::WatchKey) {
            worst = worst.or(put_match(rt, format, place, locks, lines)?);
            has_match = true;
        }
    }
    if !has_match {
        say_of(rt, folder, NO_MATCH);
    }
    Ok(worst)
}

/// Appends the line of a match that was found. Returns how sound its files are.
fn put_match(
    rt: &HostRuntime,
    format: ListFormat,
    place: MatchBelow,
    locks: &Locks,
    lines: &mut Vec<u8>,
) -> Result<Soundness, Ending> {
    let listed = gathered(rt, listing_of(rt, place, locks))?;
    let put = match format {
        ListFormat::Text => put_row(rt.alloc(), lines, &listed),
        ListFormat::Json => put_object(rt.alloc(), lines, &listed),
    };
    allocated(rt, put)?;
    Ok(listed.held.soundness)
}

/// Returns the listing of a folder that was found.
fn listing_of(rt: &HostRuntime, place: MatchBelow, locks: &Locks) -> io::Result<Listed> {
    match place.finding {
        Finding::Unread(fault) => Listed::unread(rt.alloc(), place.path, "", fault),
        _ => examine(rt, place.path, locks),
    }
}

/// Prints the lines.
fn print_lines(rt: &HostRuntime, format: ListFormat, lines: &[u8]) -> Result<(), Ending> {
    match format {
        ListFormat::Text => {
            let text = allocated(rt, aligned(rt.alloc(), lines))?;
            print_text(rt, &text)
        }
        ListFormat::Json => print_text(rt, lines),
    }
}
