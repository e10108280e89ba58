//! The ports of the matches beside a folder.

use crate::attempts::gathered;
use crate::list::{Locks, standing_in};
use bg_console::{MatchBeside, folder_of, matches_beside, wrong};
use bg_match::Phase;
use bg_reports::Ending;
use bg_system::Printable;
use std::io;

/// Number of ports of a match, from its own on.
const PORTS: u16 = 256;

/// Refuses the port of a match that is to be made in this folder, where its ports overlap those of
/// a match in another folder beside it that is not over. What can't be read there counts as no
/// match.
pub(crate) fn check_ports(rt: &HostRuntime, folder: &str, port: u16) -> Result<(), Ending> {
    for other in matches_beside(rt, folder)?.iter() {
        if port.abs_diff(other.file.port) < PORTS {
            check_over(rt, other)?;
        }
    }
    Ok(())
}

/// Refuses the ports of this match, unless it is over and no process has its folder.
fn check_over(rt: &HostRuntime, other: &MatchBeside) -> Result<(), Ending> {
    if gathered(rt, is_done(rt, other))? {
        return Ok(());
    }
    Err(taken(rt, other))
}

/// Returns whether a match is over, and no process has its folder.
///
/// # Errors
/// `OutOfMemory` alone.
fn is_done(rt: &HostRuntime, other: &MatchBeside) -> io::Result<bool> {
    let folder = folder_of(other.path.as_str());
    match standing_in(rt, folder, &other.file)?.map(|standing| standing.phase()) {
        Some(Phase::Over(_)) => Ok(!Locks::read(rt).have(rt, folder)?),
        _ => Ok(false),
    }
}

/// Reports that this match has the ports.
fn taken(rt: &HostRuntime, other: &MatchBeside) -> Ending {
    let (shown, first) = (Printable(other.path.as_str()), other.file.port);
    let last = first.saturating_add(PORTS - 1);
    wrong(
        rt,
        format_args!(
            "the match of {shown} has the ports {first} to {last}: choose a port that is 256 above or below"
        ),
    )
}
