//! Printing what commands tell.

use bg_console::{allocated, print_text};
use bg_reports::Ending;
use std::alloc::AllocError;

/// Prints a text, with which a command ends.
pub(crate) fn print_told(rt: &HostRuntime, text: &[u8]) -> Result<Ending, Ending> {
    print_text(rt, text)?;
    Ok(Ending::Told)
}

/// Prints a text that was made, with which a command ends. Reports where there was no memory for
/// it.
pub(crate) fn print_made(
    rt: &HostRuntime,
    made: Result<Vec<u8>, AllocError>,
) -> Result<Ending, Ending> {
    print_told(rt, &allocated(rt, made)?)
}

/// Prints a report on saved files. Returns whether one of them loads.
pub(crate) fn print_report(
    rt: &HostRuntime,
    report: Result<(Vec<u8>, bool), AllocError>,
) -> Result<bool, Ending> {
    let (text, loads) = allocated(rt, report)?;
    print_text(rt, &text)?;
    Ok(loads)
}
