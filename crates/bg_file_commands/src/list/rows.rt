//! The line of a match for people.

use crate::inputs::shown;
use crate::list::examining::Listed;
use crate::list::times::put_time;
use crate::texts::put_texts;
use bg_console::Pairing;
use bg_match::Standing;
use bg_system::{MatchFile, NamedMatch, Names};
use bg_text::{put_number, put_phase, put_text};
use std::alloc::{AllocError, Global};

/// The heading of the lines, whose parts are still to be aligned.
pub(crate) const HEADING: &str =
    "FOLDER\tMATCH\tPLAYERS\tSCORE\tGAME\tNEXT\tENTRIES\tLAST SAVE\tOPEN\tFILES";

/// The mark in place of an empty part.
pub(crate) const NOTHING: &str = "-";

/// Appends the line of a folder, whose parts are still to be aligned.
pub(crate) fn put_row(alloc: Global, out: &mut Vec<u8>, listed: &Listed) -> Result<(), AllocError> {
    put_texts(out, &[shown(alloc, listed.path.as_str())?.as_str(), "\t"])?;
    if let Some(NamedMatch { table, names }) = &listed.file {
        put_numbered(out, table.id, "\t")?;
        put_names(alloc, out, names)?;
        if let Some(standing) = &listed.held.standing {
            put_standing(out, table, standing)?;
            put_numbered(out, listed.held.entries.into(), "\t")?;
            put_changed(alloc, out, listed.changed)?;
            put_text(out, if listed.is_open { "open\t" } else { "-\t" })?;
        }
    }
    put_texts(out, &[state_of(listed), "\n"])
}

/// Returns the word for the state of the saves.
fn state_of(listed: &Listed) -> &str {
    if !listed.held.fault.is_empty() {
        listed.held.fault.as_str()
    } else if listed.changed.is_none() {
        "nothing saved yet"
    } else {
        "saved"
    }
}

/// Appends the names of the players, and no text where neither has a name.
fn put_names(alloc: Global, out: &mut Vec<u8>, names: &Names) -> Result<(), AllocError> {
    match Pairing::of(names) {
        Some(pairing) => put_text(out, format!(in alloc; "{pairing}\t")?.as_str()),
        None => put_text(out, "\t"),
    }
}

/// Appends the score, the game, and what happens next.
fn put_standing(
    out: &mut Vec<u8>,
    table: &MatchFile,
    standing: &Standing,
) -> Result<(), AllocError> {
    let (x, o) = standing.score();
    put_numbered(out, x.into(), "-")?;
    put_numbered(out, o.into(), " of ")?;
    put_numbered(out, table.terms.length.into(), "\t")?;
    put_numbered(out, standing.game().into(), "\t")?;
    put_phase(out, standing)?;
    put_text(out, "\t")
}

/// Appends the time of the last save.
fn put_changed(alloc: Global, out: &mut Vec<u8>, changed: Option<u64>) -> Result<(), AllocError> {
    match changed {
        Some(seconds) => put_time(alloc, out, "", seconds, "\t"),
        None => put_text(out, "-\t"),
    }
}

/// Appends a number, and these words behind it.
fn put_numbered(out: &mut Vec<u8>, number: u64, behind: &str) -> Result<(), AllocError> {
    put_number(out, number)?;
    put_text(out, behind)
}
