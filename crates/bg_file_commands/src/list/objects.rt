//! The line of a match for programs: a JSON object.

use crate::list::examining::Listed;
use crate::list::times::put_time;
use bg_match::{Phase, Standing};
use bg_system::{NamedMatch, Names, number_of_rules};
use bg_text::{put_number, put_phase, put_text};
use std::alloc::{AllocError, Global};

/// Appends the line of a folder (docs/FORMATS.md, "Lists of matches"). What is unknown is left out.
pub(crate) fn put_object(
    alloc: Global,
    out: &mut Vec<u8>,
    listed: &Listed,
) -> Result<(), AllocError> {
    put_quoted(alloc, out, "{\"path\":", listed.path.as_str())?;
    if let Some(NamedMatch { table, names }) = &listed.file {
        put_numbered(out, ",\"match\":\"", table.id)?;
        put_numbered(out, "\",\"length\":", table.terms.length.into())?;
        put_numbered(
            out,
            ",\"rules\":",
            number_of_rules(table.terms.rules).into(),
        )?;
        put_numbered(out, ",\"port\":", table.port.into())?;
        put_names(alloc, out, names)?;
        put_flag(out, ",\"open\":", listed.is_open)?;
    }
    if let Some(standing) = &listed.held.standing {
        put_standing(out, standing)?;
        put_numbered(out, ",\"entries\":", listed.held.entries.into())?;
    }
    if let Some(seconds) = listed.changed {
        put_time(alloc, out, ",\"changed\":\"", seconds, "\"")?;
    }
    put_flag(out, ",\"saved\":", listed.held.fault.is_empty())?;
    if !listed.held.fault.is_empty() {
        put_quoted(alloc, out, ",\"fault\":", listed.held.fault.as_str())?;
    }
    put_text(out, "}\n")
}

/// Appends the names that players have.
fn put_names(alloc: Global, out: &mut Vec<u8>, names: &Names) -> Result<(), AllocError> {
    match (&names.x, &names.o) {
        (None, None) => return Ok(()),
        (Some(x), None) => put_quoted(alloc, out, ",\"names\":{\"x\":", x.as_str())?,
        (None, Some(o)) => put_quoted(alloc, out, ",\"names\":{\"o\":", o.as_str())?,
        (Some(x), Some(o)) => {
            put_quoted(alloc, out, ",\"names\":{\"x\":", x.as_str())?;
            put_quoted(alloc, out, ",\"o\":", o.as_str())?;
        }
    }
    put_text(out, "}")
}

/// Appends the score, the game, and what happens next.
fn put_standing(out: &mut Vec<u8>, standing: &Standing) -> Result<(), AllocError> {
    let (x, o) = standing.score();
    put_numbered(out, ",\"score\":{\"x\":", x.into())?;
    put_numbered(out, ",\"o\":", o.into())?;
    put_numbered(out, "},\"game\":", standing.game().into())?;
    put_text(out, ",\"next\":\"")?;
    put_phase(out, standing)?;
    let is_over = matches!(standing.phase(), Phase::Over(_));
    put_flag(out, "\",\"over\":", is_over)
}

/// Appends words, and a truth value behind them.
fn put_flag(out: &mut Vec<u8>, words: &str, is_so: bool) -> Result<(), AllocError> {
    put_text(out, words)?;
    put_text(out, if is_so { "true" } else { "false" })
}

/// Appends words, and a number behind them.
fn put_numbered(out: &mut Vec<u8>, words: &str, number: u64) -> Result<(), AllocError> {
    put_text(out, words)?;
    put_number(out, number)
}

/// Appends words, and a text in quotes behind them.
fn put_quoted(alloc: Global, out: &mut Vec<u8>, words: &str, text: &str) -> Result<(), AllocError> {
    put_text(out, words)?;
    let quoted = serde_json::to_vec(alloc, &text).map_err(|_| AllocError)?;
    out.extend_from_slice(&quoted)
}
