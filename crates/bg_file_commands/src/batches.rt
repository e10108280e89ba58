//! Files that are converted into a folder, one after the other.

mod beside;
mod targets;

use crate::attempts::done_at;
use crate::batches::beside::{bytes_beside, headers_beside, keep_headers};
use crate::batches::targets::{NameEndings, check_targets, target_of};
use crate::inputs::{check_name, file_bytes, match_file_text, shown, transcript_as_match_file};
use bg_console::{Progress, allocated, check_out_file, check_out_folder, say, wrong_at};
use bg_match::Rules;
use bg_options::{BatchOptions, HeaderOptions};
use bg_reports::{Ending, Tally};
use bg_system::publish;
use std::fs;
use std::rt::Files;

/// The conversion of each file.
#[derive(Clone, Copy)]
pub(crate) enum Conversion<'a> {
    /// The transcript of a match file, by these rules.
    Import(Rules),
    /// The match file of a transcript, with these headers.
    Export(HeaderOptions<'a>),
}

impl<'a> Conversion<'a> {
    /// Returns the end of the names of the files that are read, and of those that are written.
    fn endings(&self) -> NameEndings {
        match self {
            Conversion::Import(_) => (".mat", ".txt"),
            Conversion::Export(_) => (".txt", ".mat"),
        }
    }

    /// Returns what is made of a file with this name and these bytes, and of the headers beside it
    /// if `has_headers` is set. Reports why where it is refused.
    fn text(
        &self,
        rt: &HostRuntime,
        name: &str,
        bytes: &[u8],
        has_headers: bool,
    ) -> Result<Vec<u8>, Ending> {
        let shown = allocated(rt, shown(rt.alloc(), name))?;
        let shown = shown.as_str();
        match self {
            Conversion::Import(rules) => match_file_text(rt, shown, *rules, bytes),
            Conversion::Export(headers) if has_headers => {
                let beside = bytes_beside(rt, name)?;
                let headers = headers.or(headers_beside(rt, shown, &beside)?);
                transcript_as_match_file(rt, shown, &headers, bytes)
            }
            Conversion::Export(headers) => transcript_as_match_file(rt, shown, headers, bytes),
        }
    }
}

/// Converts files into a folder, each by itself. Reports those that are refused, and the numbers of
/// all.
pub(crate) fn convert_all(
    rt: &HostRuntime,
    conversion: Conversion<'_>,
    batch: BatchOptions<'_, '_>,
    mut progress: Progress,
) -> Result<Ending, Ending> {
    check_out_folder(rt, batch.folder)?;
    check_targets(rt, &batch, conversion.endings())?;
    let mut tally = Tally::default();
    for name in batch.files {
        count(&mut tally, convert(rt, &conversion, &batch, name));
        let files = tally.files();
        progress.tell_of(rt, format_args!("{files} files are done"));
    }
    say(rt, tally);
    Ok(Ending::Checked(tally.worst()))
}

/// Counts a file that was converted, or wasn't.
fn count(tally: &mut Tally, done: Result<(), Ending>) {
    let number = match done {
        Ok(()) => &mut tally.good,
        Err(Ending::Judged(_) | Ending::WrongArguments) => &mut tally.refused,
        Err(_) => &mut tally.unjudged,
    };
    *number = number.saturating_add(1);
}

/// Converts a file. Reports why where it isn't converted.
fn convert(
    rt: &HostRuntime,
    conversion: &Conversion<'_>,
    batch: &BatchOptions<'_, '_>,
    name: &str,
) -> Result<(), Ending> {
    check_name(rt, name)?;
    let bytes = file_bytes(rt, name)?;
    write_one(rt, conversion, batch, name, &bytes)?;
    if batch.has_headers && matches!(conversion, Conversion::Import(_)) {
        keep_headers(rt, batch, name, &bytes)?;
    }
    Ok(())
}

/// Writes what is made of a file with this name and these bytes.
fn write_one(
    rt: &HostRuntime,
    conversion: &Conversion<'_>,
    batch: &BatchOptions<'_, '_>,
    name: &str,
    bytes: &[u8],
) -> Result<(), Ending> {
    let text = conversion.text(rt, name, bytes, batch.has_headers)?;
    put_target(rt, batch, name, conversion.endings(), &text)
}

/// Writes the file of a batch that is named after this one, with the other ending.
fn put_target(
    rt: &HostRuntime,
    batch: &BatchOptions<'_, '_>,
    name: &str,
    endings: NameEndings,
    bytes: &[u8],
) -> Result<(), Ending> {
    let target = target_of(rt.alloc(), batch.folder, name, endings);
    let target = allocated(rt, target)?;
    put_file(rt, target.as_str(), bytes, batch.is_forced)
}

/// Writes a file, whole. Refuses one that exists, unless it may be overwritten, and what is no file.
pub(crate) fn put_file(
    rt: &HostRuntime,
    path: &str,
    bytes: &[u8],
    is_forced: bool,
) -> Result<(), Ending> {
    if !is_forced && fs::metadata(rt, path).is_ok() {
        return Err(wrong_at(rt, path, " exists: --force overwrites it"));
    }
    check_out_file(rt, path)?;
    done_at(rt, path, " could not be written", publish(rt, path, bytes))
}
