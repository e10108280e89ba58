//! Reading the bytes of an input.

use crate::attempts::done_at;
use crate::header_texts::put_with_headers;
use bg_console::{allocated, no_memory, say, unread, wrong};
use bg_mat::{export_mat, import_mat, is_match_file};
use bg_match::{Record, Rules};
use bg_options::HeaderOptions;
use bg_reports::{Ending, said_of_import_fault, said_of_transcript_fault};
use bg_system::Printable;
use bg_text::{MAX_INPUT, Verdict, read_transcript, transcript_text};
use std::alloc::{AllocError, Global};
use std::fs::File;
use std::io;
use std::io::Read;

/// The number of a match that is read from a transcript or a match file, which have none.
const NO_NUMBER: u64 = 0;

/// The message on a match file where a transcript is asked for.
pub(crate) const IS_MATCH_FILE: &str = "it is a match file, of which `import` makes a transcript";

/// The message on a transcript where a match file is asked for.
const IS_TRANSCRIPT: &str = "it begins as a transcript, of which `export` makes a match file";

/// The name for the standard input.
pub(crate) const STANDARD_INPUT: &str = "-";

/// The name of a transcript on the standard input, in messages.
pub(crate) const TRANSCRIPT: &str = "the transcript";

/// Reads the bytes of an input, up to the limit of what is judged, and one more of a longer one.
pub(crate) fn read_input(alloc: Global, input: impl Read + Drop) -> io::Result<Vec<u8>> {
    let mut bytes = Vec::new(alloc);
    input.take(MAX_INPUT as u64 + 1).read_to_end(&mut bytes)?;
    Ok(bytes)
}

/// Reads the bytes of a file, up to the same limit.
pub(crate) fn read_file(rt: &HostRuntime, path: &str) -> io::Result<Vec<u8>> {
    read_input(rt.alloc(), File::open(rt, path)?)
}

/// Reads the bytes of a file, up to the same limit. Reports why where it can't be read.
pub(crate) fn file_bytes(rt: &HostRuntime, path: &str) -> Result<Vec<u8>, Ending> {
    done_at(rt, path, " could not be read", read_file(rt, path))
}

/// Refuses an empty file name.
pub(crate) fn check_name(rt: &HostRuntime, name: &str) -> Result<(), Ending> {
    if name.is_empty() {
        return Err(wrong(rt, "the name of a file is empty"));
    }
    Ok(())
}

/// Reads the bytes of the standard input, up to the limit of what is judged. Reports why where it
/// can't be read.
pub(crate) fn standard_input(rt: &HostRuntime) -> Result<Vec<u8>, Ending> {
    match read_input(rt.alloc(), rt.reader()) {
        Ok(bytes) => Ok(bytes),
        Err(error) => Err(unread(rt, &error)),
    }
}

/// Reads the record of the transcript on the standard input. Reports why where it has none.
pub(crate) fn read_record(rt: &HostRuntime) -> Result<Record, Ending> {
    let bytes = standard_input(rt)?;
    record_in(rt, TRANSCRIPT, NO_NUMBER, &bytes)
}

/// Returns the record of a transcript with this name, as it is printed, of the match with this
/// number. Reports why where it has none.
pub(crate) fn record_in(
    rt: &HostRuntime,
    name: &str,
    id: u64,
    bytes: &[u8],
) -> Result<Record, Ending> {
    match read_transcript(rt.alloc(), id, bytes) {
        Ok(record) => Ok(record),
        Err(fault) => {
            let said = said_of_transcript_fault(rt.alloc(), name, bytes, fault, None);
            let ending = refused(rt, said);
            if is_match_file(bytes) {
                say(rt, IS_MATCH_FILE);
            }
            Err(ending)
        }
    }
}

/// Returns the transcript of a match file with this name, as it is printed, under these rules.
/// Reports why where it has none.
pub(crate) fn match_file_text(
    rt: &HostRuntime,
    name: &str,
    rules: Rules,
    bytes: &[u8],
) -> Result<Vec<u8>, Ending> {
    match import_mat(rt.alloc(), NO_NUMBER, rules, bytes) {
        Ok(imported) => allocated(rt, transcript_text(rt.alloc(), &imported.record)),
        Err(fault) => {
            let said = said_of_import_fault(rt.alloc(), name, bytes, fault, None);
            let ending = refused(rt, said);
            if bytes.starts_with(b"length ") {
                say(rt, IS_TRANSCRIPT);
            }
            Err(ending)
        }
    }
}

/// Returns the match file of a transcript with this name, as it is printed, with these headers.
/// Reports why where it has none.
pub(crate) fn transcript_as_match_file(
    rt: &HostRuntime,
    name: &str,
    headers: &HeaderOptions<'_>,
    bytes: &[u8],
) -> Result<Vec<u8>, Ending> {
    let record = record_in(rt, name, NO_NUMBER, bytes)?;
    allocated(rt, match_file_of(rt.alloc(), &record, headers))
}

/// Returns the match file of a record, with these headers.
fn match_file_of(
    alloc: Global,
    record: &Record,
    headers: &HeaderOptions<'_>,
) -> Result<Vec<u8>, AllocError> {
    let plain = export_mat(alloc, record)?;
    let mut text = Vec::new(alloc);
    put_with_headers(
        &mut text,
        headers,
        str::from_utf8(&plain).unwrap_or_default(),
    )?;
    Ok(text)
}

/// Returns a name or another text as it is printed, with its unprintable characters escaped.
pub(crate) fn shown(alloc: Global, text: &str) -> Result<String, AllocError> {
    format!(in alloc; "{}", Printable(text))
}

/// Reports why an input is refused, as `check` reports it of a file.
fn refused(rt: &HostRuntime, said: Result<(Vec<u8>, Verdict), AllocError>) -> Ending {
    let Ok((text, verdict)) = said else {
        return no_memory(rt);
    };
    let line = str::from_utf8(&text).unwrap_or_default();
    say(rt, line.strip_suffix('\n').unwrap_or(line));
    Ending::Judged(verdict)
}
