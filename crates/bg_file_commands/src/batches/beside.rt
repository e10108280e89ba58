//! Headers of matches, in files beside their transcripts.

use crate::attempts::done_at;
use crate::batches::put_target;
use crate::header_files::{header_lines, read_headers};
use crate::inputs::read_file;
use bg_console::{allocated, wrong};
use bg_options::{BatchOptions, HeaderOptions};
use bg_reports::Ending;
use std::io::ErrorKind;

/// The end of the name of a file with headers.
const ENDING: &str = ".headers";

/// Writes what a match file with this name and these bytes says above its match into a file of the
/// batch, if it says anything. Reports the first text that is malformed.
pub(super) fn keep_headers(
    rt: &HostRuntime,
    batch: &BatchOptions<'_, '_>,
    name: &str,
    bytes: &[u8],
) -> Result<(), Ending> {
    let text = header_lines(rt, name, bytes)?;
    if text.is_empty() {
        return Ok(());
    }
    put_target(rt, batch, name, (".mat", ENDING), &text)
}

/// Returns the bytes of the file of headers beside a transcript with this name; none where there is
/// no such file.
pub(super) fn bytes_beside(rt: &HostRuntime, name: &str) -> Result<Vec<u8>, Ending> {
    let alloc = rt.alloc();
    let stem = name.strip_suffix(".txt").unwrap_or(name);
    let path = allocated(rt, format!(in alloc; "{stem}{ENDING}"))?;
    let bytes = match read_file(rt, path.as_str()) {
        Err(error) if error.kind() == ErrorKind::NotFound => Ok(Vec::new(alloc)),
        read => read,
    };
    done_at(rt, path.as_str(), " could not be read", bytes)
}

/// Returns the headers of the bytes of the file beside a transcript with this name, as it is
/// printed. Reports the first line that is no header.
pub(super) fn headers_beside<'b>(
    rt: &HostRuntime,
    name: &str,
    bytes: &'b [u8],
) -> Result<HeaderOptions<'b>, Ending> {
    match read_headers(bytes) {
        Ok(headers) => Ok(headers),
        Err(line) => Err(wrong(
            rt,
            format_args!(
                "{name}: line {line} of the headers beside it is invalid: it was not exported"
            ),
        )),
    }
}
