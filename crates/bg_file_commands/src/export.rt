//! The command that writes matches for other programs.

use crate::batches::{Conversion, convert_all};
use crate::inputs::{TRANSCRIPT, standard_input, transcript_as_match_file};
use crate::outputs::print_told;
use bg_console::{Progress, wrong};
use bg_options::{ExportOptions, HeaderOptions};
use bg_reports::Ending;

/// Prints the match file of the transcript on the standard input, or writes those of the named
/// files into a folder.
pub fn run(
    rt: &HostRuntime,
    options: ExportOptions<'_, '_>,
    progress: Progress,
) -> Result<Ending, Ending> {
    check_first_name(rt, &options.headers)?;
    if let Some(batch) = options.batch {
        return convert_all(rt, Conversion::Export(options.headers), batch, progress);
    }
    let bytes = standard_input(rt)?;
    let text = transcript_as_match_file(rt, TRANSCRIPT, &options.headers, &bytes)?;
    print_told(rt, &text)
}

/// Refuses a name of X that begins with a semicolon, as the line that it heads would be a comment.
fn check_first_name(rt: &HostRuntime, headers: &HeaderOptions<'_>) -> Result<(), Ending> {
    match headers.x {
        Some(name) if name.starts_with(';') => Err(wrong(
            rt,
            "--x is refused: a match file takes a line that begins with a semicolon for a comment",
        )),
        _ => Ok(()),
    }
}
