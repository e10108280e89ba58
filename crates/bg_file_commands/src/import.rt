//! The command that imports match files of other programs.

use crate::batches::{Conversion, convert_all, put_file};
use crate::header_files::header_lines;
use crate::inputs::{check_name, match_file_text, standard_input};
use crate::outputs::print_told;
use bg_console::Progress;
use bg_options::ImportOptions;
use bg_reports::Ending;

/// The name of a match file on the standard input, in messages.
const MATCH_FILE: &str = "the match file";

/// Prints the transcript of the match file on the standard input, or writes those of the named
/// files into a folder.
pub fn run(
    rt: &HostRuntime,
    options: ImportOptions<'_, '_>,
    progress: Progress,
) -> Result<Ending, Ending> {
    if let Some(batch) = options.batch {
        return convert_all(rt, Conversion::Import(options.rules), batch, progress);
    }
    if let Some(path) = options.headers {
        check_name(rt, path)?;
    }
    let bytes = standard_input(rt)?;
    let text = match_file_text(rt, MATCH_FILE, options.rules, &bytes)?;
    if let Some(path) = options.headers {
        put_file(rt, path, &header_lines(rt, "", &bytes)?, options.is_forced)?;
    }
    print_told(rt, &text)
}
