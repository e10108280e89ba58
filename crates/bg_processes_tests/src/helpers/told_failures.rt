//! What devices noted, as lines of words.

use crate::checks::check;
use crate::helpers::lasting::{lasting, lasting_text};
use bg_system::Failures;
use std::alloc::AllocError;
use std::process::Abort;

/// What devices note of their failures, for as long as the process runs.
pub(crate) fn failures<'a>(rt: &(impl AllocGlobal + Abort)) -> &'a Failures {
    lasting(rt, Failures::new())
}

fn write_lines(text: &mut String, failures: &Failures, folder: &str) -> Result<(), AllocError> {
    for failure in failures.drain() {
        writeln!(text, "{}", failure.in_folder(folder))?;
    }
    Ok(())
}

/// Takes the failures out: a line for each, of devices over this folder.
pub(crate) fn told(
    rt: &(impl AllocGlobal + Abort),
    failures: &Failures,
    folder: &str,
) -> &'static str {
    let mut text = String::new(rt.alloc());
    write_lines(&mut text, failures, folder).expect(rt, "memory for lines");
    lasting_text(rt, text)
}

/// Takes the failures out, of devices over this folder: they are told by these lines.
pub(crate) fn check_told(
    rt: &(impl AllocGlobal + Abort),
    failures: &Failures,
    folder: &str,
    lines: &str,
) {
    let said = told(rt, failures, folder);
    check(rt, said == lines, said);
}
