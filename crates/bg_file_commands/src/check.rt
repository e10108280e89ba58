//! The command that judges many files.

use crate::checkers::Checker;
use crate::checkers::lists::unread_list;
use crate::inputs::{STANDARD_INPUT, check_name};
use crate::walks::is_folder;
use bg_console::{Progress, wrong};
use bg_options::CheckOptions;
use bg_reports::Ending;
use std::fs::File;

/// Judges the files that the options name. `columns` is the width of the standard output, if it is
/// a screen.
pub fn run(
    rt: &HostRuntime,
    options: CheckOptions<'_, '_>,
    columns: Option<usize>,
    progress: Progress,
) -> Result<Ending, Ending> {
    check_names(rt, options.files, options.list)?;
    let CheckOptions {
        is_quiet,
        format,
        ..
    } = options;
    let mut checker = Checker::begin(rt, columns, is_quiet, format, progress)?;
    check_files(rt, &mut checker, &options)?;
    Ok(checker.end())
}

/// Judges the files that the options name, and then those of their list.
fn check_files(
    rt: &HostRuntime,
    checker: &mut Checker<'_>,
    options: &CheckOptions<'_, '_>,
) -> Result<(), Ending> {
    for name in options.files {
        let checked = if !is_folder(rt, name) {
            checker.check(name)
        } else if options.is_recursive {
            checker.check_below(name)
        } else {
            checker.pass_over_folder(name)
        };
        checked?;
    }
    match options.list {
        Some(list) => check_list(rt, checker, list),
        None => Ok(()),
    }
}

/// Judges the files that a list names.
fn check_list(rt: &HostRuntime, checker: &mut Checker<'_>, list: &str) -> Result<(), Ending> {
    if list == STANDARD_INPUT {
        return checker.check_list(rt.reader());
    }
    match File::open(rt, list) {
        Ok(file) => checker.check_list(file),
        Err(error) => Err(unread_list(rt, &error)),
    }
}

/// Refuses an empty file name, and two uses of the standard input.
fn check_names(rt: &HostRuntime, files: &[&str], list: Option<&str>) -> Result<(), Ending> {
    let mut inputs: usize = 0;
    if let Some(list) = list {
        check_name(rt, list)?;
        inputs = usize::from(list == STANDARD_INPUT);
    }
    for name in files {
        check_name(rt, name)?;
        inputs = inputs.saturating_add(usize::from(*name == STANDARD_INPUT));
    }
    if inputs > 1 {
        return Err(wrong(rt, "the standard input can be read only once: name - once"));
    }
    Ok(())
}
