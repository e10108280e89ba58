//! Judging many files, one after the other.

pub(crate) mod lists;

use crate::attempts::gathered;
use crate::check_rows::{HEADINGS, row_of, unread_row};
use crate::inputs::{STANDARD_INPUT, read_file, read_input, shown};
use crate::walks::{Place, files_below};
use bg_console::{Progress, allocated, print_text, say, say_of, say_why};
use bg_options::CheckFormat;
use bg_reports::{Ending, RowForm, Tally, check_text};
use bg_text::Verdict;
use std::alloc::{AllocError, Global};
use std::io;
use std::io::ErrorKind;

/// Goes through many files, prints the result of each, and counts them.
#[derive(Drop)]
pub(crate) struct Checker<'a> {
    rt: &'a HostRuntime,
    /// The columns of the screen that the standard output is, if it is one.
    columns: Option<usize>,
    /// Whether nothing is printed for good files.
    is_quiet: bool,
    /// The form of the rows, if there are rows.
    form: Option<RowForm>,
    progress: Progress,
    tally: Tally,
}

impl<'a> Checker<'a> {
    /// Creates a checker that has judged no file yet, and prints what stands above the rows of the
    /// format. `columns` is the width of the standard output, if it is a screen. If `is_quiet` is
    /// set, nothing is printed for good files.
    pub(crate) fn begin(
        rt: &'a HostRuntime,
        columns: Option<usize>,
        is_quiet: bool,
        format: CheckFormat,
        progress: Progress,
    ) -> Result<Checker<'a>, Ending> {
        if format == CheckFormat::Tsv {
            print_text(rt, HEADINGS)?;
        }
        Ok(Checker {
            rt,
            columns,
            is_quiet,
            form: form_of(format),
            progress,
            tally: Tally::default(),
        })
    }

    /// Judges the files in a folder and below it.
    pub(crate) fn check_below(&mut self, folder: &str) -> Result<(), Ending> {
        for Place { path, fault } in gathered(self.rt, files_below(self.rt, folder))? {
            let bytes = match fault {
                Some(error) => Err(error),
                None => read_file(self.rt, path.as_str()),
            };
            self.tell(path.as_str(), bytes)?;
        }
        Ok(())
    }

    /// Judges the file with this name, or the standard input.
    pub(crate) fn check(&mut self, name: &str) -> Result<(), Ending> {
        if name == STANDARD_INPUT {
            return self.tell(name, read_input(self.rt.alloc(), self.rt.reader()));
        }
        self.check_file(name)
    }

    /// Judges the file with this name.
    fn check_file(&mut self, name: &str) -> Result<(), Ending> {
        self.tell(name, read_file(self.rt, name))
    }

    /// Reports that a folder is not judged, and how its files are, and counts it.
    pub(crate) fn pass_over_folder(&mut self, name: &str) -> Result<(), Ending> {
        say_of(
            self.rt,
            name,
            " is a folder: --recursive judges the files in it",
        );
        self.pass_over();
        self.print_unread(name, &io::Error::from(ErrorKind::IsADirectory))
    }

    /// Prints the result of a file with these bytes, or reports why it could not be read.
    fn tell(&mut self, name: &str, bytes: io::Result<Vec<u8>>) -> Result<(), Ending> {
        let told = match bytes {
            Ok(bytes) => self.judge(name, &bytes),
            Err(error) => {
                say_why(self.rt, name, " could not be read", &error);
                self.pass_over();
                self.print_unread(name, &error)
            }
        };
        told?;
        let files = self.tally.files();
        self.progress
            .tell_of(self.rt, format_args!("{files} files are done"));
        Ok(())
    }

    /// Prints the row of a file that could not be read, in the formats for programs.
    fn print_unread(&self, name: &str, error: &io::Error) -> Result<(), Ending> {
        let Some(form) = self.form else {
            return Ok(());
        };
        let row = allocated(self.rt, unread_row(self.rt.alloc(), form, name, error))?;
        print_text(self.rt, &row)
    }

    /// Judges a file with these bytes, and prints the result.
    fn judge(&mut self, name: &str, bytes: &[u8]) -> Result<(), Ending> {
        let Ok((text, is_good)) = self.result(name, bytes) else {
            say_of(self.rt, name, " could not be judged: out of memory");
            self.pass_over();
            return Ok(());
        };
        let number = if is_good {
            &mut self.tally.good
        } else {
            &mut self.tally.refused
        };
        *number = number.saturating_add(1);
        if is_good && self.is_quiet {
            Ok(())
        } else {
            print_text(self.rt, &text)
        }
    }

    /// Returns the result of a file with this name, and whether it is good.
    fn result(&self, name: &str, bytes: &[u8]) -> Result<(Vec<u8>, bool), AllocError> {
        let alloc = self.rt.alloc();
        match self.form {
            None => report_on(alloc, name, bytes, self.columns),
            Some(form) => row_of(alloc, form, name, bytes),
        }
    }

    /// Counts a file that is not judged, after the reason was reported.
    fn pass_over(&mut self) {
        self.tally.unjudged = self.tally.unjudged.saturating_add(1);
    }

    /// Reports the numbers of files that were good and that were not.
    pub(crate) fn end(self) -> Ending {
        say(self.rt, self.tally);
        Ending::Checked(self.tally.worst())
    }
}

/// Returns the form of rows in a format, if it has rows.
fn form_of(format: CheckFormat) -> Option<RowForm> {
    match format {
        CheckFormat::Text => None,
        CheckFormat::Tsv => Some(RowForm::Tsv),
        CheckFormat::Json => Some(RowForm::Json),
    }
}

/// Returns the report on a file with this name, and whether it is good.
fn report_on(
    alloc: Global,
    name: &str,
    bytes: &[u8],
    columns: Option<usize>,
) -> Result<(Vec<u8>, bool), AllocError> {
    let name = shown(alloc, name)?;
    let (text, verdict) = check_text(alloc, name.as_str(), bytes, columns)?;
    Ok((text, matches!(verdict, Verdict::Fine(_))))
}
