//! Output of a growing record.
ghost use Rattle.std.specs.Prelude.{◌≤◌, length};
ghost use Rattle.bg_match.specs.Match.{IsLegalRecord};

use crate::messages::written;
use bg_match::{Number, Record};
use bg_reports::Ending;
use bg_text::{board_text, entry_text, put_terms};
use std::io;
use std::io::Write;

/// Prints a record as a transcript, entry by entry.
#[derive(Drop)]
pub struct Telling {
    /// Number of entries that were printed, if the length line was.
    told: Option<Number>,
}

impl Telling {
    /// Creates the state in which nothing was printed yet.
    pub fn new() -> Telling {
        Telling { told: None }
    }

    /// Prints the entries that were not printed yet; the first call prints the length line before
    /// them. Returns whether there were any. Ends with `Failed`, and reports why, where they can't
    /// be printed.
    pub fn go_on<R>(&mut self, rt: &R, record: &Record) -> Result<bool, Ending>
    where
        R: Print + Eprint + AllocGlobal,
    {
        written(rt, self.print_news(rt, record))
    }

    fn print_news<R: Print + AllocGlobal>(&mut self, rt: &R, record: &Record) -> io::Result<bool> {
        let mut text = Vec::new(rt.alloc());
        let told = match self.told {
            Some(told) => told,
            None => {
                put_terms(&mut text, record.length(), record.rules())?;
                text.push(b'\n')?;
                0
            }
        };
        put_entries(&mut text, record, told)?;
        // A party that was restarted may hold less than was printed of it.
        self.told = Some(record.len().max(told));
        write_out(rt, &text)?;
        Ok(record.len() > told)
    }
}

/// Appends to a text the lines of the entries after the first `behind` ones.
///
/// # Errors
/// `OutOfMemory` where memory runs out.
pub fn put_entries(text: &mut Vec<u8>, log: &Record, behind: Number) -> io::Result<()> {
    for before in behind..log.len() {
        put_line(text, log, before + 1)?;
    }
    Ok(())
}

/// Appends the line of an entry.
fn put_line(text: &mut Vec<u8>, log: &Record, number: Number) -> io::Result<()>
    requires first { 1 ≤ number }
    requires last { number ≤ length log.now.entries }
    requires legal { IsLegalRecord log.now.terms log.now.entries }
{
    let entry = log.entry(number).unwrap();
    text.extend_from_slice(entry_text(log.by(number), entry).as_str().as_bytes())?;
    Ok(text.push(b'\n')?)
}

/// Prints the board of a record.
///
/// # Errors
/// `OutOfMemory` where there is no memory for the board, and otherwise why it can't be printed.
pub fn print_board<R: Print + AllocGlobal>(rt: &R, record: &Record) -> io::Result<()> {
    let text = board_text(rt.alloc(), &record.standing())?;
    write_out(rt, &text)
}

/// Prints a text. Ends with `Failed`, and reports why, where it can't be printed.
pub fn print_text(rt: &(impl Print + Eprint), text: &[u8]) -> Result<(), Ending> {
    written(rt, write_out(rt, text))
}

/// Prints bytes, and flushes them.
///
/// # Errors
/// Why they can't be printed.
pub fn write_out<R: Print>(rt: &R, text: &[u8]) -> io::Result<()> {
    let mut output = io::writer(rt);
    output.write_all(text)?;
    output.flush()
}
