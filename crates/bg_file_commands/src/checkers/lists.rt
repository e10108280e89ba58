//! Judging the files that a list names.

use crate::attempts::gathered;
use crate::checkers::Checker;
use bg_console::{allocated, failed_for, say};
use bg_reports::{Ending, MOST_SHOWN, harmless};
use std::io;
use std::io::{BufRead, BufReader, Read};

/// Number of bytes of a line in a list of files, at most: more than the name of any file has.
const MOST_NAME_BYTES: u64 = 65_536;

impl<'a> Checker<'a> {
    /// Judges the files of a list, which has one name per line.
    pub(crate) fn check_list(&mut self, list: impl Read + Drop) -> Result<(), Ending> {
        let mut list = gathered(self.rt, BufReader::new(self.rt.alloc(), list))?;
        let mut name = Vec::new(self.rt.alloc());
        for number in 1..=u64::MAX {
            if !self.check_next(&mut list, &mut name, number)? {
                break;
            }
        }
        Ok(())
    }

    /// Judges the file that the next line of a list names, which is its line `number`. Returns whether
    /// there is such a line.
    fn check_next(
        &mut self,
        list: &mut impl BufRead,
        name: &mut Vec<u8>,
        number: u64,
    ) -> Result<bool, Ending> {
        name.clear();
        match list.take(MOST_NAME_BYTES).read_until(b'\n', name) {
            Ok(0) => Ok(false),
            Ok(_) => {
                self.check_listed(name, number)?;
                Ok(true)
            }
            Err(error) => Err(unread_list(self.rt, &error)),
        }
    }

    /// Judges the file that a line of a list names, with its line feed if it has one.
    fn check_listed(&mut self, line: &[u8], number: u64) -> Result<(), Ending> {
        let name = match line.strip_suffix(b"\n") {
            Some(name) => name,
            None if (line.len() as u64) < MOST_NAME_BYTES => line,
            None => {
                say(
                    self.rt,
                    format_args!(
                        "line {number} of the list of files has more than {MOST_NAME_BYTES} bytes: give each file a line of its own"
                    ),
                );
                return Err(Ending::Failed);
            }
        };
        match str::from_utf8(name) {
            Ok("") => {
                say(
                    self.rt,
                    format_args!(
                        "line {number} of the list of files is empty: remove it, or name a file"
                    ),
                );
                self.pass_over();
            }
            Ok(name) => return self.check_file(name),
            Err(_) => self.pass_over_bytes(name)?,
        }
        Ok(())
    }

    /// Reports that a file is not judged because its name isn't text, and counts it.
    fn pass_over_bytes(&mut self, name: &[u8]) -> Result<(), Ending> {
        let shown = allocated(self.rt, harmless(self.rt.alloc(), name, MOST_SHOWN))?;
        let shown = str::from_utf8(&shown).unwrap_or_default();
        say(
            self.rt,
            format_args!("{shown} could not be read: its name is not valid UTF-8"),
        );
        self.pass_over();
        Ok(())
    }
}

/// Reports that the list of files could not be read.
pub(crate) fn unread_list(rt: &HostRuntime, error: &io::Error) -> Ending {
    failed_for(rt, "the list of files could not be read", error)
}
