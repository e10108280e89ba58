//! Escaping foreign texts, so that they can't break a terminal.

use std::fmt;
use std::fmt::{Display, Formatter, Write};

/// The name of a file or a folder as messages show it. What can't be printed is escaped: a line
/// feed as `\n`, a terminal's escape character as `\u{1b}`. A backslash and a double quote are
/// preceded by a backslash.
#[derive(Clone, Copy)]
pub struct Printable<'a>(pub &'a str);

impl<'a> Display for Printable<'a> {
    fn fmt<W: Write>(&self, f: &mut Formatter<W>) -> fmt::Result {
        for (index, part) in self.0.split('\'').enumerate() {
            if index > 0 {
                f.write_str("'")?;
            }
            write!(f, "{}", part.escape_debug())?;
        }
        Ok(())
    }
}

/// Lines, each of which is escaped as a name is.
#[derive(Clone, Copy)]
pub struct PrintableLines<'a>(pub &'a str);

impl<'a> Display for PrintableLines<'a> {
    fn fmt<W: Write>(&self, f: &mut Formatter<W>) -> fmt::Result {
        for (index, line) in self.0.split('\n').enumerate() {
            if index > 0 {
                f.write_str("\n")?;
            }
            write!(f, "{}", Printable(line))?;
        }
        Ok(())
    }
}
