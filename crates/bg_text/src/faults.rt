//! The reasons why a line can't be read, or can't follow.
ghost use Rattle.std.specs.Prelude.{◌≡◌};
ghost use Rattle.bg_text.specs.Judge.Judging.{fault_reason};
ghost use Rattle.bg_text.specs.Judge.Reason.{text_reason};

use crate::judging::reasons::reason_text;
use arrayvec::ArrayString;
use bg_match::EntryFault;
use std::fmt;

/// The first of three tests that a line fails, so that it is not the text of an entry or an action
/// (docs/FORMATS.md, "Entry lines").
#[derive(Clone, Copy, Debug, PartialEq, Eq)]
pub enum TextFault {
    /// The line has none of the shapes of a line.
    NotALine,
    /// The line has its shape, but a number has a leading zero or is out of its range, or a step
    /// does not lead down. The range is 1 to 6 for a die, and 1 to 24 for a point.
    BadNumber,
    /// The line has its shape and its numbers are right, but there are more than four steps.
    TooManySteps,
}

impl TextFault {
    ghost use Rattle.std.specs.Prelude.{◌≤◌, length};

    /// Returns the fault in words, as it is printed (docs/FORMATS.md, "Refusals").
    pub fn reason(self) -> &'static str
        ensures words { result.now ≡ text_reason self }
        ensures fits { length result.now ≤ 14 }
    {
        match self {
            TextFault::NotALine => "not a line",
            TextFault::BadNumber => "bad number",
            TextFault::TooManySteps => "too many steps",
        }
    }
}

impl fmt::Display for TextFault {
    ghost use Rattle.std.specs.Prelude.{Some};
    ghost use Rattle.bg_text.specs.Judge.Reason.{text_reason};

    ghost output = { λ fault. Some (text_reason fault) };

    fn fmt<W: fmt::Write>(&self, f: &mut fmt::Formatter<W>) -> fmt::Result {
        f.write_str(self.reason())
    }
}

impl std::error::Error for TextFault {}

/// The reason why a line of a transcript is refused (docs/FORMATS.md, "The judge").
#[derive(Clone, Copy, Debug, PartialEq, Eq)]
pub enum LineFault {
    /// The first line is missing, or lacks the shape of a length line.
    NotALengthLine,
    /// The length has a leading zero, or is not from 1 to 99.
    LengthOutOfRange,
    /// The line is not the text of an entry.
    Text(TextFault),
    /// The line names a seat where the other seat must act.
    WrongPlayer,
    /// The entry does not follow.
    Entry(EntryFault),
}

impl LineFault {
    /// Returns the fault in words, as it is printed (docs/FORMATS.md, "Refusals").
    pub fn reason(self) -> ArrayString<40>
        ensures { result.bytes ≡ fault_reason self }
    {
        let mut text = ArrayString::new();
        text.push_str(match self {
            LineFault::NotALengthLine => "not a length line",
            LineFault::LengthOutOfRange => "length out of range",
            LineFault::Text(fault) => fault.reason(),
            LineFault::WrongPlayer => "wrong player",
            LineFault::Entry(fault) => return reason_text(&fault),
        });
        text
    }
}

impl fmt::Display for LineFault {
    ghost use Rattle.std.specs.Prelude.{Some};
    ghost use Rattle.bg_text.specs.Judge.Judging.{fault_reason};

    ghost output = { λ fault. Some (fault_reason fault) };

    fn fmt<W: fmt::Write>(&self, f: &mut fmt::Formatter<W>) -> fmt::Result {
        f.write_str(self.reason().as_str())
    }
}

impl std::error::Error for LineFault {}

impl From<EntryFault> for LineFault {
    ghost use Rattle.std.specs.Prelude.{◌≡◌};
    ghost use Rattle.bg_text.specs.declared.faults.LineFault.TheVariants.{Entry as RefusedEntry};

    ghost from_gives = { λ why fault. fault ≡ RefusedEntry why };

    fn from(why: EntryFault) -> LineFault {
        LineFault::Entry(why)
    }
}

/// The reason why a transcript gives no record.
#[derive(Clone, Copy, Debug, PartialEq, Eq)]
pub enum TranscriptFault {
    /// The first line that is refused, counted from 1, and the reason.
    Refused { line: u32, why: LineFault },
    /// The input is longer than 41943040 bytes.
    TooLong,
    /// There is no memory for the record.
    Memory,
}

impl fmt::Display for TranscriptFault {
    ghost use Rattle.std.specs.Prelude.{Some};
    ghost use Rattle.bg_text.specs.Judge.Transcripts.{transcript_fault_words};

    ghost output = { λ fault. Some (transcript_fault_words fault) };

    fn fmt<W: fmt::Write>(&self, f: &mut fmt::Formatter<W>) -> fmt::Result {
        match self {
            TranscriptFault::Refused { line, why } => write!(f, "refused at line {line}: {why}"),
            TranscriptFault::TooLong => f.write_str("refused: input too long"),
            TranscriptFault::Memory => f.write_str("out of memory"),
        }
    }
}

impl std::error::Error for TranscriptFault {}
