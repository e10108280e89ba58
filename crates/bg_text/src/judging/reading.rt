//! Reading a transcript: its longest legal part, as a record.
ghost use Rattle.std.specs.Prelude.{◌≡◌, ◌↔◌, ℕ, Ok, IsTrue, OnOk, OnErr, IfOk, IfErr};
ghost use Rattle.bg_match.specs.Limits.{IsMatchLength};
ghost use Rattle.bg_match.specs.Terms.{match_length};
ghost use Rattle.bg_match.specs.declared.entries.Entry.{Entry};
ghost use Rattle.bg_text.specs.Judge.Judging.{lines_of, IsWrongSeat, IsLineFault};
ghost use Rattle.bg_text.specs.Judge.Reading.{IsReadAs, IsLineAt, AddsLine, RefusesLine, AreRead};
ghost use Rattle.bg_text.specs.Judge.Transcripts.{IsReadOf, IsUnread, ReadsTranscript, RefusesTranscript};

use crate::entries::lines::parse_entry;
use crate::faults::{LineFault, TranscriptFault};
use crate::inputs::{MAX_INPUT, split_line};
use crate::judging::length_lines::read_terms;
use bg_board::Player;
use bg_match::{Entry, EntryFault, Record, Standing, Terms};
use std::alloc::{AllocError, Global};

/// Returns whether a line names a seat where the other seat must act.
pub(crate) fn is_wrong_seat(seat: Option<Player>, standing: &Standing) -> bool
    ensures { IsTrue result ↔ IsWrongSeat seat standing.now }
{
    match (seat, standing.actor().seat()) {
        (Some(named), Some(acting)) => named != acting,
        _ => false,
    }
}

/// Reads the entry of a line, unless it names the wrong seat.
fn read_line(standing: &Standing, line: &[u8]) -> Result<Entry, LineFault>
    ensures found { IfOk result (IsReadAs standing.now line.now) }
    ensures only { (entry : Entry) → IsLineAt standing.now line.now entry → result ≡ Ok entry }
    ensures fault { IfErr result (λ why. (entries : ℕ) → IsLineFault why entries standing.now line.now) }
{
    let (seat, entry) = parse_entry(line).map_err(LineFault::Text)?;
    if is_wrong_seat(seat, standing) {
        return Err(LineFault::WrongPlayer);
    }
    Ok(entry)
}

/// The reason why a line was not appended.
#[derive(Drop)]
enum AddFault {
    Refused(LineFault),
    Memory,
}

impl From<LineFault> for AddFault {
    ghost use Rattle.std.specs.Prelude.{◌≡◌};
    ghost use Rattle.bg_text.specs.declared.judging.reading.AddFault.TheVariants.{Refused};

    ghost from_gives = { λ why fault. fault ≡ Refused why };

    fn from(why: LineFault) -> AddFault {
        AddFault::Refused(why)
    }
}

impl From<EntryFault> for AddFault {
    ghost use Rattle.std.specs.Prelude.{◌≡◌};
    ghost use Rattle.bg_text.specs.Judge.Reading.{fault_of_push};

    ghost from_gives = { λ why fault. fault ≡ fault_of_push why };

    fn from(why: EntryFault) -> AddFault {
        match why {
            EntryFault::Memory => AddFault::Memory,
            why => AddFault::Refused(LineFault::Entry(why)),
        }
    }
}

/// Appends the entry of a line.
fn add_line(log: &mut Record, line: &[u8]) -> Result<(), AddFault>
    ensures added { OnOk result (AddsLine log.old log.new line.now) }
    ensures fault { IfErr result (λ fault. RefusesLine fault log.old line.now) }
    ensures err { OnErr result (log.new ≡ log.old) }
{
    let entry = read_line(&log.standing(), line)?;
    log.push(entry)?;
    Ok(())
}

/// Reads the lines after line 1 of a match on these terms. Returns the record of the longest legal
/// part, and why the line behind it is refused, if there is one.
fn read_lines(
    alloc: Global,
    id: u64,
    terms: Terms,
    lines: &[u8],
) -> Result<(Record, Option<LineFault>), AllocError>
    requires { IsMatchLength (match_length terms) }
    ensures { IfOk result (λ read. AreRead id terms (lines_of lines.now) read.0 read.1) }
{
    let mut log = Record::new(alloc, id, terms.length, terms.rules).unwrap();
    let mut rest = lines;
    while let Some((line, after)) = split_line(rest) {
        match add_line(&mut log, line) {
            Ok(()) => rest = after,
            Err(AddFault::Refused(why)) => return Ok((log, Some(why))),
            Err(AddFault::Memory) => return Err(AllocError),
        }
    }
    Ok((log, None))
}

/// The reason why no line behind line 1 is read.
#[derive(Drop)]
pub(crate) enum ReadFault {
    /// The input is longer than the limit.
    TooLong,
    /// Line 1 is refused.
    LengthLine(LineFault),
    /// There is no memory for the record.
    Memory,
}

impl From<ReadFault> for TranscriptFault {
    ghost use Rattle.std.specs.Prelude.{◌≡◌};
    ghost use Rattle.bg_text.specs.Judge.Transcripts.{fault_of_read};

    ghost from_gives = { λ why fault. fault ≡ fault_of_read why };

    fn from(why: ReadFault) -> TranscriptFault {
        match why {
            ReadFault::TooLong => TranscriptFault::TooLong,
            ReadFault::LengthLine(why) => TranscriptFault::Refused { line: 1, why },
            ReadFault::Memory => TranscriptFault::Memory,
        }
    }
}

/// Reads an input. Returns the record of its longest legal part, and why the line behind it is
/// refused, if there is one.
pub(crate) fn read_whole(
    alloc: Global,
    id: u64,
    input: &[u8],
) -> Result<(Record, Option<LineFault>), ReadFault>
    ensures read { IfOk result (λ read. IsReadOf id input.now read.0 read.1) }
    ensures unread { IfErr result (λ why. IsUnread why input.now) }
{
    if input.len() > MAX_INPUT {
        return Err(ReadFault::TooLong);
    }
    let Some((line, lines)) = split_line(input) else {
        return Err(ReadFault::LengthLine(LineFault::NotALengthLine));
    };
    let terms = read_terms(line).map_err(ReadFault::LengthLine)?;
    read_lines(alloc, id, terms, lines).map_err(|_| ReadFault::Memory)
}

/// Returns the record of a transcript that the judge finds fine, as the match with this number
/// (docs/FORMATS.md, "Transcripts").
///
/// # Errors
/// `Refused` with the line and the reason, or `TooLong`, exactly where the judge says so; `Memory`
/// where memory runs out.
pub fn read_transcript(alloc: Global, id: u64, input: &[u8]) -> Result<Record, TranscriptFault>
    ensures read { IfOk result (ReadsTranscript id input.now) }
    ensures refused { IfErr result (λ why. RefusesTranscript why input.now) }
{
    let (log, refusal) = read_whole(alloc, id, input)?;
    match refusal {
        None => Ok(log),
        Some(why) => {
            let line = log.len() + 2;
            Err(TranscriptFault::Refused { line, why })
        }
    }
}
