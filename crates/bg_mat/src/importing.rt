//! A match file read as a record.
ghost use Rattle.std.specs.Prelude.{◌≡◌, ◌≢◌, ◌+◌, ◌<◌, ◌≤◌, ◌↔◌, ℕ, None, Err, IfOk, IfErr, IsOk, length};
ghost use Rattle.bg_mat.specs.Telling.{Game};
ghost use Rattle.bg_match.specs.Match.{IsLog, empty_log};
ghost use Rattle.bg_match.specs.Terms.{terms_of};
ghost use Rattle.bg_mat.specs.Files.{EndsFile, Imports, ReadsFile, lines_in};
ghost use Rattle.bg_mat.specs.Rows.Headings.{IsGameLine, IsLengthLine};
ghost use Rattle.bg_text.specs.Judge.Judging.{lines_of};
ghost use Rattle.bg_text.specs.Limits.{most_bytes};
ghost use Rattle.bg_mat.specs.Replaying.{IsReplay};
ghost use Rattle.bg_mat.specs.Reading.{AddsLine, EndsGames, ReadsGames};
ghost use Rattle.bg_mat.specs.Refusals.{AreRefusedGames, IsBeginFault, IsReadFault, IsRefusal};
ghost use Rattle.bg_mat.specs.Refusals.{IsRefusedItem, IsRefusedLine, Refuses};

mod row_cells;

use crate::awaiting::{Awaited, is_within_game};
use crate::faults::{ReadFault, refused};
use crate::importing::row_cells::add_row;
use crate::marks::behind_mark;
use crate::playing::Replay;
use crate::rows::crawford::{has_crawford, takes_away};
use crate::rows::headings::{is_filler, is_header, read_game, read_length};
use crate::rows::read_row;
use crate::{ImportFault, MatFault};
use bg_match::{LONGEST_MATCH, LengthFault, Record, Rules};
use bg_text::{MAX_INPUT, split_line};
use std::alloc::Global;

/// A match file as a record.
#[derive(Debug, Drop)]
pub struct Imported {
    /// The match.
    pub record: Record,
    /// For each entry, in order, the line of the file that it comes from, counted from 1.
    pub lines: Vec<u32>,
    /// Whether the file ends within a game: no row of a win ends its last game. If the match isn't
    /// over either, the file was cut, or the game is still being played.
    pub within_game: bool,
}

/// Reads a match file as the record of the match with this number, by these rules. X has the left
/// column (docs/FORMATS.md, "Match files of other programs").
///
/// # Errors
/// `TooLong` where the file has more than 41943040 bytes. `Refused` with the first line that is
/// refused, and why. `Memory` where memory runs out.
///
/// The line that is refused has content: it is neither blank nor a comment, except for a header
/// that takes the Crawford game away. Where no line has content, its number is one more than the
/// number of lines.
pub fn import_mat(
    alloc: Global,
    id: u64,
    rules: Rules,
    input: &[u8],
) -> Result<Imported, ImportFault>
    ensures imports { IfOk result
        (λ imported. Imports id rules input.now imported.record imported.lines.items) }
    ensures ends { IfOk result (λ imported. EndsFile (lines_in input.now) imported.within_game) }
    ensures too_long { (result ≡ Err ImportFault.TooLong) ↔ (most_bytes < length input.now) }
    ensures refused { IfErr result (IsRefusal id rules (lines_in input.now)) }
{
    if input.len() > MAX_INPUT {
        return Err(ImportFault::TooLong);
    }
    match read_file(alloc, id, rules, behind_mark(input)) {
        Ok(imported) => Ok(imported),
        Err(ReadFault::Refused { line, why }) => Err(ImportFault::Refused { line, why }),
        Err(ReadFault::Memory) => Err(ImportFault::Memory),
    }
}

/// Reads the record of a match file that is not too long.
fn read_file(alloc: Global, id: u64, rules: Rules, input: &[u8]) -> Result<Imported, ReadFault>
    requires { length input.now ≤ most_bytes }
    ensures done { IfOk result (λ imported. ReadsFile id rules (lines_of input.now) imported.record imported.lines.items) }
    ensures ends { IfOk result (λ imported. EndsFile (lines_of input.now) imported.within_game) }
    ensures fault { IfErr result (IsReadFault id rules (lines_of input.now)) }
{
    let crawford = has_crawford(input);
    let mut rest = input;
    let mut number: u32 = 1;
    while let Some((line, after)) = split_line(rest) {
        if !is_header(line) {
            let record = begin(alloc, id, rules, line, number)?;
            return read_games(Replay::new(alloc, record), after, number + 1);
        }
        if takes_away(crawford, line) {
            return Err(refused(number, MatFault::NoCrawford));
        }
        rest = after;
        number += 1;
    }
    Err(refused(number, MatFault::NoLength))
}

/// Creates the record of a match with the length that a line states.
fn begin(
    alloc: Global,
    id: u64,
    rules: Rules,
    line: &[u8],
    number: u32,
) -> Result<Record, ReadFault>
    ensures done { IfOk result (λ log. IsLog log
        × ((points : ℕ) × IsLengthLine line.now points × (log ≡ empty_log id (terms_of points rules)))) }
    ensures fault { IfErr result (IsBeginFault line.now number) }
{
    let Some(points) = read_length(line) else {
        return Err(refused(number, MatFault::NoLength));
    };
    if points == 0 {
        return Err(refused(number, MatFault::Money));
    }
    if points > u16::from(LONGEST_MATCH) {
        return Err(refused(number, MatFault::LengthOutOfRange));
    }
    match Record::new(alloc, id, points as u8, rules) {
        Ok(record) => Ok(record),
        Err(LengthFault::LengthOutOfRange) => Err(refused(number, MatFault::LengthOutOfRange)),
    }
}

/// Reads the lines of games, from the line with this number on.
fn read_games(start: Replay, input: &[u8], first: u32) -> Result<Imported, ReadFault>
    requires replay { IsReplay start }
    requires none { start.pending ≡ None }
    requires few { first + length input.now < 4294967296 }
    ensures done { IfOk result (λ imported.
        ReadsGames start first (lines_of input.now) imported.record imported.lines.items) }
    ensures ends { IfOk result (λ imported. EndsGames first (lines_of input.now) imported.within_game) }
    ensures fault { IfErr result (Refuses (AreRefusedGames start first (lines_of input.now))) }
{
    let mut replay = start;
    let mut awaited = Awaited::Game;
    let mut rest = input;
    let mut number = first;
    while let Some((line, after)) = split_line(rest) {
        if !is_filler(line) {
            awaited = read_line(&mut replay, awaited, line, number)?;
        }
        rest = after;
        number += 1;
    }
    replay.finish()?;
    Ok(Imported {
        record: replay.log,
        lines: replay.lines,
        within_game: is_within_game(awaited),
    })
}

/// Checks the scores before a game, and returns what may follow.
fn add_scores(replay: &mut Replay, line: &[u8], number: u32) -> Result<Awaited, ReadFault>
    requires replay { IsReplay replay.old }
    requires closed { replay.old.pending ≡ None }
    ensures done { IfOk result (AddsLine Awaited.Scores line.now number replay.old replay.new) }
    ensures next { IfOk result (λ next. next ≡ Awaited.Row) }
    ensures fault { IfErr result (Refuses (IsRefusedLine Awaited.Scores replay.old line.now number)) }
{
    replay.tell_scores(number, line)?;
    Ok(Awaited::Row)
}

/// Begins a game where a line says so, and returns what may follow.
fn add_game(replay: &mut Replay, game: u16, line: &[u8], number: u32) -> Result<Awaited, ReadFault>
    requires replay { IsReplay replay.old }
    requires line { IsGameLine line.now game }
    ensures done { IfOk result (AddsLine Awaited.Game line.now number replay.old replay.new) }
    ensures closed { IsOk result → replay.new.pending ≡ None }
    ensures fault { IfErr result (Refuses (IsRefusedItem replay.old number (Game game))) }
{
    replay.begin_game(number, game)?;
    Ok(Awaited::Scores)
}

/// Adds what a line says where a game is awaited, and returns what may follow.
fn add_heading(replay: &mut Replay, line: &[u8], number: u32) -> Result<Awaited, ReadFault>
    requires { IsReplay replay.old }
    ensures done { IfOk result (AddsLine Awaited.Game line.now number replay.old replay.new) }
    ensures closed { IsOk result → replay.new.pending ≡ None }
    ensures fault { IfErr result (Refuses (IsRefusedLine Awaited.Game replay.old line.now number)) }
{
    match read_game(line) {
        Some(game) => add_game(replay, game, line, number),
        None => Err(refused(number, MatFault::NotALine)),
    }
}

/// Adds what a line says where a row or the next game is awaited, and returns what may follow.
fn add_row_line(replay: &mut Replay, line: &[u8], number: u32) -> Result<Awaited, ReadFault>
    requires replay { IsReplay replay.old }
    requires row { (n : ℕ) → IsGameLine line.now n → ⊥ }
    ensures done { IfOk result (AddsLine Awaited.Row line.now number replay.old replay.new) }
    ensures next { IfOk result (λ next. next ≢ Awaited.Scores) }
    ensures fault { IfErr result (Refuses (IsRefusedLine Awaited.Row replay.old line.now number)) }
{
    match read_row(line) {
        Ok(row) => add_row(replay, row, number),
        Err(why) => Err(refused(number, why)),
    }
}

/// Adds what a line says, and returns what may follow.
fn read_line(
    replay: &mut Replay,
    awaited: Awaited,
    line: &[u8],
    number: u32,
) -> Result<Awaited, ReadFault>
    requires replay { IsReplay replay.old }
    requires closed { awaited ≡ Awaited.Scores → replay.old.pending ≡ None }
    ensures done { IfOk result (AddsLine awaited line.now number replay.old replay.new) }
    ensures closed { IfOk result (λ next. next ≡ Awaited.Scores → replay.new.pending ≡ None) }
    ensures fault { IfErr result (Refuses (IsRefusedLine awaited replay.old line.now number)) }
{
    match awaited {
        Awaited::Scores => add_scores(replay, line, number),
        Awaited::Game => add_heading(replay, line, number),
        Awaited::Row => match read_game(line) {
            Some(game) => add_game(replay, game, line, number),
            None => add_row_line(replay, line, number),
        },
    }
}
