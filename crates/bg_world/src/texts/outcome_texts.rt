//! The lines of outcomes.
ghost use Rattle.std.specs.Prelude.{◌≡◌, ◌≤◌, ◌++◌, [], length, codes};
ghost use Rattle.std.specs.Fmt.{decimal};
ghost use Rattle.bg_wire.specs.FaultWords.{wire_fault_words};
ghost use Rattle.bg_world.specs.Texts.OutcomeText.{OutcomeTextsDiffer, answer_text, cause_words, chose_text, due_text};
ghost use Rattle.bg_world.specs.Texts.OutcomeText.{entries_told, learned_text, outcome_text, took_text};

use crate::{Outcome, RestoreCause};
use arrayvec::ArrayString;
use bg_match::Number;
use bg_party::{ChooseFault, Learned};
use bg_referee::{DueFault, TakeOutcome};
use bg_text::reason_text;
use bg_wire::{Packet, WireFault};
use itoa::Buffer;

/// A line of at most 80 bytes.
type Line = ArrayString<80>;

/// Returns the line of an outcome, without a line feed (docs/FORMATS.md, "Outcome lines"). It
/// allocates nothing.
pub fn outcome_text(outcome: &Outcome) -> ArrayString<80>
    ensures { result.bytes ≡ outcome_text outcome.now }
{
    let mut line = ArrayString::new();
    put_outcome_text(&mut line, outcome);
    line
}

/// Writes the line of an outcome to a line that is empty.
pub(crate) fn put_outcome_text(line: &mut ArrayString<80>, outcome: &Outcome)
    requires empty { line.old.bytes ≡ [] }
    ensures { line.new.bytes ≡ outcome_text outcome.now }
{
    match outcome {
        Outcome::Due(result) => put_due(line, result),
        Outcome::Took(took) => put_took(line, took),
        Outcome::Learned(learned) => put_learned(line, *learned),
        Outcome::Chose(result) => put_chose(line, result),
        Outcome::Saved(number) => put_numbered(line, "saved ", (*number).into()),
        Outcome::SavesSpent => line.push_str("saves spent"),
        Outcome::Sent(count) => put_numbered(line, "sent ", (*count).into()),
        Outcome::Restarted => line.push_str("restarted"),
        Outcome::NoDatagram => line.push_str("no datagram"),
        Outcome::NotAPacket(fault) => put_no_packet(line, *fault),
        Outcome::Down => line.push_str("down"),
        Outcome::NoSuchParty => line.push_str("no such party"),
        Outcome::LinkFault => line.push_str("link fault"),
        Outcome::SaveFault => line.push_str("save fault"),
        Outcome::RestoreFault(cause) => put_reasoned(line, "restore fault: ", cause_words(*cause)),
        Outcome::Memory => line.push_str("out of memory"),
    }
}

/// States that different outcomes have different lines, but for what a line leaves out. It names
/// neither the place where memory was needed, nor whether the referee or a follower had the packet
/// in hand, nor the entries of an answer.
pub fn outcome_texts_differ()
    ensures { OutcomeTextsDiffer }
{}

/// Writes words, followed by a number, to a line that is empty.
fn put_numbered(line: &mut Line, text: &str, number: u64)
    requires empty { line.old.bytes ≡ [] }
    requires text { length text.now ≤ 40 }
    ensures { line.new.bytes ≡ text.now ++ decimal number }
{
    let mut digits = Buffer::new();
    line.push_str(text);
    line.push_str(digits.format(number));
}

/// Writes words, followed by a reason, to a line that is empty.
fn put_reasoned(line: &mut Line, text: &str, reason: &str)
    requires empty { line.old.bytes ≡ [] }
    requires text { length text.now ≤ 40 }
    requires reason { length reason.now ≤ 40 }
    ensures { line.new.bytes ≡ text.now ++ reason.now }
{
    line.push_str(text);
    line.push_str(reason);
}

fn put_due(line: &mut Line, due: &Result<Number, DueFault>)
    requires empty { line.old.bytes ≡ [] }
    ensures { line.new.bytes ≡ due_text due.now }
{
    match due {
        Ok(number) => put_numbered(line, "entry ", (*number).into()),
        Err(DueFault::NothingDue) => line.push_str("due refused: nothing due"),
        Err(DueFault::WordRefused) => line.push_str("due refused: word refused"),
        Err(DueFault::EqualOpening) => line.push_str("due refused: equal opening"),
        Err(DueFault::RecordFull) => line.push_str("due refused: record full"),
        Err(DueFault::Memory) => line.push_str("out of memory"),
    }
}

fn put_took(line: &mut Line, took: &TakeOutcome)
    requires empty { line.old.bytes ≡ [] }
    ensures { line.new.bytes ≡ took_text took.now }
{
    match took {
        TakeOutcome::OtherMatch => line.push_str("other match"),
        TakeOutcome::Nothing => line.push_str("nothing"),
        TakeOutcome::Answer(to, packet) => put_answer(line, *to, packet),
        TakeOutcome::Ahead => line.push_str("ahead"),
        TakeOutcome::NotYourTurn => line.push_str("not your turn"),
        TakeOutcome::WordRefused => line.push_str("word refused"),
        TakeOutcome::Illegal(fault) => put_reasoned(line, "illegal: ", reason_text(fault).as_str()),
        TakeOutcome::Memory => line.push_str("out of memory"),
        TakeOutcome::Accepted(number) => put_numbered(line, "accepted ", (*number).into()),
    }
}

/// Returns the numbers of the first and of the last entry that a packet tells.
fn told(packet: &Packet) -> Option<(Number, u64)>
    ensures { result ≡ entries_told packet.now }
{
    match packet {
        Packet::Entries { start, list, .. } => {
            let next = u64::from(*start) + list.entries.len() as u64;
            Some((*start, next.saturating_sub(1)))
        }
        Packet::Want { .. } | Packet::Claim { .. } => None,
    }
}

fn put_answer(line: &mut Line, to: u8, packet: &Packet)
    requires empty { line.old.bytes ≡ [] }
    ensures { line.new.bytes ≡ answer_text to (entries_told packet.now) }
{
    let mut digits = Buffer::new();
    line.push_str("answer to ");
    line.push_str(digits.format(to));
    match told(packet) {
        Some((first, last)) => {
            let mut first_digits = Buffer::new();
            let mut last_digits = Buffer::new();
            line.push_str(": entries ");
            line.push_str(first_digits.format(first));
            line.push_str(" to ");
            line.push_str(last_digits.format(last));
        }
        None => line.push_str(": no entries"),
    }
}

fn put_learned(line: &mut Line, learned: Learned)
    requires empty { line.old.bytes ≡ [] }
    ensures { line.new.bytes ≡ learned_text learned }
{
    match learned {
        Learned::OtherMatch => line.push_str("other match"),
        Learned::Nothing => line.push_str("nothing"),
        Learned::Conflict(number) => put_numbered(line, "conflict ", number.into()),
        Learned::Gap => line.push_str("gap"),
        Learned::Illegal(number) => put_numbered(line, "illegal entry ", number.into()),
        Learned::Memory => line.push_str("out of memory"),
        Learned::Grew(count) => put_numbered(line, "learned ", count.into()),
    }
}

fn put_chose(line: &mut Line, chose: &Result<Number, ChooseFault>)
    requires empty { line.old.bytes ≡ [] }
    ensures { line.new.bytes ≡ chose_text chose.now }
{
    match chose {
        Ok(number) => put_numbered(line, "claimed ", (*number).into()),
        Err(ChooseFault::NotYourTurn) => line.push_str("claim refused: not your turn"),
        Err(ChooseFault::AlreadyClaimed) => line.push_str("claim refused: already claimed"),
        Err(ChooseFault::Illegal(fault)) => {
            put_reasoned(line, "claim refused: ", reason_text(fault).as_str())
        }
    }
}

fn put_no_packet(line: &mut Line, fault: WireFault)
    requires empty { line.old.bytes ≡ [] }
    ensures { line.new.bytes ≡ codes "no packet: " ++ wire_fault_words fault }
{
    let (words, number) = fault.words();
    put_reasoned(line, "no packet: ", words);
    if let Some(number) = number {
        let mut digits = Buffer::new();
        line.push_str(digits.format(number));
    }
}

/// Returns the reason why nothing is restored, in words.
fn cause_words(cause: RestoreCause) -> &'static str
    ensures words { result.now ≡ cause_words cause }
    ensures fits { length result.now ≤ 11 }
{
    match cause {
        RestoreCause::Device => "device",
        RestoreCause::Damaged => "damaged",
        RestoreCause::WrongMatch => "wrong match",
    }
}
