//! The reasons for refusing an entry, in words.
ghost use Rattle.std.specs.Prelude.{◌≡◌, ◌≤◌, length};
ghost use Rattle.bg_text.specs.Judge.Reason.{reason, turn_reason, no_double_reason};

use arrayvec::ArrayString;
use bg_match::{EntryFault, NoDouble};
use bg_turns::TurnFault;
use itoa::Buffer;

/// Returns the reason why an entry is refused, as it is printed (docs/FORMATS.md, "Refusals"). A
/// step that can't be played is named by its place in the turn, counted from 1.
pub fn reason_text(fault: &EntryFault) -> ArrayString<40>
    ensures { result.bytes ≡ reason fault.now }
{
    let mut text = ArrayString::new();
    match *fault {
        EntryFault::RecordFull => text.push_str("record full"),
        EntryFault::MatchOver => text.push_str("match over"),
        EntryFault::WrongPhase => text.push_str("wrong phase"),
        EntryFault::EqualOpening => text.push_str("equal opening"),
        EntryFault::Turn(fault) => return turn_reason_text(fault),
        EntryFault::NoDouble(fault) => text.push_str(no_double_words(fault)),
        EntryFault::Memory => text.push_str("out of memory"),
    }
    text
}

fn turn_reason_text(fault: TurnFault) -> ArrayString<40>
    ensures { result.bytes ≡ turn_reason fault }
{
    let mut text = ArrayString::new();
    match fault {
        TurnFault::StepIllegal(played) => {
            let mut digits = Buffer::new();
            text.push_str("step ");
            text.push_str(digits.format(u16::from(played) + 1));
            text.push_str(" illegal");
        }
        TurnFault::MoreCanBePlayed => text.push_str("more can be played"),
        TurnFault::LargerMustBePlayed => text.push_str("larger die must be played"),
    }
    text
}

fn no_double_words(fault: NoDouble) -> &'static str
    ensures words { result.now ≡ no_double_reason fault }
    ensures fits { length result.now ≤ 20 }
{
    match fault {
        NoDouble::Crawford => "no double: crawford",
        NoDouble::NotOwner => "no double: not owner",
        NoDouble::AtCap => "no double: at cap",
    }
}
