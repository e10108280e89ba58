//! Entries and actions as bytes (docs/FORMATS.md, "Entries and actions in bytes").
ghost use Rattle.std.specs.Prelude.{◌≡◌, ◌+◌, ◌≤◌, ◌∷◌, ◌++◌, length};
ghost use Rattle.bg_match.specs.Entry.{IsEntry, IsAction};
ghost use Rattle.bg_wire.specs.Entries.Codes.{moved_code};
ghost use Rattle.bg_wire.specs.Entries.EntryText.{turn_bytes, level_code, dice_bytes, action_bytes, entry_bytes};

use crate::entries::codes::{
    ACCEPTED, BACKGAMMON, DOUBLED, DROPPED, GAMMON, MOST_STEPS, MOVED, NORMAL, OPENING, PASSED,
    REJECTED, RESIGNED, ROLLED, TAKEN,
};
use crate::entries::writer::Writer;
use bg_board::Die;
use bg_match::{Action, Entry, Level};
use bg_turns::Turn;

/// The greatest length in bytes of the encoding of an entry or an action: that of a move of four
/// steps.
pub(crate) const LONGEST_ENTRY: usize = 10;

/// Appends the code of a move, the number of its steps, and each step.
fn put_move<const ROOM: usize>(out: &mut Writer<ROOM>, turn: &Turn)
    requires few { length turn.now ≤ MOST_STEPS }
    requires room { length out.old + 10 ≤ ROOM }
    ensures text { out.new ≡ out.old ++ moved_code ∷ turn_bytes turn.now }
    ensures len { length out.new ≤ length out.old + 10 }
{
    let count = turn.steps().len();
    let [first, second, third, fourth] = turn.padded();
    let text = [
        MOVED,
        count as u8,
        first.from(),
        first.to(),
        second.from(),
        second.to(),
        third.from(),
        third.to(),
        fourth.from(),
        fourth.to(),
    ];
    out.put_first(&text, 2 + 2 * count);
}

fn level_code(level: Level) -> u8
    ensures { result ≡ level_code level }
{
    match level {
        Level::Normal => NORMAL,
        Level::Gammon => GAMMON,
        Level::Backgammon => BACKGAMMON,
    }
}

/// Appends a code and two dice.
fn put_dice<const ROOM: usize>(out: &mut Writer<ROOM>, code: u8, first: Die, second: Die)
    requires { length out.old + 3 ≤ ROOM }
    ensures text { out.new ≡ out.old ++ code ∷ dice_bytes first second }
    ensures len { length out.new ≤ length out.old + 3 }
{
    out.put(&[code, first.pips(), second.pips()]);
}

/// Appends the encoding of an action.
pub(crate) fn put_action<const ROOM: usize>(out: &mut Writer<ROOM>, action: &Action)
    requires in_range { IsAction action.now }
    requires room { length out.old + 10 ≤ ROOM }
    ensures text { out.new ≡ out.old ++ action_bytes action.now }
    ensures len { length out.new ≤ length out.old + 10 }
{
    match action {
        Action::Roll => out.put(&[ROLLED]),
        Action::Double => out.put(&[DOUBLED]),
        Action::Take => out.put(&[TAKEN]),
        Action::Drop => out.put(&[DROPPED]),
        Action::Move(turn) => put_move(out, turn),
        Action::Resign(level) => out.put(&[RESIGNED, level_code(*level)]),
        Action::Accept => out.put(&[ACCEPTED]),
        Action::Reject => out.put(&[REJECTED]),
    }
}

/// Appends the encoding of an entry.
pub(crate) fn put_entry<const ROOM: usize>(out: &mut Writer<ROOM>, entry: &Entry)
    requires in_range { IsEntry entry.now }
    requires room { length out.old + 10 ≤ ROOM }
    ensures text { out.new ≡ out.old ++ entry_bytes entry.now }
    ensures len { length out.new ≤ length out.old + 10 }
{
    match entry {
        Entry::Opening(x, o) => put_dice(out, OPENING, *x, *o),
        Entry::Rolled(dice) => put_dice(out, ROLLED, dice.first, dice.second),
        Entry::Doubled => out.put(&[DOUBLED]),
        Entry::Taken => out.put(&[TAKEN]),
        Entry::Dropped => out.put(&[DROPPED]),
        Entry::Moved(turn) => put_move(out, turn),
        Entry::Resigned(level) => out.put(&[RESIGNED, level_code(*level)]),
        Entry::Accepted => out.put(&[ACCEPTED]),
        Entry::Rejected => out.put(&[REJECTED]),
        Entry::Passed => out.put(&[PASSED]),
    }
}
