//! Entries and actions at the front of bytes (docs/FORMATS.md, "Entries and actions in bytes").
ghost use Rattle.std.specs.Prelude.{◌≤◌};
ghost use Rattle.bg_wire.specs.Entries.Reading.{Reads, many_at};
ghost use Rattle.bg_wire.specs.Entries.EntryReading.{step_at, turn_at, level_at, die_at, dice_at, action_of, action_at};
ghost use Rattle.bg_wire.specs.Entries.EntryReading.{entry_of, entry_at};

use crate::entries::codes::{
    ACCEPTED, BACKGAMMON, BAR, DOUBLED, DROPPED, GAMMON, LEAST_PIPS, LOWEST_START, MOST_PIPS,
    MOST_STEPS, MOVED, NORMAL, OPENING, REJECTED, RESIGNED, ROLLED, TAKEN,
};
use crate::entries::reader::{FieldFault, Reader};
use crate::saves::layouts::Layout;
use bg_board::{Die, Step};
use bg_match::{Action, Entry, Level};
use bg_turns::{Dice, Turn};

#[tactic(auto, unfolding(crate::specs::Entries::EntryReading::step_at))]
fn step(reader: &mut Reader<'_>) -> Result<Step, FieldFault>
    ensures { Reads result reader.new (step_at reader.old) }
{
    let from = reader.read_u8(LOWEST_START, BAR)?;
    let to = reader.read_u8(0, from - 1)?;
    Step::new(from, to).ok_or(FieldFault::OutOfRange)
}

fn steps(reader: &mut Reader<'_>, count: u8) -> Result<Turn, FieldFault>
    requires { count ≤ MOST_STEPS }
    ensures { Reads result reader.new (many_at step_at count reader.old) }
{
    let mut turn = Turn::new();
    for _ in 0..count {
        turn.push(step(reader)?);
    }
    Ok(turn)
}

#[tactic(auto, unfolding(crate::specs::Entries::EntryReading::turn_at))]
fn turn(reader: &mut Reader<'_>) -> Result<Turn, FieldFault>
    ensures { Reads result reader.new (turn_at reader.old) }
{
    let count = reader.read_u8(0, MOST_STEPS)?;
    steps(reader, count)
}

#[tactic(auto, unfolding(crate::specs::Entries::EntryReading::level_at))]
fn level(reader: &mut Reader<'_>) -> Result<Level, FieldFault>
    ensures { Reads result reader.new (level_at reader.old) }
{
    Ok(match reader.read_u8(NORMAL, BACKGAMMON)? {
        NORMAL => Level::Normal,
        GAMMON => Level::Gammon,
        _ => Level::Backgammon,
    })
}

#[tactic(auto, unfolding(crate::specs::Entries::EntryReading::die_at))]
fn die(reader: &mut Reader<'_>) -> Result<Die, FieldFault>
    ensures { Reads result reader.new (die_at reader.old) }
{
    let pips = reader.read_u8(LEAST_PIPS, MOST_PIPS)?;
    Die::new(pips).ok_or(FieldFault::OutOfRange)
}

#[tactic(auto, unfolding(crate::specs::Entries::EntryReading::dice_at))]
fn dice(reader: &mut Reader<'_>) -> Result<Dice, FieldFault>
    ensures { Reads result reader.new (dice_at reader.old) }
{
    let first = die(reader)?;
    let second = die(reader)?;
    Ok(Dice { first, second })
}

/// Reads what follows the code of an action. A turn is returned at once, as [`Entry::copy`] does.
#[tactic(auto, unfolding(crate::specs::Entries::EntryReading::action_of))]
fn action_of(reader: &mut Reader<'_>, code: u8) -> Result<Action, FieldFault>
    ensures { Reads result reader.new (action_of code reader.old) }
{
    Ok(match code {
        ROLLED => Action::Roll,
        DOUBLED => Action::Double,
        TAKEN => Action::Take,
        DROPPED => Action::Drop,
        MOVED => return Ok(Action::Move(turn(reader)?)),
        RESIGNED => Action::Resign(level(reader)?),
        ACCEPTED => Action::Accept,
        _ => Action::Reject,
    })
}

#[tactic(auto, unfolding(crate::specs::Entries::EntryReading::action_at))]
pub(crate) fn action(reader: &mut Reader<'_>) -> Result<Action, FieldFault>
    ensures { Reads result reader.new (action_at reader.old) }
{
    let code = reader.read_u8(ROLLED, REJECTED)?;
    action_of(reader, code)
}

/// Reads what follows the code of an entry, which is returned as [`Entry::copy`] returns it.
#[tactic(auto, unfolding(crate::specs::Entries::EntryReading::entry_of))]
fn entry_of(reader: &mut Reader<'_>, code: u8) -> Result<Entry, FieldFault>
    ensures { Reads result reader.new (entry_of code reader.old) }
{
    Ok(match code {
        OPENING => {
            let Dice { first, second } = dice(reader)?;
            return Ok(Entry::Opening(first, second));
        }
        ROLLED => return Ok(Entry::Rolled(dice(reader)?)),
        DOUBLED => Entry::Doubled,
        TAKEN => Entry::Taken,
        DROPPED => Entry::Dropped,
        MOVED => return Ok(Entry::Moved(turn(reader)?)),
        RESIGNED => Entry::Resigned(level(reader)?),
        ACCEPTED => Entry::Accepted,
        REJECTED => Entry::Rejected,
        _ => Entry::Passed,
    })
}

#[tactic(auto, unfolding(crate::specs::Entries::EntryReading::entry_at))]
pub(crate) fn entry(reader: &mut Reader<'_>, layout: Layout) -> Result<Entry, FieldFault>
    ensures { Reads result reader.new (entry_at layout reader.old) }
{
    let code = reader.read_u8(OPENING, layout.last_code())?;
    entry_of(reader, code)
}
