//! The layouts of saved texts: the first, which is only read, and the second (docs/FORMATS.md,
//! "Saved files").
ghost use Rattle.std.specs.Prelude.{◌≡◌, ◌≤◌, ◌==◌, Ok, Err, if◌then◌else◌, length, IfOk};
ghost use Rattle.bg_match.specs.Limits.{longest_match, shortest_match};
ghost use Rattle.bg_match.specs.Terms.{match_length};
ghost use Rattle.bg_wire.specs.Entries.Reading.{Reads};
ghost use Rattle.bg_wire.specs.Saved.SavedLayouts.{layout_of_magic, last_code};
ghost use Rattle.bg_wire.specs.Saved.SavedReading.{most_flag, number_in, kept_claim_in, saved_claim_in, rules_in};
ghost use Rattle.bg_wire.specs.Saved.SavedReading.{front_in, front_at, load_fault, entries_of, ReadsFront, Passes};

use crate::entries::codes::{FIRST_ENTRY, PASSED, REJECTED};
use crate::entries::entry_reading::{action, entry};
use crate::entries::reader::{FieldFault, ReadFault, Reader};
use crate::entries::rules_bytes::rules as told_rules;
use crate::{FIRST_SAVE, LAST_SAVE, LoadFault, REFEREE, SEAT_OF_O};
use bg_match::{Action, LONGEST_MATCH, MOST_ENTRIES, Number, Rules, SHORTEST_MATCH, Terms};

/// The number of four bytes with which every text of the first layout begins.
pub(crate) const FIRST_MAGIC: u32 = 0x4247_5331;
/// The number with which every text of the second layout begins: the next one, so that both are one
/// field.
pub(crate) const SECOND_MAGIC: u32 = 0x4247_5332;
/// The greatest number of an entry in the first layout.
pub(crate) const FIRST_MOST_ENTRIES: u16 = u16::MAX;
/// The offset of the field whose fault has a name of its own.
pub(crate) const MAGIC_AT: usize = 0;

/// The flag where no claim is kept.
pub(crate) const NO_CLAIM: u8 = 0;
/// The flag where one is kept.
pub(crate) const KEPT_CLAIM: u8 = 1;

/// The layout of a saved text.
#[derive(Clone, Copy, Debug, PartialEq, Eq)]
pub(crate) enum Layout {
    /// Without rules or passes, and with two bytes for the number of an entry. It is only read.
    One,
    /// With rules and passes, and with four bytes for the number of an entry.
    Two,
}

/// The fields before the entries.
#[derive(Debug, Drop)]
pub(crate) struct Front {
    pub(crate) layout: Layout,
    pub(crate) party: u8,
    pub(crate) id: u64,
    pub(crate) terms: Terms,
    pub(crate) save: u32,
    pub(crate) claim: Option<(Number, Action)>,
    pub(crate) count: Number,
}

impl LoadFault {
    /// Returns the fault of a saved text for that of a field. The first field has a fault of its
    /// own.
    pub(crate) fn of(fault: ReadFault) -> LoadFault
        ensures { result ≡ load_fault fault }
    {
        match fault {
            ReadFault::Short => LoadFault::Short,
            ReadFault::Field(MAGIC_AT) => LoadFault::Magic,
            ReadFault::Field(at) => LoadFault::Field(at),
        }
    }
}

impl Layout {
    /// Returns the layout of texts that begin with this number.
    fn of_magic(magic: u32) -> Layout
        ensures { result ≡ layout_of_magic magic }
    {
        if magic == FIRST_MAGIC {
            Layout::One
        } else {
            Layout::Two
        }
    }

    /// Returns the greatest code of an entry.
    pub(crate) fn last_code(self) -> u8
        ensures { result ≡ last_code self }
    {
        match self {
            Layout::One => REJECTED,
            Layout::Two => PASSED,
        }
    }
}

/// Reads the number of an entry, from `low` to the greatest of the layout.
#[tactic(auto, unfolding(crate::specs::Saved::SavedReading::number_in))]
fn number(reader: &mut Reader<'_>, layout: Layout, low: u16) -> Result<Number, FieldFault>
    ensures { Reads result reader.new (number_in layout low reader.old) }
{
    match layout {
        Layout::One => Ok(reader.read_u16(low, FIRST_MOST_ENTRIES)?.into()),
        Layout::Two => reader.read_u32(low.into(), MOST_ENTRIES),
    }
}

#[tactic(auto, unfolding(crate::specs::Saved::SavedReading::kept_claim_in))]
fn kept_claim(
    reader: &mut Reader<'_>,
    layout: Layout,
) -> Result<Option<(Number, Action)>, FieldFault>
    ensures { Reads result reader.new (kept_claim_in layout reader.old) }
{
    let number = number(reader, layout, FIRST_ENTRY as u16)?;
    let action = action(reader)?;
    Ok(Some((number, action)))
}

/// Returns the greatest flag of a party: the referee keeps no claim.
fn most_flag(party: u8) -> u8
    ensures { result ≡ most_flag party }
{
    if party == REFEREE {
        NO_CLAIM
    } else {
        KEPT_CLAIM
    }
}

#[tactic(auto, unfolding(crate::specs::Saved::SavedReading::saved_claim_in))]
fn claim(
    reader: &mut Reader<'_>,
    layout: Layout,
    party: u8,
) -> Result<Option<(Number, Action)>, FieldFault>
    ensures { Reads result reader.new (saved_claim_in layout party reader.old) }
{
    let flag = reader.read_u8(NO_CLAIM, most_flag(party))?;
    if flag == NO_CLAIM {
        Ok(None)
    } else {
        kept_claim(reader, layout)
    }
}

/// Reads the rules, where the layout has them.
#[tactic(auto, unfolding(crate::specs::Saved::SavedReading::rules_in))]
fn rules(reader: &mut Reader<'_>, layout: Layout) -> Result<Rules, FieldFault>
    ensures { Reads result reader.new (rules_in layout reader.old) }
{
    match layout {
        Layout::One => Ok(Rules::One),
        Layout::Two => told_rules(reader),
    }
}

/// Reads what follows the magic number.
#[tactic(auto, unfolding(crate::specs::Saved::SavedReading::front_in))]
fn read_front_in(reader: &mut Reader<'_>, layout: Layout) -> Result<Front, FieldFault>
    ensures reads { Reads result reader.new (front_in layout reader.old) }
    ensures shortest { IfOk result (λ front. shortest_match ≤ match_length front.terms) }
    ensures longest { IfOk result (λ front. match_length front.terms ≤ longest_match) }
{
    let party = reader.read_u8(REFEREE, SEAT_OF_O)?;
    let id = reader.read_u64()?;
    let length = reader.read_u8(SHORTEST_MATCH, LONGEST_MATCH)?;
    let rules = rules(reader, layout)?;
    let save = reader.read_u32(FIRST_SAVE, LAST_SAVE)?;
    let claim = claim(reader, layout, party)?;
    let count = number(reader, layout, 0)?;
    Ok(Front {
        layout,
        party,
        id,
        terms: Terms { length, rules },
        save,
        claim,
        count,
    })
}

#[tactic(auto, unfolding(crate::specs::Saved::SavedReading::front_at))]
fn read_front(reader: &mut Reader<'_>) -> Result<Front, FieldFault>
    ensures reads { Reads result reader.new (front_at reader.old) }
    ensures shortest { IfOk result (λ front. shortest_match ≤ match_length front.terms) }
    ensures longest { IfOk result (λ front. match_length front.terms ≤ longest_match) }
{
    let magic = reader.read_u32(FIRST_MAGIC, SECOND_MAGIC)?;
    read_front_in(reader, Layout::of_magic(magic))
}

/// Reads what stands before the entries, and returns it with a reader at the first of them.
pub(crate) fn split_front(bytes: &[u8]) -> Result<(Front, Reader<'_>), LoadFault>
    ensures reads { ReadsFront result bytes.now }
    ensures shortest { IfOk result (λ parts. shortest_match ≤ match_length ((parts.0).terms)) }
    ensures longest { IfOk result (λ parts. match_length ((parts.0).terms) ≤ longest_match) }
{
    let mut reader = Reader::new(bytes);
    match read_front(&mut reader) {
        Ok(front) => Ok((front, reader)),
        Err(fault) => Err(LoadFault::of(reader.fault(fault))),
    }
}

/// Skips `count` entries, with which the text ends.
pub(crate) fn pass_entries(
    reader: &mut Reader<'_>,
    layout: Layout,
    count: Number,
) -> Result<(), LoadFault>
    ensures { Passes result (entries_of layout count reader.old) }
{
    for _ in 0..count {
        if let Err(fault) = entry(reader, layout) {
            return Err(LoadFault::of(reader.fault(fault)));
        }
    }
    end(reader)
}

/// Checks that the text ends here.
pub(crate) fn end(reader: &Reader<'_>) -> Result<(), LoadFault>
    ensures { result ≡ (if length reader.now.rest == 0 then Ok tt else Err LoadFault.Extra) }
{
    if reader.is_empty() {
        Ok(())
    } else {
        Err(LoadFault::Extra)
    }
}
