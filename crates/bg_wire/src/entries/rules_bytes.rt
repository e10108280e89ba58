//! The rules of a match as a byte, in packets and in saved texts of the second layout
//! (docs/FORMATS.md, "Packets").
ghost use Rattle.std.specs.Prelude.{◌≡◌};
ghost use Rattle.bg_wire.specs.Entries.Codes.{rules_code};
ghost use Rattle.bg_wire.specs.Entries.Reading.{Reads};
ghost use Rattle.bg_wire.specs.Entries.RulesReading.{rules_at};

use crate::entries::codes::{RULES_ONE, RULES_TWO};
use crate::entries::reader::{FieldFault, Reader};
use bg_match::Rules;

/// Reads the rules at the front of the bytes.
#[tactic(auto, unfolding(crate::specs::Entries::RulesReading::rules_at))]
pub(crate) fn rules(reader: &mut Reader<'_>) -> Result<Rules, FieldFault>
    ensures { Reads result reader.new (rules_at reader.old) }
{
    Ok(match reader.read_u8(RULES_ONE, RULES_TWO)? {
        RULES_ONE => Rules::One,
        _ => Rules::Two,
    })
}

/// Returns the byte that stands for the rules.
pub(crate) fn rules_code(rules: Rules) -> u8
    ensures { result ≡ rules_code rules }
{
    match rules {
        Rules::One => RULES_ONE,
        Rules::Two => RULES_TWO,
    }
}
