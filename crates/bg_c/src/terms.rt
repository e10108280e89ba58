//! The numbers by which a host names a match: its length and its rules.
ghost use Rattle.std.specs.Prelude.{◌≡◌};
ghost use Rattle.bg_c.specs.Terms.{rules_numbered, terms_numbered};

use bg_match::{LONGEST_MATCH, Rules, SHORTEST_MATCH, Terms};

/// Returns the rules of a number, 1 or 2.
pub(crate) fn rules_numbered(number: u32) -> Option<Rules>
    ensures { result ≡ rules_numbered number }
{
    match number {
        1 => Some(Rules::One),
        2 => Some(Rules::Two),
        _ => None,
    }
}

/// Returns the terms of a match of this length, 1 to 99, by the rules of this number, 1 or 2.
pub(crate) fn terms_numbered(length: u32, rules: u32) -> Option<Terms>
    ensures { result ≡ terms_numbered length rules }
{
    if length < u32::from(SHORTEST_MATCH) || u32::from(LONGEST_MATCH) < length {
        return None;
    }
    let rules = rules_numbered(rules)?;
    Some(Terms {
        length: length as u8,
        rules,
    })
}
