//! Line 1 of a transcript: the length of the match, and its rules.
ghost use Rattle.std.specs.Prelude.{◌≡◌, ◌∷◌, ◌++◌, ℕ, List, [], IfOk, IfErr};
ghost use Rattle.std.specs.Fmt.{decimal};
ghost use Rattle.bg_match.specs.Limits.{IsMatchLength};
ghost use Rattle.bg_match.specs.Terms.{match_length};
ghost use Rattle.bg_match.specs.declared.limits.Rules.{Rules};
ghost use Rattle.bg_text.specs.Judge.Judging.{AreLengthDigits, IsLengthFault, IsDigitsFault};
ghost use Rattle.bg_text.specs.Boards.TermsText.{rules_mark};
ghost use Rattle.bg_text.specs.Boards.Transcript.{length_line};

use crate::TextFault;
use crate::entries::pairs::read_two_digits;
use crate::faults::LineFault;
use bg_match::{LONGEST_MATCH, Rules, SHORTEST_MATCH, Terms};

/// Reads the length and the rules from line 1.
pub(crate) fn read_terms(line: &[u8]) -> Result<Terms, LineFault>
    ensures found { IfOk result (λ terms. IsMatchLength (match_length terms) × (line.now ≡ length_line terms)) }
    ensures fault { IfErr result (λ fault. IsLengthFault fault (line.now ∷ [])) }
{
    let Some(words) = line.strip_prefix(b"length ") else {
        return Err(LineFault::NotALengthLine);
    };
    let (digits, rules) = split_rules(words);
    let length = read_digits(digits)?;
    Ok(Terms { length, rules })
}

/// Returns the digits of a length and the rules behind them.
fn split_rules(words: &[u8]) -> (&[u8], Rules)
    ensures whole { words.now ≡ result.0.now ++ rules_mark result.1 }
    ensures only { (digits : List ℕ) (rules : Rules) → AreLengthDigits digits
        → words.now ≡ digits ++ rules_mark rules → digits ≡ result.0.now }
{
    match words.strip_suffix(b" rules 2") {
        Some(digits) => (digits, Rules::Two),
        None => (words, Rules::One),
    }
}

/// Reads the length that one to three digits spell.
fn read_digits(digits: &[u8]) -> Result<u8, LineFault>
    ensures found { IfOk result (λ length. IsMatchLength length × (digits.now ≡ decimal length)) }
    ensures fault { IfErr result (λ fault. IsDigitsFault fault digits.now) }
{
    match (read_two_digits(digits), digits) {
        (Ok(length @ SHORTEST_MATCH..=LONGEST_MATCH), _) => Ok(length),
        (Ok(_) | Err(TextFault::BadNumber), _) => Err(LineFault::LengthOutOfRange),
        (Err(_), [b'0'..=b'9', b'0'..=b'9', b'0'..=b'9']) => Err(LineFault::LengthOutOfRange),
        (Err(_), _) => Err(LineFault::NotALengthLine),
    }
}
