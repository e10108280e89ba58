//! The length and the rules of a match, in words.
ghost use Rattle.std.specs.Prelude.{◌≡◌, ◌++◌, OnOk};
ghost use Rattle.bg_match.specs.Terms.{terms_of};
ghost use Rattle.bg_text.specs.Boards.TermsText.{rules_mark as mark, terms_text};

use crate::printing::{put_number, put_text};
use bg_match::Rules;
use std::alloc::AllocError;

/// Appends the length of a match to a text, and its rules where they are the second: `length 5`, or
/// `length 5 rules 2` (docs/FORMATS.md, "Transcripts").
///
/// # Errors
/// AllocError where memory runs out. What `out` holds then is unspecified.
pub fn put_terms(out: &mut Vec<u8>, length: u8, rules: Rules) -> Result<(), AllocError>
    ensures { OnOk result (out.new.items ≡ out.old.items ++ terms_text (terms_of length rules)) }
{
    put_text(out, "length ")?;
    put_number(out, length.into())?;
    put_text(out, rules_mark(rules))
}

/// Returns the words for the rules: none for the first.
fn rules_mark(rules: Rules) -> &'static str
    ensures { result.now ≡ mark rules }
{
    match rules {
        Rules::One => "",
        Rules::Two => " rules 2",
    }
}
