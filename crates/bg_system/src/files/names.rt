//! The name of a player of a match.
ghost use Rattle.std.specs.Prelude.{◌≡◌, Some, None, MatchResult};
ghost use Rattle.std.specs.List.{list_any};
ghost use Rattle.std.specs.Str.{chars};
ghost use Rattle.bg_system.specs.Names.{IsName, has_outer_blank, is_unseen, name_fault};

use std::fmt::{Debug, Display, Formatter, Write};
use std::marker::Model;
use std::{fmt, str};

/// Number of bytes of a name, at most.
pub const MOST_NAME_BYTES: usize = 64;

/// The name of a player, for people who look on: a text of 1 to 64 bytes. It has no control
/// characters, no characters that end a line, none that change the direction of text, and no blank
/// at either end. Contracts see it as the bytes of its text.
#[derive(Clone, Copy)]
pub struct Name {
    /// The bytes of the text, padded with zeros.
    bytes: [u8; MOST_NAME_BYTES],
    /// Number of bytes of the text.
    count: usize,
}

impl Model for Name {
    ghost use Rattle.std.specs.Prelude.{◌≡◌, ◌≤◌, ◌-◌, ◌++◌, ℕ, List, length, take, replicate};

    ghost Value = { List ℕ };

    ghost use Rattle.bg_system.specs.Names.{IsName};
    ghost use Rattle.std.proofs.Common.{◌∙◌, ap, length-take-le, subst, sym};

    ghost view = { λ n. take n.count n.bytes };

    ghost invariant = { λ n. (n.count ≤ 64) × (length n.bytes ≡ 64)
        × (n.bytes ≡ take n.count n.bytes ++ replicate (64 - n.count) 0) × IsName (take n.count n.bytes) };

    ghost inverse = { λ text. record { bytes = text ++ replicate (64 - length text) 0; count = length text } };

    ghost inverse_ok = { λ n h i. record {
      bytes = (ap (λ k. take n.count n.bytes ++ replicate (64 - k) 0)
          (length-take-le n.count n.bytes (subst (λ k. n.count ≤ k) (sym h.1) h.0)) ∙ sym h.2) i;
      count = length-take-le n.count n.bytes (subst (λ k. n.count ≤ k) (sym h.1) h.0) i;
    } };
}

/// The first of these reasons why a text is not a name.
#[derive(Clone, Copy, Debug, PartialEq, Eq)]
pub enum NameFault {
    /// It is empty, or has more than 64 bytes.
    Length,
    /// It has a control character, a character that ends a line, or one that changes the direction
    /// of text.
    Character,
    /// It begins or ends with a blank.
    Blank,
}

impl Display for NameFault {
    fn fmt<W: Write>(&self, f: &mut Formatter<W>) -> fmt::Result {
        f.write_str(match self {
            NameFault::Length => "a name has 1 to 64 bytes of UTF-8",
            NameFault::Character => {
                "a name has no control characters, and none that change the direction of a text"
            }
            NameFault::Blank => "a name neither begins nor ends with a blank",
        })
    }
}

/// Returns whether a character can't be seen in a name, or changes how its neighbours are
/// displayed.
fn is_unseen(c: char) -> bool
    ensures { result ≡ is_unseen c }
{
    c.is_control()
        || c == '\u{61c}'
        || ('\u{200e}'..='\u{200f}').contains(&c)
        || ('\u{2028}'..='\u{202e}').contains(&c)
        || ('\u{2066}'..='\u{2069}').contains(&c)
}

/// Returns whether a text has such a character.
fn has_unseen(text: &str) -> bool
    ensures { result ≡ list_any is_unseen (chars text.now) }
{
    text.chars().any(is_unseen)
}

/// Returns whether a text begins or ends with a blank.
fn has_outer_blank(text: &str) -> bool
    ensures { result ≡ has_outer_blank text.now }
{
    text.starts_with(' ') || text.ends_with(' ')
}

/// Returns the first reason why a text is not a name, if there is one.
fn fault_of(text: &str) -> Option<NameFault>
    ensures { result ≡ name_fault text.now }
{
    if text.is_empty() || text.len() > MOST_NAME_BYTES {
        Some(NameFault::Length)
    } else if has_unseen(text) {
        Some(NameFault::Character)
    } else if has_outer_blank(text) {
        Some(NameFault::Blank)
    } else {
        None
    }
}

impl Name {
    /// Creates a name from a text.
    ///
    /// # Errors
    /// The first reason why it is not a name.
    pub fn new(text: &str) -> Result<Name, NameFault>
        ensures { MatchResult result (λ name. IsName text.now × (name ≡ text.now))
            (λ fault. name_fault text.now ≡ Some fault) }
    {
        match fault_of(text) {
            Some(fault) => Err(fault),
            None => Ok(Name::of(text)),
        }
    }

    /// Returns the name with this text, which is valid.
    fn of(text: &str) -> Name
        requires { name_fault text.now ≡ None }
        ensures { result ≡ text.now }
    {
        let mut bytes = [0; MOST_NAME_BYTES];
        bytes[..text.len()].copy_from_slice(text.as_bytes());
        Name {
            bytes,
            count: text.len(),
        }
    }

    /// Returns the text of the name.
    pub fn as_str(&self) -> &str
        ensures value { result.now ≡ self.now }
        ensures named { IsName result.now }
    {
        str::from_utf8(&self.bytes[..self.count]).unwrap()
    }
}

impl PartialEq for Name {
    ghost use Rattle.std.specs.Prelude.{nat_eq};
    ghost use Rattle.std.specs.Cmp.{partial_equiv_from_equiv};
    ghost use Rattle.std.specs.Cmp.Lexicographic.{pointwise, nat_list_eq_equiv};

    ghost eq = { λ a b. pointwise nat_eq a b };

    ghost laws = { partial_equiv_from_equiv nat_list_eq_equiv };

    fn eq(&self, other: &Name) -> bool {
        self.as_str() == other.as_str()
    }
}

impl Eq for Name {
    ghost use Rattle.std.specs.Cmp.Lexicographic.{nat_list_eq_equiv};

    ghost laws = { nat_list_eq_equiv };
}

impl Debug for Name {
    fn fmt<W: Write>(&self, f: &mut Formatter<W>) -> fmt::Result {
        Debug::fmt(&self.as_str(), f)
    }
}

impl Display for Name {
    ghost use Rattle.std.specs.Prelude.{Some};

    ghost output = { λ name. Some name };

    fn fmt<W: Write>(&self, f: &mut Formatter<W>) -> fmt::Result {
        f.write_str(self.as_str())
    }
}
