//! The lines that name the players of a match.
ghost use Rattle.std.specs.Prelude.{◌≡◌, ◌++◌, ℕ, List, Option, IfSome, IfNone, MatchOption};
ghost use Rattle.bg_system.specs.Names.{IsName};
ghost use Rattle.bg_system.specs.NameLines.{LacksWord, name_line};

use crate::files::names::Name;
use std::fmt;
use std::fmt::{Display, Formatter, Write};

/// The start of the line that names X.
const WORD_OF_X: &str = "name-x ";

/// The start of the line that names O.
const WORD_OF_O: &str = "name-o ";

/// The names of the players of a match, as far as they have any (docs/FORMATS.md, "Match file").
/// `Display` writes them as lines, `name-x NAME` and `name-o NAME`, each with its line feed. It
/// writes nothing for a player without a name.
#[derive(Clone, Copy, Debug, PartialEq, Eq)]
pub struct Names {
    pub x: Option<Name>,
    pub o: Option<Name>,
}

/// The line of a name behind a word; nothing where there is no name.
#[derive(Clone, Copy)]
struct NameLine<'a> {
    word: &'a str,
    name: Option<Name>,
}

impl<'a> Display for NameLine<'a> {
    ghost use Rattle.std.specs.Prelude.{Some};
    ghost use Rattle.bg_system.specs.NameLines.{name_line};

    ghost output = { λ line. Some (name_line line.word.now line.name) };

    fn fmt<W: Write>(&self, f: &mut Formatter<W>) -> fmt::Result {
        let NameLine { word, name } = *self;
        match name {
            Some(name) => writeln!(f, "{word}{name}"),
            None => f.write_str(""),
        }
    }
}

impl Display for Names {
    ghost use Rattle.std.specs.Prelude.{Some};
    ghost use Rattle.bg_system.specs.NameLines.{names_text};

    ghost output = { λ names. Some (names_text names) };

    fn fmt<W: Write>(&self, f: &mut Formatter<W>) -> fmt::Result {
        let x = NameLine {
            word: WORD_OF_X,
            name: self.x,
        };
        let o = NameLine {
            word: WORD_OF_O,
            name: self.o,
        };
        write!(f, "{x}{o}")
    }
}

/// Splits off the first line of a text, where it begins with a word, and returns its name with what
/// stands behind the line. Returns `None` where the line has no end, or holds no valid name.
fn split_name<'a>(text: &'a str, word: &str) -> Option<(Option<Name>, &'a str)>
    ensures only { IfSome result (λ found. IfSome found.0 IsName
        × (text.now ≡ name_line word.now found.0 ++ found.1.now)) }
    ensures all { (name : Option (List ℕ)) (rest : List ℕ) → IfSome name IsName → IfNone name (LacksWord word.now rest)
        → text.now ≡ name_line word.now name ++ rest
        → MatchOption result ⊥ (λ found. (found.0 ≡ name) × (found.1.now ≡ rest)) }
{
    let Some(behind) = text.strip_prefix(word) else {
        return Some((None, text));
    };
    let (said, rest) = behind.split_once('\n')?;
    match Name::new(said) {
        Ok(name) => Some((Some(name), rest)),
        Err(_) => None,
    }
}

impl Names {
    ghost use Rattle.std.specs.Prelude.{None};
    ghost use Rattle.bg_system.specs.NameLines.{IsNames, IsPastNames, names_text};

    /// Returns the names of a match whose players have none.
    pub fn none() -> Names
        ensures { result ≡ record { x = None; o = None } }
    {
        Names { x: None, o: None }
    }

    /// Parses the names at the start of a text, and returns what stands behind them too. Returns
    /// `None` where a line that begins like a name line holds no valid name.
    pub(crate) fn parse_front(text: &str) -> Option<(Names, &str)>
        ensures only { IfSome result (λ found. IsNames found.0 × (text.now ≡ names_text found.0 ++ found.1.now)) }
        ensures all { (names : Names) (rest : List ℕ) → IsNames names → IsPastNames rest
            → text.now ≡ names_text names ++ rest
            → MatchOption result ⊥ (λ found. (found.0 ≡ names) × (found.1.now ≡ rest)) }
    {
        // A `let` with `else`, as the check accepts no `?` of a name beside a text.
        let Some((x, rest)) = split_name(text, WORD_OF_X) else {
            return None;
        };
        let Some((o, rest)) = split_name(rest, WORD_OF_O) else {
            return None;
        };
        Some((Names { x, o }, rest))
    }
}
