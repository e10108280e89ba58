//! The contents of a match file.
ghost use Rattle.std.specs.Prelude.{◌≡◌, ◌↔◌, ◌++◌, ℕ, List, Some, IfSome, MatchOption};

use crate::files::match_files::{MatchFile, front_of_file};
use crate::files::name_lines::Names;
use crate::files::whole_files::write_shown;
use std::fmt::{Display, Formatter, Write};
use std::fs::File;
use std::rt::Files;
use std::{fmt, io};

/// A match and the names of its players: the contents of a match file (docs/FORMATS.md,
/// "Match file"). `Display` writes the text of the file. Names are for people who look on: no
/// process plays differently because of them.
#[derive(Clone, Copy, Debug, PartialEq, Eq)]
pub struct NamedMatch {
    /// The match, as all its processes agree on it.
    pub table: MatchFile,
    /// The names of the players.
    pub names: Names,
}

impl Display for NamedMatch {
    ghost use Rattle.std.specs.Prelude.{Some};
    ghost use Rattle.bg_system.specs.NamedMatches.{named_match_text};

    ghost output = { λ file. Some (named_match_text file) };

    fn fmt<W: Write>(&self, f: &mut Formatter<W>) -> fmt::Result {
        let NamedMatch { table, names } = self;
        write!(f, "{table}{names}")
    }
}

impl NamedMatch {
    ghost use Rattle.bg_system.specs.NameLines.{IsPastNames};
    ghost use Rattle.bg_system.specs.NamedMatches.{IsNamedMatch, named_match_text};

    /// Parses the text of a match file. Returns `None` where it isn't one. That includes a name
    /// line without a valid name, lines in another order, and anything behind them.
    pub fn parse(text: &str) -> Option<NamedMatch>
        ensures { (file : NamedMatch) → (result ≡ Some file) ↔ (IsNamedMatch file × (text.now ≡ named_match_text file)) }
    {
        let Some((file, rest)) = NamedMatch::parse_front(text) else {
            return None;
        };
        if !rest.is_empty() {
            return None;
        }
        Some(file)
    }

    /// Parses the text of a match file at the start of a text, and returns what stands behind it
    /// too. Returns `None` where the text doesn't begin so.
    pub(crate) fn parse_front(text: &str) -> Option<(NamedMatch, &str)>
        ensures only { IfSome result (λ found. IsNamedMatch found.0
            × (text.now ≡ named_match_text found.0 ++ found.1.now)) }
        ensures all { (file : NamedMatch) (rest : List ℕ) → IsNamedMatch file → IsPastNames rest
            → text.now ≡ named_match_text file ++ rest
            → MatchOption result ⊥ (λ found. (found.0 ≡ file) × (found.1.now ≡ rest)) }
    {
        let (table, rest) = MatchFile::parse_front(text)?;
        let Some((names, rest)) = Names::parse_front(rest) else {
            return None;
        };
        Some((NamedMatch { table, names }, rest))
    }

    /// Reads the match file at a path. Returns `None` where it isn't a match file.
    ///
    /// # Errors
    /// The system's error where the file can't be opened or read; `InvalidInput` where it isn't a
    /// plain file.
    pub fn read(
        rt: &(impl Files<File = File> + AllocGlobal),
        path: &str,
    ) -> io::Result<Option<NamedMatch>> {
        Ok(NamedMatch::parse(front_of_file(rt, path)?.as_str()))
    }

    /// Writes it into a folder, as the file `match`, readable by its owner alone.
    ///
    /// # Errors
    /// The system's error where the file can't be written. Then there is no file, unless its folder
    /// could not be synced.
    pub fn write(
        &self,
        rt: &(impl Files<File = File> + AllocGlobal),
        folder: &str,
    ) -> io::Result<()> {
        write_shown(rt, folder, "match", self)
    }
}
