//! The match, as all its processes agree on it, and its file.
ghost use Rattle.std.specs.Prelude.{◌≡◌, ◌↔◌, ℕ, List, ◌++◌, Some, IfSome, MatchOption};
ghost use Rattle.std.specs.Int.{IsInRange};
ghost use Rattle.bg_system.specs.Numbers.{rules_number};

use crate::files::name_lines::Names;
use crate::files::numbers::split_number;
use crate::files::plain_files::open_plain;
use crate::files::whole_files::write_shown;
use bg_match::{LONGEST_MATCH, Rules, SHORTEST_MATCH, Terms};
use std::fmt::{Display, Formatter, Write};
use std::fs::File;
use std::io::Read;
use std::rt::Files;
use std::{fmt, io};

/// The lowest port that a match may have.
pub const LOWEST_PORT: u16 = 1024;

/// The highest port that a match may have, so that each of its 256 parties has a port.
pub const HIGHEST_PORT: u16 = 65_280;

/// Number of bytes of a match file or a key file that are read, at most. It exceeds the length of
/// any valid one with both names.
const MOST_BYTES: u64 = 512;

/// The match, as all its processes agree on it (docs/FORMATS.md, "Match file"). `Display` writes
/// the text of a file without names: `match ID length N rules R port P` on one line, with its line
/// feed.
#[derive(Clone, Copy, Debug, PartialEq, Eq)]
pub struct MatchFile {
    /// The number of the match.
    pub id: u64,
    /// The length and the rules of the match.
    pub terms: Terms,
    /// The port of the referee. Party P has the port P higher.
    pub port: u16,
}

impl Display for MatchFile {
    ghost use Rattle.std.specs.Prelude.{Some};
    ghost use Rattle.bg_system.specs.MatchFiles.{match_text};

    ghost output = { λ file. Some (match_text file) };

    fn fmt<W: Write>(&self, f: &mut Formatter<W>) -> fmt::Result {
        let MatchFile { id, terms, port } = *self;
        let Terms { length, rules } = terms;
        let rules = number_of_rules(rules);
        writeln!(f, "match {id} length {length} rules {rules} port {port}")
    }
}

/// Returns the number that names the rules: 1 or 2.
pub fn number_of_rules(rules: Rules) -> u8
    ensures { result ≡ rules_number rules }
{
    match rules {
        Rules::One => 1,
        Rules::Two => 2,
    }
}

/// Returns the rules that a number names, 1 or 2.
fn rules_of(number: u64) -> Rules
    requires { IsInRange 1 2 number }
    ensures { rules_number result ≡ number }
{
    if number == 1 { Rules::One } else { Rules::Two }
}

/// Returns the text at the start of a file, up to the length of a match file or a key file. Returns
/// an empty text, which is neither's, where the file isn't text.
pub(crate) fn front_of_file(
    rt: &(impl Files<File = File> + AllocGlobal),
    path: &str,
) -> io::Result<String> {
    let mut bytes = Vec::new(rt.alloc());
    open_plain(rt, path)?
        .take(MOST_BYTES)
        .read_to_end(&mut bytes)?;
    Ok(String::from_utf8(bytes).unwrap_or_else(|_| String::new(rt.alloc())))
}

impl MatchFile {
    ghost use Rattle.bg_system.specs.MatchFiles.{IsMatchFile, match_text};
    ghost use Rattle.bg_system.specs.NameLines.{IsNames, names_text};
    ghost use Rattle.bg_system.specs.declared.files.name_lines.Names.{Names};

    /// Parses the text of a match file, whatever names it has. Returns `None` where it isn't one.
    /// That includes a sign or a zero before a number, more than one space between two words, a
    /// missing line feed, and anything but names behind it.
    pub fn parse(text: &str) -> Option<MatchFile>
        ensures { (file : MatchFile) → (result ≡ Some file)
            ↔ (IsMatchFile file × ((names : Names) × IsNames names × (text.now ≡ match_text file ++ names_text names))) }
    {
        let (file, rest) = MatchFile::parse_front(text)?;
        let Some((_, rest)) = Names::parse_front(rest) else {
            return None;
        };
        if !rest.is_empty() {
            return None;
        }
        Some(file)
    }

    /// Parses the line of a match file at the start of a text, and returns what stands behind it
    /// too. Returns `None` where the text doesn't begin with such a line.
    pub(crate) fn parse_front(text: &str) -> Option<(MatchFile, &str)>
        ensures only { IfSome result (λ found. IsMatchFile found.0
            × (text.now ≡ match_text found.0 ++ found.1.now)) }
        ensures all { (file : MatchFile) (rest : List ℕ) → IsMatchFile file → text.now ≡ match_text file ++ rest
            → MatchOption result ⊥ (λ found. (found.0 ≡ file) × (found.1.now ≡ rest)) }
    {
        let (id, rest) = split_number(text, "match ", 0, u64::MAX, ' ')?;
        let (shortest, longest) = (u64::from(SHORTEST_MATCH), u64::from(LONGEST_MATCH));
        let (length, rest) = split_number(rest, "length ", shortest, longest, ' ')?;
        let (rules, rest) = split_number(rest, "rules ", 1, 2, ' ')?;
        let (lowest, highest) = (u64::from(LOWEST_PORT), u64::from(HIGHEST_PORT));
        let (port, rest) = split_number(rest, "port ", lowest, highest, '\n')?;
        let terms = Terms {
            length: length as u8,
            rules: rules_of(rules),
        };
        let port = port as u16;
        Some((MatchFile { id, terms, port }, rest))
    }

    /// Reads the match file at a path, leaving its names out. Returns `None` where it isn't a match
    /// file.
    ///
    /// # Errors
    /// The system's error where the file can't be opened or read; `InvalidInput` where it isn't a
    /// plain file.
    pub fn read(
        rt: &(impl Files<File = File> + AllocGlobal),
        path: &str,
    ) -> io::Result<Option<MatchFile>> {
        Ok(MatchFile::parse(front_of_file(rt, path)?.as_str()))
    }

    /// Writes it into a folder, without names, as the file `match`, readable by its owner alone.
    ///
    /// # Errors
    /// The system's error where the file can't be written. Then there is no file, unless its folder
    /// could not be synced.
    pub fn write(
        &self,
        rt: &(impl Files<File = File> + AllocGlobal),
        folder: &str,
    ) -> io::Result<()> {
        write_shown(rt, folder, "match", self)
    }
}
