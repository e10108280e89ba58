//! The files that hand a match to its parties, with the key of each.
ghost use Rattle.std.specs.Prelude.{◌≡◌, ◌↔◌, Some};

use crate::files::key_digits::{digits_of, key_in};
use crate::files::match_files::{MatchFile, front_of_file};
use crate::files::name_lines::Names;
use crate::files::named_matches::NamedMatch;
use crate::files::numbers::split_number;
use crate::files::whole_files::write_shown;
use bg_seals::{Key, MasterSecret};
use bg_wire::{FIRST_WATCHER, SEAT_OF_O, SEAT_OF_X};
use std::fmt::{Display, Formatter, Write};
use std::fs::File;
use std::rt::Files;
use std::{fmt, io};

/// The secret that a party, or all watchers, share with the referee alone: the key of their match
/// (docs/FORMATS.md, "Key files"). `Display` writes the text of the file, which no message may
/// contain.
#[derive(Debug, Drop)]
pub struct KeyFile {
    /// The match, as all its processes agree on it.
    pub table: MatchFile,
    /// The names of the players.
    pub names: Names,
    /// The party: 1 or 2, or 3 for all watchers.
    pub party: u8,
    /// The party's key.
    pub key: Key,
}

/// Returns the name of a party's key file in the referee's folder: `match-x`, `match-o`, or
/// `match-watch` for all watchers.
pub fn name_of_key_file(party: u8) -> &'static str {
    match party {
        SEAT_OF_X => "match-x",
        SEAT_OF_O => "match-o",
        _ => "match-watch",
    }
}

impl Display for KeyFile {
    ghost use Rattle.std.specs.Prelude.{Some};
    ghost use Rattle.bg_system.specs.KeyFiles.{key_file_text};

    ghost output = { λ file. Some (key_file_text file) };

    fn fmt<W: Write>(&self, f: &mut Formatter<W>) -> fmt::Result {
        let digits = digits_of(self.key.bytes());
        let Ok(digits) = str::from_utf8(&digits) else {
            return Err(fmt::Error);
        };
        let KeyFile {
            table,
            names,
            party,
            ..
        } = self;
        writeln!(f, "{table}{names}key {party} {digits}")
    }
}

impl KeyFile {
    ghost use Rattle.bg_system.specs.KeyFiles.{IsKeyFile, key_file_of, key_file_text, with_names};

    /// Parses the text of a key file. Returns `None` for any other text.
    pub fn parse(text: &str) -> Option<KeyFile>
        ensures { (file : KeyFile) → (result ≡ Some file) ↔ (IsKeyFile file × (text.now ≡ key_file_text file)) }
    {
        let Some((file, rest)) = NamedMatch::parse_front(text) else {
            return None;
        };
        let (least, most) = (u64::from(SEAT_OF_X), u64::from(FIRST_WATCHER));
        let (party, rest) = split_number(rest, "key ", least, most, ' ')?;
        let key = Key::new(&key_in(rest)?);
        let party = party as u8;
        Some(KeyFile {
            table: file.table,
            names: file.names,
            party,
            key,
        })
    }

    /// Returns the key file of a party of a match: 1, 2, or 3 for all watchers. Its key is derived
    /// from this secret, and it has no names.
    pub fn derive(table: MatchFile, secret: &MasterSecret, party: u8) -> KeyFile
        ensures { result ≡ key_file_of table secret.now party }
    {
        let key = secret.key_of(table.id, party);
        let names = Names::none();
        KeyFile {
            table,
            names,
            party,
            key,
        }
    }

    /// Returns the file with these names in place of its own.
    fn named(self, names: &Names) -> KeyFile
        ensures { result ≡ with_names names.now self }
    {
        let KeyFile {
            table,
            party,
            key,
            ..
        } = self;
        KeyFile {
            table,
            names: *names,
            party,
            key,
        }
    }

    /// Returns the match with its names.
    pub fn named_match(&self) -> NamedMatch
        ensures { result ≡ record { table = self.now.table; names = self.now.names } }
    {
        NamedMatch {
            table: self.table,
            names: self.names,
        }
    }

    /// Reads the key file at a path. Returns `None` where it isn't a key file.
    ///
    /// # Errors
    /// The system's error where the file can't be opened or read; `InvalidInput` where it isn't a
    /// plain file.
    pub fn read(
        rt: &(impl Files<File = File> + AllocGlobal),
        path: &str,
    ) -> io::Result<Option<KeyFile>> {
        Ok(KeyFile::parse(front_of_file(rt, path)?.as_str()))
    }

    /// Writes the file into a folder, under its name, readable by its owner alone.
    ///
    /// # Errors
    /// The system's error where the file can't be written. Then there is no file, unless its folder
    /// could not be synced.
    pub fn write(
        &self,
        rt: &(impl Files<File = File> + AllocGlobal),
        folder: &str,
    ) -> io::Result<()> {
        write_shown(rt, folder, name_of_key_file(self.party), self)
    }
}

/// The key files of a match: one for each player, and one for all watchers.
#[derive(Debug, Drop)]
pub struct KeyFiles {
    pub x: KeyFile,
    pub o: KeyFile,
    pub watchers: KeyFile,
}

impl KeyFiles {
    ghost use Rattle.bg_system.specs.KeyFiles.{key_files_of, with_names};

    /// Returns the key files of a match, whose keys are derived from this secret. They have no
    /// names.
    pub fn derive(table: MatchFile, secret: &MasterSecret) -> KeyFiles
        ensures { result ≡ key_files_of table secret.now }
    {
        KeyFiles {
            x: KeyFile::derive(table, secret, SEAT_OF_X),
            o: KeyFile::derive(table, secret, SEAT_OF_O),
            watchers: KeyFile::derive(table, secret, FIRST_WATCHER),
        }
    }
    /// Returns the files with these names in place of their own.
    pub fn named(self, names: &Names) -> KeyFiles
        ensures { result ≡ record {
          x = with_names names.now self.x;
          o = with_names names.now self.o;
          watchers = with_names names.now self.watchers;
        } }
    {
        let KeyFiles { x, o, watchers } = self;
        KeyFiles {
            x: x.named(names),
            o: o.named(names),
            watchers: watchers.named(names),
        }
    }
}
