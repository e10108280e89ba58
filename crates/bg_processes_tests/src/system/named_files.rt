//! Match files and key files with the names of players, and their texts.
use crate::checks::{check, is_printed};
use crate::helpers::folders::path_in;
use crate::helpers::hosts::{Host, Hosted};
use crate::helpers::lasting::lasting_text;
use crate::system::seals::keys::secret;
use bg_match::{Rules, Terms};
use bg_system::{KeyFile, KeyFiles, MatchFile, Name, NamedMatch, Names};
use std::alloc::Global;
use std::process::Abort;

/// The line of a match, in front of others.
const LINE: &str = "match 7 length 3 rules 1 port 4000\n";

pub(crate) const TABLE: MatchFile = MatchFile {
    id: 7,
    terms: Terms {
        length: 3,
        rules: Rules::One,
    },
    port: 4000,
};

/// The name that a text is.
pub(crate) fn name_of(rt: &impl Abort, text: &str) -> Name {
    Name::new(text).expect(rt, "a name")
}

/// The name of a text; none of an empty one.
fn named(rt: &impl Abort, text: &str) -> Option<Name> {
    if text.is_empty() {
        return None;
    }
    Some(name_of(rt, text))
}

pub(crate) fn names_of(rt: &impl Abort, x: &str, o: &str) -> Names {
    Names {
        x: named(rt, x),
        o: named(rt, o),
    }
}

/// The names of X and O, a bar between them, and the lines that say them. A line of two dashes
/// stands between each two.
pub(crate) const NAMED: &str = "\
|
--
Anna|
name-x Anna
--
|Anna
name-o Anna
--
|Otto
name-o Otto
--
Anna|Otto
name-x Anna
name-o Otto
--
Anna|name-o \u{d6}tto
name-x Anna
name-o name-o \u{d6}tto
--
name-o \u{d6}tto|name-o \u{d6}tto
name-x name-o \u{d6}tto
name-o name-o \u{d6}tto
";

/// The names of a section, and its lines.
fn parted<'a>(rt: &impl Abort, section: &'a str) -> (Names, &'a str) {
    let (names, lines) = section.split_once('\n').expect(rt, "a line of names");
    let (x, o) = names.split_once('|').expect(rt, "names of X and O");
    (names_of(rt, x, o), lines)
}

/// The line of a match, and lines behind it.
pub(crate) fn text_of(rt: &(impl AllocGlobal + Abort), lines: &str, end: &str) -> &'static str {
    let text = format!(in rt.alloc(); "{LINE}{lines}{end}");
    lasting_text(rt, text.expect(rt, "memory for a text"))
}

/// Whether a text is that of a match file, and is read as that of the match by who passes over
/// names.
fn is_text_of(alloc: Global, text: &str, file: &NamedMatch) -> bool {
    is_printed(alloc, file, text)
        && NamedMatch::parse(text) == Some(*file)
        && MatchFile::parse(text) == Some(TABLE)
}

pub(crate) fn check_match_file(rt: &(impl AllocGlobal + Abort), section: &str) {
    let (names, lines) = parted(rt, section);
    let text = text_of(rt, lines, "");
    let file = NamedMatch {
        table: TABLE,
        names,
    };
    check(rt, is_text_of(rt.alloc(), text, &file), section);
}

/// What stands behind the line of a match that is no name, or not where it belongs; between bars.
pub(crate) const NOT_NAMED: &str = "\n|\
    name-x \n|\
    name-x\n|\
    name-x Anna|\
    name-x Anna\n\n|\
    name-x Anna\r\n|\
    name-x  Anna\n|\
    name-x Anna \n|\
    name-x A\tB\n|\
    name-x A\u{202e}B\n|\
    name-x 0123456789abcdef0123456789abcdef0123456789abcdef0123456789abcdefg\n|\
    name-x Anna\nname-x Anna\n|\
    name-o Otto\nname-x Anna\n|\
    name-o Otto\nname-o Otto\n|\
    name-x Anna\nname-o Otto|\
    name-x Anna\nname-o \n|\
    name-x Anna\nname-o Otto\nmore\n|\
    name-x Anna\nname-y Otto\n|\
    name-x Anna\nmore|\
    Name-x Anna\n|\
    \x20name-x Anna\n|\
    name-y Anna\n|\
    name Anna\n";

pub(crate) fn check_no_match_file(rt: &impl Abort, text: &str) {
    let is_none = NamedMatch::parse(text).is_none() && MatchFile::parse(text).is_none();
    check(rt, is_none, text);
}

/// The last line of a key file.
pub(crate) const KEY: &str =
    "key 2 000102030405060708090a0b0c0d0e0f101112131415161718191a1b1c1d1e1f\n";

/// Whether it is that of a party, and has these names.
pub(crate) fn is_named(file: &KeyFile, names: &Names, party: u8) -> bool {
    file.names == *names && file.named_match().names == *names && file.party == party
}

/// Whether a text is that of a key file with these names.
fn is_key_text(alloc: Global, text: &str, names: &Names) -> bool {
    match KeyFile::parse(text) {
        Some(file) => is_printed(alloc, &file, text) && is_named(&file, names, 2),
        None => false,
    }
}

pub(crate) fn check_key_file(rt: &(impl AllocGlobal + Abort), section: &str) {
    let (names, lines) = parted(rt, section);
    let text = text_of(rt, lines, KEY);
    check(rt, is_key_text(rt.alloc(), text, &names), section);
}

pub(crate) fn check_no_key_file(rt: &(impl AllocGlobal + Abort), lines: &str, end: &str) {
    let text = text_of(rt, lines, end);
    check(rt, KeyFile::parse(text).is_none(), lines);
}

/// Whether a file is written into a folder, and read at the path as it was, with its names or
/// without.
fn is_written(host: &HostRuntime, folder: &str, path: &str, file: &NamedMatch) -> bool {
    file.write(host, folder).is_ok()
        && NamedMatch::read(host, path).ok() == Some(Some(*file))
        && MatchFile::read(host, path).ok() == Some(Some(file.table))
}

/// A match file is written into a folder, and read as it was.
pub(crate) fn check_written(rt: &impl Host, folder: &str, file: &NamedMatch) {
    let path = path_in(rt, folder, "match");
    let is_written = is_written(rt.host(), folder, path, file);
    check(rt, is_written, "the match with its names");
}

/// The key files of a match have no names until they are named.
pub(crate) fn named_keys(rt: &impl Abort, table: MatchFile, names: &Names) -> KeyFiles {
    let keys = KeyFiles::derive(table, &secret());
    check(rt, keys.x.names == Names::none(), "names of keys");
    keys.named(names)
}

/// Whether a key file of those who watch is written into a folder, and read at the path as it was.
fn is_key_written(host: &HostRuntime, folder: &str, path: &str, file: &KeyFile) -> bool {
    if file.write(host, folder).is_err() {
        return false;
    }
    match KeyFile::read(host, path) {
        Ok(Some(read)) => read.table == file.table && is_named(&read, &file.names, 3),
        _ => false,
    }
}

/// The key file of who watches is written into a folder, and read as it was.
pub(crate) fn check_written_key(rt: &impl Host, folder: &str, file: &KeyFile) {
    let path = path_in(rt, folder, "match-watch");
    let is_written = is_key_written(rt.host(), folder, path, file);
    check(rt, is_written, "the key");
}
