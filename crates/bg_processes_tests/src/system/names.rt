//! The names of players, and the match files and key files that have them.
use crate::checks::{check, check_number, is_printed};
use crate::helpers::folders::{new_folder, remove_folder};
use crate::helpers::hosts::Host;
use crate::system::named_files::{
    KEY, NAMED, NOT_NAMED, TABLE, check_key_file, check_match_file, check_no_key_file,
    check_no_match_file, check_written, check_written_key, is_named, name_of, named_keys, names_of,
    text_of,
};
use bg_system::{MatchFile, Name, NameFault, NamedMatch};
use std::process::Abort;

/// A name of 64 bytes, the most that there are.
const LONGEST: &str = "0123456789abcdef0123456789abcdef0123456789abcdef0123456789abcde\u{7e}";

/// The same with one letter of two bytes at its end.
const LONGEST_LETTERS: &str =
    "0123456789abcdef0123456789abcdef0123456789abcdef0123456789abcd\u{e4}";

/// Names, one in each line. The last lines have the characters beside those that are refused.
const NAMES: &str = "\
A
-
~
Anna
Anna  Otto
name-x A
\"<b>\" & \\ '
J\u{f6}rg \u{1f3b2}
\u{a0}
\u{61b}\u{61d}
\u{200d}\u{2010}
\u{2027}\u{202f}
\u{2065}\u{206a}
";

/// A text is a name, and its name is shown as it.
fn check_name(rt: &(impl AllocGlobal + Abort), text: &str) {
    let name = name_of(rt, text);
    let is_shown = name.as_str() == text && is_printed(rt.alloc(), &name, text);
    check(rt, is_shown, text);
}

#[test]
fn texts_of_names(rt: HostRuntime) {
    check_names(&rt);
}

/// All names, and that others are other ones.
fn check_names(rt: &(impl AllocGlobal + Abort)) {
    for text in NAMES.lines() {
        check_name(rt, text);
    }
    check_name(rt, LONGEST);
    check_name(rt, LONGEST_LETTERS);
    let name = name_of(rt, "A");
    let are_others = name != name_of(rt, "B") && name != name_of(rt, "AB");
    check(rt, are_others, "other names");
}

/// Texts that are too short or too long for a name, between bars.
const LENGTHS: &str = "\
    |0123456789abcdef0123456789abcdef0123456789abcdef0123456789abcde\u{7e}a\
    |a0123456789abcdef0123456789abcdef0123456789abcdef0123456789abcd\u{e4}";

/// Texts with a character that is in no name, between bars.
const CHARACTERS: &str = "\0|\t|A\nB|A\r|\u{1f}|\u{7f}|\u{80}|\u{85}|\u{9f}|\u{61c}|\u{200e}|\
    \u{200f}|\u{2028}|\u{2029}|\u{202a}|A\u{202e}B|\u{2066}|\u{2067}|\u{2068}|\u{2069}| \n";

/// Texts with a blank where no name has one, between bars.
const BLANKS: &str = " | A|A |  | A B ";

/// Why a text is no name, unless it is one.
fn fault_of(text: &str) -> Option<NameFault> {
    match Name::new(text) {
        Ok(_) => None,
        Err(fault) => Some(fault),
    }
}

/// None of these texts is a name, and that for one reason.
fn check_faults(rt: &impl Abort, texts: &str, fault: NameFault) {
    for text in texts.split('|') {
        check(rt, fault_of(text) == Some(fault), text);
    }
}

#[test]
fn texts_of_no_name(rt: HostRuntime) {
    check_no_names(&rt);
}

/// Each reason has its texts.
fn check_no_names(rt: &impl Abort) {
    check_faults(rt, LENGTHS, NameFault::Length);
    check_faults(rt, CHARACTERS, NameFault::Character);
    check_faults(rt, BLANKS, NameFault::Blank);
}

/// A file is shown as its text, and its text is read as the file.
#[test]
fn match_files_with_names(rt: HostRuntime) {
    for section in NAMED.split("--\n") {
        check_match_file(&rt, section);
    }
}

#[test]
fn texts_of_no_match_file_with_names(rt: HostRuntime) {
    for lines in NOT_NAMED.split('|') {
        check_no_match_file(&rt, text_of(&rt, lines, ""));
    }
    check_no_match_file(&rt, "");
    check_no_match_file(&rt, "name-x Anna\n");
    check_no_match_file(&rt, "name-x Anna\nmatch 7 length 3 rules 1 port 4000\n");
}

/// Key files have the same lines before their key.
#[test]
fn key_files_with_names(rt: HostRuntime) {
    check_key_files(&rt);
}

/// Names stand in key files as in match files.
fn check_key_files(rt: &(impl AllocGlobal + Abort)) {
    for section in NAMED.split("--\n") {
        check_key_file(rt, section);
    }
    for lines in NOT_NAMED.split('|') {
        check_no_key_file(rt, lines, KEY);
    }
    check_no_key_file(rt, KEY, "name-x Anna\n");
}

/// The match of the longest number at the highest port.
const LONG_TABLE: MatchFile = MatchFile {
    id: u64::MAX,
    port: 65280,
    ..TABLE
};

/// Files with the longest names are written, and read as they were.
#[test]
fn files_with_long_names(rt: HostRuntime) {
    check_long_names(&rt);
}

/// A match file and a key file have the longest names.
fn check_long_names(rt: &impl Host) {
    let folder = new_folder(rt, "names");
    let names = names_of(rt, LONGEST, LONGEST_LETTERS);
    let file = NamedMatch {
        table: LONG_TABLE,
        names,
    };
    check_written(rt, folder, &file);
    let keys = named_keys(rt, LONG_TABLE, &names);
    check_written_key(rt, folder, &keys.watchers);
    remove_folder(rt, folder);
}

/// Each of the three files has the names.
#[test]
fn all_key_files_are_named(rt: HostRuntime) {
    check_named(&rt);
}

/// Those of the seats, and that of who watches.
fn check_named(rt: &impl Abort) {
    let names = names_of(rt, "Anna", "");
    let keys = named_keys(rt, TABLE, &names);
    for (file, party) in [(&keys.x, 1), (&keys.o, 2), (&keys.watchers, 3)] {
        let holds = is_named(file, &names, party) && file.table == TABLE;
        check_number(rt, "party", party.into(), holds);
    }
}
