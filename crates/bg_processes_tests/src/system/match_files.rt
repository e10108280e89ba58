//! Match files, secrets, and files that are there whole.
use crate::checks::{check, is_printed};
use crate::helpers::folders::{bytes_in, mode_of, new_folder, path_in, remove_folder, write_file};
use crate::helpers::hosts::{Host, Hosted};
use bg_match::{Rules, Terms};
use bg_system::{HIGHEST_PORT, LOWEST_PORT, MatchFile, make_secret, publish, read_secret};
use std::io::ErrorKind;
use std::process::Abort;

const FILE: MatchFile = MatchFile {
    id: u64::MAX,
    terms: Terms {
        length: 99,
        rules: Rules::Two,
    },
    port: HIGHEST_PORT,
};

const TEXT: &str = "match 18446744073709551615 length 99 rules 2 port 65280\n";

const LEAST: MatchFile = MatchFile {
    id: 0,
    terms: Terms {
        length: 1,
        rules: Rules::One,
    },
    port: LOWEST_PORT,
};

/// A file is shown as its text, and its text is read as the file.
fn check_text(rt: &(impl AllocGlobal + Abort), file: &MatchFile, text: &str) {
    let is_read = MatchFile::parse(text) == Some(*file);
    check(rt, is_read && is_printed(rt.alloc(), file, text), text);
}

/// The longest text and the least one.
#[test]
fn texts_of_match_files(rt: HostRuntime) {
    check_text(&rt, &FILE, TEXT);
    check_text(&rt, &LEAST, "match 0 length 1 rules 1 port 1024\n");
}

/// None of the texts between bars is that of a match file.
fn check_none(rt: &impl Abort, texts: &str) {
    for text in texts.split('|') {
        check(rt, MatchFile::parse(text).is_none(), text);
    }
}

#[test]
fn texts_of_no_match_file(rt: HostRuntime) {
    check_none(&rt, NO_FILES);
}

const NO_FILES: &str = "\
    |\
    \n|\
    match\n|\
    match 1 length 1 rules 1\n|\
    match 1 length 1 rules 1 port\n|\
    match 1 length 1 rules 1 port \n|\
    match 1 length 1 rules 1 port 1023\n|\
    match 1 length 1 rules 1 port 65281\n|\
    match 1 length 0 rules 1 port 4000\n|\
    match 1 length 100 rules 1 port 4000\n|\
    match 1 length 1 rules 0 port 4000\n|\
    match 1 length 1 rules 3 port 4000\n|\
    match 18446744073709551616 length 1 rules 1 port 4000\n|\
    match 99999999999999999999999 length 1 rules 1 port 4000\n|\
    match -1 length 1 rules 1 port 4000\n|\
    match 0x1 length 1 rules 1 port 4000\n|\
    match 1 length 1 port 4000 rules 1\n|\
    Match 1 length 1 rules 1 port 4000\n";

/// What says the same as the text of a match file, or more, is none: there is one text for each.
#[test]
fn other_texts_of_a_match(rt: HostRuntime) {
    let text = "match 7 length 3 rules 1 port 4000\n";
    check(&rt, MatchFile::parse(text).is_some(), text);
    check_none(&rt, OTHER_TEXTS);
}

const OTHER_TEXTS: &str = "\
    match 7 length 3 rules 1 port 4000|\
    match 7 length 3 rules 1 port 4000\n\n|\
    match 7 length 3 rules 1 port 4000\r\n|\
    match 7 length 3 rules 1 port 4000 \n|\
    match 7 length 3 rules 1 port 4000 more\n|\
    match 7 length 3 rules 1 port 4000\nmore|\
    \x20match 7 length 3 rules 1 port 4000\n|\
    match  7 length 3 rules 1 port 4000\n|\
    match 7  length 3 rules 1 port 4000\n|\
    match 7 length 3 rules 1  port 4000\n|\
    match\t7 length 3 rules 1 port 4000\n|\
    match +7 length 3 rules 1 port 4000\n|\
    match 07 length 3 rules 1 port 4000\n|\
    match 7 length 03 rules 1 port 4000\n|\
    match 7 length +3 rules 1 port 4000\n|\
    match 7 length 3 rules 01 port 4000\n|\
    match 7 length 3 rules +1 port 4000\n|\
    match 7 length 3 rules 1 port 04000\n|\
    match 7 length 3 rules 1 port +4000\n|\
    match 7 length 3 port 4000\n";

/// What a match file says, or why it can't be read.
fn read(host: &HostRuntime, path: &str) -> Result<Option<MatchFile>, ErrorKind> {
    match MatchFile::read(host, path) {
        Ok(file) => Ok(file),
        Err(error) => Err(error.kind()),
    }
}

/// A match file with these bytes says nothing.
fn check_unread(rt: &impl Host, path: &str, bytes: &[u8], what: &str) {
    write_file(rt, path, bytes);
    check(rt, read(rt.host(), path) == Ok(None), what);
}

#[test]
fn match_files_are_written_and_read(rt: HostRuntime) {
    check_written(&rt);
}

/// A match file is written and read, and what is none is not read.
fn check_written(rt: &impl Host) {
    let folder = new_folder(rt, "match-file");
    let (host, path) = (rt.host(), path_in(rt, folder, "match"));
    let is_missing = read(host, path) == Err(ErrorKind::NotFound);
    check(rt, is_missing, "no file before");
    FILE.write(host, folder).expect(rt, "a file is written");
    let is_own = bytes_in(rt, path) == TEXT.as_bytes() && mode_of(rt, path) == 0o600;
    check(rt, is_own, "its text, for its owner alone");
    check(rt, read(host, path) == Ok(Some(FILE)), "what was read");
    check_unread(rt, path, b"match 1", "a part of a line");
    check_unread(rt, path, TEXT.trim_end().as_bytes(), "no end of a line");
    check_unread(rt, path, &[0xff, 0xfe], "no text");
    remove_folder(rt, folder);
}

/// Makes a secret in a folder, and reads it.
fn made_secret(rt: &impl Host, folder: &str) -> [u8; 32] {
    make_secret(rt.host(), folder).expect(rt, "a secret is made");
    read_secret(rt.host(), folder).expect(rt, "a secret is read")
}

/// A file of these bytes is no secret.
fn check_no_secret(rt: &impl Host, folder: &str, path: &str, bytes: &[u8], what: &str) {
    write_file(rt, path, bytes);
    let is_refused = match read_secret(rt.host(), folder) {
        Ok(_) => false,
        Err(error) => error.kind() == ErrorKind::InvalidData,
    };
    check(rt, is_refused, what);
}

#[test]
fn secrets(rt: HostRuntime) {
    check_secrets(&rt);
}

/// Each secret is another one, for its owner alone, and what is none is not read.
fn check_secrets(rt: &impl Host) {
    let folder = new_folder(rt, "secret");
    let path = path_in(rt, folder, "secret");
    let first = made_secret(rt, folder);
    check(rt, mode_of(rt, path) == 0o600, "for its owner alone");
    check(rt, made_secret(rt, folder) != first, "another secret");
    check_no_secret(rt, folder, path, &[1; 33], "33 bytes");
    check_no_secret(rt, folder, path, &[1; 31], "31 bytes");
    check_no_secret(rt, folder, path, &[], "no bytes");
    remove_folder(rt, folder);
}

/// A file is published with this text, and has it.
fn check_published(rt: &impl Host, path: &str, text: &str) {
    let bytes = text.as_bytes();
    publish(rt.host(), path, bytes).expect(rt, "a file is published");
    check(rt, bytes_in(rt, path) == bytes, text);
}

#[test]
fn published_files(rt: HostRuntime) {
    check_publishing(&rt);
}

/// Each text stands in the place of the one before.
fn check_publishing(rt: &impl Host) {
    let folder = new_folder(rt, "published");
    let path = path_in(rt, folder, "board");
    check_published(rt, path, "first");
    check_published(rt, path, "the second");
    check_published(rt, path, "");
    remove_folder(rt, folder);
}
