//! Key files, and the secret that their keys are derived from.
use crate::checks::{check, check_number, is_printed};
use crate::helpers::folders::{bytes_in, mode_of, new_folder, path_in, remove_folder, write_file};
use crate::helpers::hosts::{Host, Hosted};
use crate::system::key_texts::{BAD, GOOD, is_good};
use crate::system::seals::keys::{SECRET, key_of, secret};
use bg_match::{Rules, Terms};
use bg_seals::{Key, MasterSecret};
use bg_system::{
    KeyFile, KeyFiles, Keyring, MatchFile, Names, make_key_secret, name_of_key_file,
    read_key_secret,
};
use std::alloc::Global;
use std::io::ErrorKind;
use std::process::Abort;

const TABLE: MatchFile = MatchFile {
    id: 1,
    terms: Terms {
        length: 3,
        rules: Rules::One,
    },
    port: 4000,
};

/// That of player O, with a key of the bytes 0 to 31.
const TEXT: &str = "match 1 length 3 rules 1 port 4000
key 2 000102030405060708090a0b0c0d0e0f101112131415161718191a1b1c1d1e1f
";

/// That of those who watch, with the key that is derived from a secret of these bytes, as another
/// program computed it.
const DERIVED: &str = "match 1 length 3 rules 1 port 4000
key 3 f23c903e8be5d05a05177d2a64c1f60431eea1d42c09d41b9152479ea4e9f0a2
";

/// Whether it is that of a party of the match, and has these bytes as its key.
fn is_of(file: &KeyFile, party: u8, key: &[u8]) -> bool {
    file.table == TABLE && file.party == party && file.key.bytes().as_slice() == key
}

/// Whether a file that is made of a key has its text.
fn is_made(alloc: Global) -> bool {
    let file = KeyFile {
        table: TABLE,
        names: Names::none(),
        party: 2,
        key: Key::new(&SECRET),
    };
    is_printed(alloc, &file, TEXT)
}

/// Whether one whose key is derived has its text.
fn is_derived(alloc: Global) -> bool {
    is_printed(alloc, &KeyFile::derive(TABLE, &secret(), 3), DERIVED)
}

/// Whether the text is read as what it says, and no message can have its key by mistake.
fn is_parsed(alloc: Global) -> bool {
    match KeyFile::parse(TEXT) {
        Some(file) => is_of(&file, 2, &SECRET) && hides_key(alloc, &file),
        None => false,
    }
}

fn hides_key(alloc: Global, file: &KeyFile) -> bool {
    match format!(in alloc; "{file:?}") {
        Ok(shown) => shown.contains("Key(..)") && !shown.contains("0a"),
        Err(_) => false,
    }
}

#[test]
fn texts_of_key_files(rt: HostRuntime) {
    check_texts(&rt, rt.alloc());
}

/// Files have their texts, and a text its file.
fn check_texts(rt: &impl Abort, alloc: Global) {
    check(rt, is_made(alloc), "that of player O");
    check(rt, is_derived(alloc), "that of who watches");
    check(rt, is_parsed(alloc), "what was read, without its key");
}

#[test]
fn texts_of_no_key_file(rt: HostRuntime) {
    check_rows(&rt, GOOD, true);
    check_rows(&rt, BAD, false);
}

/// All rows between bars are those of key files, or none is.
fn check_rows(rt: &(impl AllocGlobal + Abort), rows: &str, are_good: bool) {
    for row in rows.split('|') {
        check(rt, is_good(rt.alloc(), row) == Some(are_good), row);
    }
}

/// What is at a path: the key file of this party, another one, none, or no file.
fn found(host: &HostRuntime, path: &str, party: u8) -> &'static str {
    match KeyFile::read(host, path) {
        Ok(Some(file)) if is_of(&file, party, key_of(1, party).bytes()) => "own",
        Ok(Some(_)) => "another",
        Ok(None) => "none",
        Err(error) if error.kind() == ErrorKind::NotFound => "missing",
        Err(_) => "broken",
    }
}

/// Whether the file with the key of a party is written, for its owner alone.
fn writes_key(host: &HostRuntime, folder: &str, party: u8) -> bool {
    let file = KeyFile::derive(TABLE, &secret(), party);
    file.write(host, folder).is_ok()
}

/// A key file with these bytes is none.
fn check_unread(rt: &impl Host, path: &str, bytes: &[u8], what: &str) {
    write_file(rt, path, bytes);
    check(rt, found(rt.host(), path, 0) == "none", what);
}

/// The file with the key of a party is written and read, by this name.
fn check_file(rt: &impl Host, folder: &str, party: u8, name: &str) {
    let (host, path) = (rt.host(), path_in(rt, folder, name));
    let is_missing = found(host, path, party) == "missing";
    check(rt, is_missing && name_of_key_file(party) == name, name);
    check(rt, writes_key(host, folder, party), "it is written");
    let is_own = found(host, path, party) == "own" && mode_of(rt, path) == 0o600;
    check(rt, is_own, name);
    check_unread(rt, path, TEXT.trim_end().as_bytes(), "no end of a line");
    check_unread(rt, path, b"match 1", "a part of a line");
    check_unread(rt, path, &[0xff, 0xfe], "no text");
}

#[test]
fn key_files_are_written_and_read(rt: HostRuntime) {
    check_files(&rt);
}

/// Each party has a file of its own.
fn check_files(rt: &impl Host) {
    let folder = new_folder(rt, "key-files");
    check_file(rt, folder, 1, "match-x");
    check_file(rt, folder, 2, "match-o");
    check_file(rt, folder, 3, "match-watch");
    remove_folder(rt, folder);
}

/// What a party seals for a referee, by the key of this secret, and whether that referee opens it.
fn is_opened(keys: &Keyring, secret: &MasterSecret, party: u8) -> bool {
    let own = Keyring::OfParty(secret.key_of(1, party));
    match own.seal(party, 0, b"packet") {
        Some(datagram) => keys.open(party, 0, datagram.as_slice()).is_some(),
        None => false,
    }
}

/// The keys of a referee that has key files of one secret, and for O one of another.
fn keys_of_files(secret: &MasterSecret, other: &MasterSecret) -> Keyring {
    let mut files = KeyFiles::derive(TABLE, secret);
    files.o = KeyFile::derive(TABLE, other, 2);
    Keyring::of_key_files(files)
}

/// A referee that has key files opens what each party seals by its own, as one that has their
/// secret.
#[test]
fn a_referee_with_key_files(rt: HostRuntime) {
    check_referee(&rt);
}

/// Those of X and of who watches are of one secret, and that of O is of another.
fn check_referee(rt: &impl Abort) {
    let (secret, other) = (secret(), MasterSecret::new(&[9; 32]));
    let keys = keys_of_files(&secret, &other);
    for party in 1..4 {
        let holds = is_opened(&keys, &secret, party) == (party != 2)
            && is_opened(&keys, &other, party) == (party == 2);
        check_number(rt, "party", party.into(), holds);
    }
}

fn make_secret(rt: &impl Host, folder: &str) {
    make_key_secret(rt.host(), folder).expect(rt, "a secret is made");
}

/// Whether the secret in a folder has this key of a party of match 1, or why it can't be read.
fn has_key(host: &HostRuntime, folder: &str, party: u8) -> Result<bool, ErrorKind> {
    match read_key_secret(host, folder) {
        Ok(read) => Ok(*read.key_of(1, party).bytes() == *key_of(1, party).bytes()),
        Err(error) => Err(error.kind()),
    }
}

#[test]
fn secrets_of_keys(rt: HostRuntime) {
    check_secrets(&rt);
}

/// Each secret is another one, and keys are derived from what its file has.
fn check_secrets(rt: &impl Host) {
    let folder = new_folder(rt, "key-secret");
    let path = path_in(rt, folder, "key-secret");
    make_secret(rt, folder);
    let first = bytes_in(rt, path);
    make_secret(rt, folder);
    check(rt, bytes_in(rt, path) != first, "another secret");
    write_file(rt, path, &SECRET);
    let is_known = has_key(rt.host(), folder, 3) == Ok(true);
    check(rt, is_known, "a known secret");
    write_file(rt, path, &[1; 31]);
    let is_refused = has_key(rt.host(), folder, 3) == Err(ErrorKind::InvalidData);
    check(rt, is_refused, "31 bytes");
    remove_folder(rt, folder);
}
