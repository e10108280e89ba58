//! Texts of key files, and texts of none.
use bg_system::KeyFile;
use std::alloc::Global;

/// What is behind the first line, where "#" stands for the digits of a key: that of key files.
pub(crate) const GOOD: &str = "key 1 #\n|key 3 #\n";

/// The same of what is no key file. Rows without "#" are whole texts, and have no good first line,
/// or no good digits.
pub(crate) const BAD: &str = "\
    key 0 #\n|\
    key 4 #\n|\
    key 01 #\n|\
    key +1 #\n|\
    key 1  #\n|\
    key  1 #\n|\
    Key 1 #\n|\
    \nkey 1 #\n|\
    key 1 #|\
    key 1 #\n\n|\
    key 1 #\r\n|\
    key 1 # \n|\
    key 1 #0\n|\
    key 1 #00\n|\
    key 1 #\nkey 2 |\
    key 1 0#\n|\
    #\n|\
    match 1 length 3 rules 1 port 4000\n|\
    key 1 000102030405060708090a0b0c0d0e0f101112131415161718191a1b1c1d1e1f\n|\
    match 1 length 3 rules 1 port 4000\nkey 1 000102030405060708090A0b0c0d0e0f101112131415161718191a1b1c1d1e1f\n|\
    match 1 length 3 rules 1 port 4000\nkey 1 000102030405060708090g0b0c0d0e0f101112131415161718191a1b1c1d1e1f\n|\
    match 1 length 3 rules 3 port 4000\nkey 1 000102030405060708090a0b0c0d0e0f101112131415161718191a1b1c1d1e1f\n";

/// Whether a row is that of a key file, with the digits and behind the first line of a match.
pub(crate) fn is_good(alloc: Global, row: &str) -> Option<bool> {
    let Some((before, behind)) = row.split_once('#') else {
        return Some(KeyFile::parse(row).is_some());
    };
    let front = "match 1 length 3 rules 1 port 4000\n";
    let digits = "000102030405060708090a0b0c0d0e0f101112131415161718191a1b1c1d1e1f";
    let text = format!(in alloc; "{front}{before}{digits}{behind}").ok()?;
    Some(KeyFile::parse(text.as_str()).is_some())
}
