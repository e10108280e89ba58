//! Keys that are derived, and what is shown of them.
use crate::checks::check;
use crate::helpers::words::{small_number, word};
use crate::system::words::{bytes_of, number};
use bg_seals::{KEY_BYTES, Key, MasterSecret};
use std::alloc::Global;
use std::process::Abort;

/// The bytes 0 to 31.
pub(crate) const SECRET: [u8; KEY_BYTES] = [
    0x00, 0x01, 0x02, 0x03, 0x04, 0x05, 0x06, 0x07, 0x08, 0x09, 0x0a, 0x0b, 0x0c, 0x0d, 0x0e, 0x0f,
    0x10, 0x11, 0x12, 0x13, 0x14, 0x15, 0x16, 0x17, 0x18, 0x19, 0x1a, 0x1b, 0x1c, 0x1d, 0x1e, 0x1f,
];

/// The secret of these bytes.
pub(crate) fn secret() -> MasterSecret {
    MasterSecret::new(&SECRET)
}

/// The key of a party of a match under that secret.
pub(crate) fn key_of(id: u64, party: u8) -> Key {
    secret().key_of(id, party)
}

/// Matches, parties of them, and their keys under that secret.
const DERIVED: &str = "\
1 1 4db59b1d8f16a5d3379029aabd11ebef21e847fce1b95118a521747b0f6881de
1 2 0e3e8a72cc717b71420c8fea907a5730ca808c0448105c67e0fc1d8e7569a20a
1 3 f23c903e8be5d05a05177d2a64c1f60431eea1d42c09d41b9152479ea4e9f0a2
2 1 40ea6da16baf2f861c145238342293ab78882d088cfb551f037bb0ba9fa4ab71
72623859790382856 1 328d5d9951cc4daa78e7633af6f0eeea043a516c70cd5ef3ede0071992df3208
18446744073709551615 255 849d5427a3ee01a7117529de772acf8a662b4543969e256169077cf03717205a
";

fn check_key(rt: &(impl AllocGlobal + Abort), row: &str) {
    let id = number(rt, word(rt, row, 0));
    let party = small_number(rt, word(rt, row, 1));
    let bytes = bytes_of(rt, word(rt, row, 2));
    let key = key_of(id, party);
    check(rt, key.bytes().as_slice() == bytes, row);
}

#[test]
fn derived_keys(rt: HostRuntime) {
    for row in DERIVED.lines() {
        check_key(&rt, row);
    }
}

#[test]
fn keys_are_not_shown(rt: HostRuntime) {
    check(&rt, are_hidden(rt.alloc()), "a key and a secret are hidden");
    check(
        &rt,
        *Key::new(&SECRET).bytes() == SECRET,
        "the bytes of a key",
    );
}

/// Whether a key and a secret are shown without their bytes.
fn are_hidden(alloc: Global) -> bool {
    let (key, secret) = (Key::new(&SECRET), secret());
    match format!(in alloc; "{key:?} {secret:?}") {
        Ok(shown) => shown.as_str() == "Key(..) MasterSecret(..)",
        Err(_) => false,
    }
}
