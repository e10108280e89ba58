//! HMAC-SHA-256 in the test cases of RFC 4231, and at the ends of blocks.
use crate::checks::{check, check_number};
use crate::helpers::words::word;
use crate::system::words::bytes_of;
use bg_seals::{HMAC_BYTES, HmacSha256};
use std::process::Abort;

/// The test cases: key, text, what the HMAC begins with, which is all of it but in case 5, and the
/// name. The texts are "Hi There", "what do ya want for nothing?", "Test With Truncation" and
/// longer ones, under the key "Jefe" and others.
const CASES: &str = "\
0b*20 4869205468657265 b0344c61d8db38535ca8afceaf0bf12b881dc200c9833da726e9376c2e32cff7 case_1
4a656665 7768617420646f2079612077616e7420666f72206e6f7468696e673f \
    5bdcc146bf60754e6a042426089575c75a003f089d2739839dec58b964ec3843 case_2
aa*20 dd*50 773ea91e36800e46854db8ebd09181a72959098b3ef8c122d9635514ced565fe case_3
0102030405060708090a0b0c0d0e0f10111213141516171819 cd*50 \
    82558a389a443c0ea4cc819899f2083a85f0faa3e578f8077a2e3ff46729665b case_4
0c*20 546573742057697468205472756e636174696f6e a3b6167473100ee06e0c796c2955552b case_5_is_truncated
aa*131 \
    54657374205573696e67204c6172676572205468616e20426c6f636b2d53697a65204b6579202d20\
    48617368204b6579204669727374 \
    60e431591ee0b67f0d8a26aacbf5b77f8e0bc6213728c5140546040f0ee37f54 case_6
aa*131 \
    5468697320697320612074657374207573696e672061206c6172676572207468616e20626c6f636b\
    2d73697a65206b657920616e642061206c6172676572207468616e20626c6f636b2d73697a652064\
    6174612e20546865206b6579206e6565647320746f20626520686173686564206265666f72652062\
    65696e6720757365642062792074686520484d414320616c676f726974686d2e \
    9b09ffa71b942fcb27635fbcd5b0e944bfdc63644f0713938a7f51535c3a35e2 case_7
";

/// Returns the HMAC of a text that is taken in two pieces.
fn hmac_of(key: &[u8], first: &[u8], second: &[u8]) -> [u8; HMAC_BYTES] {
    let mut hasher = HmacSha256::new(key);
    hasher.update(first);
    hasher.update(second);
    hasher.finalize()
}

/// Whether a text has this HMAC, taken in two pieces of which the first has so many bytes.
fn has_hmac(key: &[u8], text: &[u8], first: usize, hmac: &[u8]) -> bool {
    match text.split_at_checked(first) {
        Some((one, other)) => hmac_of(key, one, other).as_slice() == hmac,
        None => false,
    }
}

/// The HMAC of a row begins as it says, and is one however the text is taken in two pieces.
fn check_row(rt: &(impl AllocGlobal + Abort), row: &str) {
    let key = bytes_of(rt, word(rt, row, 0));
    let text = bytes_of(rt, word(rt, row, 1));
    let hmac = hmac_of(key, text, b"");
    let begins = bytes_of(rt, word(rt, row, 2));
    check(rt, hmac.starts_with(begins), row);
    for first in 0..text.len() {
        check_number(rt, row, first as u64, has_hmac(key, text, first, &hmac));
    }
}

/// The rows hold.
fn check_rows(rt: &(impl AllocGlobal + Abort), rows: &str) {
    for row in rows.lines() {
        check_row(rt, row);
    }
}

#[test]
fn cases_of_the_rfc(rt: HostRuntime) {
    check_rows(&rt, CASES);
}

/// Keys of so many bytes 0x61, texts of so many bytes 0x62, and what the HMACs begin with.
const AT_ENDS_OF_BLOCKS: &str = "\
- - b613679a
61*63 62*63 3d69e1f4
61*64 - b389ef8f
61*64 62*64 f6cbb37b
61*65 62*55 12e2bd48
61*65 62*56 af502df4
61*128 62*64 143498ca
61*128 62*128 f438a6c2
";

#[test]
fn ends_of_blocks(rt: HostRuntime) {
    check_rows(&rt, AT_ENDS_OF_BLOCKS);
}
