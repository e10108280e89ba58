//! What the words of scripts say: packets, and how a seat stands.
use bg_processes::Presence;
use std::process::Abort;

/// The packets of scripts, by their names: a seat asks the referee of match 7 for all entries, and
/// the referee tells the opening 5 6. Others are none.
const PACKETS: [(&str, &[u8]); 6] = [
    ("x-wants", b"BG\x02\x01\0\0\0\0\0\0\0\x07\x01\x01\0\0\0\0"),
    ("o-wants", b"BG\x02\x01\0\0\0\0\0\0\0\x07\x01\x02\0\0\0\0"),
    (
        "opening",
        b"BG\x02\x03\0\0\0\0\0\0\0\x07\x01\0\0\0\x01\x01\x01\x05\x06",
    ),
    ("rubbish", b"rubbish"),
    ("300-sevens", &[7; 300]),
    ("no-bytes", b""),
];

/// The packet of a name; none of "nothing".
pub(super) fn packet_of(rt: &impl Abort, word: &str) -> Option<&'static [u8]> {
    if word == "nothing" {
        return None;
    }
    for (name, bytes) in &PACKETS {
        if *name == word {
            return Some(*bytes);
        }
    }
    panic!(rt; "no packet: {word}")
}

/// How the other seat stands by a word; none of "nothing".
pub(super) fn presence_of(rt: &impl Abort, word: &str) -> Option<Presence> {
    if word == "unheard" {
        Some(Presence::Unheard)
    } else if word == "here" {
        Some(Presence::Here)
    } else if word == "away" {
        Some(Presence::Away)
    } else {
        assert!(rt; word == "nothing", "no presence: {word}");
        None
    }
}
