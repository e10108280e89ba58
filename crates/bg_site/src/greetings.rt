//! Frames for a peer other than the state: the greeting, and who is present.

use crate::frames::frame_of;
use crate::making::digits_of;
use crate::presences::Presence;
use bg_board::Player;
use bg_requests::Digest;
use bg_states::{letter_of, put_quoted, truth};
use bg_system::{Name, Names};
use bg_text::{put_number, put_text};
use bytes::Bytes;
use std::alloc::{AllocError, Global};

/// Returns the frame that greets a peer: the name of its match, the names of the players, its seat,
/// and the SHA-256 of the secret of the dice.
pub(crate) fn greeting_frame(
    alloc: Global,
    name: &str,
    names: &Names,
    seat: Option<Player>,
    digest: &Option<Digest>,
) -> Result<Bytes, AllocError> {
    let digits = digits_of(alloc, digest)?;
    let mut out = Vec::new(alloc);
    put_greeting(&mut out, name, names, seat)?;
    put_text(&mut out, ",\"dice\":\"")?;
    put_text(&mut out, digits.as_str())?;
    put_text(&mut out, "\"}")?;
    frame_of(alloc, &out)
}

/// Adds the name of the match, the names of its players, and the seat of a peer.
fn put_greeting(
    out: &mut Vec<u8>,
    name: &str,
    names: &Names,
    seat: Option<Player>,
) -> Result<(), AllocError> {
    put_text(out, "{\"match\":")?;
    put_quoted(out, name)?;
    put_names(out, names)?;
    put_text(out, ",\"you\":\"")?;
    put_text(out, letter_of(seat))?;
    put_text(out, "\"")
}

/// Adds the names of the players.
pub(crate) fn put_names(out: &mut Vec<u8>, names: &Names) -> Result<(), AllocError> {
    put_text(out, ",\"names\":[")?;
    put_name(out, &names.x)?;
    put_text(out, ",")?;
    put_name(out, &names.o)?;
    put_text(out, "]")
}

/// Adds a name, or an empty one if there is none.
fn put_name(out: &mut Vec<u8>, name: &Option<Name>) -> Result<(), AllocError> {
    match name {
        None => put_quoted(out, ""),
        Some(name) => put_quoted(out, name.as_str()),
    }
}

/// Returns the frame that says who is present.
pub(crate) fn presence_frame(alloc: Global, presence: Presence) -> Result<Bytes, AllocError> {
    let mut out = Vec::new(alloc);
    put_text(&mut out, "{")?;
    put_presence(&mut out, presence)?;
    put_text(&mut out, "}")?;
    frame_of(alloc, &out)
}

/// Adds who is present: whether X and O are, and the number of watchers.
pub(crate) fn put_presence(out: &mut Vec<u8>, presence: Presence) -> Result<(), AllocError> {
    put_text(out, "\"here\":[")?;
    put_text(out, truth(presence.x > 0))?;
    put_text(out, ",")?;
    put_text(out, truth(presence.o > 0))?;
    put_text(out, ",")?;
    put_number(out, presence.watching.into())?;
    put_text(out, "]")
}
