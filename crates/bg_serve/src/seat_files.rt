//! The file of a match that says who may play it: the SHA-256 of each seat's secret.

use crate::durable::{OWNER_ALONE, read_text, replace_file};
use bg_board::Player;
use bg_console::path_in;
use bg_site::{Digest, Seats, digest_of};
use std::alloc::{AllocError, Global};
use std::fs::OpenOptions;
use std::io;
use std::io::{ErrorKind, Write};
use std::os::unix::fs::OpenOptionsExt;
use std::random::RandomSource;

/// The name of the file.
const NAME: &str = "seats";

/// Returns `count` random bytes, at most 16, as hexadecimal digits.
pub(crate) fn random_digits(rt: &HostRuntime, count: usize) -> io::Result<String> {
    let mut bytes = [0u8; 16];
    rt.fill_bytes(&mut bytes)?;
    let mut text = String::new(rt.alloc());
    put_hex(&mut text, &bytes[..count.min(16)])?;
    Ok(text)
}

/// Returns the seats of a match; `None` if its folder doesn't say who may play it.
///
/// # Errors
/// The reason why the file can't be read; `InvalidData` if it is malformed.
pub(crate) fn read_seats(rt: &HostRuntime, folder: &str) -> io::Result<Option<Seats>> {
    let Some(text) = read_text(rt, folder, NAME)? else {
        return Ok(None);
    };
    match seats_in(text.as_str()) {
        Some(seats) => Ok(Some(seats)),
        None => Err(io::Error::from(ErrorKind::InvalidData)),
    }
}

/// Parses the text of the file: two lines, `x DIGEST` and `o DIGEST`.
fn seats_in(text: &str) -> Option<Seats> {
    let (first, rest) = text.split_once('\n')?;
    let second = rest.strip_suffix('\n')?;
    Some(Seats {
        x: digest_in(first.strip_prefix("x ")?)?,
        o: digest_in(second.strip_prefix("o ")?)?,
    })
}

/// Parses a digest of 64 hexadecimal digits.
fn digest_in(text: &str) -> Option<Digest> {
    let mut digest = [0; 32];
    match hex::decode_to_slice(text, &mut digest) {
        Ok(()) => Some(digest),
        Err(_) => None,
    }
}

/// Gives a player's seat a new secret. The file is replaced atomically.
///
/// # Errors
/// The reason why the file can't be written.
pub(crate) fn replace_seat(
    rt: &HostRuntime,
    folder: &str,
    seats: Seats,
    player: Player,
    secret: &str,
) -> io::Result<()> {
    let digest = digest_of(secret);
    let seats = match player {
        Player::X => Seats { x: digest, ..seats },
        Player::O => Seats { o: digest, ..seats },
    };
    let text = seats_text(rt.alloc(), &seats)?;
    replace_file(rt, folder, NAME, text.as_str())
}

/// Returns the text of the file: two lines, `x DIGEST` and `o DIGEST`.
fn seats_text(alloc: Global, seats: &Seats) -> Result<String, AllocError> {
    let mut text = String::new(alloc);
    put_line(&mut text, "x ", &seats.x)?;
    put_line(&mut text, "o ", &seats.o)?;
    Ok(text)
}

/// Writes the file that says who may play a match: those who know these secrets. The secrets
/// themselves are not stored.
///
/// # Errors
/// The reason why the file can't be written.
pub(crate) fn write_seats(rt: &HostRuntime, folder: &str, x: &str, o: &str) -> io::Result<Seats> {
    let seats = Seats {
        x: digest_of(x),
        o: digest_of(o),
    };
    let text = seats_text(rt.alloc(), &seats)?;
    write_new(rt, folder, text.as_str())?;
    Ok(seats)
}

/// Writes the file in a folder that has none yet, and syncs it.
fn write_new(rt: &HostRuntime, folder: &str, text: &str) -> io::Result<()> {
    let path = path_in(rt.alloc(), folder, NAME)?;
    let mut file = OpenOptions::new()
        .write(true)
        .create_new(true)
        .mode(OWNER_ALONE)
        .open(rt, path.as_str())?;
    file.write_all(text.as_bytes())?;
    file.sync_all()
}

fn put_line(text: &mut String, word: &str, digest: &Digest) -> Result<(), AllocError> {
    text.push_str(word)?;
    put_hex(text, digest)?;
    text.push('\n')
}

/// Appends bytes as hexadecimal digits.
fn put_hex(text: &mut String, bytes: &[u8]) -> Result<(), AllocError> {
    for byte in bytes.iter() {
        text.push(hex_digit(byte / 16))?;
        text.push(hex_digit(byte % 16))?;
    }
    Ok(())
}

/// Returns the hexadecimal digit of a number below 16.
fn hex_digit(number: u8) -> char {
    char::from_digit(number.into(), 16).unwrap_or('0')
}
