//! A typed text in the spelling of match files.
ghost use Rattle.std.specs.Prelude.{◌≡◌, ◌++◌, IfOk, OnOk, map};
ghost use Rattle.bg_typed.specs.Spelling.{ends_point as is_end, separates as is_separator};
ghost use Rattle.bg_typed.specs.Spelling.{spelled, spelled_byte, stands_for};

use std::alloc::{AllocError, Global};

/// Returns a byte in lower case, with a slash for a hyphen, and a blank for a comma.
fn spell_byte(byte: u8) -> u8
    ensures { result ≡ spelled_byte byte }
{
    match byte {
        b'A'..=b'Z' => byte + 32,
        b'-' => b'/',
        b',' => b' ',
        _ => byte,
    }
}

/// Returns whether a point may begin behind this byte: a blank or a slash.
fn separates(byte: u8) -> bool
    ensures { result ≡ is_separator byte }
{
    matches!(byte, b' ' | b'\t' | b'\r' | b'/')
}

/// Returns whether a point ends before these bytes. There are none, or a blank, a slash, the mark
/// of a hit or a bracket follows.
fn ends_point(typed: &[u8]) -> bool
    ensures { result ≡ is_end (map spelled_byte typed.now) }
{
    match typed.first() {
        Some(byte) => {
            let next = spell_byte(*byte);
            separates(next) || next == b'*' || next == b'('
        }
        None => true,
    }
}

/// Appends a byte, or what it stands for where it is alone.
fn put_byte(text: &mut Vec<u8>, byte: u8, alone: bool) -> Result<(), AllocError>
    ensures { OnOk result (text.new.items ≡ text.old.items ++ stands_for alone byte) }
{
    match (alone, byte) {
        (true, b'b') => text.extend_from_slice(b"bar"),
        (true, b'o') => text.extend_from_slice(b"off"),
        _ => Ok(text.push(byte)?),
    }
}

/// Returns a typed text in the spelling of match files.
pub(crate) fn spell(alloc: Global, typed: &[u8]) -> Result<Vec<u8>, AllocError>
    ensures { IfOk result (λ text. text.items ≡ spelled typed.now) }
{
    let mut text = Vec::new(alloc);
    let mut begins = true;
    let mut rest = typed;
    while let Some((first, behind)) = rest.split_first() {
        let byte = spell_byte(*first);
        put_byte(&mut text, byte, begins && ends_point(behind))?;
        begins = separates(byte);
        rest = behind;
    }
    Ok(text)
}
