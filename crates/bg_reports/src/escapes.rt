//! Escaping foreign bytes, so that they can't break a terminal, and cutting them to its width.
ghost use Rattle.std.specs.Prelude.{◌≡◌, ◌<◌, ◌++◌, IfOk, OnOk};
ghost use Rattle.bg_reports.specs.Harmless.{cut, hex_digit, shown as shown_text, shown_byte};

use bg_text::put_text;
use std::alloc::{AllocError, Global};

/// The mark that something was cut off.
const DOTS: &str = "...";

/// Number of columns of that mark.
const DOTS_COLUMNS: usize = 3;

/// Returns bytes as they are shown in this number of columns (docs/FORMATS.md, "Checking files").
/// Printable ASCII stays as it is, other bytes are escaped, and a longer text is cut and ends with
/// three dots.
///
/// # Errors
/// `AllocError` where memory runs out.
pub fn harmless(alloc: Global, bytes: &[u8], room: usize) -> Result<Vec<u8>, AllocError>
    ensures { IfOk result (λ text. text.items ≡ cut room (shown_text bytes.now)) }
{
    // Each byte takes at least one column.
    let seen = bytes.len().min(room.saturating_add(1));
    let mut text = shown(alloc, &bytes[..seen])?;
    cut_off(&mut text, room)?;
    Ok(text)
}

/// Cuts a text to this number of columns.
fn cut_off(text: &mut Vec<u8>, room: usize) -> Result<(), AllocError>
    ensures { OnOk result (text.new.items ≡ cut room text.old.items) }
{
    if text.len() <= room {
        return Ok(());
    }
    text.truncate(room.saturating_sub(DOTS_COLUMNS));
    if room < DOTS_COLUMNS {
        return Ok(());
    }
    put_text(text, DOTS)
}

/// Returns bytes as they are shown, without cutting.
fn shown(alloc: Global, bytes: &[u8]) -> Result<Vec<u8>, AllocError>
    ensures { IfOk result (λ text. text.items ≡ shown_text bytes.now) }
{
    let mut text = Vec::new(alloc);
    for byte in bytes {
        put_byte(&mut text, *byte)?;
    }
    Ok(text)
}

/// Appends a byte as it is shown.
fn put_byte(out: &mut Vec<u8>, byte: u8) -> Result<(), AllocError>
    ensures { OnOk result (out.new.items ≡ out.old.items ++ shown_byte byte) }
{
    match byte {
        b'\t' => put_text(out, "\\t"),
        b'\r' => put_text(out, "\\r"),
        b'\\' => put_text(out, "\\\\"),
        b' '..=b'~' => Ok(out.push(byte)?),
        _ => out.extend_from_slice(&[b'\\', b'x', hex(byte / 16), hex(byte % 16)]),
    }
}

/// Returns a digit to the base 16.
fn hex(digit: u8) -> u8
    requires { digit < 16 }
    ensures { result ≡ hex_digit digit }
{
    if digit < 10 {
        b'0' + digit
    } else {
        b'a' + (digit - 10)
    }
}
