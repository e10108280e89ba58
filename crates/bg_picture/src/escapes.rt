//! Escaping foreign text in a page.
ghost use Rattle.std.specs.Prelude.{◌≡◌, ◌++◌, OnOk};
ghost use Rattle.bg_picture.specs.Escapes.{escaped, escaped_byte};

use bg_text::put_text;
use std::alloc::AllocError;

/// Appends a foreign text, escaped so that none of it is read as mark-up. A control character
/// becomes a space.
#[tactic(auto, unfolding(crate::specs::Escapes::escaped))]
pub(crate) fn put_escaped(out: &mut Vec<u8>, text: &str) -> Result<(), AllocError>
    ensures { OnOk result (out.new.items ≡ out.old.items ++ escaped text.now) }
{
    for byte in text.as_bytes() {
        put_byte(out, *byte)?;
    }
    Ok(())
}

/// Appends a byte of such a text.
#[tactic(auto, unfolding(crate::specs::Escapes::escaped_byte))]
fn put_byte(out: &mut Vec<u8>, byte: u8) -> Result<(), AllocError>
    ensures { OnOk result (out.new.items ≡ out.old.items ++ escaped_byte byte) }
{
    match byte {
        b'&' => put_text(out, "&amp;"),
        b'<' => put_text(out, "&lt;"),
        b'>' => put_text(out, "&gt;"),
        b'"' => put_text(out, "&quot;"),
        b'\'' => put_text(out, "&#39;"),
        0..32 => put_text(out, " "),
        _ => out.extend_from_slice(&[byte]),
    }
}
