//! JSON strings.
ghost use Rattle.std.specs.Prelude.{◌≡◌, ◌++◌, OnOk};
ghost use Rattle.bg_states.specs.Quoting.{escaped, escaped_byte, quoted};

use bg_text::put_text;
use std::alloc::AllocError;

/// Adds a text as a JSON string, in quotes: each quote and each backslash gets a backslash before
/// it, and each byte below 32 becomes a blank.
///
/// # Errors
/// `AllocError` if memory runs out; part of the string may have been added by then.
pub fn put_quoted(out: &mut Vec<u8>, text: &str) -> Result<(), AllocError>
    ensures { OnOk result (out.new.items ≡ out.old.items ++ quoted text.now) }
{
    put_text(out, "\"")?;
    put_escaped(out, text.as_bytes())?;
    put_text(out, "\"")
}

/// Adds the bytes of a text, escaped as inside a JSON string.
fn put_escaped(out: &mut Vec<u8>, bytes: &[u8]) -> Result<(), AllocError>
    ensures { OnOk result (out.new.items ≡ out.old.items ++ escaped bytes.now) }
{
    for byte in bytes {
        put_byte(out, *byte)?;
    }
    Ok(())
}

/// Adds one byte of a text, escaped as inside a JSON string.
fn put_byte(out: &mut Vec<u8>, byte: u8) -> Result<(), AllocError>
    ensures { OnOk result (out.new.items ≡ out.old.items ++ escaped_byte byte) }
{
    if byte == b'"' || byte == b'\\' {
        put_text(out, "\\")?;
    }
    out.push(if byte < 32 { 32 } else { byte })?;
    Ok(())
}
