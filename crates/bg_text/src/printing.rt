//! Appending to texts.
ghost use Rattle.std.specs.Prelude.{◌≡◌, ◌++◌, OnOk};
ghost use Rattle.std.specs.Fmt.{decimal};

use std::alloc::AllocError;

/// Appends a text to another.
///
/// # Errors
/// AllocError where memory runs out. What `out` holds then is unspecified.
pub fn put_text(out: &mut Vec<u8>, text: &str) -> Result<(), AllocError>
    ensures { OnOk result (out.new.items ≡ out.old.items ++ text.now) }
{
    out.extend_from_slice(text.as_bytes())
}

/// Appends a number in decimal, without leading zeros, to a text.
///
/// # Errors
/// AllocError where memory runs out. What `out` holds then is unspecified.
pub fn put_number(out: &mut Vec<u8>, number: u64) -> Result<(), AllocError>
    ensures { OnOk result (out.new.items ≡ out.old.items ++ decimal number) }
{
    put_text(out, itoa::Buffer::new().format(number))
}
