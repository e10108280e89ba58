//! Texts that grow at their end.
ghost use Rattle.std.specs.Prelude.{◌≡◌, ◌++◌, ◌-◌, ◌≤◌, length, max, replicate, OnOk};

use bg_text::put_text;
use std::alloc::AllocError;

/// Appends this number of blanks.
pub(crate) fn put_blanks(out: &mut Vec<u8>, count: usize) -> Result<(), AllocError>
    ensures { OnOk result (out.new.items ≡ out.old.items ++ replicate count 32) }
{
    for written in 0..count {
        put_text(out, " ")?;
    }
    Ok(())
}

/// Appends blanks up to this width of the text from `start` on, but at least one.
pub(crate) fn pad(out: &mut Vec<u8>, start: usize, width: usize) -> Result<(), AllocError>
    requires { start ≤ length out.old.items }
    ensures { OnOk result (out.new.items
        ≡ out.old.items ++ replicate (max 1 (width - (length out.old.items - start))) 32) }
{
    let written = out.len() - start;
    put_blanks(out, width.saturating_sub(written).max(1))
}
