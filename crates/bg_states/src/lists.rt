//! JSON lists.
ghost use Rattle.std.specs.Prelude.{◌≡◌, ◌++◌, OnOk};
ghost use Rattle.bg_states.specs.Lists.{comma_text, numbers_text, some_text};

use bg_text::{put_number, put_text};
use std::alloc::AllocError;

/// Adds the comma that precedes an item of a list; before the first item, adds nothing.
pub(crate) fn put_comma(out: &mut Vec<u8>, first: bool) -> Result<(), AllocError>
    ensures { OnOk result (out.new.items ≡ out.old.items ++ comma_text first) }
{
    if first {
        return Ok(());
    }
    put_text(out, ",")
}

/// Adds a list of numbers in brackets, such as `[6,5]`.
pub(crate) fn put_numbers(out: &mut Vec<u8>, numbers: &[u8]) -> Result<(), AllocError>
    ensures { OnOk result (out.new.items ≡ out.old.items ++ numbers_text numbers.now) }
{
    put_text(out, "[")?;
    put_items(out, true, numbers)?;
    put_text(out, "]")
}

/// Adds numbers with commas between them.
///
/// `first` says whether the first of these numbers is also the first of the list, which no comma
/// precedes.
fn put_items(out: &mut Vec<u8>, first: bool, numbers: &[u8]) -> Result<(), AllocError>
    ensures { OnOk result (out.new.items ≡ out.old.items ++ some_text first numbers.now) }
{
    let Some((number, rest)) = numbers.split_first() else {
        return Ok(());
    };
    put_comma(out, first)?;
    put_number(out, (*number).into())?;
    put_items(out, false, rest)
}
