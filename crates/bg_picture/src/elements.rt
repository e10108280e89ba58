//! The elements of a picture.
ghost use Rattle.std.specs.Prelude.{◌≡◌, ◌++◌, OnOk};
ghost use Rattle.std.specs.Fmt.{decimal};
ghost use Rattle.bg_picture.specs.Elements.{element_text, group_start, group_end, place_text, words_start, words_end};
ghost use Rattle.bg_picture.specs.Elements.Element.{Shape, Words};

use bg_text::{put_number, put_text};
use std::alloc::AllocError;

/// Appends a shape at a place.
#[tactic(auto, unfolding(crate::specs::Elements::element_text))]
pub(crate) fn put_shape(out: &mut Vec<u8>, name: &str, x: u16, y: u16) -> Result<(), AllocError>
    ensures { OnOk result (out.new.items ≡ out.old.items ++ element_text (Shape name.now x y)) }
{
    put_text(out, "<use href='#")?;
    put_text(out, name)?;
    put_text(out, "'")?;
    put_place(out, x, y)?;
    put_text(out, "/>")?;
    Ok(())
}

/// Appends words at a place.
#[tactic(auto, unfolding(crate::specs::Elements::element_text))]
pub(crate) fn put_words(out: &mut Vec<u8>, x: u16, y: u16, words: &str) -> Result<(), AllocError>
    ensures { OnOk result (out.new.items ≡ out.old.items ++ element_text (Words x y words.now)) }
{
    begin_words(out, x, y)?;
    put_text(out, words)?;
    end_words(out)
}

/// Appends a number at a place.
#[tactic(auto, unfolding(crate::specs::Elements::element_text))]
pub(crate) fn put_count(out: &mut Vec<u8>, x: u16, y: u16, count: u16) -> Result<(), AllocError>
    ensures { OnOk result (out.new.items ≡ out.old.items ++ element_text (Words x y (decimal count))) }
{
    begin_words(out, x, y)?;
    put_number(out, count.into())?;
    end_words(out)
}

/// Appends what stands before words at a place.
#[tactic(auto, unfolding(crate::specs::Elements::words_start))]
pub(crate) fn begin_words(out: &mut Vec<u8>, x: u16, y: u16) -> Result<(), AllocError>
    ensures { OnOk result (out.new.items ≡ out.old.items ++ words_start x y) }
{
    put_text(out, "<text")?;
    put_place(out, x, y)?;
    put_text(out, ">")
}

/// Appends what stands behind words.
#[tactic(auto, unfolding(crate::specs::Elements::words_end))]
pub(crate) fn end_words(out: &mut Vec<u8>) -> Result<(), AllocError>
    ensures { OnOk result (out.new.items ≡ out.old.items ++ words_end) }
{
    put_text(out, "</text>")
}

/// Appends the attributes of a place.
#[tactic(auto, unfolding(crate::specs::Elements::place_text))]
fn put_place(out: &mut Vec<u8>, x: u16, y: u16) -> Result<(), AllocError>
    ensures { OnOk result (out.new.items ≡ out.old.items ++ place_text x y) }
{
    put_text(out, " x='")?;
    put_number(out, x.into())?;
    put_text(out, "' y='")?;
    put_number(out, y.into())?;
    put_text(out, "'")
}

/// Begins a group of a class of the style.
#[tactic(auto, unfolding(crate::specs::Elements::group_start))]
pub(crate) fn begin_group(out: &mut Vec<u8>, class: &str) -> Result<(), AllocError>
    ensures { OnOk result (out.new.items ≡ out.old.items ++ group_start class.now) }
{
    put_text(out, "<g class='")?;
    put_text(out, class)?;
    put_text(out, "'>")
}

/// Ends a group.
#[tactic(auto, unfolding(crate::specs::Elements::group_end))]
pub(crate) fn end_group(out: &mut Vec<u8>) -> Result<(), AllocError>
    ensures { OnOk result (out.new.items ≡ out.old.items ++ group_end) }
{
    put_text(out, "</g>")
}
