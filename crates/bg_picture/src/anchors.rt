//! The names of a page's items, which its address can hold.
ghost use Rattle.std.specs.Prelude.{◌≡◌, ◌++◌, OnOk};
ghost use Rattle.std.specs.Fmt.{decimal};
ghost use Rattle.bg_picture.specs.Items.{anchor_text};

use bg_match::Number;
use bg_text::{put_number, put_text};
use std::alloc::AllocError;

/// The item that a name stands for.
#[derive(Clone, Copy)]
pub(crate) enum Anchor {
    /// The start of the game with this number.
    Start(u8),
    /// The entry with this number.
    Entry(Number),
    /// The result of the game with this number.
    Result(u8),
}

/// Appends the name of an item.
#[tactic(auto, unfolding(crate::specs::Items::anchor_text))]
pub(crate) fn put_anchor(out: &mut Vec<u8>, anchor: Anchor) -> Result<(), AllocError>
    ensures { OnOk result (out.new.items ≡ out.old.items ++ anchor_text anchor) }
{
    match anchor {
        Anchor::Start(game) => put_name(out, "start", game.into()),
        Anchor::Entry(number) => put_name(out, "p", number.into()),
        Anchor::Result(game) => put_name(out, "result", game.into()),
    }
}

/// Appends a word and a number.
fn put_name(out: &mut Vec<u8>, word: &str, number: u64) -> Result<(), AllocError>
    ensures { OnOk result (out.new.items ≡ out.old.items ++ word.now ++ decimal number) }
{
    put_text(out, word)?;
    put_number(out, number)
}
