//! The items of a page, each with the data of its picture: the start of each game, its entries, and
//! its result.
ghost use Rattle.std.specs.Prelude.{◌≡◌, ◌++◌, OnOk, IfOk};
ghost use Rattle.bg_match.specs.Follows.{CanFollow, Follows};
ghost use Rattle.bg_picture.specs.Items.{entry_item, entry_items, game_heading, game_start, item_end, item_start};
ghost use Rattle.bg_picture.specs.Items.{item_tag, list_start, next_start, result_item, start_item, told_result};

use crate::anchors::{Anchor, put_anchor};
use crate::captions::{Caption, put_result};
use crate::descriptions::{crawford_words, put_game, put_score};
use crate::item_data::put_item_data;
use crate::wins::{End, end_of};
use bg_match::{Entry, Number, Phase, Standing};
use bg_text::{entry_text, put_number, put_text};
use std::alloc::AllocError;

/// Appends the items of an entry that follows, and returns the standing after it. Where the entry
/// ends a game, the game's result and the start of the next game follow as items of their own.
pub(crate) fn put_entry(
    out: &mut Vec<u8>,
    number: Number,
    standing: &Standing,
    entry: &Entry,
) -> Result<Standing, AllocError>
    requires { CanFollow standing.now entry.now }
    ensures { IfOk result (λ next. Follows standing.now entry.now next
        × (out.new.items ≡ out.old.items ++ entry_items number standing.now entry.now next)) }
{
    let next = standing.next(entry).unwrap();
    match end_of(standing, entry, &next) {
        None => put_entry_item(out, number, standing, entry, &next, Caption::Next)?,
        Some(end) => {
            let caption = Caption::Won(end.win);
            put_entry_item(out, number, standing, entry, &end.standing, caption)?;
            put_result_item(out, &end)?;
            put_next_start(out, number, &next)?;
        }
    }
    Ok(next)
}

/// Appends the item of an entry that follows, with the data of the standing that is shown for it.
#[tactic(auto, unfolding(crate::specs::Items::entry_item))]
fn put_entry_item(
    out: &mut Vec<u8>,
    number: Number,
    standing: &Standing,
    entry: &Entry,
    shown: &Standing,
    caption: Caption,
) -> Result<(), AllocError>
    requires { CanFollow standing.now entry.now }
    ensures { OnOk result (out.new.items
        ≡ out.old.items ++ entry_item number standing.now entry.now shown.now caption) }
{
    let seat = standing.actor().seat();
    begin_item(out, Anchor::Entry(number), shown, caption)?;
    put_text(out, entry_text(seat, entry).as_str())?;
    end_item(out)
}

/// Appends the item of a game's result, with the data of the game's end.
#[tactic(auto, unfolding(crate::specs::Items::result_item))]
fn put_result_item(out: &mut Vec<u8>, end: &End) -> Result<(), AllocError>
    ensures { OnOk result (out.new.items ≡ out.old.items ++ result_item end.now.win end.now.standing) }
{
    let result = Anchor::Result(end.standing.game());
    begin_item(out, result, &end.standing, Caption::Won(end.win))?;
    put_told_result(out, end)?;
    end_item(out)
}

/// Appends the words of a game's result.
#[tactic(auto, unfolding(crate::specs::Items::told_result))]
fn put_told_result(out: &mut Vec<u8>, end: &End) -> Result<(), AllocError>
    ensures { OnOk result (out.new.items ≡ out.old.items ++ told_result end.now.win end.now.standing) }
{
    put_text(out, "result<span>: ")?;
    put_result(out, end.win, &end.standing)?;
    put_text(out, "</span>")?;
    Ok(())
}

/// Ends the list of a game, and appends the start of the next one, where the match goes on.
/// `number` entries come before that start.
#[tactic(auto, unfolding(crate::specs::Items::next_start))]
fn put_next_start(out: &mut Vec<u8>, number: Number, next: &Standing) -> Result<(), AllocError>
    ensures { OnOk result (out.new.items ≡ out.old.items ++ next_start number next.now next.now.phase) }
{
    match next.phase() {
        Phase::Opening => {
            put_text(out, "</ol>\n")?;
            put_game_start(out, number, next)
        }
        _ => Ok(()),
    }
}

/// Appends the start of a game behind `number` entries: its heading, and a list that begins with
/// the item of its start.
#[tactic(auto, unfolding(crate::specs::Items::game_start))]
pub(crate) fn put_game_start(
    out: &mut Vec<u8>,
    number: Number,
    start: &Standing,
) -> Result<(), AllocError>
    ensures { OnOk result (out.new.items ≡ out.old.items ++ game_start number start.now) }
{
    put_game_heading(out, start)?;
    begin_list(out, number, start)?;
    put_start_item(out, start)
}

/// Appends the number of a game, the Crawford mark, and the score before it.
#[tactic(auto, unfolding(crate::specs::Items::game_heading))]
fn put_game_heading(out: &mut Vec<u8>, standing: &Standing) -> Result<(), AllocError>
    ensures { OnOk result (out.new.items ≡ out.old.items ++ game_heading standing.now) }
{
    put_text(out, "<h2>game ")?;
    put_number(out, standing.game().into())?;
    put_text(out, "<span>")?;
    put_text(out, crawford_words(standing.crawford()))?;
    put_score(out, standing)?;
    put_text(out, "</span></h2>\n")
}

/// Begins the list of a game, whose first item has this number.
#[tactic(auto, unfolding(crate::specs::Items::list_start))]
fn begin_list(out: &mut Vec<u8>, number: Number, start: &Standing) -> Result<(), AllocError>
    ensures { OnOk result (out.new.items ≡ out.old.items ++ list_start number start.now) }
{
    put_text(out, "<ol start='")?;
    put_number(out, number.into())?;
    put_text(out, "' data-game='")?;
    put_game(out, start)?;
    put_text(out, "'>\n")?;
    Ok(())
}

/// Appends the item of a game's start.
#[tactic(auto, unfolding(crate::specs::Items::start_item))]
fn put_start_item(out: &mut Vec<u8>, start: &Standing) -> Result<(), AllocError>
    ensures { OnOk result (out.new.items ≡ out.old.items ++ start_item start.now) }
{
    begin_item(out, Anchor::Start(start.game()), start, Caption::Next)?;
    put_text(out, "start of game ")?;
    put_number(out, start.game().into())?;
    end_item(out)
}

/// Begins an item, with the data of its picture and a link to it.
#[tactic(auto, unfolding(crate::specs::Items::item_start))]
fn begin_item(
    out: &mut Vec<u8>,
    anchor: Anchor,
    shown: &Standing,
    caption: Caption,
) -> Result<(), AllocError>
    ensures { OnOk result (out.new.items ≡ out.old.items ++ item_start anchor shown.now caption) }
{
    put_tag(out, anchor, shown, caption)?;
    put_text(out, "><a href='#")?;
    put_anchor(out, anchor)?;
    put_text(out, "'>")?;
    Ok(())
}

/// Appends the name of an item, and the data of its picture.
#[tactic(auto, unfolding(crate::specs::Items::item_tag))]
fn put_tag(
    out: &mut Vec<u8>,
    anchor: Anchor,
    shown: &Standing,
    caption: Caption,
) -> Result<(), AllocError>
    ensures { OnOk result (out.new.items ≡ out.old.items ++ item_tag anchor shown.now caption) }
{
    put_text(out, "<li id='")?;
    put_anchor(out, anchor)?;
    put_text(out, "'")?;
    put_item_data(out, shown, caption)?;
    Ok(())
}

/// Ends an item.
#[tactic(auto, unfolding(crate::specs::Items::item_end))]
fn end_item(out: &mut Vec<u8>) -> Result<(), AllocError>
    ensures { OnOk result (out.new.items ≡ out.old.items ++ item_end) }
{
    put_text(out, "</a></li>\n")
}
