//! What stands before the games of a page: its head, the shapes, the title and the names.
ghost use Rattle.std.specs.Prelude.{◌≡◌, ◌++◌, OnOk};
ghost use Rattle.bg_board.specs.declared.players.Player.TheVariants.{X, O};
ghost use Rattle.bg_picture.specs.Pages.{body_text, head_text, heading_text, live_part, name_text, named_text};
ghost use Rattle.bg_picture.specs.Pages.{numbering_word, seconds_part};
ghost use Rattle.bg_picture.specs.Pages.{refresh_text, shared_shapes, styles_text, title_text};

use crate::Numbering;
use crate::escapes::put_escaped;
use crate::page_parts::{put_head_start, put_page_style};
use crate::shapes::{put_shapes, put_style};
use crate::stacks::put_numbers;
use bg_board::Player;
use bg_text::{letter, put_number, put_text};
use std::alloc::AllocError;

/// The words of a page that are not those of its match. Each may be any text.
#[derive(Clone, Copy)]
pub struct PageWords<'a> {
    /// The title.
    pub title: &'a str,
    /// The name of X, which is empty where X has none.
    pub x: &'a str,
    /// The name of O, which is empty where O has none.
    pub o: &'a str,
}

/// Appends the head of the page.
#[tactic(auto, unfolding(crate::specs::Pages::head_text))]
pub(crate) fn put_head(out: &mut Vec<u8>, title: &str, seconds: u16) -> Result<(), AllocError>
    ensures { OnOk result (out.new.items ≡ out.old.items ++ head_text title.now seconds) }
{
    put_head_start(out)?;
    put_refresh(out, seconds)?;
    put_title(out, title)?;
    put_styles(out)
}

/// Appends the number of seconds after which a browser without scripts reloads the page.
#[tactic(auto, unfolding(crate::specs::Pages::refresh_text))]
pub(crate) fn put_refresh(out: &mut Vec<u8>, seconds: u16) -> Result<(), AllocError>
    ensures { OnOk result (out.new.items ≡ out.old.items ++ refresh_text seconds) }
{
    if seconds == 0 {
        return Ok(());
    }
    put_text(out, "<noscript><meta http-equiv='refresh' content='")?;
    put_number(out, seconds.into())?;
    put_text(out, "'></noscript>\n")
}

/// Appends the title.
#[tactic(auto, unfolding(crate::specs::Pages::title_text))]
pub(crate) fn put_title(out: &mut Vec<u8>, title: &str) -> Result<(), AllocError>
    ensures { OnOk result (out.new.items ≡ out.old.items ++ title_text title.now) }
{
    put_text(out, "<title>")?;
    put_escaped(out, title)?;
    put_text(out, "</title>\n")
}

/// Appends the styles, and ends the head.
#[tactic(auto, unfolding(crate::specs::Pages::styles_text))]
fn put_styles(out: &mut Vec<u8>) -> Result<(), AllocError>
    ensures { OnOk result (out.new.items ≡ out.old.items ++ styles_text) }
{
    put_text(out, "<style>\n")?;
    put_style(out)?;
    put_page_style(out)?;
    put_text(
        out,
        "</style>\n<script>document.documentElement.className='js'</script>\n</head>\n",
    )
}

/// Begins the body, and says to the script how points are numbered.
#[tactic(auto, unfolding(crate::specs::Pages::body_text))]
pub(crate) fn put_body(
    out: &mut Vec<u8>,
    numbering: Numbering,
    seconds: u16,
) -> Result<(), AllocError>
    ensures { OnOk result (out.new.items ≡ out.old.items ++ body_text numbering seconds) }
{
    put_text(out, "<body data-numbering='")?;
    put_text(out, word_of(numbering))?;
    put_text(out, "'")?;
    put_live_part(out, seconds)?;
    put_text(out, ">\n")?;
    Ok(())
}

/// Returns the word for a numbering.
fn word_of(numbering: Numbering) -> &'static str
    ensures { result.now ≡ numbering_word numbering }
{
    match numbering {
        Numbering::X => "X",
        Numbering::Mover => "mover",
    }
}

/// Appends the number of seconds after which the script asks for a newer page.
#[tactic(auto, unfolding(crate::specs::Pages::live_part))]
pub(crate) fn put_live_part(out: &mut Vec<u8>, seconds: u16) -> Result<(), AllocError>
    ensures { OnOk result (out.new.items ≡ out.old.items ++ live_part seconds) }
{
    if seconds == 0 {
        Ok(())
    } else {
        put_seconds(out, seconds)
    }
}

/// Appends the number of seconds, as an attribute.
#[tactic(auto, unfolding(crate::specs::Pages::seconds_part))]
fn put_seconds(out: &mut Vec<u8>, seconds: u16) -> Result<(), AllocError>
    ensures { OnOk result (out.new.items ≡ out.old.items ++ seconds_part seconds) }
{
    put_text(out, " data-seconds='")?;
    put_number(out, seconds.into())?;
    put_text(out, "'")?;
    Ok(())
}

/// Appends the shapes that all pictures share.
#[tactic(auto, unfolding(crate::specs::Pages::shared_shapes))]
pub(crate) fn put_shared_shapes(out: &mut Vec<u8>) -> Result<(), AllocError>
    ensures { OnOk result (out.new.items ≡ out.old.items ++ shared_shapes) }
{
    put_text(out, "<svg class='shapes' aria-hidden='true'><defs>\n")?;
    put_shapes(out)?;
    put_numbers(out, Player::X)?;
    put_numbers(out, Player::O)?;
    put_text(out, "</defs></svg>\n")?;
    Ok(())
}

/// Appends the title as a heading, and the names.
pub(crate) fn put_headings(out: &mut Vec<u8>, words: PageWords<'_>) -> Result<(), AllocError>
    ensures { OnOk result (out.new.items ≡ out.old.items
        ++ heading_text words.entry.title.now ++ name_text X words.entry.x.now ++ name_text O words.entry.o.now) }
{
    put_heading(out, words.title)?;
    put_name(out, Player::X, words.x)?;
    put_name(out, Player::O, words.o)
}

/// Appends the title as a heading.
#[tactic(auto, unfolding(crate::specs::Pages::heading_text))]
pub(crate) fn put_heading(out: &mut Vec<u8>, title: &str) -> Result<(), AllocError>
    ensures { OnOk result (out.new.items ≡ out.old.items ++ heading_text title.now) }
{
    put_text(out, "<h1><bdi>")?;
    put_escaped(out, title)?;
    put_text(out, "</bdi></h1>\n")
}

/// Appends the name of a player, if there is one.
#[tactic(auto, unfolding(crate::specs::Pages::name_text))]
fn put_name(out: &mut Vec<u8>, player: Player, name: &str) -> Result<(), AllocError>
    ensures { OnOk result (out.new.items ≡ out.old.items ++ name_text player name.now) }
{
    if name.is_empty() {
        Ok(())
    } else {
        put_named(out, player, name)
    }
}

/// Appends the name of a player.
#[tactic(auto, unfolding(crate::specs::Pages::named_text))]
fn put_named(out: &mut Vec<u8>, player: Player, name: &str) -> Result<(), AllocError>
    ensures { OnOk result (out.new.items ≡ out.old.items ++ named_text player name.now) }
{
    put_text(out, "<p class='name'>")?;
    put_text(out, letter(player))?;
    put_text(out, ": <bdi>")?;
    put_escaped(out, name)?;
    put_text(out, "</bdi></p>\n")?;
    Ok(())
}
