//! The picture of a standing.
ghost use Rattle.std.specs.Prelude.{◌≡◌, ◌++◌, OnOk, IfOk};
ghost use Rattle.bg_picture.specs.Numberings.{reader_of};
ghost use Rattle.bg_picture.specs.Pictures.{board_text, captions_text, drawing, frame, game_caption, lower_caption};
ghost use Rattle.bg_picture.specs.Pictures.{picture_start, picture_text as text_of_picture, position_text, score_text};
ghost use Rattle.bg_picture.specs.Pictures.{scores_text, shapes_text, style_text, titles_text};

use crate::Numbering;
use crate::descriptions::{put_description, put_game, put_phase_words};
use crate::elements::{begin_group, begin_words, end_group, end_words, put_shape};
use crate::shapes::{put_shapes, put_style};
use crate::stacks::{numbers_name, put_checkers, put_numbers};
use crate::tables::{put_cube, put_table};
use bg_board::Player;
use bg_match::Standing;
use bg_text::{put_number, put_text};
use std::alloc::{AllocError, Global};

/// Returns the picture of a standing as an SVG file, light or dark as its reader prefers
/// (docs/FORMATS.md, "Pictures").
///
/// # Errors
/// AllocError where there is no memory for it.
#[tactic(auto, unfolding(crate::specs::Pictures::picture_text))]
pub fn picture_text(
    alloc: Global,
    standing: &Standing,
    numbering: Numbering,
) -> Result<Vec<u8>, AllocError>
    ensures { IfOk result (λ text. text.items ≡ text_of_picture standing.now (reader_of numbering standing.now.phase)) }
{
    let reader = numbering.reader(standing.phase());
    let mut out = Vec::new(alloc);
    put_start(&mut out, standing, reader)?;
    put_style_element(&mut out)?;
    put_definitions(&mut out, reader)?;
    put_drawing(&mut out, standing, reader)?;
    put_text(&mut out, "</svg>\n")?;
    Ok(out)
}

/// Appends the beginning of a picture, with its title and description.
#[tactic(auto, unfolding(crate::specs::Pictures::picture_start))]
fn put_start(out: &mut Vec<u8>, standing: &Standing, reader: Player) -> Result<(), AllocError>
    ensures { OnOk result (out.new.items ≡ out.old.items ++ picture_start standing.now reader) }
{
    put_text(out, "<svg xmlns='http://www.w3.org/2000/svg'")?;
    put_frame(out)?;
    put_titles(out, standing, reader)?;
    Ok(())
}

/// Appends the title and the description of a picture whose points have a player's numbering.
#[tactic(auto, unfolding(crate::specs::Pictures::titles_text))]
pub(crate) fn put_titles(
    out: &mut Vec<u8>,
    standing: &Standing,
    reader: Player,
) -> Result<(), AllocError>
    ensures { OnOk result (out.new.items ≡ out.old.items ++ titles_text standing.now reader) }
{
    put_text(out, "<title>")?;
    put_phase_words(out, standing)?;
    put_text(out, "</title><desc>")?;
    put_description(out, standing, reader)?;
    put_text(out, "</desc>")
}

/// Appends the edges of a picture, and the role that tells screen readers that it is one.
#[tactic(auto, unfolding(crate::specs::Pictures::frame))]
pub(crate) fn put_frame(out: &mut Vec<u8>) -> Result<(), AllocError>
    ensures { OnOk result (out.new.items ≡ out.old.items ++ frame) }
{
    put_text(out, " viewBox='-8 0 616 560' role='img'>")
}

/// Appends the style of a picture.
#[tactic(auto, unfolding(crate::specs::Pictures::style_text))]
pub(crate) fn put_style_element(out: &mut Vec<u8>) -> Result<(), AllocError>
    ensures { OnOk result (out.new.items ≡ out.old.items ++ style_text) }
{
    put_text(out, "<style>\n")?;
    put_style(out)?;
    put_text(out, "</style>\n")
}

/// Appends the shapes of a picture.
#[tactic(auto, unfolding(crate::specs::Pictures::shapes_text))]
pub(crate) fn put_definitions(out: &mut Vec<u8>, reader: Player) -> Result<(), AllocError>
    ensures { OnOk result (out.new.items ≡ out.old.items ++ shapes_text reader) }
{
    put_text(out, "<defs>\n")?;
    put_shapes(out)?;
    put_numbers(out, reader)?;
    put_text(out, "</defs>\n")
}

/// Appends the drawing of a standing.
#[tactic(auto, unfolding(crate::specs::Pictures::drawing))]
pub(crate) fn put_drawing(
    out: &mut Vec<u8>,
    standing: &Standing,
    reader: Player,
) -> Result<(), AllocError>
    ensures { OnOk result (out.new.items ≡ out.old.items ++ drawing standing.now reader) }
{
    put_position(out, standing, reader)?;
    put_table(out, standing)?;
    put_captions(out, standing)?;
    put_scores(out, standing)
}

/// Appends the board with the checkers and the cube.
#[tactic(auto, unfolding(crate::specs::Pictures::position_text))]
fn put_position(out: &mut Vec<u8>, standing: &Standing, reader: Player) -> Result<(), AllocError>
    ensures { OnOk result (out.new.items ≡ out.old.items ++ position_text standing.now reader) }
{
    let board = standing.board();
    put_board(out, reader)?;
    put_checkers(out, &board, Player::X)?;
    put_checkers(out, &board, Player::O)?;
    put_cube(out, standing.phase(), standing.cube())
}

/// Appends the empty board, with a player's numbering.
#[tactic(auto, unfolding(crate::specs::Pictures::board_text))]
fn put_board(out: &mut Vec<u8>, reader: Player) -> Result<(), AllocError>
    ensures { OnOk result (out.new.items ≡ out.old.items ++ board_text reader) }
{
    put_shape(out, "board", 0, 0)?;
    put_shape(out, numbers_name(reader), 0, 0)
}

/// Appends the words above and below the board.
#[tactic(auto, unfolding(crate::specs::Pictures::captions_text))]
fn put_captions(out: &mut Vec<u8>, standing: &Standing) -> Result<(), AllocError>
    ensures { OnOk result (out.new.items ≡ out.old.items ++ captions_text standing.now) }
{
    begin_group(out, "left")?;
    put_game_caption(out, standing)?;
    put_lower_caption(out, standing)?;
    end_group(out)
}

/// Appends the length and the game.
#[tactic(auto, unfolding(crate::specs::Pictures::game_caption, crate::specs::Elements::element_text))]
fn put_game_caption(out: &mut Vec<u8>, standing: &Standing) -> Result<(), AllocError>
    ensures { OnOk result (out.new.items ≡ out.old.items ++ game_caption standing.now) }
{
    begin_words(out, 0, 25)?;
    put_game(out, standing)?;
    end_words(out)
}

/// Appends what happens next.
#[tactic(auto, unfolding(crate::specs::Pictures::lower_caption, crate::specs::Elements::element_text))]
fn put_lower_caption(out: &mut Vec<u8>, standing: &Standing) -> Result<(), AllocError>
    ensures { OnOk result (out.new.items ≡ out.old.items ++ lower_caption standing.now) }
{
    begin_words(out, 0, 549)?;
    put_phase_words(out, standing)?;
    end_words(out)
}

/// Appends the scores, each on its player's side.
#[tactic(auto, unfolding(crate::specs::Pictures::scores_text))]
fn put_scores(out: &mut Vec<u8>, standing: &Standing) -> Result<(), AllocError>
    ensures { OnOk result (out.new.items ≡ out.old.items ++ scores_text standing.now) }
{
    let (x, o) = standing.score();
    begin_group(out, "right")?;
    put_score_at(out, 25, "O ", o)?;
    put_score_at(out, 549, "X ", x)?;
    end_group(out)
}

/// Appends a score on its base line.
#[tactic(auto, unfolding(crate::specs::Pictures::score_text, crate::specs::Elements::element_text))]
fn put_score_at(out: &mut Vec<u8>, y: u16, player: &str, score: u16) -> Result<(), AllocError>
    ensures { OnOk result (out.new.items ≡ out.old.items ++ score_text y player.now score) }
{
    begin_words(out, 564, y)?;
    put_text(out, player)?;
    put_number(out, score.into())?;
    end_words(out)
}
