//! The contents of a picture, in words.
ghost use Rattle.std.specs.Prelude.{◌≡◌, ◌++◌, OnOk, IsTrue};
ghost use Rattle.std.specs.List.{list_all};
ghost use Rattle.bg_text.specs.Boards.BoardText.{is_point};
ghost use Rattle.bg_picture.specs.Descriptions.{crawford_words as crawford_mark, game_words, score_words, cube_words};
ghost use Rattle.bg_picture.specs.Descriptions.{phase_words, terms_words};
ghost use Rattle.bg_picture.specs.Descriptions.{owner_words, number_for as number_of, point_words, bar_words};
ghost use Rattle.bg_picture.specs.Descriptions.{off_words};
ghost use Rattle.bg_picture.specs.Descriptions.{points_words, checkers_words, reader_words, description};

use bg_board::{BAR, Board, OFF, Player};
use bg_match::{Cube, Standing};
use bg_text::{letter, put_number, put_phase, put_terms, put_text};
use std::alloc::AllocError;

/// A player's points, from the highest down.
const POINTS_DOWN: [u8; 24] = [
    24, 23, 22, 21, 20, 19, 18, 17, 16, 15, 14, 13, 12, 11, 10, 9, 8, 7, 6, 5, 4, 3, 2, 1,
];

/// Appends what happens next.
#[tactic(auto, unfolding(crate::specs::Descriptions::phase_words))]
pub(crate) fn put_phase_words(out: &mut Vec<u8>, standing: &Standing) -> Result<(), AllocError>
    ensures { OnOk result (out.new.items ≡ out.old.items ++ phase_words standing.now) }
{
    put_phase(out, standing)
}

/// Appends the description of a standing.
#[tactic(auto, unfolding(crate::specs::Descriptions::description))]
pub(crate) fn put_description(
    out: &mut Vec<u8>,
    standing: &Standing,
    reader: Player,
) -> Result<(), AllocError>
    ensures { OnOk result (out.new.items ≡ out.old.items ++ description standing.now reader) }
{
    let board = standing.board();
    put_standing(out, standing)?;
    put_checkers_words(out, &board, Player::X, reader)?;
    put_checkers_words(out, &board, Player::O, reader)?;
    put_reader(out, reader)
}

/// Appends the game, the score and the cube.
#[tactic(auto, unfolding(crate::specs::Descriptions::terms_words))]
pub(crate) fn put_standing(out: &mut Vec<u8>, standing: &Standing) -> Result<(), AllocError>
    ensures { OnOk result (out.new.items ≡ out.old.items ++ terms_words standing.now) }
{
    put_game(out, standing)?;
    put_score(out, standing)?;
    put_cube_words(out, standing.cube())
}

/// Appends the length of the match and the game.
#[tactic(auto, unfolding(crate::specs::Descriptions::game_words))]
pub(crate) fn put_game(out: &mut Vec<u8>, standing: &Standing) -> Result<(), AllocError>
    ensures { OnOk result (out.new.items ≡ out.old.items ++ game_words standing.now) }
{
    put_terms(out, standing.length(), standing.rules())?;
    put_text(out, ", game ")?;
    put_number(out, standing.game().into())?;
    put_text(out, crawford_words(standing.crawford()))
}

/// Returns the words for a Crawford game, which are empty for other games.
pub(crate) fn crawford_words(crawford: bool) -> &'static str
    ensures { result.now ≡ crawford_mark crawford }
{
    if crawford { ", Crawford" } else { "" }
}

/// Appends the score.
#[tactic(auto, unfolding(crate::specs::Descriptions::score_words))]
pub(crate) fn put_score(out: &mut Vec<u8>, standing: &Standing) -> Result<(), AllocError>
    ensures { OnOk result (out.new.items ≡ out.old.items ++ score_words standing.now) }
{
    let (x, o) = standing.score();
    put_text(out, "; X ")?;
    put_number(out, x.into())?;
    put_text(out, ", O ")?;
    put_number(out, o.into())
}

/// Appends the cube.
#[tactic(auto, unfolding(crate::specs::Descriptions::cube_words))]
fn put_cube_words(out: &mut Vec<u8>, cube: Cube) -> Result<(), AllocError>
    ensures { OnOk result (out.new.items ≡ out.old.items ++ cube_words cube) }
{
    put_text(out, "; cube ")?;
    put_number(out, cube.value.into())?;
    put_text(out, owner(cube.owner))
}

/// Returns the words for the place of the cube.
fn owner(owner: Option<Player>) -> &'static str
    ensures { result.now ≡ owner_words owner }
{
    match owner {
        None => " in the middle",
        Some(Player::X) => " of X",
        Some(Player::O) => " of O",
    }
}

/// Appends all checkers of a player.
#[tactic(auto, unfolding(crate::specs::Descriptions::checkers_words))]
fn put_checkers_words(
    out: &mut Vec<u8>,
    board: &Board,
    player: Player,
    reader: Player,
) -> Result<(), AllocError>
    ensures { OnOk result (out.new.items ≡ out.old.items ++ checkers_words board.now player reader) }
{
    put_text(out, "; ")?;
    put_text(out, letter(player))?;
    put_bar(out, board, player)?;
    put_off(out, board, player)?;
    put_points(out, board, player, reader, &POINTS_DOWN)
}

/// Appends a player's checkers on the bar.
#[tactic(auto, unfolding(crate::specs::Descriptions::bar_words))]
fn put_bar(out: &mut Vec<u8>, board: &Board, player: Player) -> Result<(), AllocError>
    ensures { OnOk result (out.new.items ≡ out.old.items ++ bar_words board.now player) }
{
    put_text(out, ": ")?;
    put_number(out, board.count(player, BAR).into())?;
    put_text(out, " on the bar, ")?;
    Ok(())
}

/// Appends a player's checkers that are borne off.
#[tactic(auto, unfolding(crate::specs::Descriptions::off_words))]
fn put_off(out: &mut Vec<u8>, board: &Board, player: Player) -> Result<(), AllocError>
    ensures { OnOk result (out.new.items ≡ out.old.items ++ off_words board.now player) }
{
    put_number(out, board.count(player, OFF).into())?;
    put_text(out, " off")
}

/// Appends a player's checkers on some of their points.
#[tactic(auto, unfolding(crate::specs::Descriptions::points_words))]
fn put_points(
    out: &mut Vec<u8>,
    board: &Board,
    player: Player,
    reader: Player,
    points: &[u8],
) -> Result<(), AllocError>
    requires { IsTrue (list_all is_point points.now) }
    ensures { OnOk result (out.new.items ≡ out.old.items ++ points_words board.now player reader points.now) }
{
    for point in points {
        put_point(out, board, player, reader, *point)?;
    }
    Ok(())
}

/// Appends a player's checkers on one of their points, if there are any.
#[tactic(auto, unfolding(crate::specs::Descriptions::point_words))]
fn put_point(
    out: &mut Vec<u8>,
    board: &Board,
    player: Player,
    reader: Player,
    point: u8,
) -> Result<(), AllocError>
    requires { IsTrue (is_point point) }
    ensures { OnOk result (out.new.items ≡ out.old.items ++ point_words board.now player reader point) }
{
    let count = board.count(player, point);
    if count > 0 {
        put_text(out, ", ")?;
        put_number(out, count.into())?;
        put_text(out, " on ")?;
        put_number(out, number_for(player, reader, point).into())?;
    }
    Ok(())
}

/// Returns the number of a player's point in the numbering of a reader.
fn number_for(player: Player, reader: Player, point: u8) -> u8
    requires { IsTrue (is_point point) }
    ensures { result ≡ number_of player reader point }
{
    if player == reader { point } else { BAR - point }
}

/// Appends whose numbering names the points.
#[tactic(auto, unfolding(crate::specs::Descriptions::reader_words))]
fn put_reader(out: &mut Vec<u8>, reader: Player) -> Result<(), AllocError>
    ensures { OnOk result (out.new.items ≡ out.old.items ++ reader_words reader) }
{
    put_text(out, "; points as ")?;
    put_text(out, letter(reader))?;
    put_text(out, " counts")
}
