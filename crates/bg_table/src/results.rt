//! The result of a game.
ghost use Rattle.std.specs.Prelude.{◌≡◌, ◌++◌, IfOk, OnOk};
ghost use Rattle.bg_table.specs.Results.{gained as points_gained, game_words, last_level_words, level_words};
ghost use Rattle.bg_table.specs.Results.{match_words, named_words, points_words, result_words, scores_words};
ghost use Rattle.bg_table.specs.Results.{winner_words, won_words, worth_words};

use crate::headings::score_for;
use bg_board::Player;
use bg_match::{Phase, Standing};
use bg_text::{letter, put_number, put_text};
use std::alloc::{AllocError, Global};

/// Returns the line that tells a player the result of a game, from the standings of the match
/// before and after its last entry. It gives the winner, the number of points won, and the score,
/// the winner's first. For example `you win 2 points: 3 to 1`, or `X wins the match, 5-3`. A gammon
/// or a backgammon that ends the match is named, as in `X wins a gammon, 2 points, and the match,
/// 2-1`. It is empty where no score has grown.
///
/// # Errors
/// AllocError where there is no memory for it.
pub fn result_text(
    alloc: Global,
    before: &Standing,
    after: &Standing,
    reader: Player,
) -> Result<Vec<u8>, AllocError>
    ensures { IfOk result (λ text. text.items ≡ result_words before.now after.now reader) }
{
    let mut out = Vec::new(alloc);
    put_result(&mut out, before, after, reader)?;
    Ok(out)
}

/// Appends that line.
#[tactic(auto, unfolding(crate::specs::Results::result_words))]
fn put_result(
    out: &mut Vec<u8>,
    before: &Standing,
    after: &Standing,
    reader: Player,
) -> Result<(), AllocError>
    ensures { OnOk result (out.new.items ≡ out.old.items ++ result_words before.now after.now reader) }
{
    let of_x = gained(before, after, Player::X);
    let of_o = gained(before, after, Player::O);
    if of_x > 0 {
        put_won(out, before, after, Player::X, of_x, reader)
    } else if of_o > 0 {
        put_won(out, before, after, Player::O, of_o, reader)
    } else {
        Ok(())
    }
}

/// Returns the points by which a player's score has grown.
fn gained(before: &Standing, after: &Standing, player: Player) -> u16
    ensures { result ≡ points_gained before.now after.now player }
{
    score_for(after, player).saturating_sub(score_for(before, player))
}

/// Appends the line of a game that a player won, with the number of points.
#[tactic(auto, unfolding(crate::specs::Results::won_words))]
fn put_won(
    out: &mut Vec<u8>,
    before: &Standing,
    after: &Standing,
    winner: Player,
    points: u16,
    reader: Player,
) -> Result<(), AllocError>
    ensures { OnOk result (out.new.items ≡ out.old.items ++ won_words before.now after.now winner points reader) }
{
    put_winner(out, winner, reader)?;
    put_worth(out, before, after, winner, points)?;
    put_text(out, "\n")
}

/// Appends who wins.
#[tactic(auto, unfolding(crate::specs::Results::winner_words))]
fn put_winner(out: &mut Vec<u8>, winner: Player, reader: Player) -> Result<(), AllocError>
    ensures { OnOk result (out.new.items ≡ out.old.items ++ winner_words winner reader) }
{
    match (winner, reader) {
        (Player::X, Player::X) | (Player::O, Player::O) => put_text(out, "you win "),
        (Player::X, Player::O) | (Player::O, Player::X) => {
            put_text(out, letter(winner))?;
            put_text(out, " wins ")
        }
    }
}

/// Appends what is won, and the score.
fn put_worth(
    out: &mut Vec<u8>,
    before: &Standing,
    after: &Standing,
    winner: Player,
    points: u16,
) -> Result<(), AllocError>
    ensures { OnOk result (out.new.items ≡ out.old.items
        ++ worth_words after.now.phase before.now after.now winner points) }
{
    match after.phase() {
        Phase::Over(_) => put_match(out, before, after, winner, points),
        _ => put_game(out, after, winner, points),
    }
}

/// Appends the points of a game after which the match goes on, and the score.
#[tactic(auto, unfolding(crate::specs::Results::game_words))]
fn put_game(
    out: &mut Vec<u8>,
    after: &Standing,
    winner: Player,
    points: u16,
) -> Result<(), AllocError>
    ensures { OnOk result (out.new.items ≡ out.old.items ++ game_words after.now winner points) }
{
    put_points(out, points)?;
    put_scores(out, after, winner, " to ")
}

/// Appends that the match is won, and its score, behind the level of its last game.
#[tactic(auto, unfolding(crate::specs::Results::match_words))]
fn put_match(
    out: &mut Vec<u8>,
    before: &Standing,
    after: &Standing,
    winner: Player,
    points: u16,
) -> Result<(), AllocError>
    ensures { OnOk result (out.new.items ≡ out.old.items ++ match_words before.now after.now winner points) }
{
    put_last_level(out, before, after, points)?;
    put_text(out, "the match, ")?;
    put_scores(out, after, winner, "-")
}

/// Appends the level of the game that ended the match, where both standings are in it.
fn put_last_level(
    out: &mut Vec<u8>,
    before: &Standing,
    after: &Standing,
    points: u16,
) -> Result<(), AllocError>
    ensures { OnOk result (out.new.items ≡ out.old.items ++ last_level_words before.now after.now points) }
{
    if before.game() == after.game() {
        put_level(out, after.cube().value, points)
    } else {
        Ok(())
    }
}

/// Appends the level of a game with this cube and these points, unless it is a normal one.
fn put_level(out: &mut Vec<u8>, cube: u8, points: u16) -> Result<(), AllocError>
    ensures { OnOk result (out.new.items ≡ out.old.items ++ level_words cube points) }
{
    if points == 2 * u16::from(cube) {
        put_named(out, "a gammon, ", points)
    } else if points == 3 * u16::from(cube) {
        put_named(out, "a backgammon, ", points)
    } else {
        Ok(())
    }
}

/// Appends a level and the points that it counts.
#[tactic(auto, unfolding(crate::specs::Results::named_words))]
fn put_named(out: &mut Vec<u8>, level: &str, points: u16) -> Result<(), AllocError>
    ensures { OnOk result (out.new.items ≡ out.old.items ++ named_words level.now points) }
{
    put_text(out, level)?;
    put_number(out, points.into())?;
    put_text(out, " points, and ")
}

/// Appends a number of points.
#[tactic(auto, unfolding(crate::specs::Results::points_words))]
fn put_points(out: &mut Vec<u8>, points: u16) -> Result<(), AllocError>
    ensures { OnOk result (out.new.items ≡ out.old.items ++ points_words points) }
{
    if points == 1 {
        return put_text(out, "1 point: ");
    }
    put_number(out, points.into())?;
    put_text(out, " points: ")
}

/// Appends the score, the winner's first, with a text between the numbers.
#[tactic(auto, unfolding(crate::specs::Results::scores_words))]
fn put_scores(
    out: &mut Vec<u8>,
    after: &Standing,
    winner: Player,
    between: &str,
) -> Result<(), AllocError>
    ensures { OnOk result (out.new.items ≡ out.old.items ++ scores_words after.now winner between.now) }
{
    put_number(out, score_for(after, winner).into())?;
    put_text(out, between)?;
    put_number(out, score_for(after, winner.opponent()).into())
}
