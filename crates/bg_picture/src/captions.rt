//! The words below a picture, and those for the end of a game.
ghost use Rattle.std.specs.Prelude.{◌≡◌, ◌++◌, OnOk};
ghost use Rattle.bg_picture.specs.Captions.{caption_words, level_words as words_of_level, match_words};
ghost use Rattle.bg_picture.specs.Captions.{over_words, result_words, way_words, win_words, worth_words};

use crate::descriptions::{put_phase_words, put_score};
use crate::wins::{Way, Win};
use bg_board::Player;
use bg_match::{Level, Phase, Standing};
use bg_text::{letter, put_number, put_text};
use std::alloc::AllocError;

/// The subject of the words below a picture.
#[derive(Clone, Copy)]
pub(crate) enum Caption {
    /// The next event of the match.
    Next,
    /// The way in which the game was won.
    Won(Win),
}

/// Appends the words below the picture of a standing.
#[tactic(auto, unfolding(crate::specs::Captions::caption_words))]
pub(crate) fn put_caption(
    out: &mut Vec<u8>,
    standing: &Standing,
    caption: Caption,
) -> Result<(), AllocError>
    ensures { OnOk result (out.new.items ≡ out.old.items ++ caption_words standing.now caption) }
{
    match caption {
        Caption::Next => put_phase_words(out, standing),
        Caption::Won(win) => put_win(out, win),
    }
}

/// Appends the result of a game, after which the match has this standing.
#[tactic(auto, unfolding(crate::specs::Captions::result_words))]
pub(crate) fn put_result(out: &mut Vec<u8>, win: Win, standing: &Standing) -> Result<(), AllocError>
    ensures { OnOk result (out.new.items ≡ out.old.items ++ result_words win standing.now) }
{
    put_win(out, win)?;
    put_worth(out, win.points)?;
    put_score(out, standing)?;
    put_over(out, standing.phase())
}

/// Appends who won a game, and how.
#[tactic(auto, unfolding(crate::specs::Captions::win_words))]
fn put_win(out: &mut Vec<u8>, win: Win) -> Result<(), AllocError>
    ensures { OnOk result (out.new.items ≡ out.old.items ++ win_words win) }
{
    put_text(out, letter(win.winner))?;
    put_text(out, " wins ")?;
    put_way(out, win.way)
}

/// Appends how a game was won.
#[tactic(auto, unfolding(crate::specs::Captions::way_words))]
fn put_way(out: &mut Vec<u8>, way: Way) -> Result<(), AllocError>
    ensures { OnOk result (out.new.items ≡ out.old.items ++ way_words way) }
{
    match way {
        Way::BearingOff(level) => put_text(out, level_words(level)),
        Way::Drop => put_text(out, "by a drop of the double"),
        Way::Resignation(level) => {
            put_text(out, level_words(level))?;
            put_text(out, " by resignation")
        }
    }
}

/// Returns the words for the level of a win.
fn level_words(level: Level) -> &'static str
    ensures { result.now ≡ words_of_level level }
{
    match level {
        Level::Normal => "a single game",
        Level::Gammon => "a gammon",
        Level::Backgammon => "a backgammon",
    }
}

/// Appends the number of points that a game counts.
#[tactic(auto, unfolding(crate::specs::Captions::worth_words))]
fn put_worth(out: &mut Vec<u8>, points: u16) -> Result<(), AllocError>
    ensures { OnOk result (out.new.items ≡ out.old.items ++ worth_words points) }
{
    if points == 1 {
        return put_text(out, ", 1 point");
    }
    put_text(out, ", ")?;
    put_number(out, points.into())?;
    put_text(out, " points")
}

/// Appends the winner of the match, if it is over.
#[tactic(auto, unfolding(crate::specs::Captions::over_words))]
fn put_over(out: &mut Vec<u8>, phase: Phase) -> Result<(), AllocError>
    ensures { OnOk result (out.new.items ≡ out.old.items ++ over_words phase) }
{
    match phase {
        Phase::Over(player) => put_match_winner(out, player),
        _ => Ok(()),
    }
}

/// Appends the winner of the match.
#[tactic(auto, unfolding(crate::specs::Captions::match_words))]
fn put_match_winner(out: &mut Vec<u8>, player: Player) -> Result<(), AllocError>
    ensures { OnOk result (out.new.items ≡ out.old.items ++ match_words player) }
{
    put_text(out, "; ")?;
    put_text(out, letter(player))?;
    put_text(out, " wins the match")
}
