//! The report on a good match: how many entries it has, and what became of it.
ghost use Rattle.std.specs.Prelude.{◌≡◌, ◌++◌, OnOk, IfOk, codes};
ghost use Rattle.std.specs.Fmt.{decimal};
ghost use Rattle.bg_reports.specs.Result.{IsSaidOfMatch, result_words};

use bg_board::Player;
use bg_match::{Phase, Record, Standing};
use bg_text::{put_number, put_text};
use std::alloc::{AllocError, Global};

/// Returns the words for a good match. If `is_cut` is set, it is of a match file that ends within a
/// game.
pub(super) fn words_of_match(
    alloc: Global,
    log: &Record,
    is_cut: bool,
) -> Result<Vec<u8>, AllocError>
    ensures { IfOk result (λ words. IsSaidOfMatch log.now is_cut words.items) }
{
    let mut words = Vec::from_slice(alloc, b"ok ")?;
    put_number(&mut words, log.len().into())?;
    put_result(&mut words, &log.standing(), is_cut)?;
    Ok(words)
}

/// Appends what became of a match that stands here.
fn put_result(out: &mut Vec<u8>, standing: &Standing, is_cut: bool) -> Result<(), AllocError>
    ensures { OnOk result
        (out.new.items ≡ out.old.items ++ result_words standing.now.phase standing.now is_cut) }
{
    let (x, o) = standing.score();
    match standing.phase() {
        Phase::Over(Player::X) => put_win(out, ", X wins ", x, o),
        Phase::Over(Player::O) => put_win(out, ", O wins ", o, x),
        _ if is_cut => put_text(out, ", cut within a game"),
        _ => put_text(out, ", not over"),
    }
}

/// Appends these words, and the points of the winner and of the loser.
fn put_win(out: &mut Vec<u8>, words: &str, won: u16, lost: u16) -> Result<(), AllocError>
    ensures { OnOk result
        (out.new.items ≡ out.old.items ++ words.now ++ decimal won ++ codes "-" ++ decimal lost) }
{
    put_text(out, words)?;
    put_number(out, won.into())?;
    put_text(out, "-")?;
    put_number(out, lost.into())
}
