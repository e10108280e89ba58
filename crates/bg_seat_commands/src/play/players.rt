//! The messages on who plays.

use bg_board::Player;
use bg_console::{Called, Pairing};
use bg_match::{Phase, Standing};
use bg_processes::Names;
use std::alloc::{AllocError, Global};

/// Returns the players of a match in which one has a name, as this player is told:
/// `Anna (X, you) against Otto (O)`. A player without a name is called by letter. Returns an empty
/// text where none has a name.
pub(super) fn players_text(
    alloc: Global,
    names: &Names,
    player: Player,
) -> Result<String, AllocError> {
    if Pairing::of(names).is_none() {
        return Ok(String::new(alloc));
    }
    let own = own_text(alloc, names, player)?;
    let other = other_of(names, player);
    format!(in alloc; "{own} against {other}")
}

/// Returns the line of the score for this player, with the names that fit into so many columns:
/// both, or that of the other player. Returns nothing where there is no name, or none fits.
pub(super) fn named_score(
    alloc: Global,
    standing: &Standing,
    names: &Names,
    player: Player,
    columns: usize,
) -> Result<Option<String>, AllocError> {
    let of_other = match player {
        Player::X => Names {
            x: None,
            o: names.o,
        },
        Player::O => Names {
            x: names.x,
            o: None,
        },
    };
    for shown in [*names, of_other] {
        let line = score_line(alloc, standing, &shown, player)?;
        if Pairing::of(&shown).is_some() && line.len() <= columns {
            return Ok(Some(line));
        }
    }
    Ok(None)
}

/// Returns the line of the score with these names, this player first:
/// `score: Anna (X, you) 1 of 7, Otto (O) 0 of 7`. When the match is over, without the points that
/// it was played to.
fn score_line(
    alloc: Global,
    standing: &Standing,
    names: &Names,
    player: Player,
) -> Result<String, AllocError> {
    let own = own_text(alloc, names, player)?;
    let other = other_of(names, player);
    let (x, o) = standing.score();
    let (points, of_other) = match player {
        Player::X => (x, o),
        Player::O => (o, x),
    };
    if matches!(standing.phase(), Phase::Over(_)) {
        return format!(in alloc; "score: {own} {points}, {other} {of_other}");
    }
    let length = standing.length();
    format!(in alloc; "score: {own} {points} of {length}, {other} {of_other} of {length}")
}

/// Returns this player as they are called at their own terminal: `Anna (X, you)`, or `X (you)`
/// without a name.
fn own_text(alloc: Global, names: &Names, player: Player) -> Result<String, AllocError> {
    let (letter, name) = match player {
        Player::X => ('X', names.x),
        Player::O => ('O', names.o),
    };
    match name {
        Some(name) => format!(in alloc; "{name} ({letter}, you)"),
        None => format!(in alloc; "{letter} (you)"),
    }
}

/// Returns the other player, as they are called.
fn other_of(names: &Names, player: Player) -> Called {
    match player {
        Player::X => Called::o(names),
        Player::O => Called::x(names),
    }
}
