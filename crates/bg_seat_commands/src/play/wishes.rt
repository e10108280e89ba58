//! The requests that a person types.

use bg_match::{Action, Level};
use std::alloc::{AllocError, Global};

/// The request that a typed line makes.
#[derive(Clone, Copy)]
pub(crate) enum Wish {
    /// Nothing: an empty line.
    Nothing,
    Help,
    Board,
    /// The legal turns, from the first on.
    Legal,
    /// The legal turns that were not shown yet.
    More,
    /// Taking back what was typed of a turn.
    Undo,
    Quit,
    /// Offering to resign, at a level that is not given.
    Resign,
    Act(Choice),
    /// Moving: all else, as the library of typed turns reads it.
    Move,
}

/// An action that isn't a turn.
#[derive(Clone, Copy)]
pub(crate) enum Choice {
    Roll,
    Double,
    Take,
    Drop,
    Resign(Level),
    Accept,
    Reject,
}

impl Choice {
    /// Returns the action.
    pub(crate) fn action(self) -> Action {
        match self {
            Choice::Roll => Action::Roll,
            Choice::Double => Action::Double,
            Choice::Take => Action::Take,
            Choice::Drop => Action::Drop,
            Choice::Resign(level) => Action::Resign(level),
            Choice::Accept => Action::Accept,
            Choice::Reject => Action::Reject,
        }
    }
}

/// The words that may be typed, each with its request.
const WORDS: [(&[u8], Wish); 30] = [
    (b"", Wish::Nothing),
    (b"?", Wish::Help),
    (b"h", Wish::Help),
    (b"help", Wish::Help),
    (b"board", Wish::Board),
    (b"l", Wish::Legal),
    (b"legal", Wish::Legal),
    (b"more", Wish::More),
    (b"u", Wish::Undo),
    (b"undo", Wish::Undo),
    (b"q", Wish::Quit),
    (b"quit", Wish::Quit),
    (b"exit", Wish::Quit),
    (b"resign", Wish::Resign),
    (b"r", Wish::Act(Choice::Roll)),
    (b"roll", Wish::Act(Choice::Roll)),
    (b"d", Wish::Act(Choice::Double)),
    (b"double", Wish::Act(Choice::Double)),
    (b"t", Wish::Act(Choice::Take)),
    (b"take", Wish::Act(Choice::Take)),
    (b"p", Wish::Act(Choice::Drop)),
    (b"pass", Wish::Act(Choice::Drop)),
    (b"drop", Wish::Act(Choice::Drop)),
    (b"a", Wish::Act(Choice::Accept)),
    (b"y", Wish::Act(Choice::Accept)),
    (b"yes", Wish::Act(Choice::Accept)),
    (b"accept", Wish::Act(Choice::Accept)),
    (b"n", Wish::Act(Choice::Reject)),
    (b"no", Wish::Act(Choice::Reject)),
    (b"reject", Wish::Act(Choice::Reject)),
];

/// The names of the levels at which a player may resign.
const LEVELS: [(&[u8], Level); 10] = [
    (b"n", Level::Normal),
    (b"normal", Level::Normal),
    (b"single", Level::Normal),
    (b"1", Level::Normal),
    (b"g", Level::Gammon),
    (b"gammon", Level::Gammon),
    (b"2", Level::Gammon),
    (b"b", Level::Backgammon),
    (b"backgammon", Level::Backgammon),
    (b"3", Level::Backgammon),
];

/// The letter that may be a level, or an answer to the question for it.
const MAY_BE_NO: &[u8] = b"n";

/// Returns the request of a line: its words, in small or capital letters, with any blanks around
/// them. Where the player was asked for a level, its name or its letter alone resigns at that
/// level; `n` alone asks again, as it may be a no.
pub(crate) fn wish_of(alloc: Global, line: &[u8], asks_level: bool) -> Result<Wish, AllocError> {
    let words = plain(alloc, line)?;
    if let Some(level) = level_in(&words, asks_level) {
        return Ok(Wish::Act(Choice::Resign(level)));
    }
    if asks_level && words.as_slice() == MAY_BE_NO {
        return Ok(Wish::Resign);
    }
    Ok(meaning_of(&WORDS, &words).unwrap_or(Wish::Move))
}

/// Returns the level at which some words resign. Where the player was asked for it, its name or
/// its letter alone is enough, but for the letter that may be a no.
fn level_in(words: &[u8], asks_level: bool) -> Option<Level> {
    match words.strip_prefix(b"resign ") {
        Some(name) => meaning_of(&LEVELS, name),
        None if asks_level && words != MAY_BE_NO => meaning_of(&LEVELS, words),
        None => None,
    }
}

/// Returns the meaning of a word in a table, if it is there.
fn meaning_of<T: Copy>(table: &[(&[u8], T)], word: &[u8]) -> Option<T> {
    for (name, meaning) in table {
        if *name == word {
            return Some(*meaning);
        }
    }
    None
}

/// Returns the words of a line in small letters, separated by single blanks.
fn plain(alloc: Global, line: &[u8]) -> Result<Vec<u8>, AllocError> {
    let mut words = Vec::new(alloc);
    for byte in line.trim_ascii() {
        let blank = *byte == b'\t' || *byte == b' ';
        if !blank {
            words.push(byte.to_ascii_lowercase())?;
        } else if words.last() != Some(&b' ') {
            words.push(b' ')?;
        }
    }
    Ok(words)
}
