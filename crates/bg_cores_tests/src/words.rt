//! What the words of the tests say: numbers, dice, turns, boards. A word that says nothing of the
//! kind ends the test.
use bg_board::{Board, Die, Player, Step};
use bg_match::Rules;
use bg_turns::{Dice, Turn};
use std::process::Abort;

/// The number up to 255 that a word says.
pub(crate) fn small_number(rt: &impl Abort, word: &str) -> u8 {
    word.parse().expect(rt, "a number up to 255")
}

/// What stands before these words and behind them.
pub(crate) fn parted<'a>(rt: &impl Abort, line: &'a str, by: &str) -> (&'a str, &'a str) {
    line.split_once(by).expect(rt, "two parts")
}

/// What a word stands for, by the names of what there is.
pub(crate) fn named<T: Copy>(rt: &impl Abort, names: &[(&str, T)], word: &str) -> T {
    for (name, value) in names {
        if *name == word {
            return *value;
        }
    }
    panic!(rt; "no name: {word}")
}

/// A player, as "X".
pub(crate) fn player(rt: &impl Abort, word: &str) -> Player {
    named(rt, &[("X", Player::X), ("O", Player::O)], word)
}

/// Rules, as "2".
pub(crate) fn rules(rt: &impl Abort, word: &str) -> Rules {
    named(rt, &[("1", Rules::One), ("2", Rules::Two)], word)
}

fn die(rt: &impl Abort, word: &str) -> Die {
    Die::new(small_number(rt, word)).expect(rt, "a die")
}

/// Two dice, as "3 1".
pub(crate) fn dice(rt: &impl Abort, words: &str) -> Dice {
    let (first, second) = parted(rt, words, " ");
    Dice {
        first: die(rt, first),
        second: die(rt, second),
    }
}

/// Where a step begins and ends, as "8-5".
pub(crate) fn points(rt: &impl Abort, word: &str) -> (u8, u8) {
    let (from, to) = parted(rt, word, "-");
    (small_number(rt, from), small_number(rt, to))
}

pub(crate) fn step(rt: &impl Abort, word: &str) -> Step {
    let (from, to) = points(rt, word);
    Step::new(from, to).expect(rt, "a step")
}

/// Adds the steps of some words to a turn.
fn push_steps(rt: &impl Abort, turn: &mut Turn, words: &str) {
    for word in words.split(' ') {
        let step = step(rt, word);
        assert!(rt; turn.steps().len() < 4);
        turn.push(step);
    }
}

/// The turn of some steps, as "8-5 6-5", or of none, as "".
pub(crate) fn turn(rt: &impl Abort, words: &str) -> Turn {
    let mut turn = Turn::new();
    if !words.is_empty() {
        push_steps(rt, &mut turn, words);
    }
    turn
}

/// How many checkers a player has on the points, as "24:2 13:5 8:3 6:5".
pub(crate) fn counts(rt: &impl Abort, words: &str) -> [u8; 26] {
    let mut counts = [0; 26];
    for word in words.split(' ') {
        let (point, count) = parted(rt, word, ":");
        let point = usize::from(small_number(rt, point));
        let count = small_number(rt, count);
        assert!(rt; point < 26);
        counts[point] = count;
    }
    counts
}

/// The boards that have a name, the checkers of X before those of O.
const BOARDS: [(&str, &str); 20] = [
    ("start", "24:2 13:5 8:3 6:5 / 24:2 13:5 8:3 6:5"),
    // X opened with 8-5 6-5, and then O has moved so too.
    ("opened", "24:2 13:5 8:2 6:4 5:2 / 24:2 13:5 8:3 6:5"),
    (
        "both opened",
        "24:2 13:5 8:2 6:4 5:2 / 24:2 13:5 8:2 6:4 5:2",
    ),
    (
        "mid",
        "20:2 13:3 8:3 7:1 6:4 5:2 / 24:1 22:1 13:4 11:1 8:3 6:4 4:1",
    ),
    ("bar", "25:1 24:1 13:5 8:3 6:4 5:1 / 24:2 13:3 8:4 7:1 6:5"),
    (
        "two bars",
        "25:2 13:4 8:3 6:4 4:2 / 25:1 24:1 13:4 8:2 6:5 5:2",
    ),
    (
        "home",
        "6:3 5:3 4:3 3:2 2:1 1:1 0:2 / 6:2 5:2 4:3 3:3 2:2 1:2 0:1",
    ),
    ("few", "2:1 1:1 0:13 / 3:1 1:2 0:12"),
    ("closed", "8:3 6:2 5:2 4:2 3:2 2:2 1:2 / 25:3 6:5 5:4 4:3"),
    ("stacks", "6:15 / 1:15"),
    (
        "prime",
        "13:3 8:2 7:2 6:2 5:2 4:2 3:2 / 24:2 6:4 5:3 4:3 3:3",
    ),
    ("behind", "23:2 13:5 6:8 / 1:2 0:13"),
    ("gammon", "1:2 0:13 / 23:2 13:5 6:8"),
    ("last", "1:2 0:13 / 25:1 23:2 6:12"),
    ("caught", "25:1 23:2 6:12 / 1:2 0:13"),
    ("borne off", "0:15 / 6:2 1:4 0:9"),
    ("gone", "0:15 / 1:3 0:12"),
    ("lost", "23:1 6:14 / 0:15"),
    ("barred", "25:15 / 25:15"),
    ("all off", "0:15 / 0:15"),
];

/// Where the checkers of a board stand, by its name or as the words say it.
fn places(words: &str) -> &str {
    for (name, places) in &BOARDS {
        if *name == words {
            return places;
        }
    }
    words
}

/// A board by its name, as "start", or the checkers of X before those of O, as "20:1 0:14 / 16:2
/// 0:13".
pub(crate) fn board(rt: &impl Abort, words: &str) -> Board {
    let (x, o) = parted(rt, places(words), " / ");
    Board::from_counts(counts(rt, x), counts(rt, o)).expect(rt, "a board")
}
