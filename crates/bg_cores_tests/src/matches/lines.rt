//! What the lines of the tests of matches say: entries, faults, and standings part by part.
use crate::words::{board, dice, named, parted, player, small_number, turn};
use bg_board::Player;
use bg_match::{Cube, Entry, EntryFault, Level, NoDouble, Phase, Rules, Standing};
use bg_turns::{Dice, TurnFault};
use std::process::Abort;

const LEVELS: [(&str, Level); 3] = [
    ("normal", Level::Normal),
    ("gammon", Level::Gammon),
    ("backgammon", Level::Backgammon),
];

/// The level of a win, as "gammon".
pub(super) fn level(rt: &impl Abort, word: &str) -> Level {
    named(rt, &LEVELS, word)
}

/// An entry of two words and more, as "open 3 1", "roll 6 5", "move 8-5 6-5" or "resign gammon".
fn long_entry(rt: &impl Abort, line: &str) -> Entry {
    let (kind, words) = parted(rt, line, " ");
    match kind {
        "open" => {
            let Dice { first, second } = dice(rt, words);
            Entry::Opening(first, second)
        }
        "roll" => Entry::Rolled(dice(rt, words)),
        "move" => Entry::Moved(turn(rt, words)),
        "resign" => Entry::Resigned(level(rt, words)),
        _ => panic!(rt; "no entry: {line}"),
    }
}

/// An entry, as "open 3 1" or "double"; "move" plays a turn without steps.
pub(super) fn entry(rt: &impl Abort, line: &str) -> Entry {
    match line {
        "double" => Entry::Doubled,
        "take" => Entry::Taken,
        "drop" => Entry::Dropped,
        "move" => Entry::Moved(turn(rt, "")),
        "accept" => Entry::Accepted,
        "reject" => Entry::Rejected,
        "pass" => Entry::Passed,
        _ => long_entry(rt, line),
    }
}

/// The faults of entries, each behind what it prints.
pub(super) const FAULTS: [(&str, EntryFault); 9] = [
    ("record full", EntryFault::RecordFull),
    ("match over", EntryFault::MatchOver),
    ("wrong phase", EntryFault::WrongPhase),
    ("equal opening", EntryFault::EqualOpening),
    (
        "more dice can be played",
        EntryFault::Turn(TurnFault::MoreCanBePlayed),
    ),
    (
        "no double: crawford",
        EntryFault::NoDouble(NoDouble::Crawford),
    ),
    (
        "no double: not owner",
        EntryFault::NoDouble(NoDouble::NotOwner),
    ),
    ("no double: at cap", EntryFault::NoDouble(NoDouble::AtCap)),
    ("out of memory", EntryFault::Memory),
];

/// The fault of an entry that is printed so.
pub(super) fn fault(rt: &impl Abort, words: &str) -> EntryFault {
    named(rt, &FAULTS, words)
}

/// A phase, as "opening", "X acts", "X moves 3 1", "X is doubled", "X resigned gammon 3 1" or "X
/// won".
pub(super) fn phase(rt: &impl Abort, words: &str) -> Phase {
    if words == "opening" {
        return Phase::Opening;
    }
    let (name, does) = parted(rt, words, " ");
    let player = player(rt, name);
    match does {
        "acts" => Phase::ToAct(player),
        "is doubled" => Phase::Doubled(player),
        "won" => Phase::Over(player),
        _ => long_phase(rt, player, does),
    }
}

fn long_phase(rt: &impl Abort, player: Player, words: &str) -> Phase {
    let (does, rest) = parted(rt, words, " ");
    match does {
        "moves" => Phase::ToMove(player, dice(rt, rest)),
        "resigned" => resigned(rt, player, rest),
        _ => panic!(rt; "no phase: {words}"),
    }
}

/// An offer to resign, as "gammon", or after a roll, as "gammon 3 1".
fn resigned(rt: &impl Abort, player: Player, words: &str) -> Phase {
    match words.split_once(' ') {
        None => Phase::Resigned(player, level(rt, words), None),
        Some((word, rest)) => Phase::Resigned(player, level(rt, word), Some(dice(rt, rest))),
    }
}

/// A cube and whose it is, as "2 X", or nobody's, as "1".
pub(super) fn cube(rt: &impl Abort, words: &str) -> Cube {
    match words.split_once(' ') {
        None => Cube {
            value: small_number(rt, words),
            owner: None,
        },
        Some((value, owner)) => Cube {
            value: small_number(rt, value),
            owner: Some(player(rt, owner)),
        },
    }
}

/// A score, that of X first, as "3-2".
pub(super) fn score(rt: &impl Abort, words: &str) -> (u16, u16) {
    let (x, o) = parted(rt, words, "-");
    (
        x.parse().expect(rt, "points"),
        o.parse().expect(rt, "points"),
    )
}

/// Whether it is the Crawford game, "crawford", or not, "plain".
pub(super) fn crawford(rt: &impl Abort, word: &str) -> bool {
    named(rt, &[("crawford", true), ("plain", false)], word)
}

/// The standing that has these parts, if there is one: the length, the board, the phase, the cube,
/// the score, whether it is the Crawford game, and the number of the game, as "7, start, X acts, 2
/// O, 3-2, plain, 4".
pub(crate) fn standing(rt: &impl Abort, rules: Rules, line: &str) -> Option<Standing> {
    let (length, rest) = parted(rt, line, ", ");
    let (points, rest) = parted(rt, rest, ", ");
    let (does, rest) = parted(rt, rest, ", ");
    let (doubling, rest) = parted(rt, rest, ", ");
    let (won, rest) = parted(rt, rest, ", ");
    let (mark, game) = parted(rt, rest, ", ");
    Standing::from_parts(
        small_number(rt, length),
        rules,
        board(rt, points),
        phase(rt, does),
        cube(rt, doubling),
        score(rt, won),
        crawford(rt, mark),
        small_number(rt, game),
    )
}
