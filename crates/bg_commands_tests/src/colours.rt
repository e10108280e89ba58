//! The colours of checkers and of offers, and the texts without them; and the lines that texts are
//! broken into.
use crate::checks::check;
use bg_board::Player;
use bg_console::{broken, with_bold_offers, with_coloured_checkers};
use std::process::Abort;

/// What a player sees where checkers stand one above another, where they are numbers, and where
/// points are a list.
const STACKS: &str = "length 3, game 1
score: X (you) 0 of 3, O 0 of 3
  13  14  |  19  20
   X   .  |   O   .
   7      |   O
bar: X 1, O 0; off: X 0, O 0
pips: X (you) 167, O 167
cube: 2 of O
last: O roll 3 1
O to move 3 1
";

const COLOURED_STACKS: &str = "length 3, game 1
score: X (you) 0 of 3, O 0 of 3
  13  14  |  19  20
   \x1b[1mX\x1b[0m   .  |   \x1b[35mO\x1b[0m   .
   7      |   \x1b[35mO\x1b[0m
bar: \x1b[1mX\x1b[0m 1, \x1b[35mO\x1b[0m 0; off: \x1b[1mX\x1b[0m 0, \x1b[35mO\x1b[0m 0
pips: X (you) 167, O 167
cube: 2 of O
last: O roll 3 1
O to move 3 1
";

const ROWS: &str = "  O5   .  X12  |   .  O2\n24 X2\nX";

const COLOURED_ROWS: &str = "  \x1b[1mO5\x1b[0m   .  \x1b[35mX12\x1b[0m  |   .  \x1b[1mO2\x1b[0m
24 \x1b[35mX2\x1b[0m
\x1b[35mX\x1b[0m";

const OFFERS: &str = "roll the dice first
your turn, O: roll, double, resign normal,
resign gammon
";

const BOLD_OFFERS: &str = "roll the dice first
your turn, O:\x1b[1m roll, double, resign normal,\x1b[0m
\x1b[1mresign gammon\x1b[0m
";

/// A text without the sequences of looks, each of which ends with an `m`.
fn plain<'a>(rt: &(impl AllocGlobal + Abort), text: &[u8]) -> &'a [u8] {
    let mut out = Vec::new(rt.alloc());
    let mut is_sequence = false;
    for byte in text {
        if *byte == b'\x1b' {
            is_sequence = true;
        } else if !is_sequence {
            out.push(*byte).expect(rt, "memory");
        } else if *byte == b'm' {
            is_sequence = false;
        }
    }
    out.leak()
}

/// A text in which the checkers of a player are bold.
fn coloured<'a>(rt: &(impl AllocGlobal + Abort), text: &str, bold: Player) -> &'a [u8] {
    let coloured = with_coloured_checkers(rt.alloc(), text.as_bytes(), bold);
    coloured.expect(rt, "memory").leak()
}

/// Texts, who has bold checkers, and how the texts are with colours.
const COLOURED: &[(&str, Player, &str)] = &[
    (STACKS, Player::X, COLOURED_STACKS),
    (ROWS, Player::O, COLOURED_ROWS),
    (
        "X roll 3 1\nO move bar-20\n",
        Player::X,
        "X roll 3 1\nO move bar-20\n",
    ),
    (OFFERS, Player::O, OFFERS),
    ("", Player::O, ""),
];

#[test]
fn checkers_have_the_colours_of_their_players(rt: HostRuntime) {
    check_colours(&rt);
}

/// Each text is coloured as it should be, and is the same without that.
fn check_colours(rt: &(impl AllocGlobal + Abort)) {
    for (text, bold, wanted) in COLOURED {
        let coloured = coloured(rt, text, *bold);
        let is_so = coloured == wanted.as_bytes() && plain(rt, coloured) == text.as_bytes();
        check(rt, is_so, text);
    }
}

/// A text in which what is offered is bold.
fn offered<'a>(rt: &(impl AllocGlobal + Abort), text: &str) -> &'a [u8] {
    let bold = with_bold_offers(rt.alloc(), text.as_bytes());
    bold.expect(rt, "memory").leak()
}

/// Texts, and how they are with what is offered in bold.
const OFFERED: &[(&str, &str)] = &[
    (OFFERS, BOLD_OFFERS),
    ("it is O's turn\n", "it is O's turn\n"),
    ("your turn, X: roll", "your turn, X:\x1b[1m roll\x1b[0m"),
    (STACKS, STACKS),
    ("", ""),
];

#[test]
fn offers_are_bold(rt: HostRuntime) {
    check_offers(&rt);
}

/// Each text is bold where it should be, and is the same without that.
fn check_offers(rt: &(impl AllocGlobal + Abort)) {
    for (text, wanted) in OFFERED {
        let bold = offered(rt, text);
        let is_so = bold == wanted.as_bytes() && plain(rt, bold) == text.as_bytes();
        check(rt, is_so, text);
    }
}

/// The offers to a player who is to move; and what is no offer.
const TO_MOVE: &str =
    "your turn, X: move .. (`legal` lists the turns), resign normal, resign gammon, resign backgammon";

const TO_ROLL: &str = "your turn, O: roll, double, resign normal, resign gammon, resign backgammon";

const NO_OFFER: &str = "X is away, resign normal, and wait";

/// A text in lines of so many columns.
fn lines_of<'a>(rt: &(impl AllocGlobal + Abort), text: &str, columns: usize) -> &'a [u8] {
    let lines = broken(rt.alloc(), text.as_bytes(), columns);
    lines.expect(rt, "memory").leak()
}

/// So many columns, a text, and its lines.
const BROKEN: &[(usize, &str, &str)] = &[
    (
        60,
        TO_MOVE,
        "your turn, X: move .. (`legal` lists the turns),\nresign normal, resign gammon, resign backgammon\n",
    ),
    (
        40,
        TO_MOVE,
        "your turn, X:\nmove .. (`legal` lists the turns),\nresign normal, resign gammon,\nresign backgammon\n",
    ),
    (
        30,
        TO_MOVE,
        "your turn, X: move .. (`legal`\nlists the turns),\nresign normal, resign gammon,\nresign backgammon\n",
    ),
    (
        60,
        TO_ROLL,
        "your turn, O: roll, double, resign normal, resign gammon,\nresign backgammon\n",
    ),
    (20, NO_OFFER, "X is away, resign\nnormal, and wait\n"),
    (4, "abcdef g\n\nh i\n", "abcdef\ng\n\nh i\n"),
    (9, "", "\n"),
];

#[test]
fn lines_break_between_words_and_offers(rt: HostRuntime) {
    check_lines(&rt);
}

/// Each text is broken at its columns.
fn check_lines(rt: &(impl AllocGlobal + Abort)) {
    for (columns, text, wanted) in BROKEN {
        let lines = lines_of(rt, text, *columns);
        check(rt, lines == wanted.as_bytes(), wanted);
    }
}
