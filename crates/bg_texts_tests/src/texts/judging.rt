//! The boards and the verdicts of the judge. The expected texts are those of the rules and formats,
//! worked out by hand.
use super::pictures::{HEADER, OPENED, START, check_drawings};

/// X has moved 8-5 6-5, and O 24-18 24-18 13-7 13-7.
const ANSWERED: &str = "  13  14  15  16  17  18  19  20  21  22  23  24
  X5   .   .   .  O3  O2  O5   .   .   .   .  X2
  O3   .   .   .  X2  O2  X4  X2   .   .   .   .
  12  11  10   9   8   7   6   5   4   3   2   1
bar X 0 O 0 off X 0 O 0
";

static GOOD_OPENINGS: [[&str; 5]; 2] = [
    [
        "length 1\nopen 3 1\nX move 8-5 6-5\n",
        HEADER,
        OPENED,
        "O to roll",
        "ok 2\nFine(2)",
    ],
    [
        "length 1\nopen 3 1\nX move 8-5 6-5\nO roll 6 6\nO move 24-18 24-18 13-7 13-7\n",
        HEADER,
        ANSWERED,
        "X to roll",
        "ok 4\nFine(4)",
    ],
];

#[test]
fn boards_of_good_openings(rt: HostRuntime) {
    check_drawings(&rt, rt.alloc(), &GOOD_OPENINGS);
}

/// Both players have moved 8-5 6-5.
const BOTH_OPENED: &str = "  13  14  15  16  17  18  19  20  21  22  23  24
  X5   .   .   .  O2   .  O4  O2   .   .   .  X2
  O5   .   .   .  X2   .  X4  X2   .   .   .  O2
  12  11  10   9   8   7   6   5   4   3   2   1
bar X 0 O 0 off X 0 O 0
";

/// Openings that are refused, the Crawford game, doubles, and resignations.
static BOARDS_OF_REFUSALS_AND_DOUBLES: [[&str; 5]; 9] = [
    [
        "length 1\nopen 3 1\nX move 8-5",
        HEADER,
        START,
        "X to move 3 1",
        "refused at line 3: more can be played\nRefused(3)",
    ],
    [
        "length 1\nopen 3 3\n",
        HEADER,
        START,
        "opening",
        "refused at line 2: equal opening\nRefused(2)",
    ],
    [
        "length 1\nopen 3 1\nO move 8-5 6-5\n",
        HEADER,
        START,
        "X to move 3 1",
        "refused at line 3: wrong player\nRefused(3)",
    ],
    [
        "length 3\nopen 1 3\nO resign gammon\nX accept\nopen 3 1\nX move 8-5 6-5\nO double\n",
        "length 3 game 2 score 2-0 cube 1 middle crawford",
        OPENED,
        "O to roll",
        "refused at line 7: no double: crawford\nRefused(7)",
    ],
    [
        "length 3\nopen 1 3\nO resign gammon\nX accept\nopen 3 1\nX resign normal\nO accept\nopen 3 1\nX move 8-5 6-5\n\
        O double\n",
        "length 3 game 3 score 2-1 cube 1 middle",
        OPENED,
        "X to answer the double",
        "ok 9\nFine(9)",
    ],
    [
        "length 5\nopen 3 1\nX move 8-5 6-5\nO double\nX take\nO roll 3 1\nO move 8-5 6-5\nX double\nO drop\n",
        "length 5 game 2 score 2-0 cube 1 middle",
        START,
        "opening",
        "ok 8\nFine(8)",
    ],
    [
        "length 5\nopen 3 1\nX move 8-5 6-5\nO double\nX take\nO roll 3 1\nO move 8-5 6-5\nX double\nO take\n",
        "length 5 game 1 score 0-0 cube 4 O",
        BOTH_OPENED,
        "X to roll",
        "ok 8\nFine(8)",
    ],
    [
        "length 3\nopen 1 3\nO resign gammon\nO accept\n",
        "length 3 game 1 score 0-0 cube 1 middle",
        START,
        "O resigns gammon",
        "refused at line 4: wrong player\nRefused(4)",
    ],
    [
        "length 1\nopen 1 3\nO resign normal\nX accept\nO take\n",
        "length 1 game 1 score 1-0 cube 1 middle crawford",
        START,
        "X wins the match",
        "refused at line 5: match over\nRefused(5)",
    ],
];

#[test]
fn boards_of_refusals_and_doubles(rt: HostRuntime) {
    check_drawings(&rt, rt.alloc(), &BOARDS_OF_REFUSALS_AND_DOUBLES);
}
