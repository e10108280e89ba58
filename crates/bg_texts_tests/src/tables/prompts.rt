//! What may be done now.
use crate::boards::board;
use crate::checks::check_text;
use crate::records::record_of;
use bg_board::{Board, Die, Player};
use bg_match::{Cube, Phase, Rules, Standing};
use bg_table::prompt_text;
use bg_turns::Dice;
use std::alloc::Global;
use std::process::Abort;

/// A player is told this of a standing.
fn check_prompt(
    rt: &impl Abort,
    alloc: Global,
    row: &str,
    standing: &Standing,
    player: Player,
    wanted: &str,
) {
    check_text(rt, row, prompt_text(alloc, standing, player), wanted);
}

/// X and O are told this at the end of a transcript.
fn check_prompts(rt: &impl Abort, alloc: Global, row: &[&str; 3]) {
    let [transcript, to_x, to_o] = *row;
    let standing = record_of(rt, alloc, transcript).standing();
    check_prompt(rt, alloc, transcript, &standing, Player::X, to_x);
    check_prompt(rt, alloc, transcript, &standing, Player::O, to_o);
}

const TO_ROLL: &str =
    "your turn, X: roll, double, resign normal, resign gammon, resign backgammon\n";

const NO_CUBE: &str = "your turn, X: roll, resign normal, resign gammon, resign backgammon\n";

/// A transcript, and what is said to X and to O at its end.
static PROMPTS: [[&str; 3]; 9] = [
    [
        "length 3\n",
        "it is the referee's turn\n",
        "it is the referee's turn\n",
    ],
    [
        "length 3\nopen 1 3\n",
        "it is O's turn\n",
        "your turn, O: move .. (`legal` lists the turns), resign normal, resign gammon, resign backgammon\n",
    ],
    [
        "length 3\nopen 1 3\nO move 8-5 6-5\n",
        TO_ROLL,
        "it is X's turn\n",
    ],
    // no cube in a Crawford game
    [
        "length 1\nopen 1 3\nO move 8-5 6-5\n",
        NO_CUBE,
        "it is X's turn\n",
    ],
    [
        "length 3\nopen 1 3\nO move 8-5 6-5\nX double\n",
        "it is O's turn\n",
        "your turn, O: take, drop\n",
    ],
    // the cube is O's
    [
        "length 3\nopen 1 3\nO move 8-5 6-5\nX double\nO take\n",
        NO_CUBE,
        "it is X's turn\n",
    ],
    [
        "length 3\nopen 1 3\nO move 8-5 6-5\nX double\nO take\nX roll 3 1\nX move 8-5 6-5\n",
        "it is O's turn\n",
        "your turn, O: roll, double, resign normal, resign gammon, resign backgammon\n",
    ],
    [
        "length 3\nopen 1 3\nO move 8-5 6-5\nX resign normal\n",
        "it is O's turn\n",
        "your turn, O: accept, reject\n",
    ],
    [
        "length 1\nopen 1 3\nO move 8-5 6-5\nX resign normal\nO accept\n",
        "the match is over\n",
        "the match is over\n",
    ],
];

#[test]
fn prompts_of_transcripts(rt: HostRuntime) {
    for row in &PROMPTS {
        check_prompts(&rt, rt.alloc(), row);
    }
}

/// The standing where X is to act, and has the cube at this value.
fn with_cube(rt: &impl Abort, value: u8) -> Standing {
    let cube = Cube {
        value,
        owner: Some(Player::X),
    };
    let phase = Phase::ToAct(Player::X);
    let board = Board::start();
    Standing::from_parts(99, Rules::One, board, phase, cube, (0, 0), false, 1).expect(
        rt,
        "a standing",
    )
}

/// The cube of X, and whether he may double with it.
static CUBES: [(u8, &str, &str); 3] = [
    (2, "the cube at 2", TO_ROLL),
    (64, "the cube at 64", TO_ROLL),
    (128, "the cube at 128", NO_CUBE),
];

#[test]
fn doubles_below_the_cap(rt: HostRuntime) {
    for &(value, row, wanted) in &CUBES {
        check_prompt(
            &rt,
            rt.alloc(),
            row,
            &with_cube(&rt, value),
            Player::X,
            wanted,
        );
    }
}

/// The standing where X is to move by these rules, and has no step.
fn without_a_step(rt: &impl Abort, rules: Rules) -> Standing {
    let board = board(rt, "25:1 6:14", "1:2 2:2 3:2 4:2 5:2 6:5");
    let dice = Dice {
        first: Die::Six,
        second: Die::One,
    };
    let phase = Phase::ToMove(Player::X, dice);
    Standing::from_parts(3, rules, board, phase, Cube::MIDDLE, (0, 0), false, 1).expect(
        rt,
        "a standing",
    )
}

/// A player without a step moves nothing under rules one, and under rules two the referee passes
/// his turn.
#[test]
fn turns_without_a_step(rt: HostRuntime) {
    let first = without_a_step(&rt, Rules::One);
    let moving =
        "your turn, X: move .. (`legal` lists the turns), resign normal, resign gammon, resign backgammon\n";
    check_prompt(&rt, rt.alloc(), "rules one", &first, Player::X, moving);
    let second = without_a_step(&rt, Rules::Two);
    let passing = "it is the referee's turn\n";
    check_prompt(&rt, rt.alloc(), "rules two", &second, Player::X, passing);
}
