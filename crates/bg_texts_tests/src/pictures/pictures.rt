//! The pictures of standings.
use super::standings::{START, standing_of};
use crate::boards::board;
use crate::checks::{check_row, text_of};
use bg_board::{Die, Player};
use bg_match::{Cube, Level, Phase, Rules, Standing};
use bg_picture::{Numbering, picture_text};
use bg_turns::Dice;
use std::alloc::Global;
use std::process::Abort;

/// The picture of a standing has each of these parts.
fn check_parts(
    rt: &impl Abort,
    alloc: Global,
    standing: &Standing,
    numbering: Numbering,
    parts: &[&str],
) {
    let picture = picture_text(alloc, standing, numbering).expect(rt, "memory");
    let text = text_of(&picture);
    for part in parts {
        check_row(rt, part, text.contains(*part));
    }
}

const BEGIN: &str = "<svg xmlns='http://www.w3.org/2000/svg' viewBox='-8 0 616 560' role='img'>\
    <title>opening</title><desc>length 7, game 1; X 0, O 0; cube 1 in the middle\
    ; X: 0 on the bar, 0 off, 2 on 24, 5 on 13, 3 on 8, 5 on 6\
    ; O: 0 on the bar, 0 off, 2 on 1, 5 on 12, 3 on 17, 5 on 19; points as X counts</desc><style>";

const END: &str =
    "</g>\n</defs>\n<use href='#board' x='0' y='0'/><use href='#numbers-x' x='0' y='0'/><g class='x'>\
    <use href='#c5' x='340' y='305'/><use href='#c3' x='220' y='381'/><use href='#c5' x='60' y='65'/>\
    <use href='#c2' x='540' y='65'/></g><g class='o'><use href='#c5' x='340' y='65'/>\
    <use href='#c3' x='220' y='65'/><use href='#c5' x='60' y='305'/><use href='#c2' x='540' y='419'/></g>\
    <g class='cube'><use href='#cube' x='20' y='280'/><text x='20' y='286'>1</text></g>\
    <g class='left'><text x='0' y='25'>length 7, game 1</text><text x='0' y='549'>opening</text></g>\
    <g class='right'><text x='564' y='25'>O 0</text><text x='564' y='549'>X 0</text></g></svg>\n";

/// Whether the picture of a standing begins and ends so.
fn is_drawn(alloc: Global, standing: &Standing) -> bool {
    match picture_text(alloc, standing, Numbering::Mover) {
        Ok(picture) => {
            picture.starts_with(BEGIN.as_bytes()) && picture.ends_with(END.as_bytes())
        }
        Err(_) => false,
    }
}

#[test]
fn picture_of_a_start(rt: HostRuntime) {
    let standing = standing_of(&rt, Phase::Opening, Cube::MIDDLE);
    check_row(&rt, "begin and end", is_drawn(rt.alloc(), &standing));
}

const THREE_ONE: Dice = Dice {
    first: Die::Three,
    second: Die::One,
};

static BY_THE_MOVER: [&str; 6] = [
    "<title>O to move 3 1</title>",
    "O: 0 on the bar, 0 off, 2 on 24, 5 on 13, 3 on 8, 5 on 6; points as O counts</desc>",
    "<use href='#numbers-o' x='0' y='0'/>",
    "<g id='numbers-o'><text x='540' y='58'>1</text>",
    "<text x='540' y='516'>24</text></g>\n</defs>",
    "<g class='o'><use href='#d3' x='139' y='280'/><use href='#d1' x='181' y='280'/></g>",
];

static BY_X: [&str; 5] = [
    "points as X counts</desc>",
    "<use href='#numbers-x' x='0' y='0'/>",
    "<g id='numbers-x'><text x='540' y='516'>1</text>",
    "<text x='540' y='58'>24</text></g>\n</defs>",
    "<g class='o'><use href='#d3' x='139' y='280'/><use href='#d1' x='181' y='280'/></g>",
];

#[test]
fn numbers_of_the_mover(rt: HostRuntime) {
    let standing = standing_of(&rt, Phase::ToMove(Player::O, THREE_ONE), Cube::MIDDLE);
    check_parts(&rt, rt.alloc(), &standing, Numbering::Mover, &BY_THE_MOVER);
    check_parts(&rt, rt.alloc(), &standing, Numbering::X, &BY_X);
}

static A_PASS: [&str; 5] = [
    "<title>X to pass 3 1</title><desc>length 99 rules 2, game 12, Crawford; X 98, O 97; cube 1 in the middle",
    "; X: 15 on the bar, 0 off; O: 0 on the bar, 3 off, 2 on 19",
    "<g class='x'><use href='#c5' x='300' y='305'/><text x='300' y='331'>15</text></g>",
    "<g class='o'><use href='#c3' x='580' y='65'/><use href='#c2' x='540' y='65'/>",
    "<use href='#d1' x='461' y='280'/></g><text x='515' y='287'>pass</text><g class='left'>",
];

#[test]
fn full_bar_and_a_pass(rt: HostRuntime) {
    let board = board(&rt, "25:15", "1:2 2:2 3:2 4:2 5:2 6:2");
    let phase = Phase::ToMove(Player::X, THREE_ONE);
    let (score, cube) = ((98, 97), Cube::MIDDLE);
    let standing = Standing::from_parts(99, Rules::Two, board, phase, cube, score, true, 12);
    let standing = standing.expect(&rt, "a standing");
    check_parts(&rt, rt.alloc(), &standing, Numbering::Mover, &A_PASS);
}

/// The picture of a standing in this phase has these parts.
fn check_phase(rt: &impl Abort, alloc: Global, phase: Phase, cube: Cube, parts: &[&str]) {
    let standing = standing_of(rt, phase, cube);
    check_parts(rt, alloc, &standing, Numbering::Mover, parts);
}

static OWNED: [&str; 2] = [
    "<use href='#cube' x='20' y='476'/><text x='20' y='482'>64</text>",
    "cube 64 of X",
];

static DOUBLED: [&str; 2] = [
    "<use href='#cube' x='160' y='280'/><text x='160' y='286'>128</text>",
    "O to answer the double",
];

static RESIGNED: [&str; 2] = [
    "<use href='#d1' x='461' y='280'/></g><use href='#tag' x='160' y='280'/>",
    "<text x='160' y='287'>gammon</text>",
];

static OFFERED: [&str; 2] = [
    "</g><use href='#tag' x='440' y='280'/><text x='440' y='287'>backgammon</text><g class='left'>",
    "<title>O resigns backgammon</title>",
];

#[test]
fn cubes_and_offers(rt: HostRuntime) {
    let owned = Cube {
        value: 64,
        owner: Some(Player::X),
    };
    check_phase(&rt, rt.alloc(), Phase::ToAct(Player::X), owned, &OWNED);
    check_phase(&rt, rt.alloc(), Phase::Doubled(Player::O), owned, &DOUBLED);
    let resigned = Phase::Resigned(Player::X, Level::Gammon, Some(THREE_ONE));
    check_phase(&rt, rt.alloc(), resigned, Cube::MIDDLE, &RESIGNED);
    let offered = Phase::Resigned(Player::O, Level::Backgammon, None);
    check_phase(&rt, rt.alloc(), offered, Cube::MIDDLE, &OFFERED);
}

static OVER: [&str; 4] = [
    "<title>O wins the match</title>",
    "<g class='o'><use href='#c5' x='580' y='65'/><text x='580' y='243'>15</text></g>",
    "<use href='#cube' x='20' y='84'/>",
    "<text x='564' y='25'>O 9</text><text x='564' y='549'>X 3</text>",
];

/// Where a player's checkers stand at the start, from off to the bar.
const COUNTS_AT_START: [u8; 26] = [
    0, 0, 0, 0, 0, 0, 5, 0, 3, 0, 0, 0, 0, 5, 0, 0, 0, 0, 0, 0, 0, 0, 0, 0, 2, 0,
];

#[test]
fn end_of_a_match(rt: HostRuntime) {
    let cube = Cube {
        value: 2,
        owner: Some(Player::O),
    };
    let board = board(&rt, START, "0:15");
    let phase = Phase::Over(Player::O);
    let standing = Standing::from_parts(7, Rules::One, board, phase, cube, (3, 9), false, 1);
    let standing = standing.expect(&rt, "a standing");
    check_parts(&rt, rt.alloc(), &standing, Numbering::Mover, &OVER);
    let of_x = *standing.board().checkers(Player::X);
    check_row(&rt, "start", of_x == COUNTS_AT_START);
}
