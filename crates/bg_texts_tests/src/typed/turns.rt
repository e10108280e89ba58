//! Typed turns that are played.
use super::{Place, check_typed, placed, start};
use crate::boards::board;
use bg_board::{Die, Player};
use bg_turns::Dice;

/// One turn in all spellings.
static SPELLINGS: [(&str, &str); 9] = [
    ("move 8-5 6-5", "move 8-5 6-5"),
    ("8-5 6-5", "move 8-5 6-5"),
    ("8/5 6/5", "move 8-5 6-5"),
    ("m 8/5 6/5", "move 8-5 6-5"),
    ("m 8/5, 6-5", "move 8-5 6-5"),
    ("8/5,6/5", "move 8-5 6-5"),
    (" \t Move  8/5 ,,  06/5\r", "move 8-5 6-5"),
    ("M,8-5,6-5", "move 8-5 6-5"),
    ("6/5 8/5", "move 6-5 8-5"),
];

#[test]
fn spellings(rt: HostRuntime) {
    let at = start(Player::X, Die::Three, Die::One);
    check_typed(&rt, rt.alloc(), &at, &SPELLINGS);
}

/// With 6 and 4.
static MERGED: [(&str, &str); 5] = [
    ("24/14", "move 24-20 20-14"),
    ("24/20/14", "move 24-20 20-14"),
    ("24-18-14", "move 24-18 18-14"),
    ("20/14 24/20", "move 24-20 20-14"),
    ("24/18 13/9", "move 24-18 13-9"),
];

/// With two fives.
static MERGED_BY_DOUBLES: [(&str, &str); 5] = [
    ("13/3(2)", "move 13-8 13-8 8-3 8-3"),
    ("13/8(2) 8/3(2)", "move 13-8 13-8 8-3 8-3"),
    ("13/8/3(2)", "move 13-8 8-3 13-8 8-3"),
    ("8-3(2) 13-8(2)", "move 8-3 8-3 13-8 13-8"),
    ("13/8(4)", "move 13-8 13-8 13-8 13-8"),
];

/// The way of a checker over several points is cut into steps, the greatest first.
#[test]
fn merged_steps(rt: HostRuntime) {
    let at = start(Player::X, Die::Six, Die::Four);
    check_typed(&rt, rt.alloc(), &at, &MERGED);
    let at = start(Player::O, Die::Five, Die::Five);
    check_typed(&rt, rt.alloc(), &at, &MERGED_BY_DOUBLES);
}

/// A letter that is no whole word stands for nothing.
static FROM_THE_BAR: [(&str, &str); 8] = [
    ("b/18", "move bar-22 22-18"),
    ("B-18", "move bar-22 22-18"),
    ("bar/18", "move bar-22 22-18"),
    ("25/18", "move bar-22 22-18"),
    ("m b/22,24/20", "move bar-22 24-20"),
    ("ba/18", "not a movement"),
    ("bb/18", "not a movement"),
    ("b/b", "not a movement"),
];

const OFF: [(&str, &str); 7] = [
    ("6/o(2)", "move 6-off 6-off"),
    ("6/O 6-off", "move 6-off 6-off"),
    ("6/OFF(2)", "move 6-off 6-off"),
    ("6/0(2)", "move 6-off 6-off"),
    ("6/of(2)", "not a movement"),
    ("6/o*(2)", "no legal turn has this movement with these hits"),
    (
        "6/o* 6/o",
        "no legal turn has this movement with these hits",
    ),
];

#[test]
fn the_bar_and_off(rt: HostRuntime) {
    let at = placed(&rt, "25:1 24:1 6:13", "6:15", Die::Four, Die::Three);
    check_typed(&rt, rt.alloc(), &at, &FROM_THE_BAR);
    let at = placed(&rt, "6:2", "6:15", Die::Six, Die::Six);
    check_typed(&rt, rt.alloc(), &at, &OFF);
}

/// O has a single checker on his 5 point, which is 20 to X.
static HITS_BY_X: [(&str, &str); 8] = [
    ("24/20*/14", "move 24-20 20-14"),
    ("24/20/14", "move 24-20 20-14"),
    ("24/18/14", "move 24-18 18-14"),
    ("24/20* 20/14", "move 24-20 20-14"),
    ("20/14 24/20*", "move 24-20 20-14"),
    ("24/14", "move 24-20 20-14 or move 24-18 18-14"),
    ("13/7 24/20", "move 13-7 24-20"),
    ("13/3", "move 13-9 9-3"),
];

/// X has a single checker on his 7 point, which is 18 to O.
static HITS_BY_O: [(&str, &str); 3] = [
    ("24-14", "move 24-20 20-14 or move 24-18 18-14"),
    ("24-18*-14", "move 24-18 18-14"),
    ("24/18/14", "move 24-18 18-14"),
];

/// Hits, marked and not.
#[test]
fn hits(rt: HostRuntime) {
    let at = placed(&rt, "24:2 13:13", "24:2 6:12 5:1", Die::Six, Die::Four);
    check_typed(&rt, rt.alloc(), &at, &HITS_BY_X);
    let at = Place {
        board: board(&rt, "24:2 6:12 7:1", "24:2 13:13"),
        player: Player::O,
        dice: Dice {
            first: Die::Six,
            second: Die::Four,
        },
    };
    check_typed(&rt, rt.alloc(), &at, &HITS_BY_O);
}

static LAST: [(&str, &str); 5] = [
    ("", "move 6-off"),
    (" , ", "move 6-off"),
    ("m", "move 6-off"),
    ("Move", "move 6-off"),
    ("6/off", "move 6-off"),
];

static SHUT_OUT: [(&str, &str); 3] = [("", "move"), ("m", "move"), ("move", "move")];

/// Without a movement the only turn is meant.
#[test]
fn the_only_turn(rt: HostRuntime) {
    let at = placed(&rt, "6:1", "6:15", Die::Six, Die::Six);
    check_typed(&rt, rt.alloc(), &at, &LAST);
    let closed = "1:2 2:2 3:2 4:2 5:2 6:5";
    let at = placed(&rt, "25:1 6:14", closed, Die::Six, Die::One);
    check_typed(&rt, rt.alloc(), &at, &SHUT_OUT);
}
