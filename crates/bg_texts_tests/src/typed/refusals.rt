//! Typed turns that are refused.
use super::{check_typed, placed, start};
use bg_board::{Die, Player};

const NO_MOVEMENT: &str = "not a movement";

const TOO_MANY: &str = "too many steps";

const NO_TURN: &str = "no legal turn has this movement";

const OTHER_HITS: &str = "no legal turn has this movement with these hits";

const SEVERAL: &str = "several turns are legal";

/// At the start, with 3 and 1.
static REFUSALS: [(&str, &str); 25] = [
    ("hello", NO_MOVEMENT),
    ("8", NO_MOVEMENT),
    ("8/", NO_MOVEMENT),
    ("/5", NO_MOVEMENT),
    ("8//5", NO_MOVEMENT),
    ("5/8", NO_MOVEMENT),
    ("8/8", NO_MOVEMENT),
    ("26/25", NO_MOVEMENT),
    ("8/5 6 5", NO_MOVEMENT),
    ("8/5 6/5 move", NO_MOVEMENT),
    ("move move 8/5 6/5", NO_MOVEMENT),
    ("8/5(0)", NO_MOVEMENT),
    ("8/5(5)", NO_MOVEMENT),
    ("8/5 6/5 5/4 4/3 3/2 x", NO_MOVEMENT),
    ("8/5 6/5 5/4 4/3 3/2", TOO_MANY),
    ("8/7/6/5/4/3", TOO_MANY),
    ("8/5(3) 6/5(2)", TOO_MANY),
    ("8/5/4(3)", TOO_MANY),
    ("8/5", NO_TURN),
    ("8/5*", NO_TURN),
    ("8/5 6/5 24/23", NO_TURN),
    ("8/5* 6/5", OTHER_HITS),
    ("", SEVERAL),
    ("m", SEVERAL),
    ("MOVE ", SEVERAL),
];

/// The first of the reasons that apply.
#[test]
fn refusals(rt: HostRuntime) {
    let at = start(Player::X, Die::Three, Die::One);
    check_typed(&rt, rt.alloc(), &at, &REFUSALS);
}

/// Marks that are not just the hits. O has single checkers on his 5 and his 7 point, which are 20
/// and 18 to X.
static HITS: [(&str, &str); 7] = [
    ("24/14*", OTHER_HITS),
    ("24/20*/14*", OTHER_HITS),
    ("24/20 24/18*", OTHER_HITS),
    ("24/18*/14", "move 24-18 18-14"),
    ("24/20* 24/18*", "move 24-20 24-18"),
    ("24/20 24/18", "move 24-20 24-18"),
    ("24/14", "move 24-20 20-14 or move 24-18 18-14"),
];

#[test]
fn other_hits(rt: HostRuntime) {
    let at = placed(&rt, "24:2 13:13", "24:2 7:1 6:11 5:1", Die::Six, Die::Four);
    check_typed(&rt, rt.alloc(), &at, &HITS);
}
