//! Matches by the second rules.
use super::actions::{
    action, check_transcript, empty_record, push, text_in, text_of, transcript_in,
};
use crate::checks::check;
use bg_board::Player;
use bg_match::{Record, Rules};
use std::process::Abort;

/// X is hit, and rolls double sixes with which he can't enter.
const NO_STEP: [&str; 5] = [
    "open 2 1",
    "X move 13-11 6-5",
    "O roll 4 3",
    "O move 24-20 13-10",
    "X roll 6 6",
];

/// Whether a player does something where X can't enter.
fn acts(rt: &(impl AllocGlobal + Abort), rules: Rules, player: Player) -> bool {
    let mut record = empty_record(rt, 1, rules);
    push_all(rt, &mut record);
    action(rt.alloc(), &record, player)
        .expect(rt, "memory")
        .is_some()
}

fn push_all(rt: &impl Abort, record: &mut Record) {
    for line in &NO_STEP {
        push(rt, record, line);
    }
}

#[test]
fn nobody_plays_a_turn_that_is_passed(rt: HostRuntime) {
    check(
        &rt,
        "rules 1",
        acts(&rt, Rules::One, Player::X) && !acts(&rt, Rules::One, Player::O),
    );
    check(
        &rt,
        "rules 2",
        !acts(&rt, Rules::Two, Player::X) && !acts(&rt, Rules::Two, Player::O),
    );
}

fn check_automatic_match_by_the_second_rules(rt: &(impl AllocGlobal + Abort)) {
    let text = text_of(rt.alloc(), 4, 1, Rules::Two, 1, 4000).expect(rt, "memory");
    let text = text_in(rt, &text);
    check(
        rt,
        "how it begins",
        text.starts_with("length 1 rules 2\nopen "),
    );
    check_transcript(rt, transcript_in(rt, text));
}

#[test]
fn automatic_match_by_the_second_rules(rt: HostRuntime) {
    check_automatic_match_by_the_second_rules(&rt);
}
