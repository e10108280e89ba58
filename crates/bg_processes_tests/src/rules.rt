//! Files of matches by the second rules.
use crate::checks::check;
use crate::helpers::folders::{new_folder, remove_folder};
use crate::helpers::hosts::Host;
use crate::helpers::played_loops::{SEED, SHORT, played, try_played};
use crate::loops::stops;
use bg_match::{Rules, Terms};
use bg_world::RestoreCause;

#[test]
fn rules_belong_to_the_files(rt: HostRuntime) {
    check_rules(&rt);
}

/// Files of the second rules are none of the first.
fn check_rules(rt: &impl Host) {
    let folder = new_folder(rt, "other-rules");
    let terms = Terms {
        rules: Rules::Two,
        ..SHORT
    };
    let text = played(rt, folder, SEED, terms, 5);
    let text = str::from_utf8(text).unwrap_or_default();
    let is_told = text.contains("\nlength 1 rules 2 game 1 ");
    check(rt, is_told, "the rules are told");
    let refused = try_played(rt, folder, SEED, SHORT, 5);
    let stops = stops(refused, RestoreCause::WrongMatch);
    check(rt, stops, "other rules are another match");
    played(rt, folder, SEED, terms, 5);
    remove_folder(rt, folder);
}
