//! What is told of a match's dice, and what an operator changes of a match.
use crate::plays::check_play;

/// The SHA-256 is that of 32 bytes that are 3 each.
const DICE: &str = r#"{"length":1,"x":"Anna"} > 201 Created
get /matches/made/dice > sha256 648aa5c579fb30f38af744d97d6ec840c7a91277a499a0d780f3e7314eca090b
not get /matches/made/dice > secret"#;

#[test]
fn the_secret_of_the_dice_is_not_told_before_the_end(rt: HostRuntime) {
    check_play(&rt, &rt, DICE);
}

const CHANGED: &str = r#"{"length":1,"x":"Anna"} > 201 Created
get /matches > "names":["Anna",""]
change shown
get /matches > "match":"made","names":["",""]
change hidden
get /matches > "count":0
get /matches?search=made > "count":0
get /matches/made/state > "number":1
remove
not remove
matches 0
get /matches/made/state > 404 Not Found
get /matches/made/dice > 404 Not Found
not change shown"#;

#[test]
fn what_an_operator_changes(rt: HostRuntime) {
    check_play(&rt, &rt, CHANGED);
}

/// At first the other site does not have the match yet, and then it is behind. Both players send
/// each action, as one of them is on turn.
const RENEWED: &str = r#"{"length":1,"x":"Anna"} > 201 Created
other renew
x 2 resign normal > "re":
o 2 resign normal > "re":
get /matches/made/state > "number":2
other get /matches/made/state > "number":1
other renew
other get /matches/made/state > "number":2
other get /matches > "names":["",""]
other x 3 reject > "re":
other o 3 reject > "re":
other get /matches/made/state > "number":3
renew
get /matches/made/state > "number":3"#;

#[test]
fn a_match_goes_on_from_what_another_site_has_saved(rt: HostRuntime) {
    check_play(&rt, &rt, RENEWED);
}

/// Another server has changed the match without an action, and then by one.
const IDLE_ELSEWHERE: &str = r#"{"length":1,"x":"Anna"} > 201 Created
other renew
other idle 10
other minute 10
other get /matches?list=idle > "count":1
other renew
other get /matches?list=idle > "count":1
x 2 resign normal > "re":
o 2 resign normal > "re":
other renew
other get /matches?list=idle > "count":0
other minute 19
other get /matches > "count":1
other minute 20
other get /matches > "count":0"#;

#[test]
fn a_match_stays_idle_until_somebody_acts_at_another_site(rt: HostRuntime) {
    check_play(&rt, &rt, IDLE_ELSEWHERE);
}

/// A save that has failed is tried again; a match that is full is left alone.
const TOO_LONG: &str = r#"{"length":1,"x":"Anna"} > 201 Created
fail
x 2 resign normal > "re":
o 2 resign normal > "re":
restless
full
not restless
x 2 resign normal > {"re":2,"no":"too long to be saved here"}
o 2 resign normal > {"re":2,"no":"too long to be saved here"}
get /matches/made/state > "number":1"#;

#[test]
fn a_match_that_is_too_long_to_be_saved_is_still(rt: HostRuntime) {
    check_play(&rt, &rt, TOO_LONG);
}

const IDLE: &str = r#"{"length":1,"x":"Anna"} > 201 Created
idle 10
minute 9
get /matches?list=idle > "count":0
get /matches > "count":1
minute 10
get /matches?list=idle > "count":1
get /matches > "count":0
get /matches?list=finished > "count":0
get /metrics > bg_relay_matches{state="idle"} 1
idle 0
get /matches > "count":1"#;

#[test]
fn matches_without_an_action_are_listed_apart(rt: HostRuntime) {
    check_play(&rt, &rt, IDLE);
}
