//! Matches of length 1, event by event: what each comes to.
use crate::checks::check_party;
use crate::worlds::lines::check_outcome;
use crate::worlds::memory_worlds::{MemoryWorld, check_line, check_plays, played, sent_to, step};
use bg_world::Event;
use std::process::Abort;

/// In `a_turn_with_a_watcher` the watcher restarts behind the turn, and is handed the datagrams of
/// its earlier life in the other order: it keeps the later one until the earlier one comes. After
/// another restart it has it no more.
///
/// Nothing comes to `a_watcher_alone`: it asks ever more seldom.
///
/// In `a_move_is_pushed` the referee pushes the move to X, who claimed it, and to nobody else: it
/// has heard of no other party.
///
/// In `a_roll_is_lost` the referee restarts before it has saved the roll, and throws again: the
/// dice of a roll that was never saved are seen by nobody.
///
/// In `a_claim_is_kept` the seat of X restarts after it has sent its claim, which it sends again
/// (`a_claim_over_two_processes` compares its bytes). The third datagram to the referee is the
/// claim, which counts; the second is the same claim, as the seat sent it before.
///
/// In `a_claim_is_lost` the seat of X restarts before it has saved its claim: that is gone, and so
/// is what the seat had learned. It wants all entries.
pub(crate) const PLAYS: &str = "\
a_turn_with_a_watcher
watchers 1
as a_turn
held: 2 1 0 2 -
restart 3 -> restarted
take 3 1 0 -> gap
take 3 0 0 -> learned 2
restart 3 -> restarted
take 3 1 0 -> gap
tick 3 -> sent 1
take 0 4 0 -> answer to 3: entries 1 to 2
take 3 2 0 -> learned 2

a_watcher_alone
watchers 1
tick 3 -> sent 1
tick 3 -> sent 1
tick 3 -> sent 0
tick 3 -> sent 1
tick 3 -> sent 0
tick 3 -> sent 0
tick 3 -> sent 0
tick 3 -> sent 1
tick 3 -> sent 0
sent to 0: 4

a_move_is_pushed
as to_the_choice
as to_the_claim
take 0 1 0 -> accepted 2
save 0 -> saved 2
tick 0 -> sent 1
tick 0 -> sent 0
take 1 1 0 -> learned 1
held: 2 2

a_roll_is_saved
as to_the_choice
as to_the_claim
as to_the_roll
save 0 -> saved 3
take 0 1 0 -> answer to 1: entries 2 to 3
entry 3 of 0: O roll 3 1

a_roll_is_lost
as to_the_choice
as to_the_claim
as to_the_roll
as the_roll_lost
entry 3 of 0: O roll 2 3
entry 3 of 2: O roll 2 3

a_claim_is_kept
as to_the_choice
as to_the_claim
as the_claim_kept
sent to 0: 3
take 0 2 0 -> accepted 2
take 0 1 0 -> nothing
entry 2 of 0: X move 8-5 6-5

a_claim_is_lost
as to_the_choice
restart 1 -> restarted
tick 1 -> sent 1
take 0 1 0 -> answer to 1: entries 1 to 1
";

#[test]
fn worked_matches(rt: HostRuntime) {
    check_plays(&rt, PLAYS);
}

const ALONE: &str = "\
parties_that_are_alone
watchers 2
";

/// A party that nothing comes to sends on its ticks 1, 2, 4, 8, 16, 32, 64, 96 and 128, and on no
/// other up to 128.
fn check_gaps(rt: &impl Abort, world: &mut MemoryWorld, party: u8) {
    for tick in 1..129 {
        let sends = matches!(tick, 1 | 2 | 4 | 8 | 16 | 32 | 64 | 96 | 128);
        let expected = if sends { "sent 1" } else { "sent 0" };
        let outcome = step(world, Event::Tick { party });
        check_outcome(rt, "tick", &outcome, expected);
    }
}

fn check_ticks_of_parties_that_are_alone(rt: &(impl AllocGlobal + Abort)) {
    let world = played(rt, ALONE, "parties_that_are_alone", None);
    for (party, sent) in [(1, 9), (2, 18), (3, 27), (4, 36)] {
        check_gaps(rt, world, party);
        check_party(rt, party, sent_to(world, 0) == sent);
    }
    for _ in 0..128 {
        check_line(rt, world, "tick 0 -> sent 0");
    }
    // A restart begins anew.
    check_line(rt, world, "restart 3 -> restarted");
    check_gaps(rt, world, 3);
}

/// What the seats and the watchers send goes to the referee, who takes none of it and sends
/// nothing.
#[test]
fn ticks_of_parties_that_are_alone(rt: HostRuntime) {
    check_ticks_of_parties_that_are_alone(&rt);
}
