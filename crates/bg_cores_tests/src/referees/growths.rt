//! Refused growths.
use super::packets::{OFFER_A_GAMMON, THREE_ONE, X, claim_gives};
use super::referees::{offers, opened};
use super::saves::size_of_save;
use crate::checks::check_row;
use bg_match::Rules;
use bg_referee::{DueFault, Referee, TakeOutcome};
use bg_wire::Slot;
use std::process::Abort;
use std::test::Fail;

/// Whether the opening 3 1 is entry 1, also where the memory for it is refused once.
fn opens(referee: &mut Referee) -> bool {
    match opened(referee, THREE_ONE) {
        Err(DueFault::Memory) => referee.held().is_empty() && opened(referee, THREE_ONE) == Ok(1),
        first => first == Ok(1),
    }
}

/// Where memory is refused nothing has changed, and the same call then succeeds. No run of the
/// tests refuses any, but `tools/checks/refuse_growths` refuses each growth in turn.
#[test]
fn refused_growths(rt: HostRuntime) -> Result<(), Fail> {
    let mut referee = Referee::fresh(rt.alloc(), 1, 1, Rules::One)?;
    check_growths(&rt, &mut referee);
    Ok(())
}

fn check_growths(rt: &impl Abort, referee: &mut Referee) {
    check_row(rt, "the opening", opens(referee));
    check_row(rt, "ten offers", offers(referee, 20));
    // What stands before the entries has 24 bytes, the opening three, each of ten offers two, each
    // rejection one.
    let is_sized = size_of_save(referee) == Ok((Slot::One, 1, 56));
    check_row(rt, "the size of the save", is_sized);
    check_row(rt, "nothing is saved", referee.saved() == 0);
    let is_ahead = claim_gives(referee, X, 22, &OFFER_A_GAMMON, 0, TakeOutcome::Ahead);
    check_row(rt, "a claim ahead", is_ahead);
}
