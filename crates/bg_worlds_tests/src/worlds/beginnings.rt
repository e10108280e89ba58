//! How processes of nodes begin: over which slots, and with which lengths.
use crate::checks::{check, check_number, lasting};
use crate::devices::keepers::OwnKeeper;
use crate::devices::{NO_FAILURE, Recorder};
use crate::worlds::parties::{ID, TERMS, begun_referee, begun_seat};
use bg_board::Player;
use bg_match::{LengthFault, Number, Rules, Terms};
use bg_referee::Referee;
use bg_world::{Outcome, RefereeNode, RestoreCause, WatcherNode};
use std::process::Abort;

/// A keeper of a party whose slots have these bytes.
fn keeper(
    rt: &(impl AllocGlobal + Abort),
    party: u8,
    zero: &[u8],
    one: &[u8],
) -> &'static mut OwnKeeper<'static> {
    let recorder = Recorder::that_lasts(rt, rt.alloc(), NO_FAILURE);
    let keeper = lasting(rt.alloc(), OwnKeeper::empty(recorder, party)).expect(rt, "memory");
    check(rt, "memory for slots", keeper.fill(zero, one).is_ok());
    keeper
}

/// How many entries the referee holds, if it is up.
fn held_by(node: &RefereeNode) -> Option<Number> {
    Some(node.held()?.len())
}

/// How many entries a referee holds whose restart came to this, or why it is down.
fn restored(
    rt: &impl Abort,
    held: Option<Number>,
    outcome: &Outcome,
) -> Result<Number, RestoreCause> {
    if let Outcome::RestoreFault(cause) = outcome {
        check(rt, "a referee that is down holds nothing", held.is_none());
        return Err(*cause);
    }
    check(rt, "the referee restarts", *outcome == Outcome::Restarted);
    Ok(held.expect(rt, "a referee that is up"))
}

/// How many entries a referee holds that begins over these slots, or why they restore nothing.
fn referee_over(
    rt: &(impl AllocGlobal + Abort),
    zero: &[u8],
    one: &[u8],
) -> Result<Number, RestoreCause> {
    let keeper = keeper(rt, 0, zero, one);
    let (node, outcome) = begun_referee(rt.alloc(), TERMS, keeper).expect(rt, "a referee");
    restored(rt, held_by(&node), &outcome)
}

/// Why a seat of X that begins over these slots is down, without a claim.
fn refusal_of_seat(
    rt: &(impl AllocGlobal + Abort),
    zero: &[u8],
    one: &[u8],
) -> Option<RestoreCause> {
    let keeper = keeper(rt, 1, zero, one);
    let (seat, outcome) = begun_seat(rt.alloc(), Player::X, TERMS, keeper).expect(rt, "a seat");
    check(
        rt,
        "a seat that is down",
        seat.held().is_none() && seat.claim().is_none(),
    );
    match outcome {
        Outcome::RestoreFault(cause) => Some(cause),
        _ => None,
    }
}

/// The first text that a referee of this match and these rules saves, of one entry. It lasts.
fn text_of(rt: &(impl AllocGlobal + Abort), id: u64, rules: Rules) -> &'static [u8] {
    let mut core = Referee::fresh(rt.alloc(), id, TERMS.length, rules).expect(
        rt,
        "a length from 1 to 99",
    );
    first_text(rt, &mut core)
}

fn first_text(rt: &impl Abort, core: &mut Referee) -> &'static [u8] {
    check(rt, "an opening", core.due(12).is_ok());
    let (_, save, text) = core.to_save().expect(rt, "a text");
    check(rt, "the first save", save == 1);
    text.leak()
}

/// A referee that begins over these slots holds so many entries.
fn check_restored(
    rt: &(impl AllocGlobal + Abort),
    row: &str,
    zero: &[u8],
    one: &[u8],
    entries: Number,
) {
    check(rt, row, referee_over(rt, zero, one) == Ok(entries));
}

/// A referee that begins over these slots is down.
fn check_down(
    rt: &(impl AllocGlobal + Abort),
    row: &str,
    zero: &[u8],
    one: &[u8],
    cause: RestoreCause,
) {
    check(rt, row, referee_over(rt, zero, one) == Err(cause));
}

fn check_processes_begin(rt: &(impl AllocGlobal + Abort)) {
    let text = text_of(rt, ID, Rules::One);
    let another = text_of(rt, ID + 1, Rules::One);
    let other_rules = text_of(rt, ID, Rules::Two);
    let torn = text.get(..20).expect(rt, "a text of 33 bytes");
    check_restored(rt, "empty", b"", b"", 0);
    check_restored(rt, "empty and a text", b"", text, 1);
    check_restored(rt, "torn and a text", torn, text, 1);
    check_restored(rt, "empty and torn", b"", torn, 0);
    check_down(rt, "torn", torn, torn, RestoreCause::Damaged);
    check_down(rt, "torn and empty", torn, b"", RestoreCause::Damaged);
    let wrong = RestoreCause::WrongMatch;
    check_down(rt, "another match", b"", another, wrong);
    check_down(rt, "other rules", b"", other_rules, wrong);
    // A seat doesn't sit down on what the referee saved.
    check(
        rt,
        "what the referee saved",
        refusal_of_seat(rt, b"", text) == Some(wrong),
    );
}

#[test]
fn processes_begin(rt: HostRuntime) {
    check_processes_begin(&rt);
}

/// No party of a match of this length begins.
fn check_length(rt: &(impl AllocGlobal + Abort), length: u8) {
    let terms = Terms { length, ..TERMS };
    let refused = Some(LengthFault::LengthOutOfRange);
    let of_referee = keeper(rt, 0, b"", b"");
    let of_seat = keeper(rt, 2, b"", b"");
    check_number(
        rt,
        "length",
        length.into(),
        begun_referee(rt.alloc(), terms, of_referee).err() == refused,
    );
    check_number(
        rt,
        "length",
        length.into(),
        begun_seat(rt.alloc(), Player::O, terms, of_seat).err() == refused,
    );
    check_number(
        rt,
        "length",
        length.into(),
        WatcherNode::fresh(rt.alloc(), 3, ID, terms).err() == refused,
    );
}

#[test]
fn lengths_of_nodes(rt: HostRuntime) {
    check_length(&rt, 0);
    check_length(&rt, 100);
}
