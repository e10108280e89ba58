//! Parties that are nodes of their own: rows of the worked matches, and the same events through a
//! world and through nodes.
ghost use Rattle.std.specs.Prelude.{◌<◌, ◌≤◌};

use crate::checks::{check, check_no_growth_is_left, check_party, check_row};
use crate::devices::{NO_FAILURE, Recorder};
use crate::fronts::is_front;
use crate::worlds::lines::{event, lines_of};
use crate::worlds::memory_worlds::{MemoryWorld, record_of, step, world_of};
use crate::worlds::own_links::{is_taken, sends};
use crate::worlds::parties::{Parties, failing};
use bg_board::Player;
use bg_match::Action;
use bg_world::{Event, Outcome, WorldFault};
use std::process::Abort;
use std::test::Fail;

const PLAYS: &str = "\
with_a_watcher
as a_turn

a_lost_roll_and_a_kept_claim
as to_the_choice
as to_the_claim
as to_the_roll
as the_roll_lost
as the_claim_kept

to_the_choice
as to_the_choice

a_claim_over_two_processes
as to_the_claim
as the_claim_kept
";

/// Five parties, whose events come to what this play says.
fn played(rt: &impl Abort, recorder: &'static Recorder, name: &str) -> Parties {
    let mut parties = Parties::begin(rt, recorder).expect(rt, "memory");
    parties.check_rows(rt, &lines_of(rt, PLAYS, name));
    parties
}

#[test]
fn worked_matches_of_nodes(rt: HostRuntime) {
    let recorder = Recorder::that_lasts(&rt, rt.alloc(), NO_FAILURE);
    played(&rt, recorder, "with_a_watcher");
    played(&rt, recorder, "a_lost_roll_and_a_kept_claim");
}

/// The number after this one, in a row of numbers that looks like chance.
fn next(seed: &mut u32) -> u32 {
    *seed = seed.wrapping_mul(1_664_525).wrapping_add(1_013_904_223);
    *seed >> 8
}

/// One of the first so many numbers.
pub(crate) fn below(seed: &mut u32, count: u32) -> u32
    requires { 1 ≤ count }
    ensures { result < count }
{
    next(seed) % count
}

/// Any event, of six parties of which five exist.
fn any_event(rt: &impl Abort, seed: &mut u32) -> Event {
    let party = below(seed, 6) as u8;
    match below(seed, 16) {
        0 => Event::Due { word: next(seed) },
        1 => event(rt, "choose X double"),
        2 => event(rt, "choose O roll"),
        3 => event(rt, "choose X move 8-5 6-5"),
        4 => Event::Restart { party },
        5 | 6 => Event::Save { party },
        7..=10 => Event::Tick { party },
        _ => Event::Take {
            party,
            pick: below(seed, 40),
            word: next(seed),
        },
    }
}

/// Every party holds as many entries here as there, and the same ones.
fn check_same(rt: &impl Abort, parties: &Parties, world: &MemoryWorld) {
    for party in 0..6 {
        let same = match (parties.held(party), record_of(world, party)) {
            (None, None) => true,
            (Some(here), Some(there)) => here.len() == there.len() && is_front(here, there),
            _ => false,
        };
        check_party(rt, party, same);
    }
}

/// The devices of a world that fail as those of the nodes do, but for the reads with which nodes
/// begin.
const FAILING: [&str; 4] = [
    "watchers 2",
    "fails: write 0 2 20",
    "fails: send 7 went",
    "fails: read 1 3",
];

/// The same events through a world and through nodes come to the same, over devices that fail
/// alike. A process that begins reads both slots, which a new world does not.
fn check_events(rt: &(impl AllocGlobal + Abort), seed: u32, fails: bool) {
    let mut seed = seed;
    let failing = if fails { failing(5) } else { NO_FAILURE };
    let recorder = Recorder::that_lasts(rt, rt.alloc(), failing);
    let mut parties = Parties::begin(rt, recorder).expect(rt, "memory");
    let world = world_of(rt, if fails { &FAILING } else { &FAILING[..1] });
    for i in 0..400 {
        let event = any_event(rt, &mut seed);
        check_row(rt, i, comes_to_the_same(rt, &mut parties, world, event));
        check_same(rt, &parties, world);
    }
}

/// Whether an event comes to the same through the nodes and through the world.
fn comes_to_the_same(
    rt: &impl Abort,
    parties: &mut Parties,
    world: &mut MemoryWorld,
    event: Event,
) -> bool {
    let here = parties.step(rt, event.copy());
    here == step(world, event)
}

#[test]
fn nodes_and_a_world(rt: HostRuntime) {
    for seed in 0..12 {
        check_events(&rt, seed, seed % 2 == 1);
    }
}

/// Whether the last claim of X is a move as entry 2.
fn claims_a_move(parties: &mut Parties) -> bool {
    matches!(parties.claim(Player::X), Some((2, Action::Move(_))))
}

/// The claim of the move in match 1.
const CLAIM: [u8; 24] = [
    0x42, 0x47, 0x02, 0x02, 0x00, 0x00, 0x00, 0x00, 0x00, 0x00, 0x00, 0x01, 0x01, 0x01, 0x00, 0x00,
    0x00, 0x02, 0x06, 0x02, 0x08, 0x05, 0x06, 0x05,
];

fn check_a_claim_over_two_processes(rt: &(impl AllocGlobal + Abort)) {
    let recorder = Recorder::that_lasts(rt, rt.alloc(), NO_FAILURE);
    let mut parties = played(rt, recorder, "to_the_choice");
    check(rt, "X claims a move", claims_a_move(&mut parties));
    check(rt, "O claims nothing", parties.claim(Player::O).is_none());
    parties.check_rows(rt, &lines_of(rt, PLAYS, "a_claim_over_two_processes"));
    check(rt, "X claims a move", claims_a_move(&mut parties));
    check(
        rt,
        "the claim is taken",
        is_taken(&mut *parties.link, 2, &CLAIM),
    );
    check(rt, "the claim is sent", sends(&mut *parties.link, &CLAIM));
    parties.check_rows(rt, &["take 0 3 0 -> accepted 2", "take 0 2 0 -> nothing"]);
}

/// A seat's claim is kept over the end of its process, and told by the next one, byte for byte. It
/// counts once, also where somebody else repeats it.
#[test]
fn a_claim_over_two_processes(rt: HostRuntime) {
    check_a_claim_over_two_processes(&rt);
}

/// Five parties, whose first try may lack memory.
fn begin_at_last(rt: &impl Abort, recorder: &'static Recorder) -> Result<Parties, WorldFault> {
    match Parties::begin(rt, recorder) {
        Ok(parties) => Ok(parties),
        Err(_) => Parties::begin(rt, recorder),
    }
}

/// What each party holds that is up is a front of what the referee does. One that could not save,
/// or come back, is down.
fn check_fronts(rt: &impl Abort, parties: &Parties) {
    let Some(whole) = parties.held(0) else {
        return;
    };
    for party in 1..4 {
        if let Some(record) = parties.held(party) {
            check_party(rt, party, is_front(record, whole));
        }
    }
}

fn check_refused_growths_of_nodes(rt: &(impl AllocGlobal + Abort)) -> Result<(), Fail> {
    let recorder = Recorder::that_lasts(rt, rt.alloc(), NO_FAILURE);
    let mut parties = begin_at_last(rt, recorder)?;
    check_all_fronts(rt, &mut parties, &lines_of(rt, PLAYS, "with_a_watcher"));
    check_no_growth_is_left(rt.alloc())
}

/// No run of the tests refuses any growth, but `tools/checks/refuse_growths` refuses each in turn:
/// then what a party holds is still a front of what the referee does.
#[test]
fn refused_growths_of_nodes(rt: HostRuntime) -> Result<(), Fail> {
    check_refused_growths_of_nodes(&rt)
}

/// What parties hold is a front of what the referee does, after each event of these rows.
fn check_all_fronts(rt: &impl Abort, parties: &mut Parties, rows: &[&str]) {
    for row in rows {
        let (words, _) = row.split_once(" -> ").expect(rt, "a row");
        check(rt, row, is_there(rt, parties, words));
        check_fronts(rt, parties);
    }
}

/// An event happens; whether its party is there.
fn is_there(rt: &impl Abort, parties: &mut Parties, words: &str) -> bool {
    !matches!(parties.step(rt, event(rt, words)), Outcome::NoSuchParty)
}
