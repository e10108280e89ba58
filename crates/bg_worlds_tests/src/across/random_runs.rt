//! Worlds under random events of all kinds, whose devices fail now and then.
use crate::across::actions::action_of;
use crate::checks::{check, check_number};
use crate::fronts::{check_fronts, check_legal};
use crate::worlds::memory_worlds::MemoryWorld;
use bg_board::Player;
use bg_match::{Action, Entry, Number, Phase, Record, Rules, entry_of};
use bg_party::Learned;
use bg_referee::TakeOutcome;
use bg_wire::party_of;
use bg_world::{Event, FailRead, FailSend, Outcome, Plan, Setup, Tear, simulate};
use rand_chacha::ChaCha20Rng;
use rand_core::SeedableRng;
use rand_core::utils::NextWord;
use std::alloc::Global;
use std::process::Abort;

const EVENTS: u32 = 6000;

/// The last party of a match with three watchers. There are events at the next one, too.
const LAST_PARTY: u8 = 5;

/// Adds a failure of each kind, by two random words.
fn add_failures(rt: &impl Abort, plan: &mut Plan, a: u32, b: u32) {
    let party = (a % 3) as u8;
    let tear = Tear {
        party,
        nth: a / 3 % 300,
        cut: if b % 3 == 0 { None } else { Some(b / 3 % 200) },
    };
    let send = FailSend {
        nth: a / 3 % 1000,
        went: b % 2 == 0,
    };
    let read = FailRead {
        party,
        nth: b / 3 % 100,
    };
    check(rt, "memory", plan.tears.push(tear).is_ok());
    check(rt, "memory", plan.sends.push(send).is_ok());
    check(rt, "memory", plan.reads.push(read).is_ok());
}

/// A plan by which each device fails a few dozen times.
fn plan_of(rt: &impl Abort, alloc: Global, words: &mut ChaCha20Rng) -> Plan {
    let mut plan = Plan {
        tears: Vec::new(alloc),
        sends: Vec::new(alloc),
        reads: Vec::new(alloc),
    };
    for _ in 0..40 {
        let (a, b) = (words.next_word(), words.next_word());
        add_failures(rt, &mut plan, a, b);
    }
    plan
}

/// A take by a party: of one of its last datagrams above all, of any, or of none.
fn take(world: &MemoryWorld, party: u8, a: u32, word: u32) -> Event {
    let count = world.link().sent_to(party);
    let pick = match a % 8 {
        0 => a / 8 % count.max(1),
        1 => u32::MAX,
        2 => count,
        3 => count.saturating_sub(2),
        _ => count.saturating_sub(1),
    };
    Event::Take { party, pick, word }
}

/// The phase of a party's record; where it is down, as at the start.
fn phase_of(world: &MemoryWorld, party: u8) -> Phase {
    match world.held(party) {
        Some(record) => record.standing().phase(),
        None => Phase::Opening,
    }
}

/// A player's choice, by the record of his seat.
fn choice(rt: &impl Abort, world: &MemoryWorld, seat: Player, word: u32) -> Event {
    let action = action_of(rt, phase_of(world, party_of(seat)), word);
    Event::Choose { seat, action }
}

/// The event of two random words.
fn event_of(rt: &impl Abort, world: &MemoryWorld, a: u32, b: u32) -> Event {
    let any = (b / 4 % (u32::from(LAST_PARTY) + 2)) as u8;
    let party = if a / 16 % 2 == 0 { any % 3 } else { any };
    let seat = if b % 2 == 0 { Player::X } else { Player::O };
    match a % 16 {
        0 => Event::Due { word: b },
        1..=6 => take(world, party, a / 32, b),
        7..=9 => choice(rt, world, seat, a / 16),
        10 | 11 => Event::Tick { party },
        12..=14 => Event::Save { party: any % 4 },
        _ => Event::Restart { party },
    }
}

/// How often each of these came.
#[derive(Clone, Copy, Default)]
struct Counts {
    accepted: u32,
    learned: u32,
    saves_torn: u32,
    sends_failed: u32,
    reads_failed: u32,
    restarted: u32,
}

fn count(counts: &mut Counts, outcome: &Outcome) {
    let counted = match outcome {
        Outcome::Took(TakeOutcome::Accepted(_)) => &mut counts.accepted,
        Outcome::Learned(Learned::Grew(_)) => &mut counts.learned,
        Outcome::SaveFault => &mut counts.saves_torn,
        Outcome::LinkFault => &mut counts.sends_failed,
        Outcome::RestoreFault(_) => &mut counts.reads_failed,
        Outcome::Restarted => &mut counts.restarted,
        _ => return,
    };
    *counted = counted.saturating_add(1);
}

/// What was claimed: by whom, under which number, and which action.
#[derive(Drop)]
struct Claim {
    seat: Player,
    number: Number,
    action: Action,
}

impl Claim {
    /// Whether the entry, of this seat and under this number, answers it.
    fn is_answered_by(&self, seat: Player, number: Number, entry: &Entry) -> bool {
        if self.seat != seat || self.number != number {
            return false;
        }
        let dice = match entry {
            Entry::Rolled(dice) => Some(*dice),
            _ => None,
        };
        entry_of(self.action.copy(), dice).as_ref() == Some(entry)
    }
}

/// Whether the entry answers one of the claims that its seat made under its number.
fn is_claimed(claims: &[Claim], seat: Player, number: Number, entry: &Entry) -> bool {
    for claim in claims {
        if claim.is_answered_by(seat, number, entry) {
            return true;
        }
    }
    false
}

/// Each entry of a seat was claimed.
fn check_claimed(rt: &impl Abort, record: &Record, claims: &[Claim]) {
    for number in 1..=record.len() {
        if let (Some(seat), Some(entry)) = (record.by(number), record.entry(number)) {
            check_number(
                rt,
                "entry",
                number.into(),
                is_claimed(claims, seat, number, entry),
            );
        }
    }
}

/// Each kind of failure and of progress came.
fn check_counts(rt: &impl Abort, counts: Counts) {
    check(
        rt,
        "progress of each kind",
        counts.accepted > 0 && counts.learned > 0 && counts.restarted > 0,
    );
    check(
        rt,
        "failures of each kind",
        counts.saves_torn > 0 && counts.sends_failed > 0 && counts.reads_failed > 0,
    );
}

fn world(rt: &impl Abort, alloc: Global, rules: Rules, plan: &Plan) -> MemoryWorld {
    let setup = Setup {
        id: 9,
        length: 99,
        rules,
        watchers: LAST_PARTY - 2,
    };
    let (world, _) = simulate(alloc, setup, plan, &[]).expect(rt, "a world");
    world
}

/// Notes the claim that an event made, if it made one.
fn note_claim(rt: &impl Abort, claims: &mut Vec<Claim>, event: Event, outcome: &Outcome) {
    if let (Event::Choose { seat, action }, Outcome::Chose(Ok(number))) = (event, outcome) {
        let claim = Claim {
            seat,
            number: *number,
            action,
        };
        check(rt, "memory", claims.push(claim).is_ok());
    }
}

/// The event of two random words happens, and is noted.
fn happen(
    rt: &impl Abort,
    world: &mut MemoryWorld,
    claims: &mut Vec<Claim>,
    counts: &mut Counts,
    a: u32,
    b: u32,
) {
    let event = event_of(rt, world, a, b);
    let outcome = world.step(event.copy());
    note_claim(rt, claims, event, &outcome);
    count(counts, &outcome);
}

/// After each event the record of each party is a front of the referee's, and in the end each entry
/// of a seat is one that it claimed, and the entries follow each other.
fn check_run(rt: &impl Abort, alloc: Global, seed: u8, rules: Rules) {
    let mut words = ChaCha20Rng::from_seed([seed; 32]);
    let mut world = planned(rt, alloc, &mut words, rules);
    check_events(rt, alloc, &mut world, &mut words);
}

/// A world in which each device fails a few dozen times.
fn planned(rt: &impl Abort, alloc: Global, words: &mut ChaCha20Rng, rules: Rules) -> MemoryWorld {
    let plan = plan_of(rt, alloc, words);
    world(rt, alloc, rules, &plan)
}

fn check_events(rt: &impl Abort, alloc: Global, world: &mut MemoryWorld, words: &mut ChaCha20Rng) {
    let mut claims = Vec::new(alloc);
    let counts = counts_of_events(rt, world, &mut claims, words);
    check_counts(rt, counts);
    check_end(rt, alloc, world, &claims);
}

/// How often each outcome came, where all events happen. After each of them the records are fronts
/// of the referee's.
fn counts_of_events(
    rt: &impl Abort,
    world: &mut MemoryWorld,
    claims: &mut Vec<Claim>,
    words: &mut ChaCha20Rng,
) -> Counts {
    let mut counts = Counts::default();
    for _ in 0..EVENTS {
        let (a, b) = (words.next_word(), words.next_word());
        happen(rt, world, claims, &mut counts, a, b);
        check_fronts(rt, world, LAST_PARTY);
    }
    counts
}

/// The referee's record, where it is up, has claimed entries alone, and is legal.
fn check_end(rt: &impl Abort, alloc: Global, world: &MemoryWorld, claims: &[Claim]) {
    if let Some(record) = world.held(0) {
        check_claimed(rt, record, claims);
        check_legal(rt, alloc, record);
    }
}

#[test]
fn random_events(rt: HostRuntime) {
    check_run(&rt, rt.alloc(), 1, Rules::One);
    check_run(&rt, rt.alloc(), 2, Rules::Two);
    check_run(&rt, rt.alloc(), 3, Rules::One);
    check_run(&rt, rt.alloc(), 4, Rules::Two);
}
