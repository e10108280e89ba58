//! The random words of automatic matches: of dice and of events, and how they follow each other.
use super::actions::text_of;
use crate::checks::{check, check_number, check_row};
use bg_auto::{DiceAttempts, Simulation, dice_word, event_words};
use bg_match::{Number, Rules};
use bg_referee::{DueFault, TakeOutcome};
use bg_world::Outcome;
use rand_chacha::ChaCha20Rng;
use rand_core::SeedableRng;
use rand_core::utils::NextWord;
use std::process::Abort;

/// Words that were computed from the definition of ChaCha20 by another program: of a seed, the
/// number of an entry and an attempt.
const DICE_WORDS: [(u64, u32, u16, u32); 8] = [
    (0, 1, 0, 1632817391),
    (1, 1, 0, 2668804065),
    (1, 1, 1, 3745585283),
    (1, 2, 0, 4070185445),
    (1, 1, 65535, 573445418),
    (7, 3, 17, 4290107765),
    (258, 4294967295, 65535, 1684581004),
    (u64::MAX, 65535, 65535, 288308383),
];

#[test]
fn dice_words(rt: HostRuntime) {
    for (i, (seed, number, attempt, word)) in DICE_WORDS.iter().enumerate() {
        check_row(&rt, i, dice_word(*seed, *number, *attempt) == *word);
    }
}

/// These too: of a seed and the index of an event.
const EVENT_WORDS: [(u64, u32, (u32, u32)); 6] = [
    (0, 0, (3082405328, 1919952964)),
    (1, 0, (80718557, 1799576834)),
    (1, 1, (1244347012, 3288499939)),
    (1, 999999, (909955395, 3340775302)),
    (258, 7, (3023077638, 2980326713)),
    (u64::MAX, 8, (1690142431, 490508678)),
];

#[test]
fn words_of_events(rt: HostRuntime) {
    for (i, (seed, index, words)) in EVENT_WORDS.iter().enumerate() {
        check_row(&rt, i, event_words(*seed, *index) == *words);
    }
}

/// The words of a seed's second stream, from that of an event on.
fn schedule_from(seed: u64, index: u32) -> ChaCha20Rng {
    let mut key = [0; 32];
    key[..8].copy_from_slice(&seed.to_be_bytes());
    let mut words = ChaCha20Rng::from_seed(key);
    words.set_stream(2);
    words.set_word_pos(2 * u128::from(index));
    words
}

/// Whether the words of these events are those of one stream, one behind the other.
fn go_on(seed: u64, first: u32, last: u32) -> bool {
    let mut words = schedule_from(seed, first);
    for index in first..=last {
        let next = (words.next_word(), words.next_word());
        if next != event_words(seed, index) {
            return false;
        }
    }
    true
}

/// The first events and the last of some rows of events.
const ROWS_OF_EVENTS: [(u32, u32); 5] = [
    (0, 200),
    (13, 77),
    (0x7fff_ffd0, 0x8000_0030),
    (u32::MAX - 70, u32::MAX),
    (u32::MAX, u32::MAX),
];

#[test]
fn schedule_goes_on_from_event_to_event(rt: HostRuntime) {
    for seed in [0, 258, u64::MAX] {
        for (i, (first, last)) in ROWS_OF_EVENTS.iter().enumerate() {
            check_row(&rt, i, go_on(seed, *first, *last));
        }
    }
}

/// Whether this follows an attempt whose event came to the outcome, where the referee held four
/// entries.
fn follows(
    attempt: u16,
    restarted: bool,
    outcome: &Outcome,
    held: Number,
    expected: (Number, u16),
) -> bool {
    let before = DiceAttempts {
        held: Some(4),
        attempt,
    };
    let after = before.after(restarted, outcome, Some(held));
    after.held == Some(expected.0) && after.attempt == expected.1
}

/// An attempt whose event came to this is followed by that one.
fn check_attempt(rt: &impl Abort, attempt: u16, outcome: &Outcome, after: u16) {
    check_number(
        rt,
        "attempt",
        attempt.into(),
        follows(attempt, false, outcome, 4, (4, after)),
    );
}

#[test]
fn attempts_at_words(rt: HostRuntime) {
    let equal = Outcome::Due(Err(DueFault::EqualOpening));
    check_attempt(&rt, 0, &Outcome::Due(Err(DueFault::WordRefused)), 1);
    check_attempt(&rt, 1, &equal, 2);
    check_attempt(&rt, 2, &Outcome::Took(TakeOutcome::WordRefused), 3);
    // Nothing else goes on.
    check_attempt(&rt, 3, &Outcome::Due(Err(DueFault::NothingDue)), 3);
    check_attempt(&rt, 3, &Outcome::Sent(1), 3);
    // The last attempt is followed by the first.
    check_attempt(&rt, 65535, &equal, 0);
    // A restart, or another entry, begins again.
    check(
        &rt,
        "a restart",
        follows(3, true, &Outcome::Restarted, 4, (4, 0)),
    );
    check(
        &rt,
        "another entry",
        follows(3, false, &Outcome::Due(Ok(5)), 5, (5, 0)),
    );
}

/// The word of an attempt where the referee holds so many entries.
fn word_of(seed: u64, held: Option<Number>, attempt: u16) -> u32 {
    DiceAttempts { held, attempt }.word(seed)
}

/// Whether the words of these attempts behind so many entries are those of the next one.
fn are_of_the_next(seed: u64, entries: Number, number: Number) -> bool {
    for attempt in [0, 1, 2, u16::MAX] {
        if word_of(seed, Some(entries), attempt) != dice_word(seed, number, attempt) {
            return false;
        }
    }
    true
}

/// A referee that is down is handed the word 0.
#[test]
fn words_of_attempts_are_those_of_the_dice(rt: HostRuntime) {
    let rows = [(0, 1), (1, 2), (4, 5), (u32::MAX - 1, u32::MAX)];
    for seed in [0, 7, 258, u64::MAX] {
        for (i, (entries, number)) in rows.iter().enumerate() {
            check_row(&rt, i, are_of_the_next(seed, *entries, *number));
        }
        check_number(
            &rt,
            "a referee that is down, seed",
            seed,
            word_of(seed, None, 0) == 0,
        );
    }
}

/// What is printed of a match whose every event makes its own words.
fn text_of_steps(rt: &(impl AllocGlobal + Abort), seed: u64, steps: u32) -> Vec<u8> {
    let mut simulation = Simulation::new(rt.alloc(), seed, 3, Rules::Two, 1).expect(rt, "memory");
    make_steps(rt, &mut simulation, steps);
    simulation.text().expect(rt, "memory")
}

fn make_steps(rt: &impl Abort, simulation: &mut Simulation, steps: u32) {
    for index in 0..steps {
        check_number(rt, "event", index.into(), simulation.step(index).is_ok());
    }
}

/// Whether single steps of a match come to the same text as the match does.
fn comes_to_the_same(rt: &(impl AllocGlobal + Abort), seed: u64, steps: u32) -> bool {
    let single = text_of_steps(rt, seed, steps);
    text_of(rt.alloc(), seed, 3, Rules::Two, 1, steps) == Ok(single)
}

/// A match by kept words comes to the same as one whose every event makes its own, also where the
/// referee is down, and where attempts are in vain.
#[test]
fn single_steps_come_to_the_same_text(rt: HostRuntime) {
    let rows = [
        (2047, 0),
        (2047, 1),
        (2047, 33),
        (2047, 2000),
        (0, 500),
        (258, 500),
        (u64::MAX, 500),
    ];
    for (i, (seed, steps)) in rows.iter().enumerate() {
        check_row(&rt, i, comes_to_the_same(&rt, *seed, *steps));
    }
}
