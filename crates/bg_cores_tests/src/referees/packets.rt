//! Packets of parties as bytes, what the referee makes of them, and the first entries.
use arrayvec::ArrayVec;
use bg_board::{Die, Step};
use bg_match::{Entry, Number, Rules};
use bg_referee::{Referee, TakeOutcome};
use bg_turns::{Dice, Turn};
use bg_wire::{Packet, decode};

/// A word with the dice 3 1.
pub(crate) const THREE_ONE: u32 = 12;

/// A word with the dice 2 3.
pub(crate) const TWO_THREE: u32 = 8;

/// The greatest word with dice, which are 6 6.
pub(crate) const SIX_SIX: u32 = 4_294_967_291;

/// The least word without dice.
pub(crate) const NO_DICE: u32 = 4_294_967_292;

/// The seat of X.
pub(crate) const X: u8 = 1;

/// The seat of O.
pub(crate) const O: u8 = 2;

/// The first watcher.
pub(crate) const WATCHER: u8 = 3;

/// Actions as bytes: to roll, to take a double, to play 8-5 6-5, to play 8-5 alone, to offer a
/// normal game or a gammon, to reject an offer.
pub(crate) const ROLL: [u8; 1] = [2];

pub(crate) const TAKE: [u8; 1] = [4];

pub(crate) const MOVE: [u8; 6] = [6, 2, 8, 5, 6, 5];

pub(crate) const HALF_A_MOVE: [u8; 4] = [6, 1, 8, 5];

pub(crate) const OFFER: [u8; 2] = [7, 1];

pub(crate) const OFFER_A_GAMMON: [u8; 2] = [7, 2];

pub(crate) const REJECT: [u8; 1] = [9];

/// What the referee makes of the packet by these rules, of this kind and in match `id`, with these
/// bytes; `None` where they are no packet.
pub(crate) fn taken_by_rules(
    referee: &mut Referee,
    rules: u8,
    kind: u8,
    id: u8,
    head: &[u8],
    tail: &[u8],
    word: u32,
) -> Option<TakeOutcome> {
    let mut bytes: ArrayVec<u8, 128> = ArrayVec::new();
    for part in [
        &[0x42, 0x47, 2, kind, 0, 0, 0, 0, 0, 0, 0, id, rules],
        head,
        tail,
    ] {
        bytes.try_extend_from_slice(part).ok()?;
    }
    let packet = decode(bytes.as_slice()).ok()?;
    Some(referee.take(&packet, word))
}

/// What a party is answered that claims an action under a number, in a match by the first rules.
pub(crate) fn claimed(
    referee: &mut Referee,
    party: u8,
    number: u8,
    action: &[u8],
    word: u32,
) -> Option<TakeOutcome> {
    taken_by_rules(referee, 1, 2, 1, &[party, 0, 0, 0, number], action, word)
}

/// Whether this comes of a claim.
pub(crate) fn claim_gives(
    referee: &mut Referee,
    party: u8,
    number: u8,
    action: &[u8],
    word: u32,
    outcome: TakeOutcome,
) -> bool {
    claimed(referee, party, number, action, word) == Some(outcome)
}

/// The entries of match 1 that a packet tells from this number on; `None` where it does not tell
/// that.
pub(crate) fn entries_of(packet: &Packet, number: Number) -> Option<&[Entry]> {
    match packet {
        Packet::Entries {
            id: 1,
            rules: Rules::One,
            start,
            list,
        } if *start == number => Some(list.entries.as_slice()),
        _ => None,
    }
}

/// The entries of match 1 that a party is told from this number on; `None` where it is not told
/// that.
fn told_to(answer: &TakeOutcome, party: u8, number: Number) -> Option<&[Entry]> {
    match answer {
        TakeOutcome::Answer(to, packet) if *to == party => entries_of(packet, number),
        _ => None,
    }
}

/// Whether a party is told these entries of match 1, from a number on.
fn tells(answer: &TakeOutcome, party: u8, start: Number, entries: &[Entry]) -> bool {
    match told_to(answer, party, start) {
        Some(told) => told == entries,
        None => false,
    }
}

/// Whether a party is told the opening, and no more.
pub(crate) fn tells_the_opening(answer: &TakeOutcome, party: u8) -> bool {
    tells(answer, party, 1, &[opening()])
}

/// Whether a party is told the roll, and no more.
pub(crate) fn tells_the_roll(answer: &TakeOutcome, party: u8) -> bool {
    tells(answer, party, 3, &[rolled()])
}

/// Whether a party is told the move and the roll.
pub(crate) fn tells_the_move_and_the_roll(answer: &TakeOutcome, party: u8) -> bool {
    tells(answer, party, 2, &[moved(), rolled()])
}

/// Whether the referee holds these entries, from a number on.
fn holds(referee: &Referee, start: Number, entries: &[Entry]) -> bool {
    let mut number = start;
    for entry in entries {
        if referee.held().entry(number) != Some(entry) {
            return false;
        }
        number = number.wrapping_add(1);
    }
    true
}

/// Whether party 255 is told this many entries that the referee holds, behind the first so many.
pub(crate) fn tells_next(referee: &Referee, answer: &TakeOutcome, held: u8, count: usize) -> bool {
    let start = Number::from(held) + 1;
    match told_to(answer, 255, start) {
        Some(told) => told.len() == count && holds(referee, start, told),
        None => false,
    }
}

pub(crate) fn opening() -> Entry {
    Entry::Opening(Die::Three, Die::One)
}

pub(crate) fn rolled() -> Entry {
    Entry::Rolled(Dice {
        first: Die::Three,
        second: Die::One,
    })
}

pub(crate) fn moved() -> Entry {
    let mut turn = Turn::new();
    turn.push(Step::new(8, 5).unwrap());
    turn.push(Step::new(6, 5).unwrap());
    Entry::Moved(turn)
}
