//! Automatic matches, written as match files of other programs and read back.
use crate::checks::{check, check_number};
use crate::fronts::is_front;
use bg_auto::auto_action;
use bg_board::Player;
use bg_mat::{export_mat, import_mat};
use bg_match::{Action, Actor, Entry, Level, MOST_ENTRIES, Number, Phase, Record, Rules, entry_of};
use bg_turns::{Dice, dice_of};
use rand_chacha::ChaCha20Rng;
use rand_core::SeedableRng;
use rand_core::utils::NextWord;
use std::alloc::Global;
use std::process::Abort;

/// So many matches are played by each of the rules.
const MATCHES: u8 = 200;

/// The dice of the next word.
fn throw(rt: &impl Abort, words: &mut ChaCha20Rng) -> Dice {
    dice_of(words.next_word()).expect(rt, "dice")
}

/// A level by a random word.
fn level(word: u32) -> Level {
    match word % 3 {
        0 => Level::Normal,
        1 => Level::Gammon,
        _ => Level::Backgammon,
    }
}

/// What the player does who is to act: what an automatic player does, but for an offer to resign
/// now and then, which is accepted every other time.
fn action(rt: &impl Abort, alloc: Global, record: &Record, player: Player, word: u32) -> Action {
    match record.standing().phase() {
        Phase::Resigned(..) if word % 2 == 0 => Action::Accept,
        Phase::Resigned(..) => Action::Reject,
        Phase::ToAct(_) | Phase::ToMove(..) if word % 50 == 0 => Action::Resign(level(word / 50)),
        _ => auto(rt, alloc, record, player),
    }
}

/// What an automatic player does.
fn auto(rt: &impl Abort, alloc: Global, record: &Record, player: Player) -> Action {
    let action = auto_action(alloc, record, player).expect(rt, "memory");
    action.expect(rt, "an action")
}

/// What the referee adds.
fn due(rt: &impl Abort, record: &Record, words: &mut ChaCha20Rng) -> Entry {
    if record.standing().phase() != Phase::Opening {
        return Entry::Passed;
    }
    let dice = throw(rt, words);
    Entry::Opening(dice.first, dice.second)
}

/// What follows; `None` where the match is over.
fn next_entry(
    rt: &impl Abort,
    alloc: Global,
    record: &Record,
    words: &mut ChaCha20Rng,
) -> Option<Entry> {
    match record.actor() {
        Actor::Nobody => None,
        Actor::Referee => Some(due(rt, record, words)),
        Actor::Seat(player) => {
            let word = words.next_word();
            let dice = throw(rt, words);
            entry_of(action(rt, alloc, record, player, word), Some(dice))
        }
    }
}

/// Adds what follows. Whether anything does.
fn goes_on(rt: &impl Abort, alloc: Global, record: &mut Record, words: &mut ChaCha20Rng) -> bool {
    let Some(entry) = next_entry(rt, alloc, record, words) else {
        return false;
    };
    // Equal dice open no game, and nothing changes.
    let _ = record.push(entry);
    true
}

/// A record without an entry.
fn empty(rt: &impl Abort, alloc: Global, length: u8, rules: Rules) -> Record {
    Record::new(alloc, 1, length, rules).expect(rt, "a length")
}

/// A match that is over.
fn played(rt: &impl Abort, alloc: Global, seed: u8, rules: Rules) -> Record {
    let mut words = ChaCha20Rng::from_seed([seed; 32]);
    let mut record = empty(rt, alloc, seed % 7 + 1, rules);
    for _ in 0..MOST_ENTRIES {
        if !goes_on(rt, alloc, &mut record, &mut words) {
            break;
        }
    }
    check(
        rt,
        "the match does not end",
        record.actor() == Actor::Nobody,
    );
    record
}

/// Whether a match file keeps the entry of this number: all but offers to resign that were not
/// accepted, and the answers to these.
fn is_kept(record: &Record, number: Number) -> bool {
    match record.entry(number) {
        Some(Entry::Rejected) => false,
        Some(Entry::Resigned(_)) => {
            record.entry(number.saturating_add(1)) != Some(&Entry::Rejected)
        }
        _ => true,
    }
}

/// Appends a copy of the entry that another record has under this number.
fn push(rt: &impl Abort, record: &mut Record, other: &Record, number: Number) {
    let entry = other.entry(number).expect(rt, "an entry");
    check_number(
        rt,
        "entry",
        number.into(),
        record.push(entry.copy()).is_ok(),
    );
}

/// The entries that a match file keeps.
fn kept(rt: &impl Abort, alloc: Global, record: &Record) -> Record {
    let mut kept = empty(rt, alloc, record.length(), record.rules());
    for number in 1..=record.len() {
        if is_kept(record, number) {
            push(rt, &mut kept, record, number);
        }
    }
    kept
}

fn exported(rt: &impl Abort, alloc: Global, record: &Record) -> Vec<u8> {
    export_mat(alloc, record).expect(rt, "a match file")
}

/// A match comes back from its match file entry by entry, and so does the file.
fn check_match(rt: &impl Abort, alloc: Global, seed: u8, rules: Rules) {
    let record = played(rt, alloc, seed, rules);
    let wanted = kept(rt, alloc, &record);
    let file = exported(rt, alloc, &record);
    check_imported(rt, alloc, &wanted, &file);
}

/// The file is that of these entries, and is written again of what was read.
fn check_imported(rt: &impl Abort, alloc: Global, wanted: &Record, file: &[u8]) {
    let imported = import_mat(alloc, 1, wanted.rules(), file).expect(rt, "a match file");
    check(
        rt,
        "the entries",
        are_all(&imported.record, wanted) && has_lines(&imported.lines, wanted),
    );
    check(
        rt,
        "the same file",
        exported(rt, alloc, &imported.record).as_slice() == file,
    );
}

/// Whether a record has these entries, and no other.
fn are_all(record: &Record, wanted: &Record) -> bool {
    record.len() == wanted.len() && is_front(record, wanted)
}

/// Whether there is a line for each entry.
fn has_lines(lines: &[u32], wanted: &Record) -> bool {
    lines.len() == wanted.len() as usize
}

#[test]
fn matches_come_back_from_match_files(rt: HostRuntime) {
    for seed in 0..MATCHES {
        check_match(&rt, rt.alloc(), seed, Rules::One);
        check_match(&rt, rt.alloc(), seed, Rules::Two);
    }
}
