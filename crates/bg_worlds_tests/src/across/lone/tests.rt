//! Parties that run each in a process of its own, as docs/USING.md shows them.
use crate::across::hosts::{Host, lasting, new_folder, remove_folder};
use crate::across::lone::table::{MATCH, Table};
use crate::checks::check;
use bg_examples::lone::referee::{LoneReferee, ProcessFault};
use bg_match::{Number, Rules, Terms};
use bg_wire::{FIRST_WATCHER, Packet, encode};
use bg_world::{Outcome, RestoreCause};
use rand_chacha::ChaCha20Rng;
use rand_core::SeedableRng;
use std::fs;
use std::process::Abort;

const TERMS: Terms = Terms {
    length: 1,
    rules: Rules::One,
};

/// More turns than it takes to open a game.
const TURNS: u32 = 100;

/// A match of one point, whose processes end at random and begin again, is the same for all in the
/// end.
fn check_match(rt: &impl Host, name: &str, rules: Rules) {
    let folder = new_folder(rt, name);
    play_match(rt, folder, rules);
    remove_folder(rt, folder);
}

fn play_match(rt: &impl Host, folder: &str, rules: Rules) {
    let mut table = Table::new(rt, folder, rules);
    table.play();
    table.check_end();
}

#[test]
fn processes_begin_again(rt: HostRuntime) {
    check_match(&rt, "lone-parties", Rules::One);
}

#[test]
fn processes_begin_again_by_the_second_rules(rt: HostRuntime) {
    check_match(&rt, "lone-second-rules", Rules::Two);
}

/// A referee's process of a match, by dice of its own, or why there is none.
fn try_begin<'a>(
    host: &'a HostRuntime,
    folder: &str,
    id: u64,
    seed: u8,
) -> Result<LoneReferee<'a, HostRuntime>, ProcessFault> {
    let words = ChaCha20Rng::from_seed([seed; 32]);
    LoneReferee::begin(host, folder, id, TERMS, words)
}

fn begin<'a>(rt: &'a impl Host, folder: &str, seed: u8) -> LoneReferee<'a, HostRuntime> {
    try_begin(rt.host(), folder, MATCH, seed).expect(rt, "a referee")
}

/// Why there is no referee's process.
fn refusal(host: &HostRuntime, folder: &str, id: u64, seed: u8) -> Option<ProcessFault> {
    try_begin(host, folder, id, seed).err()
}

/// So many entries are held.
fn check_holds(rt: &impl Abort, referee: &LoneReferee<'_, HostRuntime>, count: Number) {
    let record = referee.held().expect(rt, "the referee is up");
    check(rt, "entries", record.len() == count);
}

fn turn(rt: &impl Abort, referee: &mut LoneReferee<'_, HostRuntime>) {
    referee.turn().expect(rt, "a turn");
}

/// So many turns.
fn take_turns(rt: &impl Abort, referee: &mut LoneReferee<'_, HostRuntime>) {
    for _ in 0..TURNS {
        turn(rt, referee);
    }
}

/// A second process of a party is refused, and so is a folder of another match.
#[test]
fn processes_are_refused(rt: HostRuntime) {
    let folder = new_folder(&rt, "lone-refusals");
    check_second(&rt, folder);
    check_other(&rt, folder);
    check_holds(&rt, &begin(&rt, folder, 4), 1);
    remove_folder(&rt, folder);
}

fn check_second(rt: &impl Host, folder: &str) {
    let mut referee = begin(rt, folder, 1);
    take_turns(rt, &mut referee);
    check_holds(rt, &referee, 1);
    check(
        rt,
        "the files are in use",
        is_in_use(refusal(rt.host(), folder, MATCH, 2)),
    );
}

fn is_in_use(refusal: Option<ProcessFault>) -> bool {
    matches!(refusal, Some(ProcessFault::System(_)))
}

fn check_other(rt: &impl Host, folder: &str) {
    let other = refusal(rt.host(), folder, MATCH + 1, 3);
    let is_wrong = matches!(
        other,
        Some(ProcessFault::Stopped(Outcome::RestoreFault(RestoreCause::WrongMatch)))
    );
    check(rt, "another match", is_wrong);
}

/// The first watcher wants all entries.
const WANT: Packet = Packet::Want {
    id: MATCH,
    rules: Rules::One,
    sender: FIRST_WATCHER,
    held: 0,
};

/// A turn of the referee after the watcher has asked.
fn asked_turn(rt: &impl Abort, referee: &mut LoneReferee<'_, HostRuntime>) {
    referee.link.receive(encode(&WANT).as_slice());
    turn(rt, referee);
}

/// So many turns after the watcher has asked.
fn take_asked_turns(rt: &impl Abort, referee: &mut LoneReferee<'_, HostRuntime>) {
    for _ in 0..TURNS {
        asked_turn(rt, referee);
    }
}

/// A turn after the watcher has asked, in which nothing is saved or told.
fn check_idle_turn(rt: &impl Abort, referee: &mut LoneReferee<'_, HostRuntime>) {
    asked_turn(rt, referee);
    check_holds(rt, referee, 0);
    check(rt, "nothing is told", referee.link.outgoing().is_empty());
}

fn rename(rt: &impl Host, from: &str, to: &str) {
    fs::rename(rt.host(), from, to).expect(rt, "another name");
}

/// The folder is away for a while.
fn check_away(
    rt: &impl Host,
    referee: &mut LoneReferee<'_, HostRuntime>,
    folder: &str,
    away: &str,
) {
    rename(rt, folder, away);
    for _ in 0..TURNS {
        check_idle_turn(rt, referee);
    }
    rename(rt, away, folder);
    take_asked_turns(rt, referee);
    check_holds(rt, referee, 1);
    check(rt, "something is told", !referee.link.outgoing().is_empty());
}

fn path_away(rt: &(impl AllocGlobal + Abort), folder: &str) -> &'static str {
    let path = format!(in rt.alloc(); "{folder}-away");
    lasting(rt, path.expect(rt, "memory for a path"))
}

/// Where the first save can't be written, the referee goes on with nothing; and it tells nothing
/// until one is.
#[test]
fn a_save_fails(rt: HostRuntime) {
    let folder = new_folder(&rt, "lone-save");
    check_failed_save(&rt, folder);
    remove_folder(&rt, folder);
}

fn check_failed_save(rt: &impl Host, folder: &str) {
    let away = path_away(rt, folder);
    check_away(rt, &mut begin(rt, folder, 1), folder, away);
}
