//! The files of the examples: what can't be synced doesn't count, and a file that has vanished is
//! no empty slot.
use crate::across::hosts::{Host, lasting, new_folder, remove_folder};
use crate::across::stand_ins::StandIn;
use crate::checks::check;
use bg_examples::lone::referee::LoneReferee;
use bg_examples::slot_files::SlotFiles;
use bg_match::{Number, Rules, Terms};
use bg_wire::Slot;
use rand_chacha::ChaCha20Rng;
use rand_core::SeedableRng;
use std::fs;
use std::io::ErrorKind;
use std::process::Abort;

type Files<'a> = SlotFiles<'a, StandIn<'a>>;

fn open<'a>(rt: &impl Abort, system: &'a StandIn<'a>, folder: &str) -> Files<'a> {
    SlotFiles::open(system, folder, 1).expect(rt, "the files of a party")
}

/// A slot has these bytes.
fn check_has(rt: &impl Abort, files: &mut Files<'_>, slot: Slot, bytes: &[u8]) {
    let found = files.read(slot).expect(rt, "a slot");
    check(rt, "the bytes of a slot", found.as_slice() == bytes);
}

fn write(rt: &impl Abort, files: &mut Files<'_>, slot: Slot, bytes: &[u8]) {
    files.write(slot, bytes).expect(rt, "a write");
}

/// Why a slot can't be read.
fn refusal(files: &mut Files<'_>, slot: Slot) -> Option<ErrorKind> {
    match files.read(slot) {
        Ok(_) => None,
        Err(error) => Some(error.kind()),
    }
}

/// What is written while the folder can't be synced is taken back, and what was saved before is
/// not. Nothing is read meanwhile.
#[test]
fn slots_that_cant_be_synced(rt: HostRuntime) {
    let folder = new_folder(&rt, "unsynced-slots");
    let system = StandIn::new(&rt);
    check_taken_back(&rt, &system, &mut open(&rt, &system, folder), folder);
    remove_folder(&rt, folder);
}

fn check_taken_back(
    rt: &impl Abort,
    system: &StandIn<'_>,
    files: &mut Files<'_>,
    folder: &'static str,
) {
    write(rt, files, Slot::Zero, b"saved");
    system.barred.set(folder);
    check(
        rt,
        "a write that is not synced",
        files.write(Slot::One, b"not saved").is_err(),
    );
    let refused = Some(ErrorKind::PermissionDenied);
    check(
        rt,
        "slot 0 while it can't be synced",
        refusal(files, Slot::Zero) == refused,
    );
    check(
        rt,
        "slot 1 while it can't be synced",
        refusal(files, Slot::One) == refused,
    );
    system.barred.set("");
    check_has(rt, files, Slot::Zero, b"saved");
    check_has(rt, files, Slot::One, b"");
}

/// A slot whose file has vanished can't be read, and one that never had a file is empty.
#[test]
fn slots_that_vanish(rt: HostRuntime) {
    let folder = new_folder(&rt, "vanished-slots");
    let system = StandIn::new(&rt);
    check_vanished(&rt, &mut open(&rt, &system, folder), path_in(&rt, folder));
    remove_folder(&rt, folder);
}

/// The path of slot 1 of party 1.
fn path_in(rt: &impl Host, folder: &str) -> &'static str {
    let path = format!(in rt.alloc(); "{folder}/party-1.1");
    lasting(rt, path.expect(rt, "memory for a path"))
}

fn check_vanished(rt: &impl Host, files: &mut Files<'_>, path: &str) {
    check_has(rt, files, Slot::One, b"");
    write(rt, files, Slot::One, b"text");
    check_has(rt, files, Slot::One, b"text");
    fs::remove_file(rt.host(), path).expect(rt, "the file is removed");
    check(
        rt,
        "a file that has vanished",
        refusal(files, Slot::One) == Some(ErrorKind::NotFound),
    );
    check_has(rt, files, Slot::Zero, b"");
}

const TERMS: Terms = Terms {
    length: 1,
    rules: Rules::One,
};

type Referee<'a> = LoneReferee<'a, StandIn<'a>>;

fn begin<'a>(rt: &impl Abort, system: &'a StandIn<'a>, folder: &str, seed: u8) -> Referee<'a> {
    let words = ChaCha20Rng::from_seed([seed; 32]);
    LoneReferee::begin(system, folder, 1, TERMS, words).expect(rt, "a referee")
}

/// So many entries are held.
fn check_holds(rt: &impl Abort, referee: &Referee<'_>, count: Number) {
    let record = referee.held().expect(rt, "the referee is up");
    check(rt, "entries", record.len() == count);
}

/// A referee that can't sync its first save ends and has told nothing, and the next one begins with
/// nothing.
#[test]
fn saves_that_cant_be_synced(rt: HostRuntime) {
    let folder = new_folder(&rt, "unsynced-save");
    let system = StandIn::new(&rt);
    check_unsynced(&rt, &system, &mut begin(&rt, &system, folder, 1), folder);
    check_holds(&rt, &begin(&rt, &system, folder, 2), 0);
    remove_folder(&rt, folder);
}

/// More turns than it takes to open a game.
const TURNS: u32 = 100;

fn check_unsynced(
    rt: &impl Abort,
    system: &StandIn<'_>,
    referee: &mut Referee<'_>,
    folder: &'static str,
) {
    system.barred.set(folder);
    let ends = (0..TURNS).any(|_| referee.turn().is_err());
    check(
        rt,
        "the referee ends and tells nothing",
        ends && referee.link.outgoing().is_empty(),
    );
    system.barred.set("");
}
