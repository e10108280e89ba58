//! What the operator of a match over sockets and files is told.
use crate::checks::{check, check_said};
use crate::folders::{lasting_folder, path_in};
use crate::kept_output::KeptOutput;
use crate::lasting::lasting;
use crate::loops::play;
use bg_auto::Observer;
use bg_command_parts::Operator;
use bg_console::Progress;
use bg_match::{EntryFault, Number};
use bg_party::Learned;
use bg_processes::{Failures, FileKeeper, read_saved};
use bg_referee::TakeOutcome;
use bg_wire::Slot;
use bg_world::{DeviceFault, Event, Keeper, Outcome, RestoreCause};
use std::fs;
use std::process::Abort;

/// What is said where the parties can't go on together, and behind the sign of that what to do.
const AGES: &str = "bg_relay: the folders of the parties are from different points in time: ";

const TOGETHER: &str =
    "; end all processes, and put back copies that were made together, or `recover`\n";

/// Whether this sign is all that was said of files of different ages.
fn is_sign(said: &str, sign: &str) -> bool {
    match said.strip_prefix(AGES) {
        Some(rest) => rest.strip_suffix(TOGETHER) == Some(sign),
        None => false,
    }
}

/// The operator of a match, and what is said.
#[derive(Drop)]
struct Told<'a> {
    heard: &'a KeptOutput<'a>,
    failures: &'a Failures,
    operator: &'a mut Operator<'a, KeptOutput<'a>>,
}

/// An operator of a match over this folder, who is told of no round. He lasts as long as the
/// process, and so does what he is told by.
fn operator_over<'a>(
    rt: &(impl AllocGlobal + Abort),
    host: &'a HostRuntime,
    folder: &'a str,
) -> Told<'a> {
    let heard: &'a KeptOutput<'a> = lasting(rt, KeptOutput::new(host));
    let failures: &'a Failures = lasting(rt, Failures::new());
    let progress = Progress::start(heard, false);
    let operator = lasting(rt, Operator::new(heard, failures, folder, progress, 10));
    Told {
        heard,
        failures,
        operator,
    }
}

fn take(party: u8) -> Event {
    Event::Take {
        party,
        pick: 0,
        word: 0,
    }
}

/// What is said when a party that holds three entries takes a datagram, which comes to this, twice.
fn said_of_take<'a>(
    rt: &(impl AllocGlobal + Abort),
    host: &'a HostRuntime,
    party: u8,
    outcome: &Outcome,
) -> &'a str {
    let told = operator_over(rt, host, "");
    for _ in 0..2 {
        told.operator.happened(&take(party), outcome, Some(3));
    }
    told.operator.end();
    told.heard.said()
}

#[test]
fn signs_of_files_of_different_ages(rt: HostRuntime) {
    check_signs(&rt, &rt);
}

/// Each outcome has its sign.
fn check_signs(rt: &(impl AllocGlobal + Abort), host: &HostRuntime) {
    let illegal = Outcome::Took(TakeOutcome::Illegal(EntryFault::WrongPhase));
    for (party, outcome, sign) in [
        (
            0,
            Outcome::Took(TakeOutcome::Ahead),
            "another party has entries that the referee lacks",
        ),
        (
            0,
            Outcome::Took(TakeOutcome::NotYourTurn),
            "at party 0: not your turn",
        ),
        (0, illegal, "at party 0: illegal: wrong phase"),
        (
            2,
            Outcome::Learned(Learned::Conflict(3)),
            "at party 2: conflict 3",
        ),
        (
            3,
            Outcome::Learned(Learned::Illegal(4)),
            "at party 3: illegal entry 4",
        ),
    ] {
        let said = said_of_take(rt, host, party, &outcome);
        check_said(rt, is_sign(said, sign), sign, said);
    }
}

#[test]
fn outcomes_of_which_nothing_is_said(rt: HostRuntime) {
    check_nothing_said(&rt, &rt);
}

/// None of these outcomes is a sign.
fn check_nothing_said(rt: &(impl AllocGlobal + Abort), host: &HostRuntime) {
    for outcome in [
        Outcome::Took(TakeOutcome::Nothing),
        Outcome::Took(TakeOutcome::WordRefused),
        Outcome::Took(TakeOutcome::Accepted(4)),
        Outcome::Learned(Learned::Nothing),
        Outcome::Learned(Learned::Gap),
        Outcome::Learned(Learned::Grew(1)),
        Outcome::NoDatagram,
        Outcome::LinkFault,
    ] {
        let said = said_of_take(rt, host, 0, &outcome);
        check(rt, said.is_empty(), said);
    }
}

/// A party begins again.
fn restart<O: Observer>(operator: &mut O, party: u8, held: Number) {
    operator.happened(&Event::Restart { party }, &Outcome::Restarted, Some(held));
}

/// The referee begins with so many entries, and the seats with so many.
fn start<O: Observer>(operator: &mut O, (referee, x, o): (Number, Number, Number)) {
    restart(operator, 0, referee);
    restart(operator, 1, x);
    restart(operator, 2, o);
}

/// What is said at such a start.
fn said_at_start<'a>(
    rt: &(impl AllocGlobal + Abort),
    host: &'a HostRuntime,
    held: (Number, Number, Number),
) -> &'a str {
    let told = operator_over(rt, host, "");
    start(told.operator, held);
    told.heard.said()
}

#[test]
fn seats_that_begin_with_more(rt: HostRuntime) {
    check_seats(&rt, &rt);
}

/// A seat that has more entries than the referee is a sign.
fn check_seats(rt: &(impl AllocGlobal + Abort), host: &HostRuntime) {
    for (held, sign) in [
        ((4, 5, 6), "party 1 has 5 entries saved, the referee 4"),
        ((1, 0, 2), "party 2 has 2 entries saved, the referee 1"),
    ] {
        let said = said_at_start(rt, host, held);
        check_said(rt, is_sign(said, sign), sign, said);
    }
    let said = said_at_start(rt, host, (4, 4, 0));
    check(rt, said.is_empty(), said);
}

/// A save of a party has succeeded.
fn succeed<O: Observer>(operator: &mut O, party: u8) {
    operator.happened(&Event::Save { party }, &Outcome::Saved(1), Some(0));
}

/// A save of a party has failed.
fn fail<O: Observer>(operator: &mut O, party: u8) {
    operator.happened(&Event::Save { party }, &Outcome::SaveFault, None);
}

/// Party 0 saves in the end, party 1 does not, and party 2 saved before, and can't be read any more.
fn save_and_fail<O: Observer>(operator: &mut O) {
    succeed(operator, 2);
    for party in 0..3 {
        fail(operator, party);
        restart(operator, party, 0);
    }
    succeed(operator, 0);
    let unread = Outcome::RestoreFault(RestoreCause::Device);
    operator.happened(&Event::Restart { party: 2 }, &unread, None);
}

#[test]
fn saves_that_never_succeeded(rt: HostRuntime) {
    check_saves(&rt, &rt);
}

const UNSAVED: &str = "bg_relay: no save of party 1 succeeded\n";

/// They are said in the end, and none is where there was no save.
fn check_saves(rt: &(impl AllocGlobal + Abort), host: &HostRuntime) {
    let told = operator_over(rt, host, "");
    told.operator.end();
    save_and_fail(told.operator);
    let said = told.heard.said();
    check(rt, said.is_empty(), said);
    told.operator.end();
    let said = told.heard.said();
    check_said(rt, said == UNSAVED, UNSAVED, said);
}

/// A write fails, and the save with it.
fn fails_to_save<K: Keeper, O: Observer>(keeper: &mut K, operator: &mut O) -> bool {
    let result = keeper.write(Slot::One, b"text");
    fail(operator, 1);
    result == Err(DeviceFault::Failed)
}

/// Whether a folder is said to be missing, and nothing else.
fn is_missing(said: &str, folder: &str) -> bool {
    match said.strip_prefix("bg_relay: ") {
        Some(rest) => {
            rest.strip_prefix(folder)
                == Some(" can't be found: No such file or directory (os error 2)\n")
        }
        None => false,
    }
}

/// A device's reason comes before what that came to, and once while the device stays out of order.
#[test]
fn failures_of_devices(rt: HostRuntime) {
    check_failures(&rt, &rt);
}

/// What is said of files in a folder that is removed.
fn check_failures(rt: &(impl AllocGlobal + Abort), host: &HostRuntime) {
    let folder = lasting_folder(rt, host, "removed");
    fs::remove_dir(host, folder).expect(rt, "an empty folder");
    let told = operator_over(rt, host, folder);
    let keeper = FileKeeper::new(host, folder, 1, told.failures);
    let keeper = lasting(rt, keeper.expect(rt, "the files of X"));
    let fails = fails_to_save(keeper, told.operator) && fails_to_save(keeper, told.operator);
    check(rt, fails, "both saves fail");
    let said = told.heard.said();
    check_said(rt, is_missing(said, folder), folder, said);
    let written = keeper.write(Slot::Zero, b"text");
    check(
        rt,
        written == Err(DeviceFault::Failed),
        "a further write fails",
    );
    told.operator.end();
    let said = told.heard.said();
    check_said(rt, said == UNSAVED, UNSAVED, said);
}

/// What is said while so many rounds are played over the folder.
fn said_while_played<'a>(
    rt: &(impl AllocGlobal + Abort),
    host: &'a HostRuntime,
    folder: &'a str,
    rounds: u32,
) -> &'a str {
    let told = operator_over(rt, host, folder);
    let played = play(rt, host, folder, rounds, told.failures, told.operator);
    played.expect(rt, "so many rounds");
    told.operator.end();
    told.heard.said()
}

/// The bytes of a file.
fn bytes_of<'a>(rt: &impl Abort, host: &HostRuntime, path: &str) -> &'a [u8] {
    read_saved(host, path).expect(rt, "a file is read").leak()
}

/// A file has these bytes from now on.
fn write(rt: &impl Abort, host: &HostRuntime, path: &str, bytes: &[u8]) {
    fs::write(host, path, bytes).expect(rt, "a file is written");
}

#[test]
fn the_referee_of_an_older_day(rt: HostRuntime) {
    check_older_referee(&rt, &rt);
}

/// What is said where the referee's files are older than the others.
fn check_older_referee(rt: &(impl AllocGlobal + Abort), host: &HostRuntime) {
    let folder = lasting_folder(rt, host, "ages");
    let (zero, one) = (
        path_in(rt, folder, "party-0.0"),
        path_in(rt, folder, "party-0.1"),
    );
    let said = said_while_played(rt, host, folder, 10);
    check(rt, said.is_empty(), said);
    let older = (bytes_of(rt, host, zero), bytes_of(rt, host, one));
    let said = said_while_played(rt, host, folder, 60);
    check(rt, said.is_empty(), said);
    write(rt, host, zero, older.0);
    write(rt, host, one, older.1);
    let said = said_while_played(rt, host, folder, 60);
    let sign = said.strip_prefix(AGES).unwrap_or_default();
    let is_so = sign.starts_with("party 1 has ") && said.lines().count() == 1;
    check_said(rt, is_so, "party 1 has ..", said);
    fs::remove_dir_all(host, folder).expect(rt, "the folder is removed");
}
