//! The line of each outcome, and matches of length 1 whose events and outcomes are lines.
use crate::checks::check;
use crate::worlds::lines::has_line;
use crate::worlds::memory_worlds::check_plays;
use arrayvec::ArrayVec;
use bg_match::{EntryFault, NoDouble, Rules};
use bg_party::{ChooseFault, Learned};
use bg_referee::{DueFault, TakeOutcome};
use bg_turns::TurnFault;
use bg_wire::{EntryList, Packet, WireFault};
use bg_world::{Outcome, RestoreCause};
use std::process::Abort;

/// The outcome has this line.
fn check_outcome(rt: &impl Abort, outcome: Outcome, line: &str) {
    check(rt, line, has_line(&outcome, line));
}

fn check_lines_of_due(rt: &(impl AllocGlobal + Abort)) {
    check_outcome(rt, Outcome::Due(Ok(1_000_000)), "entry 1000000");
    for (fault, line) in [
        (DueFault::NothingDue, "due refused: nothing due"),
        (DueFault::WordRefused, "due refused: word refused"),
        (DueFault::EqualOpening, "due refused: equal opening"),
        (DueFault::RecordFull, "due refused: record full"),
        (DueFault::Memory, "out of memory"),
    ] {
        check_outcome(rt, Outcome::Due(Err(fault)), line);
    }
}

#[test]
fn lines_of_due(rt: HostRuntime) {
    check_lines_of_due(&rt);
}

/// What the referee made of a packet has this line.
fn check_took(rt: &impl Abort, took: TakeOutcome, line: &str) {
    check_outcome(rt, Outcome::Took(took), line);
}

fn check_lines_of_the_referee(rt: &(impl AllocGlobal + Abort)) {
    check_took(rt, TakeOutcome::OtherMatch, "other match");
    check_took(rt, TakeOutcome::Nothing, "nothing");
    check_took(rt, TakeOutcome::Ahead, "ahead");
    check_took(rt, TakeOutcome::NotYourTurn, "not your turn");
    check_took(rt, TakeOutcome::WordRefused, "word refused");
    for (fault, line) in [
        (
            EntryFault::Turn(TurnFault::LargerMustBePlayed),
            "illegal: larger die must be played",
        ),
        (
            EntryFault::Turn(TurnFault::StepIllegal(0)),
            "illegal: step 1 illegal",
        ),
        (EntryFault::MatchOver, "illegal: match over"),
    ] {
        check_took(rt, TakeOutcome::Illegal(fault), line);
    }
    check_took(rt, TakeOutcome::Memory, "out of memory");
    check_took(rt, TakeOutcome::Accepted(2), "accepted 2");
}

#[test]
fn lines_of_the_referee(rt: HostRuntime) {
    check_lines_of_the_referee(&rt);
}

#[test]
fn lines_of_answers(rt: HostRuntime) {
    let want = Packet::Want {
        id: 1,
        rules: Rules::One,
        sender: 3,
        held: 0,
    };
    let none = TakeOutcome::Answer(3, want);
    check_outcome(&rt, Outcome::Took(none), "answer to 3: no entries");
    let empty = Packet::Entries {
        id: 1,
        rules: Rules::One,
        start: 2,
        list: EntryList {
            entries: ArrayVec::new(),
        },
    };
    let empty = TakeOutcome::Answer(255, empty);
    check_outcome(&rt, Outcome::Took(empty), "answer to 255: entries 2 to 1");
}

fn check_lines_of_followers(rt: &(impl AllocGlobal + Abort)) {
    for (learned, line) in [
        (Learned::OtherMatch, "other match"),
        (Learned::Nothing, "nothing"),
        (Learned::Conflict(7), "conflict 7"),
        (Learned::Gap, "gap"),
        (Learned::Illegal(1_000_000), "illegal entry 1000000"),
        (Learned::Memory, "out of memory"),
        (Learned::Grew(8), "learned 8"),
    ] {
        check_outcome(rt, Outcome::Learned(learned), line);
    }
    check_outcome(rt, Outcome::Chose(Ok(2)), "claimed 2");
    let crawford = EntryFault::NoDouble(NoDouble::Crawford);
    for (fault, line) in [
        (ChooseFault::NotYourTurn, "claim refused: not your turn"),
        (
            ChooseFault::AlreadyClaimed,
            "claim refused: already claimed",
        ),
        (
            ChooseFault::Illegal(crawford),
            "claim refused: no double: crawford",
        ),
    ] {
        check_outcome(rt, Outcome::Chose(Err(fault)), line);
    }
}

#[test]
fn lines_of_followers(rt: HostRuntime) {
    check_lines_of_followers(&rt);
}

#[test]
fn lines_of_no_packets(rt: HostRuntime) {
    for (fault, line) in [
        (WireFault::Short, "no packet: short"),
        (WireFault::Magic, "no packet: bad magic"),
        (WireFault::Version, "no packet: bad version"),
        (WireFault::Kind, "no packet: bad kind"),
        (WireFault::Field(23), "no packet: bad field at 23"),
        (WireFault::Extra, "no packet: extra bytes"),
    ] {
        check_outcome(&rt, Outcome::NotAPacket(fault), line);
    }
}

fn check_lines_of_devices(rt: &(impl AllocGlobal + Abort)) {
    check_outcome(rt, Outcome::Saved(u32::MAX), "saved 4294967295");
    check_outcome(rt, Outcome::SavesSpent, "saves spent");
    check_outcome(rt, Outcome::Sent(0), "sent 0");
    check_outcome(rt, Outcome::Restarted, "restarted");
    check_outcome(rt, Outcome::NoDatagram, "no datagram");
    check_outcome(rt, Outcome::Down, "down");
    check_outcome(rt, Outcome::NoSuchParty, "no such party");
    check_outcome(rt, Outcome::LinkFault, "link fault");
    check_outcome(rt, Outcome::SaveFault, "save fault");
    for (cause, line) in [
        (RestoreCause::Device, "restore fault: device"),
        (RestoreCause::Damaged, "restore fault: damaged"),
        (RestoreCause::WrongMatch, "restore fault: wrong match"),
    ] {
        check_outcome(rt, Outcome::RestoreFault(cause), line);
    }
    check_outcome(rt, Outcome::Memory, "out of memory");
}

#[test]
fn lines_of_devices(rt: HostRuntime) {
    check_lines_of_devices(&rt);
}

/// What is refused, what is not taken, and between these what is.
const PLAYS: &str = "\
refusals_in_lines
take 0 0 12 -> no datagram
due 4294967291 -> due refused: equal opening
due 4294967292 -> due refused: word refused
choose X roll -> claim refused: not your turn
save 3 -> no such party
take 9 0 0 -> no such party
due 12 -> entry 1
due 12 -> due refused: nothing due
save 0 -> saved 1
tick 1 -> sent 1
take 0 4294967295 0 -> no packet: short
take 0 0 0 -> answer to 1: entries 1 to 1
take 1 0 0 -> learned 1
take 1 0 0 -> nothing
choose X move 8-5 -> claim refused: more can be played
choose X move 8-5 6-5 -> claimed 2
choose X move 24-23 24-21 -> claim refused: already claimed
";

#[test]
fn refusals_in_lines(rt: HostRuntime) {
    check_plays(&rt, PLAYS);
}
