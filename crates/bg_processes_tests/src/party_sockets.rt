//! A party's socket, and what strangers send to it.
use crate::checks::{check, check_number};
use crate::helpers::hosts::{Host, Hosted};
use crate::helpers::lasting::lasting;
use crate::helpers::party_scripts::{Sockets, check_script, lasting_sockets};
use bg_processes::{Attendance, Change, Liveness, LivenessChange, Ticking, Waiting};
use bg_world::Link;
use std::io::ErrorKind;
use std::os::fd::RawFd;
use std::process::Abort;
use std::time::{Duration, Instant};

const TO_THEIR_PARTY: &str = "\
send 1 0 x-wants
take 2 nothing
take 0 x-wants
take 0 nothing
# Not for another party than the socket's.
send 1 0 x-wants
take-as 1 0 nothing
# To a party that is away, and to one that is not the referee.
send 0 9 opening
unsent 1 2 x-wants
take 2 nothing
";

#[test]
fn packets_go_to_their_party(rt: HostRuntime) {
    check_packets(&rt);
}

/// What comes of packets, and of a second socket of a party.
fn check_packets(rt: &impl Host) {
    let sockets = lasting_sockets(rt);
    sockets.play(TO_THEIR_PARTY);
    // A second process of the party, and a party that has no port.
    check_refused(sockets, sockets.port, 1, ErrorKind::AddrInUse);
    check_refused(sockets, 65_500, 200, ErrorKind::AddrNotAvailable);
}

/// There is no socket at this port for this party.
fn check_refused<R: Host>(sockets: &Sockets<'_, R>, port: u16, party: u8, kind: ErrorKind) {
    let is_so = refusal(sockets, port, party) == Some(kind);
    check_number(sockets.rt, "party", party.into(), is_so);
}

/// Why there is no socket at this port for this party.
fn refusal<R: Host>(sockets: &Sockets<'_, R>, port: u16, party: u8) -> Option<ErrorKind> {
    match sockets.bound(port, party, party) {
        Ok(_) => None,
        Err(error) => Some(error.kind()),
    }
}

/// Packets of strangers, well made or not, are passed over, those of parties that send for others,
/// and those that are sealed under another key.
#[test]
fn packets_of_strangers(rt: HostRuntime) {
    check_script(&rt, STRANGERS);
}

const STRANGERS: &str = "\
stray 0 1 x-wants
stray 0 1 rubbish
stray 0 1 300-sevens
send 2 0 x-wants
take 0 nothing
# X's port, with the key of those who watch.
rebind 1 3
send 1 0 x-wants
take 0 nothing
rebind 1 1
# As many as are passed over in one take, and then one of X.
stray 0 64 o-wants
send 1 0 x-wants
take 0 nothing
take 0 x-wants
";

#[test]
fn questions_are_answered(rt: HostRuntime) {
    check_script(&rt, QUESTIONS);
}

const QUESTIONS: &str = "\
stray 0 2 no-bytes
stray 1 2 no-bytes
ask 1
take 0 nothing
heard 0 0
take 1 nothing
heard 1 1
take 2 nothing
heard 2 0
# A seat answers nobody, and hears of the referee by packets too.
send 0 1 x-wants
take 1 nothing
heard 1 1
send 0 1 opening
take 1 opening
heard 1 2
";

/// What the referee is to send is lost before a party was heard, and a minute after; what a party
/// sends never is.
#[test]
fn parties_that_are_not_heard(rt: HostRuntime) {
    check_script(&rt, NOT_HEARD);
}

const NOT_HEARD: &str = "\
clock 0
send 0 1 opening
send 0 2 opening
take 1 nothing
clock 1000
ask 1
take 0 nothing
clock 1000
send 0 1 opening
send 0 2 opening
take 1 opening
clock 60999
send 0 1 opening
send 0 2 opening
take 1 opening
clock 61000
send 0 1 opening
send 0 2 opening
take 1 nothing
clock 1000000
send 0 1 opening
send 0 2 opening
take 1 nothing
send 1 0 x-wants
take 0 x-wants
clock 1059999
send 0 1 opening
send 0 2 opening
take 1 opening
take 2 nothing
";

/// What is said of the referee, who is away from tick 10 to tick 50. Ten of these are a second, but
/// before tick 5 the process stands still for ten.
fn said_at(tick: u32) -> Option<LivenessChange> {
    match tick {
        31 => Some(LivenessChange::Silent),
        50 => Some(LivenessChange::HeardAgain),
        _ => None,
    }
}

#[test]
fn silence_of_the_referee(rt: HostRuntime) {
    check_silence(&rt);
}

/// X is told of the silence, and of its end.
fn check_silence(rt: &impl Host) {
    let sockets = lasting_sockets(rt);
    let liveness = lasting(rt, Liveness::new());
    for tick in 0..100u32 {
        set_time(sockets, tick);
        let is_taken = (10..50).contains(&tick) || sockets.of(0).take(0, 0).is_ok();
        let is_taken = is_taken && sockets.of(1).take(1, 0).is_ok();
        let word = liveness.after_round(sockets.of(1), true);
        let is_so = is_taken && word == said_at(tick);
        check_number(rt, "tick", tick.into(), is_so);
    }
}

/// The time of a tick.
fn set_time<R: Host>(sockets: &Sockets<'_, R>, tick: u32) {
    let stood_still = if tick < 5 { 0 } else { 10_000 };
    let time = u64::from(tick).saturating_mul(100);
    let time = time.saturating_add(stood_still);
    sockets.clock.milliseconds.set(time);
}

/// What is told of X after so many milliseconds, who is heard after 1000, 60,000 and 200,000.
fn told_at(time: u64) -> Option<Change> {
    match time {
        1000 => Some(Change::Came),
        120_000 | 260_000 => Some(Change::Left),
        200_000 => Some(Change::Returned),
        _ => None,
    }
}

#[test]
fn parties_that_come_and_go(rt: HostRuntime) {
    check_attendance(&rt);
}

const TIMES: [u64; 12] = [
    0, 999, 1000, 1001, 60_000, 119_999, 120_000, 180_000, 200_000, 259_999, 260_000, 400_000,
];

/// X comes and goes, and O is never there.
fn check_attendance(rt: &impl Host) {
    let sockets = lasting_sockets(rt);
    let attendance = lasting(rt, Attendance::new());
    for time in TIMES {
        sockets.clock.milliseconds.set(time);
        if matches!(time, 1000 | 60_000 | 200_000) {
            sockets.play("send 1 0 x-wants\ntake 0 x-wants\n");
        }
        let of_x = attendance.change(sockets.of(0), 1);
        check_number(rt, "X after", time, of_x == told_at(time));
        let of_o = attendance.change(sockets.of(0), 2);
        check_number(rt, "O after", time, of_o.is_none());
    }
}

#[test]
fn waiting_for_a_socket(rt: HostRuntime) {
    check_waiting(&rt);
}

/// A wait ends when there is something to be read, or after its time.
fn check_waiting(rt: &impl Host) {
    let sockets = lasting_sockets(rt);
    let waiting = waiting_for(rt, sockets.of(0).descriptor());
    check_time(rt, waiting);
    sockets.play("send 1 0 x-wants");
    // What is not taken is told again.
    check_told_twice(rt, waiting, 0);
    sockets.play("take 0 x-wants");
    check_ready(rt, waiting, 0, 10, false);
    // So is what comes after a read that found nothing.
    sockets.play("take 0 nothing\nsend 1 0 x-wants");
    let empty_reads = sockets.of(0).empty_reads();
    check(rt, empty_reads == 1, "one read that found nothing");
    check_told_twice(rt, waiting, empty_reads);
    sockets.play("take 0 x-wants");
    check_ticks(rt, waiting);
}

/// Two waits in a row are told that there is something to be read.
fn check_told_twice(rt: &impl Abort, waiting: &mut Waiting, empty_reads: u32) {
    for _ in 0..2 {
        check_ready(rt, waiting, empty_reads, 1000, true);
    }
}

/// A wait for a socket, which lasts as long as the process.
fn waiting_for<'a>(rt: &impl Host, socket: RawFd) -> &'a mut Waiting {
    let waiting = Waiting::new(rt.host(), socket, false);
    lasting(rt, waiting.expect(rt, "a socket to wait for"))
}

/// Nothing comes for as long as is waited.
fn check_time(rt: &impl Host, waiting: &mut Waiting) {
    let begun = Instant::now(rt.host()).expect(rt, "a clock");
    check_ready(rt, waiting, 0, 30, false);
    let ended = Instant::now(rt.host()).expect(rt, "a clock");
    let milliseconds = ended.duration_since(begun).as_millis();
    check(rt, milliseconds >= 25, "a wait of 30 ms");
}

/// A first tick is due at once, and the next one after a wait.
fn check_ticks(rt: &impl Host, waiting: &mut Waiting) {
    let mut ticking = Ticking::new(rt.host()).expect(rt, "a clock");
    check(rt, is_due(&mut ticking, rt.host(), true), "a first tick");
    check(
        rt,
        is_due(&mut ticking, rt.host(), false),
        "no second one yet",
    );
    let ready = ticking.wait(rt.host(), waiting, 1).expect(rt, "a wait");
    check(rt, !ready.socket, "nothing to be read");
    check(rt, is_due(&mut ticking, rt.host(), true), "a second tick");
}

/// Whether a tick is due or not, as is expected.
fn is_due(ticking: &mut Ticking, host: &HostRuntime, expected: bool) -> bool {
    ticking.is_due(host).ok() == Some(expected)
}

/// Whether a socket of which so many reads found nothing can be read within so many milliseconds;
/// standard input is not waited for.
fn check_ready(rt: &impl Abort, waiting: &mut Waiting, empty_reads: u32, most: u64, socket: bool) {
    let ready = waiting.wait(Duration::from_millis(most), empty_reads);
    let ready = ready.expect(rt, "a wait");
    let is_so = ready.socket == socket && !ready.input;
    check_number(rt, "milliseconds:", most, is_so);
}
