//! Scripts: good ones, refused ones, and worlds that are refused.
use crate::checks::{check, check_no_growth_is_left};
use bg_match::Rules;
use bg_streams::{EngineFault, Reading, Writing};
use bg_text::{MAX_INPUT, Verdict};
use bg_world::{ScriptFault, Setup, WorldFault, script};
use std::alloc::Global;
use std::process::Abort;
use std::test::Fail;

/// A turn, which a watcher learns of.
const A_TURN: &str = "due 12
save 0
tick 1
take 0 0 0
take 1 0 0
tick 3
take 0 1 0
take 3 0 0
choose X move 8-5 6-5
save 1
tick 1
take 0 2 0
save 0
tick 3
take 0 3 0
take 3 1 0";

const TEXT_OF_THE_TURN: &str = "entry 1
saved 1
sent 1
answer to 1: entries 1 to 1
learned 1
sent 1
answer to 3: entries 1 to 1
learned 1
claimed 2
saved 1
sent 1
accepted 2
saved 2
sent 1
answer to 3: entries 2 to 2
learned 1
party 0: 2 entries
party 1: 1 entries
party 2: 0 entries
party 3: 2 entries
length 1 game 1 score 0-0 cube 1 middle crawford
  13  14  15  16  17  18  19  20  21  22  23  24
  X5   .   .   .  O3   .  O5   .   .   .   .  X2
  O5   .   .   .  X2   .  X4  X2   .   .   .  O2
  12  11  10   9   8   7   6   5   4   3   2   1
bar X 0 O 0 off X 0 O 0
O to roll
";

const TEXT_OF_REFUSALS: &str = "no datagram
due refused: equal opening
claim refused: not your turn
no such party
";

const AT_THE_START: &str = "party 0: 0 entries
party 1: 0 entries
party 2: 0 entries
length 1 game 1 score 0-0 cube 1 middle crawford
  13  14  15  16  17  18  19  20  21  22  23  24
  X5   .   .   .  O3   .  O5   .   .   .   .  X2
  O5   .   .   .  X3   .  X5   .   .   .   .  O2
  12  11  10   9   8   7   6   5   4   3   2   1
bar X 0 O 0 off X 0 O 0
opening
";

/// What the script answers, and what it writes behind these bytes.
fn play(
    alloc: Global,
    input: &[u8],
    length: u8,
    watchers: u8,
    written: &mut Vec<u8>,
) -> Result<Verdict, ScriptFault> {
    let setup = Setup {
        id: 1,
        length,
        rules: Rules::One,
        watchers,
    };
    let mut reader = input;
    script(
        alloc,
        &mut Reading::new(&mut reader),
        &mut Writing::new(written),
        setup,
    )
}

/// Whether the bytes are these texts, one behind the other.
fn is_made_of(written: &[u8], texts: [&str; 2]) -> bool {
    let [first, second] = texts;
    written.len() == first.len().saturating_add(second.len())
        && written.starts_with(first.as_bytes())
        && written.ends_with(second.as_bytes())
}

/// A script of a match of length 1 has this verdict, and writes these texts, one behind the other.
fn check_script(
    rt: &(impl AllocGlobal + Abort),
    input: &[u8],
    watchers: u8,
    verdict: Verdict,
    texts: [&str; 2],
) {
    let mut written = Vec::new(rt.alloc());
    let answer = play(rt.alloc(), input, 1, watchers, &mut written);
    assert!(rt;
        answer == Ok(verdict) && is_made_of(&written, texts),
        "{}",
        texts[0]
    );
}

/// What happens in no order, and is refused.
const REFUSED: &str = "take 0 0 12\ndue 4294967291\nchoose X roll\nsave 3\n";

/// A script of so many events is good.
fn check_good(
    rt: &(impl AllocGlobal + Abort),
    input: &str,
    watchers: u8,
    events: u32,
    texts: [&str; 2],
) {
    check_script(rt, input.as_bytes(), watchers, Verdict::Fine(events), texts);
}

fn check_good_scripts(rt: &(impl AllocGlobal + Abort)) {
    check_good(rt, A_TURN, 1, 16, [TEXT_OF_THE_TURN, ""]);
    check_good(rt, REFUSED, 0, 4, [TEXT_OF_REFUSALS, AT_THE_START]);
    check_good(rt, "", 0, 0, ["", AT_THE_START]);
}

#[test]
fn good_scripts(rt: HostRuntime) {
    check_good_scripts(&rt);
}

/// A script is refused at a line.
fn check_refused(rt: &(impl AllocGlobal + Abort), input: &[u8], line: u32, text: &str) {
    check_script(rt, input, 0, Verdict::Refused(line), [text, ""]);
}

fn check_refused_scripts(rt: &(impl AllocGlobal + Abort)) {
    let at_1 = "refused at line 1: not an event\n";
    let at_2 = "refused at line 2: not an event\n";
    check_refused(rt, b"due 12\ndue x\nsave 0", 2, at_2);
    check_refused(rt, b"\ndue 12", 1, at_1);
    check_refused(rt, b"due 12\n\n", 2, at_2);
    check_refused(rt, b"due 12\r\n", 1, at_1);
    check_refused(rt, b"due 1\0", 1, at_1);
    check_refused(rt, b"due 12345678901", 1, at_1);
    let text = "refused at line 2: bad number\n";
    check_refused(rt, b"due 12\ntick 256\n", 2, text);
    let text = "refused at line 1: too many steps\n";
    check_refused(rt, b"choose X move 8-7 6-5 4-3 3-2 2-1", 1, text);
}

#[test]
fn refused_scripts(rt: HostRuntime) {
    check_refused_scripts(&rt);
}

fn check_longest_scripts(rt: &(impl AllocGlobal + Abort)) {
    let mut longer = Vec::new(rt.alloc());
    assert!(rt; longer.resize(MAX_INPUT + 1, b'\n').is_ok());
    let text = ["refused: input too long\n", ""];
    check_script(rt, &longer, 0, Verdict::TooLong, text);
    let text = "refused at line 1: not an event\n";
    check_refused(rt, &longer[1..], 1, text);
}

#[test]
fn longest_scripts(rt: HostRuntime) {
    check_longest_scripts(&rt);
}

/// A script of such a world is refused, and nothing is written.
fn check_no_world(rt: &(impl AllocGlobal + Abort), length: u8, watchers: u8, fault: WorldFault) {
    let mut written = Vec::new(rt.alloc());
    let answer = play(rt.alloc(), b"due x", length, watchers, &mut written);
    let refused = answer == Err(ScriptFault::World(fault));
    assert!(rt;
        refused && written.is_empty(),
        "length {length}, watchers {watchers}"
    );
}

#[test]
fn refused_worlds(rt: HostRuntime) {
    check_no_world(&rt, 1, 254, WorldFault::TooManyWatchers);
    check_no_world(&rt, 0, 254, WorldFault::TooManyWatchers);
    check_no_world(&rt, 0, 0, WorldFault::LengthOutOfRange);
    check_no_world(&rt, 100, 253, WorldFault::LengthOutOfRange);
}

/// Whether these words stand in the text.
fn has(text: &[u8], words: &[u8]) -> bool {
    for start in 0..text.len() {
        if text[start..].starts_with(words) {
            return true;
        }
    }
    false
}

/// A script that lacked memory has written nothing; or one of its events lacked it, and the outcome
/// says so (a save that could not be kept is a fault).
fn check_lacking(rt: &impl Abort, answer: Result<Verdict, ScriptFault>, written: &[u8]) {
    match answer {
        Ok(verdict) => {
            let lacks = has(written, b"out of memory") || has(written, b"save fault");
            check(
                rt,
                "an outcome says that memory lacked",
                verdict == Verdict::Fine(16) && lacks,
            );
        }
        Err(fault) => {
            let is_memory = matches!(
                fault,
                ScriptFault::World(WorldFault::Memory) | ScriptFault::Engine(EngineFault::Memory)
            );
            check(rt, "want of memory", is_memory && written.is_empty());
        }
    }
}

fn check_refused_growths_of_scripts(rt: &(impl AllocGlobal + Abort)) -> Result<(), Fail> {
    let input = A_TURN.as_bytes();
    let mut written = match Vec::with_capacity(rt.alloc(), 1000) {
        Ok(written) => written,
        Err(_) => Vec::with_capacity(rt.alloc(), 1000).expect(rt, "memory"),
    };
    let answer = play(rt.alloc(), input, 1, 1, &mut written);
    if written.as_slice() != TEXT_OF_THE_TURN.as_bytes() {
        check_lacking(rt, answer, &written);
        written.clear();
        let again = play(rt.alloc(), input, 1, 1, &mut written);
        check(rt, "the second time", again == Ok(Verdict::Fine(16)));
        check(
            rt,
            "the text of the turn",
            written.as_slice() == TEXT_OF_THE_TURN.as_bytes(),
        );
    }
    check_no_growth_is_left(rt.alloc())
}

/// A script without a final line end. Where memory is refused the same script then comes to its
/// text. No run of the tests refuses any, but `tools/checks/refuse_growths` refuses each growth in
/// turn.
#[test]
fn refused_growths_of_scripts(rt: HostRuntime) -> Result<(), Fail> {
    check_refused_growths_of_scripts(&rt)
}
