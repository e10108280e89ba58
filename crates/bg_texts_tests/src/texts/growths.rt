//! Refused growths.
use super::devices::verdict_on;
use super::records::{MATCH, MATCH_7, TEXT_OF_MATCH, is_match, record};
use crate::checks::check_last;
use crate::records::{read, written};
use bg_match::Standing;
use bg_streams::EngineFault;
use bg_text::{Verdict, board_text, judge_text, put_phase};
use std::alloc::{AllocError, Global};
use std::process::Abort;

/// Whether the board of a standing is drawn, also where memory is refused once.
fn is_drawn(alloc: Global, standing: &Standing) -> bool {
    let expected = TEXT_OF_MATCH.as_bytes().strip_suffix(b"ok 2\n");
    let board = match board_text(alloc, standing) {
        Err(_) => board_text(alloc, standing),
        board => board,
    };
    match board {
        Ok(board) => Some(board.as_slice()) == expected,
        Err(_) => false,
    }
}

/// Where memory is refused the same call then succeeds. No run of the tests refuses any, but
/// `tools/checks/refuse_growths` refuses each growth in turn.
#[test]
fn refused_growths_of_boards(rt: HostRuntime) {
    let standing = record(&rt, rt.alloc()).standing();
    check_last(&rt, rt.alloc(), "board", is_drawn(rt.alloc(), &standing));
}

/// Whether the words for what is next are put, also where memory is refused once.
fn is_told(text: &mut Vec<u8>, standing: &Standing) -> bool {
    if put_phase(text, standing).is_err() {
        text.clear();
        if put_phase(text, standing).is_err() {
            return false;
        }
    }
    text.as_slice() == b"O to roll".as_slice()
}

/// The same, of the words for what is next.
#[test]
fn refused_growths_of_phases(rt: HostRuntime) {
    let standing = record(&rt, rt.alloc()).standing();
    let is_told = is_told(&mut Vec::new(rt.alloc()), &standing);
    check_last(&rt, rt.alloc(), "phase", is_told);
}

/// The same, of a transcript.
#[test]
fn refused_growths_of_transcripts(rt: HostRuntime) {
    let record = record(&rt, rt.alloc());
    let is_written = written(&rt, rt.alloc(), &record).as_slice() == MATCH.as_bytes();
    check_last(&rt, rt.alloc(), "transcript", is_written);
}

/// The same, of a record that is read.
#[test]
fn refused_growths_of_records_that_are_read(rt: HostRuntime) {
    let record = read(&rt, rt.alloc(), 7, MATCH.as_bytes());
    let is_match = is_match(&rt, rt.alloc(), &record);
    check_last(&rt, rt.alloc(), MATCH_7, is_match);
}

/// Whether MATCH is judged, also where memory is refused once.
fn is_judged(alloc: Global) -> bool {
    let judged = match judge_text(alloc, MATCH.as_bytes()) {
        Err(_) => judge_text(alloc, MATCH.as_bytes()),
        judged => judged,
    };
    match judged {
        Ok(judged) => {
            judged.verdict == Verdict::Fine(2) && judged.text.as_slice() == TEXT_OF_MATCH.as_bytes()
        }
        Err(_) => false,
    }
}

/// The same, of a judgement.
#[test]
fn refused_growths_of_judgements(rt: HostRuntime) {
    check_last(&rt, rt.alloc(), "judgement", is_judged(rt.alloc()));
}

/// Room for a text, also where memory is refused once.
fn room(rt: &impl Abort, alloc: Global) -> Vec<u8> {
    match Vec::with_capacity(alloc, 1000) {
        Err(AllocError) => Vec::with_capacity(alloc, 1000),
        room => room,
    }
    .expect(rt, "memory")
}

/// The verdict on MATCH, also where memory is refused once: then nothing is written.
fn verdict_again(alloc: Global, written: &mut Vec<u8>) -> Result<Verdict, EngineFault> {
    match verdict_on(alloc, &mut MATCH.as_bytes(), written) {
        Err(EngineFault::Memory) if written.is_empty() => {
            verdict_on(alloc, &mut MATCH.as_bytes(), written)
        }
        verdict => verdict,
    }
}

fn is_judged_between_devices(alloc: Global, written: &mut Vec<u8>) -> bool {
    verdict_again(alloc, written) == Ok(Verdict::Fine(2))
        && written.as_slice() == TEXT_OF_MATCH.as_bytes()
}

/// The same, of the judge between devices, who then has written nothing.
#[test]
fn refused_growths_between_devices(rt: HostRuntime) {
    let mut written = room(&rt, rt.alloc());
    let is_judged = is_judged_between_devices(rt.alloc(), &mut written);
    check_last(&rt, rt.alloc(), "judgement", is_judged);
}
