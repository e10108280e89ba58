//! Refused growths. Want of memory is answered and harms nothing: asked again, the answer is the
//! same. No run of the tests refuses any, but `tools/checks/refuse_growths` refuses each growth in
//! turn.
use super::folders::slots;
use super::saved_files::{AFTER_THE_MOVE, AFTER_THE_OPENING, OPENING, REFEREE, SEAT};
use crate::checks::check_last;
use bg_mat::{ImportFault, import_mat};
use bg_match::Rules;
use bg_reports::{
    SlotBytes, check_text, folder_text, party_text, restored_transcript, said_of_import_fault,
    said_of_transcript_fault, show_text,
};
use bg_text::{TranscriptFault, Verdict, read_transcript};
use std::alloc::{AllocError, Global};
use std::process::Abort;

const LINES: &str = "file 0: party 1 match 1 length 1 save 1 entries 1 claim 2
file 1: party 0 match 1 length 1 save 2 entries 2
";

/// Whether these lines and the board are shown of two files, also where memory is refused once.
fn are_shown(alloc: Global) -> bool {
    let shown = match show_text(alloc, &SEAT, &REFEREE) {
        Err(AllocError) => show_text(alloc, &SEAT, &REFEREE),
        shown => shown,
    };
    match shown {
        Ok((text, loads)) => {
            loads && text.starts_with(LINES.as_bytes()) && text.ends_with(AFTER_THE_MOVE.as_bytes())
        }
        Err(AllocError) => false,
    }
}

#[test]
fn refused_growths_of_shown_files(rt: HostRuntime) {
    let holds = are_shown(rt.alloc()) && are_shown(rt.alloc());
    check_last(&rt, rt.alloc(), LINES, holds);
}

const MORE_CAN_BE_PLAYED: &[u8] = b"length 1\nopen 3 1\nX move 8-5\n";

const SAID_OF_IT: &[u8] = b"a: refused at line 3: more can be played: X move 8-5\n";

/// Whether there is memory for what is said, which is this.
fn is_said(said: &Result<(Vec<u8>, Verdict), AllocError>, wanted: &[u8], verdict: Verdict) -> bool {
    match said {
        Ok(said) => said.0.as_slice() == wanted && said.1 == verdict,
        Err(AllocError) => false,
    }
}

/// Whether this is said of a file that is checked, also where memory is refused once.
fn is_checked(alloc: Global) -> bool {
    let said = match check_text(alloc, "a", MORE_CAN_BE_PLAYED, Some(80)) {
        Err(AllocError) => check_text(alloc, "a", MORE_CAN_BE_PLAYED, Some(80)),
        said => said,
    };
    is_said(&said, SAID_OF_IT, Verdict::Refused(3))
}

#[test]
fn refused_growths_of_checks(rt: HostRuntime) {
    let holds = is_checked(rt.alloc()) && is_checked(rt.alloc());
    check_last(&rt, rt.alloc(), "said, and again", holds);
}

const GAME_2: &[u8] = b" 1 point match\n Game 2\n";

/// Why a match file is refused, also where memory is refused once.
fn import_fault(alloc: Global) -> Option<ImportFault> {
    match import_mat(alloc, 1, Rules::One, GAME_2) {
        Err(ImportFault::Memory) => import_mat(alloc, 1, Rules::One, GAME_2).err(),
        result => result.err(),
    }
}

/// Whether a match file whose first game is game 2 is refused so, also where memory is refused
/// once.
fn is_import_refused(alloc: Global) -> bool {
    let Some(fault) = import_fault(alloc) else {
        return false;
    };
    let said = match said_of_import_fault(alloc, "a", GAME_2, fault, Some(80)) {
        Err(AllocError) => said_of_import_fault(alloc, "a", GAME_2, fault, Some(80)),
        said => said,
    };
    let wanted = b"a: refused at line 2: not the next game:  Game 2\n";
    is_said(&said, wanted, Verdict::Refused(2))
}

#[test]
fn refused_growths_of_refusals(rt: HostRuntime) {
    let holds = is_import_refused(rt.alloc()) && is_import_refused(rt.alloc());
    check_last(&rt, rt.alloc(), "said, and again", holds);
}

/// Why a transcript is refused, also where memory is refused once.
fn transcript_fault(alloc: Global) -> Option<TranscriptFault> {
    match read_transcript(alloc, 1, MORE_CAN_BE_PLAYED) {
        Err(TranscriptFault::Memory) => read_transcript(alloc, 1, MORE_CAN_BE_PLAYED).err(),
        result => result.err(),
    }
}

/// Whether a transcript is refused so, also where memory is refused once.
fn is_transcript_refused(alloc: Global) -> bool {
    let Some(fault) = transcript_fault(alloc) else {
        return false;
    };
    let said = match said_of_transcript_fault(alloc, "a", MORE_CAN_BE_PLAYED, fault, Some(80)) {
        Err(AllocError) => {
            said_of_transcript_fault(alloc, "a", MORE_CAN_BE_PLAYED, fault, Some(80))
        }
        said => said,
    };
    is_said(&said, SAID_OF_IT, Verdict::Refused(3))
}

#[test]
fn refused_growths_of_refused_transcripts(rt: HostRuntime) {
    let holds = is_transcript_refused(rt.alloc()) && is_transcript_refused(rt.alloc());
    check_last(&rt, rt.alloc(), "said, and again", holds);
}

/// The files of a party, also where memory is refused once.
fn slots_at_last(rt: &impl Abort, alloc: Global, zero: &[u8], one: &[u8]) -> SlotBytes {
    match slots(alloc, zero, one) {
        Ok(files) => files,
        Err(AllocError) => slots(alloc, zero, one).expect(rt, "memory"),
    }
}

/// What is shown of a folder, also where memory is refused once.
fn folder(
    alloc: Global,
    referee: &SlotBytes,
    x: &SlotBytes,
    o: &SlotBytes,
) -> Result<(Vec<u8>, bool), AllocError> {
    match folder_text(alloc, referee, x, o) {
        Err(AllocError) => folder_text(alloc, referee, x, o),
        shown => shown,
    }
}

/// Whether a file loads, and the board after the opening is shown last.
fn is_opened(shown: &Result<(Vec<u8>, bool), AllocError>) -> bool {
    match shown {
        Ok(shown) => shown.1 && shown.0.ends_with(AFTER_THE_OPENING.as_bytes()),
        Err(AllocError) => false,
    }
}

/// Whether the board is shown of a folder, and again.
fn is_folder_shown(rt: &impl Abort, alloc: Global) -> bool {
    let referee = slots_at_last(rt, alloc, &REFEREE, &OPENING);
    let x = slots_at_last(rt, alloc, b"", &SEAT);
    let o = slots_at_last(rt, alloc, b"", b"");
    is_opened(&folder(alloc, &referee, &x, &o)) && is_opened(&folder(alloc, &referee, &x, &o))
}

#[test]
fn refused_growths_of_folders(rt: HostRuntime) {
    let holds = is_folder_shown(&rt, rt.alloc());
    check_last(&rt, rt.alloc(), "shown, and again", holds);
}

/// What is shown of the referee's files, also where memory is refused once.
fn party(alloc: Global, referee: &SlotBytes) -> Result<(Vec<u8>, bool), AllocError> {
    match party_text(alloc, 0, referee) {
        Err(AllocError) => party_text(alloc, 0, referee),
        shown => shown,
    }
}

/// Whether the board is shown of the referee's files, and again.
fn is_party_shown(rt: &impl Abort, alloc: Global) -> bool {
    let referee = slots_at_last(rt, alloc, &REFEREE, &OPENING);
    is_opened(&party(alloc, &referee)) && is_opened(&party(alloc, &referee))
}

#[test]
fn refused_growths_of_a_party(rt: HostRuntime) {
    let holds = is_party_shown(&rt, rt.alloc());
    check_last(&rt, rt.alloc(), "shown, and again", holds);
}

/// Whether two files restore this transcript, also where memory is refused once.
fn is_restored(alloc: Global) -> bool {
    let restored = match restored_transcript(alloc, &REFEREE, &OPENING) {
        Err(AllocError) => restored_transcript(alloc, &REFEREE, &OPENING),
        restored => restored,
    };
    match restored {
        Ok(Some(transcript)) => transcript.as_slice() == b"length 1\nopen 3 1\n".as_slice(),
        _ => false,
    }
}

#[test]
fn refused_growths_of_restored_transcripts(rt: HostRuntime) {
    let holds = is_restored(rt.alloc()) && is_restored(rt.alloc());
    check_last(&rt, rt.alloc(), "restored, and again", holds);
}
