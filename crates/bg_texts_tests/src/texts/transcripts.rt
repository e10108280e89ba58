//! The transcripts of records, which the judge reads.
use super::inputs::{TOO_LONG, followed_by};
use super::pictures::{check_judged, judged};
use super::records::{MATCH, MATCH_7, TEXT_OF_MATCH, full_record, is_match, record};
use crate::checks::{check_row, check_told, check_words, text_of};
use crate::records::{read, written};
use bg_match::{MOST_ENTRIES, Rules};
use bg_text::{MAX_INPUT, Verdict, judge_text, read_transcript};
use std::alloc::{AllocError, Global};
use std::process::Abort;

fn check_transcript_of_a_record(rt: &(impl AllocGlobal + Abort)) {
    let record = record(rt, rt.alloc());
    let transcript = written(rt, rt.alloc(), &record);
    check_told(rt, MATCH, text_of(&transcript), MATCH);
    let told = judged(rt, rt.alloc(), &transcript);
    let verdict = told.strip_prefix(TEXT_OF_MATCH);
    check_row(rt, "judgement", verdict == Some("Fine(2)"));
}

/// A record has the transcript of MATCH, which is judged as it is.
#[test]
fn transcript_of_a_record(rt: HostRuntime) {
    check_transcript_of_a_record(&rt);
}

/// Whether a text is judged so, and its judgement ends so.
pub(crate) fn is_judged(alloc: Global, text: &[u8], verdict: Verdict, last: &[u8]) -> bool {
    match judge_text(alloc, text) {
        Ok(judged) => judged.verdict == verdict && judged.text.ends_with(last),
        Err(_) => false,
    }
}

/// The transcript of a full record.
pub(crate) fn full_text(rt: &impl Abort, alloc: Global, rules: Rules) -> Vec<u8> {
    written(rt, alloc, &full_record(rt, alloc, rules))
}

#[test]
fn transcript_of_a_full_record(rt: HostRuntime) {
    let text = full_text(&rt, rt.alloc(), Rules::One);
    let bytes = 10 + 9 + 499_999 * (20 + 9) + 20;
    check_row(&rt, "number of bytes", text.len() == bytes);
    let last = b"X resigns backgammon\nok 1000000\n";
    let is_judged = is_judged(rt.alloc(), &text, Verdict::Fine(MOST_ENTRIES), last);
    check_row(&rt, "judgement", is_judged);
}

#[test]
fn record_of_a_transcript(rt: HostRuntime) {
    let record = read(&rt, rt.alloc(), 7, MATCH.as_bytes());
    check_row(&rt, MATCH_7, is_match(&rt, rt.alloc(), &record));
}

/// Whether the record of the transcript of a full record is full, and has this transcript again.
fn is_read_back(rt: &impl Abort, alloc: Global, text: &[u8]) -> bool {
    let record = read(rt, alloc, 1, text);
    record.len() == MOST_ENTRIES && written(rt, alloc, &record).as_slice() == text
}

#[test]
fn record_of_a_full_transcript(rt: HostRuntime) {
    let text = full_text(&rt, rt.alloc(), Rules::One);
    let is_read_back = is_read_back(&rt, rt.alloc(), &text);
    check_row(&rt, "transcript of what is read", is_read_back);
}

/// What a text that is read as a transcript is refused for.
fn fault_of(alloc: Global, text: &[u8]) -> Result<String, AllocError> {
    let fault = read_transcript(alloc, 7, text).err();
    format!(in alloc; "{fault:?}")
}

/// A text gives no record for this reason, and the judge comes to this verdict, which stands behind
/// his words.
fn check_refused(rt: &impl Abort, alloc: Global, row: &[&str; 3]) {
    let [text, wanted, verdict] = *row;
    check_words(rt, text, fault_of(alloc, text.as_bytes()), wanted);
    let told = judged(rt, alloc, text.as_bytes());
    let (_, found) = told.rsplit_once('\n').expect(rt, "lines");
    check_told(rt, text, found, verdict);
}

/// Where the judge refuses a line no record is read, and the fault names that line and why.
static REFUSED: [[&str; 3]; 7] = [
    [
        "",
        "Some(Refused { line: 1, why: NotALengthLine })",
        "Refused(1)",
    ],
    [
        "length 100\n",
        "Some(Refused { line: 1, why: LengthOutOfRange })",
        "Refused(1)",
    ],
    [
        "length 1\nopen 3 3\n",
        "Some(Refused { line: 2, why: Entry(EqualOpening) })",
        "Refused(2)",
    ],
    [
        "length 1\nopen 7 1\n",
        "Some(Refused { line: 2, why: Text(BadNumber) })",
        "Refused(2)",
    ],
    [
        "length 1\nopen 3 1\nO move 8-5 6-5\n",
        "Some(Refused { line: 3, why: WrongPlayer })",
        "Refused(3)",
    ],
    [
        "length 1\nopen 3 1\nX move 8-5 6-5\nX roll 1 2\n",
        "Some(Refused { line: 4, why: WrongPlayer })",
        "Refused(4)",
    ],
    ["length 1", "None", "Fine(0)"],
];

#[test]
fn no_record_of_a_refused_transcript(rt: HostRuntime) {
    for row in &REFUSED {
        check_refused(&rt, rt.alloc(), row);
    }
}

#[test]
fn no_record_of_a_long_transcript(rt: HostRuntime) {
    let long = followed_by(&rt, rt.alloc(), "length 1\n", b'\n', MAX_INPUT - 8);
    check_words(&rt, "fault", fault_of(rt.alloc(), &long), "Some(TooLong)");
    check_judged(&rt, rt.alloc(), "judgement", &long, TOO_LONG);
}
