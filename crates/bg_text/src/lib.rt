//! The texts of a match: the lines of its entries, its board, and the judge of a whole transcript.
//! For programs that read or print matches.
//!
//! ```
//! let (player, entry) = parse_entry(b"X roll 3 1")?;
//! assert!(rt; entry_text(player, &entry).as_str() == "X roll 3 1");
//! let judged = judge_text(alloc, b"length 1\nopen 3 1\nX move 8-5 6-5\n")?;
//! assert!(rt; judged.verdict == Verdict::Fine(2));
//! assert!(rt; judged.text.ends_with(b"O to roll\nok 2\n"));
//! ```
#![tactic(auto)]

mod board_texts;
mod entries;
mod faults;
mod inputs;
mod judging;
mod printing;
mod terms_texts;
mod transcripts;

pub use board_texts::{board_text, put_phase};
pub use entries::lines::{parse_action, parse_entry, split_player};
pub use entries::names::{letter, level_word};
pub use entries::words::thirds;
pub use entries::writing::{entry_text, entry_texts_differ};
pub use faults::{LineFault, TextFault, TranscriptFault};
pub use inputs::{MAX_INPUT, split_line};
pub use judging::judgements::{Judgement, too_long};
pub use judging::reading::read_transcript;
pub use judging::reasons::reason_text;
pub use judging::verdicts::Verdict;
pub use judging::{
    judge, judge_text, judgements_agree, transcript_faults_are_judged, transcripts_are_fine,
};
pub use printing::{put_number, put_text};
pub use terms_texts::put_terms;
pub use transcripts::transcript_text;
