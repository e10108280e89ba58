//! What is reported of files that were judged and of saved files. What is expected is worked out by
//! hand.
mod checks;
mod folders;
mod growths;
mod refusals;
mod restored;
mod rows;
mod saved_files;
mod shown;
mod transcript_refusals;
mod uses;

use crate::checks::text_of;
use bg_text::Verdict;
use std::alloc::{AllocError, Global};

/// What was said of a file, and the verdict behind it.
fn told(alloc: Global, said: Result<(Vec<u8>, Verdict), AllocError>) -> Result<String, AllocError> {
    let (text, verdict) = said?;
    let text = text_of(&text);
    format!(in alloc; "{text}{verdict:?}")
}
