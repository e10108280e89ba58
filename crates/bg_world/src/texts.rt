//! The texts of worlds, read and written: the lines of events and of outcomes, the final text, and
//! scripts.

pub(crate) mod event_lines;
pub(crate) mod final_texts;
pub(crate) mod numbers;
pub(crate) mod outcome_texts;
pub(crate) mod scripts;
