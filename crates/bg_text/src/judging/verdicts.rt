//! The verdict on a transcript.

/// The judge's finding.
#[derive(Clone, Copy, Debug, PartialEq, Eq)]
pub enum Verdict {
    /// All lines are good: the number of entries, or of events of a script.
    Fine(u32),
    /// The first line that is refused, counted from 1.
    Refused(u32),
    /// The input is longer than the limit.
    TooLong,
}
