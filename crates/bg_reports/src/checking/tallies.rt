//! The results of many files.
ghost use Rattle.std.specs.Prelude.{◌≡◌};
ghost use Rattle.bg_reports.specs.Ending.{files_in, worst_of};

use crate::endings::Found;
use std::fmt;
use std::fmt::{Display, Formatter, Write};

/// The numbers of files that are good, that are refused, and that could not be judged. `Display`
/// writes them in words.
#[derive(Clone, Copy, Default)]
pub struct Tally {
    /// Number of good files.
    pub good: u64,
    /// Number of refused files.
    pub refused: u64,
    /// Number of files that could not be judged.
    pub unjudged: u64,
}

impl Tally {
    /// Returns the number of files, at most 18446744073709551615.
    pub fn files(self) -> u64
        ensures { result ≡ files_in self.good self.refused self.unjudged }
    {
        self.good
            .saturating_add(self.refused)
            .saturating_add(self.unjudged)
    }

    /// Returns the worst result. A file that could not be judged is worse than one that is refused.
    pub fn worst(self) -> Found
        ensures { result ≡ worst_of self.refused self.unjudged }
    {
        if self.unjudged > 0 {
            Found::Unjudged
        } else if self.refused > 0 {
            Found::Refused
        } else {
            Found::Good
        }
    }
}

impl Display for Tally {
    fn fmt<W: Write>(&self, f: &mut Formatter<W>) -> fmt::Result {
        let Tally {
            good,
            refused,
            unjudged,
        } = *self;
        write!(f, "{good} ok, {refused} refused")?;
        if unjudged > 0 {
            write!(f, ", {unjudged} not judged")?;
        }
        Ok(())
    }
}
