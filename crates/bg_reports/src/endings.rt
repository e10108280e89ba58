//! The ending of a command, and its exit status.
ghost use Rattle.std.specs.Prelude.{◌≡◌};
ghost use Rattle.bg_reports.specs.Ending.{status_of};

use bg_text::Verdict;

/// The status of a command that succeeded, and refused nothing.
pub const DONE: u8 = 0;

/// The status where reading, writing or memory failed.
pub const FAILED: u8 = 1;

/// The status where the arguments, the transcript, the script, both saved files or one of many
/// files are refused.
pub const REFUSED: u8 = 2;

/// The worst result of many files.
#[derive(Clone, Copy, Debug, PartialEq, Eq)]
pub enum Found {
    /// All are good.
    Good,
    /// One is refused.
    Refused,
    /// One could not be judged.
    Unjudged,
}

/// The ending of a command.
#[derive(Clone, Copy, Debug, PartialEq, Eq)]
pub enum Ending {
    /// Help or the version was asked for, and printed.
    Told,
    /// The arguments are refused. Nothing was done.
    WrongArguments,
    /// A transcript was judged.
    Judged(Verdict),
    /// A script was played, or refused.
    Played(Verdict),
    /// An automatic match was played.
    Simulated,
    /// A match was made, or the process of a party did what it was started for.
    Served,
    /// An action was refused, and nothing was claimed.
    ActionRefused,
    /// Saved files were shown.
    Shown {
        /// Whether one of them loads.
        loads: bool,
    },
    /// Many files were judged.
    Checked(Found),
    /// Reading, writing or memory failed.
    Failed,
}

impl Ending {
    /// Returns the exit status: [`DONE`], [`FAILED`] or [`REFUSED`].
    pub fn status(self) -> u8
        ensures { result ≡ status_of self }
    {
        match self {
            Ending::Told
            | Ending::Simulated
            | Ending::Served
            | Ending::Judged(Verdict::Fine(_))
            | Ending::Played(Verdict::Fine(_))
            | Ending::Checked(Found::Good)
            | Ending::Shown { loads: true } => DONE,
            Ending::Checked(Found::Unjudged) | Ending::Failed => FAILED,
            Ending::WrongArguments
            | Ending::ActionRefused
            | Ending::Judged(Verdict::Refused(_) | Verdict::TooLong)
            | Ending::Played(Verdict::Refused(_) | Verdict::TooLong)
            | Ending::Checked(Found::Refused)
            | Ending::Shown { loads: false } => REFUSED,
        }
    }
}
