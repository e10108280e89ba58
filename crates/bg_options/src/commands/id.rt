//! The options and help of the command that names the standing of a match for other programs.

use crate::arguments::Description;
use crate::shared::MISPLACED_FILE;

/// The help on `id`, with an example.
pub(crate) const ABOUT_ID: &str =
    "Print the IDs that other programs use for the last position of the transcript on standard input.

    $ printf 'length 7\\nopen 3 1\\n' | bg_relay id
    Position ID: 4HPwATDgc/ABMA
    Match ID: cInlAAAAAAAE
    XGID=-b----E-C---eE---c-e----B-:0:0:1:31:0:0:0:7:7

GNU Backgammon takes the first two, and eXtreme Gammon the third. In all three, X is the player at
the bottom of GNU Backgammon's board. Where GNU Backgammon reads a match file itself, it has the
file's left column, which is X here, at the top: its Match ID then has X and O exchanged. The end of
a match, an opening roll and an offer to resign have no XGID: the last line then says why. A refused
transcript is reported on standard error as by `check`, and nothing is printed.

Exit status: 0 for success, 2 if the transcript is refused, 1 if reading, writing or memory
failed.";

/// The command with its options and help.
pub(crate) static COMMAND: Description = Description {
    name: "id",
    about: "Print the IDs that other programs use for a position",
    after_help: None,
    arguments: &[MISPLACED_FILE],
};
