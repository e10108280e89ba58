//! The options and help of the command that judges a transcript.

use crate::arguments::Description;
use crate::shared::MISPLACED_FILE;

/// The help on `judge`, with a transcript and what it prints for it.
pub(crate) const ABOUT_JUDGE: &str =
    "Judge the transcript of a match on standard input: bg_relay judge < FILE

The first line of a transcript has the length of the match. Each further line is an entry:

    length 1
    open 3 1
    X move 8-5 6-5

Prints the board after the legal entries. The last line is `ok N`, with the number of entries, or
`refused at line L: REASON`. For the transcript above:

    length 1 game 1 score 0-0 cube 1 middle crawford
      13  14  15  16  17  18  19  20  21  22  23  24
      X5   .   .   .  O3   .  O5   .   .   .   .  X2
      O5   .   .   .  X2   .  X4  X2   .   .   .  O2
      12  11  10   9   8   7   6   5   4   3   2   1
    bar X 0 O 0 off X 0 O 0
    O to roll
    ok 2

If line 1 is refused, no board is printed. An input of more than 41943040 bytes is refused whole:
`refused: input too long`.

Exit status: 0 if the transcript is legal, 2 if it is refused, 1 if reading, writing or memory
failed.";

/// The command with its options and help.
pub(crate) static COMMAND: Description = Description {
    name: "judge",
    about: "Judge the transcript of a match on standard input",
    after_help: None,
    arguments: &[MISPLACED_FILE],
};
