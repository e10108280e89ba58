//! The options and help of the command that checks the dice of a match by their secret.

use crate::arguments::{Argument, Description, Kind, Need};
use crate::shared::MISPLACED_FILE;

/// The help on `dice`, with an example.
pub(crate) const ABOUT_DICE: &str =
    "Check the dice of a match against their secret. The transcript comes from standard input.

    $ printf 'secret %064d\\n' 0 > dice.txt
    $ printf 'length 1\\nopen 4 6\\n' | bg_relay dice --secret dice.txt
    sha256 66687aadf862bd776c8fc18b8e9f8e20089714856ee233b3902a591d0d5f2925
    1 open 4 6: ok, attempt 0
    ok 1

FILE is what a server shows of the dice once the match is over (/matches/NAME/dice), or the file
`secret` of a match that `new` made. The first line is the SHA-256 of the secret. Compare it with
the one that you were told before the first roll: if they are equal, the dice were fixed before
the match began.

Then comes a line for each entry with dice. `ok` means that the secret gives these dice for this
entry. They are those of the first attempt that the rules don't pass over: an attempt may have no
dice, or equal ones when a game opens. If an entry has other dice, its line says which ones the
secret gives. The last line is `ok N`, or how many of the N entries with dice don't come from this
secret. After `recover` the dice come from another secret.

This doesn't show that the dice are fair.

Exit status: 0 for success; 2 if an entry has other dice, or the transcript or the secret is
refused; 1 if reading, writing or memory failed.";

const SECRET: Argument = Argument {
    name: "secret",
    kind: Kind::Text("FILE"),
    need: Need::Required,
    about: "The secret of the dice: 32 bytes, or the lines that a server tells",
};

/// The command with its options and help.
pub(crate) static COMMAND: Description = Description {
    name: "dice",
    about: "Check the dice of a match by their secret",
    after_help: None,
    arguments: &[SECRET, MISPLACED_FILE],
};
