//! The options and help of the command that makes the key files of a match.

use crate::arguments::Description;
use crate::shared::{FOLDER, THREE_TERMINALS};

/// The help on `keys`.
pub(crate) const ABOUT_KEYS: &str = "Make the key files of a match.

Writes `match-x`, `match-o` and `match-watch` into DIR, the referee's folder, as `new` does. If
they were lost, it makes the same ones again, since all keys are derived from `key-secret`.

If `recover` kept the keys, DIR has no `key-secret`: the key files there are the only copy of the
keys. A folder that an older program made has neither. Then `keys` draws a `key-secret`, and the
match continues with keys; stop all processes of such a match first.

Exit status: 0 for success; 2 if DIR is not a folder, is that of a match of `serve`, has no match,
or has some key files and no `key-secret`; 1 if another process uses DIR, or reading, writing or
memory failed.";

/// The command with its options and help.
pub(crate) static COMMAND: Description = Description {
    name: "keys",
    about: "Make the key files of a match",
    after_help: Some(THREE_TERMINALS),
    arguments: &[FOLDER],
};
