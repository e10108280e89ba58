//! The options and help of the command that rebuilds a referee's folder from what others hold.

use crate::arguments::{Argument, Description, Kind, Need};
use crate::requests::Request;
use crate::shared::FOLDER;
use clap::ArgMatches;

/// The help on `recover`, with an example.
pub(crate) const ABOUT_RECOVER: &str =
    "Make a lost referee's folder again from what the seats and others hold.

    $ bg_relay recover --match keys/match-x --keys keys --x x --o o --dir new-table board/transcript
    bg_relay: new-table begins with the 57 entries of board/transcript
    the keys are kept: X, O and the watchers continue with the key files that they have
    $ bg_relay referee --dir new-table

Stop all processes of the match first. Every party holds the first entries of what the referee
had, so `recover` takes the longest record of both seats' folders and the transcripts that you
name: what watchers keep, or what `auto` and `watch` printed. Name all that exist. If one that you
leave out holds more, its party can't continue. From here on the dice come from a new secret.

The folder of --keys has copies of `match-x`, `match-o` and `match-watch`, as the players and
watchers have them: these keys are kept. Without --keys, all keys are new: hand out the new key
files, as `new` says.

If two records differ, or a key file is of another match or party, nothing is made.

Exit status: 0 for success; 2 if a file or folder is invalid, the records differ, or DIR has a
match already; 1 if another process uses a folder, or reading, writing or memory failed.";

/// The sources of the folder, and its place.
#[derive(Clone, Copy)]
pub struct RecoverOptions<'m, 'a> {
    /// The path of the match file.
    pub match_path: &'a str,
    /// The folder of the key files that are kept.
    pub keys: Option<&'a str>,
    /// The folder to make.
    pub folder: &'a str,
    /// The folder of the seat of X.
    pub x: &'a str,
    /// The folder of the seat of O.
    pub o: &'a str,
    /// The paths of transcripts.
    pub transcripts: &'m [&'a str],
}

/// Returns the request that these options make, if none that it needs is missing.
pub(crate) fn request<'m, 'a>(options: &'m ArgMatches<'a>) -> Option<Request<'m, 'a>> {
    Some(Request::Recover(RecoverOptions {
        match_path: options.get_str("match")?,
        keys: options.get_str("keys"),
        folder: options.get_str("dir")?,
        x: options.get_str("x")?,
        o: options.get_str("o")?,
        transcripts: options.get_strs("TRANSCRIPT").unwrap_or_default(),
    }))
}

const MATCH: Argument = Argument {
    name: "match",
    kind: Kind::Text("FILE"),
    need: Need::Required,
    about: "Any key file of the match, or its match file",
};

const KEYS: Argument = Argument {
    name: "keys",
    kind: Kind::Text("DIR"),
    need: Need::Optional,
    about: "A folder with the key files whose keys to keep; without it all keys are new",
};

const X: Argument = Argument {
    name: "x",
    kind: Kind::Text("DIR"),
    need: Need::Required,
    about: "The folder of X's seat",
};

const O: Argument = Argument {
    name: "o",
    kind: Kind::Text("DIR"),
    need: Need::Required,
    about: "The folder of O's seat",
};

const TRANSCRIPTS: Argument = Argument {
    name: "TRANSCRIPT",
    kind: Kind::Words,
    need: Need::Optional,
    about: "Transcripts of the match; - is standard input",
};

/// The command with its options and help.
pub(crate) static COMMAND: Description = Description {
    name: "recover",
    about: "Make a lost referee's folder again from what others hold",
    after_help: None,
    arguments: &[MATCH, KEYS, X, O, FOLDER, TRANSCRIPTS],
};
