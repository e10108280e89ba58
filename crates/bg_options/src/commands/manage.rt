//! The options and help of the command by which an operator changes the matches of a server.

use crate::arguments::{Argument, Description, Kind, Need};
use crate::requests::Request;
use crate::shared::player_in;
use bg_board::Player;
use clap::ArgMatches;

/// The help on `manage`.
pub(crate) const ABOUT_MANAGE: &str =
    "Hide, delete, copy or restore the matches of a server, or give a seat a new link.

    bg_relay manage --dir tables --match 7f3a90c1d2e4 --hide
    bg_relay manage --dir tables --match 7f3a90c1d2e4 --new-link X
    bg_relay manage --dir tables --backup copies/monday
    bg_relay manage --dir tables --restore copies/monday

DIR is the folder of `serve`. A running server takes each change in within about a second;
otherwise the next one does. Give one thing to do:

--hide leaves a match out of the lists, the search and the archives. It goes on, and its links
still work. --show lists it again. --delete deletes it with all its files. --forget-names removes
the names of both players. --new-link prints a new link for a seat. The old link stops working,
and pages that were opened by it are disconnected.

--backup copies all matches into a new folder, even while they are played. --restore copies those
back that are no longer in DIR, or only the match of --match. A restored match continues from its
copy: what was played later is lost, and its next dice are the same.

Exit status: 0 for success; 2 if there is no such match, it has no links, or it is there already;
1 if reading, writing or memory failed.";

/// What an operator wants.
#[derive(Clone, Copy)]
pub enum Management<'a> {
    Hide,
    Show,
    Delete,
    ForgetNames,
    NewLink(Player),
    Backup(&'a str),
    Restore(&'a str),
}

/// What is to be done, and with which match.
#[derive(Clone, Copy)]
pub struct ManageOptions<'a> {
    /// The folder of the matches.
    pub folder: &'a str,
    /// The name of a match.
    pub name: Option<&'a str>,
    /// None where nothing, or more than one thing, is wanted.
    pub wanted: Option<Management<'a>>,
}

/// Returns the request that these options make, if none that it needs is missing.
pub(crate) fn request<'m, 'a>(options: &'m ArgMatches<'a>) -> Option<Request<'m, 'a>> {
    Some(Request::Manage(ManageOptions {
        folder: options.get_str("dir")?,
        name: options.get_str("match"),
        wanted: wanted_in(options),
    }))
}

/// Returns the one thing that is wanted.
fn wanted_in<'a>(options: &ArgMatches<'a>) -> Option<Management<'a>> {
    let found = [
        flag(options, "hide", Management::Hide),
        flag(options, "show", Management::Show),
        flag(options, "delete", Management::Delete),
        flag(options, "forget-names", Management::ForgetNames),
        new_link_in(options),
        backup_in(options),
        restore_in(options),
    ];
    let mut wanted = None;
    for one in found {
        match (wanted, one) {
            (_, None) => {}
            (None, one) => wanted = one,
            (Some(_), Some(_)) => return None,
        }
    }
    wanted
}

/// Returns what a flag asks for, if it is given.
fn flag<'a>(options: &ArgMatches<'a>, name: &str, asked: Management<'a>) -> Option<Management<'a>> {
    options.get_flag(name).then_some(asked)
}

/// Returns which seat is to have a new link, if one is.
fn new_link_in<'a>(options: &ArgMatches<'a>) -> Option<Management<'a>> {
    Some(Management::NewLink(player_in(options, "new-link")?))
}

/// Returns where all matches are to be copied, if they are.
fn backup_in<'a>(options: &ArgMatches<'a>) -> Option<Management<'a>> {
    Some(Management::Backup(options.get_str("backup")?))
}

/// Returns from where matches are to be copied back, if they are.
fn restore_in<'a>(options: &ArgMatches<'a>) -> Option<Management<'a>> {
    Some(Management::Restore(options.get_str("restore")?))
}

const FOLDER: Argument = Argument {
    name: "dir",
    kind: Kind::Text("DIR"),
    need: Need::Required,
    about: "The folder of all matches, as for `serve`",
};

const MATCH: Argument = Argument {
    name: "match",
    kind: Kind::Text("NAME"),
    need: Need::Optional,
    about: "The match: the last part of its address",
};

const HIDE: Argument = Argument {
    name: "hide",
    kind: Kind::Flag,
    need: Need::Optional,
    about: "Leave the match out of the lists, the search and the archives",
};

const SHOW: Argument = Argument {
    name: "show",
    kind: Kind::Flag,
    need: Need::Optional,
    about: "List it again",
};

const DELETE: Argument = Argument {
    name: "delete",
    kind: Kind::Flag,
    need: Need::Optional,
    about: "Delete the match and all its files",
};

const FORGET_NAMES: Argument = Argument {
    name: "forget-names",
    kind: Kind::Flag,
    need: Need::Optional,
    about: "Remove the names of its players",
};

const NEW_LINK: Argument = Argument {
    name: "new-link",
    kind: Kind::OneOf("P", &["X", "O", "x", "o"]),
    need: Need::Optional,
    about: "Give the seat of X or O a new link, and end the old one",
};

const BACKUP: Argument = Argument {
    name: "backup",
    kind: Kind::Text("FOLDER"),
    need: Need::Optional,
    about: "Copy all matches into this new folder",
};

const RESTORE: Argument = Argument {
    name: "restore",
    kind: Kind::Text("FOLDER"),
    need: Need::Optional,
    about: "Copy back from this folder the matches that are no longer in DIR",
};

/// The command with its options and help.
pub(crate) static COMMAND: Description = Description {
    name: "manage",
    about: "Hide, delete, copy or restore the matches of a server",
    after_help: None,
    arguments: &[
        FOLDER,
        MATCH,
        HIDE,
        SHOW,
        DELETE,
        FORGET_NAMES,
        NEW_LINK,
        BACKUP,
        RESTORE,
    ],
};
