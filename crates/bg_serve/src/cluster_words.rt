//! Messages about stores that several servers share.

use crate::joining::Unjoined;
use bg_console::{failed, say, wrong};
use bg_etcd::Fault;
use bg_processes::Printable;
use bg_reports::Ending;
use bg_stores::Trouble;
use std::io::ErrorKind;

/// Reports why a server can't share the matches of a store.
pub(crate) fn not_joined(rt: &HostRuntime, folder: &str, words: &str, why: &Unjoined) -> Ending {
    let (folder, words) = (Printable(folder), Printable(words));
    match why {
        Unjoined::Trouble(trouble) => {
            let reason = Printable(reason_of(trouble));
            failed(
                rt,
                format_args!("the store {words} can't be used: {reason}"),
            )
        }
        Unjoined::NoMembers => wrong(
            rt,
            "--store names no members of a cluster: write etcd:HOST:PORT, and further ones behind commas",
        ),
        Unjoined::OwnMatches => wrong(
            rt,
            format_args!(
                "{folder} has matches of its own, and {words} has others: name an empty folder, and copy matches into it by `manage --restore`"
            ),
        ),
        Unjoined::OtherStore => wrong(
            rt,
            format_args!("{folder} is a copy of another store than {words}: name an empty folder"),
        ),
        Unjoined::TooLong(name) => {
            let name = Printable(name.as_str());
            wrong(
                rt,
                format_args!(
                    "the match {name} in {folder} has more than the 450000 bytes that {words} takes: move its folder out of there, and serve it without a cluster"
                ),
            )
        }
        Unjoined::Emptied => failed(
            rt,
            format_args!(
                "{words} has nothing more of what {folder} is a copy of: restore it from a snapshot, or remove {folder}/.database to fill it from the folder"
            ),
        ),
    }
}

/// Describes a trouble, for use in messages.
fn reason_of(trouble: &Trouble) -> &str {
    match trouble {
        Trouble::Older => {
            "it is older than what was read of it: end all servers, and then start them again"
        }
        Trouble::Folder(_) => "the folder can't be read or written",
        Trouble::Store(Fault::Away(ErrorKind::WouldBlock)) | Trouble::NotYet => {
            "no member answers in time"
        }
        Trouble::Store(Fault::Away(_)) => "no member can be reached",
        Trouble::Store(Fault::Refused(_, reason)) => reason.as_str(),
        Trouble::Store(Fault::Unreadable) => "what answers there is no etcd",
        Trouble::Store(Fault::Memory) => "out of memory",
    }
}

/// Says why a store can't be used.
pub(crate) fn tell_trouble(rt: &HostRuntime, words: &str, trouble: &Trouble) {
    let (words, reason) = (Printable(words), Printable(reason_of(trouble)));
    say(
        rt,
        format_args!(
            "the store {words} can't be used: {reason}; nobody is told anything that it has not"
        ),
    );
}

/// Says that no watch of a store reports changes, or that one does again.
pub(crate) fn tell_watch(rt: &HostRuntime, words: &str, is_untold: bool) {
    let words = Printable(words);
    if is_untold {
        say(
            rt,
            format_args!(
                "no member of {words} tells what other servers do: all is read every 10 seconds"
            ),
        );
    } else {
        say(
            rt,
            format_args!("{words} tells again what other servers do"),
        );
    }
}

/// Says that a store can be used again.
pub(crate) fn tell_well(rt: &HostRuntime, words: &str) {
    let words = Printable(words);
    say(
        rt,
        format_args!("the store {words} can be used again: the matches go on"),
    );
}

/// Says in how many matches another server saved first.
pub(crate) fn tell_lost(rt: &HostRuntime, count: usize) {
    if count > 0 {
        say(
            rt,
            format_args!("matches that another server went on with first: {count}"),
        );
    }
}

/// Says that a match comes near the size limit of the store, or exceeds it.
pub(crate) fn tell_long(rt: &HostRuntime, name: &str, is_full: bool) {
    let name = Printable(name);
    if is_full {
        say(
            rt,
            format_args!(
                "the match {name} has more than the 450000 bytes that the store takes: it can't go on"
            ),
        );
    } else {
        say(
            rt,
            format_args!("the match {name} comes near the 450000 bytes that the store takes"),
        );
    }
}

/// Reports that a folder is a copy of what a store has.
pub(crate) fn is_copy(rt: &HostRuntime, folder: &str, words: &str) -> Ending {
    let (folder, words) = (Printable(folder), Printable(words));
    failed(
        rt,
        format_args!(
            "{folder} is a copy of what {words} has: start a server with that --store over it first, or remove {folder}/.database to use it by itself"
        ),
    )
}
