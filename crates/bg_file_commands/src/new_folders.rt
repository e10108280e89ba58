//! Creating a referee's folder.

use crate::attempts::done_at;
use bg_console::{
    allocated, failed, has_key_secret, own_folder, path_in, say_of, without_slashes, written, wrong,
};
use bg_dice::{Digest, digest_of, told_text, write_digest};
use bg_reports::Ending;
use bg_system::{
    FolderLock, KeyFiles, NamedMatch, Printable, make_key_secret, make_secret, name_of_key_file,
    read_key_secret, read_secret,
};
use bg_wire::{FIRST_WATCHER, SEAT_OF_O, SEAT_OF_X};
use std::fs;

/// The files of a folder whose match is complete, or was begun: a folder with one of them is not
/// new. Secrets and key files alone are those of a match that was never completed.
const NAMES: [&str; 3] = ["match", "party-0.0", "party-0.1"];

/// The holders of the key files, by the first party of each.
const HOLDERS: [(u8, &str); 3] = [
    (SEAT_OF_X, "X"),
    (SEAT_OF_O, "O"),
    (FIRST_WATCHER, "whoever may watch"),
];

/// The message on a folder whose match was made, where that could not be printed.
const MADE: &str =
    " has the match all the same, with its key files, and the SHA-256 of the dice in `dice`: don't run this again";

/// Creates the folder where it is missing, and locks it. Ends with `WrongArguments` where it has
/// files of a match, and with `Failed` where it can't be locked.
pub(crate) fn begin_folder(rt: &HostRuntime, folder: &str) -> Result<FolderLock, Ending> {
    let lock = own_folder(rt, folder)?;
    check_unused(rt, folder)?;
    Ok(lock)
}

/// Writes a new secret of the dice to the folder, and its SHA-256, which it returns.
pub(crate) fn make_secret_of_dice(rt: &HostRuntime, folder: &str) -> Result<Digest, Ending> {
    let made = make_secret(rt, folder);
    done_at(rt, folder, "/secret could not be written", made)?;
    let read = read_secret(rt, folder);
    let digest = digest_of(&done_at(rt, folder, "/secret could not be read", read)?);
    let written = write_digest(rt, folder, &digest);
    done_at(rt, folder, "/dice could not be written", written)?;
    Ok(digest)
}

/// Prints the SHA-256 of the secret of the dice, which players are told before the first roll.
pub(crate) fn tell_dice(rt: &HostRuntime, digest: &Digest) -> Result<(), Ending> {
    let text = allocated(rt, told_text(rt.alloc(), Some(digest), None))?;
    let line = str::from_utf8(&text).unwrap_or_default();
    let told = println!(rt; "dice: {}", line.trim_ascii_end());
    written(rt, told)
}

/// Writes a new secret of the keys to the folder.
pub(crate) fn make_secret_of_keys(rt: &HostRuntime, folder: &str) -> Result<(), Ending> {
    let made = make_key_secret(rt, folder);
    done_at(rt, folder, "/key-secret could not be written", made)
}

/// Removes the secret that keys are derived from, where an earlier attempt to make the folder has
/// left one.
pub(crate) fn remove_secret_of_keys(rt: &HostRuntime, folder: &str) -> Result<(), Ending> {
    if !has_key_secret(rt, folder)? {
        return Ok(());
    }
    let path = allocated(rt, path_in(rt.alloc(), folder, "key-secret"))?;
    let removed = fs::remove_file(rt, path.as_str());
    done_at(rt, path.as_str(), " could not be removed", removed)
}

/// Returns the key files of the match, with its names. Their keys are derived from the secret in
/// the folder.
pub(crate) fn derived_keys(
    rt: &HostRuntime,
    folder: &str,
    file: &NamedMatch,
) -> Result<KeyFiles, Ending> {
    let read = read_key_secret(rt, folder);
    let secret = done_at(rt, folder, "/key-secret could not be read", read)?;
    Ok(KeyFiles::derive(file.table, &secret).named(&file.names))
}

/// Writes the key files to the folder, and then the match file as the last of its files. So where
/// there is a match file, the match is complete.
pub(crate) fn end_folder(
    rt: &HostRuntime,
    folder: &str,
    file: &NamedMatch,
    keys: &KeyFiles,
) -> Result<(), Ending> {
    write_key_files(rt, folder, keys)?;
    let written = file.write(rt, folder);
    done_at(rt, folder, "/match could not be written", written)
}

/// Writes the key files to the folder: those of the seats, and that of all watchers.
pub(crate) fn write_key_files(
    rt: &HostRuntime,
    folder: &str,
    keys: &KeyFiles,
) -> Result<(), Ending> {
    for file in [&keys.x, &keys.o, &keys.watchers] {
        if let Err(error) = file.write(rt, folder) {
            let (shown, name) = (Printable(folder), name_of_key_file(file.party));
            return Err(failed(
                rt,
                format_args!("{shown}/{name} could not be written: {error}"),
            ));
        }
    }
    Ok(())
}

/// Prints who is to be given which of the key files in the folder.
pub(crate) fn tell_key_files(rt: &HostRuntime, folder: &str) -> Result<(), Ending> {
    let folder = Printable(without_slashes(folder));
    for (party, holder) in HOLDERS {
        let name = name_of_key_file(party);
        written(rt, println!(rt; "hand {folder}/{name} to {holder}"))?;
    }
    Ok(())
}

/// Prints that no key file needs to be handed out.
pub(crate) fn tell_kept_keys(rt: &HostRuntime) -> Result<(), Ending> {
    let told = println!(rt;
        "the keys are kept: X, O and the watchers continue with the key files that they have"
    );
    written(rt, told)
}

/// Returns the result of telling of the new match in a folder. Where that failed, reports that the
/// match was made.
pub(crate) fn told_of(
    rt: &HostRuntime,
    folder: &str,
    attempt: Result<(), Ending>,
) -> Result<(), Ending> {
    if attempt.is_err() {
        say_of(rt, folder, MADE);
    }
    attempt
}

/// Refuses a folder that has files of a match.
fn check_unused(rt: &HostRuntime, folder: &str) -> Result<(), Ending> {
    for name in NAMES {
        if has(rt, folder, name)? {
            let shown = Printable(folder);
            return Err(wrong(
                rt,
                format_args!("{shown} has a match already: {name}; give another --dir"),
            ));
        }
    }
    Ok(())
}

/// Returns whether a folder has something of this name.
fn has(rt: &HostRuntime, folder: &str, name: &str) -> Result<bool, Ending> {
    let path = allocated(rt, path_in(rt.alloc(), folder, name))?;
    Ok(fs::symlink_metadata(rt, path.as_str()).is_ok())
}
