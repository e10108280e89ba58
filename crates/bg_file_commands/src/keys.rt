//! The command that makes the key files of a match.

use crate::new_folders::{derived_keys, make_secret_of_keys, tell_key_files, write_key_files};
use bg_console::{check_folder, has_key_secret, key_files_of, lock_of, match_in, tell_if_open};
use bg_reports::Ending;
use bg_system::{KeyFiles, NamedMatch};

/// Makes the key files of the match in this folder, from the secret there. Draws a new secret where
/// there is neither a secret nor a key file.
pub fn run(rt: &HostRuntime, folder: &str) -> Result<Ending, Ending> {
    check_folder(
        rt,
        folder,
        " is no folder: name the one that `bg_relay new` made",
    )?;
    let _lock = lock_of(rt, folder)?;
    tell_if_open(rt, folder);
    make_key_files(rt, folder)?;
    tell_key_files(rt, folder)?;
    Ok(Ending::Served)
}

/// Makes the key files of the match in this folder.
fn make_key_files(rt: &HostRuntime, folder: &str) -> Result<(), Ending> {
    let file = match_in(rt, folder)?;
    write_key_files(rt, folder, &keys_for(rt, folder, &file)?)
}

/// Returns the keys of the folder, from its secret or its key files; new ones where it has none.
/// The names are those of the match file.
fn keys_for(rt: &HostRuntime, folder: &str, file: &NamedMatch) -> Result<KeyFiles, Ending> {
    if !has_key_secret(rt, folder)? {
        if let Some(kept) = key_files_of(rt, folder, &file.table)? {
            return Ok(kept.named(&file.names));
        }
        make_secret_of_keys(rt, folder)?;
    }
    derived_keys(rt, folder, file)
}
