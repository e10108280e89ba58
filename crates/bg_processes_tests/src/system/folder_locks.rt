//! The lock of a folder.
use crate::checks::check;
use crate::helpers::folders::{make_folder, new_folder, path_in, remove_empty, remove_folder};
use crate::helpers::hosts::{Host, Hosted};
use bg_system::FolderLock;
use std::fs::TryLockError;
use std::io::ErrorKind;
use std::os::unix::fs::symlink;

/// Whether a folder is free to be locked, taken by another, or missing.
fn state(host: &HostRuntime, folder: &str) -> &'static str {
    match FolderLock::take(host, folder) {
        Ok(_) => "free",
        Err(TryLockError::WouldBlock) => "taken",
        Err(TryLockError::Error(error)) if error.kind() == ErrorKind::NotFound => "missing",
        Err(_) => "broken",
    }
}

/// While a folder is locked nobody else can lock it, by another name neither; other folders are
/// free.
fn is_locked_alone(host: &HostRuntime, folder: &str, alias: &str, other: &str) -> bool {
    match FolderLock::take(host, folder) {
        Ok(_lock) => {
            state(host, folder) == "taken"
                && state(host, alias) == "taken"
                && state(host, other) == "free"
        }
        Err(_) => false,
    }
}

#[test]
fn one_lock_at_a_time(rt: HostRuntime) {
    check_locks(&rt);
}

/// A folder in another one, which has a link to it, is locked, and free again when its lock is
/// dropped.
fn check_locks(rt: &impl Host) {
    let folder = new_folder(rt, "lock");
    let inside = path_in(rt, folder, "inside");
    let alias = path_in(rt, folder, "alias");
    make_folder(rt, inside);
    symlink(rt.host(), inside, alias).expect(rt, "a link");
    let is_alone = is_locked_alone(rt.host(), inside, alias, folder);
    check(rt, is_alone, "one lock, and that of one folder");
    let is_free = state(rt.host(), alias) == "free";
    check(rt, is_free, "it was locked for a while");
    // Nothing is left in it.
    remove_empty(rt, inside);
    check(rt, state(rt.host(), inside) == "missing", "it is gone");
    remove_folder(rt, folder);
}
