//! Writing files that others read at any moment, where they changed.

use bg_console::{check_out_file, failed_at};
use bg_processes::publish;
use bg_reports::Ending;
use std::fs;

/// Writes a text to a file, unless it has this text already. Reports where it can't, and ends with
/// `Failed`; with `WrongArguments` where something else than a file is there.
pub(crate) fn put(rt: &HostRuntime, path: &str, text: &[u8]) -> Result<(), Ending> {
    check_out_file(rt, path)?;
    if let Ok(old) = fs::read(rt, path) {
        if old.as_slice() == text {
            return Ok(());
        }
    }
    match publish(rt, path, text) {
        Ok(()) => Ok(()),
        Err(error) => Err(failed_at(rt, path, " could not be written", &error)),
    }
}
