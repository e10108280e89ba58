//! The results of attempts, whose failures are reported.

use bg_console::{failed_at, no_memory};
use bg_reports::Ending;
use std::io;

/// Returns the result of an attempt at a file or a folder. Reports where that failed, with its name
/// and these words.
pub(crate) fn done_at<T>(
    rt: &HostRuntime,
    path: &str,
    words: &str,
    attempt: io::Result<T>,
) -> Result<T, Ending> {
    match attempt {
        Ok(done) => Ok(done),
        Err(error) => Err(failed_at(rt, path, words, &error)),
    }
}

/// Returns the result of an attempt that fails for want of memory alone. Reports where it failed.
pub(crate) fn gathered<T>(rt: &HostRuntime, attempt: io::Result<T>) -> Result<T, Ending> {
    match attempt {
        Ok(found) => Ok(found),
        Err(_) => Err(no_memory(rt)),
    }
}
