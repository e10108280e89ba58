//! Files that follow a database or a store, and are older than it for a moment.

use std::fs::OpenOptions;
use std::io;
use std::io::Write;
use std::os::unix::fs::OpenOptionsExt;

/// The mode of a file that only its owner can read and write.
const OWNER_ALONE: u32 = 0o600;

/// Writes a file that follows, without a sync. The file is truncated only after the write: emptying
/// it first would wait for whatever the disk is syncing, as it does on ext4.
///
/// # Errors
/// The reason why the file can't be written.
pub fn overwrite(rt: &HostRuntime, path: &str, text: &[u8]) -> io::Result<()> {
    let mut file = OpenOptions::new()
        .write(true)
        .create(true)
        .mode(OWNER_ALONE)
        .open(rt, path)?;
    file.write_all(text)?;
    file.set_len(text.len() as u64)
}
