//! The lock of the folder that a process plays over.

use std::fs::{File, TryLockError};
use std::rt::Files;

/// A lock that keeps other processes from playing over a folder (docs/OPERATING.md, "Files"). It
/// lasts until it is dropped, and no longer than the process, however that ends. The lock is on the
/// folder itself, so it leaves nothing in it.
#[derive(Drop)]
pub struct FolderLock {
    _folder: File,
}

impl FolderLock {
    /// Locks the folder.
    ///
    /// # Errors
    /// `WouldBlock` where another process holds the lock; otherwise the system's error in opening
    /// or locking the folder.
    pub fn take(rt: &impl Files<File = File>, folder: &str) -> Result<FolderLock, TryLockError> {
        let opened = File::open(rt, folder).map_err(TryLockError::Error)?;
        opened.try_lock()?;
        Ok(FolderLock { _folder: opened })
    }
}
