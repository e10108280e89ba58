//! A runtime that stands in for the system's: it opens all files and folders but one.
use std::alloc::{Alloc, Allocator, Global};
use std::cell::Cell;
use std::fs::{File, Metadata, OpenOptions};
use std::io;
use std::io::ErrorKind;
use std::rt::Files;

/// The system's files, but for one.
#[derive(Drop)]
pub(crate) struct StandIn<'a> {
    host: &'a HostRuntime,
    /// The file or folder that can't be opened, if there is one.
    pub(crate) barred: Cell<&'static str>,
}

impl<'a> StandIn<'a> {
    /// One that opens all files.
    pub(crate) fn new(host: &'a HostRuntime) -> StandIn<'a> {
        StandIn {
            host,
            barred: Cell::new(""),
        }
    }
}

impl<'a> Alloc for StandIn<'a> {
    type A = Global;

    fn alloc(&self) -> Global {
        self.host.alloc()
    }
}

impl<'a> Files for StandIn<'a> {
    type File = File;

    type Dir = <HostRuntime as Files>::Dir;

    fn open_file(&self, how: &OpenOptions, path: &str) -> io::Result<File> {
        if path == self.barred.get() {
            return Err(io::Error::from(ErrorKind::PermissionDenied));
        }
        self.host.open_file(how, path)
    }

    fn open_dir(&self, path: &str) -> io::Result<Self::Dir> {
        self.host.open_dir(path)
    }

    fn metadata(&self, path: &str) -> io::Result<Metadata> {
        self.host.metadata(path)
    }

    fn symlink_metadata(&self, path: &str) -> io::Result<Metadata> {
        self.host.symlink_metadata(path)
    }

    fn copy(&self, from: &str, to: &str) -> io::Result<u64> {
        self.host.copy(from, to)
    }

    fn rename(&self, from: &str, to: &str) -> io::Result<()> {
        self.host.rename(from, to)
    }

    fn remove_file(&self, path: &str) -> io::Result<()> {
        self.host.remove_file(path)
    }

    fn create_dir(&self, path: &str) -> io::Result<()> {
        self.host.create_dir(path)
    }

    fn remove_dir(&self, path: &str) -> io::Result<()> {
        self.host.remove_dir(path)
    }

    fn remove_dir_all<B: Allocator>(&self, alloc: B, path: &str) -> io::Result<()> {
        self.host.remove_dir_all(alloc, path)
    }
}
