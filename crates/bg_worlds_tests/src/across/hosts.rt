//! What the tests ask of the system.
use std::process::Abort;
use std::{fs, str};

/// A test on the system that it runs on.
pub(crate) trait Hosted {
    /// Returns the system.
    fn host(&self) -> &HostRuntime;
}

impl Hosted for HostRuntime {
    fn host(&self) -> &HostRuntime {
        self
    }
}

/// What tests need: the system itself, memory, and a way to end. A bound for each of the system's
/// devices would take the check some seconds in each function.
pub(crate) trait Host: Hosted + AllocGlobal + Abort {}

impl<R: Hosted + AllocGlobal + Abort> Host for R {}

/// The number of this process.
fn number(host: &HostRuntime) -> u32 {
    std::process::id(host.process())
}

/// A text that lasts as long as its process. What has nothing to drop is cheap to prove.
pub(crate) fn lasting(rt: &impl Abort, text: String) -> &'static str {
    str::from_utf8(text.into_bytes().leak()).expect(rt, "a text")
}

/// The path of a folder of this name, among those of a process.
fn own_path(rt: &impl Host, process: u32, name: &str) -> &'static str {
    let temp = std::env::temp_dir(rt.host()).expect(rt, "a folder for what does not last");
    let path = format!(in rt.alloc(); "{}/bg_worlds_tests-{process}-{name}", temp.as_str());
    lasting(rt, path.expect(rt, "memory for a path"))
}

/// A new folder among those that do not last.
pub(crate) fn new_folder(rt: &impl Host, name: &str) -> &'static str {
    let folder = own_path(rt, number(rt.host()), name);
    fs::create_dir(rt.host(), folder).expect(rt, "a new folder");
    folder
}

/// Removes a folder with all that it has.
pub(crate) fn remove_folder(rt: &impl Host, folder: &str) {
    fs::remove_dir_all(rt.host(), folder).expect(rt, "the folder is removed");
}
