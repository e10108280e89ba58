//! Folders of the tests, and paths in them, which last as long as the process.
use crate::lasting::lasting_text;
use std::process::Abort;
use std::{fs, io};

/// The path of a folder of this name, among those of this process that do not last.
fn own_path(host: &HostRuntime, name: &str) -> io::Result<String> {
    let process = std::process::id(host.process());
    let temp = std::env::temp_dir(host)?;
    let path = format!(in host.alloc(); "{}/bg_commands_tests-{process}-{name}", temp.as_str());
    Ok(path?)
}

/// A new folder of this name, as a text that is dropped.
pub(crate) fn new_folder(host: &HostRuntime, name: &str) -> io::Result<String> {
    let folder = own_path(host, name)?;
    fs::create_dir(host, folder.as_str())?;
    Ok(folder)
}

/// A new folder of this name.
pub(crate) fn lasting_folder<'a>(rt: &impl Abort, host: &HostRuntime, name: &str) -> &'a str {
    lasting_text(new_folder(host, name).expect(rt, "a new folder"))
}

/// The path of a file in a folder.
pub(crate) fn path_in<'a>(rt: &(impl AllocGlobal + Abort), folder: &str, name: &str) -> &'a str {
    let path = format!(in rt.alloc(); "{folder}/{name}");
    lasting_text(path.expect(rt, "memory for a path"))
}
