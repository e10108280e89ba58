//! Folders that do not last, with their files, and paths, which last as long as the process.
use crate::helpers::hosts::{Host, Hosted, process_number};
use crate::helpers::lasting::lasting_text;
use std::os::unix::fs::PermissionsExt;
use std::process::Abort;
use std::{fs, io};

/// The path of a folder of this name, among those of this process.
fn own_path(rt: &impl Host, name: &str) -> io::Result<String> {
    let temp = std::env::temp_dir(rt.host())?;
    let process = process_number(rt.host());
    let path = format!(in rt.alloc(); "{}/bg_relay-{process}-{name}", temp.as_str())?;
    Ok(path)
}

/// A new folder of this name, among those of this process.
pub(crate) fn try_folder(rt: &impl Host, name: &str) -> io::Result<&'static str> {
    let folder = lasting_text(rt, own_path(rt, name)?);
    fs::create_dir(rt.host(), folder)?;
    Ok(folder)
}

/// The same, where it can be made.
pub(crate) fn new_folder(rt: &impl Host, name: &str) -> &'static str {
    try_folder(rt, name).expect(rt, "a new folder")
}

/// Makes a folder.
pub(crate) fn make_folder(rt: &impl Host, folder: &str) {
    fs::create_dir(rt.host(), folder).expect(rt, "a new folder");
}

/// Removes a folder with all that it has.
pub(crate) fn remove_folder(rt: &impl Host, folder: &str) {
    fs::remove_dir_all(rt.host(), folder).expect(rt, "the folder is removed");
}

/// Removes a folder that has nothing.
pub(crate) fn remove_empty(rt: &impl Host, folder: &str) {
    fs::remove_dir(rt.host(), folder).expect(rt, "an empty folder");
}

/// Removes a file.
pub(crate) fn remove_file(rt: &impl Host, path: &str) {
    fs::remove_file(rt.host(), path).expect(rt, "the file is removed");
}

/// The path of a file in a folder.
pub(crate) fn path_in(rt: &(impl AllocGlobal + Abort), folder: &str, name: &str) -> &'static str {
    let path = format!(in rt.alloc(); "{folder}/{name}");
    lasting_text(rt, path.expect(rt, "memory for a path"))
}

/// Another folder has this name from now on, or the folder has it again.
pub(crate) fn rename(rt: &impl Host, from: &str, to: &str) {
    fs::rename(rt.host(), from, to).expect(rt, "another name");
}

/// A file has these bytes from now on.
pub(crate) fn write_file(rt: &impl Host, path: &str, bytes: &[u8]) {
    fs::write(rt.host(), path, bytes).expect(rt, "a file is written");
}

/// The bytes of a file, which last as long as the process.
pub(crate) fn bytes_in(rt: &impl Host, path: &str) -> &'static [u8] {
    let found = fs::read(rt.host(), path);
    found.expect(rt, "a file is read").leak()
}

/// Who may read and write a file.
pub(crate) fn mode_of(rt: &impl Host, path: &str) -> u32 {
    let metadata = fs::metadata(rt.host(), path).expect(rt, "a file is there");
    metadata.permissions().mode() & 0o777
}
