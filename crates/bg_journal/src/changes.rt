//! Changes of files, in their order.

/// The text of a file.
#[derive(Drop)]
pub struct FileText {
    /// Its path below the folder that all files are in.
    pub name: String,
    pub text: Vec<u8>,
}

/// A change of files.
#[derive(Drop)]
pub enum Change {
    /// A file has this text now.
    Put(FileText),
    /// The files in the folder of this name are gone.
    Remove(String),
}

/// What changes make of a file.
#[derive(Clone, Copy, Debug, PartialEq, Eq)]
pub enum Newest<'a> {
    /// It has this text.
    Text(&'a [u8]),
    /// It is gone.
    Gone,
    /// No change is about it.
    Unchanged,
}

/// Returns what changes make of the file with this name: the last one that is about it decides.
pub fn newest_of<'a>(changes: &'a [Change], name: &str) -> Newest<'a> {
    let mut newest = Newest::Unchanged;
    for change in changes.iter() {
        match change {
            Change::Put(file) if file.name.as_str() == name => newest = Newest::Text(&file.text),
            Change::Remove(folder) if is_below(name, folder.as_str()) => newest = Newest::Gone,
            _ => {}
        }
    }
    newest
}

/// Returns whether a file is in a folder, by their names: `a/1` is in `a`. The name of a folder has
/// no slash, so nothing is in `a/b`.
pub fn is_below(file: &str, folder: &str) -> bool {
    match file.split_once('/') {
        Some((first, _)) => first == folder,
        None => false,
    }
}
