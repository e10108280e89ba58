//! The bodies of requests. Each is posted to the path that its function names.

use crate::changes::{Changes, File};
use crate::keys::{HEART, ROOT, ROOT_END, end_of, key_in, key_of};
use crate::limits::PAGE_FILES;
use crate::writing::{put_bytes, put_comma, put_keys, put_number};
use std::alloc::{AllocError, Global};

/// Returns the request to `/v3/kv/range` for the next files after the name `behind`, in the order
/// of their names, as they were at a revision. An empty name asks for the first files, and revision
/// 0 for the newest revision.
///
/// # Errors
/// `AllocError` if memory runs out, as for all functions here.
pub fn page_text(alloc: Global, behind: &str, revision: u64) -> Result<String, AllocError> {
    let mut from = key_of(alloc, behind)?;
    if !behind.is_empty() {
        from.push('\0')?;
    }
    let mut out = String::from_str(alloc, "{")?;
    put_keys(&mut out, from.as_str(), ROOT_END)?;
    out.push(',')?;
    put_number(&mut out, "limit", PAGE_FILES as u64)?;
    out.push(',')?;
    put_number(&mut out, "revision", revision)?;
    out.push('}')?;
    Ok(out)
}

/// Returns the request to `/v3/kv/put` that gives a file a text, whatever the file has.
pub fn put_text(alloc: Global, name: &str, text: &[u8]) -> Result<String, AllocError> {
    let key = key_of(alloc, name)?;
    let mut out = String::from_str(alloc, "{")?;
    put_bytes(&mut out, "key", key.as_bytes())?;
    out.push(',')?;
    put_bytes(&mut out, "value", text)?;
    out.push('}')?;
    Ok(out)
}

/// Returns the request to `/v3/kv/txn` that removes all files of a folder, unless any of them is
/// newer than the known revision. If it is refused, the answer has the files.
pub fn removal_text(alloc: Global, folder: &str, known: u64) -> Result<String, AllocError> {
    let mut out = String::from_str(alloc, "{\"compare\":[")?;
    put_newest(alloc, &mut out, folder, known)?;
    out.push_str("],\"success\":[{\"request_delete_range\":{")?;
    put_folder(alloc, &mut out, folder)?;
    out.push_str("}}],\"failure\":[{\"request_range\":{")?;
    put_folder(alloc, &mut out, folder)?;
    out.push_str("}}]}")?;
    Ok(out)
}

/// Returns the request to `/v3/watch` for all changes from a revision on.
pub fn watch_text(alloc: Global, revision: u64) -> Result<String, AllocError> {
    let mut out = String::from_str(alloc, "{\"create_request\":{")?;
    put_keys(&mut out, ROOT, ROOT_END)?;
    out.push(',')?;
    put_number(&mut out, "start_revision", revision)?;
    out.push_str("}}")?;
    Ok(out)
}

/// Returns the request to `/v3/kv/txn` that makes changes of folders, all of them or none. They are
/// made only if each folder is as it is known, or doesn't exist yet if it is to be new. If it is
/// refused and there is only one folder, the answer has the folder's files.
pub fn transaction_text(alloc: Global, all: &[Changes]) -> Result<String, AllocError> {
    let mut out = String::from_str(alloc, "{\"compare\":[")?;
    let mut is_first = true;
    for changes in all.iter() {
        put_comma(&mut out, &mut is_first)?;
        put_fence(alloc, &mut out, changes)?;
    }
    out.push_str("],\"success\":[")?;
    is_first = true;
    for changes in all.iter() {
        put_files(alloc, &mut out, &changes.files, &mut is_first)?;
    }
    out.push_str("],\"failure\":[")?;
    if let [changes] = all {
        out.push_str("{\"request_range\":{")?;
        put_folder(alloc, &mut out, changes.folder.as_str())?;
        out.push_str("}}")?;
    }
    out.push_str("]}")?;
    Ok(out)
}

/// Adds the range of the keys of all files in a folder.
fn put_folder(alloc: Global, out: &mut String, folder: &str) -> Result<(), AllocError> {
    let (from, end) = (key_in(alloc, folder, "")?, end_of(alloc, folder)?);
    put_keys(out, from.as_str(), end.as_str())
}

/// Adds the compares that hold only if a folder is as it is known: nothing in it is newer, and it
/// still exists.
fn put_fence(alloc: Global, out: &mut String, changes: &Changes) -> Result<(), AllocError> {
    put_newest(alloc, out, changes.folder.as_str(), changes.known)?;
    if changes.known == 0 {
        return Ok(());
    }
    let heart = key_in(alloc, changes.folder.as_str(), HEART)?;
    out.push_str(",{")?;
    put_bytes(out, "key", heart.as_bytes())?;
    out.push_str(",\"target\":\"CREATE\",\"result\":\"GREATER\",")?;
    put_number(out, "create_revision", 0)?;
    out.push('}')
}

/// Adds the compare that holds only if no file of a folder is newer than a revision.
fn put_newest(alloc: Global, out: &mut String, folder: &str, known: u64) -> Result<(), AllocError> {
    out.push('{')?;
    put_folder(alloc, out, folder)?;
    out.push_str(",\"target\":\"MOD\",\"result\":\"LESS\",")?;
    put_number(out, "mod_revision", known.saturating_add(1))?;
    out.push('}')
}

/// Adds the puts that give files these texts.
fn put_files(
    alloc: Global,
    out: &mut String,
    files: &[File],
    is_first: &mut bool,
) -> Result<(), AllocError> {
    for file in files.iter() {
        put_comma(out, is_first)?;
        let key = key_of(alloc, file.name.as_str())?;
        out.push_str("{\"request_put\":{")?;
        put_bytes(out, "key", key.as_bytes())?;
        out.push(',')?;
        put_bytes(out, "value", &file.text)?;
        out.push_str("}}")?;
    }
    Ok(())
}
