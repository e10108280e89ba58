//! The answers to requests. Their fields are found by name: etcd omits what is false, zero or
//! empty, and writes 64-bit numbers as strings.

use crate::changes::File;
use crate::faults::Fault;
use crate::keys::ROOT;
use base64::engine::general_purpose::STANDARD;
use serde_json::Value;
use std::alloc::Global;

/// Files of a store, as they were at a revision.
#[derive(Drop)]
pub struct Page {
    pub revision: u64,
    pub files: Vec<File>,
    /// Whether more files follow.
    pub has_more: bool,
}

/// The answer to a transaction.
#[derive(Drop)]
pub struct Taken {
    /// Whether the changes were made.
    pub is_taken: bool,
    /// The revision of the changes; if they were refused, the one at which that was decided.
    pub revision: u64,
    /// The current files of the folder, if the transaction was refused and changes only one folder.
    pub files: Vec<File>,
}

/// Parses the body of an answer with this status.
///
/// # Errors
/// `Refused` if the status says that it is an error, with etcd's reason; `Unreadable` if it isn't
/// JSON; `Memory` if memory runs out.
pub(crate) fn value_in(alloc: Global, status: u16, body: &[u8]) -> Result<Value, Fault> {
    let value = match Value::from_slice(alloc, body).map_err(Fault::from) {
        Ok(value) => value,
        Err(Fault::Unreadable) if status != 200 => {
            return Err(Fault::Refused(status, String::new(alloc)));
        }
        Err(fault) => return Err(fault),
    };
    if status == 200 {
        return Ok(value);
    }
    let reason = text_in(&value, "error").unwrap_or("");
    Err(Fault::Refused(status, String::from_str(alloc, reason)?))
}

/// Returns the string in a field of an object.
pub(crate) fn text_in<'a>(value: &'a Value, member: &str) -> Option<&'a str> {
    value.get(member)?.as_str()
}

/// Returns the number in a field of an object, which is a string of digits; 0 if there is none.
pub(crate) fn number_in(value: &Value, member: &str) -> u64 {
    match text_in(value, member) {
        Some(digits) => digits.parse().unwrap_or(0),
        None => 0,
    }
}

/// Returns the revision in the header of an answer.
fn revision_of(value: &Value) -> Result<u64, Fault> {
    match value.get("header") {
        Some(header) => Ok(number_in(header, "revision")),
        None => Err(Fault::Unreadable),
    }
}

/// Returns the bytes that a field of an object has as base64; no bytes if there is no such field.
pub(crate) fn bytes_in(alloc: Global, value: &Value, member: &str) -> Result<Vec<u8>, Fault> {
    let Some(text) = text_in(value, member) else {
        return Ok(Vec::new(alloc));
    };
    Ok(STANDARD.decode(alloc, text.as_bytes())?)
}

/// Returns the name of the file whose key is in an object; `None` if the key isn't that of a file.
pub(crate) fn name_in(alloc: Global, value: &Value) -> Result<Option<String>, Fault> {
    let key = bytes_in(alloc, value, "key")?;
    let Ok(key) = str::from_utf8(&key) else {
        return Ok(None);
    };
    match key.strip_prefix(ROOT) {
        Some(name) => Ok(Some(String::from_str(alloc, name)?)),
        None => Ok(None),
    }
}

/// Returns the files in the field `kvs` of an object.
fn files_in(alloc: Global, value: &Value) -> Result<Vec<File>, Fault> {
    let mut files = Vec::new(alloc);
    let Some(list) = value.get("kvs").and_then(Value::as_array) else {
        return Ok(files);
    };
    for each in list.iter() {
        if let Some(name) = name_in(alloc, each)? {
            let text = bytes_in(alloc, each, "value")?;
            let revision = number_in(each, "mod_revision");
            let file = File {
                name,
                text,
                revision,
            };
            if files.push(file).is_err() {
                return Err(Fault::Memory);
            }
        }
    }
    Ok(files)
}

/// Returns the files in the answer to a request for files.
///
/// # Errors
/// `Refused` if the answer is an error, with etcd's reason; `Unreadable` if it isn't an answer of
/// etcd; `Memory` if memory runs out. The same holds for all functions here.
pub fn page_in(alloc: Global, status: u16, body: &[u8]) -> Result<Page, Fault> {
    let value = value_in(alloc, status, body)?;
    let has_more = match value.get("more") {
        Some(more) => more.as_bool().unwrap_or(false),
        None => false,
    };
    Ok(Page {
        revision: revision_of(&value)?,
        files: files_in(alloc, &value)?,
        has_more,
    })
}

/// Returns the revision in any answer.
pub fn revision_in(alloc: Global, status: u16, body: &[u8]) -> Result<u64, Fault> {
    revision_of(&value_in(alloc, status, body)?)
}

/// Returns the answer to a transaction. If it doesn't say that the transaction succeeded, the
/// transaction was refused.
pub fn taken_in(alloc: Global, status: u16, body: &[u8]) -> Result<Taken, Fault> {
    let value = value_in(alloc, status, body)?;
    let is_taken = match value.get("succeeded") {
        Some(succeeded) => succeeded.as_bool().unwrap_or(false),
        None => false,
    };
    let files = match value.pointer("/responses/0/response_range") {
        Some(range) if !is_taken => files_in(alloc, range)?,
        _ => Vec::new(alloc),
    };
    Ok(Taken {
        is_taken,
        revision: revision_of(&value)?,
        files,
    })
}
