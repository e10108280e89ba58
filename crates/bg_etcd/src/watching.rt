//! What a watch reports: a line of JSON for each revision, or for several revisions.

use crate::answers::{bytes_in, name_in, number_in};
use crate::faults::Fault;
use serde_json::Value;
use std::alloc::Global;
use std::io::ErrorKind;

/// A change of a file.
#[derive(Drop)]
pub struct Event {
    pub name: String,
    /// The new text; `None` if the file was removed.
    pub text: Option<Vec<u8>>,
    /// The revision of the change. All changes of one transaction have the same.
    pub revision: u64,
}

/// What a line of a watch says.
#[derive(Drop)]
pub enum News {
    /// The changes, in order; none if the line only says that the watch has begun.
    Events(Vec<Event>),
    /// The watch has ended: the revision from which it was to report has been compacted.
    Ended,
}

/// Returns what a line of a watch says.
///
/// # Errors
/// `Away` if the line says that the watch fails, for instance because the member stops;
/// `Unreadable` if it isn't a line of etcd; `Memory` if memory runs out.
pub fn news_in(alloc: Global, line: &[u8]) -> Result<News, Fault> {
    let value = Value::from_slice(alloc, line)?;
    let Some(told) = value.get("result") else {
        return Err(Fault::Away(ErrorKind::UnexpectedEof));
    };
    if told.get("canceled").is_some() {
        return Ok(News::Ended);
    }
    Ok(News::Events(events_in(alloc, told)?))
}

/// Returns the changes in the result of a line.
fn events_in(alloc: Global, told: &Value) -> Result<Vec<Event>, Fault> {
    let mut events = Vec::new(alloc);
    let Some(list) = told.get("events").and_then(Value::as_array) else {
        return Ok(events);
    };
    for each in list.iter() {
        if let Some(event) = event_in(alloc, each)? {
            if events.push(event).is_err() {
                return Err(Fault::Memory);
            }
        }
    }
    Ok(events)
}

/// Returns the change in an object; `None` if its key isn't that of a file.
fn event_in(alloc: Global, value: &Value) -> Result<Option<Event>, Fault> {
    let Some(pair) = value.get("kv") else {
        return Err(Fault::Unreadable);
    };
    let Some(name) = name_in(alloc, pair)? else {
        return Ok(None);
    };
    // A put has no `type`: its number is 0, so etcd omits it.
    let text = match value.get("type") {
        Some(_) => None,
        None => Some(bytes_in(alloc, pair, "value")?),
    };
    Ok(Some(Event {
        name,
        text,
        revision: number_in(pair, "mod_revision"),
    }))
}
