//! The fields of the layouts, read and written.

pub(crate) mod codes;
pub(crate) mod entry_reading;
pub(crate) mod entry_writing;
pub(crate) mod reader;
pub(crate) mod rules_bytes;
pub(crate) mod writer;
