//! What these tests are made of.

pub(crate) mod devices;
pub(crate) mod failing_devices;
pub(crate) mod folders;
pub(crate) mod hosts;
pub(crate) mod lasting;
pub(crate) mod party_scripts;
pub(crate) mod played_loops;
pub(crate) mod saved_records;
mod script_words;
pub(crate) mod slots;
pub(crate) mod stand_ins;
pub(crate) mod tables;
pub(crate) mod told_failures;
pub(crate) mod words;
