//! Readers and writers of all kinds: slow ones, endless ones, and those that fail.
mod device_errors;
mod growths;
mod helpers;
mod inputs;
mod texts;
