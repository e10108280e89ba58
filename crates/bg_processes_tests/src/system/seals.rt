//! HMACs, keys and sealed datagrams, against values of another program.

mod datagrams;
mod hmacs;
pub(crate) mod keys;
