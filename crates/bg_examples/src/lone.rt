//! Processes that run one party each, by its node.

pub mod followers;
pub mod referee;
