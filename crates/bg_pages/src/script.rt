//! The script of the pages: one file for browsers, in parts.

mod acts;
mod board;
mod home;
mod live;
mod moves;
mod play;
mod tools;

/// The parts of the script, in order.
pub(crate) const SCRIPT_PARTS: [&'static str; 7] = [
    tools::TEXT,
    moves::TEXT,
    board::TEXT,
    play::TEXT,
    acts::TEXT,
    live::TEXT,
    home::TEXT,
];
