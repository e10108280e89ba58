//! Identifiers of positions and matches.
mod boards;
mod rows;
mod uses;
