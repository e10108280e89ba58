//! A referee of match 1, of length 1, packet by packet. The packets are read from bytes, as they
//! come from a party.
//!
//! A test is a table of rows, and each row a call with what it comes to. The rows are compared by
//! short functions with no contract, so that neither what a call ensures nor the values that it
//! makes burden the proof of the test.

mod answers;
mod claims;
mod growths;
mod openings;
mod packets;
mod passes;
mod pushes;
mod referees;
mod rows;
mod saves;
