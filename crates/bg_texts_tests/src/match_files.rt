//! Match files. What they tell is worked out by hand, or is what another program says of the same
//! match.
mod dialects;
mod exports;
mod faults;
mod growths;
mod imports;
mod matches;
mod movements;
mod records;
mod telling_apart;
mod uses;
