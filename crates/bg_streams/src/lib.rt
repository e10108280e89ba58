//! Bytes in and out: sources and sinks, of which contracts see what they gave and took, and how
//! often they were asked and failed. For callers that read a whole input or write a whole text, and
//! have to prove what came of it.
//!
//! ```
//! let mut source = Reading::new("some bytes".as_bytes());
//! let input = read_input(alloc, &mut source, 10)?;
//! let mut written = Vec::new(alloc);
//! write_text(&mut Writing::new(&mut written), &input)?;
//! assert!(rt; written.ends_with(b"some bytes"));
//! ```
#![tactic(auto)]

mod devices;
mod fault_words;
mod faults;
mod histories;
mod transfers;

pub use devices::{Reading, Sink, Source, Writing};
pub use faults::{EngineFault, StreamFault};
pub use histories::History;
pub use transfers::{read_input, write_text};
