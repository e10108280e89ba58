//! The pages of a match server, with their script and style, and the headers of all its answers.
//! For programs that answer requests by `http_server`.
//!
//! ```
//! let mut response = Response::new(alloc);
//! answer_page(&mut response, Page::Home)?;
//! assert!(rt; response.status.as_u16() == 200);
//! ```
#![tactic(auto)]

mod headers;
mod pages;
mod script;
mod style;

pub use headers::{
    Kind, add_common, answer_line, answer_page, answer_script, answer_style, answer_text, refuse,
};
pub use pages::Page;
