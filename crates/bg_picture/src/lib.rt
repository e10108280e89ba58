//! Pictures of matches, for programs that show them in a browser: a standing as an SVG file, a
//! match as an HTML page, and an index of many matches.
//!
//! ```
//! let record = Record::new(alloc, 1, 5, Rules::One)?;
//! let picture = picture_text(alloc, &record.standing(), Numbering::Mover)?;
//! assert!(rt; picture.starts_with(b"<svg "));
//! let words = PageWords {
//!     title: "Anna & Otto",
//!     x: "Anna",
//!     o: "Otto",
//! };
//! let page = page_text(alloc, &record, words, Numbering::Mover, 0)?;
//! assert!(rt; page.starts_with(b"<!DOCTYPE html>"));
//! ```
#![tactic(auto)]

mod anchors;
mod captions;
mod descriptions;
mod elements;
mod escapes;
mod index_parts;
mod indexes;
mod item_data;
mod items;
mod laws;
mod named_pictures;
mod numberings;
mod page_heads;
mod page_ids;
mod page_parts;
mod pages;
mod pictures;
mod places;
mod shapes;
mod stacks;
mod tables;
mod wins;

pub use indexes::{IndexMatch, begin_index, begin_section, end_index, end_section, put_match};
pub use laws::{
    drawings_tell_positions, escaped_texts_are_plain, item_names_differ, items_tell_positions,
};
pub use named_pictures::{PictureLabels, labelled_picture_text};
pub use numberings::Numbering;
pub use page_heads::PageWords;
pub use pages::page_text;
pub use pictures::picture_text;
