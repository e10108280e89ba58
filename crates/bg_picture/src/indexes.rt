//! The index of many matches.
ghost use Rattle.std.specs.Prelude.{◌≡◌, ◌++◌, OnOk};
ghost use Rattle.bg_picture.specs.Indexes.{image_text, index_body, index_end, index_head, index_start, index_styles};
ghost use Rattle.bg_picture.specs.Indexes.{link_text, match_item, match_title, match_words, points_text, section_end, section_start};
ghost use Rattle.bg_picture.specs.Indexes.{unbroken_score};

use crate::descriptions::put_phase_words;
use crate::escapes::put_escaped;
use crate::index_parts::{put_index_script, put_index_style};
use crate::page_heads::{put_heading, put_live_part, put_refresh, put_title};
use crate::page_parts::{put_head_start, put_live_script};
use crate::shapes::put_style;
use bg_match::{Number, Standing};
use bg_text::{put_number, put_text};
use std::alloc::AllocError;

/// A match in an index. The texts may be any, as they are escaped; in an address the name of the
/// files stands as it is.
#[derive(Clone, Copy)]
pub struct IndexMatch<'a> {
    /// The name of the files of its page and its picture, without `.html` and `.svg`.
    pub file: &'a str,
    /// The title.
    pub title: &'a str,
    /// Number of entries. A browser asks for the picture anew if it grows.
    pub entries: Number,
}

/// Begins the index of many matches (docs/FORMATS.md, "Indexes"). Unless `seconds` is 0, a browser
/// asks for a newer one after that many seconds.
///
/// # Errors
/// AllocError where there is no memory for it.
#[tactic(auto, unfolding(crate::specs::Indexes::index_start))]
pub fn begin_index(out: &mut Vec<u8>, title: &str, seconds: u16) -> Result<(), AllocError>
    ensures { OnOk result (out.new.items ≡ out.old.items ++ index_start title.now seconds) }
{
    put_head(out, title, seconds)?;
    put_body(out, seconds)?;
    put_heading(out, title)?;
    put_text(out, "<p id='age'></p>\n<div id='matches'>\n")?;
    Ok(())
}

/// Appends the head of the index.
#[tactic(auto, unfolding(crate::specs::Indexes::index_head))]
fn put_head(out: &mut Vec<u8>, title: &str, seconds: u16) -> Result<(), AllocError>
    ensures { OnOk result (out.new.items ≡ out.old.items ++ index_head title.now seconds) }
{
    put_head_start(out)?;
    put_refresh(out, seconds)?;
    put_title(out, title)?;
    put_styles(out)?;
    Ok(())
}

/// Appends the styles, and ends the head.
#[tactic(auto, unfolding(crate::specs::Indexes::index_styles))]
fn put_styles(out: &mut Vec<u8>) -> Result<(), AllocError>
    ensures { OnOk result (out.new.items ≡ out.old.items ++ index_styles) }
{
    put_text(out, "<style>\n")?;
    put_style(out)?;
    put_index_style(out)?;
    put_text(out, "</style>\n</head>\n")?;
    Ok(())
}

/// Begins the body.
#[tactic(auto, unfolding(crate::specs::Indexes::index_body))]
fn put_body(out: &mut Vec<u8>, seconds: u16) -> Result<(), AllocError>
    ensures { OnOk result (out.new.items ≡ out.old.items ++ index_body seconds) }
{
    put_text(out, "<body")?;
    put_live_part(out, seconds)?;
    put_text(out, ">\n")
}

/// Begins a section of the index, under these words.
///
/// # Errors
/// AllocError where there is no memory for it.
#[tactic(auto, unfolding(crate::specs::Indexes::section_start))]
pub fn begin_section(out: &mut Vec<u8>, words: &str) -> Result<(), AllocError>
    ensures { OnOk result (out.new.items ≡ out.old.items ++ section_start words.now) }
{
    put_text(out, "<h2>")?;
    put_escaped(out, words)?;
    put_text(out, "</h2>\n<ul>\n")
}

/// Appends a match that has this standing.
///
/// # Errors
/// AllocError where there is no memory for it.
#[tactic(auto, unfolding(crate::specs::Indexes::match_item))]
pub fn put_match(
    out: &mut Vec<u8>,
    shown: IndexMatch<'_>,
    standing: &Standing,
) -> Result<(), AllocError>
    ensures { OnOk result (out.new.items ≡ out.old.items
        ++ match_item shown.entry.file.now shown.entry.title.now shown.entry.entries standing.now) }
{
    put_link(out, shown.file)?;
    put_image(out, shown.file, shown.entries)?;
    put_match_words(out, shown.title, standing)?;
    put_text(out, "</a></li>\n")?;
    Ok(())
}

/// Begins the link to the page of a match.
#[tactic(auto, unfolding(crate::specs::Indexes::link_text))]
fn put_link(out: &mut Vec<u8>, file: &str) -> Result<(), AllocError>
    ensures { OnOk result (out.new.items ≡ out.old.items ++ link_text file.now) }
{
    put_text(out, "<li><a href='")?;
    put_escaped(out, file)?;
    put_text(out, ".html'>")?;
    Ok(())
}

/// Appends the picture of a match, whose address changes with the number of its entries.
#[tactic(auto, unfolding(crate::specs::Indexes::image_text))]
fn put_image(out: &mut Vec<u8>, file: &str, entries: Number) -> Result<(), AllocError>
    ensures { OnOk result (out.new.items ≡ out.old.items ++ image_text file.now entries) }
{
    put_text(out, "<img src='")?;
    put_escaped(out, file)?;
    put_text(out, ".svg?")?;
    put_number(out, entries.into())?;
    put_text(out, "' alt=''>\n")?;
    Ok(())
}

/// Appends the words below the picture: the title, the score, and what happens next.
#[tactic(auto, unfolding(crate::specs::Indexes::match_words))]
fn put_match_words(out: &mut Vec<u8>, title: &str, standing: &Standing) -> Result<(), AllocError>
    ensures { OnOk result (out.new.items ≡ out.old.items ++ match_words title.now standing.now) }
{
    put_match_title(out, title)?;
    put_points(out, standing)?;
    put_text(out, ", ")?;
    put_phase_words(out, standing)?;
    Ok(())
}

/// Appends the title of a match.
#[tactic(auto, unfolding(crate::specs::Indexes::match_title))]
fn put_match_title(out: &mut Vec<u8>, title: &str) -> Result<(), AllocError>
    ensures { OnOk result (out.new.items ≡ out.old.items ++ match_title title.now) }
{
    put_text(out, "<b><bdi>")?;
    put_escaped(out, title)?;
    put_text(out, "</bdi></b> ")?;
    Ok(())
}

/// Appends the score and the length of the match.
#[tactic(auto, unfolding(crate::specs::Indexes::points_text))]
fn put_points(out: &mut Vec<u8>, standing: &Standing) -> Result<(), AllocError>
    ensures { OnOk result (out.new.items ≡ out.old.items ++ points_text standing.now) }
{
    put_score(out, standing)?;
    put_text(out, " of ")?;
    put_number(out, standing.length().into())?;
    Ok(())
}

/// Appends the score, in which no line ends.
#[tactic(auto, unfolding(crate::specs::Indexes::unbroken_score))]
fn put_score(out: &mut Vec<u8>, standing: &Standing) -> Result<(), AllocError>
    ensures { OnOk result (out.new.items ≡ out.old.items ++ unbroken_score standing.now) }
{
    let (x, o) = standing.score();
    put_text(out, "<span>")?;
    put_number(out, x.into())?;
    put_text(out, "-")?;
    put_number(out, o.into())?;
    put_text(out, "</span>")?;
    Ok(())
}

/// Ends a section.
///
/// # Errors
/// AllocError where there is no memory for it.
#[tactic(auto, unfolding(crate::specs::Indexes::section_end))]
pub fn end_section(out: &mut Vec<u8>) -> Result<(), AllocError>
    ensures { OnOk result (out.new.items ≡ out.old.items ++ section_end) }
{
    put_text(out, "</ul>\n")
}

/// Ends the index.
///
/// # Errors
/// AllocError where there is no memory for it.
#[tactic(auto, unfolding(crate::specs::Indexes::index_end))]
pub fn end_index(out: &mut Vec<u8>) -> Result<(), AllocError>
    ensures { OnOk result (out.new.items ≡ out.old.items ++ index_end) }
{
    put_text(out, "</div>\n<script>\n")?;
    put_index_script(out)?;
    put_live_script(out)?;
    put_text(out, "</script>\n</body>\n</html>\n")?;
    Ok(())
}
