//! The picture of a standing with words below it: who plays, and on what occasion.
ghost use Rattle.std.specs.Prelude.{◌≡◌, ◌++◌, OnOk, IfOk};
ghost use Rattle.bg_picture.specs.NamedPictures.{label_line, label_text, labelled_frame, labelled_picture};
ghost use Rattle.bg_picture.specs.NamedPictures.{labelled_start, labels_text};
ghost use Rattle.bg_picture.specs.Numberings.{reader_of};

use crate::Numbering;
use crate::elements::{begin_group, begin_words, end_group, end_words};
use crate::escapes::put_escaped;
use crate::pictures::{put_definitions, put_drawing, put_style_element, put_titles};
use bg_board::Player;
use bg_match::Standing;
use bg_text::put_text;
use std::alloc::{AllocError, Global};

/// The words below a picture. Each may be any text, and is empty where there is none.
#[derive(Clone, Copy)]
pub struct PictureLabels<'a> {
    /// The name of X.
    pub x: &'a str,
    /// The name of O.
    pub o: &'a str,
    /// The occasion, as an event, a place and a date.
    pub occasion: &'a str,
}

/// Returns the picture of a standing with these words below it, as an SVG file (docs/FORMATS.md,
/// "Pictures").
///
/// # Errors
/// AllocError where there is no memory for it.
#[tactic(auto, unfolding(crate::specs::NamedPictures::labelled_picture))]
pub fn labelled_picture_text(
    alloc: Global,
    standing: &Standing,
    numbering: Numbering,
    labels: PictureLabels<'_>,
) -> Result<Vec<u8>, AllocError>
    ensures { IfOk result (λ text. text.items ≡ labelled_picture standing.now (reader_of numbering standing.now.phase)
        (record { x = labels.entry.x.now; o = labels.entry.o.now; occasion = labels.entry.occasion.now })) }
{
    let reader = numbering.reader(standing.phase());
    let mut out = Vec::new(alloc);
    put_start(&mut out, standing, reader)?;
    put_style_element(&mut out)?;
    put_definitions(&mut out, reader)?;
    put_drawing(&mut out, standing, reader)?;
    put_labels(&mut out, labels)?;
    put_text(&mut out, "</svg>\n")?;
    Ok(out)
}

/// Appends the beginning of the picture, with its title and description.
#[tactic(auto, unfolding(crate::specs::NamedPictures::labelled_start))]
fn put_start(out: &mut Vec<u8>, standing: &Standing, reader: Player) -> Result<(), AllocError>
    ensures { OnOk result (out.new.items ≡ out.old.items ++ labelled_start standing.now reader) }
{
    put_text(out, "<svg xmlns='http://www.w3.org/2000/svg'")?;
    put_frame(out)?;
    put_titles(out, standing, reader)?;
    Ok(())
}

/// Appends the edges of the picture, and the role that tells screen readers that it is one.
#[tactic(auto, unfolding(crate::specs::NamedPictures::labelled_frame))]
fn put_frame(out: &mut Vec<u8>) -> Result<(), AllocError>
    ensures { OnOk result (out.new.items ≡ out.old.items ++ labelled_frame) }
{
    put_text(out, " viewBox='-8 0 616 644' role='img'>")
}

/// Appends the words below the picture.
#[tactic(auto, unfolding(crate::specs::NamedPictures::labels_text))]
fn put_labels(out: &mut Vec<u8>, labels: PictureLabels<'_>) -> Result<(), AllocError>
    ensures { OnOk result (out.new.items ≡ out.old.items ++ labels_text
        (record { x = labels.entry.x.now; o = labels.entry.o.now; occasion = labels.entry.occasion.now })) }
{
    begin_group(out, "left")?;
    put_label(out, 580, "X: ", labels.x)?;
    put_label(out, 606, "O: ", labels.o)?;
    put_label(out, 632, "", labels.occasion)?;
    end_group(out)
}

/// Appends a line of these words, unless the text is empty.
#[tactic(auto, unfolding(crate::specs::NamedPictures::label_text))]
fn put_label(out: &mut Vec<u8>, y: u16, front: &str, text: &str) -> Result<(), AllocError>
    ensures { OnOk result (out.new.items ≡ out.old.items ++ label_text y front.now text.now) }
{
    if text.is_empty() {
        Ok(())
    } else {
        put_label_line(out, y, front, text)
    }
}

/// Appends a line of these words.
#[tactic(auto, unfolding(crate::specs::NamedPictures::label_line))]
fn put_label_line(out: &mut Vec<u8>, y: u16, front: &str, text: &str) -> Result<(), AllocError>
    ensures { OnOk result (out.new.items ≡ out.old.items ++ label_line y front.now text.now) }
{
    begin_words(out, 0, y)?;
    put_text(out, front)?;
    put_escaped(out, text)?;
    end_words(out)
}
