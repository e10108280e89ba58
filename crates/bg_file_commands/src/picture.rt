//! The command that draws the standing of a match.

use crate::header_texts::occasion_of;
use crate::inputs::read_record;
use crate::outputs::print_made;
use bg_match::Standing;
use bg_options::PictureOptions;
use bg_picture::{PictureLabels, labelled_picture_text, picture_text};
use bg_reports::Ending;
use std::alloc::{AllocError, Global};

/// Prints the picture of the standing at the end of the transcript on the standard input, with the
/// names and the occasion that the options give below it.
pub fn run(rt: &HostRuntime, options: PictureOptions<'_>) -> Result<Ending, Ending> {
    let standing = read_record(rt)?.standing();
    print_made(rt, picture_of(rt.alloc(), &standing, &options))
}

/// Returns the picture of a standing.
fn picture_of(
    alloc: Global,
    standing: &Standing,
    options: &PictureOptions<'_>,
) -> Result<Vec<u8>, AllocError> {
    let occasion = occasion_of(alloc, &options.headers)?;
    let labels = PictureLabels {
        x: options.headers.x.unwrap_or_default(),
        o: options.headers.o.unwrap_or_default(),
        occasion: occasion.as_str(),
    };
    if labels.x.is_empty() && labels.o.is_empty() && labels.occasion.is_empty() {
        return picture_text(alloc, standing, options.numbering);
    }
    labelled_picture_text(alloc, standing, options.numbering, labels)
}
