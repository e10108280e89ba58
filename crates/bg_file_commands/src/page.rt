//! The command that makes a page of a transcript.

use crate::header_texts::occasion_of;
use crate::inputs::read_record;
use crate::outputs::print_made;
use bg_console::{allocated, page_words, table_of, title_of};
use bg_options::{HeaderOptions, PageOptions};
use bg_picture::page_text;
use bg_reports::Ending;
use bg_system::{Name, Names};
use std::alloc::{AllocError, Global};

/// Prints the page of the transcript on the standard input, with the title and the numbering that
/// the options name. Where they have no names, the match file or key file that they name gives
/// them, and where they have no title, the names do.
pub fn run(rt: &HostRuntime, options: PageOptions<'_>) -> Result<Ending, Ending> {
    let (x, o) = names_of(rt, &options)?;
    let names = Names { x, o };
    let title = title_in(rt, &options, &names)?;
    let words = page_words(title.as_str(), &names);
    let record = read_record(rt)?;
    print_made(
        rt,
        page_text(rt.alloc(), &record, words, options.numbering, 0),
    )
}

/// Returns the names of X and of O: those of the options, or else those of the file that they name.
fn names_of(
    rt: &HostRuntime,
    options: &PageOptions<'_>,
) -> Result<(Option<Name>, Option<Name>), Ending> {
    let Names { x, o } = options.names();
    let Some(path) = options.match_path else {
        return Ok((x, o));
    };
    let file = table_of(rt, path)?.names;
    Ok((x.or(file.x), o.or(file.o)))
}

/// Returns the title of a page.
fn title_in(rt: &HostRuntime, options: &PageOptions<'_>, names: &Names) -> Result<String, Ending> {
    let title = title_of(rt, options.title, names)?;
    allocated(rt, with_occasion(rt.alloc(), title, &options.headers))
}

/// Returns a title with the occasion behind it, if there is one.
fn with_occasion(
    alloc: Global,
    title: String,
    headers: &HeaderOptions<'_>,
) -> Result<String, AllocError> {
    let occasion = occasion_of(alloc, headers)?;
    if occasion.is_empty() {
        return Ok(title);
    }
    format!(in alloc; "{title}, {occasion}")
}
