//! The index of all matches.

use crate::board::matches::BoardMatch;
use crate::board::outputs::put;
use bg_console::{allocated, path_in};
use bg_options::BoardOptions;
use bg_picture::{begin_index, begin_section, end_index, end_section};
use bg_reports::Ending;
use std::alloc::{AllocError, Global};

/// Number of seconds after which a browser asks for a newer index.
const INDEX_SECONDS: u16 = 5;

/// Writes the index of matches.
pub(crate) fn write_index(
    rt: &HostRuntime,
    options: &BoardOptions<'_, '_>,
    matches: &[BoardMatch<'_>],
) -> Result<(), Ending> {
    let index = allocated(rt, index_of(rt.alloc(), options.title, matches))?;
    let path = allocated(rt, path_in(rt.alloc(), options.out, "index.html"))?;
    put(rt, path.as_str(), &index)
}

/// Returns the index of matches.
fn index_of(alloc: Global, title: &str, matches: &[BoardMatch<'_>]) -> Result<Vec<u8>, AllocError> {
    let mut index = Vec::new(alloc);
    begin_index(&mut index, title, INDEX_SECONDS)?;
    put_section(alloc, &mut index, "live", matches, false)?;
    put_section(alloc, &mut index, "over", matches, true)?;
    end_index(&mut index)?;
    Ok(index)
}

/// Appends the matches that are over, or those that are not.
fn put_section(
    alloc: Global,
    index: &mut Vec<u8>,
    words: &str,
    matches: &[BoardMatch<'_>],
    over: bool,
) -> Result<(), AllocError> {
    begin_section(index, words)?;
    for one in matches {
        if one.pages.is_over() == over {
            one.pages.put_into(alloc, index)?;
        }
    }
    end_section(index)
}
