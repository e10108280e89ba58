//! The page and the picture of a match.

use crate::board::outputs::put;
use bg_console::{allocated, page_words};
use bg_match::{Number, Phase, Record, Standing};
use bg_picture::{IndexMatch, Numbering, page_text, picture_text, put_match};
use bg_processes::Names;
use bg_reports::Ending;
use std::alloc::{AllocError, Global};

/// Number of seconds after which a browser asks for a newer page of a running match.
const PAGE_SECONDS: u16 = 5;

/// The place of the pages, and the numbering of their points.
#[derive(Clone, Copy)]
pub(crate) struct Place<'a> {
    /// The folder of the pages.
    pub(crate) out: &'a str,
    pub(crate) numbering: Numbering,
}

/// The page and the picture of a match, and what they show.
#[derive(Drop)]
pub(crate) struct Pages {
    /// The name of both files, without what stands behind the dot.
    pub(crate) name: String,
    names: Names,
    /// The standing and the number of entries that they show, once they were written.
    seen: Option<(Standing, Number)>,
}

impl Pages {
    /// Creates the pages of a match whose players have these names. None is written yet.
    pub(crate) fn new(name: String, names: Names) -> Pages {
        Pages {
            name,
            names,
            seen: None,
        }
    }

    /// Returns whether the match is over, as far as it was seen.
    pub(crate) fn is_over(&self) -> bool {
        match &self.seen {
            Some((standing, _)) => matches!(standing.phase(), Phase::Over(_)),
            None => false,
        }
    }

    /// Writes the pages of a record, where they don't show it yet. Returns whether they didn't.
    pub(crate) fn show(
        &mut self,
        rt: &HostRuntime,
        place: Place<'_>,
        record: &Record,
    ) -> Result<bool, Ending> {
        let seen = Some((record.standing(), record.len()));
        if self.seen == seen {
            return Ok(false);
        }
        self.seen = seen;
        self.write_page(rt, place, record)?;
        self.write_picture(rt, place, record)?;
        Ok(true)
    }

    /// Writes the page of a record.
    fn write_page(
        &self,
        rt: &HostRuntime,
        place: Place<'_>,
        record: &Record,
    ) -> Result<(), Ending> {
        let seconds = if self.is_over() { 0 } else { PAGE_SECONDS };
        let title = allocated(rt, self.title(rt.alloc()))?;
        let words = page_words(title.as_str(), &self.names);
        let page = page_text(rt.alloc(), record, words, place.numbering, seconds);
        self.put(rt, place, ".html", page)
    }

    /// Writes the picture of where a record stands.
    fn write_picture(
        &self,
        rt: &HostRuntime,
        place: Place<'_>,
        record: &Record,
    ) -> Result<(), Ending> {
        let picture = picture_text(rt.alloc(), &record.standing(), place.numbering);
        self.put(rt, place, ".svg", picture)
    }

    /// Writes a text into the file with this end of its name.
    fn put(
        &self,
        rt: &HostRuntime,
        place: Place<'_>,
        ending: &str,
        text: Result<Vec<u8>, AllocError>,
    ) -> Result<(), Ending> {
        let text = allocated(rt, text)?;
        let (out, name) = (place.out, self.name.as_str());
        let path = allocated(rt, format!(in rt.alloc(); "{out}/{name}{ending}"))?;
        put(rt, path.as_str(), &text)
    }

    /// Appends the match to an index, if it was seen.
    pub(crate) fn put_into(&self, alloc: Global, index: &mut Vec<u8>) -> Result<(), AllocError> {
        let Some((standing, entries)) = self.seen else {
            return Ok(());
        };
        let title = self.title(alloc)?;
        let shown = IndexMatch {
            file: self.name.as_str(),
            title: title.as_str(),
            entries,
        };
        put_match(index, shown, &standing)
    }

    /// Returns the title: the names of both players, or else the name of the pages.
    fn title(&self, alloc: Global) -> Result<String, AllocError> {
        match (&self.names.x, &self.names.o) {
            (Some(x), Some(o)) => format!(in alloc; "{x} against {o}"),
            _ => String::from_str(alloc, self.name.as_str()),
        }
    }
}
