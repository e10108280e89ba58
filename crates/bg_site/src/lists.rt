//! Lists of matches.

use crate::greetings::{put_names, put_presence};
use crate::places::Place;
use crate::quiet::Patience;
use crate::requests::query_part;
use crate::summaries::Summary;
use bg_states::{letter_of, put_quoted};
use bg_system::Name;
use bg_text::{put_number, put_text};
use std::alloc::{AllocError, Global};

/// The number of matches on a page.
const PAGE: usize = 50;

/// A list of matches.
#[derive(Clone, Copy, PartialEq, Eq)]
pub(crate) enum List {
    Live,
    /// Matches in which nobody has acted for a long time.
    Idle,
    /// Matches that have ended.
    Finished,
}

impl List {
    /// Returns the list with this name; by default that of live matches.
    fn named(name: Option<&str>) -> Option<List> {
        match name {
            None | Some("live") => Some(List::Live),
            Some("idle") => Some(List::Idle),
            Some("finished") => Some(List::Finished),
            Some(_) => None,
        }
    }

    /// Returns the list that a match is on; `None` if it is on none.
    pub(crate) fn of<K>(place: &Place<K>, patience: Patience) -> Option<List> {
        if place.is_hidden || place.is_gone {
            return None;
        }
        if place.summary.winner.is_some() {
            return Some(List::Finished);
        }
        Some(if patience.is_over(place.quiet) {
            List::Idle
        } else {
            List::Live
        })
    }
}

/// The matches that a request asks for.
#[derive(Clone, Copy)]
pub(crate) struct Wanted<'a> {
    list: List,
    patience: Patience,
    /// The number of pages before the requested one.
    before: u32,
    /// The text that the name of a player or of the match must contain, in lower case.
    search: &'a str,
    /// Whether the least recently changed matches come first.
    is_oldest_first: bool,
}

impl<'a> Wanted<'a> {
    /// Returns what a query such as `list=finished&page=N` asks for; `None` if there is no such list
    /// or page. `search` is the text that it searches for, in lower case.
    pub(crate) fn of(
        query: Option<&str>,
        search: &'a str,
        patience: Patience,
    ) -> Option<Wanted<'a>> {
        Some(Wanted {
            list: List::named(query_part(query, "list"))?,
            patience,
            before: pages_before(query_part(query, "page"))?,
            search,
            is_oldest_first: false,
        })
    }

    /// Returns the same, with the least recently changed matches first, so that a full page stays
    /// the same.
    pub(crate) fn oldest_first(self) -> Wanted<'a> {
        Wanted {
            is_oldest_first: true,
            ..self
        }
    }

    /// Returns whether a match is one of those asked for.
    fn takes<K>(&self, alloc: Global, place: &Place<K>) -> Result<bool, AllocError> {
        if List::of(place, self.patience) != Some(self.list) {
            return Ok(false);
        }
        if self.search.is_empty() {
            return Ok(true);
        }
        Ok(
            is_named(alloc, &place.names.x, self.search)?
                || is_named(alloc, &place.names.o, self.search)?
                || has_text(alloc, place.name.as_str(), self.search)?,
        )
    }

    /// Returns the sort key of a match in the list, by its latest change.
    fn rank<K>(&self, place: &Place<K>) -> u64 {
        if self.is_oldest_first {
            place.news
        } else {
            u64::MAX - place.news
        }
    }
}

/// Returns the number of pages before the page with this number, which counts from 1.
fn pages_before(digits: Option<&str>) -> Option<u32> {
    match digits.unwrap_or("1").parse::<u32>() {
        Ok(page) => page.checked_sub(1),
        Err(_) => None,
    }
}

/// Returns whether there is a name and it contains the text.
fn is_named(alloc: Global, name: &Option<Name>, search: &str) -> Result<bool, AllocError> {
    match name {
        Some(name) => has_text(alloc, name.as_str(), search),
        None => Ok(false),
    }
}

/// Returns whether a text, after conversion to lower case, contains another.
fn has_text(alloc: Global, text: &str, search: &str) -> Result<bool, AllocError> {
    let text = text.to_lowercase(alloc)?;
    Ok(text.as_str().contains(search))
}

/// Returns a page of a list, the most recently changed matches first.
pub(crate) fn list_text<K>(
    alloc: Global,
    places: &[Place<K>],
    wanted: &Wanted<'_>,
) -> Result<Vec<u8>, AllocError> {
    let found = found_by(alloc, places, wanted)?;
    let mut out = Vec::new(alloc);
    put_list(&mut out, places, wanted, &found)?;
    Ok(out)
}

/// Adds the requested page of the matches that were found.
fn put_list<K>(
    out: &mut Vec<u8>,
    places: &[Place<K>],
    wanted: &Wanted<'_>,
    found: &[(u64, usize)],
) -> Result<(), AllocError> {
    put_text(out, "{\"count\":")?;
    put_number(out, found.len() as u64)?;
    put_text(out, ",\"page\":")?;
    put_number(out, u64::from(wanted.before) + 1)?;
    put_text(out, ",\"pages\":")?;
    put_number(out, found.len().div_ceil(PAGE).max(1) as u64)?;
    put_text(out, ",\"matches\":[")?;
    let start = (wanted.before as usize).saturating_mul(PAGE);
    put_rows(out, places, rows_from(found, start))?;
    put_text(out, "]}")
}

/// Returns the indexes of the matches on the requested page.
pub(crate) fn page_of<K>(
    alloc: Global,
    places: &[Place<K>],
    wanted: &Wanted<'_>,
) -> Result<Vec<usize>, AllocError> {
    let found = found_by(alloc, places, wanted)?;
    let start = (wanted.before as usize).saturating_mul(PAGE);
    indexes_of(alloc, rows_from(&found, start))
}

/// Returns the indexes of the matches in these rows.
fn indexes_of(alloc: Global, rows: &[(u64, usize)]) -> Result<Vec<usize>, AllocError> {
    let mut indexes = Vec::new(alloc);
    for row in rows {
        indexes.push(row.1)?;
    }
    Ok(indexes)
}

/// Returns the rank and the index of each match that is asked for, in order.
fn found_by<K>(
    alloc: Global,
    places: &[Place<K>],
    wanted: &Wanted<'_>,
) -> Result<Vec<(u64, usize)>, AllocError> {
    let mut found = Vec::new(alloc);
    for (index, place) in places.iter().enumerate() {
        if wanted.takes(alloc, place)? {
            found.push((wanted.rank(place), index))?;
        }
    }
    found.sort()?;
    Ok(found)
}

/// Returns the rows of the page that begins at this row.
fn rows_from(found: &[(u64, usize)], start: usize) -> &[(u64, usize)] {
    let start = start.min(found.len());
    let end = start.saturating_add(PAGE).min(found.len());
    &found[start..end]
}

/// Adds the matches of a page, with commas between them.
fn put_rows<K>(
    out: &mut Vec<u8>,
    places: &[Place<K>],
    rows: &[(u64, usize)],
) -> Result<(), AllocError> {
    let mut is_first = true;
    for row in rows {
        if let Some(place) = places.get(row.1) {
            put_comma(out, is_first)?;
            put_row(out, place)?;
            is_first = false;
        }
    }
    Ok(())
}

/// Adds the comma before a match, unless it is the first.
fn put_comma(out: &mut Vec<u8>, is_first: bool) -> Result<(), AllocError> {
    put_text(out, if is_first { "" } else { "," })
}

/// Adds a match.
fn put_row<K>(out: &mut Vec<u8>, place: &Place<K>) -> Result<(), AllocError> {
    put_text(out, "{\"match\":")?;
    put_quoted(out, place.name.as_str())?;
    put_names(out, &place.names)?;
    put_text(out, ",\"length\":")?;
    put_number(out, place.terms.length.into())?;
    put_summary(out, place.summary)?;
    put_text(out, ",")?;
    put_presence(out, place.presence)?;
    put_text(out, "}")
}

/// Adds the summary of a match.
fn put_summary(out: &mut Vec<u8>, summary: Summary) -> Result<(), AllocError> {
    put_text(out, ",\"number\":")?;
    put_number(out, summary.entries.into())?;
    put_text(out, ",\"score\":[")?;
    put_number(out, summary.score.0.into())?;
    put_text(out, ",")?;
    put_number(out, summary.score.1.into())?;
    put_text(out, "],\"turn\":\"")?;
    put_text(out, letter_of(summary.turn))?;
    put_text(out, "\",\"winner\":\"")?;
    put_text(out, letter_of(summary.winner))?;
    put_text(out, "\"")
}
