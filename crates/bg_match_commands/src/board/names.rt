//! The names of the files of a match.

use crate::board::matches::BoardMatch;
use std::alloc::{AllocError, Global};

/// The name of the index's file, which no match can have.
const INDEX: &str = "index";

/// The end of the path of a key file that has its usual name.
const KEY_FILE: &str = "/match-watch";

/// Returns the path by which the match of a key file is named: that of its folder where it has its
/// usual name, and else its own.
pub(crate) fn place_of_key_file(path: &str) -> &str {
    path.strip_suffix(KEY_FILE).unwrap_or(path)
}

/// Returns a name for the files of a match that no other match has.
pub(crate) fn free_name(
    alloc: Global,
    searched: &str,
    path: &str,
    id: u64,
    others: &[BoardMatch<'_>],
) -> Result<String, AllocError> {
    let name = name_of(alloc, searched, path, id, false)?;
    for other in others {
        if other.pages.name.as_str() == name.as_str() {
            return name_of(alloc, searched, path, id, true);
        }
    }
    Ok(name)
}

/// Returns the name of a match's files: that of its folder as the search in `searched` found it,
/// with a hyphen for each sign that an address would have to spell otherwise. If that name is
/// taken, or is the index's, the number of the match stands behind it.
fn name_of(
    alloc: Global,
    searched: &str,
    path: &str,
    id: u64,
    is_taken: bool,
) -> Result<String, AllocError> {
    let shown = shown_part(searched, path);
    let is_bare = shown.is_empty() || shown.starts_with('.');
    let mut name = String::from_str(alloc, if is_bare { "match" } else { "" })?;
    for part in shown.chars() {
        name.push(if is_plain(part) { part } else { '-' })?;
    }
    if is_taken || name.as_str() == INDEX {
        name = format!(in alloc; "{name}-{id}")?;
    }
    Ok(name)
}

/// Returns the part of a path below the folder that was searched, or its last part where it is that
/// folder.
fn shown_part<'a>(searched: &str, path: &'a str) -> &'a str {
    let below = path
        .strip_prefix(searched.trim_end_matches('/'))
        .unwrap_or(path)
        .trim_start_matches('/');
    if !below.is_empty() {
        return below;
    }
    match path.rsplit_once('/') {
        Some((_, last)) => last,
        None => path,
    }
}

/// Returns whether an address has this sign as it is.
fn is_plain(part: char) -> bool {
    part.is_ascii_alphanumeric() || matches!(part, '.' | '_' | '-')
}
