//! The command that keeps pages of many matches for a web server.

mod index;
mod matches;
mod names;
mod outputs;
mod pages;
mod reports;
mod saved;
mod searching;
mod stamps;
mod watched;

use crate::board::index::write_index;
use crate::board::matches::BoardMatch;
use crate::board::pages::Place;
use crate::board::searching::Search;
use bg_console::{check_out_folder, say_failures, wrong};
use bg_options::BoardOptions;
use bg_processes::Failures;
use bg_reports::Ending;
use std::thread;
use std::time::Duration;

/// Number of milliseconds between two rounds of watchers.
const ROUND_MILLISECONDS: u64 = 100;

/// Number of such rounds from one look at what is known of the matches to the next.
const ROUNDS_OF_LOOK: u64 = 10;

/// Number of such rounds from one search for new matches to the next.
const ROUNDS_OF_SEARCH: u64 = 100;

/// Keeps pages of the matches in the folders that the options name, and below them, and of those
/// whose key files they name. Ends only if it is to write them once, or if it fails. Fails in the
/// end if a folder could not be read.
pub fn run(rt: &HostRuntime, options: BoardOptions<'_, '_>) -> Result<Ending, Ending> {
    if options.places.contains(&"") || options.out.is_empty() {
        return Err(wrong(rt, "the name of a folder is empty"));
    }
    check_out_folder(rt, options.out)?;
    let failures = Failures::new();
    let mut search = Search::new(rt, &failures, options.places, options.is_once);
    let mut matches = Vec::new(rt.alloc());
    keep(rt, &options, &failures, &mut search, &mut matches)?;
    if search.has_unread {
        return Ok(Ending::Failed);
    }
    Ok(Ending::Told)
}

/// Keeps the pages and their index.
fn keep<'a>(
    rt: &'a HostRuntime,
    options: &BoardOptions<'_, '_>,
    failures: &'a Failures,
    search: &mut Search<'a, '_, '_>,
    matches: &mut Vec<BoardMatch<'a>>,
) -> Result<(), Ending> {
    let mut is_new = true;
    for round in 0..u64::MAX {
        if round % ROUNDS_OF_SEARCH == 0 {
            is_new |= search.run(matches)?;
        }
        for one in matches.iter_mut() {
            one.go_on(rt);
        }
        if round % ROUNDS_OF_LOOK == 0 {
            is_new |= look(rt, options, matches)?;
            if is_new {
                write_index(rt, options, matches)?;
            }
            is_new = false;
            say_failures(rt, failures, "");
        }
        if options.is_once {
            break;
        }
        thread::sleep(rt, Duration::from_millis(ROUND_MILLISECONDS));
    }
    Ok(())
}

/// Writes the pages of the matches that have something new. Returns whether there were any.
fn look(
    rt: &HostRuntime,
    options: &BoardOptions<'_, '_>,
    matches: &mut Vec<BoardMatch<'_>>,
) -> Result<bool, Ending> {
    let place = Place {
        out: options.out,
        numbering: options.numbering,
    };
    let mut is_new = false;
    for one in matches.iter_mut() {
        if one.look(rt, place)? {
            is_new = true;
        }
    }
    Ok(is_new)
}
