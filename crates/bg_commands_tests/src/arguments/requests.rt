//! What the rows of words ask for.
mod matches;

use bg_match::Rules;
use bg_options::{
    BatchOptions, BoardOptions, CheckFormat, CheckOptions, ExportOptions, ImportOptions,
    ListFormat, ListOptions, PageOptions, RecoverOptions, Request, ShowOptions,
};
use bg_picture::Numbering;
use bg_system::Names;

/// Whether the words of this row ask for this.
pub(crate) fn is_asked(row: usize, request: &Request<'_, '_>) -> bool {
    match request {
        Request::Judge => row == 0,
        Request::Check(check) => is_check(row, check),
        Request::Import(import) => is_import(row, import),
        Request::Export(export) => is_export(row, export),
        Request::Show(show) => is_show(row, show),
        Request::List(list) => is_list(row, list),
        Request::Page(page) => is_page(row, page),
        Request::Recover(recover) => is_recover(row, recover),
        _ => is_other(row, request),
    }
}

/// The same of what has one row, and of matches.
fn is_other(row: usize, request: &Request<'_, '_>) -> bool {
    match request {
        Request::Picture(picture) => row == 10 && picture.numbering == Numbering::X,
        Request::Keys { folder } => row == 21 && *folder == "d",
        Request::Board(board) => row == 34 && is_board(board),
        Request::Dice { secret } => row == 35 && *secret == "s",
        _ => matches::is_asked(row, request),
    }
}

/// Whether these words are given, between which a bar stands.
fn are(given: &[&str], wanted: &str) -> bool {
    let mut words = wanted.split('|');
    for word in given {
        if words.next() != Some(*word) {
            return false;
        }
    }
    words.next().is_none()
}

/// Whether this word is given.
fn is(given: Option<&str>, wanted: &str) -> bool {
    given == Some(wanted)
}

fn is_check(row: usize, check: &CheckOptions<'_, '_>) -> bool {
    match row {
        1 => {
            are(check.files, "a|-|b")
                && check.list.is_none()
                && check.is_quiet
                && !check.is_recursive
                && check.format == CheckFormat::Text
        }
        2 => {
            check.files.is_empty()
                && is(check.list, "-")
                && !check.is_quiet
                && check.is_recursive
                && check.format == CheckFormat::Tsv
        }
        _ => false,
    }
}

fn is_import(row: usize, import: &ImportOptions<'_, '_>) -> bool {
    match row {
        3 => import.rules == Rules::One && import.batch.is_none() && import.headers.is_none(),
        4 => import.rules == Rules::Two,
        29 => is_batch(&import.batch, "a|b", true),
        30 => is(import.headers, "h") && !import.is_forced,
        _ => false,
    }
}

/// Whether these files go into the folder `d`, and whether others may be overwritten there.
fn is_batch(batch: &Option<BatchOptions<'_, '_>>, files: &str, is_forced: bool) -> bool {
    match batch {
        Some(batch) => {
            are(batch.files, files) && batch.folder == "d" && batch.is_forced == is_forced
        }
        None => false,
    }
}

fn is_export(row: usize, export: &ExportOptions<'_, '_>) -> bool {
    let headers = &export.headers;
    match row {
        5 => headers.x.is_none() && export.batch.is_none(),
        31 => {
            is(headers.x, "Anna")
                && is(headers.o, "Otto")
                && is(headers.date, "1")
                && is(headers.event, "2")
                && is(headers.place, "3")
                && is_batch(&export.batch, "a", false)
        }
        _ => false,
    }
}

fn is_show(row: usize, show: &ShowOptions<'_>) -> bool {
    match row {
        6 => show.path0 == "a" && show.path1.is_none() && !show.wants_transcript,
        7 => show.path0 == "a" && is(show.path1, "b") && show.wants_transcript,
        _ => false,
    }
}

fn is_list(row: usize, list: &ListOptions<'_, '_>) -> bool {
    match row {
        22 => are(list.folders, "a|b") && list.format == ListFormat::Text,
        23 => are(list.folders, "t") && list.format == ListFormat::Json,
        _ => false,
    }
}

fn is_page(row: usize, page: &PageOptions<'_>) -> bool {
    match row {
        8 => {
            is(page.title, "A & B") && page.match_path.is_none() && page.numbering == Numbering::X
        }
        9 => {
            page.title.is_none() && page.match_path.is_none() && page.numbering == Numbering::Mover
        }
        28 => page.title.is_none() && is(page.match_path, "m") && page.names() == Names::none(),
        33 => page.match_path.is_none() && are_named(page.names(), "Anna", "Otto"),
        _ => false,
    }
}

fn is_recover(row: usize, recover: &RecoverOptions<'_, '_>) -> bool {
    match row {
        20 => {
            are(
                &[recover.match_path, recover.folder, recover.x, recover.o],
                "m|d|x|o",
            ) && is(recover.keys, "k")
                && are(recover.transcripts, "t|-")
        }
        32 => recover.x == " x",
        _ => false,
    }
}

fn is_board(board: &BoardOptions<'_, '_>) -> bool {
    are(board.places, "a|b")
        && are(&[board.out, board.title], "p|Backgammon matches")
        && board.numbering == Numbering::Mover
        && board.is_once
}

/// Whether these are the names of X and O.
fn are_named(names: Names, x: &str, o: &str) -> bool {
    names.x.is_some_and(|name| name.as_str() == x) && names.o.is_some_and(|name| name.as_str() == o)
}
