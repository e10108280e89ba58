//! The results of files as rows, for programs.

use crate::headers::Headers;
use crate::inputs::shown;
use crate::marks::Mark;
use bg_reports::{RowForm, check_row, is_read_as_match_file, refused_line};
use bg_text::{Verdict, put_text};
use std::alloc::{AllocError, Global};
use std::io;

/// The line above rows with tabs: the names of the fields, in their order.
pub(crate) const HEADINGS: &[u8] =
    b"file\tkind\tverdict\tline\treason\ttext\tentries\tlength\trules\tx\to\tgame\twinner\tstate\tposition_id\tmatch_id\txgid\tpoints\tmet\tname_x\tname_o\tdate\tevent\tplace\theader_fault\n";

/// Returns the row of a file with these bytes (docs/FORMATS.md, "Checking files"), with its line
/// feed, and whether the file is good.
///
/// # Errors
/// `AllocError` where memory runs out.
pub(crate) fn row_of(
    alloc: Global,
    form: RowForm,
    name: &str,
    bytes: &[u8],
) -> Result<(Vec<u8>, bool), AllocError> {
    let name = content(alloc, form, name)?;
    let (mut row, verdict) = check_row(alloc, form, name.as_str(), bytes)?;
    put_rest(alloc, form, &mut row, name.as_str(), bytes, verdict)?;
    Ok((row, matches!(verdict, Verdict::Fine(_))))
}

/// Appends the fields behind `points`, and the end of the row.
fn put_rest(
    alloc: Global,
    form: RowForm,
    out: &mut Vec<u8>,
    name: &str,
    bytes: &[u8],
    verdict: Verdict,
) -> Result<(), AllocError> {
    if is_read_as_match_file(name, bytes) {
        form.put_unknown(out, "\t")?;
        put_headers(alloc, form, out, &Headers::read(bytes))?;
    } else {
        put_optional(alloc, form, out, "met", met_in(bytes, verdict))?;
        form.put_unknown(out, "\t\t\t\t\t\t")?;
    }
    put_end(form, out)
}

/// Returns the row of a file that can't be read.
///
/// # Errors
/// `AllocError` where memory runs out.
pub(crate) fn unread_row(
    alloc: Global,
    form: RowForm,
    name: &str,
    error: &io::Error,
) -> Result<Vec<u8>, AllocError> {
    let mut row = Vec::new(alloc);
    put_unread(alloc, form, &mut row, name, error)?;
    Ok(row)
}

/// Appends the row of a file that can't be read.
fn put_unread(
    alloc: Global,
    form: RowForm,
    out: &mut Vec<u8>,
    name: &str,
    error: &io::Error,
) -> Result<(), AllocError> {
    form.put_file(alloc, out, content(alloc, form, name)?.as_str())?;
    form.put_unknown(out, "\t")?;
    form.put_words(alloc, out, "verdict", "unread")?;
    form.put_unknown(out, "\t")?;
    let reason = format!(in alloc; "{error}")?;
    put_text_of(alloc, form, out, "reason", reason.as_str())?;
    form.put_unknown(out, "\t\t\t\t\t\t\t\t\t\t\t\t\t\t\t\t\t\t\t\t")?;
    put_end(form, out)
}

/// Returns a text as a row has it: with its unprintable characters escaped where tabs stand between
/// fields.
fn content(alloc: Global, form: RowForm, text: &str) -> Result<String, AllocError> {
    match form {
        RowForm::Tsv => shown(alloc, text),
        RowForm::Json => String::from_str(alloc, text),
    }
}

/// Appends a field with a text that may have unprintable characters.
fn put_text_of(
    alloc: Global,
    form: RowForm,
    out: &mut Vec<u8>,
    name: &str,
    text: &str,
) -> Result<(), AllocError> {
    let text = content(alloc, form, text)?;
    form.put_words(alloc, out, name, text.as_str())
}

/// Appends a field with a text, or with nothing where there is none.
fn put_optional(
    alloc: Global,
    form: RowForm,
    out: &mut Vec<u8>,
    name: &str,
    text: Option<&str>,
) -> Result<(), AllocError> {
    match text {
        Some(text) => put_text_of(alloc, form, out, name, text),
        None => form.put_unknown(out, "\t"),
    }
}

/// Appends the end of a row.
fn put_end(form: RowForm, out: &mut Vec<u8>) -> Result<(), AllocError> {
    match form {
        RowForm::Tsv => put_text(out, "\n"),
        RowForm::Json => put_text(out, "}\n"),
    }
}

/// Appends what a match file says of its match beside the games.
fn put_headers(
    alloc: Global,
    form: RowForm,
    out: &mut Vec<u8>,
    headers: &Headers<'_>,
) -> Result<(), AllocError> {
    let texts = &headers.texts;
    let fields = [
        ("name_x", texts.x),
        ("name_o", texts.o),
        ("date", texts.date),
        ("event", texts.event),
        ("place", texts.place),
    ];
    for (name, text) in fields {
        put_optional(alloc, form, out, name, text)?;
    }
    match headers.fault {
        Some(fault) => {
            let words = format!(in alloc; "{fault}")?;
            form.put_words(alloc, out, "header_fault", words.as_str())
        }
        None => form.put_unknown(out, "\t"),
    }
}

/// Returns what other programs write, and was met in the line of a transcript that is refused.
fn met_in(bytes: &[u8], verdict: Verdict) -> Option<&'static str> {
    match verdict {
        Verdict::Refused(_) => Mark::in_line(refused_line(bytes, verdict)).map(Mark::words),
        _ => None,
    }
}
