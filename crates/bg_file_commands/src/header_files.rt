//! Files that keep what stands above a match, beside its transcript.

use crate::header_texts::put_headers;
use crate::headers::Headers;
use bg_console::{allocated, say};
use bg_match::Number;
use bg_options::HeaderOptions;
use bg_reports::Ending;
use bg_system::{Name, Printable};
use bg_text::split_line;
use std::str;

/// Returns the lines of the file that keeps what a match file with these bytes says above its
/// match; none where it says nothing. Reports the first text that is malformed, behind the name of
/// the match file if it has one.
pub(crate) fn header_lines(rt: &HostRuntime, name: &str, bytes: &[u8]) -> Result<Vec<u8>, Ending> {
    let headers = Headers::read(bytes);
    if let Some(fault) = headers.fault {
        let (name, colon) = (Printable(name), if name.is_empty() { "" } else { ": " });
        say(rt, format_args!("{name}{colon}{fault}: it is left out"));
    }
    let mut text = Vec::new(rt.alloc());
    allocated(rt, put_headers(&mut text, &headers.texts))?;
    Ok(text)
}

/// Reads the lines of a file that `import` wrote. Of two for one thing the last counts.
///
/// # Errors
/// The number of the first line that is none of these, from 1.
pub(crate) fn read_headers(bytes: &[u8]) -> Result<HeaderOptions<'_>, Number> {
    let mut headers = HeaderOptions::default();
    let mut rest = bytes;
    for number in 1..=Number::MAX {
        let Some((line, behind)) = split_line(rest) else {
            break;
        };
        rest = behind;
        if !add(&mut headers, line) {
            return Err(number);
        }
    }
    Ok(headers)
}

/// Adds what a line says. Returns whether it says anything.
fn add<'a>(headers: &mut HeaderOptions<'a>, line: &'a [u8]) -> bool {
    let Some((key, text)) = parts_of(line) else {
        return false;
    };
    let place = match key {
        // A match file takes a line that begins with a semicolon for a comment.
        "name-x" if text.starts_with(';') => return false,
        "name-x" => &mut headers.x,
        "name-o" => &mut headers.o,
        "date" => &mut headers.date,
        "event" => &mut headers.event,
        "place" => &mut headers.place,
        _ => return false,
    };
    *place = Some(text);
    true
}

/// Returns the first word of a line, and the text behind it, if that can be shown as it is.
fn parts_of(line: &[u8]) -> Option<(&str, &str)> {
    let (key, text) = str::from_utf8(line).ok()?.split_once(' ')?;
    Name::new(text).ok()?;
    Some((key, text))
}
