//! The headers of a match file: who met, when, where, and at what event.

use crate::marks::BYTE_ORDER_MARK;
use bg_match::Number;
use bg_options::HeaderOptions;
use bg_system::{Name, NameFault};
use bg_text::split_line;
use std::fmt::{Display, Formatter, Write};
use std::{fmt, str};

/// The names that an export writes where it is told none.
const NO_NAMES: (&[u8], &[u8]) = (b"X", b"O");

/// The kind of a header. `Display` names it.
#[derive(Clone, Copy)]
pub(crate) enum Label {
    NameX,
    NameO,
    Date,
    Event,
    Place,
}

impl Display for Label {
    fn fmt<W: Write>(&self, f: &mut Formatter<W>) -> fmt::Result {
        f.write_str(match self {
            Label::NameX => "the name of X",
            Label::NameO => "the name of O",
            Label::Date => "the date",
            Label::Event => "the event",
            Label::Place => "the place",
        })
    }
}

/// The words before a text in a header, and what the text is.
const KEYS: [(&[u8], Label); 7] = [
    (b"player 1", Label::NameX),
    (b"player 2", Label::NameO),
    (b"eventdate", Label::Date),
    (b"date", Label::Date),
    (b"event", Label::Event),
    (b"site", Label::Place),
    (b"place", Label::Place),
];

/// A text that is left out because it is malformed. `Display` says where it stands, and why.
#[derive(Clone, Copy)]
pub(crate) struct HeaderFault {
    line: Number,
    label: Label,
    why: NameFault,
}

impl Display for HeaderFault {
    fn fmt<W: Write>(&self, f: &mut Formatter<W>) -> fmt::Result {
        let why = match self.why {
            NameFault::Length => "has more than 64 bytes, or is not UTF-8",
            NameFault::Character | NameFault::Blank => {
                "has a control character, or one that changes the direction of a text"
            }
        };
        write!(f, "line {}: {} {why}", self.line, self.label)
    }
}

/// What a match file says of its match beside the games. Each text has 1 to 64 bytes, and can be
/// shown as it is.
#[derive(Clone, Copy)]
pub(crate) struct Headers<'a> {
    pub(crate) texts: HeaderOptions<'a>,
    /// The first text that is malformed.
    pub(crate) fault: Option<HeaderFault>,
}

impl<'a> Headers<'a> {
    /// Reads the headers of a match file with these bytes: those before its length, and the names
    /// in front of the scores of the first game. Of two for one thing the first counts.
    pub(crate) fn read(bytes: &'a [u8]) -> Headers<'a> {
        let mut headers = Headers {
            texts: HeaderOptions::default(),
            fault: None,
        };
        let mut rest = bytes.strip_prefix(BYTE_ORDER_MARK).unwrap_or(bytes);
        let mut contents: u8 = 0;
        for number in 1..=Number::MAX {
            let Some((line, behind)) = split_line(rest) else {
                break;
            };
            rest = behind;
            let line = line.trim_ascii();
            if !has_content(line, contents) {
                headers.add_header(number, line);
                continue;
            }
            contents = contents.saturating_add(1);
            if contents == SCORES {
                headers.add_names(number, line);
                break;
            }
        }
        headers
    }

    /// Adds what a line before the games says.
    fn add_header(&mut self, number: Number, line: &'a [u8]) {
        let Some((key, value)) = split_header(line) else {
            return;
        };
        for (known, label) in &KEYS {
            if key.eq_ignore_ascii_case(known) {
                self.add(number, *label, value);
            }
        }
    }

    /// Adds the names that stand before the scores of the first game.
    fn add_names(&mut self, number: Number, line: &'a [u8]) {
        let Some((x, o)) = split_names(line) else {
            return;
        };
        if (x, o) != NO_NAMES {
            self.add(number, Label::NameX, x);
            self.add(number, Label::NameO, o);
        }
    }

    /// Adds a text, unless it is empty, or there is one already.
    fn add(&mut self, line: Number, label: Label, text: &'a [u8]) {
        let text = text.trim_ascii();
        if text.is_empty() || self.place_of(label).is_some() {
            return;
        }
        match clean(text) {
            Ok(text) => *self.place_of(label) = Some(text),
            Err(why) if self.fault.is_none() => {
                self.fault = Some(HeaderFault { line, label, why });
            }
            Err(_) => {}
        }
    }

    /// Returns the place of a text.
    fn place_of(&mut self, label: Label) -> &mut Option<&'a str> {
        match label {
            Label::NameX => &mut self.texts.x,
            Label::NameO => &mut self.texts.o,
            Label::Date => &mut self.texts.date,
            Label::Event => &mut self.texts.event,
            Label::Place => &mut self.texts.place,
        }
    }
}

/// The number of the line with content that has the names, from 1: the length of the match and the
/// number of the game stand before it.
const SCORES: u8 = 3;

/// Returns whether a line without blanks around it has content, behind this number of such lines.
fn has_content(line: &[u8], contents: u8) -> bool {
    match line.first() {
        None | Some(b';') => false,
        Some(b'#' | b'[') => contents > 0,
        Some(_) => true,
    }
}

/// Returns the words and the text of a header, as in `; [Event "TEXT"]`.
fn split_header(line: &[u8]) -> Option<(&[u8], &[u8])> {
    let inner = line.strip_prefix(b";").unwrap_or(line).trim_ascii_start();
    let inner = inner.strip_prefix(b"[")?.strip_suffix(b"]")?;
    let open = inner.iter().position(|byte| *byte == b'"')?;
    let (key, text) = inner.split_at(open);
    let text = text.trim_ascii_end().strip_suffix(b"\"")?;
    Some((key.trim_ascii(), text.strip_prefix(b"\"")?))
}

/// Returns the names in a line with both scores before the first game, as in `Ada : 0   Zoe : 0`.
fn split_names(line: &[u8]) -> Option<(&[u8], &[u8])> {
    let front = before_score(line)?;
    for (colon, byte) in front.iter().enumerate() {
        if *byte == b':' {
            if let Some(behind) = behind_score(&front[colon..]) {
                return Some((front[..colon].trim_ascii(), behind.trim_ascii()));
            }
        }
    }
    None
}

/// Returns what stands before the colon and the score at the end of a line.
fn before_score(line: &[u8]) -> Option<&[u8]> {
    let digits = line.iter().rev().position(|byte| !byte.is_ascii_digit())?;
    let front = &line[..line.len().saturating_sub(digits)];
    front.trim_ascii_end().strip_suffix(b":")
}

/// Returns what follows a colon and the score 0, where a blank stands behind them.
fn behind_score(text: &[u8]) -> Option<&[u8]> {
    let score = text.strip_prefix(b":")?.trim_ascii_start();
    let behind = score.strip_prefix(b"0")?;
    match behind.first() {
        Some(blank) if blank.is_ascii_whitespace() => Some(behind),
        _ => None,
    }
}

/// Returns a text that can be shown as it is.
fn clean(text: &[u8]) -> Result<&str, NameFault> {
    let Ok(text) = str::from_utf8(text) else {
        return Err(NameFault::Length);
    };
    Name::new(text)?;
    Ok(text)
}
