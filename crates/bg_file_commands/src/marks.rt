//! Marks that other programs write in lines, and no line of a transcript has.

use bg_match::Number;
use bg_text::split_line;
use std::io;
use std::io::Read;

/// The bytes that some programs write in front of a text in UTF-8.
pub(crate) const BYTE_ORDER_MARK: &[u8] = b"\xef\xbb\xbf";

/// A mark that other programs write in a line, and no line of a transcript has.
#[derive(Clone, Copy)]
pub(crate) enum Mark {
    ByteOrderMark,
    WideByteOrderMark,
    Comment,
    CarriageReturn,
}

impl Mark {
    /// Returns the words for a mark.
    pub(crate) fn words(self) -> &'static str {
        match self {
            Mark::ByteOrderMark => "byte order mark at the start of the line",
            Mark::WideByteOrderMark => "byte order mark of UTF-16 at the start of the line",
            Mark::Comment => "comment",
            Mark::CarriageReturn => "carriage return at the end of the line",
        }
    }

    /// Returns the first mark of a line, if it has one.
    pub(crate) fn in_line(line: &[u8]) -> Option<Mark> {
        Mark::between(line, line.last().copied())
    }

    /// Returns the first mark of a line that begins with these bytes, and has this last one.
    fn between(front: &[u8], last: Option<u8>) -> Option<Mark> {
        if front.starts_with(BYTE_ORDER_MARK) {
            return Some(Mark::ByteOrderMark);
        }
        match front {
            [0xff, 0xfe, ..] | [0xfe, 0xff, ..] => Some(Mark::WideByteOrderMark),
            [b';' | b'#', ..] => Some(Mark::Comment),
            _ if last == Some(b'\r') => Some(Mark::CarriageReturn),
            _ => None,
        }
    }
}

/// A line that has a mark: its number, from 1, and the mark.
#[derive(Clone, Copy)]
struct Marked {
    line: Number,
    mark: Mark,
}

/// Number of bytes from the start of an input that are kept.
const HEAD_BYTES: usize = 512;

/// A reader that keeps the first bytes, and notes the first line with a mark. A transcript is
/// refused there at the latest.
#[derive(Drop)]
pub(crate) struct Noting<R> {
    reader: R,
    /// The first bytes of the input.
    head: [u8; HEAD_BYTES],
    /// Number of these bytes.
    kept: usize,
    /// The number of the line that is read, from 1.
    line: Number,
    /// The first bytes of that line, as many as a byte order mark has, or fewer.
    front: [u8; 3],
    /// Number of these bytes.
    count: usize,
    /// The last byte of that line so far.
    last: Option<u8>,
    found: Option<Marked>,
}

impl<R> Noting<R> {
    /// Creates a reader that has read nothing yet.
    pub(crate) fn new(reader: R) -> Noting<R> {
        Noting {
            reader,
            head: [0; HEAD_BYTES],
            kept: 0,
            line: 1,
            front: [0; 3],
            count: 0,
            last: None,
            found: None,
        }
    }

    /// Returns the first bytes of the input.
    pub(crate) fn head(&self) -> &[u8] {
        &self.head[..self.kept.min(HEAD_BYTES)]
    }

    /// Returns the mark of a line with this number, if it is the first line with a mark. All of the
    /// line was read.
    pub(crate) fn mark_of(&self, line: Number) -> Option<Mark> {
        match self.found {
            Some(found) if found.line == line => Some(found.mark),
            None if self.line == line => self.mark(),
            _ => None,
        }
    }

    /// Returns the mark of the line that is read.
    fn mark(&self) -> Option<Mark> {
        Mark::between(&self.front[..self.count.min(3)], self.last)
    }

    /// Keeps a byte, if it is one of the first.
    fn keep(&mut self, byte: u8) {
        if self.kept < HEAD_BYTES {
            self.head[self.kept] = byte;
            self.kept += 1;
        }
    }

    /// Notes the next bytes, up to the first line with a mark.
    fn note(&mut self, bytes: &[u8]) {
        let mut rest = bytes;
        for _ in 0..bytes.len() {
            let Some((line, behind)) = split_line(rest) else {
                break;
            };
            self.go_on(line);
            if line.len() < rest.len() {
                self.end_line();
            }
            if self.found.is_some() {
                break;
            }
            rest = behind;
        }
    }

    /// Notes bytes of the line that is read.
    fn go_on(&mut self, bytes: &[u8]) {
        for byte in bytes.iter().take(3) {
            if self.count < 3 {
                self.front[self.count] = *byte;
                self.count += 1;
            }
        }
        if let Some(last) = bytes.last() {
            self.last = Some(*last);
        }
    }

    /// Notes the end of a line.
    fn end_line(&mut self) {
        if let Some(mark) = self.mark() {
            let line = self.line;
            self.found = Some(Marked { line, mark });
        }
        self.line = self.line.saturating_add(1);
        self.count = 0;
        self.last = None;
    }
}

impl<R: Read> Read for Noting<R> {
    fn read(&mut self, buffer: &mut [u8]) -> io::Result<usize> {
        let count = self.reader.read(buffer)?;
        let bytes = &buffer[..count];
        for byte in bytes.iter().take(HEAD_BYTES) {
            self.keep(*byte);
        }
        if self.found.is_none() {
            self.note(bytes);
        }
        Ok(count)
    }
}
