//! Requests to a member, and its answers, over a connection of the caller.

use crate::faults::Fault;
use crate::limits::MOST_ANSWER;
use bytes::{Buf, BytesMut};
use http1::{BodySize, Client, Event, Header, Limits};
use httparse::spans::EMPTY_HEADER_SPAN;
use std::alloc::Global;
use std::io;
use std::io::{ErrorKind, Read, Write};

/// The most header fields of an answer.
const MOST_FIELDS: usize = 64;

/// The most bytes that one call reads.
const MOST_READ: usize = 16_384;

/// A connection to a member: one request at a time, and its answer.
#[derive(Drop)]
pub struct Exchange {
    alloc: Global,
    client: Client,
    output: BytesMut,
    input: BytesMut,
    /// The status of the answer; 0 until its head has come.
    status: u16,
    body: Vec<u8>,
    is_whole: bool,
}

impl Exchange {
    /// Returns the exchange for a new connection.
    pub fn new(alloc: Global) -> Exchange {
        Exchange {
            alloc,
            client: Client::new(Limits::default()),
            output: BytesMut::new(alloc),
            input: BytesMut::new(alloc),
            status: 0,
            body: Vec::new(alloc),
            is_whole: false,
        }
    }

    /// Begins a request to a member, which is at `host`, by posting a text to a path.
    ///
    /// # Errors
    /// `Memory` if memory runs out; `Unreadable` if the previous answer is incomplete, or the host
    /// can't be named in a request.
    pub fn ask(&mut self, host: &str, path: &str, text: &str) -> Result<(), Fault> {
        let headers = [
            Header {
                name: b"host",
                value: host.as_bytes(),
            },
            Header {
                name: b"content-type",
                value: b"application/json",
            },
        ];
        self.status = 0;
        self.body.clear();
        self.is_whole = false;
        let size = BodySize::Known(text.len() as u64);
        let (client, output) = (&mut self.client, &mut self.output);
        client.write_request(output, b"POST", path.as_bytes(), &headers, size)?;
        client.write_data(output, text.as_bytes())?;
        client.write_end(output, &[])?;
        Ok(())
    }

    /// Returns whether something waits to be sent.
    pub fn wants_write(&self) -> bool {
        !self.output.is_empty()
    }

    /// Writes once what waits to be sent; returns the number of bytes written.
    ///
    /// # Errors
    /// The reason why nothing can be sent.
    pub fn write_to<W: Write>(&mut self, writer: &mut W) -> io::Result<usize> {
        let count = writer.write(self.output.as_slice())?;
        self.output.advance(count.min(self.output.len()));
        Ok(count)
    }

    /// Reads once; returns the number of bytes read, which is 0 if the member has closed its side.
    ///
    /// # Errors
    /// `Away` if nothing can be read, or the member closed within an answer; `Unreadable` if what
    /// came isn't an answer, or is longer than `MOST_ANSWER`; `Memory` if memory runs out.
    pub fn read_from<R: Read>(&mut self, reader: &mut R) -> Result<usize, Fault> {
        let mut buffer = [0u8; MOST_READ];
        let count = reader.read(&mut buffer)?;
        if count == 0 {
            self.client.read_eof()?;
            return Ok(0);
        }
        self.input
            .extend_from_slice(&buffer[..count.min(MOST_READ)])?;
        for _ in 0..u64::MAX {
            if !self.step()? {
                break;
            }
        }
        Ok(count)
    }

    /// Parses the next part of what came; returns whether there may be more.
    fn step(&mut self) -> Result<bool, Fault> {
        let mut fields = [EMPTY_HEADER_SPAN; MOST_FIELDS];
        let read = self.client.read(self.input.as_slice(), &mut fields)?;
        let goes_on = match read.event {
            Event::Head(head) => {
                self.status = head.code;
                true
            }
            Event::Informational(_) => true,
            Event::Data(span) => {
                if self.body.len() >= MOST_ANSWER {
                    return Err(Fault::Unreadable);
                }
                let piece = span.of(self.input.as_slice());
                self.body.extend_from_slice(piece)?;
                true
            }
            Event::End(_) => {
                self.is_whole = true;
                false
            }
            Event::NeedMore | Event::Paused | Event::Upgraded | Event::Closed => false,
        };
        self.input.advance(read.consumed);
        Ok(goes_on)
    }

    /// Returns the status and the body of the answer, once it is whole.
    pub fn answer(&self) -> Option<(u16, &[u8])> {
        if self.is_whole {
            Some((self.status, self.body.as_slice()))
        } else {
            None
        }
    }

    /// Returns whether another request can be sent on this connection.
    pub fn is_idle(&self) -> bool {
        self.client.is_idle() && self.output.is_empty()
    }

    /// Takes the next line of an answer that never ends, which is that of a watch; `None` until a
    /// whole line has come.
    ///
    /// # Errors
    /// `Refused` if the answer is an error; `Memory` if memory runs out.
    pub fn take_line(&mut self) -> Result<Option<Vec<u8>>, Fault> {
        if self.status != 0 && self.status != 200 {
            return Err(Fault::Refused(self.status, String::new(self.alloc)));
        }
        let Some(end) = self.body.iter().position(|byte| *byte == b'\n') else {
            return Ok(None);
        };
        let line = self.body[..end].to_vec(self.alloc)?;
        self.body.drain(..end + 1);
        Ok(Some(line))
    }

    /// Fails if a member has ended an answer that is never to end.
    ///
    /// # Errors
    /// `Away` if it has.
    pub fn check_goes_on(&self) -> Result<(), Fault> {
        if self.is_whole {
            return Err(Fault::Away(ErrorKind::UnexpectedEof));
        }
        Ok(())
    }
}
