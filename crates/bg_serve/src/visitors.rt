//! Clients that connect while the server can't save. They are told so, and disconnected.

use crate::crowds::Crowd;
use crate::exchanges::{Refusal, new_connection, read_http, write_http};
use http::StatusCode;
use http_server::Connection;
use mio::net::TcpStream;
use std::hash::RandomState;
use std::io;

/// The most visitors at once. Others wait to be accepted.
const MOST_VISITORS: usize = 64;

/// The number of looks after which a visitor is closed.
const MOST_LOOKS: u32 = 20;

/// The body of the response to a visitor.
const NOT_NOW: &str = "nothing can be saved at the moment: try again later\n";

/// A connection that was accepted while the server waits to save.
#[derive(Drop)]
pub(crate) struct Visitor {
    stream: TcpStream,
    connection: Box<Connection>,
    /// The number of looks so far; `MOST_LOOKS` once the visitor is to be closed.
    looks: u32,
}

impl Visitor {
    /// Reads requests and answers them. Notes when the visitor is to be closed.
    fn look(&mut self) {
        self.looks = self.looks.saturating_add(1);
        let is_there = read_http(&mut self.connection, &mut self.stream).is_some();
        let mut refusal = Refusal {
            status: StatusCode::SERVICE_UNAVAILABLE,
            why: NOT_NOW,
        };
        self.connection.advance(&mut refusal);
        let told = write_http(&mut self.connection, &mut self.stream);
        let is_told = told == Some(true) && !self.connection.wants_write();
        if !is_there || told.is_none() || is_told {
            self.looks = MOST_LOOKS;
        }
    }
}

impl<'a> Crowd<'a> {
    /// Tells clients that connect that nothing can be saved now. This is called repeatedly while
    /// that is so.
    pub(crate) fn turn_away(&mut self) {
        for _ in 0..MOST_VISITORS {
            if self.visitors.len() >= MOST_VISITORS {
                break;
            }
            let Ok((stream, _)) = self.sockets.listener.accept() else {
                break;
            };
            let _ = self.visit(stream);
        }
        for visitor in self.visitors.iter_mut() {
            visitor.look();
        }
        self.visitors.retain(|visitor| visitor.looks < MOST_LOOKS);
    }

    /// Adds a visitor.
    fn visit(&mut self, stream: TcpStream) -> io::Result<()> {
        let keys = RandomState::new(self.rt)?;
        self.visitors.push(Visitor {
            stream,
            connection: new_connection(self.rt.alloc(), keys)?,
            looks: 0,
        })?;
        Ok(())
    }

    /// Closes all visitors, which will connect again, and resumes accepting connections.
    pub(crate) fn welcome(&mut self) {
        self.visitors.clear();
        self.is_accepting = true;
    }
}
