//! The WebSocket of a peer, after the upgrade: bytes in, bytes out.
ghost use Rattle.std.specs.Prelude.{◌↔◌, ◌≤◌, ◌<◌, IsTrue, length};

use crate::peers::Peer;
use crate::sites::Site;
use crate::stores::Store;
use bg_requests::MOST_MESSAGE;
use bg_world::Keeper;
use bytes::{Buf, BytesMut};
use http_server::Rope;
use std::alloc::Global;
use std::io;
use std::io::{Read, Write};
use websocket::protocol::{FrameStatus, Message, NoMask, Role, WebSocketConfig, WebSocketContext};

/// While more bytes than this wait to be sent to a peer, nothing more is read from it.
pub const MOST_WAITING: usize = 65_536;

/// The most messages of a peer that are handled in one turn, so that other peers get their turns.
const MOST_TAKEN: u32 = 64;

/// The minimum room for a read, in bytes.
const ROOM: usize = 2048;

/// The state of a peer after a step.
#[derive(Clone, Copy, PartialEq, Eq)]
pub enum Step {
    /// There is nothing to do until its WebSocket is ready again.
    Waits,
    /// There may be more to do.
    More,
    /// It is gone, or must be disconnected.
    Gone,
}

/// A WebSocket: the bytes that were read and not handled yet, and those that wait to be sent.
#[derive(Drop)]
pub struct Channel {
    context: WebSocketContext,
    input: BytesMut,
    output: Rope,
    peer: Peer,
}

impl Channel {
    /// Creates the WebSocket of a peer. `input` has the bytes that were already read from it, and
    /// `output` those that wait to be sent.
    pub fn new(alloc: Global, input: BytesMut, output: Rope, peer: Peer) -> Channel {
        let config = WebSocketConfig::default()
            .max_message_size(Some(MOST_MESSAGE))
            .max_frame_size(Some(MOST_MESSAGE));
        Channel {
            context: WebSocketContext::new(alloc, Role::Server, config),
            input,
            output,
            peer,
        }
    }

    /// Returns the peer that has this WebSocket.
    pub fn peer(&self) -> &Peer {
        &self.peer
    }

    /// Returns whether anything waits to be sent.
    pub fn has_output(&self) -> bool
        ensures { IsTrue result ↔ (0 < length self.now.output.items) }
    {
        !self.output.is_empty()
    }

    /// Returns whether to read more from the peer: not while more than 65,536 bytes wait to be
    /// sent.
    pub fn wants_read(&self) -> bool
        ensures { IsTrue result ↔ (length self.now.output.items ≤ MOST_WAITING) }
    {
        self.output.len() <= MOST_WAITING
    }

    /// Reads once, and returns the number of bytes that were read.
    ///
    /// # Errors
    /// The reason why nothing could be read.
    pub fn read_from<R: Read>(&mut self, reader: &mut R) -> io::Result<usize> {
        self.input.reserve(ROOM)?;
        self.input.read_from(reader)
    }

    /// Writes once, and returns the number of bytes that were written.
    ///
    /// # Errors
    /// The reason why nothing could be written.
    pub fn write_to<W: Write>(&mut self, writer: &mut W) -> io::Result<usize> {
        let count = writer.write(self.output.chunk())?;
        self.output.advance(count);
        Ok(count)
    }

    /// Handles the messages that are complete, at most 64 in one call, and queues the answers to
    /// them.
    pub fn take_messages<K, S>(&mut self, site: &mut Site<K, S>) -> Step
    where
        K: Keeper + Drop,
        S: Store<K> + Drop,
    {
        for _ in 0..MOST_TAKEN {
            match self.take_frame(site) {
                Step::More => {}
                step => return step,
            }
        }
        Step::More
    }

    /// Handles a frame, if a complete one has been read.
    fn take_frame<K, S>(&mut self, site: &mut Site<K, S>) -> Step
    where
        K: Keeper + Drop,
        S: Store<K> + Drop,
    {
        if self.input.is_empty() {
            return Step::Waits;
        }
        match self
            .context
            .read(self.input.as_mut_slice(), &mut self.output, &mut NoMask)
        {
            Ok(FrameStatus::Complete(frame)) => {
                let stays = match &frame.message {
                    Some(received) => match received.message(self.input.as_slice()) {
                        Message::Text(text) => {
                            answer_text(site, &mut self.peer, text, &mut self.output)
                        }
                        _ => true,
                    },
                    None => true,
                };
                self.input.advance(frame.consumed);
                if stays { Step::More } else { Step::Gone }
            }
            Ok(FrameStatus::Partial(_)) => Step::Waits,
            Err(_) => Step::Gone,
        }
    }

    /// Queues the next frame that the peer lacks. Returns `Waits` if it lacks none.
    pub fn pull<K, S>(&mut self, site: &mut Site<K, S>) -> Step
    where
        K: Keeper + Drop,
        S: Store<K> + Drop,
    {
        if !self.context.can_write() || !site.may_stay(&self.peer) {
            return Step::Gone;
        }
        match site.next_frame(&mut self.peer) {
            Ok(Some(frame)) => match self.output.push(frame) {
                Ok(()) => Step::More,
                Err(_) => Step::Gone,
            },
            Ok(None) => Step::Waits,
            Err(_) => Step::Gone,
        }
    }

    /// Queues a ping, to learn whether the peer is still there. Returns whether this succeeded.
    pub fn ask(&mut self) -> bool {
        self.context
            .write(Message::Ping(b""), &mut self.output, &mut NoMask)
            .is_ok()
    }
}

/// Queues the answer to a text message. Returns whether the peer may stay.
fn answer_text<K, S>(site: &mut Site<K, S>, peer: &mut Peer, text: &str, output: &mut Rope) -> bool
where
    K: Keeper + Drop,
    S: Store<K> + Drop,
{
    match site.message(peer, text) {
        Ok(reply) => output.push(reply.frame).is_ok() && reply.stays,
        Err(_) => false,
    }
}
