//! Texts as WebSocket frames.

use bg_board::Player;
use bytes::{Bytes, BytesMut};
use std::alloc::{AllocError, Global};
use websocket::protocol::{Message, NoMask, Role, WebSocketConfig, WebSocketContext};

/// The frames of the state of a match that have been made so far: for watchers, for X and for O.
#[derive(Drop)]
pub(crate) struct Frames {
    watching: Option<Bytes>,
    x: Option<Bytes>,
    o: Option<Bytes>,
}

impl Frames {
    /// Returns an empty set of frames.
    pub(crate) fn none() -> Frames {
        Frames {
            watching: None,
            x: None,
            o: None,
        }
    }

    /// Returns the frame for peers with this seat, or for watchers, if it has been made.
    pub(crate) fn of(&self, seat: Option<Player>) -> Option<&Bytes> {
        match seat {
            None => self.watching.as_ref(),
            Some(Player::X) => self.x.as_ref(),
            Some(Player::O) => self.o.as_ref(),
        }
    }

    /// Keeps the frame for peers with this seat, or for watchers.
    pub(crate) fn keep(&mut self, seat: Option<Player>, frame: Bytes) {
        match seat {
            None => self.watching = Some(frame),
            Some(Player::X) => self.x = Some(frame),
            Some(Player::O) => self.o = Some(frame),
        }
    }
}

/// Returns a text message of a server as a frame. The bytes are the same for every peer, since a
/// server doesn't mask its frames.
///
/// # Errors
/// `AllocError` if memory runs out, or if the text isn't UTF-8.
pub(crate) fn frame_of(alloc: Global, text: &[u8]) -> Result<Bytes, AllocError> {
    let Ok(text) = str::from_utf8(text) else {
        return Err(AllocError);
    };
    let mut out = BytesMut::new(alloc);
    let mut writer = WebSocketContext::new(alloc, Role::Server, WebSocketConfig::default());
    if writer
        .write(Message::Text(text), &mut out, &mut NoMask)
        .is_err()
    {
        return Err(AllocError);
    }
    match out.freeze() {
        Ok(bytes) => Ok(bytes),
        Err(_) => Err(AllocError),
    }
}
