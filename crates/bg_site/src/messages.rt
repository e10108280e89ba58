//! Messages from peers, and the answers to them.
ghost use Rattle.std.specs.Prelude.{◌≡◌, ℕ, None, Some};

use crate::frames::frame_of;
use crate::peers::Peer;
use crate::sites::Site;
use crate::stores::Store;
use bg_board::Player;
use bg_requests::{Message, parse_message};
use bg_states::put_quoted;
use bg_text::{parse_action, put_number, put_text};
use bg_world::Keeper;
use bytes::Bytes;
use std::alloc::{AllocError, Global};

/// The answer to what is no message.
const NO_MESSAGE: &[u8] = b"{\"no\":\"this is no message\"}";

/// The answer if a secret is no seat's, or no longer one's.
const NO_SEAT: &[u8] = b"{\"no\":\"there is no such seat\"}";

/// The answer to a message, and whether the peer may stay.
#[derive(Drop)]
pub struct Reply {
    pub frame: Bytes,
    pub stays: bool,
}

impl Reply {
    /// Returns the reply with this text.
    fn of(alloc: Global, text: &[u8], stays: bool) -> Result<Reply, AllocError> {
        Ok(Reply {
            frame: frame_of(alloc, text)?,
            stays,
        })
    }
}

impl<K: Keeper + Drop, S: Store<K> + Drop> Site<K, S> {
    ghost use Rattle.bg_site.specs.Places.{ChangesOnly, HasSeatBy, HasSeatByGreeting};

    /// Handles a message from a peer, and returns the answer to it.
    ///
    /// # Errors
    /// `AllocError` if memory runs out.
    pub fn message(&mut self, peer: &mut Peer, text: &str) -> Result<Reply, AllocError>
        // A known peer stays as it is. A watcher changes nothing, and a player changes only their
        // own match.
        ensures known { (place : ℕ) → peer.old.place ≡ Some place → peer.new ≡ peer.old }
        ensures watches { (place : ℕ) → peer.old.place ≡ Some place → peer.old.seat ≡ None → self.new ≡ self.old }
        ensures plays { (place : ℕ) → peer.old.place ≡ Some place
            → ChangesOnly self.old.places.items self.new.places.items place }
        // An unknown peer gets the seat of the secret that it sends, or none.
        ensures seat { peer.old.place ≡ None → HasSeatByGreeting self.old.places.items text.now peer.new }
    {
        match parse_message(text) {
            Message::Hello(secret) if !peer.is_known() => self.hello(peer, secret),
            Message::Act(number, words) if peer.is_known() => {
                self.act_by_message(peer, number, words)
            }
            _ => Reply::of(self.alloc, NO_MESSAGE, peer.is_known()),
        }
    }

    /// Gives a peer the seat that has this secret.
    fn hello(&mut self, peer: &mut Peer, secret: &str) -> Result<Reply, AllocError>
        ensures { peer.old.place ≡ None → HasSeatBy self.old.places.items secret.now peer.new }
    {
        let Some((index, player)) = self.by_secret(secret) else {
            return Reply::of(self.alloc, NO_SEAT, false);
        };
        peer.sit(index, player, self.seat_changes_at(index, player));
        self.come(peer);
        Reply::of(self.alloc, b"{\"hello\":true}", true)
    }

    /// Carries out an action of the player whose seat a peer has.
    fn act_by_message(&mut self, peer: &Peer, number: u32, words: &str) -> Result<Reply, AllocError>
        ensures watches { peer.now.seat ≡ None → self.new ≡ self.old }
        ensures plays { (place : ℕ) → peer.now.place ≡ Some place
            → ChangesOnly self.old.places.items self.new.places.items place }
    {
        if !self.may_stay(peer) {
            return Reply::of(self.alloc, NO_SEAT, false);
        }
        let (Some(index), Some(player)) = (peer.place, peer.seat) else {
            return Reply::of(self.alloc, b"{\"no\":\"you watch\"}", true);
        };
        let answer = self.answer_of(index, player, number, words)?;
        Reply::of(self.alloc, &answer, true)
    }

    /// Carries out a player's action, and returns the answer to it.
    pub(crate) fn answer_of(
        &mut self,
        index: usize,
        player: Player,
        number: u32,
        words: &str,
    ) -> Result<Vec<u8>, AllocError>
        ensures { ChangesOnly self.old.places.items self.new.places.items index }
    {
        let mut out = Vec::new(self.alloc);
        put_text(&mut out, "{\"re\":")?;
        put_number(&mut out, number.into())?;
        match parse_action(words.as_bytes()) {
            Ok(action) => {
                let acted = self.act(index, player, number, action.copy());
                self.counts.note(acted);
                self.put_acted(&mut out, index, player, &action, acted)?;
            }
            Err(fault) => {
                put_text(&mut out, ",\"no\":")?;
                put_quoted(&mut out, fault.reason())?;
            }
        }
        put_text(&mut out, "}")?;
        Ok(out)
    }
}
