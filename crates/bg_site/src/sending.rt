//! The frames that are sent to a peer.
ghost use Rattle.std.specs.Prelude.{◌≡◌, ℕ, Some};

use crate::files::{Asked, Given};
use crate::frames::frame_of;
use crate::greetings::{greeting_frame, presence_frame};
use crate::peers::Peer;
use crate::sites::Site;
use crate::stores::Store;
use bg_board::Player;
use bg_world::Keeper;
use bytes::Bytes;
use std::alloc::AllocError;

impl<K: Keeper + Drop, S: Store<K> + Drop> Site<K, S> {
    ghost use Rattle.bg_site.specs.Places.{ChangesOnly};

    /// Returns the peer of the connection that the last request upgraded, if it upgraded one. Call
    /// this before another connection is advanced.
    pub fn take_upgraded(&mut self) -> Option<Peer> {
        self.upgraded.take()
    }

    /// Notes that a connection has become a WebSocket.
    pub fn begin_socket(&mut self, peer: &Peer)
        ensures { (place : ℕ) → peer.now.place ≡ Some place
            → ChangesOnly self.old.places.items self.new.places.items place }
    {
        self.addresses.come(peer.address);
        self.come(peer);
    }

    /// Notes that a WebSocket has ended.
    pub fn end_socket(&mut self, peer: &Peer)
        ensures { (place : ℕ) → peer.now.place ≡ Some place
            → ChangesOnly self.old.places.items self.new.places.items place }
    {
        self.addresses.leave(peer.address);
        self.leave(peer);
    }

    /// Notes that a peer has come to its match, if it is connected to one.
    #[tactic(auto, using(crate::proofs::Others::other_stays))]
    pub fn come(&mut self, peer: &Peer)
        ensures { (place : ℕ) → peer.now.place ≡ Some place
            → ChangesOnly self.old.places.items self.new.places.items place }
    {
        if let Some(index) = peer.place {
            if let Some(joined) = self.places.get_mut(index) {
                joined.presence = joined.presence.come(peer.seat);
                joined.comings = joined.comings.saturating_add(1);
                let _ = self.note_news();
            }
        }
    }

    /// Notes that a peer has left its match, if it was connected to one.
    #[tactic(auto, using(crate::proofs::Others::other_stays))]
    pub fn leave(&mut self, peer: &Peer)
        ensures { (place : ℕ) → peer.now.place ≡ Some place
            → ChangesOnly self.old.places.items self.new.places.items place }
    {
        let Some(index) = peer.place else {
            return;
        };
        let Some(left) = self.places.get_mut(index) else {
            return;
        };
        left.presence = left.presence.leave(peer.seat);
        left.comings = left.comings.saturating_add(1);
        let _ = self.note_news();
    }

    /// Returns the next frame that a peer lacks, and notes that the peer has it. Returns `None` if
    /// it lacks none. A state that can't be read now is tried again by the next call.
    ///
    /// # Errors
    /// `AllocError` if memory runs out.
    pub fn next_frame(&mut self, peer: &mut Peer) -> Result<Option<Bytes>, AllocError> {
        let Some(index) = peer.place else {
            return Ok(None);
        };
        let Some(place) = self.places.get(index) else {
            return Ok(None);
        };
        let (version, comings, presence) = (place.version, place.comings, place.presence);
        if !peer.is_greeted {
            peer.is_greeted = true;
            let name = place.name.as_str();
            let digest = place.digest_told();
            let frame = greeting_frame(self.alloc, name, &place.names, peer.seat, digest)?;
            return Ok(Some(frame));
        }
        if peer.version != version {
            if let Some(frame) = self.state_frame(index, peer.seat)? {
                peer.version = version;
                return Ok(Some(frame));
            }
        }
        if peer.comings != comings {
            peer.comings = comings;
            return Ok(Some(presence_frame(self.alloc, presence)?));
        }
        Ok(None)
    }

    /// Returns the frame of the state of a match, for a player or for watchers. Returns `None` if
    /// the match can't be read. The frame is made once for each version.
    fn state_frame(
        &mut self,
        index: usize,
        seat: Option<Player>,
    ) -> Result<Option<Bytes>, AllocError> {
        if self.kept_frame(index, seat).is_none() {
            self.make_frame(index, seat)?;
        }
        match self.kept_frame(index, seat) {
            Some(frame) => Ok(Some(frame.clone()?)),
            None => Ok(None),
        }
    }

    /// Returns the frame of the state of a match, if it has been made.
    fn kept_frame(&self, index: usize, seat: Option<Player>) -> Option<&Bytes> {
        match self.places.get(index) {
            Some(place) => place.frames.of(seat),
            None => None,
        }
    }

    /// Makes the frame of the state of a match, if the match can be read.
    fn make_frame(&mut self, index: usize, seat: Option<Player>) -> Result<(), AllocError> {
        if let Given::Text(text) = self.give(index, Asked::State(seat))? {
            let frame = frame_of(self.alloc, &text)?;
            if let Some(place) = self.places.get_mut(index) {
                place.frames.keep(seat, frame);
            }
        }
        Ok(())
    }
}
