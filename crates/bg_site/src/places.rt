//! A match of the server.
ghost use Rattle.std.specs.Prelude.{◌≡◌, ◌↔◌, ◌⊎◌, IsSome, IsTrue, None, option_copied};

mod playing;

use crate::frames::Frames;
use crate::operating::{Changed, SeatChanges};
use crate::peers::Peer;
use crate::presences::Presence;
use crate::quiet::Quiet;
use crate::stores::{Found, MatchName};
use crate::summaries::Summary;
use bg_board::Player;
use bg_dice::Secret;
use bg_hosted::HostedMatch;
use bg_match::{Record, Terms};
use bg_requests::{Digest, Seats};
use bg_system::Names;
use bg_world::Keeper;
pub(crate) use playing::acted_before;
use std::alloc::Global;

/// A match of the server.
#[derive(Drop)]
pub(crate) struct Place<K> {
    pub(crate) name: MatchName,
    pub(crate) names: Names,
    pub(crate) terms: Terms,
    seats: Option<Seats>,
    /// The secret from which its dice are made, and its SHA-256, if that was published before the
    /// first roll.
    key: Secret,
    digest: Option<Digest>,
    /// The match in progress; `None` once it has ended, when its record is read from the store.
    hosted: Option<HostedMatch<K>>,
    pub(crate) summary: Summary,
    pub(crate) presence: Presence,
    /// How long nobody has acted.
    pub(crate) quiet: Quiet,
    seat_changes: SeatChanges,
    /// Whether lists leave the match out.
    pub(crate) is_hidden: bool,
    /// Whether the operator has deleted it. It keeps its index, because peers refer to matches by
    /// index.
    pub(crate) is_gone: bool,
    /// Counts how often something became visible, from 1.
    pub(crate) version: u64,
    /// Counts how often a peer came or left, from 1.
    pub(crate) comings: u64,
    /// The number of its latest change, among the changes of all matches.
    pub(crate) news: u64,
    /// The frames of this version that have been asked for so far.
    pub(crate) frames: Frames,
}

impl<K: Keeper + Drop> Place<K> {
    ghost use Rattle.bg_site.specs.Places.{player_in, secret_in, told_in};

    /// Opens a match, which continues from what its keepers have. Returns `None` if it can't begin,
    /// for instance for lack of memory.
    pub(crate) fn open(alloc: Global, found: Found<K>, news: u64, now: u64) -> Option<Place<K>> {
        let Found {
            name,
            names,
            id,
            terms,
            seats,
            key,
            digest,
            keepers,
            is_hidden,
            quiet_minutes,
        } = found;
        let Ok(hosted) = HostedMatch::begin(alloc, id, terms, key, keepers) else {
            return None;
        };
        let mut place = Place {
            name,
            names,
            terms,
            seats,
            key,
            digest,
            hosted: Some(hosted),
            summary: Summary::NONE,
            presence: Presence::NOBODY,
            quiet: Quiet::for_minutes(quiet_minutes, now),
            seat_changes: SeatChanges::NONE,
            is_hidden,
            is_gone: false,
            version: 1,
            comings: 1,
            news,
            frames: Frames::none(),
        };
        let _ = place.refresh();
        Some(place)
    }

    /// Returns whether the match has this name, and has not been deleted.
    pub(crate) fn is_named(&self, name: &str) -> bool {
        self.name.as_str() == name && !self.is_gone
    }

    /// Notes that somebody has acted in this minute, which is the change of this number among those
    /// of all matches.
    pub(crate) fn note_action(&mut self, news: u64, minute: u64) {
        self.news = news;
        self.quiet = Quiet::broken(minute);
    }

    /// Applies an operator's change.
    pub(crate) fn change(&mut self, changed: Changed)
        ensures { self.new.seats ≡ changed.seats }
    {
        self.seat_changes.note(&self.seats, &changed.seats);
        self.seats = changed.seats;
        self.names = changed.names;
        self.is_hidden = changed.is_hidden;
    }

    /// Applies what other servers have done in the match: it continues from what its keepers have
    /// now, and its peers are sent its state again. Returns false if there is no memory for that;
    /// then nothing changes.
    pub(crate) fn replace(&mut self, alloc: Global, found: Found<K>) -> bool
        ensures taken { IsTrue result → self.new.seats ≡ found.seats }
        ensures kept { IsTrue result ⊎ (self.new ≡ self.old) }
    {
        let Found {
            names,
            id,
            terms,
            seats,
            key,
            digest,
            keepers,
            is_hidden,
            ..
        } = found;
        let Ok(hosted) = HostedMatch::begin(alloc, id, terms, key, keepers) else {
            return false;
        };
        self.change(Changed {
            names,
            seats,
            is_hidden,
        });
        self.terms = terms;
        self.key = key;
        self.digest = digest;
        self.hosted = Some(hosted);
        self.show_anew();
        true
    }

    /// Updates all that is shown of the match, and begins a new version, so that peers are sent its
    /// state again.
    fn show_anew(&mut self)
        ensures { self.new.seats ≡ self.old.seats }
    {
        self.summary = Summary::NONE;
        let _ = self.refresh();
        self.version = self.version.saturating_add(1);
        self.frames = Frames::none();
    }

    /// Removes the match, which the operator has deleted. Nobody has a seat in it any more.
    pub(crate) fn remove(&mut self)
        ensures { self.new.seats ≡ None }
    {
        self.is_gone = true;
        self.seats = None;
        self.hosted = None;
        self.key = [0; 32];
        self.digest = None;
        self.names = Names::none();
    }

    /// Returns how often the link of a player's seat has been replaced.
    pub(crate) fn seat_changes_of(&self, player: Player) -> u64 {
        match player {
            Player::X => self.seat_changes.x,
            Player::O => self.seat_changes.o,
        }
    }

    /// Returns whether a peer of the match may stay: the match is not deleted, and the peer's seat,
    /// if it has one, still has the same link.
    pub(crate) fn has_room_for(&self, peer: &Peer) -> bool {
        let has_seat = match peer.seat {
            Some(player) => peer.seat_changes == self.seat_changes_of(player),
            None => true,
        };
        has_seat && !self.is_gone
    }

    /// Returns the player whose seat has a secret with this digest.
    pub(crate) fn player_of(&self, digest: &Digest) -> Option<Player>
        ensures { result ≡ player_in self.now.seats digest.now }
    {
        match &self.seats {
            Some(seats) => seats.player_of(digest),
            None => None,
        }
    }

    /// Returns the SHA-256 of the secret of its dice, if that was published before the first roll.
    pub(crate) fn digest_told(&self) -> &Option<Digest>
        ensures { result.now ≡ self.now.digest }
    {
        &self.digest
    }

    /// Returns the secret of its dice once the match has ended. Before that, nobody is told it.
    pub(crate) fn secret(&self) -> Option<&Secret>
        ensures { option_copied result ≡ secret_in self.now }
    {
        match self.hosted {
            None => Some(&self.key),
            Some(_) => None,
        }
    }

    /// Returns the record that everybody may see, while the match is in progress.
    pub(crate) fn held(&self) -> Option<&Record>
        ensures { option_copied result ≡ told_in K.Keeper self.now.hosted }
    {
        match &self.hosted {
            Some(hosted) => hosted.shown(),
            None => None,
        }
    }

    /// Returns whether the match is in progress.
    pub(crate) fn is_live(&self) -> bool
        ensures { IsTrue result ↔ IsSome self.now.hosted }
    {
        self.hosted.is_some()
    }
}
