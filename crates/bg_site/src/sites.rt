//! All matches of a server.
ghost use Rattle.std.specs.Prelude.{◌≡◌, IfSome};
ghost use Rattle.sha2.specs.Sha256.{sha256};

use crate::addresses::Addresses;
use crate::callers::Caller;
use crate::counts::Counts;
use crate::peers::Peer;
use crate::places::{Place, acted_before};
use crate::quiet::Patience;
use crate::repeats::Repeats;
use crate::stores::{Found, Store};
use bg_board::Player;
use bg_hosted::Acted;
use bg_match::{Action, Number};
use bg_requests::{Digest, digest_of};
use bg_world::Keeper;
use std::alloc::Global;

/// The most matches that a server can have, live and finished.
pub const MOST_MATCHES: usize = 10_000;

/// All matches, the store that keeps them, and what is known about the current request.
#[derive(Drop)]
pub struct Site<K, S> {
    pub(crate) alloc: Global,
    pub(crate) store: S,
    pub(crate) places: Vec<Place<K>>,
    /// The number of places whose match has been deleted.
    pub(crate) gone: usize,
    /// The peer of the connection that the last request upgraded.
    pub(crate) upgraded: Option<Peer>,
    /// The client of the connection that the current request came on.
    pub(crate) caller: Caller,
    /// Whether the current request may make a match.
    pub(crate) may_make: bool,
    /// What the clients of each address have open and have made.
    pub(crate) addresses: Addresses,
    /// The answers to requests that have made a match.
    pub(crate) repeats: Repeats,
    /// The current minute, as the host counts minutes, and how long a match without an action stays
    /// live.
    pub(crate) patience: Patience,
    /// The number of changes so far.
    pub(crate) news: u64,
    /// The number of changes when the host last asked.
    asked: u64,
    /// The counters.
    pub(crate) counts: Counts,
    /// The lines of requests that the host has not taken yet; `None` if no log is kept.
    pub(crate) log: Option<String>,
}

impl<K: Keeper + Drop, S: Store<K> + Drop> Site<K, S> {
    ghost use Rattle.bg_site.specs.Places.{ChangesOnly, HasSeatAt};

    /// Creates a site without matches.
    pub fn new(alloc: Global, store: S) -> Site<K, S> {
        Site {
            alloc,
            store,
            places: Vec::new(alloc),
            gone: 0,
            upgraded: None,
            caller: Caller::UNKNOWN,
            may_make: true,
            addresses: Addresses::none(alloc),
            repeats: Repeats::none(alloc),
            patience: Patience { now: 0, idle: 0 },
            news: 1,
            asked: 1,
            counts: Counts::NONE,
            log: None,
        }
    }

    /// Adds a match. Returns whether there was room and memory for it.
    pub fn open(&mut self, found: Found<K>) -> bool {
        if self.len() >= MOST_MATCHES {
            return false;
        }
        let news = self.note_news();
        match Place::open(self.alloc, found, news, self.patience.now) {
            Some(place) => self.places.push(place).is_ok(),
            None => false,
        }
    }

    /// Adds a match that a request has made. Returns whether there was room and memory for it.
    pub(crate) fn open_made(&mut self, found: Found<K>) -> bool {
        let is_open = self.open(found);
        if is_open {
            self.counts.made = self.counts.made.saturating_add(1);
        }
        is_open
    }

    /// Returns the store of the matches.
    pub fn store(&self) -> &S {
        &self.store
    }

    /// Returns the number of matches.
    pub fn len(&self) -> usize {
        self.places.len().saturating_sub(self.gone)
    }

    /// Returns whether there are no matches.
    pub fn is_empty(&self) -> bool {
        self.len() == 0
    }

    /// Sets whether the requests that are handed in next may make matches.
    pub fn allow_making(&mut self, may_make: bool) {
        self.may_make = may_make;
    }

    /// Sets the current minute, counted from the start of the server. The matches that an address
    /// makes are counted for each minute.
    pub fn begin_minute(&mut self, minute: u64) {
        self.patience.now = minute;
        self.addresses.begin_minute(minute);
    }

    /// Returns the number of matches made by requests.
    pub fn made(&self) -> u64 {
        self.counts.made
    }

    /// Returns the number of matches that have ended while they were served.
    pub fn ended(&self) -> u64 {
        self.counts.ended
    }

    /// Sets the current number of connections.
    pub fn note_connections(&mut self, count: u64) {
        self.counts.connections = count;
    }

    /// Returns whether anything has changed since the last call.
    pub fn has_news(&mut self) -> bool {
        let has_news = self.news != self.asked;
        self.asked = self.news;
        has_news
    }

    /// Counts a change, and returns the number of changes so far.
    pub(crate) fn note_news(&mut self) -> u64
        ensures { self.new.places ≡ self.old.places }
    {
        self.news = self.news.saturating_add(1);
        self.news
    }

    /// Returns the index of the match with this name, unless it has been deleted.
    pub(crate) fn by_name(&self, name: &str) -> Option<usize> {
        for index in 0..self.places.len() {
            if self.is_named_at(index, name) {
                return Some(index);
            }
        }
        None
    }

    /// Returns whether the match at an index has this name, and has not been deleted.
    fn is_named_at(&self, index: usize, name: &str) -> bool {
        match self.places.get(index) {
            Some(place) => place.is_named(name),
            None => false,
        }
    }

    /// Returns the index of the match, and the player, whose seat has this secret. Every match is
    /// compared, so that the time taken reveals nothing.
    pub(crate) fn by_secret(&self, secret: &str) -> Option<(usize, Player)>
        ensures { IfSome result (λ seat. HasSeatAt self.now.places.items (sha256 secret.now) seat.0 seat.1) }
    {
        let digest = digest_of(secret);
        let mut found = None;
        for index in 0..self.places.len() {
            if let Some(player) = self.player_at(index, &digest) {
                found = Some((index, player));
            }
        }
        found
    }

    /// Returns the player whose seat, in the match at this index, has a secret with this digest.
    fn player_at(&self, index: usize, digest: &Digest) -> Option<Player>
        ensures { IfSome result (λ player. HasSeatAt self.now.places.items digest.now index player) }
    {
        match self.places.get(index) {
            Some(place) => place.player_of(digest),
            None => None,
        }
    }

    /// Returns how often the link of a player's seat, in the match at this index, has been
    /// replaced.
    pub(crate) fn seat_changes_at(&self, index: usize, player: Player) -> u64 {
        match self.places.get(index) {
            Some(place) => place.seat_changes_of(player),
            None => 0,
        }
    }

    /// Carries out a player's action in the match at this index.
    #[tactic(auto, using(crate::proofs::Others::other_stays))]
    pub(crate) fn act(
        &mut self,
        index: usize,
        player: Player,
        number: Number,
        action: Action,
    ) -> Acted
        ensures { ChangesOnly self.old.places.items self.new.places.items index }
    {
        let (news, minute) = (self.news.saturating_add(1), self.patience.now);
        let Some(place) = self.places.get_mut(index) else {
            return Acted::Failed;
        };
        if !place.is_live() {
            return match self.store.load(place.name.as_str()) {
                Some(record) => acted_before(&record, player, number, &action),
                None => Acted::Failed,
            };
        }
        if self.store.is_full(place.name.as_str()) {
            return place.acted_when_full(player, number, &action);
        }
        let acted = place.act(player, number, action);
        if place.refresh() {
            place.note_action(news, minute);
            self.news = news;
            if !place.is_live() {
                self.counts.note_end();
            }
        }
        acted
    }
}
