//! A match between parties that run each in a process of its own: processes end at random, and
//! begin again.
use crate::across::hosts::Host;
use crate::checks::{check, check_party};
use crate::fronts::is_front;
use bg_auto::auto_action;
use bg_board::Player;
use bg_examples::lone::followers::{LoneSeat, LoneWatcher};
use bg_examples::lone::referee::LoneReferee;
use bg_examples::post_link::PostLink;
use bg_match::{Action, Actor, Number, Record, Rules, Terms};
use bg_text::{Verdict, judge_text, transcript_text};
use bg_wire::{Datagram, FIRST_WATCHER, REFEREE, SEAT_OF_O, SEAT_OF_X, party_of};
use rand_chacha::ChaCha20Rng;
use rand_core::SeedableRng;
use rand_core::utils::NextWord;
use std::collections::VecDeque;
use std::process::Abort;

pub(crate) const MATCH: u64 = 1;

/// More rounds than a match takes.
const MOST_ROUNDS: u32 = 20_000;

/// The parties of a match while they run, each in a box, as one call drops what lies there; and a
/// network between them that loses datagrams.
#[derive(Drop)]
pub(crate) struct Table<'a, R> {
    rt: &'a R,
    host: &'a HostRuntime,
    folder: &'a str,
    terms: Terms,
    chances: ChaCha20Rng,
    /// How many processes of the referee have begun.
    begun: u8,
    referee: Option<Box<LoneReferee<'a, HostRuntime>>>,
    x: Seat<'a>,
    o: Seat<'a>,
    watcher: Option<Box<LoneWatcher>>,
}

/// What the automatic player of a seat does now.
fn action_of(rt: &impl Host, seat: &LoneSeat<'_, HostRuntime>, player: Player) -> Option<Action> {
    auto_action(rt.alloc(), seat.held()?, player).expect(rt, "memory")
}

/// A turn of a seat that plays by itself.
fn play_seat(rt: &impl Host, seat: &mut LoneSeat<'_, HostRuntime>, player: Player) {
    if let Some(action) = action_of(rt, seat, player) {
        seat.choose(action);
    }
    seat.turn().expect(rt, "a turn");
}

type Seat<'a> = Option<Box<LoneSeat<'a, HostRuntime>>>;

/// The link of a seat that runs.
fn link_of<'b>(seat: &'b mut Seat<'_>) -> Option<&'b mut PostLink> {
    match seat {
        Some(seat) => Some(&mut seat.link),
        None => None,
    }
}

/// The record of a seat that runs.
fn held_by<'b>(seat: &'b Seat<'_>) -> Option<&'b Record> {
    match seat {
        Some(seat) => seat.held(),
        None => None,
    }
}

/// A value in a box.
fn boxed<T: Drop>(rt: &(impl AllocGlobal + Abort), value: T) -> Box<T> {
    Box::new(rt.alloc(), value).expect(rt, "memory")
}

/// The transcript is good.
fn check_good(rt: &impl Host, record: &Record) {
    let text = transcript_text(rt.alloc(), record).expect(rt, "memory");
    let judged = judge_text(rt.alloc(), &text).expect(rt, "memory");
    check(
        rt,
        "a good transcript",
        judged.verdict == Verdict::Fine(record.len()),
    );
}

impl<'a, R: Host> Table<'a, R> {
    pub(crate) fn new(rt: &'a R, folder: &'a str, rules: Rules) -> Table<'a, R> {
        Table {
            rt,
            host: rt.host(),
            folder,
            terms: Terms { length: 1, rules },
            chances: ChaCha20Rng::from_seed([0; 32]),
            begun: 0,
            referee: None,
            x: None,
            o: None,
            watcher: None,
        }
    }

    fn begin_referee(&mut self) {
        self.begun = self.begun.wrapping_add(1);
        let words = ChaCha20Rng::from_seed([self.begun; 32]);
        let referee = LoneReferee::begin(self.host, self.folder, MATCH, self.terms, words);
        self.referee = Some(boxed(self.rt, referee.expect(self.rt, "a referee")));
    }

    /// A turn of the referee, which begins first where it does not run.
    fn referee_turn(&mut self) {
        if self.referee.is_none() {
            self.begin_referee();
        }
        if let Some(referee) = &mut self.referee {
            referee.turn().expect(self.rt, "a turn");
        }
        self.carry(REFEREE);
    }

    fn seat(&mut self, player: Player) -> &mut Seat<'a> {
        match player {
            Player::X => &mut self.x,
            Player::O => &mut self.o,
        }
    }

    fn begin_seat(&mut self, player: Player) {
        let seat = LoneSeat::begin(self.host, self.folder, player, MATCH, self.terms);
        let seat = boxed(self.rt, seat.expect(self.rt, "a seat"));
        *self.seat(player) = Some(seat);
    }

    /// A turn of a seat that plays by itself, and begins first where it does not run.
    fn seat_turn(&mut self, player: Player) {
        let rt = self.rt;
        if self.seat(player).is_none() {
            self.begin_seat(player);
        }
        if let Some(seat) = self.seat(player) {
            play_seat(rt, seat, player);
        }
        self.carry(party_of(player));
    }

    fn begin_watcher(&mut self) {
        let watcher = LoneWatcher::begin(self.rt.alloc(), FIRST_WATCHER, MATCH, self.terms);
        self.watcher = Some(boxed(self.rt, watcher.expect(self.rt, "a watcher")));
    }

    /// A turn of the watcher, who begins first where he does not run.
    fn watcher_turn(&mut self) {
        if self.watcher.is_none() {
            self.begin_watcher();
        }
        if let Some(watcher) = &mut self.watcher {
            watcher.turn();
        }
        self.carry(FIRST_WATCHER);
    }

    /// The link of a party that runs.
    fn link(&mut self, party: u8) -> Option<&mut PostLink> {
        match party {
            REFEREE => match &mut self.referee {
                Some(referee) => Some(&mut referee.link),
                None => None,
            },
            SEAT_OF_X => link_of(&mut self.x),
            SEAT_OF_O => link_of(&mut self.o),
            FIRST_WATCHER => match &mut self.watcher {
                Some(watcher) => Some(&mut watcher.link),
                None => None,
            },
            _ => None,
        }
    }

    /// What a party that runs has sent.
    fn sent(&mut self, party: u8) -> VecDeque<Datagram> {
        let rt = self.rt;
        self.link(party).expect(rt, "the party runs").outgoing()
    }

    /// Carries what a party has sent to the parties that run; one datagram in eight is lost.
    fn carry(&mut self, party: u8) {
        for datagram in &self.sent(party) {
            if self.chances.next_word() % 8 > 0 {
                self.hand_over(datagram);
            }
        }
    }

    fn hand_over(&mut self, datagram: &Datagram) {
        if let Some(link) = self.link(datagram.to) {
            link.receive(datagram.bytes.bytes.as_slice());
        }
    }

    /// Ends a process now and then.
    fn end_one(&mut self) {
        match self.chances.next_word() % 64 {
            0 => self.referee = None,
            1 => self.x = None,
            2 => self.o = None,
            3 => self.watcher = None,
            _ => {}
        }
    }

    /// The record of a party that runs.
    fn held(&self, party: u8) -> Option<&Record> {
        match party {
            REFEREE => match &self.referee {
                Some(referee) => referee.held(),
                None => None,
            },
            SEAT_OF_X => held_by(&self.x),
            SEAT_OF_O => held_by(&self.o),
            _ => match &self.watcher {
                Some(watcher) => Some(watcher.held()),
                None => None,
            },
        }
    }

    /// Whether a party holds the end of the match.
    fn holds_end(&self, party: u8) -> bool {
        match self.held(party) {
            Some(record) => record.actor() == Actor::Nobody,
            None => false,
        }
    }

    fn is_over(&self) -> bool {
        let mut is_over = true;
        for party in REFEREE..=FIRST_WATCHER {
            is_over &= self.holds_end(party);
        }
        is_over
    }

    /// Whether what a party holds that runs is a front of the whole.
    fn holds_front(&self, party: u8, whole: &Record) -> bool {
        match self.held(party) {
            Some(record) => is_front(record, whole),
            None => true,
        }
    }

    /// The referee holds at least so many entries, and the others fronts of what it holds. Gives
    /// how many it holds.
    fn check(&self, before: Number) -> Number {
        let rt = self.rt;
        let Some(whole) = self.held(REFEREE) else {
            return before;
        };
        check(rt, "the referee loses nothing", whole.len() >= before);
        for party in SEAT_OF_X..=FIRST_WATCHER {
            check_party(rt, party, self.holds_front(party, whole));
        }
        whole.len()
    }

    /// A turn of each party, behind each of which a process may end.
    fn round(&mut self) {
        self.referee_turn();
        self.end_one();
        self.seat_turn(Player::X);
        self.end_one();
        self.seat_turn(Player::O);
        self.end_one();
        self.watcher_turn();
        self.end_one();
    }

    /// Rounds of all parties until each of them holds the end of the match.
    pub(crate) fn play(&mut self) {
        let rt = self.rt;
        let mut entries = 0;
        for _ in 0..MOST_ROUNDS {
            self.round();
            entries = self.check(entries);
            if self.is_over() {
                return;
            }
        }
        panic!(rt; "the match did not end")
    }

    /// All parties hold one record, whose transcript is good, and more than one process took part
    /// in it.
    pub(crate) fn check_end(&self) {
        let rt = self.rt;
        let whole = self.held(REFEREE).expect(rt, "the referee runs");
        check_good(rt, whole);
        for party in SEAT_OF_X..=FIRST_WATCHER {
            let record = self.held(party).expect(rt, "the party runs");
            check_party(
                rt,
                party,
                record.len() == whole.len() && is_front(record, whole),
            );
        }
        assert!(rt; self.begun > 3, "{} processes", self.begun);
    }
}
