//! The parties of a match, each a node of its own, over a link of the tests' own: the words of the
//! tests of nodes. All of these last, so that there is nothing to drop.
use crate::checks::lasting;
use crate::devices::keepers::OwnKeeper;
use crate::devices::links::OwnLink;
use crate::devices::{Failing, Recorder};
use crate::worlds::lines::{check_outcome, event};
use bg_board::Player;
use bg_match::{Action, LengthFault, Number, Record, Rules, Terms};
use bg_wire::FIRST_WATCHER;
use bg_world::{
    Event, FailRead, FailSend, Keeper, Outcome, RefereeNode, Role, SeatNode, Tear, WatcherNode,
    WorldFault,
};
use std::alloc::Global;
use std::process::Abort;

/// The match of the tests: of length 1, by the first rules.
pub(crate) const ID: u64 = 1;

pub(crate) const TERMS: Terms = Terms {
    length: 1,
    rules: Rules::One,
};

const COUNT: usize = 5;

/// The nodes of five parties.
#[derive(Drop)]
struct Nodes {
    referee: &'static mut RefereeNode,
    x: &'static mut SeatNode,
    o: &'static mut SeatNode,
    third: &'static mut WatcherNode,
    fourth: &'static mut WatcherNode,
}

impl Nodes {
    fn seat(&mut self, player: Player) -> &mut SeatNode {
        match player {
            Player::X => &mut *self.x,
            Player::O => &mut *self.o,
        }
    }

    fn watcher(&mut self, index: usize) -> Option<&mut WatcherNode> {
        match index {
            0 => Some(&mut *self.third),
            1 => Some(&mut *self.fourth),
            _ => None,
        }
    }
}

/// Five parties, each by itself; they share a link.
#[derive(Drop)]
pub(crate) struct Parties {
    alloc: Global,
    pub(crate) link: &'static mut OwnLink<'static>,
    of_referee: &'static mut OwnKeeper<'static>,
    of_x: &'static mut OwnKeeper<'static>,
    of_o: &'static mut OwnKeeper<'static>,
    nodes: Nodes,
}

/// A referee that begins over the slots of its keeper, and what that came to.
pub(crate) fn begun_referee<K: Keeper>(
    alloc: Global,
    terms: Terms,
    keeper: &mut K,
) -> Result<(RefereeNode, Outcome), LengthFault> {
    RefereeNode::begin(alloc, ID, terms, keeper)
}

/// A seat that begins over the slots of its keeper, and what that came to.
pub(crate) fn begun_seat<K: Keeper>(
    alloc: Global,
    player: Player,
    terms: Terms,
    keeper: &mut K,
) -> Result<(SeatNode, Outcome), LengthFault> {
    SeatNode::begin(alloc, player, ID, terms, keeper)
}

/// A keeper with empty slots, for which there may be no memory.
fn keeper(
    recorder: &'static Recorder,
    party: u8,
) -> Result<&'static mut OwnKeeper<'static>, WorldFault> {
    Ok(lasting(recorder.alloc, OwnKeeper::empty(recorder, party))?)
}

/// A referee of the match that begins over empty slots, for which there may be no memory.
fn referee(alloc: Global, keeper: &mut OwnKeeper) -> Result<&'static mut RefereeNode, WorldFault> {
    match begun_referee(alloc, TERMS, keeper) {
        Ok((referee, Outcome::Restarted)) => Ok(lasting(alloc, referee)?),
        Ok(_) => Err(WorldFault::Memory),
        Err(_) => Err(WorldFault::LengthOutOfRange),
    }
}

/// A seat of the match that begins over empty slots, for which there may be no memory.
fn seat(
    alloc: Global,
    player: Player,
    keeper: &mut OwnKeeper,
) -> Result<&'static mut SeatNode, WorldFault> {
    match begun_seat(alloc, player, TERMS, keeper) {
        Ok((seat, Outcome::Restarted)) => Ok(lasting(alloc, seat)?),
        Ok(_) => Err(WorldFault::Memory),
        Err(_) => Err(WorldFault::LengthOutOfRange),
    }
}

/// A watcher of the match.
fn watcher(rt: &impl Abort, alloc: Global, party: u8) -> WatcherNode {
    assert!(rt; party >= FIRST_WATCHER);
    WatcherNode::fresh(alloc, party, ID, TERMS).expect(rt, "a length from 1 to 99")
}

impl Parties {
    /// Five parties that begin over empty slots.
    pub(crate) fn begin(
        rt: &impl Abort,
        recorder: &'static Recorder,
    ) -> Result<Parties, WorldFault> {
        let alloc = recorder.alloc;
        let link = lasting(alloc, OwnLink::by_picks(recorder))?;
        let of_referee = keeper(recorder, 0)?;
        let of_x = keeper(recorder, 1)?;
        let of_o = keeper(recorder, 2)?;
        let nodes = Nodes {
            referee: referee(alloc, of_referee)?,
            x: seat(alloc, Player::X, of_x)?,
            o: seat(alloc, Player::O, of_o)?,
            third: lasting(alloc, watcher(rt, alloc, 3))?,
            fourth: lasting(alloc, watcher(rt, alloc, 4))?,
        };
        Ok(Parties {
            alloc,
            link,
            of_referee,
            of_x,
            of_o,
            nodes,
        })
    }

    /// The record of a party, if it is there and up.
    pub(crate) fn held(&self, party: u8) -> Option<&Record> {
        match party {
            0 => self.nodes.referee.held(),
            1 => self.nodes.x.held(),
            2 => self.nodes.o.held(),
            3 => Some(self.nodes.third.held()),
            4 => Some(self.nodes.fourth.held()),
            _ => None,
        }
    }

    /// The last claim of a seat.
    pub(crate) fn claim(&mut self, player: Player) -> Option<(Number, Action)> {
        self.nodes.seat(player).claim()
    }

    /// The event, by the node of the party that it names.
    pub(crate) fn step(&mut self, rt: &impl Abort, event: Event) -> Outcome {
        match event {
            Event::Due { word } => self.nodes.referee.due(word),
            Event::Take { party, pick, word } => self.take(party, pick, word),
            Event::Choose { seat, action } => self.nodes.seat(seat).choose(action),
            Event::Save { party } => self.save(party),
            Event::Tick { party } => self.tick(party),
            Event::Restart { party } => self.restart(rt, party),
        }
    }

    fn take(&mut self, party: u8, pick: u32, word: u32) -> Outcome {
        match Role::of(party) {
            Role::Referee => self.nodes.referee.take(&mut *self.link, COUNT, pick, word),
            Role::Seat(player) => self.nodes.seat(player).take(&mut *self.link, pick),
            Role::Watcher(index) => match self.nodes.watcher(index) {
                None => Outcome::NoSuchParty,
                Some(node) => node.take(&mut *self.link, pick),
            },
        }
    }

    fn tick(&mut self, party: u8) -> Outcome {
        match Role::of(party) {
            Role::Referee => self.nodes.referee.tick(&mut *self.link, COUNT),
            Role::Seat(player) => self.nodes.seat(player).tick(&mut *self.link, COUNT),
            Role::Watcher(index) => match self.nodes.watcher(index) {
                None => Outcome::NoSuchParty,
                Some(node) => node.tick(&mut *self.link, COUNT),
            },
        }
    }

    fn save(&mut self, party: u8) -> Outcome {
        match Role::of(party) {
            Role::Referee => self.nodes.referee.save(&mut *self.of_referee),
            Role::Seat(Player::X) => self.nodes.x.save(&mut *self.of_x),
            Role::Seat(Player::O) => self.nodes.o.save(&mut *self.of_o),
            Role::Watcher(_) => Outcome::NoSuchParty,
        }
    }

    fn restart(&mut self, rt: &impl Abort, party: u8) -> Outcome {
        match Role::of(party) {
            Role::Referee => self.nodes.referee.restart(&mut *self.of_referee),
            Role::Seat(Player::X) => self.nodes.x.restart(&mut *self.of_x),
            Role::Seat(Player::O) => self.nodes.o.restart(&mut *self.of_o),
            Role::Watcher(index) => match self.nodes.watcher(index) {
                None => Outcome::NoSuchParty,
                Some(node) => {
                    *node = watcher(rt, self.alloc, party);
                    Outcome::Restarted
                }
            },
        }
    }

    /// Every event comes to what its row says.
    pub(crate) fn check_rows(&mut self, rt: &impl Abort, lines: &[&str]) {
        for line in lines {
            let (words, expected) = line.split_once(" -> ").expect(rt, "a row");
            self.check_row(rt, words, expected);
        }
    }

    fn check_row(&mut self, rt: &impl Abort, words: &str, expected: &str) {
        let outcome = self.step(rt, event(rt, words));
        check_outcome(rt, words, &outcome, expected);
    }
}

/// Devices that fail once each: the referee's second write is torn, the seventh send goes out all
/// the same, and this read of X's seat fails.
pub(crate) fn failing(read: u32) -> Failing {
    Failing {
        tear: Some(Tear {
            party: 0,
            nth: 2,
            cut: Some(20),
        }),
        send: Some(FailSend { nth: 7, went: true }),
        read: Some(FailRead {
            party: 1,
            nth: read,
        }),
    }
}
