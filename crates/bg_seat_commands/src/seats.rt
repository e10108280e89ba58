//! The process of a seat, for the commands that play.

mod opening;

use crate::foreign_entries::{NOT_CHOSEN, first_foreign};
use bg_board::Player;
use bg_command_parts::{Asked, FailureReporter, OwnSaves, SilenceReporter, stopped};
use bg_console::{say_number, waited};
use bg_match::{Action, Actor, Number, Record};
use bg_processes::{
    FileKeeper, FolderLock, Going, Liveness, LivenessChange, MatchFile, Names, PartySocket,
    SeatProcess, Ticking, Waiting,
};
use bg_reports::Ending;
use bg_wire::party_of;
use bg_world::Outcome;

type Process<'a> = SeatProcess<PartySocket<'a, HostRuntime>, FileKeeper<'a, HostRuntime>>;

/// A seat that plays, with its ways to wait, and the lock of its folder.
#[derive(Drop)]
pub(crate) struct Seat<'a> {
    rt: &'a HostRuntime,
    /// The match of its key file.
    pub(crate) table: MatchFile,
    process: Process<'a>,
    /// The names of the players.
    pub(crate) names: Names,
    pub(crate) waiting: Waiting,
    folder: &'a str,
    reporter: FailureReporter<'a, HostRuntime>,
    silence: SilenceReporter<'a>,
    ticking: Ticking,
    liveness: Liveness,
    /// Whether entries that others make for the player are reported by whoever runs the seat.
    is_at_table: bool,
    pub(crate) player: Player,
    /// Number of entries that it has ever held.
    known: Number,
    /// Whether an entry was found that others made for the player.
    has_foreign: bool,
    _lock: FolderLock,
}

/// The result of a round.
#[derive(Clone, Copy)]
pub(crate) struct Round {
    /// Whether standard input can be read.
    pub(crate) input: bool,
    /// Whether a tick was due.
    pub(crate) tick: bool,
    pub(crate) going: Going,
    /// Whether the referee is heard of, where that has changed.
    pub(crate) word: Option<LivenessChange>,
    /// The first entry of all rounds that came in the player's name, and that this seat never
    /// claimed, where it came in this round.
    pub(crate) foreign: Option<Number>,
}

impl<'a> Seat<'a> {
    /// Waits until a datagram, input or a tick is due, and runs the next round, with a tick if one
    /// is due. Notes whether the referee is heard of, and reports an entry in the player's name that
    /// the seat never claimed.
    pub(crate) fn next_round(&mut self) -> Result<Round, Ending> {
        let empty_reads = self.link().empty_reads();
        let next = self
            .ticking
            .next_round(self.rt, &mut self.waiting, empty_reads);
        let (ready, tick) = waited(self.rt, next)?;
        let claim = self.open_claim();
        let played = self.process.round(tick, &mut self.reporter);
        let going = self.unless_failed(played)?;
        let link = self.process.link();
        let word = self.liveness.after_round(link, tick);
        self.silence.after_round(link, &self.liveness);
        Ok(Round {
            input: ready.input,
            tick,
            going,
            word,
            foreign: self.news_of_others(&claim),
        })
    }

    /// Saves at once what waits for a tick, where the process may end.
    pub(crate) fn save_now(&mut self) -> Result<(), Ending> {
        let saved = self.process.save_now(&mut self.reporter);
        self.unless_failed(saved)?;
        Ok(())
    }

    /// Returns the result of a call of the process that may have saved. Reports why the seat can't
    /// go on, if its files were given up or for another reason.
    fn unless_failed<T: Drop>(&self, attempt: Result<T, Outcome>) -> Result<T, Ending> {
        self.reporter.check_files()?;
        self.unless_stopped(attempt)
    }

    /// Returns the result of a call of the process. Reports why the seat can't go on.
    fn unless_stopped<T>(&self, attempt: Result<T, Outcome>) -> Result<T, Ending> {
        match attempt {
            Ok(done) => Ok(done),
            Err(outcome) => {
                let saves = saves_of(self.folder, self.player, &self.table);
                Err(stopped(self.rt, saves, &outcome))
            }
        }
    }

    /// Looks through the entries that came. Returns the first in the player's name that doesn't
    /// answer this claim, if there is one and none was returned before, and reports it unless a
    /// person at a table is told.
    fn news_of_others(&mut self, claim: &Option<(Number, Action)>) -> Option<Number> {
        let (player, known) = (self.player, self.known);
        let foreign = first_foreign(self.record(), player, known, claim);
        self.known = self.known.max(self.held());
        let number = foreign?;
        if self.has_foreign {
            return None;
        }
        self.has_foreign = true;
        if !self.is_at_table {
            say_number(self.rt, NOT_CHOSEN.0, number.into(), NOT_CHOSEN.1);
        }
        Some(number)
    }

    /// Claims an action, and returns the outcome.
    pub(crate) fn choose(&mut self, action: Action) -> Result<Outcome, Ending> {
        let chosen = self.process.choose(action, &mut self.reporter);
        self.unless_stopped(chosen)
    }

    /// Returns the record, or `None` where the seat is down. What others want of the process they
    /// ask the seat: the check takes seconds for each function that calls the process.
    pub(crate) fn record(&self) -> Option<&Record> {
        self.process.held()
    }

    /// Returns the number and the action of the claim that waits for its answer, if one does.
    pub(crate) fn open_claim(&self) -> Option<(Number, Action)> {
        self.process.open_claim()
    }

    /// Returns whether this player is to act by the record.
    pub(crate) fn awaits(&self, player: Player) -> bool {
        match self.record() {
            Some(record) => record.actor() == Actor::Seat(player),
            None => false,
        }
    }

    /// Returns whether the player is to act, and no claim waits for its answer.
    pub(crate) fn acts(&self) -> bool {
        self.awaits(self.player) && self.open_claim().is_none()
    }

    /// Returns the socket to the other parties.
    pub(crate) fn link(&self) -> &PartySocket<'a, HostRuntime> {
        self.process.link()
    }

    /// Returns the number of entries that the seat holds.
    pub(crate) fn held(&self) -> Number {
        match self.record() {
            Some(record) => record.len(),
            None => 0,
        }
    }
}

/// Returns the saves of a player's seat of a match in a folder.
fn saves_of<'a>(folder: &'a str, player: Player, table: &'a MatchFile) -> OwnSaves<'a> {
    OwnSaves {
        folder,
        party: party_of(player),
        asked: Asked::File(table),
    }
}
