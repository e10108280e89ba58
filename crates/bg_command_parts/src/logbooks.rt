//! The log of a party's process.

use crate::results::Results;
use bg_console::{Pairing, say};
use bg_match::Record;
use bg_processes::{Attendance, Change, MatchFile, NamedMatch, Names, PartySocket};
use bg_system::number_of_rules;
use bg_wire::{LAST_WATCHER, REFEREE, SEAT_OF_O, SEAT_OF_X};
use std::fmt;
use std::fmt::{Display, Formatter, Write};
use std::time::Clock;

/// Number of ticks between two looks at who came and went.
const TICKS_TO_LOOK: u32 = 10;

/// A party, as a log names it.
#[derive(Clone, Copy)]
struct Named(u8);

impl Display for Named {
    fn fmt<W: Write>(&self, f: &mut Formatter<W>) -> fmt::Result {
        match self.0 {
            REFEREE => f.write_str("the referee"),
            SEAT_OF_X => f.write_str("the seat of X"),
            SEAT_OF_O => f.write_str("the seat of O"),
            party => write!(f, "watcher {party}"),
        }
    }
}

/// The players of a match, at the end of a line; nothing if none has a name.
#[derive(Clone, Copy)]
struct Players(Names);

impl Display for Players {
    fn fmt<W: Write>(&self, f: &mut Formatter<W>) -> fmt::Result {
        match Pairing::of(&self.0) {
            Some(pairing) => write!(f, ", {pairing}"),
            None => Ok(()),
        }
    }
}

/// Logs the progress of a party's match on standard error (docs/OPERATING.md, "The log"), and
/// nothing if it is quiet.
#[derive(Drop)]
pub struct Logbook<'a> {
    rt: &'a HostRuntime,
    /// The party that logs.
    party: u8,
    /// The names of the players.
    names: Names,
    is_quiet: bool,
    ticks: u32,
    attendance: Attendance,
    results: Results,
}

impl<'a> Logbook<'a> {
    /// Logs that a party of a match begins with this record, and returns its logbook.
    pub fn begin(
        rt: &'a HostRuntime,
        is_quiet: bool,
        party: u8,
        file: &NamedMatch,
        record: &Record,
    ) -> Logbook<'a> {
        let logbook = Logbook {
            rt,
            party,
            names: file.names,
            is_quiet,
            ticks: 0,
            attendance: Attendance::new(),
            results: Results::of(record),
        };
        let MatchFile { id, terms, port } = file.table;
        let (named, length, rules) = (Named(party), terms.length, number_of_rules(terms.rules));
        let (entries, (x, o)) = (record.len(), record.standing().score());
        let own = u32::from(port) + u32::from(party);
        let players = Players(file.names);
        logbook.say(format_args!(
            "{named} begins on port {own}: match {id}, length {length}, rules {rules}, {entries} entries, {x}-{o}{players}"
        ));
        logbook
    }

    /// Logs a line, unless it is quiet.
    fn say<D: Display + Drop>(&self, what: D) {
        if !self.is_quiet {
            say(self.rt, what);
        }
    }

    /// Logs the games that have ended in the record, and who came and went, after a round. `tick`
    /// says whether a tick was due in it.
    pub fn after_round<C: Clock>(
        &mut self,
        socket: &PartySocket<'_, C>,
        record: Option<&Record>,
        tick: bool,
    ) {
        if self.is_quiet {
            return;
        }
        if let Some(record) = record {
            self.tell_results(record);
        }
        if tick {
            if self.ticks % TICKS_TO_LOOK == 0 {
                self.look(socket);
            }
            self.ticks = self.ticks.wrapping_add(1);
        }
    }

    /// Logs the games that have ended.
    fn tell_results(&mut self, record: &Record) {
        for _ in 0..record.len() {
            let Some(result) = self.results.next(record, &self.names) else {
                return;
            };
            self.say(format_args!("{result}"));
            if let Some(result) = result.of_match() {
                self.say(format_args!("{result}"));
            }
        }
    }

    /// Logs who came and went.
    fn look<C: Clock>(&mut self, socket: &PartySocket<'_, C>) {
        for party in REFEREE..=LAST_WATCHER {
            let (before, behind) = match self.attendance.change(socket, party) {
                Some(Change::Came) => ("", " is heard"),
                Some(Change::Left) => ("no word from ", " for a minute"),
                Some(Change::Returned) => ("", " is heard again"),
                None => continue,
            };
            let named = Named(party);
            self.say(format_args!("{before}{named}{behind}"));
        }
    }

    /// Logs that the party ends: that the match is over, or that the reason was reported.
    pub fn end(&self, is_over: bool) {
        let named = Named(self.party);
        if is_over {
            self.say(format_args!("{named} ends: the match is over"));
        } else {
            self.say(format_args!("{named} ends: the line above says why"));
        }
    }
}
