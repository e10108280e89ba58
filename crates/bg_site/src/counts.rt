//! The counters of a server, in the format that Prometheus reads.

use crate::places::Place;
use crate::quiet::Patience;
use crate::stores::Saves;
use bg_hosted::Acted;
use bg_text::{put_number, put_text};
use std::alloc::{AllocError, Global};

/// The counters since the server started.
#[derive(Clone, Copy)]
pub(crate) struct Counts {
    /// The current number of connections.
    pub(crate) connections: u64,
    /// The number of matches made by requests.
    pub(crate) made: u64,
    /// The number of matches that have ended.
    pub(crate) ended: u64,
    pub(crate) requests: u64,
    done: u64,
    waiting: u64,
    refused: u64,
    failed: u64,
}

impl Counts {
    /// The counters at the start: all are 0.
    pub(crate) const NONE: Counts = Counts {
        connections: 0,
        made: 0,
        ended: 0,
        requests: 0,
        done: 0,
        waiting: 0,
        refused: 0,
        failed: 0,
    };

    /// Counts a match that has ended.
    pub(crate) fn note_end(&mut self) {
        self.ended = self.ended.saturating_add(1);
    }

    /// Counts the outcome of an action.
    pub(crate) fn note(&mut self, acted: Acted) {
        let counted = match acted {
            Acted::Done => &mut self.done,
            Acted::Waits => &mut self.waiting,
            Acted::OtherEntry | Acted::Refused(_) => &mut self.refused,
            Acted::Failed => &mut self.failed,
        };
        *counted = counted.saturating_add(1);
    }
}

/// The numbers of matches, and of the peers connected to them.
#[derive(Clone, Copy)]
struct Crowd {
    live: u64,
    idle: u64,
    finished: u64,
    players: u64,
    watchers: u64,
}

impl Crowd {
    /// Counts the matches that are not deleted, and the peers connected to them.
    fn of<K>(places: &[Place<K>], patience: Patience) -> Crowd {
        let mut crowd = Crowd {
            live: 0,
            idle: 0,
            finished: 0,
            players: 0,
            watchers: 0,
        };
        for place in places.iter() {
            if !place.is_gone {
                crowd = crowd.with(place, patience);
            }
        }
        crowd
    }

    /// Returns the numbers with one more match and its peers.
    fn with<K>(self, place: &Place<K>, patience: Patience) -> Crowd {
        let is_finished = place.summary.winner.is_some();
        let is_idle = !is_finished && patience.is_over(place.quiet);
        let presence = place.presence;
        let players = u64::from(presence.x).saturating_add(presence.o.into());
        Crowd {
            live: self
                .live
                .saturating_add(u64::from(!is_finished && !is_idle)),
            idle: self.idle.saturating_add(u64::from(is_idle)),
            finished: self.finished.saturating_add(u64::from(is_finished)),
            players: self.players.saturating_add(players),
            watchers: self.watchers.saturating_add(presence.watching.into()),
        }
    }
}

/// Returns the metrics of a server (docs/SERVING.md, "Logs and metrics").
pub(crate) fn metrics_text<K>(
    alloc: Global,
    places: &[Place<K>],
    patience: Patience,
    counts: Counts,
    saves: Saves,
) -> Result<Vec<u8>, AllocError> {
    let mut out = Vec::new(alloc);
    put_gauges(&mut out, Crowd::of(places, patience), counts.connections)?;
    put_counters(&mut out, counts)?;
    put_saves(&mut out, saves)?;
    Ok(out)
}

/// Adds the current values.
fn put_gauges(out: &mut Vec<u8>, crowd: Crowd, connections: u64) -> Result<(), AllocError> {
    let matches = [
        ("{state=\"live\"}", crowd.live),
        ("{state=\"idle\"}", crowd.idle),
        ("{state=\"finished\"}", crowd.finished),
    ];
    let peers = [
        ("{role=\"player\"}", crowd.players),
        ("{role=\"watcher\"}", crowd.watchers),
    ];
    put_rows(out, "bg_relay_matches", " gauge\n", &matches)?;
    put_rows(out, "bg_relay_peers", " gauge\n", &peers)?;
    put_rows(
        out,
        "bg_relay_connections",
        " gauge\n",
        &[("", connections)],
    )
}

/// Adds the counters since the server started.
fn put_counters(out: &mut Vec<u8>, counts: Counts) -> Result<(), AllocError> {
    let actions = [
        ("{result=\"done\"}", counts.done),
        ("{result=\"waits\"}", counts.waiting),
        ("{result=\"refused\"}", counts.refused),
        ("{result=\"failed\"}", counts.failed),
    ];
    put_rows(
        out,
        "bg_relay_requests_total",
        COUNTER,
        &[("", counts.requests)],
    )?;
    put_rows(
        out,
        "bg_relay_matches_made_total",
        COUNTER,
        &[("", counts.made)],
    )?;
    put_rows(
        out,
        "bg_relay_matches_ended_total",
        COUNTER,
        &[("", counts.ended)],
    )?;
    put_rows(out, "bg_relay_actions_total", COUNTER, &actions)
}

/// Adds the counters of saves since the server started.
fn put_saves(out: &mut Vec<u8>, saves: Saves) -> Result<(), AllocError> {
    let rows = [
        ("{result=\"done\"}", saves.done),
        ("{result=\"failed\"}", saves.failed),
    ];
    put_rows(out, "bg_relay_saves_total", COUNTER, &rows)?;
    put_text(out, "# TYPE bg_relay_save_seconds_total counter\n")?;
    put_text(out, "bg_relay_save_seconds_total ")?;
    put_seconds(out, saves.micros)?;
    put_text(out, "\n")
}

/// Adds a number of microseconds as seconds, with six digits after the point.
fn put_seconds(out: &mut Vec<u8>, micros: u64) -> Result<(), AllocError> {
    let rest = micros % 1_000_000;
    put_number(out, micros / 1_000_000)?;
    put_text(out, ".")?;
    for least in [100_000, 10_000, 1000, 100, 10] {
        if rest < least {
            put_text(out, "0")?;
        }
    }
    put_number(out, rest)
}

/// The end of a line that declares a counter, which only grows.
const COUNTER: &str = " counter\n";

/// Adds the line with the type of a metric, and its value for each label.
fn put_rows(
    out: &mut Vec<u8>,
    name: &str,
    kind: &str,
    rows: &[(&str, u64)],
) -> Result<(), AllocError> {
    put_text(out, "# TYPE ")?;
    put_text(out, name)?;
    put_text(out, kind)?;
    for (label, count) in rows.iter() {
        put_count(out, name, label, *count)?;
    }
    Ok(())
}

/// Adds the line with the value of a metric for a label.
fn put_count(out: &mut Vec<u8>, name: &str, label: &str, count: u64) -> Result<(), AllocError> {
    put_text(out, name)?;
    put_text(out, label)?;
    put_text(out, " ")?;
    put_number(out, count)?;
    put_text(out, "\n")
}
