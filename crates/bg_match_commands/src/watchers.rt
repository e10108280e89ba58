//! The watcher of a match, as a process begins it.
ghost use Rattle.std.specs.Prelude.{◌≤◌};
ghost use Rattle.bg_wire.specs.Entries.Codes.{first_watcher};

use bg_console::{MatchBeside, folder_of, matches_beside, wrong};
use bg_processes::{Failures, Keyring, MatchFile, PartySocket, WatcherProcess};
use bg_reports::Ending;
use bg_seals::Key;
use bg_wire::{FIRST_WATCHER, LAST_WATCHER};
use std::io;
use std::io::ErrorKind;

pub(crate) type Watcher<'a> = WatcherProcess<PartySocket<'a, HostRuntime>>;

/// Why a watcher could not begin.
#[derive(Drop)]
pub(crate) enum NoWatcher {
    /// No port of a watcher is free.
    NoPort,
    /// The system gives no socket to the watcher with this number.
    NoSocket(u8, io::Error),
    /// The reason was reported.
    Reported(Ending),
}

/// Returns whether the ports of one of these matches begin at that of a party of the match that has
/// this port.
fn begins_at(beside: &[MatchBeside], port: u16, party: u8) -> bool {
    let own = u32::from(port) + u32::from(party);
    for other in beside {
        if u32::from(other.file.port) == own {
            return true;
        }
    }
    false
}

/// Begins a watcher of this match, and returns its number too. `path` and `key` are those of its
/// key file. The number is the first whose port is free, and isn't another referee's as far as the
/// folders beside that of the key file show. Its socket notes its failures in `failures`.
pub(crate) fn begin_watcher<'a>(
    rt: &'a HostRuntime,
    path: &str,
    table: &MatchFile,
    key: &Key,
    failures: &'a Failures,
) -> Result<(u8, Watcher<'a>), NoWatcher> {
    let beside = match matches_beside(rt, folder_of(path)) {
        Ok(beside) => beside,
        Err(ending) => return Err(NoWatcher::Reported(ending)),
    };
    for party in FIRST_WATCHER..=LAST_WATCHER {
        if begins_at(&beside, table.port, party) {
            continue;
        }
        let keys = Keyring::OfParty(Key::new(key.bytes()));
        match PartySocket::bind(rt, rt, table.port, party, keys, failures) {
            Ok(link) => return sit_down(rt, table, party, link),
            Err(error) if error.kind() == ErrorKind::AddrInUse => {}
            Err(error) => return Err(NoWatcher::NoSocket(party, error)),
        }
    }
    Err(NoWatcher::NoPort)
}

/// Begins the watcher with this number over its socket.
fn sit_down<'a>(
    rt: &HostRuntime,
    table: &MatchFile,
    party: u8,
    link: PartySocket<'a, HostRuntime>,
) -> Result<(u8, Watcher<'a>), NoWatcher>
    requires { first_watcher ≤ party }
{
    match WatcherProcess::begin(rt.alloc(), party, table.id, table.terms, link) {
        Ok(process) => Ok((party, process)),
        Err(_) => Err(NoWatcher::Reported(wrong(rt, "length out of range"))),
    }
}
