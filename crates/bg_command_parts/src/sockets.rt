//! The sockets of parties, and the reasons why there is none.

use bg_console::failed;
use bg_processes::{Failures, Keyring, PartySocket};
use bg_reports::Ending;
use bg_wire::{REFEREE, SEAT_OF_O, SEAT_OF_X};
use std::io;
use std::io::ErrorKind;

/// The number of the last party, and so the number of ports that a match has above its own.
const LAST_PARTY: u32 = 255;

/// The words of the message on a port that is taken, between the numbers and after them.
const RUNNING_OR: &str = "running already, or a match whose ports begin at";

const END_IT: &str = "End that process first";

/// The words on what a socket needs.
const OPEN_FILES: &str = "it needs a loopback address, and room for open files (`ulimit -n`)";

/// Opens the socket of a party of the match that has this port, with its keys. The socket notes
/// later failures in `failures`. Ends with `Failed` where the port is taken, or there is no socket.
pub fn socket_of<'a>(
    rt: &'a HostRuntime,
    port: u16,
    party: u8,
    keys: Keyring,
    failures: &'a Failures,
) -> Result<PartySocket<'a, HostRuntime>, Ending> {
    match PartySocket::bind(rt, rt, port, party, keys, failures) {
        Ok(socket) => Ok(socket),
        Err(error) => Err(unbound(rt, port, party, &error)),
    }
}

/// Reports why a party of the match that has this port has no socket, and returns `Failed`.
fn unbound(rt: &HostRuntime, port: u16, party: u8, error: &io::Error) -> Ending {
    if error.kind() != ErrorKind::AddrInUse {
        return no_socket(rt, party, error);
    }
    let own = u32::from(port) + u32::from(party);
    let (holder, least) = (holder_of(party), own.saturating_sub(LAST_PARTY));
    failed(
        rt,
        format_args!("port {own} is taken: is {holder} {RUNNING_OR} {least} or above? {END_IT}"),
    )
}

/// Returns the party that has a port, as a message names it.
fn holder_of(party: u8) -> &'static str {
    match party {
        REFEREE => "the referee",
        SEAT_OF_X => "the seat of X",
        SEAT_OF_O => "the seat of O",
        _ => "another watcher",
    }
}

/// Reports that the system gives a party no socket, and why, and returns `Failed`.
pub fn no_socket(rt: &HostRuntime, party: u8, error: &io::Error) -> Ending {
    failed(
        rt,
        format_args!("no socket for party {party} on 127.0.0.1: {error}; {OPEN_FILES}"),
    )
}
