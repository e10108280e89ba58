//! Sockets and folders of the system, as the devices of parties.
use super::{Devices, ID, KEY, Sitting, Table};
use crate::helpers::failing_devices::{Calls, Failing};
use crate::helpers::hosts::{Host, Hosted, process_number};
use bg_match::Rules;
use bg_processes::{Failures, FileKeeper, Keyring, PartySocket};
use bg_seals::MasterSecret;
use bg_wire::{FIRST_WATCHER, REFEREE, SEAT_OF_O, SEAT_OF_X};
use bg_world::{Keeper, Link};

type Socket<'a> = Failing<'a, PartySocket<'a, HostRuntime>>;

type Files<'a> = Failing<'a, FileKeeper<'a, HostRuntime>>;

/// What opens sockets at ports of a match, and files in a folder, of whose calls one fails.
#[derive(Drop)]
struct RealDevices<'a> {
    host: &'a HostRuntime,
    calls: &'a Calls,
    port: u16,
    folder: &'a str,
}

/// Such devices at free ports.
fn real_devices<'a>(rt: &'a impl Host, calls: &'a Calls, folder: &'a str) -> RealDevices<'a> {
    RealDevices {
        host: rt.host(),
        calls,
        port: free_port(rt, 20_000),
        folder,
    }
}

/// Sits at a table of sockets, and of files in a folder, of whose calls one fails.
pub(crate) fn sit_down(
    rt: &impl Host,
    sitting: &impl Sitting,
    folder: &str,
    rules: Rules,
    failing: u32,
) {
    let calls = Calls::new(failing);
    let devices = real_devices(rt, &calls, folder);
    sit_at::<Socket<'_>, Files<'_>, _>(rt, sitting, devices, rules);
}

/// Sits at a table of these devices.
fn sit_at<L: Link + Drop, K: Keeper + Drop, D: Devices<L, K> + Drop>(
    rt: &impl Host,
    sitting: &impl Sitting,
    devices: D,
    rules: Rules,
) {
    sitting.sit(rt, &mut Table::new(rt.alloc(), devices, rules));
}

impl<'a> Devices<Socket<'a>, Files<'a>> for RealDevices<'a> {
    fn link(&self, party: u8) -> Option<Socket<'a>> {
        let (host, keys, failures) = (self.host, keys_of(party), &self.calls.failures);
        let bound = PartySocket::bind(host, host, self.port, party, keys, failures);
        Some(Failing::new(bound.ok()?, self.calls))
    }

    fn keeper(&self, party: u8) -> Option<Files<'a>> {
        let keeper = FileKeeper::new(self.host, self.folder, party, &self.calls.failures);
        Some(Failing::new(keeper.ok()?, self.calls))
    }

    fn fail_next(&self) {
        self.calls.fail_next();
    }
}

/// The keys of a party.
pub(crate) fn keys_of(party: u8) -> Keyring {
    let secret = MasterSecret::new(&KEY);
    match party {
        REFEREE => Keyring::of_referee(&secret, ID),
        seat @ (SEAT_OF_X | SEAT_OF_O) => Keyring::OfParty(secret.key_of(ID, seat)),
        _ => Keyring::OfParty(secret.key_of(ID, FIRST_WATCHER)),
    }
}

/// Whether the port of a party is free.
fn is_free(rt: &impl Host, port: u16, party: u8) -> bool {
    let failures = Failures::new();
    let host = rt.host();
    PartySocket::bind(host, host, port, party, keys_of(party), &failures).is_ok()
}

/// Whether those of five parties are free.
fn are_free(rt: &impl Host, port: u16) -> bool {
    for party in 0..5 {
        if !is_free(rt, port, party) {
            return false;
        }
    }
    true
}

/// A port such that those of five parties are free; for each `start` others are tried.
pub(crate) fn free_port(rt: &impl Host, start: u16) -> u16 {
    let mut port = start.saturating_add((process_number(rt.host()) % 500) as u16 * 20);
    for _ in 0..500 {
        if are_free(rt, port) {
            return port;
        }
        port = if port < 60_000 { port + 10 } else { 20_000 };
    }
    port
}
