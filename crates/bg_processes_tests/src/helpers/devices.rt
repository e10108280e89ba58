//! The devices of parties: files in a folder, and sockets. They last as long as the process.

use crate::helpers::hosts::{Host, Hosted};
use crate::helpers::lasting::lasting;
use bg_processes::{Failures, FileKeeper, UdpLink};
use std::fs::File;
use std::net::{Ipv4Addr, Net, UdpSocket};
use std::process::Abort;
use std::rt::Files;

/// The files of a party.
pub(crate) fn keeper<'a, R: Files<File = File> + AllocGlobal>(
    rt: &impl Abort,
    files: &'a R,
    folder: &str,
    party: u8,
    failures: &'a Failures,
) -> FileKeeper<'a, R> {
    FileKeeper::new(files, folder, party, failures).expect(rt, "the files of a party")
}

/// The sockets of so many parties.
pub(crate) fn link<'a>(
    rt: &impl Abort,
    net: &(impl Net + AllocGlobal),
    parties: u8,
    failures: &'a Failures,
) -> UdpLink<'a> {
    UdpLink::bind(net, parties, failures).expect(rt, "the sockets")
}

/// The same, for as long as the process runs.
pub(crate) fn lasting_link<'a>(
    rt: &(impl AllocGlobal + Abort),
    net: &(impl Net + AllocGlobal),
    parties: u8,
    failures: &'a Failures,
) -> &'a mut UdpLink<'a> {
    lasting(rt, link(rt, net, parties, failures))
}

/// A socket that no party has, which lasts as long as the process.
pub(crate) fn stranger<'a>(rt: &impl Host) -> &'a UdpSocket {
    let socket = UdpSocket::bind(rt.host(), (Ipv4Addr::LOCALHOST, 0));
    lasting(rt, socket.expect(rt, "a socket"))
}
