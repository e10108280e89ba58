//! The addresses of the parties of a match, and the senders of its datagrams.
ghost use Rattle.std.specs.Prelude.{◌≡◌, ◌↔◌, true, IfOk, MatchOption};
ghost use Rattle.bg_system.specs.Notices.{IsNotTold, IsTold};
ghost use Rattle.bg_system.specs.Senders.{HasNoParty, IsAddressOf, IsHeard, IsNotHeard, IsWord};
ghost use Rattle.bg_system.specs.Senders.{sender_of as party_in};

use crate::sockets::keyrings::Keyring;
use crate::sockets::notices::Presence;
use bg_wire::{Packet, REFEREE, decode};
use std::io;
use std::io::ErrorKind;
use std::net::{IpAddr, Ipv4Addr, SocketAddr};

/// The sign of life: the one byte by which a party asks the referee whether it is there, and by
/// which the referee answers. No packet has these bytes.
pub const SIGN_OF_LIFE: &[u8] = &[0];

/// Returns the address of a party of the match that has this port.
pub(crate) fn address_of(port: u16, party: u8) -> io::Result<SocketAddr>
    ensures { IfOk result (IsAddressOf port party) }
{
    match port.checked_add(u16::from(party)) {
        Some(own) => Ok(SocketAddr::from((Ipv4Addr::LOCALHOST, own))),
        None => Err(io::Error::from(ErrorKind::AddrNotAvailable)),
    }
}

/// Returns the party with this address in the match that has this port, if there is one.
fn party_at(address: SocketAddr, port: u16) -> Option<u8>
    ensures { MatchOption result (HasNoParty port address) (λ party. IsAddressOf port party address) }
{
    if address.ip() != IpAddr::V4(Ipv4Addr::LOCALHOST) {
        return None;
    }
    u8::try_from(address.port().checked_sub(port)?).ok()
}

/// Returns the party that a packet names as its sender.
fn sender_of(packet: &Packet) -> u8
    ensures { result ≡ party_in packet.now }
{
    match packet {
        Packet::Want { sender, .. } | Packet::Claim { sender, .. } => *sender,
        Packet::Entries { .. } => REFEREE,
    }
}

/// Returns whether bytes are the sign of life, or a packet that names this party as its sender.
fn is_word(bytes: &[u8], party: u8) -> bool
    ensures { (result ≡ true) ↔ IsWord bytes.now party }
{
    match decode(bytes) {
        Ok(packet) => sender_of(&packet) == party,
        Err(_) => bytes == SIGN_OF_LIFE,
    }
}

/// Returns the contents of a datagram that came to a party from an address, and the party that sent
/// it, in the match that has this port. They are the sign of life or a packet (docs/OPERATING.md,
/// "Ports"). Returns `None` where the datagram is not from a party's address, or names another
/// sender. Returns `None` also where it was not sealed with one of these keys to go from that party
/// to this one.
pub fn heard<'a>(
    keys: &Keyring,
    port: u16,
    own: u8,
    datagram: &'a [u8],
    from: SocketAddr,
) -> Option<(u8, &'a [u8])>
    ensures { MatchOption result (IsNotHeard keys.now port own datagram.now from)
        (λ heard. IsHeard keys.now port own datagram.now from heard.0 heard.1.now) }
{
    let party = party_at(from, port)?;
    let bytes = keys.open(party, own, datagram)?;
    if !is_word(bytes, party) {
        return None;
    }
    Some((party, bytes))
}

/// Returns the other seat's presence from a datagram that came to a seat from an address, in the
/// match that has this port. Returns `None` where it isn't such a notice, isn't from the referee's
/// address, or was not sealed with one of these keys to go from the referee to that seat.
pub fn told(
    keys: &Keyring,
    port: u16,
    own: u8,
    datagram: &[u8],
    from: SocketAddr,
) -> Option<Presence>
    ensures { MatchOption result (IsNotTold keys.now port own datagram.now from)
        (λ presence. IsTold keys.now port own datagram.now from presence) }
{
    if party_at(from, port)? != REFEREE {
        return None;
    }
    Presence::of_notice(keys.open(REFEREE, own, datagram)?)
}
