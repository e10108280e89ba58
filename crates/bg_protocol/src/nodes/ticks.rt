//! Ticks of a party, on which it sends what its core returns without being asked.
ghost use Rattle.std.specs.Prelude.{◌≡◌, length, ◌≤◌, IfSome};
ghost use Rattle.std.specs.List.{AllByRecursion};
ghost use Rattle.bg_wire.specs.Packets.PacketText.{IsPacket};
ghost use Rattle.bg_protocol.specs.Devices.LinkCalls.{FollowerTickCalls, RefereeTickCalls, SendCalls, to_referee};
ghost use Rattle.bg_protocol.specs.Worlds.Views.{link_view};

use crate::nodes::followers::Follows;
use crate::nodes::link_calls::{link_outcome, post};
use crate::{Link, Outcome};
use bg_referee::Referee;
use bg_wire::{Packet, REFEREE};

/// Sends packets to those of their parties that exist, up to the first that fails. `parties` is the
/// number of parties, whose numbers are from 0.
fn send_all<L: Link>(link: &mut L, parties: usize, packets: &[(u8, Packet)]) -> Outcome
    requires few { length packets.now ≤ 2 }
    requires fit { AllByRecursion (λ packet. IsPacket packet.1) packets.now }
    ensures { SendCalls L.is_honest parties 0 (link_view L.Link link.old) packets.now
        result (link_view L.Link link.new) }
{
    let mut sent = 0;
    let mut rest = packets;
    while let [(to, packet), after @ ..] = rest {
        if usize::from(*to) < parties {
            if let Err(fault) = post(link, *to, packet) {
                return link_outcome(fault);
            }
            sent += 1;
        }
        rest = after;
    }
    Outcome::Sent(sent)
}

/// Sends this packet of a follower to the referee, if there is one.
fn send_to_referee<L: Link>(link: &mut L, parties: usize, packet: &Option<Packet>) -> Outcome
    requires fits { IfSome packet.now IsPacket }
    requires referee_exists { 1 ≤ parties }
    ensures { SendCalls L.is_honest parties 0 (link_view L.Link link.old) (to_referee packet.now)
        result (link_view L.Link link.new) }
{
    let Some(packet) = packet else {
        return Outcome::Sent(0);
    };
    match post(link, REFEREE, packet) {
        Ok(()) => Outcome::Sent(1),
        Err(fault) => link_outcome(fault),
    }
}

/// Sends what the referee's tick returns. `parties` is the number of parties, whose numbers are
/// from 0.
pub(crate) fn tick_referee<L: Link>(
    link: &mut L,
    parties: usize,
    core: &mut Referee,
    outcome: &mut Outcome,
)
    ensures next { core.new.next_save ≡ core.old.next_save }
    ensures calls { RefereeTickCalls L.is_honest parties (link_view L.Link link.old) core.old
        outcome.new (link_view L.Link link.new) core.new }
{
    let packets = core.tick();
    *outcome = send_all(link, parties, packets.as_slice());
}

/// Sends what a follower's tick returns. `parties` is the number of parties, whose numbers are from
/// 0, the referee among them.
pub(crate) fn tick_follower<F: Follows, L: Link>(
    link: &mut L,
    parties: usize,
    core: &mut F,
    outcome: &mut Outcome,
)
    requires { 1 ≤ parties }
    ensures next { F.next core.new ≡ F.next core.old }
    ensures calls { FollowerTickCalls F.ticks L.is_honest parties (link_view L.Link link.old) core.old
        outcome.new (link_view L.Link link.new) core.new }
{
    let packet = core.ask();
    *outcome = send_to_referee(link, parties, &packet);
}
