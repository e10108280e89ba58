//! Takes of datagrams by a party.
ghost use Rattle.std.specs.Prelude.{◌≡◌};
ghost use Rattle.bg_referee.specs.Takes.{AnswerFits, RefereeTakes};
ghost use Rattle.bg_wire.specs.Packets.PacketText.{IsPacket};
ghost use Rattle.bg_protocol.specs.Devices.LinkCalls.{AnswerCalls, FollowerTakeCalls, RefereeTakeCalls};
ghost use Rattle.bg_protocol.specs.Worlds.Views.{link_view};

use crate::nodes::followers::Follows;
use crate::nodes::link_calls::{link_outcome, post, receive};
use crate::{Link, Outcome};
use bg_referee::{Referee, TakeOutcome};
use bg_wire::{Packet, REFEREE};

/// Sends an answer, if there is one, to a party that exists. `parties` is the number of parties,
/// whose numbers are from 0.
fn send_answer<L: Link>(link: &mut L, parties: usize, took: TakeOutcome) -> Outcome
    requires { AnswerFits took }
    ensures { AnswerCalls L.is_honest parties (link_view L.Link link.old) took result (link_view L.Link link.new) }
{
    if let TakeOutcome::Answer(to, packet) = &took {
        if usize::from(*to) < parties {
            if let Err(fault) = post(link, *to, packet) {
                return link_outcome(fault);
            }
        }
    }
    Outcome::Took(took)
}

fn hand_to_referee(core: &mut Referee, packet: &Packet, word: u32) -> TakeOutcome
    requires { IsPacket packet.now }
    ensures takes { RefereeTakes core.old packet.now word result core.new }
    ensures next { core.new.next_save ≡ core.old.next_save }
    ensures fits { AnswerFits result }
{
    core.take(packet, word)
}

/// Takes a datagram at the referee, and sends its answer. `parties` is the number of parties, whose
/// numbers are from 0.
pub(crate) fn take_at_referee<L: Link>(
    link: &mut L,
    parties: usize,
    core: &mut Referee,
    pick: u32,
    word: u32,
    outcome: &mut Outcome,
)
    ensures next { core.new.next_save ≡ core.old.next_save }
    ensures calls { RefereeTakeCalls L.is_honest parties (link_view L.Link link.old) core.old pick word
        outcome.new (link_view L.Link link.new) core.new }
{
    let mut packet = Packet::default();
    if receive(link, REFEREE, pick, &mut packet, outcome) {
        let took = hand_to_referee(core, &packet, word);
        *outcome = send_answer(link, parties, took);
    }
}

/// Takes a datagram at a follower, whose number is `party`.
pub(crate) fn take_at_follower<F: Follows, L: Link>(
    link: &mut L,
    party: u8,
    core: &mut F,
    pick: u32,
    outcome: &mut Outcome,
)
    ensures next { F.next core.new ≡ F.next core.old }
    ensures calls { FollowerTakeCalls F.takes L.is_honest party (link_view L.Link link.old) core.old pick
        outcome.new (link_view L.Link link.new) core.new }
{
    let mut packet = Packet::default();
    if receive(link, party, pick, &mut packet, outcome) {
        *outcome = Outcome::Learned(core.hear(&packet));
    }
}
