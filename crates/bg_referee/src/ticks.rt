//! The packets that the referee sends without being asked.
ghost use Rattle.std.specs.Prelude.{◌≤◌, ◌<◌, All, length};
ghost use Rattle.bg_match.specs.Limits.{most_entries};
ghost use Rattle.bg_wire.specs.Packets.PacketText.{IsPacket};
ghost use Rattle.bg_referee.specs.Sessions.{most_pushes};
ghost use Rattle.bg_referee.specs.Ticks.{ArePushes};
ghost use Rattle.bg_referee.specs.Takes.{TellsSaved};

use crate::Referee;
use crate::sessions::MOST_PUSHES;
use arrayvec::ArrayVec;
use bg_match::Number;
use bg_wire::Packet;

impl Referee {
    ghost use Rattle.bg_referee.specs.Ticks.{RefereeTicks};

    /// Returns the packets to send without being asked, each beside the party that it goes to, at
    /// most two (docs/PROTOCOL.md, "What the referee sends unasked"). Parties that are known to
    /// have less than is saved get the saved entries that they lack, at most eight.
    pub fn tick(&mut self) -> ArrayVec<(u8, Packet), MOST_PUSHES>
        ensures { RefereeTicks self.old result.items self.new }
    {
        let parties = self.sessions.pushed(self.saved);
        let pushes = self.pushes(parties.as_slice());
        self.sessions.push(self.saved, parties.as_slice());
        pushes
    }

    /// Returns a packet for each of these parties, with the saved entries behind its last one.
    fn pushes(&self, parties: &[(u8, Number)]) -> ArrayVec<(u8, Packet), MOST_PUSHES>
        requires few { length parties.now ≤ most_pushes }
        requires saved { self.now.saved ≤ most_entries }
        requires behind { All (λ one. one.1 < self.now.saved) parties.now }
        ensures pushes { ArePushes self.now parties.now result.items }
        ensures tells { All (λ push. TellsSaved self.now push.1) result.items }
        ensures fits { All (λ push. IsPacket push.1) result.items }
    {
        let mut pushes = ArrayVec::new();
        for (party, number) in parties {
            pushes.push((*party, self.packet_from(*number + 1)));
        }
        pushes
    }
}
