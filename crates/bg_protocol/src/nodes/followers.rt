//! What the cores of followers, of seats and of watchers, have in common.
ghost use Rattle.std.specs.Prelude.{◌≡◌, ℕ, Option, IfSome};
ghost use Rattle.bg_party.specs.declared.outcomes.Learned.{Learned as ALearned};
ghost use Rattle.bg_wire.specs.Packets.PacketText.{IsPacket};
ghost use Rattle.bg_wire.specs.declared.packets.Packet.{Packet as APacket};

use bg_party::{Learned, Seat, Watcher};
use bg_wire::Packet;

/// The core of a party that follows the referee.
pub(crate) trait Follows {
    /// What it makes of a packet.
    ghost takes: { Self → APacket → ALearned → Self → Type 0 };

    /// What it sends on a tick.
    ghost ticks: { Self → Option APacket → Self → Type 0 };

    /// The number of its next save; 0 where it saves nothing.
    ghost next: { Self → ℕ };

    /// Takes a packet.
    fn hear(&mut self, packet: &Packet) -> Learned
        requires { IsPacket packet.now }
        ensures takes { takes self.old packet.now result self.new }
        ensures next { next self.new ≡ next self.old };

    /// Returns the packet to send to the referee, where this tick is one to send on.
    fn ask(&mut self) -> Option<Packet>
        ensures ticks { ticks self.old result self.new }
        ensures fits { IfSome result IsPacket }
        ensures next { next self.new ≡ next self.old };
}

impl Follows for Seat {
    ghost use Rattle.bg_party.specs.Claims.{SeatTicks};
    ghost use Rattle.bg_protocol.specs.Worlds.Calls.{SeatTakes};

    ghost takes = { SeatTakes };

    ghost ticks = { SeatTicks };

    ghost next = { λ core. core.next_save };

    fn hear(&mut self, packet: &Packet) -> Learned {
        self.take(packet)
    }

    fn ask(&mut self) -> Option<Packet> {
        self.tick()
    }
}

impl Follows for Watcher {
    ghost use Rattle.bg_party.specs.Claims.{WatcherTicks};
    ghost use Rattle.bg_protocol.specs.Worlds.Calls.{WatcherTakes};

    ghost takes = { WatcherTakes };

    ghost ticks = { WatcherTicks };

    ghost next = { λ _. 0 };

    fn hear(&mut self, packet: &Packet) -> Learned {
        self.take(packet)
    }

    fn ask(&mut self) -> Option<Packet> {
        self.tick()
    }
}
