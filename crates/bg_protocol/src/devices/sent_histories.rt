//! The datagrams that a link was given, in order, which only contracts read.
ghost use Rattle.std.specs.Prelude.{◌≡◌, [], ◌∷◌, ◌++◌, List};
ghost use Rattle.std.specs.Borrow.{ftrue};
ghost use Rattle.std.specs.Coded.{coded_list};
ghost use Rattle.bg_wire.specs.declared.packets.Datagram.{Datagram as Sent};
ghost use Rattle.bg_protocol.specs.Devices.SentCodes.{coded_datagram};

use bg_wire::Datagram;
use std::marker::Model;

/// The datagrams that were sent over a link, the oldest first. It takes no memory: contracts read
/// it as `datagrams`, and code reads nothing of it. A link of your own keeps one to say what was
/// sent over it.
#[derive(Drop)]
pub struct SentHistory {
    pub ghost datagrams: { List Sent } by { coded_list coded_datagram },
}

impl Model for SentHistory {
    ghost also_owns = { λ _. ftrue };
}

impl SentHistory {
    /// Returns the history where nothing was sent.
    pub fn new() -> SentHistory
        ensures { result.datagrams ≡ [] }
    {
        SentHistory {}
    }

    /// Returns the history with this datagram appended.
    pub fn then(&self, _datagram: &Datagram) -> SentHistory
        ensures { result.datagrams ≡ self.now.datagrams ++ _datagram.now ∷ [] }
    {
        SentHistory {}
    }
}
