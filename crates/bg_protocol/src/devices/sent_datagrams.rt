//! The datagrams that a link in memory has sent.
ghost use Rattle.std.specs.Prelude.{◌≡◌, ◌≤◌, ℕ, ◌<◌, ◌==◌, if◌then◌else◌, ◌∷◌, ◌++◌, [], length, slice_get, vec_len};
ghost use Rattle.std.specs.Prelude.{option_copied, IfSome, OnOk, OnErr};
ghost use Rattle.bg_protocol.specs.Devices.Handed.{count_to};
ghost use Rattle.bg_protocol.specs.Devices.Inboxes.{inbox_at, texts_to};

use crate::SentHistory;
use crate::devices::inboxes::Inbox;
use bg_wire::Datagram;
use std::alloc::{AllocError, Global};
use std::marker::Model;

/// All datagrams that were sent, with an inbox for each party. Contracts see the datagrams, the
/// oldest first.
#[derive(Drop)]
pub(crate) struct SentDatagrams {
    alloc: Global,
    inboxes: Vec<Inbox>,
    history: SentHistory,
}

impl Model for SentDatagrams {
    ghost use Rattle.std.specs.Prelude.{List};
    ghost use Rattle.bg_wire.specs.declared.packets.Datagram.{Datagram as Sent};
    ghost use Rattle.bg_protocol.specs.Devices.Inboxes.{AreInboxesOf};

    ghost Value = { List Sent };

    ghost view = { λ s. s.history.datagrams };

    ghost invariant = { λ s. AreInboxesOf s.history.datagrams s.inboxes.items };
}

impl SentDatagrams {
    /// Returns the state where nothing was sent.
    pub(crate) fn new(alloc: Global) -> SentDatagrams
        ensures { result ≡ [] }
    {
        SentDatagrams {
            alloc,
            inboxes: Vec::new(alloc),
            history: SentHistory::new(),
        }
    }

    /// Appends a datagram. Where memory runs out, nothing changes.
    pub(crate) fn push(&mut self, datagram: &Datagram) -> Result<(), AllocError>
        ensures ok { OnOk result (self.new ≡ self.old ++ datagram.now ∷ []) }
        ensures err { OnErr result (self.new ≡ self.old) }
    {
        let text = datagram.bytes.bytes.as_slice();
        put_text(self.alloc, &mut self.inboxes, datagram.to, text)?;
        self.history = self.history.then(datagram);
        Ok(())
    }

    /// Returns the bytes of the datagram with this index, from 0, among those to the party.
    pub(crate) fn get(&self, party: u8, index: u32) -> Option<&[u8]>
        ensures text { option_copied result ≡ slice_get (texts_to party self.now) index }
        ensures few { IfSome result (λ text. length text.now ≤ 128) }
    {
        let inbox = self.inboxes.get(usize::from(party))?;
        inbox.get(index)
    }

    /// Returns the number of datagrams to the party, or 4294967295 where there are as many or more.
    pub(crate) fn count_to(&self, party: u8) -> u32
        ensures { result ≡ count_to party self.now }
    {
        count_in(&self.inboxes, party).min(u32::MAX as usize) as u32
    }
}

/// Returns the number of datagrams in the inbox of the party, or 0 where there is no inbox.
fn count_in(inboxes: &[Inbox], party: u8) -> usize
    ensures { result ≡ length (inbox_at inboxes.now party) }
{
    match inboxes.get(usize::from(party)) {
        Some(inbox) => inbox.len(),
        None => 0,
    }
}

/// Adds empty inboxes, up to that of the party.
fn make_inboxes(alloc: Global, inboxes: &mut Vec<Inbox>, party: u8) -> Result<(), AllocError>
    ensures same { (p : ℕ) → inbox_at inboxes.new.items p ≡ inbox_at inboxes.old.items p }
    ensures there { OnOk result (party < vec_len inboxes.new) }
{
    while inboxes.len() <= usize::from(party) {
        inboxes.push(Inbox::new(alloc))?;
    }
    Ok(())
}

/// Appends the bytes of a datagram to the inbox of the party. Where memory runs out, nothing
/// changes.
fn put_text(
    alloc: Global,
    inboxes: &mut Vec<Inbox>,
    party: u8,
    text: &[u8],
) -> Result<(), AllocError>
    requires { length text.now ≤ 128 }
    ensures ok { OnOk result ((p : ℕ) → inbox_at inboxes.new.items p ≡
        (if party == p then inbox_at inboxes.old.items p ++ text.now ∷ [] else inbox_at inboxes.old.items p)) }
    ensures err { OnErr result ((p : ℕ) → inbox_at inboxes.new.items p ≡ inbox_at inboxes.old.items p) }
{
    make_inboxes(alloc, inboxes, party)?;
    inboxes[usize::from(party)].push(text)?;
    Ok(())
}
