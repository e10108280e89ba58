//! Laws of the protocol, for whole runs, and of worlds. Each is the contract of a function that
//! does nothing.
ghost use Rattle.std.specs.Prelude.{◌≡◌, ℕ, List, Result, Ok, Err, ⊤};
ghost use Rattle.bg_board.specs.declared.players.Player.{Player};
ghost use Rattle.bg_protocol.specs.Promises.Agreement.{Agreement};
ghost use Rattle.bg_protocol.specs.Devices.DeviceCalls.{WritesOnce};
ghost use Rattle.bg_protocol.specs.Devices.KeeperCalls.{BeginsSave};
ghost use Rattle.bg_protocol.specs.Worlds.Calls.{Calls, referee_parts, seat_parts};
ghost use Rattle.bg_protocol.specs.Promises.Claims.{AreClaimsKept};
ghost use Rattle.bg_protocol.specs.Promises.GivenBack.{AreSlotsGivenBack};
ghost use Rattle.bg_protocol.specs.Promises.Headline.{Headline};
ghost use Rattle.bg_protocol.specs.Worlds.Interleavings.{Interleaves, NodeCalls};
ghost use Rattle.bg_protocol.specs.Worlds.Nodes.{RefereeNodeEndsSave, RefereeNodeRestarts, RefereeNodeSaves};
ghost use Rattle.bg_protocol.specs.Worlds.Nodes.{RefereeNodeView, SeatNodeEndsSave, SeatNodeRestarts, SeatNodeSaves};
ghost use Rattle.bg_protocol.specs.Worlds.Nodes.{SeatNodeView};
ghost use Rattle.bg_protocol.specs.Worlds.TwoSteps.{HostWrites, SaveBegins, SaveEnds, told_next};
ghost use Rattle.bg_protocol.specs.Worlds.UnderWay.{told_by};
ghost use Rattle.bg_protocol.specs.Protocol.Roles.{role};
ghost use Rattle.bg_protocol.specs.Worlds.Nodes.{fresh_referee_node, fresh_seat_node};
ghost use Rattle.bg_protocol.specs.Promises.Refusals.{IsNoPacketRefused, IsNoSlotRefused};
ghost use Rattle.bg_protocol.specs.Protocol.Runs.{IsReached};
ghost use Rattle.bg_protocol.specs.Promises.Shown.{ShowsSavedAlone};
ghost use Rattle.bg_protocol.specs.Worlds.Simulations.{IsOfWords, memory_view};
ghost use Rattle.bg_protocol.specs.Worlds.World.{view_of};
ghost use Rattle.bg_protocol.specs.Protocol.Slots.{claim_in};
ghost use Rattle.bg_protocol.specs.Worlds.Starts.{AreUnused, fresh_world, terms_in};
ghost use Rattle.bg_protocol.specs.Protocol.State.{IsSetup, ProtocolState, seat_in};
ghost use Rattle.bg_protocol.specs.Promises.Survival.{SavesSurvive};
ghost use Rattle.bg_protocol.specs.Worlds.Upholds.{Upholds};
ghost use Rattle.bg_protocol.specs.Worlds.Views.{KeeperView, LinkView, WorldView};
ghost use Rattle.bg_protocol.specs.Worlds.WorldLaws.{ComeToOneList, ComeToOneOutcome, NewWorldsAreAtTheStart};
ghost use Rattle.bg_protocol.specs.Worlds.WorldLaws.{OutcomesAreFixed};
ghost use Rattle.bg_protocol.specs.Worlds.WorldRuns.{RunsProtocol};
ghost use Rattle.bg_protocol.specs.Worlds.WorldState.{IsReachedWorld};
ghost use Rattle.bg_protocol.specs.declared.devices.DeviceFault.{DeviceFault};
ghost use Rattle.bg_protocol.specs.declared.events.Event.{Event};
ghost use Rattle.bg_protocol.specs.declared.events.Event.TheVariants as events;
ghost use Rattle.bg_protocol.specs.declared.events.Outcome.{Outcome};
ghost use Rattle.bg_protocol.specs.declared.nodes.saves.Save.{Save as ASave};
ghost use Rattle.bg_protocol.specs.declared.worlds.setups.Setup.{Setup};

use crate::{Keeper, Link, MemoryKeeper, MemoryNet, World};

/// States that after any run every party's record is a prefix of the referee's, and the referee's
/// record is a legal match. Every entry of a seat in it answers the one action that this seat ever
/// claimed under that number. What followers hold is a prefix of what the referee has saved, and so
/// is what datagrams tell.
pub fn parties_agree()
    ensures headline { (w : ProtocolState) → IsReached w → Headline w }
    ensures agreement { (w : ProtocolState) → IsReached w → Agreement w }
{}

/// States that after any run a seat has claimed one action under a number. None is above the claim
/// that its slots restore, and that claim is the one at its number.
pub fn claims_are_kept()
    ensures { (w : ProtocolState) (player : Player) → IsReached w →
        AreClaimsKept w.sent player (claim_in (seat_in w player).restorable) }
{}

/// States that after any run no datagram ever sent shows an entry that is not saved.
pub fn saved_entries_alone_are_shown()
    ensures { (w : ProtocolState) → IsReached w → ShowsSavedAlone w }
{}

/// States that after any run no packet that was ever sent is refused for its match, its number, its
/// turn or its rules. No slot is refused for its text.
pub fn nothing_is_refused()
    ensures packets { (w : ProtocolState) → IsReached w → IsNoPacketRefused w }
    ensures slots { (w : ProtocolState) → IsReached w → IsNoSlotRefused w }
{}

/// States that after any run a save that is written is what the slots restore. After one that is
/// not written they restore it, or what they did before.
pub fn saves_survive()
    ensures { (w : ProtocolState) → IsReached w → SavesSurvive w }
{}

/// States that after any run [`restore`](bg_wire::restore) gives the referee and each seat back
/// exactly what their slots restore, but for `Memory`.
pub fn slots_are_given_back()
    ensures { (w : ProtocolState) → IsReached w → AreSlotsGivenBack w }
{}

/// States that a new world is one that a run leads to, over a link that nothing was sent over, and
/// empty slots. The state of the protocol that it is in is the start.
pub fn new_worlds_are_at_the_start()
    ensures { NewWorldsAreAtTheStart }
{}

/// States that contracts see a world over devices in memory as they see a world over any devices.
pub fn memory_is_seen_as_any_device(world: &World<MemoryNet, MemoryKeeper>)
    ensures { memory_view world.now ≡ view_of ⟦<MemoryNet as Link>⟧ ⟦<MemoryKeeper as Keeper>⟧ world.now }
{}

/// States that an event has one outcome between the same two worlds. This holds on any devices for
/// what the referee adds itself, what claims an action and what saves. Over honest devices whose
/// plans are known, from a world that a run leads to, it holds for any event, but for `Memory`. So
/// of two lists of outcomes that fit the same calls there is one, where the worlds between them are
/// the same.
pub fn outcomes_are_fixed<L: Link, K: Keeper>()
    ensures unheard { OutcomesAreFixed L.is_honest K.is_honest }
    ensures all { ComeToOneOutcome L.is_honest K.is_honest }
    ensures lists { ComeToOneList L.is_honest K.is_honest }
{}

/// States that a save in two steps is the event [`Event::Save`], at its end. A save is begun, the
/// host writes it to the party's keeper, and it is ended with the keeper's answer. Meanwhile other
/// parties may do what they like, but what the next save of this party tells is at the end what it
/// was at the beginning. A save that is not begun is the event too, without a write.
pub fn two_steps_are_a_save<L: Link, K: Keeper>()
    ensures referee { (begun old new : RefereeNodeView) (save : ASave) (answer : Result (Unit {0}) DeviceFault)
        (old_keeper new_keeper : KeeperView) (outcome : Outcome)
        → BeginsSave referee_parts begun.core (Ok save)
        → told_by referee_parts begun.core ≡ told_by referee_parts old.core
        → WritesOnce K.is_honest old_keeper save.slot save.text.items answer new_keeper
        → RefereeNodeEndsSave old save.number answer outcome new
        → RefereeNodeSaves K.is_honest old_keeper old outcome new_keeper new }
    ensures seat { (begun old new : SeatNodeView) (save : ASave) (answer : Result (Unit {0}) DeviceFault)
        (old_keeper new_keeper : KeeperView) (outcome : Outcome)
        → BeginsSave seat_parts begun.core (Ok save)
        → told_by seat_parts begun.core ≡ told_by seat_parts old.core
        → WritesOnce K.is_honest old_keeper save.slot save.text.items answer new_keeper
        → SeatNodeEndsSave old save.number answer outcome new
        → SeatNodeSaves K.is_honest old_keeper old outcome new_keeper new }
    ensures world { (begun old written new : WorldView) (party : ℕ) (save : ASave)
        (answer : Result (Unit {0}) DeviceFault) (outcome : Outcome)
        → SaveBegins begun (role party) (Ok save) → told_next begun (role party) ≡ told_next old (role party)
        → HostWrites K.is_honest old (role party) save answer written
        → SaveEnds written (role party) save.number answer outcome new
        → Calls L.is_honest K.is_honest old (events.Save party) outcome new }
    ensures none { (old : WorldView) (party : ℕ) (outcome : Outcome)
        → SaveBegins old (role party) (Err outcome)
        → Calls L.is_honest K.is_honest old (events.Save party) outcome old }
{}

/// States that parties which run each in a process of its own agree (docs/PROTOCOL.md,
/// "Parties in processes of their own"). Over an honest network and honest keepers, whatever calls
/// their nodes make, in any order, are a run of one world. So all holds of them that holds of such
/// runs.
pub fn processes_agree()
    // One call of a node is that event of the world, and all else stays.
    ensures step { (old : WorldView) (event : Event) (outcome : Outcome) (new : WorldView)
        → NodeCalls ⊤ ⊤ old event outcome new → Calls ⊤ ⊤ old event outcome new }
    // The start of a process is its party's restart, whatever the party held before.
    ensures referee_begins { (old new : RefereeNodeView) (old_keeper new_keeper : KeeperView) (outcome : Outcome)
        → RefereeNodeRestarts ⊤ old_keeper (fresh_referee_node old.id old.terms) outcome new_keeper new
        → RefereeNodeRestarts ⊤ old_keeper old outcome new_keeper new }
    ensures seat_begins { (old new : SeatNodeView) (old_keeper new_keeper : KeeperView) (outcome : Outcome)
        → SeatNodeRestarts ⊤ old_keeper (fresh_seat_node old.player old.id old.terms) outcome new_keeper new
        → SeatNodeRestarts ⊤ old_keeper old outcome new_keeper new }
    // Any calls are a run, where each process has devices of its own, what was sent is common, and
    // what was saved stays.
    ensures runs { (old : WorldView) (events : List Event) (outcomes : List Outcome) (new : WorldView)
        → Interleaves old events outcomes new → RunsProtocol old events outcomes new }
    ensures upholds { (old : WorldView) (events : List Event) (outcomes : List Outcome) (new : WorldView)
        → IsReachedWorld old → Interleaves old events outcomes new → Upholds new }
    // The same from the start of a match, where nothing was sent and all slots are empty. The dice
    // of each roll and opening are then those of a word that was handed in.
    ensures matches { (setup : Setup) (link : LinkView) (referee x o : KeeperView) (events : List Event)
        (outcomes : List Outcome) (new : WorldView) → IsSetup setup.id (terms_in setup) setup.watchers
        → AreUnused link referee x o → Interleaves (fresh_world setup link referee x o) events outcomes new
        → Upholds new × IsOfWords events new }
{}
