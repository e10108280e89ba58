//! The laws of processes and of nodes behind a fence.
ghost use Rattle.std.specs.Prelude.{◌≡◌, List, [], ◌∷◌, Option, ⊤};
ghost use Rattle.bg_board.specs.declared.players.Player.{Player};
ghost use Rattle.bg_party.specs.Views.{SeatView};
ghost use Rattle.bg_referee.specs.Referee.{RefereeView};
ghost use Rattle.bg_wire.specs.Entries.Codes.{referee as referee_party};
ghost use Rattle.bg_wire.specs.Parties.{party_of};
ghost use Rattle.bg_fences.specs.FencedPromises.{FencedHeadline, HoldsOfNewest, ShowsWordsHandedIn};
ghost use Rattle.bg_fences.specs.NodeActs.{IsReachedByNodes, NodeActs, referee_with, seat_with};
ghost use Rattle.bg_fences.specs.ProcessRuns.{IsReachedByProcesses, events_of};
ghost use Rattle.bg_fences.specs.SharedMatches.{Becomes, SharedMatch};
ghost use Rattle.bg_fences.specs.SharedNodes.{IsFencedAt, SharedNodes, cores_of, processes_of, referee_number};
ghost use Rattle.bg_fences.specs.SharedNodes.{seat_number, slots_of, with_seat_nodes};
ghost use Rattle.bg_protocol.specs.Worlds.Nodes.{RefereeNodeSaves, RefereeNodeView, SeatNodeSaves, SeatNodeView};
ghost use Rattle.bg_protocol.specs.Worlds.Views.{KeeperView};
ghost use Rattle.bg_protocol.specs.Worlds.WorldState.{Restorable};
ghost use Rattle.bg_protocol.specs.declared.events.Event.TheVariants as events;
ghost use Rattle.bg_protocol.specs.declared.events.Outcome.{Outcome};

/// States that processes behind a fence agree, whatever calls they make, in any order, and however
/// old what they hold is. What is settled is one legal match, and all that any process has told,
/// saved or learned is a prefix of it.
pub fn fenced_processes_agree()
    ensures headline { (m : SharedMatch) → IsReachedByProcesses m → FencedHeadline m }
    // A process whose last save is the newest is like the only one of its party.
    ensures newest { (m : SharedMatch) → IsReachedByProcesses m → HoldsOfNewest m }
    ensures words { (m : SharedMatch) (reached : IsReachedByProcesses m)
        → ShowsWordsHandedIn m (events_of reached.history) }
{}

/// States the same of any number of nodes for each party, each over honest devices of its own: they
/// share one network, and one store with such a fence. A restart may find each slot as it was at
/// any earlier moment.
pub fn fenced_nodes_agree()
    ensures { (m : SharedNodes) → IsReachedByNodes m → (r : Restorable)
        × FencedHeadline (processes_of m r) × HoldsOfNewest (processes_of m r) }
{}

/// States that a save by [`save_referee`](crate::save_referee) or [`save_seat`](crate::save_seat)
/// is a call of the nodes of [`fenced_nodes_agree`], where the keeper is honest, keeps the fence,
/// and has the slots that the party's nodes share. What these calls ensure is all that the law asks
/// of them.
pub fn fenced_saves_are_calls()
    ensures referee { (moments : List SharedNodes) (m : SharedNodes) (core : Option RefereeView) (cores : List (Option RefereeView))
        (old new : KeeperView) (after : RefereeNodeView) (outcome : Outcome)
        → old.slots ≡ m.referee_slots
        → RefereeNodeSaves ⊤ old (referee_with m core) outcome new after
        → IsFencedAt old.slots (referee_number core) outcome new.slots
        → Becomes m.referees core (after.core ∷ []) cores
        → NodeActs moments m (events.Save referee_party) outcome
        (record m { referees = cores; referee_slots = new.slots }) }
    ensures seat { (moments : List SharedNodes) (m : SharedNodes) (player : Player) (core : Option SeatView) (cores : List (Option SeatView))
        (old new : KeeperView) (after : SeatNodeView) (outcome : Outcome)
        → old.slots ≡ slots_of m player
        → SeatNodeSaves ⊤ old (seat_with m player core) outcome new after
        → IsFencedAt old.slots (seat_number core) outcome new.slots
        → Becomes (cores_of m player) core (after.core ∷ []) cores
        → NodeActs moments m (events.Save (party_of player)) outcome (with_seat_nodes m player cores new.slots) }
{}
