//! Saves of nodes over a keeper that has a fence.
ghost use Rattle.bg_protocol.specs.Worlds.Nodes.{RefereeNodeSaves, SeatNodeSaves, referee_node_of, seat_node_of};
ghost use Rattle.bg_protocol.specs.Worlds.Views.{keeper_view};
ghost use Rattle.bg_fences.specs.SharedNodes.{IsFencedAt, referee_number, seat_number};

use crate::FencedKeeper;
use bg_protocol::{Outcome, RefereeNode, SeatNode};

/// Saves what a node of the referee holds, over a keeper that other nodes of the referee may share.
/// It does what [`RefereeNode::save`] does, except that the fence may refuse the save. Then the
/// outcome is `SaveFault`, and the node is down; after a restart it goes on from the newer save.
pub fn save_referee<K: FencedKeeper>(referee: &mut RefereeNode, keeper: &mut K) -> Outcome
    ensures saves { RefereeNodeSaves K.is_honest (keeper_view K.Keeper keeper.old) (referee_node_of referee.old) result
        (keeper_view K.Keeper keeper.new) (referee_node_of referee.new) }
    ensures fence { K.is_fenced → IsFencedAt (K.slots keeper.old) (referee_number (referee_node_of referee.old).core)
        result (K.slots keeper.new) }
{
    match referee.begin_save() {
        Err(outcome) => outcome,
        Ok(save) => {
            let written = keeper.write_save(&save);
            referee.end_save(save.number, written).unwrap()
        }
    }
}

/// Saves what a node of a seat holds, over a keeper that other nodes of the seat may share, as
/// [`save_referee`] does.
pub fn save_seat<K: FencedKeeper>(seat: &mut SeatNode, keeper: &mut K) -> Outcome
    ensures saves { SeatNodeSaves K.is_honest (keeper_view K.Keeper keeper.old) (seat_node_of seat.old) result
        (keeper_view K.Keeper keeper.new) (seat_node_of seat.new) }
    ensures fence { K.is_fenced → IsFencedAt (K.slots keeper.old) (seat_number (seat_node_of seat.old).core)
        result (K.slots keeper.new) }
{
    match seat.begin_save() {
        Err(outcome) => outcome,
        Ok(save) => {
            let written = keeper.write_save(&save);
            seat.end_save(save.number, written).unwrap()
        }
    }
}
