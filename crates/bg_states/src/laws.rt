//! A law about states, written as the contract of a function that does nothing.
ghost use Rattle.bg_states.specs.Laws.{IsOneText};

/// States that what a peer is sent depends only on the record and on the peer's seat. Two texts are
/// equal if both are the state of one record for the same seat, or for none (docs/SERVING.md,
/// "State").
pub fn states_are_functions()
    ensures { IsOneText }
{}
