//! Laws of the definitions. Each is the contract of a function that does nothing.
ghost use Rattle.bg_party.specs.Retry.{KeepsTheGaps};
ghost use Rattle.bg_party.specs.Learns.{TeachesOneThing};

/// States that a packet teaches the holder of a record one thing, but for `Memory`. What is learned
/// is a function of the two.
pub fn packets_teach_one_thing()
    ensures { TeachesOneThing }
{}

/// States the backoff of a follower: after a tick on which it sends, it is silent until its gap is
/// over, and then sends. The next gap is twice as long, up to 32 ticks.
pub fn followers_keep_the_gaps()
    ensures { KeepsTheGaps }
{}
