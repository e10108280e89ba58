//! Laws about hosted matches, each written as the contract of a function that does nothing.
ghost use Rattle.bg_hosted.specs.Laws.{StaysReached, TellsSavedAlone};
ghost use Rattle.bg_hosted.specs.Lives.{BeginsReached, GoesOnReached};

/// States two laws about a match over honest keepers, in a state that a run can lead to
/// (docs/PROTOCOL.md, "The state and its steps"):
/// - `reached`: whatever happens to the match between the actions of its players, a run can lead to
///   the result as well;
/// - `saved`: the record that everybody is shown is a prefix of what the referee has saved.
pub fn what_is_told_is_saved()
    ensures reached { StaysReached }
    ensures saved { TellsSavedAlone }
{}

/// States that all lives of a match at a server are one run, over honest keepers, however often the
/// server is killed (docs/PROTOCOL.md, "The state and its steps"):
/// - `begins`: if a run leads to the world at the end of one life, it also leads to the world with
///   which the next life begins, over the same slots;
/// - `goes_on`: this stays true, whatever event happens in that life.
pub fn lives_are_one_run()
    ensures begins { BeginsReached }
    ensures goes_on { GoesOnReached }
{}
