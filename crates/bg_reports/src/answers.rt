//! The result of a call of `act`, by the entry that answers its action.
ghost use Rattle.std.specs.Prelude.{◌≡◌, ◌↔◌, true};
ghost use Rattle.bg_match.specs.Answers.{IsAnswer};
ghost use Rattle.bg_reports.specs.Acting.{IsActEnding};

use crate::endings::Ending;
use bg_match::{Action, Entry, Number, Record};

/// Returns whether an entry answers an action.
fn answers(action: &Action, entry: &Entry) -> bool
    ensures { (result ≡ true) ↔ IsAnswer action.now entry.now }
{
    match (action, entry) {
        (Action::Roll, Entry::Rolled(_))
        | (Action::Double, Entry::Doubled)
        | (Action::Take, Entry::Taken)
        | (Action::Drop, Entry::Dropped)
        | (Action::Accept, Entry::Accepted)
        | (Action::Reject, Entry::Rejected) => true,
        (Action::Move(turn), Entry::Moved(played)) => turn == played,
        (Action::Resign(level), Entry::Resigned(offered)) => level == offered,
        _ => false,
    }
}

/// Returns the ending of a call whose action was claimed as the entry with this number, from 1. It
/// is served where the record has that entry, and the entry answers the action.
pub fn ending_of(log: &Record, action: &Action, number: Number) -> Ending
    ensures { IsActEnding log.now.entries action.now number result }
{
    match log.entry(number) {
        Some(entry) if answers(action, entry) => Ending::Served,
        _ => Ending::ActionRefused,
    }
}
