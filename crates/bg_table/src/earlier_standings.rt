//! The standings of a match before its entries.
ghost use Rattle.std.specs.Prelude.{◌≤◌, ◌-◌, length, take};
ghost use Rattle.bg_match.specs.Follows.{CanFollow, Follows};
ghost use Rattle.bg_match.specs.Match.{StandsAt};

use bg_match::{Entry, Number, Record, Standing};

/// Returns the standing of a match before the entry of this number, from 1.
pub(crate) fn standing_before(log: &Record, number: Number) -> Standing
    requires first { 1 ≤ number }
    requires last { number ≤ length log.now.entries }
    ensures { StandsAt log.now.terms (take (number - 1) log.now.entries) result }
{
    let mut standing = Standing::start(log.length(), log.rules());
    for played in 0..number - 1 {
        let entry = log.entry(played + 1).unwrap();
        standing = standing_after(&standing, entry);
    }
    standing
}

/// Returns the standing after an entry that may follow.
fn standing_after(before: &Standing, entry: &Entry) -> Standing
    requires { CanFollow before.now entry.now }
    ensures { Follows before.now entry.now result }
{
    before.next(entry).unwrap()
}
