//! The entries that a packet tells, compared with a record: whether they agree with it, and whether
//! they follow.
ghost use Rattle.std.specs.Prelude.{◌≡◌, ◌≤◌, ◌<◌, ◌+◌, ◌++◌, length, MatchOption};
ghost use Rattle.bg_match.specs.Limits.{most_entries};
ghost use Rattle.bg_match.specs.Match.{IsLegalRecord, StandsAt};
ghost use Rattle.bg_party.specs.Learns.{Agrees, IsConflict, FollowsFor, new_entries};

use bg_match::{Entry, Number, Record, Standing};

/// Returns the least number under which the list tells another entry than the one that is held. The
/// first entry of the list has the number `start`.
pub(crate) fn first_conflict(log: &Record, start: Number, list: &[Entry]) -> Option<Number>
    requires first { 1 ≤ start }
    requires last { start + length list.now ≤ most_entries + 1 }
    ensures { MatchOption result (Agrees log.now.entries start list.now)
        (λ n. IsConflict log.now.entries start list.now n) }
{
    for (index, told) in list.iter().enumerate() {
        let number = start + index as Number;
        match log.entry(number) {
            Some(held) if held == told => {}
            Some(_) => return Some(number),
            None => return None,
        }
    }
    None
}

/// Returns the entries of the list that are not held yet, or `None` where it begins behind the
/// entry that comes next.
pub(crate) fn not_held<'a>(log: &Record, start: Number, list: &'a [Entry]) -> Option<&'a [Entry]>
    ensures { MatchOption result
        (length log.now.entries + 1 < start)
        (λ new. (start ≤ length log.now.entries + 1) × (new.now ≡ new_entries log.now.entries start list.now)) }
{
    let next = log.len() as usize + 1;
    let held = next.checked_sub(start as usize)?;
    Some(&list[held.min(list.len())..])
}

/// Returns the number of entries of the list that follow behind those of the record and the new
/// ones, which lead to this standing.
pub(crate) fn count_that_follow(
    log: &Record,
    new: &[Entry],
    mut standing: Standing,
    list: &[Entry],
) -> usize
    requires stands { StandsAt log.now.terms (log.now.entries ++ new.now) standing }
    requires few { length log.now.entries + length new.now + length list.now ≤ most_entries }
    ensures { FollowsFor log.now.terms (log.now.entries ++ new.now) list.now result }
{
    for (index, entry) in list.iter().enumerate() {
        if standing.apply(entry).is_err() {
            return index;
        }
    }
    list.len()
}

/// Appends entries that follow, for which there is room.
pub(crate) fn append(log: &mut Record, new: &[Entry])
    requires legal { IsLegalRecord log.old.terms (log.old.entries ++ new.now) }
    requires room { length new.now ≤ log.old.spare }
    ensures same { log.new ≡ record log.old { entries = log.old.entries ++ new.now; spare = log.new.spare } }
    ensures room { log.new.spare + length new.now ≡ log.old.spare }
{
    log.extend(new).unwrap();
}
