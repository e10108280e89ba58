//! Comparing a saved match with another one.
ghost use Rattle.std.specs.Prelude.{◌≡◌, ◌≤◌, ◌↔◌, IsTrue, MatchOption, length};
ghost use Rattle.bg_match.specs.Match.{at_number};
ghost use Rattle.bg_wire.specs.Saved.SavedText.{parts_of};
ghost use Rattle.bg_reports.specs.Folder.{Agree, IsCompared, IsFirstDifference, IsSameMatch};

use bg_match::{Number, Record};
use bg_wire::Saved;

/// The result of comparing a saved match with another one.
#[derive(Clone, Copy, Debug, PartialEq, Eq)]
pub enum Compared {
    /// They are of different matches.
    OtherMatch,
    /// The entries with this number are the first that differ.
    Differs(Number),
    /// They agree as far as both go, and the other one has this number of further entries.
    Behind(Number),
}

/// Compares a saved match with another one (docs/FORMATS.md, "Showing saved files").
pub fn compare(saved: &Saved, other: &Saved) -> Compared
    ensures { IsCompared result (parts_of saved.now) (parts_of other.now) }
{
    if !is_same_match(saved, other) {
        return Compared::OtherMatch;
    }
    let (log, others) = (&saved.log, &other.log);
    match first_difference(log, others) {
        Some(number) => Compared::Differs(number),
        None => Compared::Behind(others.len().saturating_sub(log.len())),
    }
}

/// Returns whether two saved matches have the same number, length and rules.
fn is_same_match(saved: &Saved, other: &Saved) -> bool
    ensures { IsTrue result ↔ IsSameMatch (parts_of saved.now) (parts_of other.now) }
{
    saved.log.id() == other.log.id()
        && saved.log.length() == other.log.length()
        && saved.log.rules() == other.log.rules()
}

/// Returns the least number whose entries differ, of those that both hold.
fn first_difference(log: &Record, others: &Record) -> Option<Number>
    ensures { MatchOption result
        (Agree log.now.entries others.now.entries)
        (λ n. IsFirstDifference n log.now.entries others.now.entries) }
{
    for before in 0..log.len().min(others.len()) {
        if !is_same_at(log, others, before + 1) {
            return Some(before + 1);
        }
    }
    None
}

/// Returns whether the entries with this number are the same.
fn is_same_at(log: &Record, others: &Record, number: Number) -> bool
    requires first { 1 ≤ number }
    requires held { number ≤ length log.now.entries }
    requires held_there { number ≤ length others.now.entries }
    ensures { IsTrue result ↔ (at_number log.now.entries number ≡ at_number others.now.entries number) }
{
    let entry = log.entry(number).unwrap();
    let other = others.entry(number).unwrap();
    entry == other
}
