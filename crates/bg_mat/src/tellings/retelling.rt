//! What a match file says of a record, from its first entry to its last.
ghost use Rattle.std.specs.Prelude.{◌≡◌, OnOk, IfOk};
ghost use Rattle.bg_match.specs.Follows.{CanFollow, Follows};
ghost use Rattle.bg_mat.specs.Retelling.{AddsEntry, TellsRecord};
ghost use Rattle.bg_mat.specs.Tellings.{with_telling};

use crate::tellings::{Telling, dice_left, told_by, win_between};
use bg_match::{Entry, Record, Standing};
use std::alloc::{AllocError, Global};

/// Appends a telling, if there is one.
fn add_telling(tellings: &mut Vec<Telling>, telling: Option<Telling>) -> Result<(), AllocError>
    ensures { OnOk result (tellings.new.items ≡ with_telling tellings.old.items telling) }
{
    if let Some(telling) = telling {
        tellings.push(telling)?;
    }
    Ok(())
}

/// Appends what an entry says, and returns the standing after it.
fn add_entry(
    tellings: &mut Vec<Telling>,
    before: &Standing,
    entry: &Entry,
) -> Result<Standing, AllocError>
    requires { CanFollow before.now entry.now }
    ensures { IfOk result (λ after. Follows before.now entry.now after
        × AddsEntry before.now entry.now after tellings.old.items tellings.new.items) }
{
    let after = before.next(entry).unwrap();
    add_telling(tellings, told_by(before, entry))?;
    add_telling(tellings, win_between(before, &after))?;
    Ok(after)
}

/// Returns what a match file says of a record.
pub(crate) fn tellings_of(alloc: Global, log: &Record) -> Result<Vec<Telling>, AllocError>
    ensures { IfOk result (λ tellings. TellsRecord log.now tellings.items) }
{
    let mut tellings = Vec::new(alloc);
    let mut standing = Standing::start(log.length(), log.rules());
    for written in 0..log.len() {
        let entry = log.entry(written + 1).unwrap();
        standing = add_entry(&mut tellings, &standing, entry)?;
    }
    add_telling(&mut tellings, dice_left(standing.phase()))?;
    Ok(tellings)
}
