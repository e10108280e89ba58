//! The files that are written for others, in a folder.

use bg_console::{allocated, wrong, wrong_at};
use bg_options::BatchOptions;
use bg_reports::Ending;
use bg_system::Printable;
use std::alloc::{AllocError, Global};

/// The ends of the names of the files that are read, and of those that are written.
pub(super) type NameEndings = (&'static str, &'static str);

/// Returns the path of the file that is written for a file: its name in the folder, with the other
/// ending.
pub(super) fn target_of(
    alloc: Global,
    folder: &str,
    name: &str,
    endings: NameEndings,
) -> Result<String, AllocError> {
    let base = match name.rsplit_once('/') {
        Some((_, base)) => base,
        None => name,
    };
    let stem = base.strip_suffix(endings.0).unwrap_or(base);
    let ending = endings.1;
    format!(in alloc; "{folder}/{stem}{ending}")
}

/// Refuses two files of the same name, as the second would overwrite what is written for the first.
pub(super) fn check_targets(
    rt: &HostRuntime,
    batch: &BatchOptions<'_, '_>,
    endings: NameEndings,
) -> Result<(), Ending> {
    let targets = allocated(rt, sorted_targets(rt.alloc(), batch, endings))?;
    let mut before = "";
    for target in &targets {
        if target.as_str() == before {
            return Err(refuse_two(rt, batch, endings, before)?);
        }
        before = target.as_str();
    }
    Ok(())
}

/// Reports for which two files one and the same file would be written.
fn refuse_two(
    rt: &HostRuntime,
    batch: &BatchOptions<'_, '_>,
    endings: NameEndings,
    target: &str,
) -> Result<Ending, Ending> {
    let (first, second) = allocated(rt, named_both(rt.alloc(), batch, endings, target))?;
    if first == second {
        return Ok(wrong_at(rt, first, " is named twice: name it once"));
    }
    let (target, first, second) = (Printable(target), Printable(first), Printable(second));
    Ok(wrong(
        rt,
        format_args!(
            "{target} would be written for both {first} and {second}: rename one, or convert it into another folder"
        ),
    ))
}

/// Returns the last two files for which `target` is written.
fn named_both<'a>(
    alloc: Global,
    batch: &BatchOptions<'_, 'a>,
    endings: NameEndings,
    target: &str,
) -> Result<(&'a str, &'a str), AllocError> {
    let mut both: (&'a str, &'a str) = ("", "");
    for name in batch.files {
        if target_of(alloc, batch.folder, name, endings)?.as_str() == target {
            both = (both.1, name);
        }
    }
    Ok(both)
}

/// Returns the paths of all files that are written, sorted.
fn sorted_targets(
    alloc: Global,
    batch: &BatchOptions<'_, '_>,
    endings: NameEndings,
) -> Result<Vec<String>, AllocError> {
    let mut targets = Vec::new(alloc);
    for name in batch.files {
        targets.push(target_of(alloc, batch.folder, name, endings)?)?;
    }
    targets.sort()?;
    Ok(targets)
}
