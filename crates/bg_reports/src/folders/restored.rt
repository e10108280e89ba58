//! The match that two saved files of a party restore.
ghost use Rattle.std.specs.Prelude.{◌≡◌, IfOk};
ghost use Rattle.std.specs.Option.{option_copied};
ghost use Rattle.bg_wire.specs.Saved.Restoring.{newer, parts_in};
ghost use Rattle.bg_reports.specs.Restored.{IsRestoredTranscript};
ghost use Rattle.bg_reports.specs.Show.{loaded_of};

use crate::showing::{Held, hold};
use bg_text::transcript_text;
use bg_wire::Saved;
use std::alloc::{AllocError, Global};

/// Returns the transcript of what two saved files of a party restore (docs/FORMATS.md,
/// "Showing saved files"). Returns `None` where neither loads.
///
/// # Errors
/// `AllocError` where memory runs out.
pub fn restored_transcript(
    alloc: Global,
    file0: &[u8],
    file1: &[u8],
) -> Result<Option<Vec<u8>>, AllocError>
    ensures { IfOk result (IsRestoredTranscript file0.now file1.now) }
{
    let zero = hold(alloc, file0)?;
    let one = hold(alloc, file1)?;
    match newer_of(&zero, &one) {
        Some(saved) => Ok(Some(transcript_text(alloc, &saved.log)?)),
        None => Ok(None),
    }
}

/// Returns the save with the greater number of those that two files hold, and that of file 0 where
/// they are equal.
pub(crate) fn newer_of<'a>(zero: &'a Held, one: &'a Held) -> Option<&'a Saved>
    ensures { parts_in (option_copied result) ≡ newer (loaded_of zero.now) (loaded_of one.now) }
{
    match (zero, one) {
        (Ok(zero), Ok(one)) if zero.save < one.save => Some(one),
        (Ok(zero), _) => Some(zero),
        (Err(_), Ok(one)) => Some(one),
        (Err(_), Err(_)) => None,
    }
}
