//! The report on a file.
ghost use Rattle.std.specs.Prelude.{◌≡◌, ◌≢◌, ℕ, List, IsUtf8};
ghost use Rattle.bg_reports.specs.Check.{IsCheckText};
ghost use Rattle.bg_text.specs.declared.judging.verdicts.Verdict.{Verdict as AVerdict};
ghost use Rattle.bg_c.specs.Checks.{columns_numbered};
ghost use Rattle.bg_c.specs.Rooms.{PutsText};
ghost use Rattle.bg_c.specs.Status.{status_code};
ghost use Rattle.bg_c.specs.Verdicts.{verdict_fields};
ghost use Rattle.bg_c.specs.declared.statuses.Status.{Status as AStatus};
ghost use Rattle.bg_c.specs.declared.statuses.Status.TheVariants.{BadArgument, Memory};

use crate::judge::VerdictFields;
use crate::rooms::put;
use crate::statuses::Status;
use bg_reports::check_text;
use std::alloc::Global;

/// Returns the number of columns of a screen, or `None` for 0, where there is no screen.
fn columns_numbered(columns: u32) -> Option<usize>
    ensures { result ≡ columns_numbered columns }
{
    if columns == 0 {
        None
    } else {
        Some(columns as usize)
    }
}

/// Writes the report on a file of this name, a line: its verdict, and the line that is refused. The
/// file is a transcript, or a match file of another program, as its contents or the end of its name
/// say. The line fits a screen of so many columns; 0 is none. `verdict` is set where the result is
/// BG_OK or BG_NO_ROOM.
///
/// Returns BG_BAD_ARGUMENT where the name is not UTF-8; or BG_MEMORY where there was no memory.
#[unsafe(no_mangle)]
pub extern "C" fn bg_check(
    alloc: Global,
    name: &[u8],
    file: &[u8],
    columns: u32,
    verdict: &mut VerdictFields,
    out: &mut [u8],
    needed: &mut usize,
) -> u32
    ensures checked { IsUtf8 name.now → result ≢ status_code Memory → (text : List ℕ) × (found : AVerdict)
        × (status : AStatus) × IsCheckText name.now file.now (columns_numbered columns) text found
        × (verdict.new ≡ verdict_fields found) × PutsText text out.old status out.new needed.new
        × (result ≡ status_code status) }
    ensures memory { result ≡ status_code Memory → (verdict.new ≡ verdict.old) × (out.new ≡ out.old)
        × (needed.new ≡ needed.old) }
    ensures unnamed { (IsUtf8 name.now → ⊥) → (result ≡ status_code BadArgument) × (verdict.new ≡ verdict.old)
        × (out.new ≡ out.old) × (needed.new ≡ needed.old) }
{
    let Ok(name) = str::from_utf8(name) else {
        return Status::BadArgument.code();
    };
    let Ok((text, found)) = check_text(alloc, name, file, columns_numbered(columns)) else {
        return Status::Memory.code();
    };
    *verdict = VerdictFields::of(found);
    put(&text, out, needed).code()
}
