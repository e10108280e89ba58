//! The judge's output for an input: a board, and the verdict line.
ghost use Rattle.std.specs.Prelude.{◌≡◌, ◌≤◌, ◌++◌, ◌+◌, OnOk, IfOk};
ghost use Rattle.bg_match.specs.Limits.{most_entries};
ghost use Rattle.bg_text.specs.Boards.BoardText.{line_text, board_text as text_of_board};
ghost use Rattle.bg_text.specs.Judge.Judging.{refused_line, fine_line, IsTooLong};

use crate::Verdict;
use crate::board_texts::board_text;
use crate::faults::LineFault;
use crate::judging::courses::Course;
use crate::printing::{put_number, put_text};
use std::alloc::{AllocError, Global};

/// The judge's output for an input.
#[derive(Debug, PartialEq, Eq, Drop)]
pub struct Judgement {
    /// The board text of the standing after the good lines, and the verdict line.
    pub text: Vec<u8>,
    /// The verdict at the end of the text.
    pub verdict: Verdict,
}

/// Appends the verdict line of a refusal.
fn put_refused(out: &mut Vec<u8>, number: u32, why: LineFault) -> Result<(), AllocError>
    ensures { OnOk result (out.new.items ≡ out.old.items ++ line_text (refused_line number why)) }
{
    put_text(out, "refused at line ")?;
    put_number(out, number.into())?;
    put_text(out, ": ")?;
    put_text(out, why.reason().as_str())?;
    put_text(out, "\n")
}

/// Appends the verdict line of a good transcript.
fn put_fine(out: &mut Vec<u8>, entries: u32) -> Result<(), AllocError>
    ensures { OnOk result (out.new.items ≡ out.old.items ++ line_text (fine_line entries)) }
{
    put_text(out, "ok ")?;
    put_number(out, entries.into())?;
    put_text(out, "\n")
}

/// Returns the judgement where the line behind those of the course is refused.
pub(crate) fn refused(
    alloc: Global,
    course: &Course,
    why: LineFault,
) -> Result<Judgement, AllocError>
    ensures text { course.now.entries ≤ most_entries → IfOk result (λ judgement. judgement.text.items
        ≡ text_of_board course.now.standing ++ line_text (refused_line (course.now.entries + 2) why)) }
    ensures verdict { course.now.entries ≤ most_entries
        → IfOk result (λ judgement. judgement.verdict ≡ Verdict.Refused (course.now.entries + 2)) }
{
    let number = course.entries.saturating_add(2);
    let mut text = board_text(alloc, &course.standing)?;
    put_refused(&mut text, number, why)?;
    Ok(Judgement {
        text,
        verdict: Verdict::Refused(number),
    })
}

/// Returns the judgement where all lines are those of the course.
pub(crate) fn fine(alloc: Global, course: &Course) -> Result<Judgement, AllocError>
    ensures text { IfOk result (λ judgement. judgement.text.items
        ≡ text_of_board course.now.standing ++ line_text (fine_line course.now.entries)) }
    ensures verdict { IfOk result (λ judgement. judgement.verdict ≡ Verdict.Fine course.now.entries) }
{
    let mut text = board_text(alloc, &course.standing)?;
    put_fine(&mut text, course.entries)?;
    Ok(Judgement {
        text,
        verdict: Verdict::Fine(course.entries),
    })
}

/// Returns the judgement where line 1 is refused.
pub(crate) fn refused_at_once(alloc: Global, why: LineFault) -> Result<Judgement, AllocError>
    ensures { IfOk result (λ judgement. (judgement.text.items ≡ line_text (refused_line 1 why))
        × (judgement.verdict ≡ Verdict.Refused 1)) }
{
    let mut text = Vec::new(alloc);
    put_refused(&mut text, 1, why)?;
    Ok(Judgement {
        text,
        verdict: Verdict::Refused(1),
    })
}

/// Returns the judgement on an input that is longer than the limit (docs/FORMATS.md, "The judge").
///
/// # Errors
/// `AllocError` where there is no memory for the text.
pub fn too_long(alloc: Global) -> Result<Judgement, AllocError>
    ensures { IfOk result (λ judgement. IsTooLong judgement.text.items judgement.verdict) }
{
    Ok(Judgement {
        text: Vec::from_slice(alloc, b"refused: input too long\n")?,
        verdict: Verdict::TooLong,
    })
}
