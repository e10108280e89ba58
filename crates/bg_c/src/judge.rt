//! The judge of transcripts.
ghost use Rattle.std.specs.Prelude.{◌≡◌, ◌≢◌, ℕ, List};
ghost use Rattle.bg_text.specs.Judge.Judging.{IsJudgement};
ghost use Rattle.bg_text.specs.declared.judging.verdicts.Verdict.{Verdict as AVerdict};
ghost use Rattle.bg_c.specs.Rooms.{PutsText};
ghost use Rattle.bg_c.specs.Status.{status_code};
ghost use Rattle.bg_c.specs.Verdicts.{verdict_fields};
ghost use Rattle.bg_c.specs.declared.statuses.Status.{Status as AStatus};
ghost use Rattle.bg_c.specs.declared.statuses.Status.TheVariants.{Memory};

use crate::rooms::put;
use crate::statuses::Status;
use bg_text::{Verdict, judge_text};
use std::alloc::Global;

/// The verdict on a transcript, `bg_verdict` of the header.
#[repr(C)]
#[derive(Clone, Copy)]
pub struct VerdictFields {
    /// 0 fine, 1 refused, 2 longer than 41943040 bytes.
    pub kind: u32,
    /// The number of entries where it is fine, that of the refused line, from 1, where it is
    /// refused, and 0 otherwise.
    pub number: u32,
    /// 0.
    pub reserved: [u32; 2],
}

impl VerdictFields {
    /// Returns the parts of a verdict.
    pub(crate) fn of(verdict: Verdict) -> VerdictFields
        ensures { result ≡ verdict_fields verdict }
    {
        let (kind, number) = match verdict {
            Verdict::Fine(entries) => (0, entries),
            Verdict::Refused(line) => (1, line),
            Verdict::TooLong => (2, 0),
        };
        VerdictFields {
            kind,
            number,
            reserved: [0; 2],
        }
    }
}

/// Judges a transcript: writes the board after its longest legal part, and the line of the verdict.
/// `verdict` is set where the result is BG_OK or BG_NO_ROOM. Returns BG_MEMORY where there was no
/// memory.
#[unsafe(no_mangle)]
pub extern "C" fn bg_judge(
    alloc: Global,
    transcript: &[u8],
    verdict: &mut VerdictFields,
    out: &mut [u8],
    needed: &mut usize,
) -> u32
    ensures judged { result ≢ status_code Memory → (text : List ℕ) × (found : AVerdict) × (status : AStatus)
        × IsJudgement transcript.now text found × (verdict.new ≡ verdict_fields found)
        × PutsText text out.old status out.new needed.new × (result ≡ status_code status) }
    ensures memory { result ≡ status_code Memory → (verdict.new ≡ verdict.old) × (out.new ≡ out.old)
        × (needed.new ≡ needed.old) }
{
    let Ok(judgement) = judge_text(alloc, transcript) else {
        return Status::Memory.code();
    };
    *verdict = VerdictFields::of(judgement.verdict);
    put(&judgement.text, out, needed).code()
}
