//! The judge of a transcript.
ghost use Rattle.std.specs.Prelude.{◌≡◌, ◌≢◌, ◌≤◌, ◌+◌, ℕ, List, IfOk, IfErr, IfSome};
ghost use Rattle.bg_streams.specs.EngineFault.{SourceFails, SinkFails};
ghost use Rattle.bg_streams.specs.Transfers.{ReadsInput, WritesText};
ghost use Rattle.bg_text.specs.Judge.Judging.{IsJudgement, TranscriptsAreFine, JudgementsAgree};
ghost use Rattle.bg_text.specs.Judge.Transcripts.{TranscriptFaultsAreJudged};
ghost use Rattle.bg_text.specs.Limits.{most_bytes};

pub(crate) mod courses;
pub(crate) mod hearing;
pub(crate) mod judgements;
pub(crate) mod length_lines;
pub(crate) mod reading;
pub(crate) mod reasons;
pub(crate) mod verdicts;

use crate::inputs::MAX_INPUT;
use crate::judging::hearing::{Judge, hear_input};
use crate::judging::judgements::too_long;
use crate::{Judgement, Verdict};
use bg_streams::{EngineFault, Sink, Source, write_text};
use std::alloc::{AllocError, Global};

/// Returns the judge's output for an input: the board after its longest legal part, and the
/// verdict, as docs/FORMATS.md, "The judge", describes them.
///
/// # Errors
/// AllocError where there is no memory for the text or a line.
pub fn judge_text(alloc: Global, input: &[u8]) -> Result<Judgement, AllocError>
    ensures { IfOk result (λ judgement. IsJudgement input.now judgement.text.items judgement.verdict) }
{
    if input.len() > MAX_INPUT {
        return too_long(alloc);
    }
    let mut judge = Judge::new(alloc);
    judge.tell(input)?;
    judge.end(alloc)
}

/// States that an input has one judgement: no two texts, and no two verdicts, are both right.
pub fn judgements_agree()
    ensures { JudgementsAgree }
{}

/// States that the judge finds every transcript fine: it prints the board that the entries lead to,
/// and their number.
pub fn transcripts_are_fine()
    ensures { TranscriptsAreFine }
{}

/// States that where a transcript gives no record because of a line, the judge refuses it at that
/// line and prints the reason last.
pub fn transcript_faults_are_judged()
    ensures { TranscriptFaultsAreJudged }
{}

/// Judges a transcript: reads all of the input, writes the board and the verdict, and flushes them,
/// as docs/FORMATS.md, "The judge", describes it. The input has at most 41943040 bytes, which take
/// at most 41943041 reads. Of a longer one 41943041 bytes are read, and it is TooLong. The sink is
/// flushed once, at the end.
///
/// # Errors
/// Read exactly where the source failed, and Memory where memory runs out: then nothing was
/// written. Write exactly where the sink failed while it was written to or flushed: how much it
/// wrote is unspecified.
pub fn judge<S: Source, T: Sink>(
    alloc: Global,
    source: &mut S,
    sink: &mut T,
) -> Result<Verdict, EngineFault>
    ensures judged { IfOk result (λ verdict. (input : List ℕ) × (text : List ℕ)
        × ReadsInput most_bytes S.Source source.old source.new input × IsJudgement input text verdict
        × WritesText T.Sink sink.old sink.new text
        × IfSome (S.remaining source.old) (λ bytes. IsJudgement bytes text verdict)) }
    ensures untaken { IfErr result (λ _. T.taken sink.new ≡ T.taken sink.old) }
    ensures unwritten { IfErr result (λ fault. fault ≢ EngineFault.Write → sink.new ≡ sink.old) }
    ensures reads { S.reads source.new ≤ S.reads source.old + most_bytes + 1 }
    ensures flushes { T.flushes sink.new ≤ T.flushes sink.old + 1 }
    ensures source { SourceFails result (S.failures source.old) (S.failures source.new) }
    ensures sink { SinkFails result (T.failures sink.old) (T.failures sink.new) }
{
    let judgement = match hear_input(alloc, source)? {
        Some(judge) => judge.end(alloc),
        None => too_long(alloc),
    }
    .map_err(|_| EngineFault::Memory)?;
    write_text(sink, &judgement.text).map_err(|_| EngineFault::Write)?;
    Ok(judgement.verdict)
}
