//! Judging a transcript while its bytes arrive.
ghost use Rattle.std.specs.Prelude.{◌≡◌, ◌≤◌, ◌+◌, ℕ, List, [], ◌∷◌, ◌++◌, None, IfOk, OnOk};
ghost use Rattle.bg_streams.specs.EngineFault.{ReadsFailOnce};
ghost use Rattle.bg_streams.specs.Transfers.{ReadsInput};
ghost use Rattle.bg_text.specs.Judge.Hearing.{HasHeard, IsHeardOf, IsUnended};
ghost use Rattle.bg_text.specs.Judge.Judging.{IsAnswerTo, lines_of};
ghost use Rattle.bg_text.specs.Limits.{most_bytes};

use crate::inputs::{MAX_INPUT, split_ended_line};
use crate::judging::courses::Heard;
use crate::judging::judgements::Judgement;
use bg_streams::{EngineFault, Source};
use std::alloc::{AllocError, Global};

/// A judge that is fed a transcript part by part. It keeps where the lines lead, and the bytes of a
/// line whose end has not come. It keeps nothing of what follows a refused line.
#[derive(Debug, Drop)]
pub(crate) struct Judge {
    heard: Heard,
    unended: Vec<u8>,
}

impl Judge {
    /// Returns a judge with no input.
    pub(crate) fn new(alloc: Global) -> Judge
        ensures { HasHeard [] result.heard result.unended.items }
    {
        Judge {
            heard: Heard::nothing(),
            unended: Vec::new(alloc),
        }
    }

    /// Feeds the judge the next bytes.
    pub(crate) fn tell(&mut self, bytes: &[u8]) -> Result<(), AllocError>
        ensures { OnOk result ((told : List ℕ) → HasHeard told self.old.heard self.old.unended.items
            → HasHeard (told ++ bytes.now) self.new.heard self.new.unended.items) }
    {
        let mut rest = bytes;
        while self.heard.refusal.is_none() {
            let Some((line, behind)) = split_ended_line(rest) else {
                return self.unended.extend_from_slice(rest);
            };
            self.end_line(line)?;
            rest = behind;
        }
        Ok(())
    }

    /// Feeds the bytes up to the end of a line, where none was refused.
    fn end_line(&mut self, bytes: &[u8]) -> Result<(), AllocError>
        ensures { OnOk result (IsUnended bytes.now → self.old.heard.refusal ≡ None → (told : List ℕ)
            → HasHeard told self.old.heard self.old.unended.items
            → HasHeard (told ++ bytes.now ++ 10 ∷ []) self.new.heard self.new.unended.items) }
    {
        if self.unended.is_empty() {
            self.heard.hear(bytes);
            return Ok(());
        }
        self.unended.extend_from_slice(bytes)?;
        self.heard.hear(&self.unended);
        self.unended.clear();
        Ok(())
    }

    /// Returns the judgement on the whole input.
    pub(crate) fn end(self, alloc: Global) -> Result<Judgement, AllocError>
        ensures { IfOk result (λ judgement. (told : List ℕ) → HasHeard told self.heard self.unended.items
            → IsAnswerTo (lines_of told) judgement.text.items judgement.verdict) }
    {
        let Judge { heard, unended } = self;
        if heard.refusal.is_some() || unended.is_empty() {
            return heard.judgement(alloc);
        }
        let mut whole = heard;
        whole.hear(&unended);
        whole.judgement(alloc)
    }
}

/// Number of bytes that are read at once.
const CHUNK: usize = 65_536;

/// Returns a judge that was fed all of an input, up to the source's end. Returns `None` where the
/// input is longer than the limit; it has then read one byte more than that.
///
/// # Errors
/// Read exactly where the source failed, and Memory where memory runs out.
pub(crate) fn hear_input<S: Source>(
    alloc: Global,
    source: &mut S,
) -> Result<Option<Judge>, EngineFault>
    ensures heard { IfOk result (λ judge. (input : List ℕ) × ReadsInput most_bytes S.Source source.old source.new input
        × IsHeardOf judge input) }
    ensures reads { S.reads source.new ≤ S.reads source.old + most_bytes + 1 }
    ensures failed { ReadsFailOnce result (S.failures source.old) (S.failures source.new) }
{
    let mut judge = Judge::new(alloc);
    let mut chunk = [0; CHUNK];
    let mut left = MAX_INPUT + 1;
    while left > 0 {
        let room = chunk.len().min(left);
        let part = &mut chunk[..room];
        let count = source.read(part).map_err(|_| EngineFault::Read)?;
        if count == 0 {
            return Ok(Some(judge));
        }
        judge.tell(&part[..count]).map_err(|_| EngineFault::Memory)?;
        left -= count;
    }
    Ok(None)
}
