//! Whole inputs and whole texts.
ghost use Rattle.std.specs.Prelude.{◌≡◌, ◌≤◌, ◌+◌, IfOk, OnErr, OnOk};
ghost use Rattle.bg_streams.specs.Devices.{CountsFailure};
ghost use Rattle.bg_streams.specs.EngineFault.{ReadsFailOnce};
ghost use Rattle.bg_streams.specs.Transfers.{ReadsInput, WritesText};

use crate::{EngineFault, Sink, Source, StreamFault};
use std::alloc::Global;

/// Reads all of an input, up to the source's end. Of an input longer than `most` bytes it reads
/// `most` bytes and one more, by which a caller sees that it is too long. It makes at most
/// `most + 1` reads.
///
/// # Errors
/// Read exactly where the source failed, and Memory where memory runs out. Write never comes.
pub fn read_input<S: Source>(
    alloc: Global,
    source: &mut S,
    most: usize,
) -> Result<Vec<u8>, EngineFault>
    ensures read { IfOk result (λ input. ReadsInput most S.Source source.old source.new input.items) }
    ensures reads { S.reads source.new ≤ S.reads source.old + most + 1 }
    ensures failed { ReadsFailOnce result (S.failures source.old) (S.failures source.new) }
{
    let mut input = Vec::new(alloc);
    let mut chunk = [0; 4096];
    while input.len() <= most {
        let room = chunk.len().min((most - input.len()).saturating_add(1));
        let part = &mut chunk[..room];
        let count = source.read(part).map_err(|_| EngineFault::Read)?;
        if count == 0 {
            return Ok(input);
        }
        input
            .extend_from_slice(&part[..count])
            .map_err(|_| EngineFault::Memory)?;
    }
    Ok(input)
}

/// Writes a text to a sink, behind what the sink held, and flushes it.
///
/// # Errors
/// `StreamFault` exactly where the sink failed as it was written to or flushed. It has taken no
/// more, and it is not known how much went out.
pub fn write_text<T: Sink>(sink: &mut T, text: &[u8]) -> Result<(), StreamFault>
    ensures written { OnOk result (WritesText T.Sink sink.old sink.new text.now) }
    ensures untaken { OnErr result (T.taken sink.new ≡ T.taken sink.old) }
    ensures flushes { T.flushes sink.new ≤ T.flushes sink.old + 1 }
    ensures cause { CountsFailure (T.failures sink.old) (T.failures sink.new) result }
{
    sink.write_all(text)?;
    sink.flush()
}
