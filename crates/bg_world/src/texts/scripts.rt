//! Scripts: lists of events, and their outcomes.
ghost use Rattle.std.specs.Prelude.{◌≡◌, ◌≢◌, ◌≤◌, ◌++◌, ◌+◌, ℕ, length, List, Err, IfErr, IfOk, IfSome, MatchResult};
ghost use Rattle.std.specs.Prelude.{OnOk};
ghost use Rattle.bg_streams.specs.EngineFault.{SinkFails, SourceFails};
ghost use Rattle.bg_streams.specs.Transfers.{ReadsInput, WritesText};
ghost use Rattle.bg_text.specs.Boards.BoardText.{line_text};
ghost use Rattle.bg_text.specs.Judge.Judging.{lines_of};
ghost use Rattle.bg_text.specs.Limits.{most_bytes};
ghost use Rattle.bg_world.specs.Texts.OutcomeText.{outcome_text};
ghost use Rattle.bg_world.specs.Texts.ScriptText.{IsScriptFault, IsScriptText, IsTextFrom, SinkFailsOnce};
ghost use Rattle.bg_world.specs.Texts.ScriptText.{SourceFailsOnce, event_reason, refused_event_line};
ghost use Rattle.bg_world.specs.Texts.Scripts.{IsStart, PlaysOrRefuses};
ghost use Rattle.bg_protocol.specs.Worlds.Simulations.{memory_view};
ghost use Rattle.bg_protocol.specs.Worlds.Starts.{terms_in, IsWorldFault};
ghost use Rattle.bg_protocol.specs.Protocol.State.{IsSetup};
ghost use Rattle.bg_protocol.specs.Worlds.World.{view_of};
ghost use Rattle.bg_protocol.specs.declared.worlds.setups.WorldFault.{WorldFault};

use crate::texts::outcome_texts::put_outcome_text;
use crate::{
    Keeper, Link, MemoryKeeper, MemoryNet, Outcome, Plan, Setup, World, WorldFault, final_text,
    parse_event, simulate,
};
use arrayvec::ArrayString;
use bg_streams::{EngineFault, Sink, Source, read_input, write_text};
use bg_text::{MAX_INPUT, TextFault, Verdict, put_number, put_text, split_line, too_long};
use std::alloc::{AllocError, Global};
use thiserror::Error;

/// The text printed for a script.
#[derive(Drop)]
pub(crate) struct Printout {
    pub(crate) text: Vec<u8>,
    pub(crate) verdict: Verdict,
}

/// Adds the line of an outcome.
fn put_outcome(out: &mut Vec<u8>, outcome: &Outcome) -> Result<(), AllocError>
    ensures { OnOk result (out.new.items ≡ out.old.items ++ line_text (outcome_text outcome.now)) }
{
    let mut line = ArrayString::new();
    put_outcome_text(&mut line, outcome);
    put_text(out, line.as_str())?;
    put_text(out, "\n")
}

/// Runs the events of the lines, one after the other, and adds the line of the outcome of each.
/// Returns the number of events, or the number of the first line that is no event's, from 1, and
/// the reason.
fn play<L: Link, K: Keeper>(
    out: &mut Vec<u8>,
    world: &mut World<L, K>,
    input: &[u8],
) -> Result<Result<u32, (u32, TextFault)>, AllocError>
    requires { length input.now ≤ most_bytes }
    ensures { IfOk result (λ answer. PlaysOrRefuses L.is_honest K.is_honest (view_of L.Link K.Keeper world.old)
        (lines_of input.now) out.old.items out.new.items (view_of L.Link K.Keeper world.new) answer) }
{
    let mut count = 0;
    let mut rest = input;
    while let Some((line, after)) = split_line(rest) {
        let event = match parse_event(line) {
            Ok(event) => event,
            Err(fault) => return Ok(Err((count + 1, fault))),
        };
        put_outcome(out, &world.step(event))?;
        count += 1;
        rest = after;
    }
    Ok(Ok(count))
}

/// Returns the reason why a line is no event's, in words.
fn event_reason(fault: TextFault) -> &'static str
    ensures { result.now ≡ event_reason fault }
{
    match fault {
        TextFault::NotALine => "not an event",
        fault => fault.reason(),
    }
}

/// Returns the text printed where a line is refused.
fn refused_text(alloc: Global, number: u32, fault: TextFault) -> Result<Vec<u8>, AllocError>
    ensures { IfOk result (λ text. text.items ≡ line_text (refused_event_line number fault)) }
{
    let mut text = Vec::new(alloc);
    put_text(&mut text, "refused at line ")?;
    put_number(&mut text, number.into())?;
    put_text(&mut text, ": ")?;
    put_text(&mut text, event_reason(fault))?;
    put_text(&mut text, "\n")?;
    Ok(text)
}

/// Returns the text printed for a script that this world plays.
fn printed<L: Link, K: Keeper>(
    alloc: Global,
    world: &mut World<L, K>,
    input: &[u8],
) -> Result<Printout, AllocError>
    ensures { IfOk result (λ printed. IsTextFrom L.is_honest K.is_honest (view_of L.Link K.Keeper world.old)
        input.now printed.text.items printed.verdict) }
{
    if input.len() > MAX_INPUT {
        let judgement = too_long(alloc)?;
        return Ok(Printout {
            text: judgement.text,
            verdict: judgement.verdict,
        });
    }
    let mut text = Vec::new(alloc);
    match play(&mut text, world, input)? {
        Ok(count) => {
            let end = final_text(world)?;
            text.extend_from_slice(&end)?;
            Ok(Printout {
                text,
                verdict: Verdict::Fine(count),
            })
        }
        Err((number, fault)) => Ok(Printout {
            text: refused_text(alloc, number, fault)?,
            verdict: Verdict::Refused(number),
        }),
    }
}

/// Reads a script, plays it in this world, and writes the text printed for it.
fn carry<L: Link, K: Keeper, S: Source, T: Sink>(
    alloc: Global,
    world: &mut World<L, K>,
    source: &mut S,
    sink: &mut T,
) -> Result<Verdict, EngineFault>
    ensures printed { IfOk result (λ verdict. (input : List ℕ) × (text : List ℕ)
        × ReadsInput most_bytes S.Source source.old source.new input
        × IsTextFrom L.is_honest K.is_honest (view_of L.Link K.Keeper world.old) input text verdict
        × WritesText T.Sink sink.old sink.new text) }
    ensures untaken { IfErr result (λ _. T.taken sink.new ≡ T.taken sink.old) }
    ensures unwritten { IfErr result (λ fault. fault ≢ EngineFault.Write → sink.new ≡ sink.old) }
    ensures reads { S.reads source.new ≤ S.reads source.old + most_bytes + 1 }
    ensures flushes { T.flushes sink.new ≤ T.flushes sink.old + 1 }
    ensures source { SourceFails result (S.failures source.old) (S.failures source.new) }
    ensures sink { SinkFails result (T.failures sink.old) (T.failures sink.new) }
{
    let input = read_input(alloc, source, MAX_INPUT)?;
    let printed = printed(alloc, world, &input).map_err(|_| EngineFault::Memory)?;
    write_text(sink, &printed.text).map_err(|_| EngineFault::Write)?;
    Ok(printed.verdict)
}

/// The reason why a script came to no verdict, in the order in which the refusals are tested.
#[derive(Clone, Copy, Debug, PartialEq, Eq, Error)]
pub enum ScriptFault {
    /// There is no such world. Nothing was read.
    World(WorldFault),
    /// The input could not be read, the output could not be written, or memory ran out.
    Engine(EngineFault),
}

/// Returns a world where nothing has happened yet, over devices in memory that never fail.
fn start(alloc: Global, setup: Setup) -> Result<World<MemoryNet, MemoryKeeper>, WorldFault>
    ensures start { IfOk result (λ world. IsStart setup (memory_view world)) }
    ensures refusal { MatchResult result (λ _. IsSetup setup.id (terms_in setup) setup.watchers)
        (λ fault. IsWorldFault fault setup) }
{
    let plan = Plan {
        tears: Vec::new(alloc),
        sends: Vec::new(alloc),
        reads: Vec::new(alloc),
    };
    let (world, _) = simulate(alloc, setup, &plan, &[])?;
    Ok(world)
}

/// Reads a script, plays it in this world over devices in memory, and writes the text printed for
/// it.
fn carry_in_memory<S: Source, T: Sink>(
    alloc: Global,
    mut world: World<MemoryNet, MemoryKeeper>,
    source: &mut S,
    sink: &mut T,
) -> Result<Verdict, EngineFault>
    ensures printed { IfOk result (λ verdict. (input : List ℕ) × (text : List ℕ)
        × ReadsInput most_bytes S.Source source.old source.new input
        × IsTextFrom (Unit {0}) (Unit {0}) (memory_view world) input text verdict
        × WritesText T.Sink sink.old sink.new text) }
    ensures untaken { IfErr result (λ _. T.taken sink.new ≡ T.taken sink.old) }
    ensures unwritten { IfErr result (λ fault. fault ≢ EngineFault.Write → sink.new ≡ sink.old) }
    ensures reads { S.reads source.new ≤ S.reads source.old + most_bytes + 1 }
    ensures flushes { T.flushes sink.new ≤ T.flushes sink.old + 1 }
    ensures source { SourceFails result (S.failures source.old) (S.failures source.new) }
    ensures sink { SinkFails result (T.failures sink.old) (T.failures sink.new) }
{
    carry(alloc, &mut world, source, sink)
}

/// Plays a script in a new world over devices in memory that never fail (docs/FORMATS.md,
/// "Scripts"). It reads event lines to the end of the input, and their events happen in order. It
/// writes the line of each outcome and then the final text. Where a line is no event's, that alone
/// is written. Reading, writing and their limits are those of [`judge`](bg_text::judge). It takes
/// time linear in the input, apart from that of the events.
///
/// # Errors
/// `World` where there is no such world, by the first test that fails of [`World::new`]; nothing
/// was read then. `Engine`, only where there is such a world, as of [`judge`](bg_text::judge): Read
/// exactly where the source failed; Memory where memory runs out; Write exactly where the sink
/// failed. Nothing was written where it is Read or Memory.
pub fn script<S: Source, T: Sink>(
    alloc: Global,
    source: &mut S,
    sink: &mut T,
    setup: Setup,
) -> Result<Verdict, ScriptFault>
    ensures printed { IfOk result (λ verdict. (input : List ℕ) × (text : List ℕ)
        × ReadsInput most_bytes S.Source source.old source.new input × IsScriptText setup input text verdict
        × WritesText T.Sink sink.old sink.new text
        × IfSome (S.remaining source.old) (λ bytes. IsScriptText setup bytes text verdict)) }
    ensures refusal { MatchResult result (λ _. IsSetup setup.id (terms_in setup) setup.watchers)
        (λ fault. IsScriptFault fault setup) }
    // There is no such world: nothing was read, and nothing was written.
    ensures world { (fault : WorldFault) → result ≡ Err (ScriptFault.World fault)
        → (source.new ≡ source.old) × (sink.new ≡ sink.old) }
    ensures untaken { IfErr result (λ _. T.taken sink.new ≡ T.taken sink.old) }
    ensures unwritten { IfErr result (λ fault. fault ≢ ScriptFault.Engine EngineFault.Write → sink.new ≡ sink.old) }
    ensures reads { S.reads source.new ≤ S.reads source.old + most_bytes + 1 }
    ensures flushes { T.flushes sink.new ≤ T.flushes sink.old + 1 }
    ensures source { SourceFailsOnce result (S.failures source.old) (S.failures source.new) }
    ensures sink { SinkFailsOnce result (T.failures sink.old) (T.failures sink.new) }
{
    let world = match start(alloc, setup) {
        Ok(world) => world,
        Err(fault) => return Err(ScriptFault::World(fault)),
    };
    match carry_in_memory(alloc, world, source, sink) {
        Ok(verdict) => Ok(verdict),
        Err(fault) => Err(ScriptFault::Engine(fault)),
    }
}
