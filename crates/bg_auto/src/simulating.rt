//! Automatic matches in memory.
ghost use Rattle.std.specs.Prelude.{◌≡◌, ℕ, IfOk, MatchResult, OnOk};
ghost use Rattle.bg_match.specs.Terms.{terms_of};
ghost use Rattle.bg_auto.specs.Attempts.{word_for};
ghost use Rattle.bg_auto.specs.Simulating.{HappensAs, IsPrinted, IsSimFault, IsSimStart, IsSimText, Runs};
ghost use Rattle.bg_auto.specs.Simulating.{setup_of, wants_memory as is_wanting};
ghost use Rattle.bg_auto.specs.Words.{event_words as words_of_event};
ghost use Rattle.bg_protocol.specs.Worlds.Simulations.{memory_view};
ghost use Rattle.bg_protocol.specs.Worlds.Starts.{IsWorldFault};
ghost use Rattle.bg_protocol.specs.Protocol.State.{IsSetup};

use crate::dice_attempts::DiceAttempts;
use crate::kept_words::KeptWord;
use crate::observers::{NoObserver, Observer};
use crate::schedule::event_of;
use crate::simulation::Simulation;
use crate::words::{event_words, next_event_words, schedule_from};
use bg_match::Rules;
use bg_streams::EngineFault;
use bg_text::transcript_text;
use bg_wire::REFEREE;
use bg_world::{Outcome, Plan, ScriptFault, Setup, WorldFault, final_text, simulate};
use std::alloc::{AllocError, Global};

impl Simulation {
    /// Returns the start of the match that has the seed as its number.
    ///
    /// # Errors
    /// The same as those of [`World::new`](bg_world::World::new).
    pub fn new(
        alloc: Global,
        seed: u64,
        length: u8,
        rules: Rules,
        watchers: u8,
    ) -> Result<Simulation, WorldFault>
        ensures start { IfOk result (λ start. IsSimStart (setup_of seed length rules watchers) start) }
        ensures refusal { MatchResult result (λ _. IsSetup seed (terms_of length rules) watchers)
            (λ fault. IsWorldFault fault (setup_of seed length rules watchers)) }
    {
        let setup = Setup {
            id: seed,
            length,
            rules,
            watchers,
        };
        let no_failures = Plan {
            tears: Vec::new(alloc),
            sends: Vec::new(alloc),
            reads: Vec::new(alloc),
        };
        let (world, _) = simulate(alloc, setup, &no_failures, &[])?;
        Ok(Simulation {
            alloc,
            seed,
            watchers,
            world,
            dice: DiceAttempts::first(Some(0)),
        })
    }

    /// Runs the event of this index, from 0 (docs/PROTOCOL.md, "Automatic matches").
    ///
    /// # Errors
    /// `AllocError` where memory ran out: the match can't go on.
    pub fn step(&mut self, index: u32) -> Result<(), AllocError>
        ensures { OnOk result (HappensAs self.old index self.new) }
    {
        let (a, b) = event_words(self.seed, index);
        self.happen(self.dice.word(self.seed), (a, b))
    }

    /// Runs the event that these words of the schedule choose, with this word for the referee.
    fn happen(&mut self, word: u32, words: (u32, u32)) -> Result<(), AllocError>
        ensures { (index : ℕ) → word ≡ word_for self.old.seed self.old.dice.held self.old.dice.attempt
            → words ≡ words_of_event self.old.seed index → OnOk result (HappensAs self.old index self.new) }
    {
        let (a, b) = words;
        let event = event_of(self.alloc, &self.world, self.watchers, word, a, b)?;
        let outcome = self.dice.step(&mut self.world, event);
        if wants_memory(&outcome) {
            return Err(AllocError);
        }
        Ok(())
    }

    /// Runs `steps` events, in order.
    ///
    /// # Errors
    /// `AllocError` where memory ran out: the match can't go on.
    fn run<O: Observer>(&mut self, steps: u32, observer: &mut O) -> Result<(), AllocError>
        ensures { OnOk result (Runs steps self.old self.new) }
    {
        let mut schedule = schedule_from(self.seed, 0);
        let mut kept = KeptWord::new(self.seed, self.dice);
        for index in 0..steps {
            let word = kept.word_for(self.dice);
            self.happen(word, next_event_words(&mut schedule))?;
            observer.played(index + 1);
        }
        Ok(())
    }

    /// Returns the text after `steps` events.
    fn text_after<O: Observer>(
        &mut self,
        steps: u32,
        observer: &mut O,
    ) -> Result<Vec<u8>, AllocError>
        ensures runs { OnOk result (Runs steps self.old self.new) }
        ensures printed { IfOk result (λ text. IsPrinted (memory_view self.new.world) text.items) }
    {
        self.run(steps, observer)?;
        self.text()
    }

    /// Returns the transcript of the referee's record, followed by the final text.
    ///
    /// # Errors
    /// `AllocError` where memory runs out.
    pub fn text(&self) -> Result<Vec<u8>, AllocError>
        ensures { IfOk result (λ text. IsPrinted (memory_view self.now.world) text.items) }
    {
        let mut text = match self.world.held(REFEREE) {
            None => Vec::new(self.alloc),
            Some(record) => transcript_text(self.alloc, record)?,
        };
        text.extend_from_slice(&final_text(&self.world)?)?;
        Ok(text)
    }
}

/// Returns whether memory ran out. Over devices in memory that never fail, a save fails for nothing
/// else.
fn wants_memory(outcome: &Outcome) -> bool
    ensures { result ≡ is_wanting outcome.now }
{
    match outcome {
        Outcome::SaveFault => true,
        other => other.wants_memory(),
    }
}

/// Returns the text that an automatic match with the seed as its number prints after `steps`
/// events. It is the transcript of the referee's record, followed by the final text
/// (docs/PROTOCOL.md, "Automatic matches").
///
/// # Errors
/// `World` where there is no such world, by the first test that fails of
/// [`World::new`](bg_world::World::new). `Engine` with `Memory` where memory runs out after the
/// world is made.
pub fn sim_text(
    alloc: Global,
    seed: u64,
    length: u8,
    rules: Rules,
    watchers: u8,
    steps: u32,
) -> Result<Vec<u8>, ScriptFault>
    ensures text { IfOk result (λ text. IsSimText seed length rules watchers steps text.items) }
    ensures refusal { MatchResult result (λ _. IsSetup seed (terms_of length rules) watchers)
        (λ fault. IsSimFault fault (setup_of seed length rules watchers)) }
{
    play_sim(alloc, seed, length, rules, watchers, steps, &mut NoObserver)
}

/// Returns the same text as [`sim_text`], with an observer. It is told the number of events played,
/// and not their outcomes.
///
/// # Errors
/// The same as those of [`sim_text`].
pub fn play_sim<O: Observer>(
    alloc: Global,
    seed: u64,
    length: u8,
    rules: Rules,
    watchers: u8,
    steps: u32,
    observer: &mut O,
) -> Result<Vec<u8>, ScriptFault>
    ensures text { IfOk result (λ text. IsSimText seed length rules watchers steps text.items) }
    ensures refusal { MatchResult result (λ _. IsSetup seed (terms_of length rules) watchers)
        (λ fault. IsSimFault fault (setup_of seed length rules watchers)) }
{
    let mut simulation = match Simulation::new(alloc, seed, length, rules, watchers) {
        Ok(simulation) => simulation,
        Err(fault) => return Err(ScriptFault::World(fault)),
    };
    match simulation.text_after(steps, observer) {
        Ok(text) => Ok(text),
        Err(AllocError) => Err(ScriptFault::Engine(EngineFault::Memory)),
    }
}
