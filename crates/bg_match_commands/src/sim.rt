//! The command that plays an automatic match in memory.

use bg_auto::{Observer, play_sim};
use bg_console::{Progress, failed, print_text};
use bg_match::{Number, Terms};
use bg_options::SimOptions;
use bg_reports::Ending;
use bg_world::{Event, Outcome};
use std::time::Clock;

/// Number of events of an automatic match between two looks at the clock.
const BATCH: u32 = 1000;

/// The operator, who is told on the standard error how far an automatic match has got.
#[derive(Drop)]
struct Operator<'a, R> {
    rt: &'a R,
    progress: Progress,
    /// Number of all events.
    steps: u32,
}

impl<'a, R: Clock + Eprint> Observer for Operator<'a, R> {
    fn happened(&mut self, _event: &Event, _outcome: &Outcome, _held: Option<Number>) {}

    fn played(&mut self, done: u32) {
        if done % BATCH == 0 {
            self.progress.tell(self.rt, "events", done, self.steps);
        }
    }
}

/// Plays the automatic match that the options name, and prints what [`sim_text`](bg_auto::sim_text)
/// gives for it. Reports its progress on the standard error.
pub fn run<R>(rt: &R, options: SimOptions, progress: Progress) -> Result<Ending, Ending>
where
    R: Clock + Print + Eprint + AllocGlobal,
{
    let SimOptions {
        seed,
        terms: Terms { length, rules },
        watchers,
        steps,
    } = options;
    let mut operator = Operator {
        rt,
        progress,
        steps,
    };
    let alloc = rt.alloc();
    match play_sim(alloc, seed, length, rules, watchers, steps, &mut operator) {
        Ok(text) => print_text(rt, &text)?,
        Err(fault) => return Err(failed(rt, fault)),
    }
    Ok(Ending::Simulated)
}
