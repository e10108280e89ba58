//! What the command of automatic matches prints.
use crate::checks::check_number;
use crate::kept_output::KeptOutput;
use bg_auto::sim_text;
use bg_console::Progress;
use bg_match::{Rules, Terms};
use bg_match_commands::sim;
use bg_options::SimOptions;
use std::process::Abort;

/// What the command prints of a match of length 3, with two watchers.
fn printed<'a>(host: &HostRuntime, seed: u64, steps: u32) -> Option<&'a [u8]> {
    let system = KeptOutput::new(host);
    let progress = Progress::start(&system, false);
    let options = SimOptions {
        seed,
        terms: Terms {
            length: 3,
            rules: Rules::One,
        },
        watchers: 2,
        steps,
    };
    let ending = sim::run(&system, options, progress).ok()?;
    if ending.status() != 0 || !system.said().is_empty() {
        return None;
    }
    let printed: &[u8] = system.into_printed().leak();
    Some(printed)
}

/// What `sim_text` gives of the same match.
fn text_of<'a>(rt: &(impl AllocGlobal + Abort), seed: u64, steps: u32) -> &'a [u8] {
    let text = sim_text(rt.alloc(), seed, 3, Rules::One, 2, steps);
    text.expect(rt, "a match").leak()
}

/// The command prints what `sim_text` gives of the same match: after so many events, and after one
/// more, which tell more.
#[test]
fn command_prints_the_text_after_thousands_of_events(rt: HostRuntime) {
    check_printed(&rt, &rt);
}

/// Each row has a seed and how many events there are.
fn check_printed(rt: &(impl AllocGlobal + Abort), host: &HostRuntime) {
    for (seed, steps) in [(34, 999), (4, 1000), (127, 1999), (127, 2000), (3, 2500)] {
        let text = text_of(rt, seed, steps);
        let further = text_of(rt, seed, steps + 1);
        let is_so = printed(host, seed, steps) == Some(text)
            && printed(host, seed, steps + 1) == Some(further);
        let holds = is_so && text != further;
        check_number(rt, holds, "after so many events, and one more:", steps);
    }
}
