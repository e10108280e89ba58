//! The command that plays a script.

use bg_console::{engine_failed, failed};
use bg_options::ScriptOptions;
use bg_reports::Ending;
use bg_streams::{Reading, Writing};
use bg_world::{ScriptFault, Setup, script};
use std::io;

/// The number of the match that scripts play.
const SCRIPTED_MATCH: u64 = 1;

/// Plays the script on the standard input, in a match that the options describe.
pub fn run(rt: &HostRuntime, options: ScriptOptions) -> Result<Ending, Ending> {
    let setup = Setup {
        id: SCRIPTED_MATCH,
        length: options.terms.length,
        rules: options.terms.rules,
        watchers: options.watchers,
    };
    let mut input = Reading::new(rt.reader());
    let mut output = Writing::new(io::writer(rt));
    match script(rt.alloc(), &mut input, &mut output, setup) {
        Ok(verdict) => Ok(Ending::Played(verdict)),
        Err(ScriptFault::World(fault)) => Err(failed(rt, fault)),
        Err(ScriptFault::Engine(fault)) => {
            Err(engine_failed(rt, fault, input.error(), output.error()))
        }
    }
}
