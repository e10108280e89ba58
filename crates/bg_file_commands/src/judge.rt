//! The command that judges a transcript.

use crate::inputs::IS_MATCH_FILE;
use crate::marks::Noting;
use bg_console::{engine_failed, say};
use bg_mat::is_match_file;
use bg_reports::Ending;
use bg_streams::{Reading, Writing};
use bg_text::{Verdict, judge};
use std::io;

/// Judges the transcript on the standard input. Where the line that is refused has what other
/// programs write, and transcripts don't have, it is named on the standard error; and so is a match
/// file.
pub fn run(rt: &HostRuntime) -> Result<Ending, Ending> {
    let mut noting = Noting::new(rt.reader());
    let mut input = Reading::new(&mut noting);
    let mut output = Writing::new(io::writer(rt));
    let verdict = match judge(rt.alloc(), &mut input, &mut output) {
        Ok(verdict) => verdict,
        Err(fault) => return Err(engine_failed(rt, fault, input.error(), output.error())),
    };
    if let Verdict::Refused(line) = verdict {
        if let Some(mark) = noting.mark_of(line) {
            let mark = mark.words();
            say(rt, format_args!("met at line {line}: {mark}"));
        }
        if is_match_file(noting.head()) {
            say(rt, IS_MATCH_FILE);
        }
    }
    Ok(Ending::Judged(verdict))
}
