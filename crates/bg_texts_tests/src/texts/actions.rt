//! Lines of each kind of action, and lines of none.
use crate::checks::{check_words, parted};
use bg_text::parse_action;
use std::alloc::{AllocError, Global};

/// What a line is read as, or is refused for.
fn told_of(alloc: Global, line: &str) -> Result<String, AllocError> {
    let read = parse_action(line.as_bytes());
    format!(in alloc; "{read:?}")
}

/// Lines of actions and of none. Each is read as the action, or refused for the fault, that stand
/// behind the arrow.
const LINES: &str = "\
roll -> Ok(Roll)
double -> Ok(Double)
take -> Ok(Take)
drop -> Ok(Drop)
move -> Ok(Move([]))
move bar-20 8-off -> Ok(Move([Step { from: 25, to: 20 }, Step { from: 8, to: 0 }]))
resign normal -> Ok(Resign(Normal))
resign gammon -> Ok(Resign(Gammon))
resign backgammon -> Ok(Resign(Backgammon))
accept -> Ok(Accept)
reject -> Ok(Reject)
open 3 1 -> Err(NotALine)
pass -> Err(NotALine)
roll 3 1 -> Err(NotALine)
X roll -> Err(NotALine)
move 03-1 -> Err(BadNumber)
move 6-5 6-5 6-5 6-5 6-5 -> Err(TooManySteps)
";

#[test]
fn lines_read_as_actions(rt: HostRuntime) {
    for row in LINES.lines() {
        let (line, wanted) = parted(&rt, row);
        check_words(&rt, row, told_of(rt.alloc(), line), wanted);
    }
}
