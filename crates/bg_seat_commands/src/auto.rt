//! The command that plays for a player until the match is over.

use crate::seats::Seat;
use bg_auto::auto_action;
use bg_command_parts::Audience;
use bg_console::{Telling, allocated};
use bg_options::SeatOptions;
use bg_processes::{Failures, Going};
use bg_reports::Ending;

/// Plays for the player that the options name, and prints the transcript of the match. `is_watched`
/// says whether the standard error is a terminal.
pub fn run(rt: &HostRuntime, options: SeatOptions<'_>, is_watched: bool) -> Result<Ending, Ending> {
    let failures = Failures::new();
    let audience = if is_watched {
        Audience::Person
    } else {
        Audience::Log
    };
    let mut seat = Seat::open(rt, &failures, options, false, audience)?;
    play(rt, &mut seat)
}

/// Plays until the match is over.
fn play(rt: &HostRuntime, seat: &mut Seat<'_>) -> Result<Ending, Ending> {
    let mut telling = Telling::new();
    for _ in 0..u64::MAX {
        let round = seat.next_round()?;
        if let Some(record) = seat.record() {
            telling.go_on(rt, record)?;
        }
        if round.going == Going::Over {
            return Ok(Ending::Served);
        }
        if !seat.acts() {
            continue;
        }
        let Some(record) = seat.record() else {
            continue;
        };
        if let Some(action) = allocated(rt, auto_action(rt.alloc(), record, seat.player))? {
            seat.choose(action)?;
        }
    }
    Ok(Ending::Failed)
}
