//! The command of one action, for scripts.

use crate::seats::Seat;
use crate::typed_lines::joined;
use bg_command_parts::{Audience, Silence};
use bg_console::{
    allocated, failed, print_board, put_entries, say, say_number, write_out, written, wrong,
};
use bg_match::{Action, Number, Record};
use bg_options::ActOptions;
use bg_party::ChooseFault;
use bg_processes::{Failures, Going, Printable};
use bg_reports::{Ending, ending_of};
use bg_table::refusal_text;
use bg_text::parse_action;
use bg_world::{Outcome, outcome_text};
use std::io;

/// Number of ticks before the seat claims, in which the referee may send what this process doesn't
/// know yet.
const TICKS_TO_LISTEN: u32 = 2;

/// Number of ticks in one second.
const TICKS_A_SECOND: u32 = 10;

/// The message behind words that are no action.
const ACTIONS: &str = "`bg_relay act --help` lists the actions";

/// The message where the files of the seat keep it from claiming. The reason stands behind it.
const UNCLAIMED: &str = "nothing was claimed, as the message above says";

/// The task of the call.
#[derive(Drop)]
struct Wanted {
    /// The action; without one, the call waits for the player's turn.
    action: Option<Action>,
    /// The number, from 1, of the entry that the action is to be claimed as.
    entry: Option<Number>,
    /// Number of ticks that the call may take.
    ticks: u32,
}

impl Wanted {
    /// Returns whether the first `held` entries include the one that the action is to be claimed
    /// as.
    fn is_there(&self, held: Number) -> bool {
        match self.entry {
            Some(entry) => entry <= held,
            None => false,
        }
    }
}

/// The stage of the call.
#[derive(Clone, Copy)]
enum Stage {
    /// It waits for its turn.
    Listening,
    /// It waits for the answer to a claim of its own.
    Claimed(Number),
}

/// Makes the one action that the options name, or waits for the player's turn. `is_watched` says
/// whether the standard error is a terminal.
pub fn run(
    rt: &HostRuntime,
    options: ActOptions<'_, '_>,
    is_watched: bool,
) -> Result<Ending, Ending> {
    let wanted = Wanted {
        action: action_of(rt, options.words)?,
        entry: options.entry,
        ticks: options.seconds.saturating_mul(TICKS_A_SECOND),
    };
    let failures = Failures::new();
    // A script is told at the end.
    let audience = if is_watched {
        Audience::Person
    } else {
        Audience::Nobody
    };
    let mut seat = Seat::open(rt, &failures, options.seat, false, audience)?;
    act(rt, &mut seat, &wanted)
}

/// Returns the action that some words spell; `None` where there are no words.
fn action_of(rt: &HostRuntime, words: &[&str]) -> Result<Option<Action>, Ending> {
    let line = allocated(rt, joined(rt.alloc(), words))?;
    match parse_action(&line) {
        Ok(action) => Ok(Some(action)),
        Err(_) if line.is_empty() => Ok(None),
        Err(fault) => {
            let words = Printable(str::from_utf8(&line).unwrap_or_default());
            let reason = fault.reason();
            Err(wrong(
                rt,
                format_args!("`{words}` is no action: {reason}. {ACTIONS}"),
            ))
        }
    }
}

/// Makes the action, or waits for the player's turn.
fn act(rt: &HostRuntime, seat: &mut Seat<'_>, wanted: &Wanted) -> Result<Ending, Ending> {
    let from = seat.held();
    let mut stage = Stage::Listening;
    if let Some((number, _)) = seat.open_claim() {
        let first = " is still claimed by an earlier call, which comes first";
        say_number(rt, "entry ", number.into(), first);
    }
    let mut ticks = 0u32;
    for _ in 0..u64::MAX {
        let round = seat.next_round()?;
        // The call may end here, so nothing waits for a tick.
        seat.save_now()?;
        if round.foreign.is_some() {
            return Err(Ending::ActionRefused);
        }
        if round.tick {
            ticks = ticks.saturating_add(1);
        }
        let over = round.going == Going::Over;
        match stage {
            Stage::Claimed(number) if seat.held() >= number => {
                return finish(rt, seat, wanted, from, Some(number));
            }
            Stage::Listening
                if over
                    || (ticks >= TICKS_TO_LISTEN
                        && (wanted.is_there(seat.held()) || seat.acts())) => {
                match claim(rt, seat, wanted)? {
                    Some(number) => stage = Stage::Claimed(number),
                    None => return finish(rt, seat, wanted, from, wanted.entry),
                }
            }
            _ => {}
        }
        if ticks >= wanted.ticks {
            return Err(out_of_time(rt, seat));
        }
    }
    Ok(Ending::Failed)
}

/// Claims the action. Returns the number of its entry, or `None` where there is nothing to claim.
fn claim(rt: &HostRuntime, seat: &mut Seat<'_>, wanted: &Wanted) -> Result<Option<Number>, Ending> {
    let Some(action) = &wanted.action else {
        return Ok(None);
    };
    if let Some(entry) = wanted.entry {
        if wanted.is_there(seat.held()) {
            return Ok(None);
        }
        let next = seat.held().saturating_add(1);
        if entry > next {
            say(
                rt,
                format_args!("entry {entry} is not the next one, which is {next}"),
            );
            return Err(Ending::ActionRefused);
        }
    }
    let outcome = seat.choose(action.copy())?;
    let line = outcome_text(&outcome);
    let told = line.as_str();
    match outcome {
        Outcome::Chose(Ok(number)) => Ok(Some(number)),
        Outcome::Chose(Err(fault)) => Err(refused(rt, seat, action, fault, told)),
        _ => Err(failed(rt, format_args!("{UNCLAIMED}: {told}"))),
    }
}

/// Reports that an action is refused by the line of its outcome and, of an illegal one, why in the
/// words of a player.
fn refused(
    rt: &HostRuntime,
    seat: &Seat<'_>,
    action: &Action,
    fault: ChooseFault,
    line: &str,
) -> Ending {
    say(rt, line);
    if let (ChooseFault::Illegal(fault), Some(record)) = (fault, seat.record()) {
        let standing = record.standing();
        if let Ok(text) = refusal_text(rt.alloc(), &standing, seat.player, action, fault) {
            let lines = str::from_utf8(&text).unwrap_or_default();
            say(rt, lines.lines().next().unwrap_or_default());
        }
    }
    Ending::ActionRefused
}

/// Reports that the time is over. A claim that was saved is sent by the next call.
fn out_of_time(rt: &HostRuntime, seat: &Seat<'_>) -> Ending {
    match seat.open_claim() {
        Some((number, _)) => {
            let over = "the time is over: the claim of entry ";
            say_number(
                rt,
                over,
                number.into(),
                " is kept, and goes out with the next call",
            );
            Ending::Failed
        }
        None if seat.link().heard() == 0 => {
            let why = Silence::of(rt, &seat.table);
            failed(
                rt,
                format_args!("the time is over, and nothing was heard of the referee: {why}"),
            )
        }
        None => failed(
            rt,
            "the time is over: call it again, or with more --seconds",
        ),
    }
}

/// Prints the entries since the beginning and the board. Returns the ending, by whether the entry
/// with this number answers the action.
fn finish(
    rt: &HostRuntime,
    seat: &Seat<'_>,
    wanted: &Wanted,
    from: Number,
    number: Option<Number>,
) -> Result<Ending, Ending> {
    let Some(record) = seat.record() else {
        return Ok(Ending::Failed);
    };
    written(rt, print_news(rt, record, from))?;
    let (Some(action), Some(number)) = (&wanted.action, number) else {
        return Ok(Ending::Served);
    };
    let ending = ending_of(record, action, number);
    if ending == Ending::ActionRefused {
        say_number(
            rt,
            "entry ",
            number.into(),
            " is another: the board shows what may be done now",
        );
    }
    Ok(ending)
}

/// Prints the entries of a record behind the first `from`, and its board.
fn print_news(rt: &HostRuntime, record: &Record, from: Number) -> io::Result<()> {
    let mut text = Vec::new(rt.alloc());
    put_entries(&mut text, record, from)?;
    write_out(rt, &text)?;
    print_board(rt, record)
}
