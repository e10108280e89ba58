//! The lines of plays: rows, each the line of an event, an arrow, and the line that it comes to,
//! and others.
use crate::sections::{self, Lines};
use bg_world::{Event, Outcome, outcome_text, parse_event};
use std::process::Abort;

/// The lines of the play of this name, where a line "as NAME" stands for the shared rows of that
/// name.
pub(crate) fn lines_of(rt: &impl Abort, plays: &'static str, name: &str) -> Lines<'static> {
    sections::lines_of(rt, plays, SHARED, name)
}

/// The event of a line.
pub(crate) fn event(rt: &impl Abort, line: &str) -> Event {
    parse_event(line.as_bytes()).expect(rt, "the line of an event")
}

/// Whether the outcome has this line.
pub(crate) fn has_line(outcome: &Outcome, line: &str) -> bool {
    outcome_text(outcome).as_str() == line
}

/// The event of a row comes to what the row says.
pub(crate) fn check_outcome(rt: &impl Abort, event: &str, outcome: &Outcome, expected: &str) {
    let line = outcome_text(outcome);
    let comes_to = line.as_str();
    assert!(rt;
        comes_to == expected,
        "{event} -> {expected}, and not {comes_to}"
    );
}

/// Rows that several plays have.
const SHARED: &str = "\
to_the_choice
due 12 -> entry 1
save 0 -> saved 1
tick 1 -> sent 1
take 0 0 0 -> answer to 1: entries 1 to 1
take 1 0 0 -> learned 1
choose X move 8-5 6-5 -> claimed 2

to_the_claim
save 1 -> saved 1
tick 1 -> sent 1

to_the_roll
take 0 1 0 -> accepted 2
save 0 -> saved 2
take 0 1 0 -> answer to 1: entries 2 to 2
tick 2 -> sent 1
take 0 2 0 -> answer to 2: entries 1 to 2
take 2 0 0 -> learned 2
choose O roll -> claimed 3
save 2 -> saved 1
tick 2 -> sent 1
take 0 3 12 -> accepted 3

the_roll_lost
take 0 3 0 -> nothing
restart 0 -> restarted
take 0 3 8 -> accepted 3
save 0 -> saved 3
take 0 3 0 -> answer to 2: entries 3 to 3
take 2 1 0 -> learned 1

the_claim_kept
restart 1 -> restarted
choose X move 24-23 24-21 -> claim refused: already claimed
tick 1 -> sent 1

a_turn
due 12 -> entry 1
save 0 -> saved 1
tick 1 -> sent 1
take 0 0 0 -> answer to 1: entries 1 to 1
take 1 0 0 -> learned 1
tick 3 -> sent 1
take 0 1 0 -> answer to 3: entries 1 to 1
take 3 0 0 -> learned 1
choose X move 8-5 6-5 -> claimed 2
save 1 -> saved 1
tick 1 -> sent 1
take 0 2 0 -> accepted 2
save 0 -> saved 2
tick 3 -> sent 1
take 0 3 0 -> answer to 3: entries 2 to 2
take 3 1 0 -> learned 1

a_failed_write
save 2 -> save fault
save 2 -> down
choose O roll -> down
tick 2 -> down
take 2 0 0 -> down
tick 1 -> sent 1
restart 2 -> restarted
save 2 -> saved 1

the_opening
due 12 -> entry 1
save 0 -> saved 1

to_the_torn_save
take 0 1 0 -> accepted 2
save 0 -> save fault
take 0 1 0 -> down
restart 0 -> restarted

to_the_torn_write
due 12 -> entry 1
save 0 -> saved 1
tick 1 -> sent 1
take 0 0 0 -> answer to 1: entries 1 to 1
take 1 0 0 -> learned 1
save 1 -> saved 1
choose X move 8-5 6-5 -> claimed 2
save 1 -> save fault

the_write_itself
restart 1 -> restarted
choose X move 8-5 6-5 -> claim refused: already claimed
save 1 -> saved 3
restart 1 -> restarted
choose X move 8-5 6-5 -> claim refused: already claimed

";
