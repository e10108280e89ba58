//! What the parties of a match have of it in the end.
use super::{ID, terms_by};
use crate::checks::{check, check_number};
use crate::helpers::hosts::Host;
use crate::helpers::saved_records::{saved_record, text_of};
use bg_match::{Phase, Record, Rules};
use bg_wire::{REFEREE, SEAT_OF_O, SEAT_OF_X};

/// The match ends: all that parties have saved in a folder, and that the watcher holds, is what the
/// referee has saved, and that is a match that is over.
pub(crate) fn check_end(
    rt: &impl Host,
    folder: &str,
    rules: Rules,
    ends: bool,
    watched: Option<&Record>,
) {
    check(rt, ends, "the match ends");
    let watched = watched.expect(rt, "the watcher runs");
    let terms = terms_by(rules);
    let whole = saved_record(rt, folder, REFEREE, ID, terms);
    let is_over = matches!(whole.standing().phase(), Phase::Over(_));
    check(rt, is_over, "the match of the referee is over");
    let text = text_of(rt, whole);
    for party in [SEAT_OF_X, SEAT_OF_O] {
        let saved = saved_record(rt, folder, party, ID, terms);
        check_number(rt, "party", party.into(), text_of(rt, saved) == text);
    }
    check(rt, text_of(rt, watched) == text, "the watcher");
}
