//! The words for the outcome of an action.

use crate::sites::Site;
use crate::stores::Store;
use bg_board::Player;
use bg_hosted::Acted;
use bg_match::{Action, EntryFault, Record};
use bg_party::ChooseFault;
use bg_states::put_quoted;
use bg_table::refusal_text;
use bg_text::put_text;
use bg_world::Keeper;
use std::alloc::{AllocError, Global};

/// The answer to an action in a match that is too long to be saved.
const TOO_LONG: &str = ",\"no\":\"too long to be saved here\"";

impl<K: Keeper + Drop, S: Store<K> + Drop> Site<K, S> {
    /// Appends the outcome of a player's action in the match at an index. If the rules refuse the
    /// action, the reason follows.
    pub(crate) fn put_acted(
        &self,
        out: &mut Vec<u8>,
        index: usize,
        player: Player,
        action: &Action,
        acted: Acted,
    ) -> Result<(), AllocError> {
        if acted == Acted::Failed && self.is_full_at(index) {
            return put_text(out, TOO_LONG);
        }
        put_text(out, acted_words(acted))?;
        match (acted, self.held_at(index)) {
            (Acted::Refused(ChooseFault::Illegal(fault)), Some(record)) => {
                put_reason(self.alloc, out, record, player, action, fault)
            }
            _ => Ok(()),
        }
    }

    /// Returns whether the match at an index is too long for more of it to be saved.
    fn is_full_at(&self, index: usize) -> bool {
        match self.places.get(index) {
            Some(place) => self.store.is_full(place.name.as_str()),
            None => false,
        }
    }

    /// Returns the record of the match at an index, while the match is in progress.
    fn held_at(&self, index: usize) -> Option<&Record> {
        match self.places.get(index) {
            Some(place) => place.held(),
            None => None,
        }
    }
}

/// Appends the reason why an action can't follow a record, in the words for a player at a terminal.
fn put_reason(
    alloc: Global,
    out: &mut Vec<u8>,
    record: &Record,
    player: Player,
    action: &Action,
    fault: EntryFault,
) -> Result<(), AllocError> {
    let text = refusal_text(alloc, &record.standing(), player, action, fault)?;
    let line = text.split(|byte| *byte == b'\n').next().unwrap_or_default();
    put_text(out, ",\"reason\":")?;
    put_quoted(out, str::from_utf8(line).unwrap_or_default())
}

/// Returns the words for the outcome of an action.
fn acted_words(acted: Acted) -> &'static str {
    match acted {
        Acted::Done => ",\"done\":true",
        Acted::Waits | Acted::Refused(ChooseFault::AlreadyClaimed) => ",\"waits\":true",
        Acted::OtherEntry => ",\"no\":\"another entry\"",
        Acted::Refused(ChooseFault::NotYourTurn) => ",\"no\":\"not your turn\"",
        Acted::Refused(ChooseFault::Illegal(_)) => ",\"no\":\"not legal\"",
        Acted::Failed => ",\"no\":\"not saved: try again\"",
    }
}
