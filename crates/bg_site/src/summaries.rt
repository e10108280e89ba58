//! What lists show of a match.

use bg_board::Player;
use bg_match::{Number, Phase, Record};

/// What lists show of a match.
#[derive(Clone, Copy)]
pub(crate) struct Summary {
    pub(crate) entries: Number,
    pub(crate) score: (u16, u16),
    pub(crate) turn: Option<Player>,
    pub(crate) winner: Option<Player>,
}

impl Summary {
    /// The summary of a match without entries.
    pub(crate) const NONE: Summary = Summary {
        entries: 0,
        score: (0, 0),
        turn: None,
        winner: None,
    };

    /// Returns the summary of a match with this record.
    pub(crate) fn of(record: &Record) -> Summary {
        let standing = record.standing();
        Summary {
            entries: record.len(),
            score: standing.score(),
            turn: standing.actor().seat(),
            winner: match standing.phase() {
                Phase::Over(player) => Some(player),
                _ => None,
            },
        }
    }
}
