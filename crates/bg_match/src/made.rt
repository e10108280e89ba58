//! The entries of a record, each with the seat that made it, and room for more.
ghost use Rattle.std.specs.Prelude.{◌≡◌, ◌≤◌, ◌<◌, ◌+◌, IsOk, OnOk, OnErr, option_copied, vec_len, vec_capacity};
ghost use Rattle.bg_match.specs.Match.{at_number};

use crate::{Entry, Number};
use bg_board::Player;
use std::alloc::AllocError;

/// An entry, and the seat that made it: `None` for an entry of the referee.
#[derive(Debug, Drop)]
pub(crate) struct Made {
    pub(crate) entry: Entry,
    pub(crate) seat: Option<Player>,
}

// A record holds up to a million of these.
const _: () = prove!(size_of::<Made>() == 12);

/// Returns the entry of this number, from 1.
pub(crate) fn made_at(made: &[Made], number: Number) -> Option<&Made>
    ensures { option_copied result ≡ at_number made.now number }
{
    made.get((number as usize).checked_sub(1)?)
}

/// Makes room for this many more entries, and for as many again as there are. Does nothing where
/// there is room for this many already.
pub(crate) fn make_room(made: &mut Vec<Made>, count: usize) -> Result<(), AllocError>
    ensures items { made.new.items ≡ made.old.items }
    ensures len { vec_len made.new ≡ vec_len made.old }
    ensures room { OnOk result (vec_len made.new + count ≤ vec_capacity made.new) }
    ensures again { OnOk result (vec_capacity made.old < vec_len made.old + count →
        vec_len made.new + vec_len made.old ≤ vec_capacity made.new) }
    ensures there { vec_len made.old + count ≤ vec_capacity made.old →
        IsOk result × (vec_capacity made.new ≡ vec_capacity made.old) }
    ensures full { OnErr result (vec_capacity made.old < vec_len made.old + count) }
    ensures err { OnErr result (vec_capacity made.new ≡ vec_capacity made.old) }
{
    if count <= made.capacity() - made.len() {
        return Ok(());
    }
    made.reserve(count.max(made.len()))
}
