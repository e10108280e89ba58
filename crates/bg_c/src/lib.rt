//! The relay for programs in C, and in languages that call C: the calls of the header bg_relay.h,
//! which states the obligations of a caller.
//!
//! A call returns the number of a [`Status`]. It sets its results where it succeeds; otherwise they
//! are as before. Where a text does not fit into its room, its length is set. A party stands behind
//! a [`Handle`](handle::Handle): a call takes it out, and puts it back, so that no party is in two
//! calls at once. Contracts see the party that a handle has. They state for each call what
//! `bg_parties` states of it, the status that it returns, and what it sets.
#![tactic(auto)]

mod answers;
mod checks;
mod datagrams;
mod entry_lines;
mod handle;
mod ids;
mod judge;
mod laws;
mod loose;
mod match_files;
mod outcomes;
mod packets;
mod parties;
mod pictures;
mod rooms;
mod saved_texts;
mod slots;
mod standings;
mod statuses;
mod terms;
mod transcripts;
mod turns;

ghost use Rattle.std.specs.Prelude.{◌≡◌};
ghost use Rattle.bg_c.specs.Rooms.{PutsText};
ghost use Rattle.bg_c.specs.Status.{status_code, status_text};
ghost use Rattle.bg_c.specs.declared.statuses.Status.{Status as AStatus};
ghost use Rattle.bg_c.specs.declared.statuses.Status.TheVariants.{BadArgument};

pub use laws::idle_referees_send_nothing;
use rooms::put;
use statuses::Status;

/// The number of the calls and the structs that no later library changes, `BG_ABI` of the header.
const ABI: u32 = 2;

/// The number of the calls that there are, `BG_VERSION` of the header. It grows with each new call.
const VERSION: u32 = 203;

/// Returns the number of the calls and the structs that no later library changes.
#[unsafe(no_mangle)]
pub extern "C" fn bg_abi() -> u32
    ensures { result ≡ 2 }
{
    ABI
}

/// Returns the number of the calls that there are.
#[unsafe(no_mangle)]
pub extern "C" fn bg_version() -> u32
    ensures { result ≡ 203 }
{
    VERSION
}

/// Writes the description of a status, in English, without a line feed. Returns BG_BAD_ARGUMENT
/// where there is no such status.
#[unsafe(no_mangle)]
pub extern "C" fn bg_status_text(status: u32, out: &mut [u8], needed: &mut usize) -> u32
    ensures text { (of : AStatus) → status ≡ status_code of → (answer : AStatus) × (result ≡ status_code answer)
        × PutsText (status_text of) out.old answer out.new needed.new }
    ensures none { ((of : AStatus) → status ≡ status_code of → ⊥) → (result ≡ status_code BadArgument)
        × (out.new ≡ out.old) × (needed.new ≡ needed.old) }
{
    let Some(status) = Status::of_code(status) else {
        return Status::BadArgument.code();
    };
    put(status.text().as_bytes(), out, needed).code()
}
