//! The actions that the player who acts may claim.
ghost use Rattle.std.specs.Prelude.{◌≡◌, ◌↔◌, ◌≤◌, IsTrue, None, Some};
ghost use Rattle.bg_match.specs.Match.{IsNext};
ghost use Rattle.bg_match.specs.State.{State};
ghost use Rattle.bg_parties.specs.Calls.{log_of};
ghost use Rattle.bg_c.specs.Handle.{Held};
ghost use Rattle.bg_c.specs.Options.{HasOptions, bit_of, options_code};
ghost use Rattle.bg_c.specs.PartyCalls.{PartyStands};
ghost use Rattle.bg_c.specs.Status.{status_code};
ghost use Rattle.bg_c.specs.declared.parties.options.Options.{Options as AllOptions};
ghost use Rattle.bg_c.specs.declared.statuses.Status.TheVariants as status;

use crate::handle::Handle;
use crate::parties::claims::TRIAL_DICE;
use crate::statuses::Status;
use crate::turns::mover;
use bg_match::{Entry, Level, MOST_ENTRIES, Record, Standing};
use std::alloc::Global;

/// What the player who acts may claim. Each is false where no player acts.
#[derive(Clone, Copy)]
pub struct Options {
    /// To roll.
    pub roll: bool,
    /// To double.
    pub double: bool,
    /// To take a double.
    pub take: bool,
    /// To drop a double.
    pub drop: bool,
    /// To play a turn.
    pub turn: bool,
    /// To offer to resign, at any level.
    pub resign: bool,
    /// To accept an offer to resign.
    pub accept: bool,
    /// To reject an offer to resign.
    pub reject: bool,
}

/// Returns whether an entry follows a record.
fn follows(log: &Record, entry: &Entry) -> bool
    ensures { IsTrue result ↔ IsNext log.now.terms log.now.entries entry.now }
{
    log.check(entry).is_ok()
}

impl Options {
    /// Returns what may be claimed by a record, which leads to this standing.
    fn of(log: &Record, standing: &Standing) -> Options
        ensures { HasOptions log.now standing.now result }
    {
        Options {
            roll: follows(log, &Entry::Rolled(TRIAL_DICE)),
            double: follows(log, &Entry::Doubled),
            take: follows(log, &Entry::Taken),
            drop: follows(log, &Entry::Dropped),
            turn: mover(standing).is_some() && log.len() < MOST_ENTRIES,
            resign: follows(log, &Entry::Resigned(Level::Normal)),
            accept: follows(log, &Entry::Accepted),
            reject: follows(log, &Entry::Rejected),
        }
    }

    /// Returns their bits: 1 to roll, 2 to double, and so on.
    fn code(self) -> u32
        ensures { result ≡ options_code self }
    {
        bit_if(self.roll, 1)
            + bit_if(self.double, 2)
            + bit_if(self.take, 4)
            + bit_if(self.drop, 8)
            + bit_if(self.turn, 16)
            + bit_if(self.resign, 32)
            + bit_if(self.accept, 64)
            + bit_if(self.reject, 128)
    }
}

/// Returns a bit if it is given, and otherwise 0.
fn bit_if(given: bool, bit: u32) -> u32
    ensures value { result ≡ bit_of given bit }
    ensures at_most { result ≤ bit }
{
    if given { bit } else { 0 }
}

/// Sets `options` to the bits of what the player who acts may claim by the record of a party. They
/// are 1 to roll, 2 to double, 4 to take, 8 to drop, 16 to play a turn and 32 to resign. To accept
/// an offer to resign is 64, and to reject it 128. `options` is 0 where the referee acts, or
/// nobody.
#[unsafe(no_mangle)]
pub extern "C" fn bg_proved_party_options(
    alloc: Global,
    handle: &mut Handle,
    options: &mut u32,
) -> u32
    ensures same { handle.new.value ≡ handle.old.value }
    ensures closed { handle.old.value ≡ None → (result ≡ status_code status.NotOpen) × (options.new ≡ options.old) }
    ensures options { (party : Held) → handle.old.value ≡ Some party → (s : State) × (all : AllOptions)
        × PartyStands party s × HasOptions (log_of party.core) s all × (result ≡ status_code status.Ok)
        × (options.new ≡ options_code all) }
{
    let Some(party) = handle.take(alloc) else {
        return Status::NotOpen.code();
    };
    let log = party.held();
    *options = Options::of(log, &log.standing()).code();
    handle.put(party);
    Status::Ok.code()
}
