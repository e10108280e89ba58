//! The fields before the entries of a saved text, as bytes of the second layout (docs/FORMATS.md,
//! "Saved files").
ghost use Rattle.std.specs.Prelude.{◌≡◌, ◌≤◌, ◌+◌, ◌++◌, length};
ghost use Rattle.bg_match.specs.Match.{IsLegalRecord};
ghost use Rattle.bg_wire.specs.Saved.SavedLayouts.{claim_text, front_text};
ghost use Rattle.bg_wire.specs.Saved.SavedText.{IsSavable, IsKeptClaim, IsInLayout, parts_with};

use crate::entries::entry_writing::put_action;
use crate::entries::rules_bytes::rules_code;
use crate::entries::writer::Writer;
use crate::saves::layouts::{KEPT_CLAIM, Layout, NO_CLAIM, SECOND_MAGIC};
use bg_match::{Action, Number, Record};

/// The greatest length in bytes of what stands before the entries.
const LONGEST_FRONT: usize = 38;

/// A writer with room for what stands before the entries.
type FrontWriter = Writer<LONGEST_FRONT>;

/// Returns the bytes of what stands before the entries.
pub(crate) fn front_text(
    party: u8,
    save: u32,
    claim: &Option<(Number, Action)>,
    log: &Record,
) -> FrontWriter
    requires { IsSavable (parts_with party save claim.now log.now) }
    ensures text { result ≡ front_text Layout.Two party log.now.id log.now.terms save claim.now
        (length log.now.entries) }
    ensures in_layout { IsInLayout Layout.Two (parts_with party save claim.now log.now) }
    ensures legal { IsLegalRecord log.now.terms log.now.entries }
{
    let mut out = Writer::new();
    out.put(&SECOND_MAGIC.to_be_bytes());
    out.put(&[party]);
    out.put(&log.id().to_be_bytes());
    out.put(&[log.length()]);
    out.put(&[rules_code(log.rules())]);
    out.put(&save.to_be_bytes());
    put_claim(&mut out, claim);
    out.put(&log.len().to_be_bytes());
    out
}

fn put_claim(out: &mut FrontWriter, claim: &Option<(Number, Action)>)
    requires kept { IsKeptClaim claim.now }
    requires room { length out.old + 15 ≤ LONGEST_FRONT }
    ensures text { out.new ≡ out.old ++ claim_text Layout.Two claim.now }
    ensures len { length out.new ≤ length out.old + 15 }
{
    match claim {
        None => out.put(&[NO_CLAIM]),
        Some((number, action)) => {
            out.put(&[KEPT_CLAIM]);
            out.put(&number.to_be_bytes());
            put_action(out, action);
        }
    }
}
