//! What a party may show to others, at once: where the match stands, and its transcript.
ghost use Rattle.std.specs.Prelude.{◌≡◌, ◌++◌, ℕ, None, Some, IfOk, OnOk, Result, take};
ghost use Rattle.std.specs.Global.{Vec};
ghost use Rattle.bg_match.specs.Follows.{CanFollow, Follows};
ghost use Rattle.bg_match.specs.Match.{StandsAt};
ghost use Rattle.bg_text.specs.Boards.BoardText.{line_text};
ghost use Rattle.bg_text.specs.Boards.Transcript.{IsTranscript, length_line};
ghost use Rattle.bg_c.specs.Handle.{Held};
ghost use Rattle.bg_c.specs.Sets.{GivesBeside};
ghost use Rattle.bg_c.specs.Shown.{MakesShown};
ghost use Rattle.bg_c.specs.Status.{status_code};
ghost use Rattle.bg_c.specs.declared.parties.shown.ShownFields.{ShownFields as Fields};
ghost use Rattle.bg_c.specs.declared.statuses.Status.{Status as AStatus};
ghost use Rattle.bg_c.specs.declared.statuses.Status.TheVariants.{NotOpen};

use crate::entry_lines::put_line;
use crate::handle::Handle;
use crate::parties::count_told;
use crate::rooms::give_beside;
use crate::saved_texts::claim_number;
use crate::standings::StandingFields;
use crate::statuses::Status;
use bg_match::{Entry, Number, Record, Standing};
use bg_parties::Party;
use bg_text::{put_terms, put_text};
use std::alloc::{AllocError, Global};

/// What a party may show, `bg_shown` of the header.
#[repr(C)]
#[derive(Clone, Copy)]
pub struct ShownFields {
    /// The number of entries that it may show: of the referee those that are saved, of another
    /// party all.
    pub entries: u32,
    /// The number of entries that it holds. Where that is greater, a save is needed.
    pub held: u32,
    /// The number of a seat's last claim, which waits for its answer while that is greater than
    /// `held`; 0 where there is none.
    pub claim: u32,
    /// 0.
    pub reserved: [u32; 5],
    /// Where the match stands after the entries that it may show.
    pub standing: StandingFields,
}

/// Returns the standing after an entry that follows.
fn next_standing(standing: &Standing, entry: &Entry) -> Standing
    requires { CanFollow standing.now entry.now }
    ensures { Follows standing.now entry.now result }
{
    standing.next(entry).unwrap()
}

/// Returns the standing after the first entries of a record, so many.
fn standing_after(log: &Record, count: Number) -> Standing
    ensures { StandsAt log.now.terms (take count log.now.entries) result }
{
    let mut standing = Standing::start(log.length(), log.rules());
    for played in 0..count.min(log.len()) {
        let entry = log.entry(played + 1).unwrap();
        standing = next_standing(&standing, entry);
    }
    standing
}

/// Adds the line of a record's length and rules.
fn put_length(out: &mut Vec<u8>, log: &Record) -> Result<(), AllocError>
    ensures { OnOk result (out.new.items ≡ out.old.items ++ line_text (length_line log.now.terms)) }
{
    put_terms(out, log.length(), log.rules())?;
    put_text(out, "\n")
}

/// Returns the transcript of the first entries of a record, so many.
fn transcript_of_first(alloc: Global, log: &Record, count: Number) -> Result<Vec<u8>, AllocError>
    ensures { IfOk result (λ text. IsTranscript log.now.terms (take count log.now.entries) text.items) }
{
    let mut text = Vec::new(alloc);
    put_length(&mut text, log)?;
    for written in 0..count.min(log.len()) {
        put_line(&mut text, log, written + 1)?;
    }
    Ok(text)
}

/// Returns what a party may show, and the transcript of that.
fn make_shown(alloc: Global, party: &Party) -> Result<(ShownFields, Vec<u8>), Status>
    ensures { MakesShown party.now result }
{
    let log = party.held();
    let entries = count_told(party);
    let text = transcript_of_first(alloc, log, entries)?;
    let fields = ShownFields {
        entries,
        held: log.len(),
        claim: claim_number(&party.claim()),
        reserved: [0; 5],
        standing: StandingFields::of(&standing_after(log, entries)),
    };
    Ok((fields, text))
}

/// Writes the transcript of the entries that a party may show to others, and sets `shown` to their
/// number, to where the match stands after them, to how many entries the party holds, and to the
/// number of a seat's last claim. `shown` is set where the result is BG_OK.
#[unsafe(no_mangle)]
pub extern "C" fn bg_proved_party_shown(
    alloc: Global,
    handle: &mut Handle,
    shown: &mut ShownFields,
    out: &mut [u8],
    needed: &mut usize,
) -> u32
    ensures same { handle.new.value ≡ handle.old.value }
    ensures closed { handle.old.value ≡ None → (result ≡ status_code NotOpen) × (shown.new ≡ shown.old)
        × (out.new ≡ out.old) × (needed.new ≡ needed.old) }
    ensures shown { (party : Held) → handle.old.value ≡ Some party → (made : Result (Fields × Vec ℕ) AStatus)
        × MakesShown party made × GivesBeside made out.old needed.old shown.old result out.new needed.new shown.new }
{
    let Some(party) = handle.take(alloc) else {
        return Status::NotOpen.code();
    };
    let made = make_shown(alloc, &party);
    handle.put(party);
    give_beside(made, shown, out, needed).code()
}
