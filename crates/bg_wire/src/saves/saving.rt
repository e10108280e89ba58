//! Saved texts, written and read.
ghost use Rattle.std.specs.Prelude.{◌≡◌, ◌≢◌, ◌↔◌, ◌<◌, ◌≤◌, ◌+◌, ◌++◌, [], List, ℕ, length, IsOk, IfOk, IfErr};
ghost use Rattle.std.specs.Prelude.{vec_len, vec_capacity};
ghost use Rattle.std.specs.List.{AllByRecursion};
ghost use Rattle.bg_match.specs.Limits.{most_entries};
ghost use Rattle.bg_match.specs.Entry.{IsEntry};
ghost use Rattle.bg_match.specs.Match.{IsLegalRecord};
ghost use Rattle.bg_wire.specs.Entries.Codes.{longest_saved_text, seat_of_o};
ghost use Rattle.bg_wire.specs.Texts.{HasMore, ArePrefixFree};
ghost use Rattle.bg_wire.specs.Entries.EntryText.{entries_bytes, bytes_at};
ghost use Rattle.bg_wire.specs.Saved.SavedText.{SavedParts, IsSavable, IsLayoutOf, IsSavedText, IsWrittenText};
ghost use Rattle.bg_wire.specs.Saved.SavedText.{IsIllegalAt, HasEntries, parts_of, parts_with, IsClaimOf};
ghost use Rattle.bg_wire.specs.Faults.{IsLoadFault};
ghost use Rattle.bg_wire.specs.Saved.Saves.{IsNextSave};
ghost use Rattle.bg_wire.specs.Saved.SavedReading.{layout_of, entries_of, append_fault, Loads, Replays};

use crate::entries::entry_reading::entry;
use crate::entries::entry_writing::{LONGEST_ENTRY, put_entry};
use crate::entries::reader::Reader;
use crate::entries::writer::Writer;
use crate::saves::layouts::{Layout, end, pass_entries, split_front};
use crate::saves::writing::front_text;
use crate::{LoadFault, SaveRefusal, Saved, Slot};
use bg_match::{Action, EntryFault, Number, Record};
use std::alloc::{AllocError, Global};

/// Returns the saved text, in the second layout: at most 10000038 bytes (docs/FORMATS.md,
/// "Saved files").
///
/// # Errors
/// `AllocError` where there is no memory for it.
pub fn save_text(alloc: Global, saved: &Saved) -> Result<Vec<u8>, AllocError>
    requires { IsSavable (parts_of saved.now) }
    ensures text { IfOk result (λ text. IsWrittenText (parts_of saved.now) text.items) }
    ensures longest { IfOk result (λ text. vec_len text ≤ longest_saved_text) }
{
    text_of(alloc, saved.party, saved.save, &saved.claim, &saved.log)
}

/// Returns the slot, the number and the text of the save that follows the save `last`, or of the
/// first one where `last` is 0 (docs/PROTOCOL.md, "Saving"). The text is the one that [`save_text`]
/// returns for the same parts, which are only borrowed.
///
/// # Errors
/// `SavesSpent` where `last` is 4294967295, else `Memory` where there is no memory for the text.
pub fn next_save(
    alloc: Global,
    last: u32,
    party: u8,
    claim: &Option<(Number, Action)>,
    log: &Record,
) -> Result<(Slot, u32, Vec<u8>), SaveRefusal>
    requires party { party ≤ seat_of_o }
    requires claim { IsClaimOf party claim.now }
    ensures next { IsNextSave (parts_with party (last + 1) claim.now log.now) result }
    ensures longest { IfOk result (λ next. vec_len (next.2) ≤ longest_saved_text) }
{
    let Some(save) = last.checked_add(1) else {
        return Err(SaveRefusal::SavesSpent);
    };
    match text_of(alloc, party, save, claim, log) {
        Ok(text) => Ok((Slot::of(save), save, text)),
        Err(_) => Err(SaveRefusal::Memory),
    }
}

/// Returns the saved text of these parts. Room is made once, for entries of the greatest length, so
/// the length of each need not be known before it is written.
fn text_of(
    alloc: Global,
    party: u8,
    save: u32,
    claim: &Option<(Number, Action)>,
    log: &Record,
) -> Result<Vec<u8>, AllocError>
    requires { IsSavable (parts_with party save claim.now log.now) }
    ensures text { IfOk result (λ text.
        IsWrittenText (parts_with party save claim.now log.now) text.items) }
    ensures longest { IfOk result (λ text. vec_len text ≤ longest_saved_text) }
{
    let front = front_text(party, save, claim, log);
    let front = front.as_slice();
    let mut text = Vec::with_capacity(alloc, front.len() + LONGEST_ENTRY * log.len() as usize)?;
    append(&mut text, front);
    push_entries(&mut text, log);
    Ok(text)
}

/// States that no saved text, of either layout, is a proper prefix of another saved text. So a
/// saved text is that of one value.
pub fn saved_texts_are_prefix_free()
    ensures { ArePrefixFree IsSavedText }
{}

/// A writer with room for the encodings of some twenty entries.
type Chunk = Writer<256>;

/// Appends the encodings of all entries, for which there is room, some twenty at a time.
fn push_entries(text: &mut Vec<u8>, log: &Record)
    requires room { length text.old.items + length (entries_bytes log.now.entries) ≤ vec_capacity text.old }
    ensures { text.new.items ≡ text.old.items ++ entries_bytes log.now.entries }
{
    let mut chunk = Chunk::new();
    for index in 0..log.len() {
        put_index(&mut chunk, log, index);
        append_full(text, &mut chunk);
    }
    append(text, chunk.as_slice());
}

/// Appends bytes for which there is room.
fn append(text: &mut Vec<u8>, bytes: &[u8])
    requires { length text.old.items + length bytes.now ≤ vec_capacity text.old }
    ensures items { text.new.items ≡ text.old.items ++ bytes.now }
    ensures capacity { vec_capacity text.old ≤ vec_capacity text.new }
{
    text.extend_from_slice(bytes).unwrap();
}

/// Appends the encoding of the entry with this index, from 0, or nothing past the end.
fn put_index(chunk: &mut Chunk, log: &Record, index: Number)
    requires below { index < most_entries }
    requires in_range { AllByRecursion IsEntry log.now.entries }
    requires room { length chunk.old + 10 ≤ 256 }
    ensures text { chunk.new ≡ chunk.old ++ bytes_at log.now.entries index }
    ensures len { length chunk.new ≤ length chunk.old + 10 }
{
    if let Some(entry) = log.entry(index + 1) {
        put_entry(chunk, entry);
    }
}

/// Appends a chunk that has no room for a further entry, and empties it. The text has room for it.
fn append_full(text: &mut Vec<u8>, chunk: &mut Chunk)
    requires { length (text.old.items ++ chunk.old) ≤ vec_capacity text.old }
    ensures same { text.new.items ++ chunk.new ≡ text.old.items ++ chunk.old }
    ensures room { length chunk.new + 10 ≤ 256 }
    ensures capacity { vec_capacity text.old ≤ vec_capacity text.new }
{
    if !chunk.has_room(LONGEST_ENTRY) {
        append(text, chunk.as_slice());
        chunk.clear();
    }
}

/// Loads a saved text, in either layout (docs/FORMATS.md, "Saved files"). The claim is not compared
/// with the record.
///
/// # Errors
/// The first fault met from left to right, of the layout that the first field names. Where the
/// layout holds, `Illegal` of the first entry that does not follow. `Memory` where there is none
/// for the entries.
pub fn load(alloc: Global, bytes: &[u8]) -> Result<Saved, LoadFault>
    // A state that is loaded has this saved text.
    ensures found { IfOk result (λ saved. IsSavedText (parts_of saved) bytes.now) }
    ensures savable { IfOk result (λ saved. IsSavable (parts_of saved)) }
    // Each saved text is loaded.
    ensures only { (p : SavedParts) → IsSavedText p bytes.now → result ≢ Err LoadFault.Memory
        → IsOk result × IfOk result (λ saved. parts_of saved ≡ p) }
    // A proper prefix of a text is short.
    ensures short { (p : SavedParts) (rest : List ℕ) → IsLayoutOf p (bytes.now ++ rest) → rest ≢ []
        → result ≡ Err LoadFault.Short }
    // Bytes after the end of the layout are extra, and nothing else is.
    ensures extra { (result ≡ Err LoadFault.Extra) ↔ HasMore IsLayoutOf bytes.now }
    // The first entry that does not follow.
    ensures illegal { (n : ℕ) → result ≡ Err (LoadFault.Illegal n) → IsIllegalAt n bytes.now }
    ensures only_illegal { (n : ℕ) → IsIllegalAt n bytes.now → result ≢ Err LoadFault.Memory
        → result ≡ Err (LoadFault.Illegal n) }
    // Memory is needed for entries alone, once the layout holds.
    ensures memory { result ≡ Err LoadFault.Memory → HasEntries bytes.now }
    // A fault describes the bytes: by `laws_of_faults` they have no other, but for `Memory`.
    ensures why { IfErr result (λ fault. IsLoadFault fault bytes.now) }
{
    load_record(alloc, bytes)
}

/// Loads the saved text as a record. Makes room for no more entries than there are bytes for, so no
/// count is trusted.
fn load_record(alloc: Global, bytes: &[u8]) -> Result<Saved, LoadFault>
    ensures { Loads result (layout_of bytes.now) }
{
    let (front, mut reader) = split_front(bytes)?;
    let mut log = Record::new(alloc, front.id, front.terms.length, front.terms.rules).unwrap();
    if log.reserve(reader.at_most(front.count)).is_err() {
        pass_entries(&mut reader, front.layout, front.count)?;
        return Err(LoadFault::Memory);
    }
    replay(&mut log, &mut reader, front.layout, front.count)?;
    Ok(Saved {
        party: front.party,
        save: front.save,
        claim: front.claim,
        log,
    })
}

/// Appends `count` entries, with which the text ends, to a record that has none. A fault of the
/// layout comes first, even behind an entry that does not follow.
fn replay(
    log: &mut Record,
    reader: &mut Reader<'_>,
    layout: Layout,
    count: Number,
) -> Result<(), LoadFault>
    requires none { log.old.entries ≡ [] }
    requires legal { IsLegalRecord log.old.terms [] }
    ensures { Replays result log.old log.new (entries_of layout count reader.old) }
{
    for done in 0..count {
        let entry = match entry(reader, layout) {
            Ok(entry) => entry,
            Err(fault) => return Err(LoadFault::of(reader.fault(fault))),
        };
        if let Err(fault) = log.push(entry) {
            pass_entries(reader, layout, count - (done + 1))?;
            return Err(append_fault(done + 1, &fault));
        }
    }
    end(reader)
}

/// Returns the reason why loading ends where the entry of this number was not appended.
fn append_fault(number: Number, fault: &EntryFault) -> LoadFault
    ensures { result ≡ append_fault number fault.now }
{
    match fault {
        EntryFault::Memory => LoadFault::Memory,
        _ => LoadFault::Illegal(number),
    }
}
