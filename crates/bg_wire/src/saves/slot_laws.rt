//! Laws of encodings and of slots, for the crates above. Each is the contract of a function that
//! does nothing.
ghost use Rattle.std.specs.Prelude.{◌≡◌};
ghost use Rattle.bg_wire.specs.Entries.Codes.{longest_packet, longest_datagram, longest_saved_text, first_watcher};
ghost use Rattle.bg_wire.specs.Packets.PacketText.{IsText, TextsTellRules};
ghost use Rattle.bg_wire.specs.Saved.SavedText.{IsSavedText};
ghost use Rattle.bg_wire.specs.Texts.{IsOneText};
ghost use Rattle.bg_wire.specs.FaultLaws.{HaveOneWireFault, PacketsHaveNoFault, HaveOneLoadFault};
ghost use Rattle.bg_wire.specs.FaultLaws.{SavedTextsHaveNoFault};
ghost use Rattle.bg_wire.specs.Saved.SlotLaws.{FrontsLoadAsNothing, EmptyLoadsAsNothing, LoadAsOneThing};
ghost use Rattle.bg_wire.specs.Saved.SlotLaws.{RestoreOneThing, RestoreOneOfBoth};
ghost use Rattle.bg_wire.specs.Saved.SlotLaws.{GoesByTurns, NextGoesToTheOther, WrittenIsRestored, TornIsNotRestored};
ghost use Rattle.bg_wire.specs.Saved.SlotLaws.{GivesWhatSlotsRestore};
ghost use Rattle.bg_wire.specs.Saved.WrittenLaws.{HaveWrittenText, HaveOneWrittenText, WrittenAreSaved};

use crate::{FIRST_WATCHER, LONGEST_PACKET, LONGEST_SAVED_TEXT, MOST_DATAGRAM_BYTES};

/// States that the constants are the numbers of the layouts.
pub fn laws_of_constants()
    ensures packet { LONGEST_PACKET ≡ longest_packet }
    ensures datagram { MOST_DATAGRAM_BYTES ≡ longest_datagram }
    ensures saved { LONGEST_SAVED_TEXT ≡ longest_saved_text }
    ensures watcher { FIRST_WATCHER ≡ first_watcher }
{}

/// States that bytes have at most one fault, by the layouts alone, and that an encoding has none.
pub fn laws_of_faults()
    ensures packets { HaveOneWireFault }
    ensures fine_packets { PacketsHaveNoFault }
    ensures saved { HaveOneLoadFault }
    ensures fine_saved { SavedTextsHaveNoFault }
{}

/// States that bytes are the encoding of at most one packet, and of one saved match, whichever
/// layout a saved text has. The encoding of a packet tells its rules.
pub fn laws_of_texts()
    ensures packets { IsOneText IsText }
    ensures rules { TextsTellRules }
    ensures saved { IsOneText IsSavedText }
{}

/// States that a state which may be saved has one text that is written, which is a saved text of
/// the same state.
pub fn laws_of_written_texts()
    ensures some { HaveWrittenText }
    ensures one { HaveOneWrittenText }
    ensures saved { WrittenAreSaved }
{}

/// States that bytes load as one thing, and as nothing where they are empty or a proper prefix of a
/// saved text.
pub fn laws_of_loading()
    ensures once { LoadAsOneThing }
    ensures cut { FrontsLoadAsNothing }
    ensures empty { EmptyLoadsAsNothing }
{}

/// States that two slots restore one thing, by the saved text in one of them, and that restoring
/// returns it.
pub fn laws_of_restoring()
    ensures once { RestoreOneThing }
    ensures one { RestoreOneOfBoth }
    ensures back { GivesWhatSlotsRestore }
{}

/// States that saves go to the two slots by turns. After a save the slots restore it; after one
/// that was cut short, they restore what they did before.
pub fn laws_of_saving()
    ensures turns { GoesByTurns }
    ensures other { NextGoesToTheOther }
    ensures written { WrittenIsRestored }
    ensures torn { TornIsNotRestored }
{}
