//! Laws of the definitions: each is the contract of a function that does nothing.
ghost use Rattle.bg_picture.specs.Laws.{AmpersandsBeginReferences, EscapedTextsArePlain, ItemNamesDiffer};
ghost use Rattle.bg_picture.specs.Laws.{DrawingsTellPositions, EntriesHaveItems, ItemsTellPositions};

/// States that an escaped text has none of `<`, `>`, `"` and `'`, and each `&` in it begins a
/// reference to a character.
pub fn escaped_texts_are_plain()
    ensures plain { EscapedTextsArePlain }
    ensures references { AmpersandsBeginReferences }
{}

/// States that no two items of a page have one name, and that those of its entries are named by
/// their numbers: `p1` to that of the last entry.
pub fn item_names_differ()
    ensures differ { ItemNamesDiffer }
    ensures entries { EntriesHaveItems }
{}

/// States that the data of a page's item, from which its picture is drawn, are those of one board,
/// one cube, one pair of dice and one score.
pub fn items_tell_positions()
    ensures { ItemsTellPositions }
{}

/// States that drawings that are one text show one board, one cube and one pair of dice: a picture
/// tells the position.
pub fn drawings_tell_positions()
    ensures { DrawingsTellPositions }
{}
