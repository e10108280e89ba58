//! Laws of the definitions: the contract of a function that does nothing.
ghost use Rattle.bg_table.specs.Laws.{FitsLines, NamesStep, TellsWin};

/// States that the line of a refused turn names the step that is refused, and that the text of a
/// won game gives the points won. In a list, each text is shorter than a cell, and the cells of a
/// line fit into it unless one stands alone.
pub fn laws_of_texts()
    ensures step { NamesStep }
    ensures win { TellsWin }
    ensures lines { FitsLines }
{}
