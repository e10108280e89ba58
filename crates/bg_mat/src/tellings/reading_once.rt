//! A match file has one reading.
ghost use Rattle.bg_mat.specs.OneReading.{FilesReadOnce, LinesReadOnce};
ghost use Rattle.bg_mat.specs.Rows.RowFaults.{RowFaultsDiffer};

/// States that the lines of a match file have one reading: they give one length, and then the same
/// cells and games in the same order. Only the names in a line of scores may have scores of their
/// own.
pub fn files_read_once()
    ensures { FilesReadOnce }
{}

/// States that a line of a match file has one reading, where it is known what is awaited and where
/// the match stands.
pub fn lines_read_once()
    ensures { LinesReadOnce }
{}

/// States that a line that is no row is refused for one reason: at most one of `NotALine`, `Beaver`
/// and `TooManySteps` applies.
pub fn row_faults_differ()
    ensures { RowFaultsDiffer }
{}
