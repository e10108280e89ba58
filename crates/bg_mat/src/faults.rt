//! Why a match file is refused.
ghost use Rattle.std.specs.Prelude.{◌≡◌};

use bg_match::EntryFault;

/// Why a line of a match file is refused (docs/FORMATS.md, "Match files of other programs").
#[derive(Clone, Copy, Debug, PartialEq, Eq)]
pub enum MatFault {
    /// The line has none of the shapes that may stand there.
    NotALine,
    /// A header says that the match, which has more than one point, has no Crawford game.
    NoCrawford,
    /// The length of the match doesn't come first.
    NoLength,
    /// The match is played for money: its length is 0.
    Money,
    /// The length is not from 1 to 99.
    LengthOutOfRange,
    /// The number of the game is not that of the next one.
    WrongGame,
    /// The line doesn't name the players with their current scores.
    WrongScores,
    /// A game begins while the one before it still goes on.
    GameGoesOn,
    /// The game is over.
    GameOver,
    /// A double was turned at once by the player who took it.
    Beaver,
    /// It is not this player's turn to do so.
    OutOfTurn,
    /// The player who loses is neither to roll nor to move, and so can't resign.
    ResignsOutOfTurn,
    /// The file marks a turn as unknown.
    UnknownTurn,
    /// A movement has more than four steps.
    TooManySteps,
    /// No legal turn with these dice has this movement.
    NoSuchTurn,
    /// No legal turn with these dice and this movement has these hits.
    WrongHits,
    /// The stated value of the cube is not twice the current one.
    WrongCube,
    /// The winner doesn't win this number of points.
    WrongPoints,
    /// The match is not over.
    MatchGoesOn,
    /// The entry is refused by the rules.
    Entry(EntryFault),
}

/// Why a match file gives no record.
#[derive(Clone, Copy, Debug, PartialEq, Eq)]
pub enum ImportFault {
    /// The first line that is refused, counted from 1, and why. Where no line has content, this is
    /// one more than the number of lines.
    Refused { line: u32, why: MatFault },
    /// The input is longer than 41943040 bytes.
    TooLong,
    /// There is no memory for the record.
    Memory,
}

/// Why the lines of a match file give no record.
#[derive(Clone, Copy, Debug, PartialEq, Eq)]
pub(crate) enum ReadFault {
    /// The first line that is refused, counted from 1, and why.
    Refused { line: u32, why: MatFault },
    /// There is no memory for the record.
    Memory,
}

pub(crate) fn refused(line: u32, why: MatFault) -> ReadFault
    ensures { result ≡ ReadFault.Refused line why }
{
    ReadFault::Refused { line, why }
}
