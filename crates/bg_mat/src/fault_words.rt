//! The words of faults.

use crate::{ImportFault, MatFault};
use std::fmt;

impl fmt::Display for MatFault {
    ghost use Rattle.std.specs.Prelude.{Some};
    ghost use Rattle.bg_mat.specs.FaultWords.{mat_fault_words};

    ghost output = { λ fault. Some (mat_fault_words fault) };

    fn fmt<W: fmt::Write>(&self, f: &mut fmt::Formatter<W>) -> fmt::Result {
        match self {
            MatFault::NotALine => f.write_str("not a line of a match file"),
            MatFault::NoCrawford => f.write_str("a match without a Crawford game"),
            MatFault::NoLength => f.write_str("no length of the match"),
            MatFault::Money => f.write_str("a money game"),
            MatFault::LengthOutOfRange => f.write_str("length out of range"),
            MatFault::WrongGame => f.write_str("not the next game"),
            MatFault::WrongScores => f.write_str("not the players and their scores"),
            MatFault::GameGoesOn => f.write_str("the game before is not over"),
            MatFault::GameOver => f.write_str("the game is over"),
            MatFault::Beaver => f.write_str("a beaver"),
            MatFault::OutOfTurn => f.write_str("out of turn"),
            MatFault::ResignsOutOfTurn => f.write_str("the loser resigns out of turn"),
            MatFault::UnknownTurn => f.write_str("a turn that is not known"),
            MatFault::TooManySteps => f.write_str("too many steps"),
            MatFault::NoSuchTurn => f.write_str("no legal turn has this movement"),
            MatFault::WrongHits => f.write_str("no legal turn has this movement with these hits"),
            MatFault::WrongCube => f.write_str("not twice the cube"),
            MatFault::WrongPoints => f.write_str("not the points of the game"),
            MatFault::MatchGoesOn => f.write_str("the match is not over"),
            MatFault::Entry(why) => write!(f, "{why}"),
        }
    }
}

impl std::error::Error for MatFault {}

impl fmt::Display for ImportFault {
    ghost use Rattle.std.specs.Prelude.{Some};
    ghost use Rattle.bg_mat.specs.FaultWords.{import_fault_words};

    ghost output = { λ fault. Some (import_fault_words fault) };

    fn fmt<W: fmt::Write>(&self, f: &mut fmt::Formatter<W>) -> fmt::Result {
        match self {
            ImportFault::Refused { line, why } => write!(f, "refused at line {line}: {why}"),
            ImportFault::TooLong => f.write_str("refused: input too long"),
            ImportFault::Memory => f.write_str("out of memory"),
        }
    }
}

impl std::error::Error for ImportFault {}
