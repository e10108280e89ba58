//! The reasons why a typed turn is refused.

use bg_turns::Turn;
use std::alloc::AllocError;
use std::fmt;

/// The first of these tests that a typed turn fails (docs/FORMATS.md, "Typed turns").
#[derive(Debug, PartialEq, Eq, Drop)]
pub enum TypedFault {
    /// A word is not part of a movement.
    NotAMovement,
    /// The movement has more than four steps.
    TooManySteps,
    /// No legal turn has this movement.
    NoSuchTurn,
    /// Legal turns have this movement, and hits are marked, but none of these turns has exactly
    /// these hits.
    WrongHits,
    /// No hit is marked, and legal turns with this movement hit on different points. Holds the
    /// greatest of them, and the greatest of those that hit otherwise.
    Ambiguous(Turn, Turn),
    /// No movement is typed, and the number of legal turns is not one.
    SeveralTurns,
    /// There is no memory for the text in the spelling of match files, or for the list of legal
    /// turns.
    Memory,
}

impl From<AllocError> for TypedFault {
    ghost use Rattle.std.specs.Prelude.{◌≡◌};
    ghost use Rattle.bg_typed.specs.declared.faults.TypedFault.TheVariants.{Memory};

    ghost from_gives = { λ _ fault. fault ≡ Memory };

    fn from(_: AllocError) -> TypedFault {
        TypedFault::Memory
    }
}

impl fmt::Display for TypedFault {
    ghost use Rattle.std.specs.Prelude.{Some};
    ghost use Rattle.bg_typed.specs.FaultWords.{typed_fault_words};

    ghost output = { λ fault. Some (typed_fault_words fault) };

    fn fmt<W: fmt::Write>(&self, f: &mut fmt::Formatter<W>) -> fmt::Result {
        f.write_str(match self {
            TypedFault::NotAMovement => "not a movement",
            TypedFault::TooManySteps => "too many steps",
            TypedFault::NoSuchTurn => "no legal turn has this movement",
            TypedFault::WrongHits => "no legal turn has this movement with these hits",
            TypedFault::Ambiguous(_, _) => "legal turns of this movement hit on different points",
            TypedFault::SeveralTurns => "several turns are legal",
            TypedFault::Memory => "out of memory",
        })
    }
}

impl std::error::Error for TypedFault {}
