//! The numbering of a picture's points.
ghost use Rattle.std.specs.Prelude.{◌≡◌};
ghost use Rattle.bg_picture.specs.Numberings.{mover as mover_of, reader_of};

use bg_board::Player;
use bg_match::Phase;

/// The player whose numbering names the points of a picture.
#[derive(Clone, Copy, Debug, PartialEq, Eq)]
pub enum Numbering {
    /// X.
    X,
    /// The player who rolls, answers a double, moves or resigns; X where nobody does.
    Mover,
}

impl Numbering {
    /// Returns the player whose numbering the points have.
    pub(crate) fn reader(self, phase: Phase) -> Player
        ensures { result ≡ reader_of self phase }
    {
        match self {
            Numbering::X => Player::X,
            Numbering::Mover => mover(phase),
        }
    }
}

/// Returns the player whose numbering a move in this phase has.
fn mover(phase: Phase) -> Player
    ensures { result ≡ mover_of phase }
{
    match phase {
        Phase::Opening | Phase::Over(_) => Player::X,
        Phase::ToAct(player)
        | Phase::Doubled(player)
        | Phase::ToMove(player, _)
        | Phase::Resigned(player, _, _) => player,
    }
}
