//! A player's choices now.
ghost use Rattle.std.specs.Prelude.{◌↔◌, IsTrue};
ghost use Rattle.bg_table.specs.Offering.{AreOffered, IsToMove, MayMake, MayResign, MayRoll};

use bg_board::{Die, Player};
use bg_match::{Actor, Entry, Level, Phase, Standing};
use bg_turns::Dice;

/// A player's choices now: for each kind of action, whether the match takes one from the player.
#[derive(Clone, Copy, Debug, PartialEq, Eq)]
pub struct Offers {
    /// The player may roll.
    pub roll: bool,
    /// The player may double. Nobody may in a Crawford game, where the other player owns the cube,
    /// or at 128.
    pub double: bool,
    /// The player may take the double.
    pub take: bool,
    /// The player may drop the double.
    pub drop: bool,
    /// The player may accept the offer to resign.
    pub accept: bool,
    /// The player may reject the offer to resign.
    pub reject: bool,
    /// The player may play a legal turn.
    pub turn: bool,
    /// The player may offer to resign, at each level.
    pub resign: bool,
}

/// Dice that may be rolled. Whether a roll may follow doesn't depend on them.
const SOME_DICE: Dice = Dice {
    first: Die::One,
    second: Die::One,
};

/// Returns what a player may do at this standing of the match.
pub fn offered(standing: &Standing, player: Player) -> Offers
    ensures { AreOffered standing.now player result }
{
    Offers {
        roll: may_roll(standing, player),
        double: may_make(standing, player, &Entry::Doubled),
        take: may_make(standing, player, &Entry::Taken),
        drop: may_make(standing, player, &Entry::Dropped),
        accept: may_make(standing, player, &Entry::Accepted),
        reject: may_make(standing, player, &Entry::Rejected),
        turn: is_to_move(standing, player),
        resign: may_resign(standing, player),
    }
}

/// Returns whether an entry of a player may follow.
fn may_make(standing: &Standing, player: Player, entry: &Entry) -> bool
    ensures { IsTrue result ↔ MayMake standing.now player entry.now }
{
    standing.actor() == Actor::Seat(player) && standing.next(entry).is_ok()
}

/// Returns whether a player may roll, whatever the dice.
fn may_roll(standing: &Standing, player: Player) -> bool
    ensures { IsTrue result ↔ MayRoll standing.now player }
{
    may_make(standing, player, &Entry::Rolled(SOME_DICE))
}

/// Returns whether a player may offer to resign, at each level.
fn may_resign(standing: &Standing, player: Player) -> bool
    ensures { IsTrue result ↔ MayResign standing.now player }
{
    may_make(standing, player, &Entry::Resigned(Level::Normal))
}

/// Returns whether a player is to move some dice.
#[tactic(auto, using(crate::proofs::Followed::moves, crate::proofs::Followed::acts_to_move))]
fn is_to_move(standing: &Standing, player: Player) -> bool
    ensures { IsTrue result ↔ IsToMove standing.now player }
{
    match (standing.phase(), standing.actor()) {
        (Phase::ToMove(mover, _), Actor::Seat(_)) => mover == player,
        _ => false,
    }
}
