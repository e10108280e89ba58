//! Who is on roll, and who is to act.
ghost use Rattle.std.specs.Prelude.{◌≡◌};
ghost use Rattle.bg_ids.specs.Turns.{on_roll as player_on_roll, to_act as player_to_act};

use bg_board::Player;
use bg_match::Phase;

/// Returns the player on roll: who rolls or has rolled, also while the other one answers his double
/// or his offer to resign. Before a game that is X, and after the match the player who lost it.
pub fn on_roll(phase: Phase) -> Player
    ensures { result ≡ player_on_roll phase }
{
    match phase {
        Phase::Opening => Player::X,
        Phase::ToAct(player) | Phase::ToMove(player, _) | Phase::Resigned(player, _, _) => player,
        Phase::Doubled(player) | Phase::Over(player) => player.opponent(),
    }
}

/// Returns the player who is to act: who answers a double or an offer to resign, and else the
/// player on roll.
pub fn to_act(phase: Phase) -> Player
    ensures { result ≡ player_to_act phase }
{
    match phase {
        Phase::Doubled(player) => player,
        Phase::Resigned(player, _, _) => player.opponent(),
        _ => on_roll(phase),
    }
}
