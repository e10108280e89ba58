//! The name of a player, as a reader sees it.
ghost use Rattle.std.specs.Prelude.{◌≡◌, ◌++◌, OnOk};
ghost use Rattle.bg_table.specs.SeenPlayers.{name_text, you_mark as mark_of};

use bg_board::Player;
use bg_text::{letter, put_text};
use std::alloc::AllocError;

/// Appends the name of a player, as the reader sees it.
#[tactic(auto, unfolding(crate::specs::SeenPlayers::name_text))]
pub(crate) fn put_name(out: &mut Vec<u8>, player: Player, reader: Player) -> Result<(), AllocError>
    ensures { OnOk result (out.new.items ≡ out.old.items ++ name_text player reader) }
{
    put_text(out, letter(player))?;
    put_text(out, you_mark(player, reader))
}

/// Returns the mark that tells readers that they are the player.
fn you_mark(player: Player, reader: Player) -> &'static str
    ensures { result.now ≡ mark_of player reader }
{
    match (player, reader) {
        (Player::X, Player::X) | (Player::O, Player::O) => " (you)",
        (Player::X, Player::O) | (Player::O, Player::X) => "",
    }
}
