//! The words for players and levels.
ghost use Rattle.std.specs.Prelude.{◌≡◌, ◌≤◌, length};
ghost use Rattle.bg_text.specs.Entries.EntryText.{letter as letter_of, level_word as word_of_level};

use bg_board::Player;
use bg_match::Level;

/// Returns the player's letter: `X` or `O` (docs/FORMATS.md, "Entry lines").
pub fn letter(player: Player) -> &'static str
    ensures word { result.now ≡ letter_of player }
    ensures fits { length result.now ≤ 1 }
{
    match player {
        Player::X => "X",
        Player::O => "O",
    }
}

/// Returns the word for a level of an offer to resign: `normal`, `gammon` or `backgammon`
/// (docs/FORMATS.md, "Entry lines").
pub fn level_word(level: Level) -> &'static str
    ensures word { result.now ≡ word_of_level level }
    ensures fits { length result.now ≤ 10 }
{
    match level {
        Level::Normal => "normal",
        Level::Gammon => "gammon",
        Level::Backgammon => "backgammon",
    }
}
