//! The places of things in a picture, in its units.
ghost use Rattle.std.specs.Prelude.{◌≡◌, ◌≤◌};
ghost use Rattle.bg_picture.specs.Places.{column as column_of, is_above as above_of};
ghost use Rattle.bg_picture.specs.Places.{number_line as line_of_number, stack_top as top_of};
ghost use Rattle.bg_picture.specs.Places.{count_line as line_of_count, half as half_of, cube_height as height_of};

use bg_board::Player;

/// The x of a player's points, from 0 (off) to 25 (the bar).
const COLUMNS: [u16; 26] = [
    580, 540, 500, 460, 420, 380, 340, 260, 220, 180, 140, 100, 60, //
    60, 100, 140, 180, 220, 260, 340, 380, 420, 460, 500, 540, 300,
];

/// Returns the x of a player's point.
pub(crate) fn column(point: u8) -> u16
    requires { point ≤ 25 }
    ensures { result ≡ column_of point }
{
    COLUMNS[usize::from(point)]
}

/// Returns whether a player's point is in the upper half.
pub(crate) fn is_above(player: Player, point: u8) -> bool
    ensures { result ≡ above_of player point }
{
    let far = 13 <= point && point <= 24;
    match player {
        Player::X => far,
        Player::O => !far,
    }
}

/// Returns the base line of a point's number.
pub(crate) fn number_line(above: bool) -> u16
    ensures { result ≡ line_of_number above }
{
    if above { 58 } else { 516 }
}

/// Returns the top of a stack.
pub(crate) fn stack_top(above: bool, count: u8) -> u16
    ensures { result ≡ top_of above count }
{
    if above {
        65
    } else {
        495 - 38 * u16::from(count.min(5))
    }
}

/// Returns the base line of the count on a stack.
pub(crate) fn count_line(above: bool) -> u16
    ensures { result ≡ line_of_count above }
{
    if above { 243 } else { 331 }
}

/// Returns the middle of the half that holds a player's dice, and what the player is offered.
pub(crate) fn half(player: Player) -> u16
    ensures { result ≡ half_of player }
{
    match player {
        Player::X => 440,
        Player::O => 160,
    }
}

/// Returns the middle of the cube beside the board.
pub(crate) fn cube_height(owner: Option<Player>) -> u16
    ensures { result ≡ height_of owner }
{
    match owner {
        None => 280,
        Some(Player::X) => 476,
        Some(Player::O) => 84,
    }
}
