//! The board as it is drawn on screens of each width.
use super::views::check_view;
use crate::checks::check_number;
use bg_board::Player;
use bg_table::Drawing;

/// O has six checkers on his 13 point, which is the 12 point of X.
const SIX: &str = "length 3\nopen 5 6\nO move 24-18 18-13\n";

const SIX_IN_STACKS: &str = "length 3, game 1
score: X (you) 0 of 3, O 0 of 3
  13  14  15  16  17  18  |  19  20  21  22  23  24
   X   .   .   .   O   .  |   O   .   .   .   .   X
   X               O      |   O                   X
   X               O      |   O                   \x20
   X                      |   O                   \x20
   X                      |   O                   \x20
                          |
   6                      |   X                   \x20
   O                      |   X                   \x20
   O               X      |   X                   \x20
   O               X      |   X                   \x20
   O   .   .   .   X   .  |   X   .   .   .   .   O
  12  11  10   9   8   7  |   6   5   4   3   2   1
bar: X 0, O 0; off: X 0, O 0
pips: X (you) 167, O 156
cube: 1 in the middle
last: O move 24-18 18-13 (as O counts)
X to roll
";

const SIX_AS_POINTS: &str = "length 3, game 1
score: O (you) 0 of 3, X 0 of 3
24 O1
19 X5
17 X3
13 O6
12 X5
8 O3
6 O5
1 X2
bar: O 0, X 0
off: O 0, X 0
pips: O (you) 156, X 167
cube: 1 in the middle
X to roll
";

/// The columns of a screen, a player, and what he sees there.
static VIEWS: [(usize, Player, &str); 4] = [
    (80, Player::X, SIX_IN_STACKS),
    (400, Player::X, SIX_IN_STACKS),
    (49, Player::O, SIX_AS_POINTS),
    (20, Player::O, SIX_AS_POINTS),
];

/// The columns of a screen, and how the board is drawn there.
static DRAWINGS: [(usize, Drawing); 4] = [
    (49, Drawing::Points),
    (50, Drawing::Rows),
    (79, Drawing::Rows),
    (80, Drawing::Stacks),
];

#[test]
fn boards_of_screens(rt: HostRuntime) {
    for &(columns, player, wanted) in &VIEWS {
        check_view(
            &rt,
            rt.alloc(),
            SIX,
            player,
            Drawing::fitting(columns),
            wanted,
        );
    }
    for &(columns, drawing) in &DRAWINGS {
        let fits = Drawing::fitting(columns) == drawing;
        check_number(&rt, "columns", columns, fits);
    }
}
