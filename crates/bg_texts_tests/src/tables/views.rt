//! What a player sees.
use crate::checks::{check_row, check_text};
use crate::records::record_of;
use bg_board::Player;
use bg_table::{Drawing, seat_view_text};
use std::alloc::Global;
use std::process::Abort;

/// O has won the opening.
const OPENED: &str = "length 3\nopen 1 3\n";

const OPENED_OF_O: &str = "length 3, game 1
score: O (you) 0 of 3, X 0 of 3
  13  14  15  16  17  18  |  19  20  21  22  23  24
  O5   .   .   .  X3   .  |  X5   .   .   .   .  O2
  X5   .   .   .  O3   .  |  O5   .   .   .   .  X2
  12  11  10   9   8   7  |   6   5   4   3   2   1
bar: O 0, X 0; off: O 0, X 0
pips: O (you) 167, X 167
cube: 1 in the middle
O to move 1 3
";

/// X needs one point more, and so the second game is the Crawford game.
const CRAWFORD: &str = "length 2\nopen 1 3\nO resign normal\nX accept\nopen 6 1\nX move 13-7 8-7\n";

const CRAWFORD_OF_O: &str = "length 2, game 2, Crawford game
score: O (you) 0 of 2, X 1 of 2
  13  14  15  16  17  18  |  19  20  21  22  23  24
  O5   .   .   .  X2  X2  |  X5   .   .   .   .  O2
  X4   .   .   .  O3   .  |  O5   .   .   .   .  X2
  12  11  10   9   8   7  |   6   5   4   3   2   1
bar: O 0, X 0; off: O 0, X 0
pips: O (you) 167, X 160
cube: 1 in the middle
last: X move 13-7 8-7 (as X counts)
O to roll
";

/// X owns the cube.
const TAKEN: &str = "length 5\nopen 3 1\nX move 8-5 6-5\nO double\nX take\nO roll 6 4\n";

const TAKEN_OF_X: &str = "length 5, game 1
score: X (you) 0 of 5, O 0 of 5
  13  14  15  16  17  18  |  19  20  21  22  23  24
  X5   .   .   .  O3   .  |  O5   .   .   .   .  X2
  O5   .   .   .  X2   .  |  X4  X2   .   .   .  O2
  12  11  10   9   8   7  |   6   5   4   3   2   1
bar: X 0, O 0; off: X 0, O 0
pips: X (you) 163, O 167
cube: 2 of X (you)
last: O roll 6 4
O to move 6 4
";

const TAKEN_OF_O: &str = "length 5, game 1
score: O (you) 0 of 5, X 0 of 5
  13  14  15  16  17  18  |  19  20  21  22  23  24
  O5   .   .   .  X2   .  |  X4  X2   .   .   .  O2
  X5   .   .   .  O3   .  |  O5   .   .   .   .  X2
  12  11  10   9   8   7  |   6   5   4   3   2   1
bar: O 0, X 0; off: O 0, X 0
pips: O (you) 167, X 163
cube: 2 of X
last: X take
O to move 6 4
";

/// X doubles from two to four.
const DOUBLED: &str = "length 5\nopen 3 1\nX move 8-5 6-5\nO double\nX take\nO roll 6 4\n\
    O move 24-18 13-9\nX double\n";

const DOUBLED_OF_O: &str = "length 5, game 1
score: O (you) 0 of 5, X 0 of 5
  13  14  15  16  17  18  |  19  20  21  22  23  24
  O4   .   .   .  X2  O1  |  X4  X2   .   .   .  O1
  X5   .   .  O1  O3   .  |  O5   .   .   .   .  X2
  12  11  10   9   8   7  |   6   5   4   3   2   1
bar: O 0, X 0; off: O 0, X 0
pips: O (you) 157, X 163
cube: 2 of X, doubled to 4
last: X double
O to answer the double
";

/// X offers to resign.
const RESIGNED: &str = "length 3 rules 2\nopen 2 5\nO move 24-22 13-8\nX resign gammon\n";

const RESIGNED_OF_O: &str = "length 3 rules 2, game 1
score: O (you) 0 of 3, X 0 of 3
  13  14  15  16  17  18  |  19  20  21  22  23  24
  O4   .   .   .  X3   .  |  X5   .   .  O1   .  O1
  X5   .   .   .  O4   .  |  O5   .   .   .   .  X2
  12  11  10   9   8   7  |   6   5   4   3   2   1
bar: O 0, X 0; off: O 0, X 0
pips: O (you) 160, X 167
cube: 1 in the middle
last: X resign gammon
X resigns gammon
";

/// X bears in, and in one turn brings the last checker home, hits and bears two off.
const HIT: &str = "length 3\nopen 6 5\nX move 24-18 18-13\n\
    O roll 2 1\nO move 13-11 11-10\nX roll 6 5\nX move 24-18 18-13\n\
    O roll 2 1\nO move 13-11 11-10\nX roll 4 4\nX move 13-9 13-9 9-5 9-5\n\
    O roll 2 1\nO move 13-11 11-10\nX roll 4 4\nX move 13-9 13-9 9-5 9-5\n\
    O roll 2 1\nO move 13-11 11-10\nX roll 4 4\nX move 13-9 13-9 9-5 9-5\n\
    O roll 2 1\nO move 13-11 11-10\nX roll 5 5\nX move 13-8 8-3 8-3 8-3\n\
    O roll 6 1\nO move 24-18 8-7\nX roll 5 5\nX move 8-3 6-1 5-off 5-off\n";

const HIT_OF_X: &str = "length 3, game 1
score: X (you) 0 of 3, O 0 of 3
  13  14  15  16  17  18  |  19  20  21  22  23  24
   .   .  O5   .  O2  O1  |  O5   .   .   .   .   .
   .   .   .   .   .  O1  |  X4  X4   .  X4   .  X1
  12  11  10   9   8   7  |   6   5   4   3   2   1
bar: X 0, O 1; off: X 2, O 0
pips: X (you) 57, O 146
cube: 1 in the middle
last: O move 24-18 8-7 (as O counts)
O to roll
";

const HIT_OF_O: &str = "length 3, game 1
score: O (you) 0 of 3, X 0 of 3
  13  14  15  16  17  18  |  19  20  21  22  23  24
   .   .   .   .   .  O1  |  X4  X4   .  X4   .  X1
   .   .  O5   .  O2  O1  |  O5   .   .   .   .   .
  12  11  10   9   8   7  |   6   5   4   3   2   1
bar: O 1, X 0; off: O 0, X 2
pips: O (you) 146, X 57
cube: 1 in the middle
last: X move 8-3 6-1* 5-off 5-off (as X counts)
O to roll
";

/// O wins a match with the cube at two.
const WON: &str =
    "length 2\nopen 1 3\nO move 8-5 6-5\nX double\nO take\nX resign normal\nO accept\n";

const WON_OF_X: &str = "length 2, game 1
score: X (you) 0, O 2
  13  14  15  16  17  18  |  19  20  21  22  23  24
  X5   .   .   .  O2   .  |  O4  O2   .   .   .  X2
  O5   .   .   .  X3   .  |  X5   .   .   .   .  O2
  12  11  10   9   8   7  |   6   5   4   3   2   1
bar: X 0, O 0; off: X 0, O 0
pips: X (you) 167, O 163
cube: 2 of O
last: O accept
O wins the match
";

const WON_OF_O: &str = "length 2, game 1
score: O (you) 2, X 0
  13  14  15  16  17  18  |  19  20  21  22  23  24
  O5   .   .   .  X3   .  |  X5   .   .   .   .  O2
  X5   .   .   .  O2   .  |  O4  O2   .   .   .  X2
  12  11  10   9   8   7  |   6   5   4   3   2   1
bar: O 0, X 0; off: O 0, X 0
pips: O (you) 163, X 167
cube: 2 of O (you)
last: X resign normal
O wins the match
";

/// A match to one point has no cube, and no Crawford game. X hits, and goes on with the same checker.
const TO_ONE: &str = "length 1\nopen 3 1\nX move 8-5 6-5\nO roll 6 2\nO move 13-7 13-11\n\
    X roll 6 5\nX move 24-18 18-13\n";

const TO_ONE_OF_O: &str = "length 1, game 1
score: O (you) 0 of 1, X 0 of 1
  13  14  15  16  17  18  |  19  20  21  22  23  24
  O3   .   .   .  X2   .  |  X4  X2   .   .   .  O2
  X6  O1   .   .  O3   .  |  O5   .   .   .   .  X1
  12  11  10   9   8   7  |   6   5   4   3   2   1
bar: O 1, X 0; off: O 0, X 0
pips: O (you) 177, X 152
last: X move 24-18* 18-13 (as X counts)
O to roll
";

/// What X did in the game before is not told in the next one, neither before it opens.
const DROPPED: &str = "length 3\nopen 1 3\nO move 8-5 6-5\nX double\nO drop\n";

const DROPPED_OF_O: &str = "length 3, game 2
score: O (you) 0 of 3, X 1 of 3
  13  14  15  16  17  18  |  19  20  21  22  23  24
  O5   .   .   .  X3   .  |  X5   .   .   .   .  O2
  X5   .   .   .  O3   .  |  O5   .   .   .   .  X2
  12  11  10   9   8   7  |   6   5   4   3   2   1
bar: O 0, X 0; off: O 0, X 0
pips: O (you) 167, X 167
cube: 1 in the middle
opening
";

const OPENED_AGAIN: &str = "length 3\nopen 1 3\nO move 8-5 6-5\nX double\nO drop\nopen 1 3\n";

const OPENED_AGAIN_OF_O: &str = "length 3, game 2
score: O (you) 0 of 3, X 1 of 3
  13  14  15  16  17  18  |  19  20  21  22  23  24
  O5   .   .   .  X3   .  |  X5   .   .   .   .  O2
  X5   .   .   .  O3   .  |  O5   .   .   .   .  X2
  12  11  10   9   8   7  |   6   5   4   3   2   1
bar: O 0, X 0; off: O 0, X 0
pips: O (you) 167, X 167
cube: 1 in the middle
O to move 1 3
";

/// X has a checker on the bar, and no step by his sixes. By the first rules he moves no checker, and
/// by the second the turn is passed.
const SHUT_OUT: &str = "open 2 1\nX move 13-11 6-5\nO roll 4 3\nO move 24-20 13-10\nX roll 6 6\n";

/// The first line, what follows, and the last lines that O then sees.
static SHUT_OUT_OF_O: [[&str; 3]; 7] = [
    ["length 3", "", "last: X roll 6 6\nX to move 6 6\n"],
    [
        "length 3",
        "X move\n",
        "last: X rolled 6 6 and could not move\nO to roll\n",
    ],
    [
        "length 3",
        "X resign normal\nO reject\nX move\nO roll 4 2\n",
        "last: X rolled 6 6 and could not move\nO to move 4 2\n",
    ],
    [
        "length 3",
        "X move\nO double\nX take\n",
        "last: X take\nO to roll\n",
    ],
    ["length 3 rules 2", "", "last: X roll 6 6\nX to pass 6 6\n"],
    [
        "length 3 rules 2",
        "pass\n",
        "last: X rolled 6 6 and could not move\nO to roll\n",
    ],
    [
        "length 3 rules 2",
        "pass\nO double\nX take\n",
        "last: X take\nO to roll\n",
    ],
];

/// A player sees this at the end of a transcript.
pub(crate) fn check_view(
    rt: &impl Abort,
    alloc: Global,
    transcript: &str,
    player: Player,
    drawing: Drawing,
    wanted: &str,
) {
    let record = record_of(rt, alloc, transcript);
    let view = seat_view_text(alloc, &record, player, drawing);
    check_text(rt, wanted, view, wanted);
}

/// A transcript, a player, and all that he sees at its end.
static VIEWS: [(&str, Player, &str); 13] = [
    (OPENED, Player::O, OPENED_OF_O),
    (CRAWFORD, Player::O, CRAWFORD_OF_O),
    (TAKEN, Player::X, TAKEN_OF_X),
    (TAKEN, Player::O, TAKEN_OF_O),
    (DOUBLED, Player::O, DOUBLED_OF_O),
    (RESIGNED, Player::O, RESIGNED_OF_O),
    (HIT, Player::X, HIT_OF_X),
    (HIT, Player::O, HIT_OF_O),
    (WON, Player::X, WON_OF_X),
    (WON, Player::O, WON_OF_O),
    (TO_ONE, Player::O, TO_ONE_OF_O),
    (DROPPED, Player::O, DROPPED_OF_O),
    (OPENED_AGAIN, Player::O, OPENED_AGAIN_OF_O),
];

#[test]
fn words_of_views(rt: HostRuntime) {
    for &(transcript, player, wanted) in &VIEWS {
        check_view(&rt, rt.alloc(), transcript, player, Drawing::Rows, wanted);
    }
}

/// O sees the lines of a row last, where others follow behind the turn in which X is shut out.
fn check_end(rt: &impl Abort, alloc: Global, row: &[&str; 3]) {
    let [length, more, wanted] = *row;
    let transcript = format!(in alloc; "{length}\n{SHUT_OUT}{more}").expect(rt, "memory");
    let record = record_of(rt, alloc, transcript.as_str());
    let view = seat_view_text(alloc, &record, Player::O, Drawing::Rows).expect(rt, "memory");
    check_row(rt, transcript.as_str(), view.ends_with(wanted.as_bytes()));
}

#[test]
fn last_lines_of_a_player_who_could_not_move(rt: HostRuntime) {
    for row in &SHUT_OUT_OF_O {
        check_end(&rt, rt.alloc(), row);
    }
}
