//! What a game came to.
use crate::checks::check_text;
use crate::records::record_of;
use bg_board::Player;
use bg_match::Standing;
use bg_table::result_text;
use std::alloc::Global;
use std::process::Abort;

/// A player is told this.
fn check_result(
    rt: &impl Abort,
    alloc: Global,
    standings: &(Standing, Standing),
    player: Player,
    wanted: &str,
) {
    let text = result_text(alloc, &standings.0, &standings.1, player);
    check_text(rt, wanted, text, wanted);
}

/// A transcript, the same with its next line, and what X and O are told of that.
fn check_results(rt: &impl Abort, alloc: Global, row: &[&str; 4]) {
    let [before, after, to_x, to_o] = *row;
    let standings = (
        record_of(rt, alloc, before).standing(),
        record_of(rt, alloc, after).standing(),
    );
    check_result(rt, alloc, &standings, Player::X, to_x);
    check_result(rt, alloc, &standings, Player::O, to_o);
}

static RESULTS: [[&str; 4]; 8] = [
    [
        "length 5\nopen 6 1\n",
        "length 5\nopen 6 1\nX move 13-7 8-7\n",
        "",
        "",
    ],
    [
        "length 5\nopen 6 1\nX move 13-7 8-7\nO double\n",
        "length 5\nopen 6 1\nX move 13-7 8-7\nO double\nX drop\n",
        "O wins 1 point: 1 to 0\n",
        "you win 1 point: 1 to 0\n",
    ],
    [
        "length 5\nopen 6 1\nX resign normal\nO accept\nopen 1 6\nO resign gammon\n",
        "length 5\nopen 6 1\nX resign normal\nO accept\nopen 1 6\nO resign gammon\nX accept\n",
        "you win 2 points: 2 to 1\n",
        "X wins 2 points: 2 to 1\n",
    ],
    [
        "length 2\nopen 6 1\nX resign backgammon\n",
        "length 2\nopen 6 1\nX resign backgammon\nO accept\n",
        "O wins a backgammon, 3 points, and the match, 3-0\n",
        "you win a backgammon, 3 points, and the match, 3-0\n",
    ],
    [
        "length 1\nopen 6 1\nX resign gammon\n",
        "length 1\nopen 6 1\nX resign gammon\nO accept\n",
        "O wins a gammon, 2 points, and the match, 2-0\n",
        "you win a gammon, 2 points, and the match, 2-0\n",
    ],
    // With the cube at two a normal win counts as much as a gammon without it.
    [
        "length 3\nopen 6 1\nX resign normal\nO accept\nopen 1 6\nO resign normal\nX accept\n\
        open 6 1\nX move 13-7 8-7\nO double\nX take\nO resign normal\n",
        "length 3\nopen 6 1\nX resign normal\nO accept\nopen 1 6\nO resign normal\nX accept\n\
        open 6 1\nX move 13-7 8-7\nO double\nX take\nO resign normal\nX accept\n",
        "you win the match, 3-1\n",
        "X wins the match, 3-1\n",
    ],
    [
        "length 3\nopen 6 1\nX move 13-7 8-7\nO double\nX take\nO resign gammon\n",
        "length 3\nopen 6 1\nX move 13-7 8-7\nO double\nX take\nO resign gammon\nX accept\n",
        "you win a gammon, 4 points, and the match, 4-0\n",
        "X wins a gammon, 4 points, and the match, 4-0\n",
    ],
    // Of two games the points alone say nothing of the last one.
    [
        "length 2\nopen 6 1\nX resign normal\n",
        "length 2\nopen 6 1\nX resign normal\nO accept\nopen 6 1\nX resign normal\nO accept\n",
        "O wins the match, 2-0\n",
        "you win the match, 2-0\n",
    ],
];

#[test]
fn results_of_games(rt: HostRuntime) {
    for row in &RESULTS {
        check_results(&rt, rt.alloc(), row);
    }
}
