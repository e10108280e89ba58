//! The results of games in pages.
use super::games::{BACKGAMMON, GAMMON, SINGLE_GAME};
use super::pages::{behind_parts, check_parts, page_of, titled};
use crate::checks::{check_row, text_of};
use bg_picture::Numbering;
use std::alloc::Global;
use std::process::Abort;

/// X wins three points, one, and then loses four; between these resignations one is refused, and
/// double and take.
const RESIGNATIONS: &str = "length 7\nopen 3 1\nX move 8-5 6-5\nO resign backgammon\nX accept\n\
    open 2 6\nO resign gammon\nX reject\nO resign normal\nX accept\n\
    open 5 1\nX move 13-8 6-5\nO double\nX take\nO roll 6 5\nO move 24-18 18-13\nX resign gammon\nO accept\n";

/// O drops a double to four.
const DROP: &str = "length 5\nopen 3 1\nX move 8-5 6-5\nO double\nX take\nO roll 6 5\n\
    O move 24-18 18-13\nX double\nO drop\n";

/// The page of a transcript without a title.
fn page(rt: &impl Abort, alloc: Global, transcript: &str) -> Vec<u8> {
    page_of(rt, alloc, transcript, titled(""), Numbering::Mover, 0)
}

/// The page of a transcript has these results, those of the games from the first on. Each is told
/// by two parts of the page: where its game starts, and where it ends.
fn check_results(rt: &impl Abort, alloc: Global, transcript: &str, results: &str) {
    let page = page(rt, alloc, transcript);
    let rest = behind_parts(rt, text_of(&page), results);
    check_row(rt, "one result more", !rest.contains("<li id='result"));
}

/// The match of some games, behind its first line.
fn match_of(rt: &impl Abort, alloc: Global, first: &str, games: &str, last: &str) -> String {
    format!(in alloc; "{first}\n{games}{last}").expect(rt, "memory")
}

const OF_A_SINGLE_GAME: &str = "\
    <li id='start1' \
    [..]<a href='#result1'>result<span>: X wins a single game, 1 point; X 1, O 0</span></a>";

const OF_A_GAMMON: &str = "\
    <li id='start1' \
    [..]<a href='#result1'>result<span>: X wins a gammon, 2 points; X 2, O 0</span></a>\
    [..]<li id='start2' \
    [..]<a href='#result2'>result<span>: X wins a single game, 1 point; X 3, O 0; X wins the match</span></a>";

const OF_A_BACKGAMMON: &str = "\
    <li id='start1' \
    [..]<a href='#result1'>result<span>: X wins a backgammon, 3 points; X 3, O 0</span></a>\
    [..]<li id='start2' \
    [..]<a href='#result2'>result<span>: X wins a gammon, 2 points; X 5, O 0; X wins the match</span></a>";

/// The match of some games has these results.
fn check_games(
    rt: &impl Abort,
    alloc: Global,
    (first, games, last): (&str, &str, &str),
    results: &str,
) {
    let transcript = match_of(rt, alloc, first, games, last);
    check_results(rt, alloc, transcript.as_str(), results);
}

fn check_results_by_bearing_off(rt: &(impl AllocGlobal + Abort)) {
    let single = ("length 2", SINGLE_GAME, "");
    check_games(rt, rt.alloc(), single, OF_A_SINGLE_GAME);
    let gammon = ("length 3", GAMMON, SINGLE_GAME);
    check_games(rt, rt.alloc(), gammon, OF_A_GAMMON);
    let backgammon = ("length 5 rules 2", BACKGAMMON, GAMMON);
    check_games(rt, rt.alloc(), backgammon, OF_A_BACKGAMMON);
}

#[test]
fn results_by_bearing_off(rt: HostRuntime) {
    check_results_by_bearing_off(&rt);
}

const OF_A_DROP: &str = "\
    <li id='start1' \
    [..]<a href='#result1'>result<span>: X wins by a drop of the double, 2 points; X 2, O 0</span></a>";

const OF_RESIGNATIONS: &str = "\
    <li id='start1' \
    [..]<a href='#result1'>result<span>: X wins a backgammon by resignation, 3 points; X 3, O 0</span></a>\
    [..]<li id='start2' \
    [..]<a href='#result2'>result<span>: X wins a single game by resignation, 1 point; X 4, O 0</span></a>\
    [..]<li id='start3' \
    [..]<a href='#result3'>result<span>: O wins a gammon by resignation, 4 points; X 4, O 4</span></a>";

#[test]
fn results_by_drops_and_resignations(rt: HostRuntime) {
    check_results(&rt, rt.alloc(), DROP, OF_A_DROP);
    check_results(&rt, rt.alloc(), RESIGNATIONS, OF_RESIGNATIONS);
}

static UNFINISHED: [&str; 3] = [
    "length 7\n",
    "length 7\nopen 3 1\nX move 8-5 6-5\nO double\n",
    "length 7\nopen 3 1\nX move 8-5 6-5\nO resign gammon\nX reject\n",
];

#[test]
fn no_result_while_a_game_is_played(rt: HostRuntime) {
    for transcript in &UNFINISHED {
        check_results(&rt, rt.alloc(), transcript, "");
    }
}

/// Two parts say that all of X's checkers are off.
const AFTER_A_GAMMON: &str = "\
    <li id='p37' data-at='\
    [..]<a href='#p37'>X roll 3 3</a></li>\n<li id='p38' \
    [..]data-at='paaaaaaaaaaaaaaaaaaaaaaaaa\
    aabbabdbcabbacaaabbaaaaaaa 1 - - 2 0' data-next='X wins a gammon'>\
    [..]<a href='#p38'>X move 1-off 1-off 1-off 1-off</a></li>\n<li id='result1' \
    [..]data-at='paaaaaaaaaaaaaaaaaaaaaaaaa\
    aabbabdbcabbacaaabbaaaaaaa 1 - - 2 0' data-next='X wins a gammon'>\
    [..]<a href='#result1'>result<span>: X wins a gammon, 2 points; X 2, O 0</span></a></li>\n</ol>\n\
    <h2>game 2<span>; X 2, O 0</span></h2>\n<ol start='38' data-game='length 5, game 2'>\n<li id='start2' \
    [..] 1 - - 2 0' data-next='opening'><a href='#start2'>start of game 2</a></li>\n</ol>\n</div>\n\
    [..]<title>opening</title>\
    [..]<p>length 5, game 2; X 2, O 0; cube 1 in the middle; opening</p>\n</div>\n<script>\n\
    [..]</script>\n</body>\n</html>\n";

/// The page of a match of one game has each of these parts, and no more behind the last.
fn check_game(rt: &impl Abort, alloc: Global, first: &str, game: &str, parts: &str) {
    let transcript = match_of(rt, alloc, first, game, "");
    check_parts(rt, &page(rt, alloc, transcript.as_str()), parts);
}

#[test]
fn end_of_a_game(rt: HostRuntime) {
    check_game(&rt, rt.alloc(), "length 5", GAMMON, AFTER_A_GAMMON);
}

const AFTER_THE_MATCH: &str = "\
    <li id='p38' data-at='paaaaaaaaaaaaaaaaaaaaaaaaa\
    kdcaaaaaaaaaaaaaaaaaaaaaaa 1 - - 1 0' data-next='X wins a single game'>\
    [..]<a href='#p38'>X move 2-off 1-off 1-off</a></li>\n<li id='result1' \
    [..] 1 - - 1 0' data-next='X wins a single game'><a href='#result1'>result<span>: \
    X wins a single game, 1 point; X 1, O 0; X wins the match</span></a></li>\n</ol>\n</div>\n\
    [..]<title>X wins the match</title><desc>length 1, game 1, Crawford; X 1, O 0; cube 1 in the middle; \
    X: 0 on the bar, 15 off; O: 0 on the bar, 10 off, 2 on 23, 3 on 24; points as X counts</desc>\
    [..]<p>length 1, game 1, Crawford; X 1, O 0; cube 1 in the middle; X wins the match</p>\n</div>\n<script>\n\
    [..]</script>\n</body>\n</html>\n";

#[test]
fn end_of_a_match(rt: HostRuntime) {
    check_game(&rt, rt.alloc(), "length 1", SINGLE_GAME, AFTER_THE_MATCH);
}
