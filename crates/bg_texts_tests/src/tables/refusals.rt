//! Why an action is refused. The turns are worked out by hand.
use crate::boards::board;
use crate::checks::check_text;
use crate::records::record_of;
use bg_board::{Die, Player};
use bg_match::{Action, EntryFault, Standing, entry_of};
use bg_table::{refusal_text, turn_refusal_text, waiting_text};
use bg_text::parse_action;
use bg_turns::{Dice, Turn, judge_turn};
use std::alloc::{AllocError, Global};
use std::process::Abort;

/// The dice with which a roll is tried.
const THROW: Dice = Dice {
    first: Die::Six,
    second: Die::One,
};

/// Why an action is refused, if it is.
fn fault_of(standing: &Standing, action: &Action) -> Option<EntryFault> {
    let entry = entry_of(action.copy(), Some(THROW))?;
    standing.next(&entry).err()
}

/// Transcripts, what the player who acts then chooses, why he can't, and what he may do. What forbids
/// a double in the whole game comes before the dice. While a double is answered, that comes first.
const REFUSALS: &str = "\
length 5
open 6 1
> roll
the dice are rolled: move them
your turn, X: move .. (`legal` lists the turns), resign normal, resign gammon, resign backgammon
--
length 5
open 6 1
> double
you can double only before you roll
your turn, X: move .. (`legal` lists the turns), resign normal, resign gammon, resign backgammon
--
length 5
open 6 1
> take
nobody has doubled
your turn, X: move .. (`legal` lists the turns), resign normal, resign gammon, resign backgammon
--
length 5
open 6 1
> reject
nobody has offered to resign
your turn, X: move .. (`legal` lists the turns), resign normal, resign gammon, resign backgammon
--
length 5
open 6 1
> move 12-6
12-6 can't be played: point 12 has checkers of O, none of yours
your turn, X: move .. (`legal` lists the turns), resign normal, resign gammon, resign backgammon
--
length 5
open 6 1
X move 13-7 8-7
> move 24-18
roll the dice first
your turn, O: roll, double, resign normal, resign gammon, resign backgammon
--
length 5
open 6 1
X move 13-7 8-7
> drop
nobody has doubled
your turn, O: roll, double, resign normal, resign gammon, resign backgammon
--
length 5
open 6 1
X move 13-7 8-7
O double
> roll
answer the double first
your turn, X: take, drop
--
length 5
open 6 1
X move 13-7 8-7
O double
X take
> double
the cube is X's, so you can't double
your turn, O: roll, resign normal, resign gammon, resign backgammon
--
length 5
open 6 1
X resign gammon
> roll
answer the offer to resign first
your turn, O: accept, reject
--
length 1
open 6 1
X move 13-7 8-7
> double
a match to one point is played without the cube
your turn, O: roll, resign normal, resign gammon, resign backgammon
--
length 1
open 6 1
> double
a match to one point is played without the cube
your turn, X: move .. (`legal` lists the turns), resign normal, resign gammon, resign backgammon
--
length 2
open 6 1
X resign normal
O accept
open 6 1
X move 13-7 8-7
> double
nobody can double in the Crawford game
your turn, O: roll, resign normal, resign gammon, resign backgammon
--
length 2
open 6 1
X resign normal
O accept
open 6 1
> double
nobody can double in the Crawford game
your turn, X: move .. (`legal` lists the turns), resign normal, resign gammon, resign backgammon
--
length 2
open 6 1
X resign normal
O accept
open 6 1
X resign normal
> double
nobody can double in the Crawford game
your turn, O: accept, reject
--
length 5
open 6 1
X move 13-7 8-7
O double
X take
O roll 6 1
> double
the cube is X's, so you can't double
your turn, O: move .. (`legal` lists the turns), resign normal, resign gammon, resign backgammon
--
length 5
open 6 1
X move 13-7 8-7
O double
X take
O roll 6 1
O move 13-7 8-7
X roll 2 1
> double
you can double only before you roll
your turn, X: move .. (`legal` lists the turns), resign normal, resign gammon, resign backgammon
--
length 5
open 6 1
X move 13-7 8-7
O double
X take
O roll 6 1
O move 13-7 8-7
X double
> double
answer the double first
your turn, O: take, drop
";

/// Why the action of a line is refused behind a transcript.
fn refusal_of_action(
    rt: &impl Abort,
    alloc: Global,
    transcript: &str,
    line: &str,
) -> Result<Vec<u8>, AllocError> {
    let standing = record_of(rt, alloc, transcript).standing();
    let player = standing.actor().seat().expect(rt, "a seat that acts");
    let action = parse_action(line.as_bytes()).expect(rt, line);
    let fault = fault_of(&standing, &action).expect(rt, "a refusal");
    refusal_text(alloc, &standing, player, &action, fault)
}

/// The action of a section is refused as it says.
fn check_refusal(rt: &impl Abort, alloc: Global, section: &str) {
    let (transcript, rest) = section.split_once("> ").expect(rt, section);
    let (line, wanted) = rest.split_once('\n').expect(rt, section);
    check_text(
        rt,
        line,
        refusal_of_action(rt, alloc, transcript, line),
        wanted,
    );
}

fn check_refusals_of_actions(rt: &(impl AllocGlobal + Abort)) {
    for section in REFUSALS.split("--\n") {
        check_refusal(rt, rt.alloc(), section);
    }
    let wanted = "your choice for entry 12 is kept, and waits for the referee\n";
    check_text(rt, wanted, waiting_text(rt.alloc(), 12), wanted);
}

#[test]
fn refusals_of_actions(rt: HostRuntime) {
    check_refusals_of_actions(&rt);
}

/// The turn of a line.
fn turn(line: &str) -> Option<Turn> {
    match parse_action(line.as_bytes()) {
        Ok(Action::Move(turn)) => Some(turn),
        _ => None,
    }
}

/// Two dice, the checkers of X and of O, the turn that X tries, and why it is refused.
const TURNS: &str = "\
6 1|24:2 13:5 8:3 6:5|24:2 13:5 8:3 6:5|move 12-6|12-6 can't be played: point 12 has checkers of O, none of yours
6 1|24:2 13:5 8:3 6:5|24:2 13:5 8:2 6:5 4:1|move 21-15|21-15 can't be played: point 21 has a checker of O, none of yours
6 1|24:2 13:5 8:3 6:5|24:2 13:5 8:3 6:5|move 9-3|9-3 can't be played: you have no checker on point 9
6 1|24:2 13:5 8:3 6:5|24:2 13:5 8:3 6:5|move 24-19|24-19 can't be played: the dice are 6 and 1
6 1|24:2 13:5 8:3 6:5|24:2 13:5 8:3 6:5|move 13-12|13-12 can't be played: point 12 is held by O
6 1|24:2 13:5 8:3 6:5|24:2 13:5 8:3 6:5|move bar-19|bar-19 can't be played: you have no checker on the bar
6 1|24:2 13:5 8:3 6:5|24:2 13:5 8:3 6:5|move 13-7 13-7|13-7 can't be played: no die is left for it
6 1|24:2 13:5 8:3 6:5|24:2 13:5 8:3 6:5|move 6-off|6-off can't be played: not all your checkers are home
6 1|24:2 13:5 8:3 6:5|24:2 13:5 8:3 6:5|move 13-7|you must play both dice: 24-23 24-18 can be played
6 1|24:2 13:5 8:3 6:5|24:2 13:5 8:3 6:5|move|you must play both dice: 24-23 24-18 can be played
6 1|25:1 13:5 8:4 6:5|24:2 13:5 8:3 6:5|move 13-7|13-7 can't be played: enter your checker from the bar first
6 1|5:1 2:1|1:15|move 2-off|2-off can't be played: a checker on a higher point must be moved first
6 1|14:1|17:2 18:2 1:11|move|you must play a die: 14-13 can be played
# A die that was played is left for no other step, and a checker that was moved is no longer
# there.
6 4|24:2 13:5 8:3 6:5|24:2 13:6 8:2 6:5|move 24-18 18-12|18-12 can't be played: no die is left for it
6 4|24:2 13:5 8:3 6:5|24:2 13:4 11:2 8:2 6:5|move 24-18 18-14|18-14 can't be played: point 14 is held by O
6 4|24:2 13:5 8:3 6:5|24:2 13:6 8:2 6:5|move 24-18 24-19|24-19 can't be played: the dice are 6 and 4
6 4|24:1 13:6 8:3 6:5|24:2 13:6 8:2 6:5|move 24-18 24-20|24-20 can't be played: you have no further checker on point 24
6 4|25:1 13:6 8:3 6:5|24:2 13:6 8:2 6:5|move bar-21 bar-19|bar-19 can't be played: you have no further checker on the bar
6 4|5:3 3:2|1:15|move 5-off 3-off|3-off can't be played: a checker on a higher point must be moved first
6 4|6:3 5:3|1:15|move 6-2 6-off 5-off|5-off can't be played: no die is left for it
6 2|5:2 3:2|1:15|move 5-off 3-off|3-off can't be played: no die is left for it
3 3|13:7 8:1 6:5|1:15|move 8-5 8-5|8-5 can't be played: you have no further checker on point 8
3 1|5:1 2:1|1:15|move 5-off|5-off can't be played: the dice are 3 and 1
6 5|14:1|22:2 1:13|move 14-9|you must play the larger die, 6: 14-8 can be played
2 2|14:1|17:2 1:13|move 14-12|you must play 2 of the 4 steps: 14-12 12-10 can be played
# The checker of O on his 3 point was hit, and so no longer stands there, which is 22 to X.
2 2|24:1 13:6 8:3 6:5|24:2 13:6 8:2 6:4 3:1|move 24-22 22-20 22-20|22-20 can't be played: you have no checker on point 22
";

/// A cell of a row, by its place from 0 on.
fn cell<'a>(rt: &impl Abort, row: &'a str, place: usize) -> &'a str {
    row.split('|').nth(place).expect(rt, row)
}

/// The die that a word is.
fn die(rt: &impl Abort, word: &str) -> Die {
    Die::new(word.parse().expect(rt, word)).expect(rt, word)
}

/// Two dice, as "6 1".
fn dice(rt: &impl Abort, words: &str) -> Dice {
    let (first, second) = words.split_once(' ').expect(rt, words);
    Dice {
        first: die(rt, first),
        second: die(rt, second),
    }
}

/// Why the turn of a row is refused.
fn refusal_of_turn(rt: &impl Abort, alloc: Global, row: &str) -> Result<Vec<u8>, AllocError> {
    let dice = dice(rt, cell(rt, row, 0));
    let board = board(rt, cell(rt, row, 1), cell(rt, row, 2));
    let turn = turn(cell(rt, row, 3)).expect(rt, row);
    let fault = judge_turn(&board, Player::X, dice, &turn).err();
    turn_refusal_text(alloc, &board, Player::X, dice, &turn, fault.expect(rt, row))
}

/// Each turn is refused as its row says.
fn check_turns(rt: &impl Abort, alloc: Global) {
    for row in TURNS.split_inclusive('\n') {
        if !row.starts_with('#') {
            check_text(rt, row, refusal_of_turn(rt, alloc, row), cell(rt, row, 4));
        }
    }
}

#[test]
fn refusals_of_turns(rt: HostRuntime) {
    check_turns(&rt, rt.alloc());
}
