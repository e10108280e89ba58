//! Match files that are refused.
use super::records::{ONE_POINT, THREE_POINTS, behind};
use crate::checks::{check_printed, check_words};
use bg_mat::{ImportFault, MatFault, import_mat};
use bg_match::{EntryFault, Rules};
use bg_text::MAX_INPUT;
use std::alloc::{AllocError, Global};
use std::process::Abort;

/// The line at which a text is refused, and why, or why else; "good" where it is not refused.
fn told_of(alloc: Global, text: &[u8]) -> Result<String, AllocError> {
    match import_mat(alloc, 1, Rules::One, text) {
        Ok(_) => format!(in alloc; "good"),
        Err(ImportFault::Refused { line, why }) => format!(in alloc; "{line} {why:?}"),
        Err(other) => format!(in alloc; "{other:?}"),
    }
}

/// Rows behind these lines are refused at a line, for a reason.
fn check_rows(rt: &impl Abort, alloc: Global, head: &str, rows: &[(&str, &str)]) {
    for (row, wanted) in rows {
        let text = behind(rt, alloc, head, row);
        check_words(rt, row, told_of(alloc, text.as_bytes()), wanted);
    }
}

static FAULTS_OF_HEADINGS: [(&str, &str); 12] = [
    ("", "1 NoLength"),
    ("; a comment\n\n", "3 NoLength"),
    (" Game 1\n", "1 NoLength"),
    (" 5 point march\n", "1 NoLength"),
    (";\n 0 point match\n", "2 Money"),
    (" 100 point match\n", "1 LengthOutOfRange"),
    (" 10000 point match\n", "1 NoLength"),
    (" 1 point match\n 1 point match\n", "2 NotALine"),
    (" 1 point match\n Game 2\n", "2 WrongGame"),
    (" 1 point match\n Game 1\n A : 1 B : 0\n", "3 WrongScores"),
    (" 1 point match\n Game 1\n\n Game 1\n", "4 WrongScores"),
    (
        " 1 point match\n Game 1\n A:0 B:0\n Game 1\n",
        "4 WrongGame",
    ),
];

static FAULTS_OF_CELLS: [(&str, &str); 16] = [
    ("  1) hello\n", "5 NotALine"),
    ("  1) 71: 8/5 6/5\n", "5 NotALine"),
    ("  1) 31: 8/5 6/5 5/8\n", "5 NotALine"),
    ("  1) 31: 8/5 6/5  42: 8/4 6/4  31: 8/5 6/5\n", "5 NotALine"),
    ("  1) 31: 8/5 6/5  Beavers => 4\n", "5 Beaver"),
    ("  1) 31: 24/23 23/22 22/21 21/20 20/19\n", "5 TooManySteps"),
    ("  1) 31: 8/5(4) 6/5\n", "5 TooManySteps"),
    ("  1) 31: 8/5 6/4\n", "5 NoSuchTurn"),
    ("  1) 31: 8/5\n", "5 NoSuchTurn"),
    ("31: 8/5 6/5 63: 13/7 13/10\n64: 24/14*\n", "6 WrongHits"),
    ("  1) 33: 8/5(2) 6/3(2)\n", "5 Entry(EqualOpening)"),
    ("  1) 31: 8/5 6/5\n  2) 42: 8/4 6/4\n", "6 OutOfTurn"),
    ("  1) 31: 8/5 6/5  Drops\n", "5 OutOfTurn"),
    ("  1) Takes\n", "5 OutOfTurn"),
    ("  1) 31: 8/5 6/5\n  2) Doubles => 2\n", "6 OutOfTurn"),
    (
        "  1) 31: 8/5 6/5  Doubles => 2\n",
        "5 Entry(NoDouble(Crawford))",
    ),
];

static FAULTS_OF_GAMES: [(&str, &str); 31] = [
    ("31: 8/5 6/5  Doubles => 4\n", "5 WrongCube"),
    ("31: 8/5 6/5\n Game 2\n", "6 GameGoesOn"),
    (
        "31: 8/5 6/5  Doubles => 2\nDrops\n31: 8/5 6/5\n",
        "7 GameOver",
    ),
    ("31: 8/5 6/5\n      Wins 4 points\n", "6 WrongPoints"),
    (
        "31: 8/5 6/5\n                  Wins 1 point\n",
        "6 ResignsOutOfTurn",
    ),
    (
        "31: 8/5 6/5\n      Wins 1 point and the match\n",
        "6 MatchGoesOn",
    ),
    (
        "31: 8/5 6/5  Doubles => 2\nDrops\n                 Wins 2 points\n",
        "7 WrongPoints",
    ),
    (
        "31: 8/5 6/5\n      Wins 1 point\n31: 8/5 6/5\n",
        "7 NotALine",
    ),
    (
        "31: 8/5 6/5\n      Wins 3 points\n Game 2\n",
        "7 Entry(MatchOver)",
    ),
    // Of several faults the first one is named: of a line its shape comes first, from left to
    // right, and then what it tells.
    ("31: 8/5 6/5\n Game 5\n", "6 WrongGame"),
    ("31: 8/5 6/5\n Game 1\n", "6 WrongGame"),
    ("\n Game 2\n", "6 GameGoesOn"),
    ("31: 8/5 6/5\n      Wins 3 points\n Game 3\n", "7 WrongGame"),
    (
        "31: 24/23 23/22 22/21 21/20 20/19 hello\n",
        "5 TooManySteps",
    ),
    (
        "31: 8/5 6/5 hello 24/23 23/22 22/21 21/20 20/19\n",
        "5 NotALine",
    ),
    ("31: 24/23/22/21/20/19 hello\n", "5 TooManySteps"),
    ("31: 24/23/22/21/20/19/hello\n", "5 NotALine"),
    ("31: 8/5 6/5  Beavers hello\n", "5 Beaver"),
    ("31: 8/5 6/5\n31: 8/5 6/5  hello\n", "6 NotALine"),
    (
        "31: 8/5 6/5\n31: 8/5 6/5  42: 24/23 23/22 22/21 21/20 20/19\n",
        "6 TooManySteps",
    ),
    ("31: 8/5  31: 8/5*\n", "5 NoSuchTurn"),
    ("31: 8/4 6/5  Takes\n", "5 NoSuchTurn"),
    ("31: 8/5 6/5  Drops\n      Wins 9 points\n", "5 OutOfTurn"),
    (
        "31: 8/5 6/5\n                  Wins 9 points\n",
        "6 ResignsOutOfTurn",
    ),
    (
        "31: 8/5 6/5\n      Wins 9 points and the match\n",
        "6 WrongPoints",
    ),
    // Dice alone are refused at once where the player may not bring them; that a step can be played
    // shows behind them.
    ("33:\nhello\n", "5 Entry(EqualOpening)"),
    ("31: 8/5 6/5\n42:\nhello\n", "6 OutOfTurn"),
    ("31: 8/5 6/5  42:\nhello\n", "6 NotALine"),
    ("31: 8/5 6/5  42:\n31: 8/5 6/5\n", "5 NoSuchTurn"),
    (
        "31: 8/5 6/5  42:\n                Wins 1 point\n",
        "5 NoSuchTurn",
    ),
    ("31: 8/5 6/5  42:\n Game 2\n", "5 NoSuchTurn"),
];

fn check_faults_of_lines(rt: &(impl AllocGlobal + Abort)) {
    check_rows(rt, rt.alloc(), "", &FAULTS_OF_HEADINGS);
    check_rows(rt, rt.alloc(), ONE_POINT, &FAULTS_OF_CELLS);
    check_rows(rt, rt.alloc(), THREE_POINTS, &FAULTS_OF_GAMES);
}

#[test]
fn faults_of_lines(rt: HostRuntime) {
    check_faults_of_lines(&rt);
}

/// A comment of so many bytes is refused so.
fn check_long(rt: &impl Abort, alloc: Global, count: usize, wanted: &str) {
    let text = vec![in alloc; b';'; count].expect(rt, "memory");
    check_words(rt, wanted, told_of(alloc, &text), wanted);
}

/// The longest input is read, and one byte more is refused.
#[test]
fn longest_input(rt: HostRuntime) {
    check_long(&rt, rt.alloc(), MAX_INPUT, "2 NoLength");
    check_long(&rt, rt.alloc(), MAX_INPUT + 1, "TooLong");
}

static WORDS: [(MatFault, &str); 3] = [
    (MatFault::Money, "refused at line 3: a money game"),
    (
        MatFault::WrongHits,
        "refused at line 3: no legal turn has this movement with these hits",
    ),
    (
        MatFault::Entry(EntryFault::MatchOver),
        "refused at line 3: match over",
    ),
];

#[test]
fn words_of_faults(rt: HostRuntime) {
    for &(why, words) in &WORDS {
        let fault = ImportFault::Refused { line: 3, why };
        check_printed(&rt, rt.alloc(), &fault, words);
    }
    let words = "refused: input too long";
    check_printed(&rt, rt.alloc(), &ImportFault::TooLong, words);
}
