//! Spellings of other programs: each is read as its plain form is, or refused with a reason.
use super::records::{THREE_POINTS, is_same};
use crate::checks::{check_printed, check_row};
use bg_mat::{ImportFault, Imported, import_mat};
use bg_match::{Record, Rules};
use std::alloc::{AllocError, Global};
use std::process::Abort;

/// A spelling, and behind a bar its plain form or its refusal. A tilde stands for a line feed. Rows
/// of a first game stand behind the lines before it; what begins with an at sign is a whole file.
const SPELLINGS: &str = "\
@\u{FEFF} 3 point match~Game 1~X : 0 O : 0~31: 8/5 6/5 | 31: 8/5 6/5
@ 3 Point MATCH~gAME 1~X : 0 O : 0~31: 8/5 6/5 | 31: 8/5 6/5
@ 3 POINTS match~Game 1:~X : 0 O : 0~31: 8/5 6/5 | 31: 8/5 6/5
@; [Crawford \"Off\"]~ 1 point match~Game 1~X:0 O:0~31: 8/5 6/5 | @ 1 point match~Game 1~X:0 O:0~31: 8/5 6/5
@# x~[Site \"y\"]~; [Crawford \"On\"]~ 3 point match~Game 1~X : 0 O : 0~31: 8/5 6/5 | 31: 8/5 6/5
@\t3\tpoint match~Game\t1~X : 0\t\tO : 0~1)\t31: 8/5\t6/5\t42: 8/4 6/4 | 31: 8/5 6/5 42: 8/4 6/4
31: 8/5 6/5 doubles => 2~TAKES 42: 8/4 6/4 | 31: 8/5 6/5 Doubles => 2~Takes 42: 8/4 6/4
31: 8/5 6/5 Double => 2~Take 42: 8/4 6/4 | 31: 8/5 6/5 Doubles => 2~Takes 42: 8/4 6/4
31: 8/5 6/5 Doubles=>2~Drop | 31: 8/5 6/5 Doubles => 2~Drops
31: 8/5 6/5 Doubles =>2~drops | 31: 8/5 6/5 Doubles => 2~Drops
31: 8/5 6/5 Double~Drops | 31: 8/5 6/5 Doubles => 2~Drops
31: 8/5 6/5 Doubles=>4 | refused at line 5: not twice the cube
31: 8/5 6/5 Doubles=2 | refused at line 5: not a line of a match file
31: 8/5 6/5~ WINS 2 Points | 31: 8/5 6/5~ Wins 2 points
31: 8/5 6/5~ win 3 point AND the MATCH | 31: 8/5 6/5~ Wins 3 points and the match
31:8/5 6/5 42:8/4 6/4 | 31: 8/5 6/5 42: 8/4 6/4
1)31:8/5 6/5~2) 42: | refused at line 6: out of turn
1)31:8/5 6/5 | 31: 8/5 6/5
31: 8/5 6/5~2)~ 3)  ~                 42: 8/4 6/4 | 31: 8/5 6/5 42: 8/4 6/4
31: 8/5 6/5~2) hello | refused at line 6: not a line of a match file
31: 8/5 6/5 62: 24/18 13/11~61: 13/7* 8/7 41: BAR/21 11/10 | 31: 8/5 6/5 62: 24/18 13/11~61: 13/7* 8/7 41: 25/21 11/10
31: 8/5 6/5 62: 24/18 13/11~61: 13/7* 8/7 66: Cannot Move~51: 13/8 6/5 | 31: 8/5 6/5 62: 24/18 13/11~61: 13/7* 8/7 66:~51: 13/8 6/5
31: 8/5 6/5 62: 24/18 13/11~61: 13/7* 8/7 66:cannot move | 31: 8/5 6/5 62: 24/18 13/11~61: 13/7* 8/7 66:
31: 8/5 6/5 42: Cannot Move | refused at line 5: no legal turn has this movement
31: 8/5 6/5 42: Cannot Go | refused at line 5: not a line of a match file
31: 8/5 6/5 42: Cannot | refused at line 5: not a line of a match file
31: 8/5 6/5 42: CannotMove | refused at line 5: not a line of a match file
31: 8/5 6/5 42: Cannot Move 8/4 | refused at line 5: not a line of a match file
31: 8/5 6/5 Cannot Move | refused at line 5: not a line of a match file
31: Cannot Move | refused at line 5: no legal turn has this movement
33: Cannot Move | refused at line 5: equal opening
31: 8/5 6/5~42: Cannot Move | refused at line 6: out of turn
31: 8/5 6/5 42: Cannot Move~Wins 1 point | refused at line 5: no legal turn has this movement
31: 8/5 6/5 Doubles => 2~Drops~42: Cannot Move | refused at line 7: the game is over
31: 8/5 6/5 Doubles => 2~Takes 42: 8/4 6/4~61: 13/7 8/7 Doubles => 4 | refused at line 7: no double: not owner
31: 8/5 6/5 Doubles => 2~Takes 21: 13/11 6/5~Doubles => 4 Takes~21: 13/11 6/5 Doubles => 8~Takes 21: 13/11 24/23~Doubles => 16 Takes~21: 13/11 24/23 Doubles => 32~Takes 21: 13/11 6/5~Doubles => 64 Takes~21: 13/11 6/5 Doubles => 128~Takes 21: 11/9 11/10~Doubles => 256 | refused at line 16: no double: at cap
31: 8/5 6/5 42: ???? | refused at line 5: a turn that is not known
31: ? | refused at line 5: a turn that is not known
31: 8/5 6/5 ???? | refused at line 5: not a line of a match file
31: 8/5 6/5 Beaver => 4 | refused at line 5: a beaver
31: 8/5 6/5 RACCOONS | refused at line 5: a beaver
31: 8/5 6/5~                 Wins 1 point | refused at line 6: the loser resigns out of turn
31: 8/5 6/5 42: 8/4 6/4~ Wins 1 point | refused at line 6: the loser resigns out of turn
@; [Crawford \"Off\"]~ 3 point match~Game 1~X:0 O:0~31: 8/5 6/5 | refused at line 1: a match without a Crawford game
@~;[crawford \"off\"] ~ 2 point match~hello | refused at line 2: a match without a Crawford game
@[Crawford \"OFF\"]~ 100 point match | refused at line 1: a match without a Crawford game
@; [Crawford \"Off\"]~ 0 point match | refused at line 2: a money game
@; [Crawford \"Off\"]~hello | refused at line 2: no length of the match
31: 8/5* 6/5 | 31: 8/5 6/5
31: 8/5 6/5 62: 24/18 13/11~61: 13/7 8/7 41: bar/21* 11/10 | 31: 8/5 6/5 62: 24/18 13/11~61: 13/7* 8/7 41: bar/21 11/10
61: 13/7 8/7 32: 24/21 13/11~44: 8/4(2) 6/2(2) | 61: 13/7 8/7 32: 24/21 13/11~44: 8/4*(2) 6/2(2)
31: 8/5 6/5 63: 13/7 13/10~64: 24/14 | 31: 8/5 6/5 63: 13/7 13/10~64: 24/20/14
31: 8/5 6/5 63: 13/7 13/10~64: 24/18*/14 | 31: 8/5 6/5 63: 13/7 13/10~64: 24/18* 18/14
31: 8/5 6/5 63: 13/7 13/10~64: 24/14* | refused at line 6: no legal turn has this movement with these hits
# x | refused at line 5: not a line of a match file
";

/// The bytes of a text, in which a tilde stands for a line feed.
fn bytes_of(alloc: Global, text: &str) -> Result<Vec<u8>, AllocError> {
    let mut bytes = Vec::new(alloc);
    if !text.starts_with('@') {
        bytes.extend_from_slice(THREE_POINTS.as_bytes())?;
    }
    for byte in text.as_bytes() {
        match *byte {
            b'@' => {}
            b'~' => bytes.push(b'\n')?,
            other => bytes.push(other)?,
        }
    }
    Ok(bytes)
}

/// What is read of a text, in which a tilde stands for a line feed.
fn read_text(alloc: Global, text: &str) -> Result<Imported, ImportFault> {
    match bytes_of(alloc, text) {
        Ok(bytes) => import_mat(alloc, 7, Rules::One, &bytes),
        Err(AllocError) => Err(ImportFault::Memory),
    }
}

/// A text is read as a record with the same entries.
fn check_entries(rt: &impl Abort, alloc: Global, plain: &str, read: &Record) {
    let expected = read_text(alloc, plain).expect(rt, plain);
    check_row(rt, plain, is_same(read, &expected.record));
}

/// A spelling is read as its plain form, or refused so.
fn check_spelling(rt: &impl Abort, alloc: Global, spelling: &str, plain: &str) {
    match read_text(alloc, spelling) {
        Ok(imported) => check_entries(rt, alloc, plain, &imported.record),
        Err(fault) => check_printed(rt, alloc, &fault, plain),
    }
}

fn check_spellings_of_other_programs(rt: &(impl AllocGlobal + Abort)) {
    for row in SPELLINGS.lines() {
        let (spelling, plain) = row.split_once(" | ").expect(rt, row);
        check_spelling(rt, rt.alloc(), spelling, plain);
    }
}

#[test]
fn spellings_of_other_programs(rt: HostRuntime) {
    check_spellings_of_other_programs(&rt);
}

static WHOLE: [&str; 3] = [
    "@ 3 point match",
    "31: 8/5 6/5~Wins 1 point",
    "31: 8/5 6/5~Wins 3 points~~",
];

static CUT: [&str; 7] = [
    "@ 3 point match~Game 1",
    "",
    "31: 8/5 6/5",
    "31: 8/5 6/5 42:",
    "31: 8/5 6/5 Doubles",
    "31: 8/5 6/5 Doubles~Drops",
    "31: 8/5 6/5~Wins 1 point~Game 2",
];

/// The files of texts end within a game, or none does.
fn check_ends(rt: &impl Abort, alloc: Global, texts: &[&str], within: bool) {
    for text in texts {
        let imported = read_text(alloc, text).expect(rt, text);
        check_row(rt, text, imported.within_game == within);
    }
}

#[test]
fn files_that_end_within_a_game(rt: HostRuntime) {
    check_ends(&rt, rt.alloc(), &WHOLE, false);
    check_ends(&rt, rt.alloc(), &CUT, true);
}
