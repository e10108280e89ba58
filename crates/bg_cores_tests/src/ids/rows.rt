//! Standings, each with its Position ID, its Match ID, and its XGID or why it has none. Both IDs
//! are as GNU Backgammon prints them, and it reads each XGID as this standing.
use crate::checks::{check_row, is_printed};
use crate::matches::lines::standing;
use crate::words::parted;
use bg_ids::{MatchId, PositionId, Xgid};
use bg_match::{Rules, Standing};
use std::alloc::Global;
use std::process::Abort;

/// The XGID of a standing is printed so, or why it has none.
fn has_xgid(alloc: Global, standing: &Standing, text: &str) -> bool {
    match Xgid::of(standing) {
        Ok(id) => id.as_str() == text && is_printed(alloc, &id, text),
        Err(fault) => is_printed(alloc, &fault, text),
    }
}

fn has_match_id(alloc: Global, standing: &Standing, text: &str) -> bool {
    let id = MatchId::of(standing);
    id.as_str() == text && is_printed(alloc, &id, text)
}

fn has_position_id(alloc: Global, standing: &Standing, text: &str) -> bool {
    let id = PositionId::of(standing);
    id.as_str() == text && is_printed(alloc, &id, text)
}

/// Whether a row holds: the parts of a standing, its Position ID, its Match ID, and the XGID.
fn tells(rt: &(impl AllocGlobal + Abort), row: &str) -> bool {
    let (parts, ids) = parted(rt, row, "; ");
    let (position_id, ids) = parted(rt, ids, " ");
    let (match_id, xgid) = parted(rt, ids, " ");
    let standing = standing(rt, Rules::One, parts).expect(rt, "a standing");
    has_position_id(rt.alloc(), &standing, position_id)
        && has_match_id(rt.alloc(), &standing, match_id)
        && has_xgid(rt.alloc(), &standing, xgid)
}

/// The rows hold.
fn check_rows(rt: &(impl AllocGlobal + Abort), rows: &str) {
    for row in rows.lines() {
        check_row(rt, row, tells(rt, row));
    }
}

/// Starts of games, before and after the first roll. The greater die comes first, whichever was
/// named first. In a match of one point the Crawford game is not told.
const STARTS: &str = "\
7, start, X acts, 1, 0-0, plain, 1; 4HPwATDgc/ABMA cAngAAAAAAAE XGID=-b----E-C---eE---c-e----B-:0:0:1:00:0:0:0:7:7
7, start, O acts, 1, 0-0, plain, 1; 4HPwATDgc/ABMA MAHgAAAAAAAE XGID=-b----E-C---eE---c-e----B-:0:0:-1:00:0:0:0:7:7
7, start, X moves 3 1, 1, 0-0, plain, 1; 4HPwATDgc/ABMA cInlAAAAAAAE XGID=-b----E-C---eE---c-e----B-:0:0:1:31:0:0:0:7:7
7, start, O moves 3 1, 1, 0-0, plain, 1; 4HPwATDgc/ABMA MIHlAAAAAAAE XGID=-b----E-C---eE---c-e----B-:0:0:-1:31:0:0:0:7:7
7, start, X moves 1 3, 1, 0-0, plain, 1; 4HPwATDgc/ABMA cInlAAAAAAAE XGID=-b----E-C---eE---c-e----B-:0:0:1:31:0:0:0:7:7
1, start, X moves 6 1, 1, 0-0, crawford, 1; 4HPwATDgc/ABMA cAknAAAAAAAE XGID=-b----E-C---eE---c-e----B-:0:0:1:61:0:0:0:1:7
1, start, O acts, 1, 0-0, crawford, 1; 4HPwATDgc/ABMA MAEgAAAAAAAE XGID=-b----E-C---eE---c-e----B-:0:0:-1:00:0:0:0:1:7";

#[test]
fn starts(rt: HostRuntime) {
    check_rows(&rt, STARTS);
}

/// Cubes of X, of O and in the middle, up to the greatest one, and doubles that are answered.
const CUBES: &str = "\
5, mid, X acts, 2 X, 2-3, plain, 1; yHPkASSw18EBAw UQmgADAAEAAE XGID=-a-a-BDAC---dCa--c-dBa----:1:1:1:00:2:3:0:5:7
5, mid, O acts, 2 O, 2-3, plain, 1; sNfBAQPIc+QBJA AQGgADAAEAAE XGID=-a-a-BDAC---dCa--c-dBa----:1:-1:-1:00:2:3:0:5:7
5, mid, O acts, 2 X, 4-1, plain, 1; sNfBAQPIc+QBJA EQGgABAAIAAE XGID=-a-a-BDAC---dCa--c-dBa----:1:1:-1:00:4:1:0:5:7
5, mid, X moves 6 6, 2 O, 0-1, plain, 1; yHPkASSw18EBAw QQm7ABAAAAAE XGID=-a-a-BDAC---dCa--c-dBa----:1:-1:1:66:0:1:0:5:7
5, mid, O moves 2 2, 4 O, 1-0, plain, 1; sNfBAQPIc+QBJA AgGpAAAACAAE XGID=-a-a-BDAC---dCa--c-dBa----:2:-1:-1:22:1:0:0:5:7
7, mid, O is doubled, 1, 0-0, plain, 1; yHPkASSw18EBAw cBHgAAAAAAAE XGID=-a-a-BDAC---dCa--c-dBa----:0:0:1:D:0:0:0:7:7
7, mid, X is doubled, 1, 0-0, plain, 1; sNfBAQPIc+QBJA MBngAAAAAAAE XGID=-a-a-BDAC---dCa--c-dBa----:0:0:-1:D:0:0:0:7:7
9, mid, X is doubled, 2 O, 3-5, plain, 1; sNfBAQPIc+QBJA ARkgAVAAGAAE XGID=-a-a-BDAC---dCa--c-dBa----:1:-1:-1:D:3:5:0:9:7
9, mid, O is doubled, 4 X, 3-0, plain, 1; yHPkASSw18EBAw UhEgAQAAGAAE XGID=-a-a-BDAC---dCa--c-dBa----:2:1:1:D:3:0:0:9:7
25, closed, X acts, 32 X, 23-12, plain, 1; uPcBAHDbtjkAAA VQkgA8AAuAAE XGID=cBBBBBB-C----------edc----:5:1:1:00:23:12:0:25:7
25, closed, X moves 5 5, 64 O, 12-23, plain, 1; uPcBAHDbtjkAAA Rok2A3ABYAAE XGID=cBBBBBB-C----------edc----:6:-1:1:55:12:23:0:25:7
99, closed, O acts, 128 O, 98-97, plain, 1; 27Y5AAC49wEAcA BwFgDBAGEAME XGID=cBBBBBB-C----------edc----:7:-1:-1:00:98:97:0:99:7
99, stacks, X moves 5 4, 128 X, 0-98, plain, 1; /38AAADg/w8AAA V4lyDCAGAAAE XGID=------O-----------------o-:7:1:1:54:0:98:0:99:7
99, stacks, X is doubled, 64 O, 64-33, plain, 1; 4P8PAAD/fwAAAA BhlgDBACAAIE XGID=------O-----------------o-:6:-1:-1:D:64:33:0:99:7";

#[test]
fn cubes(rt: HostRuntime) {
    check_rows(&rt, CUBES);
}

/// Checkers on the bar of one player, and of both.
const BARS: &str = "\
7, bar, X acts, 1, 0-0, plain, 1; 4OvBATDQc/ABUA cAngAAAAAAAE XGID=-b---AD-C---cE---dae----AA:0:0:1:00:0:0:0:7:7
7, two bars, O moves 6 5, 1, 0-0, plain, 1; mOfgAWCwz+ABUA MAH3AAAAAAAE XGID=aa--B-D-C---dD---b-eb----B:0:0:-1:65:0:0:0:7:7
7, two bars, X moves 6 4, 1, 0-0, plain, 1; sM/gAVCY5+ABYA cAnzAAAAAAAE XGID=aa--B-D-C---dD---b-eb----B:0:0:1:64:0:0:0:7:7";

#[test]
fn bars(rt: HostRuntime) {
    check_rows(&rt, BARS);
}

/// Crawford games, and games after one.
const CRAWFORD_GAMES: &str = "\
7, bar, X moves 4 2, 1, 3-6, plain, 1; 4OvBATDQc/ABUA cAnqAGAAGAAE XGID=-b---AD-C---cE---dae----AA:0:0:1:42:3:6:0:7:7
7, bar, O moves 5 2, 1, 6-3, plain, 1; 0HPwAVDg68EBMA MIHqADAAMAAE XGID=-b---AD-C---cE---dae----AA:0:0:-1:52:6:3:0:7:7
7, start, X acts, 1, 6-2, crawford, 1; 4HPwATDgc/ABMA 8AngACAAMAAE XGID=-b----E-C---eE---c-e----B-:0:0:1:00:6:2:1:7:7
7, mid, O moves 4 3, 1, 6-2, crawford, 1; sNfBAQPIc+QBJA sAHuACAAMAAE XGID=-a-a-BDAC---dCa--c-dBa----:0:0:-1:43:6:2:1:7:7
7, mid, X moves 4 3, 1, 1-6, crawford, 1; yHPkASSw18EBAw 8AnuAGAACAAE XGID=-a-a-BDAC---dCa--c-dBa----:0:0:1:43:1:6:1:7:7
7, mid, O acts, 1, 6-2, plain, 1; sNfBAQPIc+QBJA MAHgACAAMAAE XGID=-a-a-BDAC---dCa--c-dBa----:0:0:-1:00:6:2:0:7:7
7, prime, X is doubled, 1, 6-3, plain, 1; bNsGBwDc3QMAMA MBngADAAMAAE XGID=-b-BBBBBB----C-----dccc---:0:0:-1:D:6:3:0:7:7
7, prime, X acts, 2 X, 6-5, plain, 1; 3N0DADBs2wYHAA UQngAFAAMAAE XGID=-b-BBBBBB----C-----dccc---:1:1:1:00:6:5:0:7:7";

#[test]
fn crawford_games(rt: HostRuntime) {
    check_rows(&rt, CRAWFORD_GAMES);
}

/// Checkers that are off.
const BEARING_OFF: &str = "\
11, home, X acts, 2 O, 10-4, plain, 1; 290GAIDa3QEAAA QQlgAUAAUAAE XGID=-AABCCC------------bbccbb-:1:-1:1:00:10:4:0:11:7
11, home, O acts, 8 X, 1-10, plain, 1; tbsDAMB2twEAAA EwFgAaAACAAE XGID=-AABCCC------------bbccbb-:3:1:-1:00:1:10:0:11:7
11, few, X moves 2 1, 1, 10-9, plain, 1; EwAAUAAAAAAAAA cAllAZAAUAAE XGID=-AA-------------------a-b-:0:0:1:21:10:9:0:11:7
11, few, O moves 6 4, 16 O, 5-7, plain, 1; BQAAmAAAAAAAAA BAFzAXAAKAAE XGID=-AA-------------------a-b-:4:-1:-1:64:5:7:0:11:7
2, gammon, X moves 1 1, 1, 0-0, plain, 1; 4B/wARgDAAAAAA cIlEAAAAAAAE XGID=-Bb---------e------h------:0:0:1:11:0:0:0:2:7
2, gammon, X acts, 1, 1-1, plain, 1; 4B/wARgDAAAAAA cAlAABAACAAE XGID=-Bb---------e------h------:0:0:1:00:1:1:0:2:7
6, last, X moves 6 2, 2 X, 4-4, plain, 1; 4P8BAEwDAAAAAA UQnLAEAAIAAE XGID=aBb----------------l------:1:1:1:62:4:4:0:6:7
6, caught, O acts, 2 O, 3-5, plain, 1; 4P8BAEwDAAAAAA AQHAAFAAGAAE XGID=------L----------------BbA:1:-1:-1:00:3:5:0:6:7";

#[test]
fn bearing_off(rt: HostRuntime) {
    check_rows(&rt, BEARING_OFF);
}

/// Offers to resign, before and after a roll, which no XGID tells.
const OFFERS: &str = "\
7, prime, X resigned normal, 1, 0-0, plain, 1; 3N0DADBs2wYHAA cCHgAAAAAAAE an offer to resign is not told
7, prime, O resigned gammon, 2 X, 3-4, plain, 1; bNsGBwDc3QMAMA EUngAEAAGAAE an offer to resign is not told
7, prime, O resigned backgammon 6 6, 1, 0-0, plain, 1; bNsGBwDc3QMAMA MGn7AAAAAAAE an offer to resign is not told
7, closed, O resigned gammon 6 5, 4 O, 0-5, plain, 1; 27Y5AAC49wEAcA Akn3AFAAAAAE an offer to resign is not told
3, bar, X resigned normal 5 3, 1, 2-0, crawford, 1; 4OvBATDQc/ABUA 8KFuAAAAEAAE an offer to resign is not told
15, behind, X resigned gammon 4 1, 2 X, 14-14, plain, 1; AwAAAP+AD8AAAA UUHmAeAAcAAE an offer to resign is not told";

#[test]
fn offers_to_resign(rt: HostRuntime) {
    check_rows(&rt, OFFERS);
}

/// Games that are to be opened, which no XGID tells.
const OPENINGS: &str = "\
7, start, opening, 1, 0-0, plain, 1; 4HPwATDgc/ABMA cAjgAAAAAAAE no game is open
1, start, opening, 1, 0-0, crawford, 1; 4HPwATDgc/ABMA cAggAAAAAAAE no game is open
7, start, opening, 1, 6-2, crawford, 1; 4HPwATDgc/ABMA 8AjgACAAMAAE no game is open
7, start, opening, 1, 6-4, plain, 1; 4HPwATDgc/ABMA cAjgAEAAMAAE no game is open
99, start, opening, 1, 0-98, crawford, 1; 4HPwATDgc/ABMA 8AhgDCAGAAAE no game is open";

#[test]
fn openings(rt: HostRuntime) {
    check_rows(&rt, OPENINGS);
}

/// Matches that are over: the player who lost is told as the one on roll.
const ENDS: &str = "\
1, borne off, X won, 1, 1-0, crawford, 1; AAAAHgwAAAAAAA MAIgAAAACAAE the match is over
3, gone, X won, 2 X, 4-1, plain, 1; AAAADgAAAAAAAA EQJgABAAIAAE the match is over
3, lost, O won, 2 O, 2-7, plain, 1; AAAAwP8PACAAAA QQpgAHAAEAAE the match is over";

#[test]
fn ends_of_matches(rt: HostRuntime) {
    check_rows(&rt, ENDS);
}
