//! Boards that are read of Position IDs.
use crate::checks::{check_row, is_printed};
use crate::words::{board, parted, player};
use bg_board::Player;
use bg_ids::PositionId;
use std::process::Abort;

/// Boards, each with the player on roll and the Position ID that GNU Backgammon has then.
const BOARDS: &str = "\
start, X, 4HPwATDgc/ABMA
start, O, 4HPwATDgc/ABMA
mid, X, yHPkASSw18EBAw
mid, O, sNfBAQPIc+QBJA
bar, X, 4OvBATDQc/ABUA
bar, O, 0HPwAVDg68EBMA
two bars, X, sM/gAVCY5+ABYA
two bars, O, mOfgAWCwz+ABUA
home, X, 290GAIDa3QEAAA
home, O, tbsDAMB2twEAAA
few, X, EwAAUAAAAAAAAA
few, O, BQAAmAAAAAAAAA
closed, X, uPcBAHDbtjkAAA
closed, O, 27Y5AAC49wEAcA
stacks, X, /38AAADg/w8AAA
stacks, O, 4P8PAAD/fwAAAA
prime, X, 3N0DADBs2wYHAA
prime, O, bNsGBwDc3QMAMA
gammon, X, 4B/wARgDAAAAAA
behind, O, 4B/wARgDAAAAAA
behind, X, AwAAAP+AD8AAAA
last, X, 4P8BAEwDAAAAAA
caught, O, 4P8BAEwDAAAAAA
borne off, O, AAAAHgwAAAAAAA
gone, O, AAAADgAAAAAAAA
lost, X, AAAAwP8PACAAAA
barred, X, AAAA/38AAAD/fw
all off, O, AAAAAAAAAAAAAA";

/// Whether a row holds: a board, the player on roll, and the ID, which is made of the board and
/// read as it.
fn is_board_of(rt: &impl Abort, row: &str) -> bool {
    let (name, rest) = parted(rt, row, ", ");
    let (on_roll, id) = parted(rt, rest, ", ");
    let on_roll = player(rt, on_roll);
    let board = board(rt, name);
    PositionId::of_board(&board, on_roll).as_str() == id
        && PositionId::board_of(id.as_bytes(), on_roll) == Ok(board)
}

#[test]
fn boards_of_ids(rt: HostRuntime) {
    for row in BOARDS.lines() {
        check_row(&rt, row, is_board_of(&rt, row));
    }
}

/// Texts that are no Position ID, and why. Of those that are not ten bytes one is shorter, one
/// longer, and one padded. Others have another character, or bits behind the ten bytes. Of the
/// others one has sixteen checkers, two have a point that both players hold, one has bits behind
/// both sides, and one has no zeros.
const REFUSED: &str = "\
4HPwATDgc/ABM -> not ten bytes in base64
4HPwATDgc/ABMAA -> not ten bytes in base64
4HPwATDgc/ABMA== -> not ten bytes in base64
4HPwATDgc-ABMA -> not ten bytes in base64
4HPwATDgc/ABMB -> not ten bytes in base64
//8AAAAAAAAAAA -> no board has this ID
AACABAAAAAAAAA -> no board has this ID
YAAAAAAgAAAAAA -> no board has this ID
AQAABAAAEAAAAA -> no board has this ID
/////////////w -> no board has this ID";

/// Whether a row holds: a text, and why it is no Position ID, whoever is on roll.
fn is_refused(rt: &(impl AllocGlobal + Abort), row: &str) -> bool {
    let (text, words) = parted(rt, row, " -> ");
    let x = PositionId::board_of(text.as_bytes(), Player::X);
    let o = PositionId::board_of(text.as_bytes(), Player::O);
    let fault = x.err().expect(rt, "a fault");
    o.err() == Some(fault) && is_printed(rt.alloc(), &fault, words)
}

#[test]
fn refused_ids(rt: HostRuntime) {
    let empty = " -> not ten bytes in base64";
    check_row(&rt, empty, is_refused(&rt, empty));
    for row in REFUSED.lines() {
        check_row(&rt, row, is_refused(&rt, row));
    }
}
