//! The texts of entries.
ghost use Rattle.std.specs.Prelude.{◌≡◌, ◌+◌, ◌≤◌, ◌<◌, ◌∷◌, [], ◌++◌, map, codes};
ghost use Rattle.std.specs.Fmt.{decimal};
ghost use Rattle.arrayvec.specs.ArrayString.{array_string_len};
ghost use Rattle.bg_text.specs.Entries.Words.{spaced};
ghost use Rattle.bg_text.specs.Entries.EntryText.{entry_text, entry_words, dice_words, step_text, source_text};
ghost use Rattle.bg_text.specs.Entries.EntryText.{target_text};
ghost use Rattle.bg_text.specs.Entries.EntryText.{IsSeatOf, EntryTextsDiffer};

use crate::entries::names::level_word;
use arrayvec::ArrayString;
use bg_board::{Die, Player, Step};
use bg_match::Entry;
use bg_turns::Turn;
use itoa::Buffer;

/// Returns the line of an entry, without a line feed, with the seat that made it (docs/FORMATS.md,
/// "Entry lines"). An opening and a pass are the referee's and have no seat; every other entry has
/// one. The points of a move are in the numbering of that seat. The longest line has 34 bytes: a
/// move of four steps from the bar to points above 9.
pub fn entry_text(seat: Option<Player>, entry: &Entry) -> ArrayString<40>
    requires { IsSeatOf seat entry.now }
    ensures { result.bytes ≡ entry_text seat entry.now }
{
    let mut line = ArrayString::new();
    put_entry(&mut line, seat, entry);
    line
}

/// Puts the line of an entry into a text that is empty. There is room for a line feed behind it.
pub(crate) fn put_entry(line: &mut ArrayString<40>, seat: Option<Player>, entry: &Entry)
    requires empty { line.old.bytes ≡ [] }
    requires seat { IsSeatOf seat entry.now }
    ensures bytes { line.new.bytes ≡ entry_text seat entry.now }
    ensures room { array_string_len line.new ≤ 39 }
{
    match seat {
        Some(Player::X) => line.push_str("X "),
        Some(Player::O) => line.push_str("O "),
        None => {}
    }
    put_words(line, entry);
}

/// States that one line is the line of one entry: two entries with the same line are equal, and so
/// are their seats.
pub fn entry_texts_differ()
    ensures { EntryTextsDiffer }
{}

fn put_words(line: &mut ArrayString<40>, entry: &Entry)
    requires { array_string_len line.old ≤ 2 }
    ensures bytes { line.new.bytes ≡ line.old.bytes ++ spaced (entry_words entry.now) }
    ensures room { array_string_len line.new ≤ 39 }
{
    match entry {
        Entry::Opening(x, o) => {
            line.push_str("open ");
            put_dice(line, *x, *o);
        }
        Entry::Rolled(dice) => {
            line.push_str("roll ");
            put_dice(line, dice.first, dice.second);
        }
        Entry::Doubled => line.push_str("double"),
        Entry::Taken => line.push_str("take"),
        Entry::Dropped => line.push_str("drop"),
        Entry::Moved(turn) => put_turn(line, turn),
        Entry::Resigned(level) => {
            line.push_str("resign ");
            line.push_str(level_word(*level));
        }
        Entry::Accepted => line.push_str("accept"),
        Entry::Rejected => line.push_str("reject"),
        Entry::Passed => line.push_str("pass"),
    }
}

fn put_dice(line: &mut ArrayString<40>, first: Die, second: Die)
    requires { array_string_len line.old ≤ 7 }
    ensures bytes { line.new.bytes ≡ line.old.bytes ++ spaced (dice_words first second) }
    ensures fits { array_string_len line.new ≤ array_string_len line.old + 3 }
{
    put_digit(line, first.pips());
    line.push_str(" ");
    put_digit(line, second.pips());
}

fn put_turn(line: &mut ArrayString<40>, turn: &Turn)
    requires { array_string_len line.old ≤ 2 }
    ensures bytes { line.new.bytes ≡ line.old.bytes ++ spaced (codes "move" ∷ map step_text turn.now) }
    ensures room { array_string_len line.new ≤ 39 }
{
    line.push_str("move");
    let steps = turn.steps();
    for step in steps {
        put_step(line, *step);
    }
}

/// Appends a space and the text of a step.
fn put_step(line: &mut ArrayString<40>, step: Step)
    requires { array_string_len line.old ≤ 32 }
    ensures bytes { line.new.bytes ≡ line.old.bytes ++ 32 ∷ step_text step }
    ensures fits { array_string_len line.new ≤ array_string_len line.old + 8 }
{
    line.push_str(" ");
    put_source(line, step.from());
    line.push_str("-");
    put_target(line, step.to());
}

fn put_source(line: &mut ArrayString<40>, point: u8)
    requires { array_string_len line.old ≤ 37 }
    ensures bytes { line.new.bytes ≡ line.old.bytes ++ source_text point }
    ensures fits { array_string_len line.new ≤ array_string_len line.old + 3 }
{
    if point == 25 {
        line.push_str("bar");
    } else {
        put_number(line, point);
    }
}

fn put_target(line: &mut ArrayString<40>, point: u8)
    requires { array_string_len line.old ≤ 37 }
    ensures bytes { line.new.bytes ≡ line.old.bytes ++ target_text point }
    ensures fits { array_string_len line.new ≤ array_string_len line.old + 3 }
{
    if point == 0 {
        line.push_str("off");
    } else {
        put_number(line, point);
    }
}

/// Appends a number. The points of a turn have one digit, or two.
fn put_number(line: &mut ArrayString<40>, number: u8)
    requires { array_string_len line.old ≤ 37 }
    ensures bytes { line.new.bytes ≡ line.old.bytes ++ decimal number }
    ensures fits { array_string_len line.new ≤ array_string_len line.old + 3 }
{
    if number < 10 {
        put_digit(line, number);
    } else if number < 100 {
        put_digit(line, number / 10);
        put_digit(line, number % 10);
    } else {
        line.push_str(Buffer::new().format(number));
    }
}

/// Appends a digit.
fn put_digit(line: &mut ArrayString<40>, digit: u8)
    requires room { array_string_len line.old ≤ 39 }
    requires digit { digit < 10 }
    ensures bytes { line.new.bytes ≡ line.old.bytes ++ (48 + digit) ∷ [] }
    ensures fits { array_string_len line.new ≡ array_string_len line.old + 1 }
{
    line.push(char::from(b'0' + digit));
}
