//! The lines of entries and actions.
ghost use Rattle.std.specs.Prelude.{◌≡◌, ◌↔◌, ℕ, List, ◌∷◌, ◌++◌, Option, Ok, IfOk, IfErr, IsTrue, MatchOption, codes};
ghost use Rattle.bg_board.specs.declared.players.Player.{Player};
ghost use Rattle.bg_match.specs.Entry.{IsEntry, IsAction};
ghost use Rattle.bg_match.specs.declared.actions.Action.{Action};
ghost use Rattle.bg_match.specs.declared.entries.Entry.{Entry};
ghost use Rattle.bg_match.specs.declared.levels.Level.{Level};
ghost use Rattle.bg_text.specs.Entries.EntryText.{letter, entry_text, action_text, level_word, IsSeatOf};
ghost use Rattle.bg_text.specs.Entries.EntryShape.{IsEntryTextFault, IsActionTextFault};
ghost use Rattle.bg_text.specs.Entries.Lines.{IsFixed, IsReply, IsActionOf, IsEntryOf};

use crate::TextFault;
use crate::entries::pairs::{read_dice, read_turn};
use bg_board::Player;
use bg_match::{Action, Entry, Level};
use bg_turns::{Dice, Turn};

/// Returns what follows the start of a line.
fn rest_after<'a>(line: &'a [u8], start: &[u8]) -> Option<&'a [u8]>
    ensures { MatchOption result ((rest : List ℕ) → line.now ≡ start.now ++ rest → ⊥)
        (λ rest. line.now ≡ start.now ++ rest.now) }
{
    line.strip_prefix(start)
}

/// Returns the level that a word names.
fn read_level(word: &[u8]) -> Option<Level>
    ensures { MatchOption result ((level : Level) → word.now ≡ level_word level → ⊥)
        (λ level. word.now ≡ level_word level) }
{
    match word {
        b"normal" => Some(Level::Normal),
        b"gammon" => Some(Level::Gammon),
        b"backgammon" => Some(Level::Backgammon),
        _ => None,
    }
}

/// Returns the reply to an offer that a line gives.
fn read_reply(line: &[u8]) -> Option<Action>
    ensures { MatchOption result ((action : Action) → IsReply action → line.now ≡ action_text action → ⊥)
        (λ action. IsReply action × (line.now ≡ action_text action)) }
{
    match line {
        b"take" => Some(Action::Take),
        b"drop" => Some(Action::Drop),
        b"accept" => Some(Action::Accept),
        b"reject" => Some(Action::Reject),
        _ => None,
    }
}

/// Returns the action of a line without numbers.
fn read_fixed(line: &[u8]) -> Option<Action>
    ensures { MatchOption result ((action : Action) → IsFixed action → line.now ≡ action_text action → ⊥)
        (λ action. IsFixed action × (line.now ≡ action_text action)) }
{
    if let Some(word) = rest_after(line, b"resign ") {
        return read_level(word).map(Action::Resign);
    }
    match line {
        b"roll" => Some(Action::Roll),
        b"double" => Some(Action::Double),
        b"move" => Some(Action::Move(Turn::new())),
        _ => read_reply(line),
    }
}

/// Returns the action of a line, or the fault of the line.
fn read_action(line: &[u8]) -> Result<Action, TextFault>
    ensures { IsActionOf line.now result }
{
    if let Some(pairs) = rest_after(line, b"move ") {
        return Ok(Action::Move(read_turn(pairs)?));
    }
    match read_fixed(line) {
        Some(action) => Ok(action),
        None => Err(TextFault::NotALine),
    }
}

/// Returns the entry of the line behind this player's letter, with the player, or the fault of the
/// line. Each entry is built where it is returned, so that none is moved.
fn read_seat_entry(player: Player, line: &[u8]) -> Result<(Option<Player>, Entry), TextFault>
    ensures { IsEntryOf (letter player ++ 32 ∷ line.now) result }
{
    let seat = Some(player);
    if let Some(numbers) = rest_after(line, b"roll ") {
        let (first, second) = read_dice(numbers)?;
        return Ok((seat, Entry::Rolled(Dice { first, second })));
    }
    if let Some(pairs) = rest_after(line, b"move ") {
        return Ok((seat, Entry::Moved(read_turn(pairs)?)));
    }
    match read_fixed(line) {
        Some(Action::Double) => Ok((seat, Entry::Doubled)),
        Some(Action::Take) => Ok((seat, Entry::Taken)),
        Some(Action::Drop) => Ok((seat, Entry::Dropped)),
        // a move without pairs
        Some(Action::Move(_)) => Ok((seat, Entry::Moved(Turn::new()))),
        Some(Action::Resign(level)) => Ok((seat, Entry::Resigned(level))),
        Some(Action::Accept) => Ok((seat, Entry::Accepted)),
        Some(Action::Reject) => Ok((seat, Entry::Rejected)),
        // a roll without dice is an action, not an entry
        Some(Action::Roll) => Err(TextFault::NotALine),
        None => Err(TextFault::NotALine),
    }
}

/// Returns the player whose letter a line begins with, and what follows the letter and its space
/// (docs/FORMATS.md, "Entry lines"). Returns `None` where the line doesn't begin with a player's
/// letter and a space.
pub fn split_player(line: &[u8]) -> Option<(Player, &[u8])>
    ensures { MatchOption result
        ((player : Player) (rest : List ℕ) → line.now ≡ letter player ++ 32 ∷ rest → ⊥)
        (λ found. line.now ≡ letter found.0 ++ 32 ∷ found.1.now) }
{
    match line {
        [b'X', b' ', rest @ ..] => Some((Player::X, rest)),
        [b'O', b' ', rest @ ..] => Some((Player::O, rest)),
        _ => None,
    }
}

/// Returns whether a line passes a turn.
fn is_pass(line: &[u8]) -> bool
    ensures { IsTrue result ↔ (line.now ≡ codes "pass") }
{
    matches!(line, b"pass")
}

/// Returns the entry of a line and the seat that made it, or the fault of the line.
fn read_entry(line: &[u8]) -> Result<(Option<Player>, Entry), TextFault>
    ensures { IsEntryOf line.now result }
{
    if let Some(numbers) = rest_after(line, b"open ") {
        let (x, o) = read_dice(numbers)?;
        return Ok((None, Entry::Opening(x, o)));
    }
    if is_pass(line) {
        return Ok((None, Entry::Passed));
    }
    match split_player(line) {
        Some((player, rest)) => read_seat_entry(player, rest),
        None => Err(TextFault::NotALine),
    }
}

/// Reads the text of an action: an entry's line without the player's letter and its space, where
/// `roll` has no dice. `open` and `pass` are not actions (docs/FORMATS.md, "Actions").
///
/// It returns `Ok` exactly for the texts of actions. The points of a move are in the player's own
/// numbering, with 25 for the bar and 0 for off; each step leads down. The faults are those of
/// [`parse_entry`], in the same order. It allocates nothing, and takes time linear in the line's
/// length.
pub fn parse_action(line: &[u8]) -> Result<Action, TextFault>
    ensures found { IfOk result (λ action. IsAction action × (line.now ≡ action_text action)) }
    ensures only { (action : Action) → IsAction action → line.now ≡ action_text action → result ≡ Ok action }
    ensures fault { IfErr result (λ fault. IsActionTextFault fault line.now) }
{
    read_action(line)
}

/// Reads the line of an entry, without its line feed (docs/FORMATS.md, "Entry lines"). Returns the
/// entry and the seat that made it. An opening and a pass are the referee's, and have no seat.
///
/// It returns `Ok` exactly for the texts of [`entry_text`](crate::entry_text), and gives what was
/// written. The points of a move are in the numbering of the player whose letter begins the line,
/// with 25 for the bar and 0 for off; each step leads down. It allocates nothing, and takes time
/// linear in the line's length.
///
/// The whole line is tested for its shape, then for its numbers, then for the number of its steps:
/// - [`TextFault::NotALine`]: the line has none of the shapes of an entry's line. One space more or
///   less, or any byte that belongs to no shape, makes it another shape.
/// - [`TextFault::BadNumber`]: a number has a leading zero or is out of its range, or a pair does
///   not lead down, even behind the fourth pair.
/// - [`TextFault::TooManySteps`]: a move has more than four pairs.
pub fn parse_entry(line: &[u8]) -> Result<(Option<Player>, Entry), TextFault>
    ensures found { IfOk result (λ found. IsSeatOf found.0 found.1 × IsEntry found.1
        × (line.now ≡ entry_text found.0 found.1)) }
    ensures only { (seat : Option Player) (entry : Entry) → IsSeatOf seat entry → IsEntry entry
        → line.now ≡ entry_text seat entry → result ≡ Ok (seat, entry) }
    ensures fault { IfErr result (λ fault. IsEntryTextFault fault line.now) }
{
    read_entry(line)
}
