//! The lines of events.
ghost use Rattle.std.specs.Prelude.{◌≡◌, ℕ, List, ◌++◌, Ok, IfOk, IfErr, MatchOption};
ghost use Rattle.bg_world.specs.Texts.EventText.{EventTextsDiffer, IsEvent, IsEventTextFault, event_text};
ghost use Rattle.bg_world.specs.Texts.EventText.{greatest_party, greatest_word};
ghost use Rattle.bg_world.specs.Texts.EventLines.{IsEventOf, IsNumberUpTo, kind_start, take_of};
ghost use Rattle.bg_world.specs.declared.texts.event_lines.EventKind.{EventKind};
ghost use Rattle.bg_world.specs.declared.texts.event_lines.EventKind.TheVariants as kind;
ghost use Rattle.bg_protocol.specs.declared.events.Event.{Event};

use crate::Event;
use crate::texts::numbers::read_up_to;
use bg_text::{TextFault, parse_action, split_player, thirds};

/// The kinds of events.
#[derive(Clone, Copy, Debug, PartialEq, Eq)]
pub(crate) enum EventKind {
    Due,
    Take,
    Choose,
    Save,
    Tick,
    Restart,
}

/// Returns the kind whose word a line begins with, and what follows the word and its space.
fn split_kind(line: &[u8]) -> Option<(EventKind, &[u8])>
    ensures { MatchOption result
        ((kind : EventKind) (rest : List ℕ) → line.now ≡ kind_start kind ++ rest → ⊥)
        (λ found. line.now ≡ kind_start found.0 ++ found.1.now) }
{
    match line {
        [b'd', b'u', b'e', b' ', rest @ ..] => Some((EventKind::Due, rest)),
        [b't', b'a', b'k', b'e', b' ', rest @ ..] => Some((EventKind::Take, rest)),
        [b'c', b'h', b'o', b'o', b's', b'e', b' ', rest @ ..] => Some((EventKind::Choose, rest)),
        [b's', b'a', b'v', b'e', b' ', rest @ ..] => Some((EventKind::Save, rest)),
        [b't', b'i', b'c', b'k', b' ', rest @ ..] => Some((EventKind::Tick, rest)),
        [b'r', b'e', b's', b't', b'a', b'r', b't', b' ', rest @ ..] => {
            Some((EventKind::Restart, rest))
        }
        _ => None,
    }
}

/// Reads the number of a party, 0 to 255.
fn read_party(word: &[u8]) -> Result<u8, TextFault>
    ensures { IsNumberUpTo greatest_party word.now result }
{
    match read_up_to(word, u64::from(u8::MAX)) {
        Ok(number) => Ok(number as u8),
        Err(fault) => Err(fault),
    }
}

/// Reads a random word, or a pick.
fn read_word(word: &[u8]) -> Result<u32, TextFault>
    ensures { IsNumberUpTo greatest_word word.now result }
{
    match read_up_to(word, u64::from(u32::MAX)) {
        Ok(number) => Ok(number as u32),
        Err(fault) => Err(fault),
    }
}

/// Returns the event of three numbers, or the gravest of the faults. A wrong shape of one word
/// comes before a wrong number in another.
fn take_of(
    party: Result<u8, TextFault>,
    pick: Result<u32, TextFault>,
    word: Result<u32, TextFault>,
) -> Result<Event, TextFault>
    ensures { result ≡ take_of party pick word }
{
    match (party, pick, word) {
        (Err(TextFault::NotALine), _, _)
        | (_, Err(TextFault::NotALine), _)
        | (_, _, Err(TextFault::NotALine)) => Err(TextFault::NotALine),
        (party, pick, word) => Ok(Event::Take {
            party: party?,
            pick: pick?,
            word: word?,
        }),
    }
}

/// Reads the event of three numbers, with one space between each two.
fn read_take(rest: &[u8]) -> Result<Event, TextFault>
    ensures { IsEventOf (kind_start kind.Take ++ rest.now) result }
{
    match thirds(rest, b' ') {
        None => Err(TextFault::NotALine),
        Some((party, pick, word)) => take_of(read_party(party), read_word(pick), read_word(word)),
    }
}

/// Reads the choice that a player's letter and the text of the player's action write.
fn read_choice(rest: &[u8]) -> Result<Event, TextFault>
    ensures { IsEventOf (kind_start kind.Choose ++ rest.now) result }
{
    let Some((seat, text)) = split_player(rest) else {
        return Err(TextFault::NotALine);
    };
    match parse_action(text) {
        Ok(action) => Ok(Event::Choose { seat, action }),
        Err(fault) => Err(fault),
    }
}

/// Reads an event of this kind from the rest of its line.
fn read_rest(kind: EventKind, rest: &[u8]) -> Result<Event, TextFault>
    ensures { IsEventOf (kind_start kind ++ rest.now) result }
{
    match kind {
        EventKind::Due => match read_word(rest) {
            Ok(word) => Ok(Event::Due { word }),
            Err(fault) => Err(fault),
        },
        EventKind::Take => read_take(rest),
        EventKind::Choose => read_choice(rest),
        EventKind::Save => match read_party(rest) {
            Ok(party) => Ok(Event::Save { party }),
            Err(fault) => Err(fault),
        },
        EventKind::Tick => match read_party(rest) {
            Ok(party) => Ok(Event::Tick { party }),
            Err(fault) => Err(fault),
        },
        EventKind::Restart => match read_party(rest) {
            Ok(party) => Ok(Event::Restart { party }),
            Err(fault) => Err(fault),
        },
    }
}

/// Reads the event of a line, or returns what is wrong with the line.
fn read_event(line: &[u8]) -> Result<Event, TextFault>
    ensures { IsEventOf line.now result }
{
    match split_kind(line) {
        None => Err(TextFault::NotALine),
        Some((kind, rest)) => read_rest(kind, rest),
    }
}

/// Reads the line of an event, without its line feed (docs/FORMATS.md, "Event lines").
///
/// It is `Ok` exactly on the texts of events, and returns what was written. It allocates nothing,
/// and takes time linear in the line's length.
///
/// The whole line is tested for its shape, then for its numbers, then for the count of its steps:
/// - [`TextFault::NotALine`]: the line has none of the shapes of an event's line. A number of more
///   than ten digits is of another shape.
/// - [`TextFault::BadNumber`]: a number has a leading zero before another digit, or is out of its
///   range: 0 to 255 for a party, 0 to 4294967295 for a pick or a word. Or a number or a pair of
///   the action is wrong, as [`parse_action`] says.
/// - [`TextFault::TooManySteps`]: a move has more than four pairs.
pub fn parse_event(line: &[u8]) -> Result<Event, TextFault>
    ensures found { IfOk result (λ event. IsEvent event × (line.now ≡ event_text event)) }
    ensures only { (event : Event) → IsEvent event → line.now ≡ event_text event → result ≡ Ok event }
    ensures fault { IfErr result (λ fault. IsEventTextFault fault line.now) }
{
    read_event(line)
}

/// States that a line is the line of one event: two events with the same line are equal.
pub fn event_texts_differ()
    ensures { EventTextsDiffer }
{}
