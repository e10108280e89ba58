//! Which part of the server a path names.
ghost use Rattle.std.specs.Prelude.{◌≡◌, IfSome, IsSome, IsTrue};
ghost use Rattle.std.specs.List.{list_all};
ghost use Rattle.bg_requests.specs.Targets.{IsFound, IsNamedBehind, IsNamedBy, IsOfMatch, IsPlainWord, IsWord, IsWordOf};
ghost use Rattle.bg_requests.specs.Targets.{NamesSome, NamesSomeBehind, may_be_in_name, may_name};

use crate::numbers::number_of;

/// A part of a match, as the end of a path names it.
#[derive(Clone, Copy, Debug, PartialEq, Eq)]
pub enum Part {
    /// The page for watchers.
    Page,
    /// The same page, for a frame in a page of another site.
    Embed,
    /// The current state.
    State,
    /// The state after this number of entries.
    StateAfter(u32),
    Transcript,
    /// A match file for other programs.
    Mat,
    Picture,
    /// The SHA-256 of the secret of the dice, and the secret itself once the match is over.
    Dice,
    /// Where players' programs send actions.
    Actions,
    /// The WebSocket for watchers.
    Live,
}

/// What a path names.
#[derive(Clone, Copy, Debug, PartialEq, Eq)]
pub enum Target<'a> {
    Home,
    Script,
    Style,
    /// The list of matches, where new ones are made too.
    Matches,
    /// The page for players.
    Play,
    /// The WebSocket for players.
    PlayLive,
    Health,
    /// The counters of the server, for Prometheus.
    Metrics,
    /// A part of the match of this name.
    Of(&'a str, Part),
    Nothing,
}

/// Returns what a path names (docs/SERVING.md, "Paths"): `Nothing` if no such path exists.
pub fn target_of(path: &str) -> Target<'_>
    ensures named { IsNamedBy path.now result }
    ensures total { NamesSome path.now → IsFound result }
{
    match path {
        "/" => Target::Home,
        "/script.js" => Target::Script,
        "/style.css" => Target::Style,
        "/matches" => Target::Matches,
        "/play" => Target::Play,
        "/play/live" => Target::PlayLive,
        "/health" => Target::Health,
        "/metrics" => Target::Metrics,
        _ => match path.strip_prefix("/matches/") {
            Some(rest) => part_of(rest),
            None => Target::Nothing,
        },
    }
}

/// Returns what a path names, by its rest after `/matches/`: the name of a match, and perhaps a
/// part.
fn part_of(rest: &str) -> Target<'_>
    ensures named { IsNamedBehind rest.now result }
    ensures total { NamesSomeBehind rest.now → IsFound result }
{
    match rest.split_once('/') {
        None => of_match(rest, Some(Part::Page)),
        Some((name, word)) => of_match(name, part_named(word)),
    }
}

/// Returns the target of a part of a match: `Nothing` if there is no part, or no match may have the
/// name.
fn of_match(name: &str, part: Option<Part>) -> Target<'_>
    ensures named { IsOfMatch name.entry part result }
    ensures total { IsSome part → IsTrue (may_name name.now) → IsFound result }
{
    match part {
        Some(part) if is_name(name) => Target::Of(name, part),
        _ => Target::Nothing,
    }
}

/// Returns the part that a word names. The page of a match has no word.
fn part_named(word: &str) -> Option<Part>
    ensures named { IfSome result (IsWordOf word.now) }
    ensures total { IsWord word.now → IsSome result }
{
    match word.strip_prefix("states/") {
        Some(digits) => number_of(digits).map(Part::StateAfter),
        None => plain_part(word),
    }
}

/// Returns the part that a word without a number names.
fn plain_part(word: &str) -> Option<Part>
    ensures named { IfSome result (IsWordOf word.now) }
    ensures total { IsPlainWord word.now → IsSome result }
{
    match word {
        "embed" => Some(Part::Embed),
        "state" => Some(Part::State),
        "transcript" => Some(Part::Transcript),
        "mat" => Some(Part::Mat),
        "picture" => Some(Part::Picture),
        "dice" => Some(Part::Dice),
        "actions" => Some(Part::Actions),
        "live" => Some(Part::Live),
        _ => None,
    }
}

/// The most bytes of a match's name.
const MOST_NAME: usize = 64;

/// Returns whether a match may have this name: only letters, digits, hyphens and underscores, 1 to
/// 64 of them.
pub fn is_name(name: &str) -> bool
    ensures { result ≡ may_name name.now }
{
    let bytes = name.as_bytes();
    has_letters(bytes) && !bytes.is_empty() && bytes.len() <= MOST_NAME
}

/// Returns whether all bytes may be in a name.
fn has_letters(bytes: &[u8]) -> bool
    ensures { result ≡ list_all may_be_in_name bytes.now }
{
    bytes.iter().all(|byte| is_of_name(*byte))
}

/// Returns whether a byte may be in a name.
fn is_of_name(byte: u8) -> bool
    ensures { result ≡ may_be_in_name byte }
{
    matches!(byte, b'0'..=b'9' | b'A'..=b'Z' | b'a'..=b'z' | b'-' | b'_')
}
