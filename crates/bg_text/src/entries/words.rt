//! Splitting a text at its separators.
ghost use Rattle.std.specs.Prelude.{◌≡◌, ◌≢◌, ◌==◌, ℕ, List, [], ◌∷◌, ◌++◌, MatchOption};
ghost use Rattle.std.specs.List.{All, slice_split};

use std::marker::Model;

/// The pieces of a text between its separators. Contracts see the pieces that are left.
#[derive(Drop)]
pub(crate) struct Pieces<'a> {
    rest: &'a [u8],
    separator: u8,
    is_done: bool,
}

impl<'a> Model for Pieces<'a> {
    ghost use Rattle.std.specs.Prelude.{◌==◌, ℕ, List, [], if◌then◌else◌};
    ghost use Rattle.std.specs.List.{slice_split};

    ghost Value = { List (List ℕ) };

    ghost view = { λ p. if p.is_done then [] else slice_split (λ byte. byte == p.separator) p.rest.now };
}

impl<'a> Pieces<'a> {
    /// Splits a text into its pieces. Two separators in a row have an empty piece between them.
    pub(crate) fn new(text: &'a [u8], separator: u8) -> Pieces<'a>
        ensures { result ≡ slice_split (λ byte. byte == separator) text.now }
    {
        Pieces {
            rest: text,
            separator,
            is_done: false,
        }
    }

    /// Takes and returns the first of the pieces that are left.
    pub(crate) fn next_piece(&mut self) -> Option<&'a [u8]>
        ensures { MatchOption result ((self.old ≡ []) × (self.new ≡ []))
            (λ piece. self.old ≡ piece.now ∷ self.new) }
    {
        if self.is_done {
            return None;
        }
        match split_once(self.rest, self.separator) {
            Some((piece, rest)) => {
                self.rest = rest;
                Some(piece)
            }
            None => {
                self.is_done = true;
                Some(self.rest)
            }
        }
    }
}

/// Returns what stands before and after the first separator of a text.
fn split_once(text: &[u8], separator: u8) -> Option<(&[u8], &[u8])>
    ensures { MatchOption result (All (λ byte. byte ≢ separator) text.now)
        (λ parts. All (λ byte. byte ≢ separator) parts.0.now
        × (text.now ≡ parts.0.now ++ separator ∷ parts.1.now)) }
{
    let place = text.iter().position(|byte| *byte == separator)?;
    Some((&text[..place], &text[place + 1..]))
}

/// Returns the two pieces of a text around its only separator.
pub(crate) fn halves(text: &[u8], separator: u8) -> Option<(&[u8], &[u8])>
    ensures { MatchOption result
        ((first second : List ℕ) → slice_split (λ byte. byte == separator) text.now ≡ first ∷ second ∷ [] → ⊥)
        (λ parts. slice_split (λ byte. byte == separator) text.now ≡ parts.0.now ∷ parts.1.now ∷ []) }
{
    let mut pieces = Pieces::new(text, separator);
    let first = pieces.next_piece()?;
    let second = pieces.next_piece()?;
    match pieces.next_piece() {
        None => Some((first, second)),
        Some(_) => None,
    }
}

/// Returns the three pieces of a text around its only two separators. Returns `None` where it has
/// more separators, or fewer.
pub fn thirds(text: &[u8], separator: u8) -> Option<(&[u8], &[u8], &[u8])>
    ensures { MatchOption result
        ((first second third : List ℕ)
        → slice_split (λ byte. byte == separator) text.now ≡ first ∷ second ∷ third ∷ [] → ⊥)
        (λ parts. slice_split (λ byte. byte == separator) text.now
        ≡ parts.0.now ∷ parts.1.now ∷ parts.2.now ∷ []) }
{
    let mut pieces = Pieces::new(text, separator);
    let first = pieces.next_piece()?;
    let second = pieces.next_piece()?;
    let third = pieces.next_piece()?;
    match pieces.next_piece() {
        None => Some((first, second, third)),
        Some(_) => None,
    }
}
