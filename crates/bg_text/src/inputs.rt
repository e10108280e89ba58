//! The input of the judge: its greatest length, and its lines.
ghost use Rattle.std.specs.Prelude.{◌≡◌, ◌<◌, ◌↔◌, ◌∷◌, ◌++◌, [], length, IsNone, IfSome};
ghost use Rattle.bg_text.specs.Judge.Hearing.{IsUnended};
ghost use Rattle.bg_text.specs.Judge.Judging.{lines_of};

use memchr::memchr;

/// Number of bytes of an input that is judged, or of a script, at most.
pub const MAX_INPUT: usize = 41_943_040;

/// Returns the first line of a text, without its line feed, and what follows it (docs/FORMATS.md,
/// "The judge"). Returns `None` where the text is empty. A line feed at the end begins no further
/// line, and the last line may lack it.
pub fn split_line(input: &[u8]) -> Option<(&[u8], &[u8])>
    ensures none { IsNone result ↔ (input.now ≡ []) }
    ensures lines { IfSome result (λ parts. lines_of input.now ≡ parts.0.now ∷ lines_of parts.1.now) }
    ensures shorter { IfSome result (λ parts. length parts.1.now < length input.now) }
{
    if input.is_empty() {
        return None;
    }
    match memchr(b'\n', input) {
        Some(end) => Some((&input[..end], &input[end + 1..])),
        None => Some((input, &[])),
    }
}

/// Returns the first line of a text that a line feed ends, without that line feed, and what follows
/// it. Returns `None` where there is no line feed.
pub(crate) fn split_ended_line(bytes: &[u8]) -> Option<(&[u8], &[u8])>
    ensures none { IsNone result → IsUnended bytes.now }
    ensures line { IfSome result (λ parts. IsUnended parts.0.now × (bytes.now ≡ parts.0.now ++ 10 ∷ parts.1.now)) }
{
    let end = memchr(b'\n', bytes)?;
    Some((&bytes[..end], &bytes[end + 1..]))
}
