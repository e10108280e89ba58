//! What a peer says over its socket, or by a request (docs/SERVING.md, "Sockets" and "Scripts").
ghost use Rattle.std.specs.Prelude.{IfSome, IsSome};
ghost use Rattle.bg_requests.specs.Messages.{IsAct, IsActOf, IsKnown, Says, SaysSome};

use crate::numbers::number_of;

/// Number of bytes of a message, at most. A longer one is `Unknown`.
pub const MOST_MESSAGE: usize = 512;

/// What a peer says.
#[derive(Clone, Copy, Debug, PartialEq, Eq)]
pub enum Message<'a> {
    /// It has the seat of this secret.
    Hello(&'a str),
    /// It acts: the action in these words is to become the entry of this number.
    Act(u32, &'a str),
    /// It says nothing that the server knows.
    Unknown,
}

/// Returns what a message says: `hello SECRET` or `act NUMBER WORDS`. Any other text, and one of
/// more than 512 bytes, is `Unknown`.
pub fn parse_message(text: &str) -> Message<'_>
    ensures said { Says text.now result }
    ensures total { SaysSome text.now → IsKnown result }
{
    if text.len() > MOST_MESSAGE {
        return Message::Unknown;
    }
    if let Some(secret) = text.strip_prefix("hello ") {
        return Message::Hello(secret);
    }
    let Some(rest) = text.strip_prefix("act ") else {
        return Message::Unknown;
    };
    match parse_act(rest) {
        Some((number, words)) => Message::Act(number, words),
        None => Message::Unknown,
    }
}

/// Returns the number and the words of `NUMBER WORDS`, and `None` if the text has another form: the
/// number is plain digits, with neither a sign nor a zero before others.
pub fn parse_act(text: &str) -> Option<(u32, &str)>
    ensures said { IfSome result (λ act. IsActOf text.now act.0 act.1.now) }
    ensures total { IsAct text.now → IsSome result }
{
    let (digits, words) = text.split_once(' ')?;
    let number = number_of(digits)?;
    Some((number, words))
}
