//! The secret from which the dice of a match are made, and what is published about it.
ghost use Rattle.std.specs.Prelude.{◌≡◌};
ghost use Rattle.sha2.specs.Sha256.{sha256};

use sha2::{Digest as Hasher, Sha256};
use std::fmt;
use std::fmt::{Display, Formatter, Write};

/// The bytes from which the dice of a match are made.
pub type Secret = [u8; 32];

/// The SHA-256 of a secret.
pub type Digest = [u8; 32];

/// Returns the SHA-256 of a secret.
pub fn digest_of(secret: &Secret) -> Digest
    ensures { result ≡ sha256 secret.now }
{
    let mut hasher = Sha256::new();
    hasher.update(secret);
    hasher.finalize()
}

/// The reason why bytes are not a secret.
#[derive(Clone, Copy, Debug, PartialEq, Eq)]
pub enum SecretFault {
    /// They are neither 32 bytes nor the lines that publish a secret.
    NoSecret,
    /// They are the line that is published before the match is over: the secret itself isn't
    /// published yet.
    NotTold,
    /// The SHA-256 in the first line is not that of the secret in the second.
    OtherDigest,
}

impl Display for SecretFault {
    fn fmt<W: Write>(&self, f: &mut Formatter<W>) -> fmt::Result {
        f.write_str(match self {
            SecretFault::NoSecret => {
                "it is no secret of dice: that has 32 bytes, or is told in a line `secret DIGITS`"
            }
            SecretFault::NotTold =>
                "it has the SHA-256 alone: the secret is told when the match is over",
            SecretFault::OtherDigest => "its secret is another than the one whose SHA-256 it has",
        })
    }
}

/// Returns the secret that bytes contain: either the 32 bytes themselves, or the secret in lines as
/// `told_text` writes them.
///
/// # Errors
/// The reason why the bytes contain no secret.
pub fn secret_in(bytes: &[u8]) -> Result<Secret, SecretFault> {
    if let Ok(secret) = <Secret>::try_from(bytes) {
        return Ok(secret);
    }
    match str::from_utf8(bytes) {
        Ok(text) => secret_told(text),
        Err(_) => Err(SecretFault::NoSecret),
    }
}

/// Returns the secret in lines as `told_text` writes them.
fn secret_told(text: &str) -> Result<Secret, SecretFault> {
    let (digest, rest) = match word_behind("sha256 ", text) {
        Some((digest, "")) => return Err(fault_without_secret(digest)),
        Some((digest, rest)) => (Some(digest), rest),
        None => (None, text),
    };
    let Some((secret, "")) = word_behind("secret ", rest) else {
        return Err(SecretFault::NoSecret);
    };
    let secret = bytes_of(secret).ok_or(SecretFault::NoSecret)?;
    match digest {
        Some(digits) if bytes_of(digits) != Some(digest_of(&secret)) => Err(
            SecretFault::OtherDigest,
        ),
        _ => Ok(secret),
    }
}

/// Returns the fault of a text that has only the line `sha256 DIGITS`.
fn fault_without_secret(digits: &str) -> SecretFault {
    match bytes_of(digits) {
        Some(_) => SecretFault::NotTold,
        None => SecretFault::NoSecret,
    }
}

/// Returns what follows a word in the first line of a text, and what follows the line.
fn word_behind<'a>(word: &str, text: &'a str) -> Option<(&'a str, &'a str)> {
    text.strip_prefix(word)?.split_once('\n')
}

/// Returns the 32 bytes that 64 hexadecimal digits represent.
pub(crate) fn bytes_of(digits: &str) -> Option<[u8; 32]> {
    let mut bytes = [0; 32];
    match hex::decode_to_slice(digits, &mut bytes) {
        Ok(()) => Some(bytes),
        Err(_) => None,
    }
}
