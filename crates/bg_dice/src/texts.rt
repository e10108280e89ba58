//! What is published about the secret of dice, in lines.
ghost use Rattle.std.specs.Prelude.{◌≡◌, ◌++◌, IfOk, OnOk, option_copied};
ghost use Rattle.bg_dice.specs.Secrets.{told_line, told_text as text_of_told};

use bg_text::put_text;
use std::alloc::{AllocError, Global};

/// Returns what is published about the dice of a match. It is the line of the SHA-256, if that was
/// published before the first roll, and the line of the secret, once the match is over.
///
/// # Errors
/// `AllocError` if memory runs out.
pub fn told_text(
    alloc: Global,
    digest: Option<&[u8; 32]>,
    secret: Option<&[u8; 32]>,
) -> Result<Vec<u8>, AllocError>
    ensures { IfOk result (λ text. text.items
        ≡ text_of_told (option_copied digest.entry) (option_copied secret.entry)) }
{
    let mut out = Vec::new(alloc);
    if let Some(digest) = digest {
        put_line(alloc, &mut out, "sha256 ", digest)?;
    }
    if let Some(secret) = secret {
        put_line(alloc, &mut out, "secret ", secret)?;
    }
    Ok(out)
}

/// Adds a line: a word, and bytes as hexadecimal digits.
#[tactic(auto, unfolding(crate::specs::Secrets::told_line))]
pub(crate) fn put_line(
    alloc: Global,
    out: &mut Vec<u8>,
    word: &str,
    bytes: &[u8; 32],
) -> Result<(), AllocError>
    ensures { OnOk result (out.new.items ≡ out.old.items ++ told_line word.now bytes.now) }
{
    let digits = hex::encode(alloc, bytes.as_slice())?;
    put_text(out, word)?;
    put_text(out, digits.as_str())?;
    put_text(out, "\n")
}
