//! What a secret says about the dice of a match, in lines.
ghost use Rattle.std.specs.Prelude.{◌≤◌, length};
ghost use Rattle.bg_match.specs.Match.{IsLegalRecord};

use crate::rolls::Drawn;
use crate::rulings::{Ruling, ruling_of};
use crate::secrets::{Secret, digest_of};
use crate::texts::put_line;
use bg_match::{Number, Record};
use bg_text::{entry_text, put_number, put_text};
use std::alloc::{AllocError, Global};

/// The result of checking the dice of a match.
#[derive(Drop)]
pub struct Checked {
    /// The lines: the SHA-256, each entry with dice, and the verdict.
    pub text: Vec<u8>,
    /// The number of entries that have dice.
    pub rolls: Number,
    /// The number of these for which the secret has other dice, or none.
    pub others: Number,
}

/// Checks the dice of a match against a secret.
///
/// # Errors
/// `AllocError` if memory runs out.
pub fn checked_text(alloc: Global, secret: &Secret, log: &Record) -> Result<Checked, AllocError> {
    let mut checked = Checked {
        text: Vec::new(alloc),
        rolls: 0,
        others: 0,
    };
    put_line(alloc, &mut checked.text, "sha256 ", &digest_of(secret))?;
    for before in 0..log.len() {
        check_entry(&mut checked, secret, log, before + 1)?;
    }
    put_verdict(&mut checked)?;
    Ok(checked)
}

/// Adds the line of the entry with this number, if it has dice, and counts it.
fn check_entry(
    checked: &mut Checked,
    secret: &Secret,
    log: &Record,
    number: Number,
) -> Result<(), AllocError>
    requires first { 1 ≤ number }
    requires last { number ≤ length log.now.entries }
    requires legal { IsLegalRecord log.now.terms log.now.entries }
{
    let ruling = ruling_of(secret, number - 1, log.entry(number).unwrap());
    if ruling == Ruling::NoDice {
        return Ok(());
    }
    checked.rolls = checked.rolls.saturating_add(1);
    put_entry(&mut checked.text, log, number)?;
    match ruling {
        Ruling::Own(attempt) => put_own(&mut checked.text, attempt),
        Ruling::Other(drawn) => {
            checked.others = checked.others.saturating_add(1);
            put_other(&mut checked.text, drawn)
        }
        Ruling::NoDice => Ok(()),
    }
}

/// Adds the number of an entry, and its words.
fn put_entry(out: &mut Vec<u8>, log: &Record, number: Number) -> Result<(), AllocError>
    requires first { 1 ≤ number }
    requires last { number ≤ length log.now.entries }
    requires legal { IsLegalRecord log.now.terms log.now.entries }
{
    let entry = log.entry(number).unwrap();
    put_number(out, number.into())?;
    put_text(out, " ")?;
    put_text(out, entry_text(log.by(number), entry).as_str())
}

/// Adds that an entry has the dice of the secret, and the attempt that gave them.
fn put_own(text: &mut Vec<u8>, attempt: u16) -> Result<(), AllocError> {
    put_text(text, ": ok, attempt ")?;
    put_number(text, attempt.into())?;
    put_text(text, "\n")
}

/// Adds that an entry has other dice than the secret, and which dice the secret has, if any.
fn put_other(text: &mut Vec<u8>, drawn: Option<Drawn>) -> Result<(), AllocError> {
    let Some(Drawn { dice, attempt }) = drawn else {
        return put_text(text, ": not of this secret, which has none\n");
    };
    put_text(text, ": not of this secret, which has ")?;
    put_number(text, dice.first.pips().into())?;
    put_text(text, " ")?;
    put_number(text, dice.second.pips().into())?;
    put_text(text, ", attempt ")?;
    put_number(text, attempt.into())?;
    put_text(text, "\n")
}

/// Adds the verdict: `ok ROLLS`, or how many rolls are not of the secret.
fn put_verdict(checked: &mut Checked) -> Result<(), AllocError> {
    let Checked {
        text,
        rolls,
        others,
    } = checked;
    if *others == 0 {
        put_text(text, "ok ")?;
        put_number(text, (*rolls).into())?;
        return put_text(text, "\n");
    }
    put_text(text, "not of this secret: ")?;
    put_number(text, (*others).into())?;
    put_text(text, " of ")?;
    put_number(text, (*rolls).into())?;
    put_text(text, "\n")
}
