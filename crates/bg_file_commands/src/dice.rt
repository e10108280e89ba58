//! The command that checks the dice of a match by their secret.

use crate::inputs::{check_name, file_bytes, read_record};
use bg_console::{allocated, print_text, wrong};
use bg_dice::{Secret, checked_text, secret_in};
use bg_reports::{Ending, Found};
use bg_system::Printable;

/// Prints what the secret in this file says of the dice of the transcript on the standard input.
pub fn run(rt: &HostRuntime, secret: &str) -> Result<Ending, Ending> {
    let secret = secret_of_file(rt, secret)?;
    let record = read_record(rt)?;
    let checked = allocated(rt, checked_text(rt.alloc(), &secret, &record))?;
    print_text(rt, &checked.text)?;
    Ok(Ending::Checked(if checked.others == 0 {
        Found::Good
    } else {
        Found::Refused
    }))
}

/// Returns the secret in a file. Reports why where it has none.
fn secret_of_file(rt: &HostRuntime, path: &str) -> Result<Secret, Ending> {
    check_name(rt, path)?;
    match secret_in(&file_bytes(rt, path)?) {
        Ok(secret) => Ok(secret),
        Err(why) => {
            let shown = Printable(path);
            Err(wrong(rt, format_args!("{shown} is refused: {why}")))
        }
    }
}
