//! The command that makes a match between processes.

use crate::new_folders::{
    begin_folder, derived_keys, end_folder, make_secret_of_dice, make_secret_of_keys, tell_dice,
    tell_key_files, told_of,
};
use crate::played_by::tell_commands;
use crate::ports_beside::check_ports;
use bg_console::{failed_or, written};
use bg_dice::Digest;
use bg_match::Terms;
use bg_options::NewOptions;
use bg_reports::Ending;
use bg_system::{MatchFile, NamedMatch, Names};
use std::fs;
use std::random::RandomSource;

/// What to do where the system gives no random bytes.
const ELSEWHERE: &str = "; run it where the system lets a process call `getrandom`";

/// Makes the match that the options name. Prints its line, and how it is played by a program that
/// is called by this name.
pub fn run(rt: &HostRuntime, options: NewOptions<'_>, called: &str) -> Result<Ending, Ending> {
    let names = options.names();
    let NewOptions {
        terms,
        port,
        folder,
        ..
    } = options;
    let (table, digest) = make_match(rt, terms, port, names, folder)?;
    told_of(rt, folder, tell(rt, table, &digest, called, folder))?;
    Ok(Ending::Served)
}

/// Prints the line of a match, whose the key files in its folder are, how it is played by a program
/// that is called by this name, and the SHA-256 of the secret of its dice.
fn tell(
    rt: &HostRuntime,
    table: MatchFile,
    digest: &Digest,
    called: &str,
    folder: &str,
) -> Result<(), Ending> {
    written(rt, rt.print(table))?;
    tell_key_files(rt, folder)?;
    tell_commands(rt, called, folder)?;
    tell_dice(rt, digest)
}

/// Makes the folder of a match. The port is checked before the folder is made, so that nothing is
/// left of a match whose port is refused.
fn make_match(
    rt: &HostRuntime,
    terms: Terms,
    port: u16,
    names: Names,
    folder: &str,
) -> Result<(MatchFile, Digest), Ending> {
    if fs::metadata(rt, folder).is_err() {
        check_ports(rt, folder, port)?;
    }
    let _lock = begin_folder(rt, folder)?;
    fill(rt, terms, port, names, folder)
}

/// Makes the secrets of a match first, and its match file last, so that where there is one the
/// match is complete.
fn fill(
    rt: &HostRuntime,
    terms: Terms,
    port: u16,
    names: Names,
    folder: &str,
) -> Result<(MatchFile, Digest), Ending> {
    check_ports(rt, folder, port)?;
    let id = random_number(rt)?;
    let digest = make_secret_of_dice(rt, folder)?;
    make_secret_of_keys(rt, folder)?;
    let table = MatchFile { id, terms, port };
    let file = NamedMatch { table, names };
    end_folder(rt, folder, &file, &derived_keys(rt, folder, &file)?)?;
    Ok((table, digest))
}

/// Returns a number that nobody can foresee.
fn random_number(rt: &HostRuntime) -> Result<u64, Ending> {
    let mut bytes = [0; 8];
    match rt.fill_bytes(&mut bytes) {
        Ok(()) => Ok(u64::from_be_bytes(bytes)),
        Err(error) => Err(failed_or(rt, "no random bytes", &error, ELSEWHERE)),
    }
}
