//! The secrets of a referee: one that the dice of its match are derived from, and one that keys are
//! derived from.
ghost use Rattle.std.specs.IoError.{error_kind};
ghost use Rattle.std.specs.Prelude.{◌≡◌, ◌≢◌, length, IfOk, IfSome, MatchResult};

use crate::files::plain_files::open_plain;
use crate::files::whole_files::write_whole;
use bg_seals::MasterSecret;
use std::alloc::Global;
use std::fs::File;
use std::io;
use std::io::{ErrorKind, Read};
use std::random::RandomSource;
use std::rt::Files;

/// The name of the file of the dice's secret in the referee's folder.
const NAME: &str = "secret";

/// The name of the file of the keys' secret in the referee's folder.
const NAME_OF_KEYS: &str = "key-secret";

/// Number of bytes of the file that are read, at most: one more than a secret has.
const MOST_BYTES: u64 = 33;

/// Draws a secret of 32 bytes from the system, and writes it into a folder before anything depends
/// on it. It is the file `secret`, readable by its owner alone. The secret is never printed.
///
/// # Errors
/// The system's error where it gives no bytes, or the file can't be written.
pub fn make_secret(
    rt: &(impl Files<File = File> + AllocGlobal + RandomSource),
    folder: &str,
) -> io::Result<()> {
    make(rt, folder, NAME)
}

/// Draws the secret that the keys of a match are derived from, and writes it into a folder. It is
/// the file `key-secret`, readable by its owner alone. The secret is never printed.
///
/// # Errors
/// The system's error where it gives no bytes, or the file can't be written.
pub fn make_key_secret(
    rt: &(impl Files<File = File> + AllocGlobal + RandomSource),
    folder: &str,
) -> io::Result<()> {
    make(rt, folder, NAME_OF_KEYS)
}

fn make(
    rt: &(impl Files<File = File> + AllocGlobal + RandomSource),
    folder: &str,
    name: &str,
) -> io::Result<()> {
    let mut bytes = [0; 32];
    rt.fill_bytes(&mut bytes)?;
    write_whole(rt, folder, name, &bytes)
}

/// Reads the secret in a folder.
///
/// # Errors
/// The system's error where it can't be read; `InvalidInput` where it isn't a plain file, and
/// `InvalidData` where it doesn't have 32 bytes.
pub fn read_secret(
    rt: &(impl Files<File = File> + AllocGlobal),
    folder: &str,
) -> io::Result<[u8; 32]> {
    read(rt, folder, NAME)
}

/// Reads the secret in a folder that the keys of its match are derived from.
///
/// # Errors
/// Those of [`read_secret`].
pub fn read_key_secret(
    rt: &(impl Files<File = File> + AllocGlobal),
    folder: &str,
) -> io::Result<MasterSecret> {
    Ok(MasterSecret::new(&read(rt, folder, NAME_OF_KEYS)?))
}

fn read(
    rt: &(impl Files<File = File> + AllocGlobal),
    folder: &str,
    name: &str,
) -> io::Result<[u8; 32]> {
    let path = format!(in rt.alloc(); "{folder}/{name}")?;
    secret_of(rt.alloc(), open_plain(rt, path.as_str())?)
}

/// Reads all bytes of a reader as a secret.
///
/// # Errors
/// The reader's error where they can't be read; `InvalidData` where they are not 32.
pub fn secret_of<R: Read + Drop>(alloc: Global, reader: R) -> io::Result<[u8; 32]>
    ensures { IfOk result (λ secret. IfSome (R.remaining reader) (λ bytes. secret ≡ bytes)) }
{
    let mut bytes = Vec::new(alloc);
    reader.take(MOST_BYTES).read_to_end(&mut bytes)?;
    secret_in(&bytes)
}

/// Returns these bytes as a secret.
fn secret_in(bytes: &[u8]) -> io::Result<[u8; 32]>
    ensures { MatchResult result (λ secret. (secret ≡ bytes.now) × (length bytes.now ≡ 32))
        (λ error. (length bytes.now ≢ 32) × (error_kind error ≡ ErrorKind.InvalidData)) }
{
    match <[u8; 32]>::try_from(bytes) {
        Ok(secret) => Ok(secret),
        Err(_) => Err(io::Error::from(ErrorKind::InvalidData)),
    }
}
