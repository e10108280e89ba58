//! The secret that the keys of a match are derived from.

use crate::keys::{KEY_BYTES, Key};
use std::fmt;
use std::marker::Model;

/// The prefix of the text that a key is derived from.
const LABEL: &[u8] = b"bg_relay key 1";

/// The master secret of a referee, from which the key of each party is derived. Contracts see it as
/// its bytes; `Debug` output leaves them out.
#[derive(Drop)]
pub struct MasterSecret {
    /// The key that keys are derived with.
    key: Key,
}

impl Model for MasterSecret {
    ghost use Rattle.std.specs.Prelude.{ℕ, List};

    ghost Value = { List ℕ };

    ghost view = { λ secret. secret.key };
}

impl fmt::Debug for MasterSecret {
    ghost use Rattle.std.specs.Prelude.{Some};
    ghost use Rattle.bg_seals.specs.Keys.{secret_words};

    ghost debug_output = { λ _. Some secret_words };

    fn fmt<W: fmt::Write>(&self, f: &mut fmt::Formatter<W>) -> fmt::Result {
        f.write_str("MasterSecret(..)")
    }
}

impl MasterSecret {
    ghost use Rattle.std.specs.Prelude.{◌≡◌};
    ghost use Rattle.bg_seals.specs.Keys.{party_key};

    /// Returns the secret with these bytes, which nobody but the referee may know.
    pub fn new(bytes: &[u8; KEY_BYTES]) -> MasterSecret
        ensures { result ≡ bytes.now }
    {
        MasterSecret {
            key: Key::new(bytes),
        }
    }

    /// Returns the key of a party of the match with this number.
    pub fn key_of(&self, id: u64, party: u8) -> Key
        ensures { result ≡ party_key self.now id party }
    {
        let mut hasher = self.key.hasher();
        hasher.update(LABEL);
        hasher.update(&id.to_be_bytes());
        hasher.update(&[party]);
        Key::new(&hasher.finalize())
    }
}
