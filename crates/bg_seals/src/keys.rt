//! The key of a party.

use crate::keyed_hashing::HmacSha256;
use std::fmt;
use std::marker::Model;

/// Number of bytes of a key.
pub const KEY_BYTES: usize = 32;

/// The key of a party, hashed once for all its datagrams. Contracts see it as its bytes; `Debug`
/// output leaves them out.
#[derive(Drop)]
pub struct Key {
    bytes: [u8; KEY_BYTES],
    /// A hasher with this key that holds the empty text.
    hasher: HmacSha256,
}

impl Model for Key {
    ghost use Rattle.std.specs.Prelude.{ℕ, List, []};
    ghost use Rattle.bg_seals.specs.Hashers.{HoldsText};

    ghost Value = { List ℕ };

    ghost view = { λ key. key.bytes };

    ghost invariant = { λ key. HoldsText key.hasher key.bytes [] };
}

impl fmt::Debug for Key {
    ghost use Rattle.std.specs.Prelude.{Some};
    ghost use Rattle.bg_seals.specs.Keys.{key_words};

    ghost debug_output = { λ _. Some key_words };

    fn fmt<W: fmt::Write>(&self, f: &mut fmt::Formatter<W>) -> fmt::Result {
        f.write_str("Key(..)")
    }
}

impl Key {
    ghost use Rattle.std.specs.Prelude.{◌≡◌, []};
    ghost use Rattle.bg_seals.specs.Hashers.{HoldsText};

    /// Returns the key with these bytes.
    pub fn new(bytes: &[u8; KEY_BYTES]) -> Key
        ensures { result ≡ bytes.now }
    {
        Key {
            bytes: *bytes,
            hasher: HmacSha256::new(bytes),
        }
    }

    /// Returns the key's bytes, to hand them to the party or to keep them in a file that nobody
    /// else reads.
    pub fn bytes(&self) -> &[u8; KEY_BYTES]
        ensures { result.now ≡ self.now }
    {
        &self.bytes
    }

    /// Returns a hasher with this key that holds the empty text.
    pub(crate) fn hasher(&self) -> HmacSha256
        ensures { HoldsText result self.now [] }
    {
        self.hasher.copy()
    }
}
