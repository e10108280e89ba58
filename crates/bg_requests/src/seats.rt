//! Who may play a match: whoever knows the secret of a seat. The server keeps only its SHA-256.
ghost use Rattle.std.specs.Prelude.{◌≡◌};
ghost use Rattle.bg_requests.specs.Seats.{same_bytes};
ghost use Rattle.sha2.specs.Sha256.{sha256};

use bg_board::Player;
use sha2::{Digest as Hasher, Sha256};

/// The SHA-256 of the text of a secret.
pub type Digest = [u8; 32];

/// The digests of the secrets of both seats.
#[derive(Clone, Copy, Debug, PartialEq, Eq)]
pub struct Seats {
    pub x: Digest,
    pub o: Digest,
}

/// Returns the digest of a secret.
pub fn digest_of(secret: &str) -> Digest
    ensures { result ≡ sha256 secret.now }
{
    let mut hasher = Sha256::new();
    hasher.update(secret.as_bytes());
    hasher.finalize()
}

impl Seats {
    ghost use Rattle.bg_requests.specs.Seats.{player_with};

    /// Returns the player whose seat has this digest: X if both have, and `None` if neither has. It
    /// compares all bytes whatever they are, so that the time it takes reveals nothing about the
    /// secrets.
    pub fn player_of(&self, digest: &Digest) -> Option<Player>
        ensures { result ≡ player_with self.now digest.now }
    {
        let is_x = is_same(&self.x, digest);
        let is_o = is_same(&self.o, digest);
        if is_x {
            Some(Player::X)
        } else if is_o {
            Some(Player::O)
        } else {
            None
        }
    }
}

/// Returns whether two lists have the same bytes. It does not stop at the first difference.
fn is_same(one: &[u8], other: &[u8]) -> bool
    ensures { result ≡ same_bytes one.now other.now }
{
    match (one.split_first(), other.split_first()) {
        (None, None) => true,
        (Some((first, rest)), Some((second, others))) => {
            let rest = is_same(rest, others);
            (first == second) & rest
        }
        _ => false,
    }
}
