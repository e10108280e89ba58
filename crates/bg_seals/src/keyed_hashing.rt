//! HMAC-SHA-256, as RFC 2104 defines it.
ghost use Rattle.std.specs.Prelude.{◌≡◌, ℕ, List, ◌≤◌, ◌++◌, [], length};
ghost use Rattle.sha2.specs.Hashers.{Holds256};
ghost use Rattle.bg_seals.specs.Hmac.{hmac_sha256, zero_padded, xored_with};
ghost use Rattle.bg_seals.specs.Hashers.{HoldsText};

use sha2::{Digest, Sha256};

/// Number of bytes of an HMAC-SHA-256.
pub const HMAC_BYTES: usize = 32;

/// B in RFC 2104: the number of bytes of a block of SHA-256.
const BLOCK_BYTES: usize = 64;

/// The byte that ipad repeats.
const IPAD_BYTE: u8 = 0x36;

/// The byte that opad repeats.
const OPAD_BYTE: u8 = 0x5C;

/// A hasher of HMAC-SHA-256, which has a key and takes its text piece by piece.
#[derive(Drop)]
pub struct HmacSha256 {
    /// Has hashed K XOR ipad, and the text so far.
    inner: Sha256,
    /// Has hashed K XOR opad.
    outer: Sha256,
}

/// Returns a key of at most 64 bytes, padded with zeros to 64.
fn zero_padded(key: &[u8]) -> [u8; BLOCK_BYTES]
    requires { length key.now ≤ BLOCK_BYTES }
    ensures { result ≡ zero_padded key.now }
{
    let mut block = [0; BLOCK_BYTES];
    block[..key.len()].copy_from_slice(key);
    block
}

/// Returns the block with each of its bytes XORed with `pad_byte`.
fn xored_with(pad_byte: u8, block: &[u8; BLOCK_BYTES]) -> [u8; BLOCK_BYTES]
    ensures { result ≡ xored_with pad_byte block.now }
{
    let mut xored = *block;
    for byte in xored.iter_mut() {
        *byte ^= pad_byte;
    }
    xored
}

impl HmacSha256 {
    /// Returns a hasher of the empty text under a key of any length.
    #[tactic(auto, unfolding(crate::specs::Hmac::key_xor_ipad, crate::specs::Hmac::key_xor_opad))]
    pub fn new(key: &[u8]) -> HmacSha256
        ensures { HoldsText result key.now [] }
    {
        if key.len() <= BLOCK_BYTES {
            HmacSha256::of_block(&zero_padded(key))
        } else {
            HmacSha256::of_block(&zero_padded(&Sha256::digest(key)))
        }
    }

    /// Returns a hasher of the empty text under K, a key of a whole block.
    fn of_block(block: &[u8; BLOCK_BYTES]) -> HmacSha256
        ensures inner { Holds256 result.inner (xored_with IPAD_BYTE block.now) }
        ensures outer { Holds256 result.outer (xored_with OPAD_BYTE block.now) }
    {
        let mut inner = Sha256::new();
        inner.update(xored_with(IPAD_BYTE, block));
        let mut outer = Sha256::new();
        outer.update(xored_with(OPAD_BYTE, block));
        HmacSha256 { inner, outer }
    }

    /// Returns a hasher of the same key and text.
    pub(crate) fn copy(&self) -> HmacSha256
        ensures { result ≡ self.now }
    {
        HmacSha256 {
            inner: self.inner.clone().unwrap(),
            outer: self.outer.clone().unwrap(),
        }
    }

    /// Appends bytes to the text.
    pub fn update(&mut self, bytes: &[u8])
        ensures { (key : List ℕ) (text : List ℕ) → HoldsText self.old key text
            → HoldsText self.new key (text ++ bytes.now) }
    {
        self.inner.update(bytes);
    }

    /// Returns the HMAC of the text.
    #[tactic(auto, unfolding(crate::specs::Hmac::hmac_sha256))]
    pub fn finalize(self) -> [u8; HMAC_BYTES]
        ensures { (key : List ℕ) (text : List ℕ) → HoldsText self key text → result ≡ hmac_sha256 key text }
    {
        let HmacSha256 { inner, mut outer } = self;
        outer.update(inner.finalize());
        outer.finalize()
    }
}
