//! Tags and their comparison.
ghost use Rattle.std.specs.Prelude.{◌≡◌, ◌↔◌, take, IsTrue};
ghost use Rattle.bg_seals.specs.Datagrams.{tag_bytes};

use crate::keyed_hashing::HMAC_BYTES;

/// Number of bytes of a tag.
pub const TAG_BYTES: usize = 16;

/// The tag of a packet.
#[derive(Drop)]
pub(crate) struct Tag {
    pub(crate) bytes: [u8; TAG_BYTES],
}

impl Tag {
    /// Returns the tag that an HMAC is truncated to: its first 16 bytes.
    pub(crate) fn truncated(hmac: &[u8; HMAC_BYTES]) -> Tag
        ensures { result.bytes ≡ take tag_bytes hmac.now }
    {
        let mut bytes = [0; TAG_BYTES];
        bytes.copy_from_slice(&hmac[..TAG_BYTES]);
        Tag { bytes }
    }

    /// Returns whether the tag has these bytes. It compares all 16, whichever of them differ. No
    /// clause can say how long that takes.
    pub(crate) fn is(&self, bytes: &[u8; TAG_BYTES]) -> bool
        ensures { IsTrue result ↔ (self.now.bytes ≡ bytes.now) }
    {
        let mut difference = 0;
        for i in 0..TAG_BYTES {
            difference |= self.bytes[i] ^ bytes[i];
        }
        difference == 0
    }
}
