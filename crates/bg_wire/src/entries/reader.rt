//! Fields at the front of bytes.
ghost use Rattle.std.specs.Prelude.{◌≡◌, ◌==◌, ◌≤◌, ◌+◌, length, drop, IfOk};

use std::marker::Model;

/// The reason why a field cannot be read, with the offset where it begins.
#[derive(Clone, Copy, Debug, PartialEq, Eq)]
pub(crate) enum ReadFault {
    /// One of its bytes is missing.
    Short,
    /// It is out of its range. Its first byte stands at this offset.
    Field(usize),
}

/// The same reason without the offset, so that what is read is returned in few registers. The
/// reader still stands at the field.
#[derive(Clone, Copy, Debug, PartialEq, Eq)]
pub(crate) enum FieldFault {
    /// One of its bytes is missing.
    Short,
    /// It is out of its range.
    OutOfRange,
}

/// The bytes, and the offset of the next one. Contracts see the offset and the bytes that are left.
#[derive(Drop)]
pub(crate) struct Reader<'a> {
    bytes: &'a [u8],
    at: usize,
}

impl<'a> Model for Reader<'a> {
    ghost use Rattle.std.specs.Prelude.{◌≤◌, length, drop};
    ghost use Rattle.bg_wire.specs.Entries.Reading.{Cursor};

    ghost Value = { Cursor };

    ghost view = { λ r. record { at = r.at; rest = drop r.at r.bytes.now } };

    ghost invariant = { λ r. r.at ≤ length r.bytes.now };
}

impl<'a> Reader<'a> {
    ghost use Rattle.bg_wire.specs.Entries.Reading.{Reads, fault_at, u8_at, u16_at, u32_at, u64_at};

    pub(crate) fn new(bytes: &'a [u8]) -> Reader<'a>
        ensures { result ≡ record { at = 0; rest = bytes.now } }
    {
        Reader { bytes, at: 0 }
    }

    /// Returns the offset of the next byte.
    pub(crate) fn at(&self) -> usize
        ensures { result ≡ self.now.at }
    {
        self.at
    }

    /// Returns the bytes that are left.
    fn rest(&self) -> &'a [u8]
        ensures { result.now ≡ self.now.rest }
    {
        &self.bytes[self.at..]
    }

    /// Returns the fault of the field at which the reader stands.
    pub(crate) fn fault(&self, fault: FieldFault) -> ReadFault
        ensures { result ≡ fault_at fault self.now.at }
    {
        match fault {
            FieldFault::Short => ReadFault::Short,
            FieldFault::OutOfRange => ReadFault::Field(self.at()),
        }
    }

    /// Goes past `count` of the bytes that are left.
    fn pass(&mut self, count: usize)
        requires { count ≤ length self.old.rest }
        ensures { self.new ≡ record { at = self.old.at + count; rest = drop count self.old.rest } }
    {
        self.at += count;
    }

    /// Returns whether no byte is left.
    pub(crate) fn is_empty(&self) -> bool
        ensures { result ≡ (length self.now.rest == 0) }
    {
        self.rest().is_empty()
    }

    /// Returns `count`, or the number of bytes left where that is less.
    pub(crate) fn at_most(&self, count: u32) -> u32
        ensures { result ≤ count }
    {
        u32::try_from(self.rest().len()).unwrap_or(count).min(count)
    }

    /// Reads a byte from `low` to `high`.
    #[tactic(auto, unfolding(crate::specs::Entries::Reading::u8_at))]
    pub(crate) fn read_u8(&mut self, low: u8, high: u8) -> Result<u8, FieldFault>
        ensures reads { Reads result self.new (u8_at low high self.old) }
        ensures low { IfOk result (λ byte. low ≤ byte) }
        ensures high { IfOk result (λ byte. byte ≤ high) }
    {
        let [byte, ..] = self.rest() else {
            return Err(FieldFault::Short);
        };
        let byte = *byte;
        if byte < low || high < byte {
            return Err(FieldFault::OutOfRange);
        }
        self.pass(1);
        Ok(byte)
    }

    /// Reads a number of two bytes, from `low` to `high`.
    #[tactic(auto, unfolding(crate::specs::Entries::Reading::u16_at))]
    pub(crate) fn read_u16(&mut self, low: u16, high: u16) -> Result<u16, FieldFault>
        ensures reads { Reads result self.new (u16_at low high self.old) }
        ensures low { IfOk result (λ number. low ≤ number) }
        ensures high { IfOk result (λ number. number ≤ high) }
    {
        let Some(bytes) = self.rest().first_chunk::<2>() else {
            return Err(FieldFault::Short);
        };
        let number = u16::from_be_bytes(*bytes);
        if number < low || high < number {
            return Err(FieldFault::OutOfRange);
        }
        self.pass(bytes.len());
        Ok(number)
    }

    /// Reads a number of four bytes, from `low` to `high`.
    #[tactic(auto, unfolding(crate::specs::Entries::Reading::u32_at))]
    pub(crate) fn read_u32(&mut self, low: u32, high: u32) -> Result<u32, FieldFault>
        ensures reads { Reads result self.new (u32_at low high self.old) }
        ensures low { IfOk result (λ number. low ≤ number) }
        ensures high { IfOk result (λ number. number ≤ high) }
    {
        let Some(bytes) = self.rest().first_chunk::<4>() else {
            return Err(FieldFault::Short);
        };
        let number = u32::from_be_bytes(*bytes);
        if number < low || high < number {
            return Err(FieldFault::OutOfRange);
        }
        self.pass(bytes.len());
        Ok(number)
    }

    /// Reads any number of eight bytes.
    #[tactic(auto, unfolding(crate::specs::Entries::Reading::u64_at))]
    pub(crate) fn read_u64(&mut self) -> Result<u64, FieldFault>
        ensures { Reads result self.new (u64_at self.old) }
    {
        let Some(bytes) = self.rest().first_chunk::<8>() else {
            return Err(FieldFault::Short);
        };
        let number = u64::from_be_bytes(*bytes);
        self.pass(bytes.len());
        Ok(number)
    }
}
