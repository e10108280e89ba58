//! Tests of eight counts at once, as the bytes of one number. Testing the 50 counts of a board one
//! by one takes most of the time of a short search.
ghost use Rattle.std.specs.Prelude.{◌≡◌, ◌≤◌, ◌<◌, ◌+◌, ◌-◌, ◌/◌, ℕ, slice_index};
ghost use Rattle.std.specs.Int.{bit_at};

/// A one in each byte.
const EACH: u64 = 0x0101_0101_0101_0101;

/// A product with it moves bit `8 * i` to bit `56 + i`, for each `i` below 8.
const GATHER: u64 = 0x0102_0408_1020_4080;

/// Returns which of eight counts, each at most 15, reach 128 with this added: bit `i` stands for
/// count `i`.
pub(crate) fn reaching(counts: [u8; 8], added: u8) -> u8
    requires few { (i : ℕ) → slice_index counts i ≤ 15 }
    requires added { added ≤ 127 }
    ensures { (i : ℕ) → i < 8 → bit_at result i ≡ (slice_index counts i + added) / 128 }
{
    let sums = u64::from_le_bytes(counts) + u64::from(added) * EACH;
    let found = sums >> 7 & EACH;
    (found.wrapping_mul(GATHER) >> 56) as u8
}

/// Returns eight counts of a player from a point downward.
pub(crate) fn downward(counts: &[u8; 26], from: usize) -> [u8; 8]
    requires low { 7 ≤ from }
    requires high { from ≤ 25 }
    requires few { (i : ℕ) → slice_index counts.now i ≤ 15 }
    ensures each { (i : ℕ) → i < 8 → slice_index result i ≡ slice_index counts.now (from - i) }
    ensures few { (i : ℕ) → slice_index result i ≤ 15 }
{
    [
        counts[from],
        counts[from - 1],
        counts[from - 2],
        counts[from - 3],
        counts[from - 4],
        counts[from - 5],
        counts[from - 6],
        counts[from - 7],
    ]
}

/// Returns eight counts of a player from a point upward.
pub(crate) fn upward(counts: &[u8; 26], from: usize) -> [u8; 8]
    requires high { from ≤ 18 }
    requires few { (i : ℕ) → slice_index counts.now i ≤ 15 }
    ensures each { (i : ℕ) → i < 8 → slice_index result i ≡ slice_index counts.now (from + i) }
    ensures few { (i : ℕ) → slice_index result i ≤ 15 }
{
    [
        counts[from],
        counts[from + 1],
        counts[from + 2],
        counts[from + 3],
        counts[from + 4],
        counts[from + 5],
        counts[from + 6],
        counts[from + 7],
    ]
}
