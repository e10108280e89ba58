//! The random words of an automatic match.
ghost use Rattle.std.specs.Prelude.{◌≡◌, ◌<◌, ◌≤◌, ◌+◌, ◌^◌, ℕ};
ghost use Rattle.rand_chacha.specs.ChaCha.{key_of};
ghost use Rattle.bg_auto.specs.Words.{dice_word as word_of_dice, event_words as words_of_event, key_bytes};
ghost use Rattle.bg_auto.specs.Words.{keyed_dice_word, schedule_at};

use bg_match::Number;
use rand_chacha::ChaCha20Rng;
use rand_core::SeedableRng;
use rand_core::utils::NextWord;

/// The stream of the dice.
const DICE_STREAM: u64 = 1;

/// The stream of the schedule.
const SCHEDULE_STREAM: u64 = 2;

/// The number of places of the dice's stream that each entry has: one for each attempt.
const ATTEMPTS: u128 = 65536;

/// Returns the word whose dice are handed in for the entry of this number, at this attempt
/// (docs/FORMATS.md, "Random words").
pub fn dice_word(seed: u64, n: u32, attempt: u16) -> u32
    ensures { result ≡ word_of_dice seed n attempt }
{
    dice_word_at(&key_of_seed(seed), n.into(), attempt)
}

/// Returns the word for the entry behind `entries` others, at this attempt, by the bytes of a key.
pub(crate) fn next_dice_word(key: &[u8; 32], entries: Number, attempt: u16) -> u32
    ensures { result ≡ keyed_dice_word key.now (entries + 1) attempt }
{
    dice_word_at(key, u64::from(entries) + 1, attempt)
}

/// Returns the word for the entry of a number that may be one above those of 32 bits.
fn dice_word_at(key: &[u8; 32], n: u64, attempt: u16) -> u32
    requires { n ≤ 2 ^ 32 }
    ensures { result ≡ keyed_dice_word key.now n attempt }
{
    let place = ATTEMPTS * u128::from(n) + u128::from(attempt);
    words_from(key, DICE_STREAM, place).next_word()
}

/// Returns the two words that choose the event of this index, from 0 (docs/FORMATS.md,
/// "Random words").
pub fn event_words(seed: u64, index: u32) -> (u32, u32)
    ensures { result ≡ words_of_event seed index }
{
    next_event_words(&mut schedule_from(seed, index))
}

/// Returns the schedule's generator before the event of this index, from 0.
pub(crate) fn schedule_from(seed: u64, index: u32) -> ChaCha20Rng
    ensures { result ≡ schedule_at seed index }
{
    words_from(&key_of_seed(seed), SCHEDULE_STREAM, 2 * u128::from(index))
}

/// Returns the two words that choose the next event, and advances the schedule's generator past
/// them.
pub(crate) fn next_event_words(schedule: &mut ChaCha20Rng) -> (u32, u32)
    ensures words { (seed index : ℕ) → index < 2 ^ 32 → schedule.old ≡ schedule_at seed index
        → result ≡ words_of_event seed index }
    ensures next { (seed index : ℕ) → index < 2 ^ 32 → schedule.old ≡ schedule_at seed index
        → schedule.new ≡ schedule_at seed (index + 1) }
{
    let a = schedule.next_word();
    let b = schedule.next_word();
    (a, b)
}

/// Returns the bytes of the key of a seed.
pub(crate) fn key_of_seed(seed: u64) -> [u8; 32]
    ensures { result ≡ key_bytes seed }
{
    let mut key = [0; 32];
    key[..8].copy_from_slice(&seed.to_be_bytes());
    key
}

/// Returns the words of a stream of a key, from a place on.
fn words_from(key: &[u8; 32], stream: u64, place: u128) -> ChaCha20Rng
    requires { place < 2 ^ 68 }
    ensures { result ≡ record { key = key_of key.now; stream = stream; word_pos = place } }
{
    let mut words = ChaCha20Rng::from_seed(*key);
    words.set_stream(stream);
    words.set_word_pos(place);
    words
}
