//! The word of the dice, cached from event to event.
ghost use Rattle.std.specs.Prelude.{◌≡◌};
ghost use Rattle.bg_auto.specs.Attempts.{word_for as right_word};

use crate::dice_attempts::DiceAttempts;

/// The word that the referee gets, with the attempt that it is the word of. It is computed anew
/// only where that changed.
#[derive(Drop)]
pub(crate) struct KeptWord {
    seed: u64,
    of: DiceAttempts,
    word: u32,
    ghost right: { word ≡ right_word seed of.held of.attempt },
}

impl KeptWord {
    /// Returns the word of this seed for the referee's next entry at its attempt.
    pub(crate) fn new(seed: u64, dice: DiceAttempts) -> KeptWord
        ensures seed { result.seed ≡ seed }
        ensures of { result.of ≡ dice }
    {
        KeptWord {
            seed,
            of: dice,
            word: dice.word(seed),
        }
    }

    /// Returns the same word as [`DiceAttempts::word`].
    pub(crate) fn word_for(&mut self, dice: DiceAttempts) -> u32
        ensures word { result ≡ right_word self.old.seed dice.held dice.attempt }
        ensures seed { self.new.seed ≡ self.old.seed }
        ensures kept { self.new.of ≡ dice }
    {
        if self.of != dice {
            *self = KeptWord::new(self.seed, dice);
        }
        self.word
    }
}
