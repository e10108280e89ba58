//! Repeats of requests that make a match. A request that is sent again because no answer came makes
//! no other match.

use bg_requests::{Digest, digest_of};
use std::alloc::{AllocError, Global};

/// The number of answers that are remembered.
const MOST_REMEMBERED: usize = 256;

/// The minimum length of a key, in bytes. Whoever guesses a key is told the links of the seats.
const LEAST_KEY: usize = 16;

/// The answer to the request with a key.
#[derive(Drop)]
struct Answered {
    key: Digest,
    text: Vec<u8>,
}

/// The newest answers to requests that made a match and had a key.
#[derive(Drop)]
pub(crate) struct Repeats {
    alloc: Global,
    answers: Vec<Answered>,
}

impl Repeats {
    /// Returns an empty list: no answer is remembered.
    pub(crate) fn none(alloc: Global) -> Repeats {
        Repeats {
            alloc,
            answers: Vec::new(alloc),
        }
    }

    /// Returns the answer to the request that had this key, if there was one.
    ///
    /// # Errors
    /// `AllocError` if memory runs out.
    pub(crate) fn answer_to(&self, key: &str) -> Result<Option<Vec<u8>>, AllocError> {
        let key = digest_of(key);
        for answered in self.answers.iter() {
            if answered.key == key {
                return Ok(Some(answered.text.as_slice().to_vec(self.alloc)?));
            }
        }
        Ok(None)
    }

    /// Remembers the answer to the request with this key, and forgets the oldest answer if there
    /// are too many. Ignores a key that is so short that it might be guessed.
    ///
    /// # Errors
    /// `AllocError` if memory runs out.
    pub(crate) fn note(&mut self, key: &str, text: &[u8]) -> Result<(), AllocError> {
        if key.len() < LEAST_KEY {
            return Ok(());
        }
        if self.answers.len() >= MOST_REMEMBERED {
            self.answers.remove(0);
        }
        self.answers.push(Answered {
            key: digest_of(key),
            text: text.to_vec(self.alloc)?,
        })?;
        Ok(())
    }
}
