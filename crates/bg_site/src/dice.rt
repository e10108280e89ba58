//! What is published about the dice of a match.
ghost use Rattle.std.specs.Prelude.{◌≡◌, IfOk};
ghost use Rattle.bg_dice.specs.Secrets.{told_text as text_of_told};
ghost use Rattle.bg_site.specs.Places.{secret_in};

use crate::places::Place;
use crate::sites::Site;
use crate::stores::Store;
use bg_dice::told_text;
use bg_pages::{Kind, answer_text, refuse};
use bg_world::Keeper;
use http::StatusCode;
use http_server::Response;
use std::alloc::{AllocError, Global};

impl<K: Keeper + Drop, S: Store<K> + Drop> Site<K, S> {
    /// Answers with what is published about the dice of a match: the SHA-256 of their secret, and
    /// the secret itself once the match has ended.
    pub(crate) fn answer_dice(
        &self,
        index: usize,
        response: &mut Response,
    ) -> Result<(), AllocError> {
        let text = match self.places.get(index) {
            Some(place) => dice_text(self.alloc, place)?,
            None => Vec::new(self.alloc),
        };
        if text.is_empty() {
            return refuse(
                response,
                StatusCode::NOT_FOUND,
                "an older version made this match: its secret is told when it is over\n",
            );
        }
        answer_text(response, Kind::Plain, text)
    }
}

/// Returns what is published about the dice of a match.
fn dice_text<K: Keeper + Drop>(alloc: Global, place: &Place<K>) -> Result<Vec<u8>, AllocError>
    ensures { IfOk result (λ text. text.items
        ≡ text_of_told place.now.digest (secret_in place.now)) }
{
    told_text(alloc, place.digest_told().as_ref(), place.secret())
}
