//! Requests for texts about a match.
ghost use Rattle.std.specs.Prelude.{IfOk};
ghost use Rattle.bg_site.specs.Given.{IsGivenOf};
ghost use Rattle.bg_site.specs.declared.files.Asked.TheVariants as asked_of;

use crate::answering::missing;
use crate::sites::Site;
use crate::stores::Store;
use bg_board::Player;
use bg_mat::export_mat;
use bg_match::{Number, Record};
use bg_pages::{Kind, answer_text, refuse};
use bg_picture::{Numbering, picture_text};
use bg_states::state_text;
use bg_text::transcript_text;
use bg_world::Keeper;
use http::StatusCode;
use http_server::Response;
use std::alloc::{AllocError, Global};

/// A text about a match.
#[derive(Clone, Copy, PartialEq, Eq)]
pub(crate) enum Asked {
    /// The state, for a player, or for watchers if `None`.
    State(Option<Player>),
    /// The state after this many entries, for watchers.
    StateAfter(Number),
    Transcript,
    /// A match file for other programs.
    Mat,
    Picture,
}

impl Asked {
    /// Returns the kind of the text.
    fn kind(self) -> Kind {
        match self {
            Asked::State(_) | Asked::StateAfter(_) => Kind::Json,
            Asked::Transcript | Asked::Mat => Kind::Plain,
            Asked::Picture => Kind::Picture,
        }
    }
}

/// The answer to a request for a text about a match.
#[derive(Drop)]
pub(crate) enum Given {
    Text(Vec<u8>),
    /// The match has no such text, because it has fewer entries.
    Missing,
    /// The match can't be read.
    Unreadable,
}

impl<K: Keeper + Drop, S: Store<K> + Drop> Site<K, S> {
    ghost use Rattle.bg_site.specs.Places.{IsGivenAt};

    /// Answers with a text about a match.
    pub(crate) fn answer_asked(
        &self,
        index: usize,
        asked: Asked,
        response: &mut Response,
    ) -> Result<(), AllocError> {
        match self.give(index, asked)? {
            Given::Text(text) => answer_text(response, asked.kind(), text),
            Given::Missing => missing(response),
            Given::Unreadable => refuse(
                response,
                StatusCode::SERVICE_UNAVAILABLE,
                "the match can't be read\n",
            ),
        }
    }

    /// Returns a text about a match.
    pub(crate) fn give(&self, index: usize, asked: Asked) -> Result<Given, AllocError>
        ensures { IfOk result (λ given. IsGivenAt K.Keeper self.now.places.items index asked given) }
    {
        let Some(place) = self.places.get(index) else {
            return Ok(Given::Unreadable);
        };
        if place.is_live() {
            return match place.held() {
                Some(record) => text_of(self.alloc, record, asked),
                None => Ok(Given::Unreadable),
            };
        }
        match self.store.load(place.name.as_str()) {
            Some(record) => text_of(self.alloc, &record, asked),
            None => Ok(Given::Unreadable),
        }
    }
}

/// Returns a text about the match with this record.
fn text_of(alloc: Global, record: &Record, asked: Asked) -> Result<Given, AllocError>
    ensures { IfOk result (λ given. IsGivenOf record.now asked given) }
{
    let text = match asked {
        Asked::State(seat) => state_text(alloc, record, seat)?,
        Asked::StateAfter(count) => return state_after(alloc, record, count),
        Asked::Transcript => transcript_text(alloc, record)?,
        Asked::Mat => export_mat(alloc, record)?,
        Asked::Picture => picture_text(alloc, &record.standing(), Numbering::X)?,
    };
    Ok(Given::Text(text))
}

/// Returns the state of a match after this many of its entries.
fn state_after(alloc: Global, record: &Record, count: Number) -> Result<Given, AllocError>
    ensures { IfOk result (λ given. IsGivenOf record.now (asked_of.StateAfter count) given) }
{
    if count > record.len() {
        return Ok(Given::Missing);
    }
    let Ok(mut front) = Record::new(alloc, record.id(), record.length(), record.rules()) else {
        return Ok(Given::Unreadable);
    };
    front.reserve(count)?;
    for before in 0..count {
        if let Some(entry) = record.entry(before.saturating_add(1)) {
            let _ = front.push(entry.copy());
        }
    }
    Ok(Given::Text(state_text(alloc, &front, None)?))
}
