//! Requests that list matches, make one, or act in one.
ghost use Rattle.std.specs.Prelude.{◌≡◌, ◌++◌, IfOk, OnOk};
ghost use Rattle.std.specs.Prelude.{string_bytes};
ghost use Rattle.bg_site.specs.Links.{digits_of as digits_of_bytes, dice_text, link_text};
ghost use Rattle.bg_site.specs.Links.{links_text as text_of_links};

use crate::addresses::address_of;
use crate::answering::missing;
use crate::files::Asked;
use crate::lists::{Wanted, list_text};
use crate::orders::{Order, order_of};
use crate::requests::{bearer_of, is_json, key_of, query_part};
use crate::sites::{MOST_MATCHES, Site};
use crate::stores::{Made, Store};
use bg_pages::{Kind, answer_text, refuse};
use bg_requests::{Digest, parse_act};
use bg_states::put_quoted;
use bg_text::put_text;
use bg_world::Keeper;
use bytes::Bytes;
use http::{Request, StatusCode};
use http_server::Response;
use std::alloc::{AllocError, Global};

impl<K: Keeper + Drop, S: Store<K> + Drop> Site<K, S> {
    /// Answers with a page of the list of matches, or with an archive of the matches on it. Refuses a
    /// query with other values than it may have.
    pub(crate) fn list(
        &self,
        request: &Request<Bytes>,
        response: &mut Response,
    ) -> Result<(), AllocError> {
        let query = request.uri().query();
        let search = search_in(self.alloc, query)?;
        let wanted = Wanted::of(query, search.as_str(), self.patience);
        self.answer_list(wanted, query_part(query, "form"), response)
    }

    /// Answers with a page of a list in this form.
    fn answer_list(
        &self,
        wanted: Option<Wanted<'_>>,
        form: Option<&str>,
        response: &mut Response,
    ) -> Result<(), AllocError> {
        match (wanted, form) {
            (Some(wanted), Some("transcript")) => self.archive(wanted, Asked::Transcript, response),
            (Some(wanted), Some("mat")) => self.archive(wanted, Asked::Mat, response),
            (Some(wanted), None) => {
                let text = list_text(self.alloc, &self.places, &wanted)?;
                answer_text(response, Kind::Json, text)
            }
            _ => refuse(
                response,
                StatusCode::BAD_REQUEST,
                "list is live, idle or finished, page a number from 1 on, form transcript or mat\n",
            ),
        }
    }

    /// Makes the match that a request asks for, and answers with its links. Nobody else is told the
    /// links of its seats. A request with the key of an earlier one makes no match, and gets the
    /// same answer as the earlier one.
    pub(crate) fn make(
        &mut self,
        request: &Request<Bytes>,
        response: &mut Response,
    ) -> Result<(), AllocError> {
        if !is_json(request) {
            return refuse(
                response,
                StatusCode::UNSUPPORTED_MEDIA_TYPE,
                "this takes application/json\n",
            );
        }
        let key = key_of(request).unwrap_or("");
        if let Some(text) = self.repeats.answer_to(key)? {
            response.status = StatusCode::CREATED;
            return answer_text(response, Kind::Json, text);
        }
        let ordered = match order_of(self.alloc, request.body().as_slice())? {
            Order::Match(ordered) => ordered,
            Order::Refused(why) => {
                response.status = StatusCode::BAD_REQUEST;
                return answer_text(response, Kind::Plain, why);
            }
        };
        let address = address_of(request);
        if !self.may_make || !self.addresses.may_make(address) {
            return refuse(
                response,
                StatusCode::TOO_MANY_REQUESTS,
                "too many matches in a short time\n",
            );
        }
        if self.len() >= MOST_MATCHES {
            return refuse_full(response);
        }
        match self.store.make(ordered.terms, ordered.names) {
            Some(made) => {
                self.addresses.make(address);
                self.answer_made(made, key, response)
            }
            None => refuse(
                response,
                StatusCode::INSUFFICIENT_STORAGE,
                "the match could not be saved\n",
            ),
        }
    }

    /// Adds a match that was made by a request with this key, and answers with its links.
    fn answer_made(
        &mut self,
        made: Made<K>,
        key: &str,
        response: &mut Response,
    ) -> Result<(), AllocError> {
        let Made { found, x, o } = made;
        let name = found.name.as_str();
        let text = links_text(self.alloc, name, &found.digest, x.as_str(), o.as_str())?;
        if !self.open_made(found) {
            return refuse_full(response);
        }
        let _ = self.repeats.note(key, &text);
        response.status = StatusCode::CREATED;
        answer_text(response, Kind::Json, text)
    }

    /// Carries out an action of the player whose secret the request has.
    pub(crate) fn act_by_request(
        &mut self,
        request: &Request<Bytes>,
        name: &str,
        response: &mut Response,
    ) -> Result<(), AllocError> {
        let Some(index) = self.by_name(name) else {
            return missing(response);
        };
        let seat = match bearer_of(request) {
            Some(secret) => self.by_secret(secret),
            None => None,
        };
        let Some((theirs, player)) = seat else {
            return refuse(
                response,
                StatusCode::UNAUTHORIZED,
                "authorization: Bearer SECRET is missing, or no seat's\n",
            );
        };
        if theirs != index {
            return refuse(
                response,
                StatusCode::FORBIDDEN,
                "this seat is that of another match\n",
            );
        }
        let text = str::from_utf8(request.body().as_slice()).unwrap_or("");
        match parse_act(text.trim_ascii_end()) {
            Some((number, words)) => {
                let answer = self.answer_of(index, player, number, words)?;
                answer_text(response, Kind::Json, answer)
            }
            None => refuse(
                response,
                StatusCode::BAD_REQUEST,
                "an action is NUMBER WORDS\n",
            ),
        }
    }
}

/// Returns the text that a query searches for, in lower case.
fn search_in(alloc: Global, query: Option<&str>) -> Result<String, AllocError> {
    let search = query_part(query, "search").unwrap_or("");
    let search = form_urlencoded::decode(alloc, search.as_bytes())?;
    search.as_str().to_lowercase(alloc)
}

/// Answers that there is no room for another match.
fn refuse_full(response: &mut Response) -> Result<(), AllocError> {
    refuse(
        response,
        StatusCode::SERVICE_UNAVAILABLE,
        "there is no room for another match\n",
    )
}

/// Returns the links of a new match, as JSON.
#[tactic(auto, unfolding(crate::specs::Links::links_text))]
fn links_text(
    alloc: Global,
    name: &str,
    dice: &Option<Digest>,
    x: &str,
    o: &str,
) -> Result<Vec<u8>, AllocError>
    ensures { IfOk result (λ text. text.items ≡ text_of_links name.now dice.now x.now o.now) }
{
    let mut out = Vec::new(alloc);
    put_text(&mut out, "{\"match\":")?;
    put_quoted(&mut out, name)?;
    put_link(&mut out, ",\"watch\":\"/matches/", name)?;
    put_link(&mut out, ",\"x\":\"/play#", x)?;
    put_link(&mut out, ",\"o\":\"/play#", o)?;
    put_dice(alloc, &mut out, dice)?;
    put_text(&mut out, "}\n")?;
    Ok(out)
}

/// Adds the SHA-256 of the secret of the dice, or an empty text if there is none.
fn put_dice(alloc: Global, out: &mut Vec<u8>, dice: &Option<Digest>) -> Result<(), AllocError>
    ensures { OnOk result (out.new.items ≡ out.old.items ++ dice_text dice.now) }
{
    let digits = digits_of(alloc, dice)?;
    put_link(out, ",\"dice\":\"", digits.as_str())
}

/// Returns the hexadecimal digits of a SHA-256, or an empty string if there is none.
pub(crate) fn digits_of(alloc: Global, digest: &Option<Digest>) -> Result<String, AllocError>
    ensures { IfOk result (λ digits. string_bytes digits ≡ digits_of_bytes digest.now) }
{
    match digest {
        Some(digest) => hex::encode(alloc, digest.as_slice()),
        None => Ok(String::new(alloc)),
    }
}

/// Adds a link: the words before it, its end, and a closing quote.
#[tactic(auto, unfolding(crate::specs::Links::link_text))]
fn put_link(out: &mut Vec<u8>, words: &str, end: &str) -> Result<(), AllocError>
    ensures { OnOk result (out.new.items ≡ out.old.items ++ link_text words.now end.now) }
{
    put_text(out, words)?;
    put_text(out, end)?;
    put_text(out, "\"")
}
