//! Answers to requests.

use crate::counts::metrics_text;
use crate::files::Asked;
use crate::requests::is_own_origin;
use crate::sites::Site;
use crate::stores::Store;
use bg_pages::{
    Kind, Page, add_common, answer_line, answer_page, answer_script, answer_style, answer_text,
    refuse,
};
use bg_requests::{Part, Target, target_of};
use bg_world::Keeper;
use bytes::Bytes;
use http::header::{ALLOW, HeaderValue};
use http::{Request, StatusCode};
use http_server::{Response, Service};
use std::alloc::AllocError;

impl<K: Keeper + Drop, S: Store<K> + Drop> Service for Site<K, S> {
    ghost answers = { λ _ _ _ _. Unit {0} };

    fn call(
        &mut self,
        request: &Request<Bytes>,
        response: &mut Response,
    ) -> Result<(), AllocError> {
        if self.answer(request, response).is_err() {
            response.clear();
            response.status = StatusCode::SERVICE_UNAVAILABLE;
        }
        self.note_request(request, response);
        Ok(())
    }
}

impl<K: Keeper + Drop, S: Store<K> + Drop> Site<K, S> {
    /// Answers a request.
    fn answer(
        &mut self,
        request: &Request<Bytes>,
        response: &mut Response,
    ) -> Result<(), AllocError> {
        add_common(response)?;
        if !self.admit(request) {
            return refuse(
                response,
                StatusCode::TOO_MANY_REQUESTS,
                "too many connections of one address\n",
            );
        }
        match request.method().as_str() {
            "GET" | "HEAD" => self.get(request, response),
            "POST" if is_own_origin(request) => self.post(request, response),
            "POST" => refuse(
                response,
                StatusCode::FORBIDDEN,
                "this comes from a page of another site\n",
            ),
            _ => not_allowed(
                response,
                HeaderValue::from_static("GET, HEAD, POST"),
                "only GET, HEAD and POST are supported\n",
            ),
        }
    }

    /// Answers a GET or HEAD request.
    fn get(&mut self, request: &Request<Bytes>, response: &mut Response) -> Result<(), AllocError> {
        match target_of(request.uri().path()) {
            Target::Home => answer_page(response, Page::Home),
            Target::Play => answer_page(response, Page::Match),
            Target::Script => answer_script(response),
            Target::Style => answer_style(response),
            Target::Health => answer_line(response, "ok\n"),
            Target::Metrics => self.answer_metrics(response),
            Target::Matches => self.list(request, response),
            Target::PlayLive => self.upgrade(request, None, response),
            Target::Of(name, part) => match self.by_name(name) {
                Some(index) => self.get_part(request, index, part, response),
                None => missing(response),
            },
            Target::Nothing => missing(response),
        }
    }

    /// Answers with the metrics.
    fn answer_metrics(&self, response: &mut Response) -> Result<(), AllocError> {
        let text = metrics_text(
            self.alloc,
            &self.places,
            self.patience,
            self.counts,
            self.store.saves(),
        )?;
        answer_text(response, Kind::Plain, text)
    }

    /// Answers a request for a part of a match.
    fn get_part(
        &mut self,
        request: &Request<Bytes>,
        index: usize,
        part: Part,
        response: &mut Response,
    ) -> Result<(), AllocError> {
        let asked = match part {
            Part::Page => return answer_page(response, Page::Match),
            Part::Embed => return answer_page(response, Page::Embedded),
            Part::Live => return self.upgrade(request, Some(index), response),
            Part::Dice => return self.answer_dice(index, response),
            Part::Actions => {
                let post = HeaderValue::from_static("POST");
                return not_allowed(response, post, "actions are posted\n");
            }
            Part::State => Asked::State(None),
            Part::StateAfter(count) => Asked::StateAfter(count),
            Part::Transcript => Asked::Transcript,
            Part::Mat => Asked::Mat,
            Part::Picture => Asked::Picture,
        };
        self.answer_asked(index, asked, response)
    }

    /// Answers a POST request.
    fn post(
        &mut self,
        request: &Request<Bytes>,
        response: &mut Response,
    ) -> Result<(), AllocError> {
        match target_of(request.uri().path()) {
            Target::Matches => self.make(request, response),
            Target::Of(name, Part::Actions) => self.act_by_request(request, name, response),
            Target::Nothing => missing(response),
            _ => not_allowed(
                response,
                HeaderValue::from_static("GET, HEAD"),
                "this address does not take POST\n",
            ),
        }
    }
}

/// Answers that this address takes only these methods.
fn not_allowed(
    response: &mut Response,
    methods: HeaderValue,
    words: &'static str,
) -> Result<(), AllocError> {
    response.add_header(ALLOW, methods)?;
    refuse(response, StatusCode::METHOD_NOT_ALLOWED, words)
}

/// Answers that there is nothing at this path.
pub(crate) fn missing(response: &mut Response) -> Result<(), AllocError> {
    refuse(response, StatusCode::NOT_FOUND, "there is nothing here\n")
}
