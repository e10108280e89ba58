//! The headers of answers.
ghost use Rattle.std.specs.Prelude.{◌≡◌, OnOk};

use crate::pages::Page;
use crate::script::SCRIPT_PARTS;
use crate::style::STYLE_TEXT;
use bytes::Bytes;
use http::StatusCode;
use http::header::{
    CACHE_CONTROL, CONTENT_SECURITY_POLICY, CONTENT_TYPE, HeaderName, HeaderValue, REFERRER_POLICY,
    X_CONTENT_TYPE_OPTIONS,
};
use http_server::Response;
use std::alloc::AllocError;

/// The policy of a page: it may load only what this server has, and nobody may show it in a frame.
const OWN_ALONE: &str =
    "default-src 'none'; script-src 'self'; style-src 'self'; connect-src 'self'; img-src 'self' data:; base-uri 'none'; form-action 'self'; frame-ancestors 'none'";

/// The same, except that any site may show the page in a frame, and that it can send no form.
const IN_FRAMES: &str =
    "default-src 'none'; script-src 'self'; style-src 'self'; connect-src 'self'; img-src 'self' data:; base-uri 'none'; form-action 'none'; frame-ancestors *";

/// The policy of a picture: it may load nothing and use only its own style, and nobody may show it
/// in a frame.
const PICTURE: &str = "default-src 'none'; style-src 'unsafe-inline'; frame-ancestors 'none'";

/// The kind of a text that answers a request.
#[derive(Clone, Copy, Debug, PartialEq, Eq)]
pub enum Kind {
    Json,
    Plain,
    /// An SVG file.
    Picture,
    /// A `tar` archive.
    Archive,
}

impl Kind {
    /// Returns the value of `content-type`.
    fn media_type(self) -> HeaderValue {
        match self {
            Kind::Json => HeaderValue::from_static("application/json"),
            Kind::Plain => HeaderValue::from_static("text/plain; charset=utf-8"),
            Kind::Picture => HeaderValue::from_static("image/svg+xml"),
            Kind::Archive => HeaderValue::from_static("application/x-tar"),
        }
    }
}

/// Adds the headers that each answer has.
///
/// # Errors
/// `AllocError` if memory runs out, as in all functions here.
pub fn add_common(response: &mut Response) -> Result<(), AllocError> {
    response.add_header(X_CONTENT_TYPE_OPTIONS, HeaderValue::from_static("nosniff"))?;
    response.add_header(REFERRER_POLICY, HeaderValue::from_static("no-referrer"))?;
    response.add_header(
        HeaderName::from_static("cross-origin-resource-policy"),
        HeaderValue::from_static("same-origin"),
    )
}

/// Answers with a page.
pub fn answer_page(response: &mut Response, page: Page) -> Result<(), AllocError> {
    let policy = match page {
        Page::Embedded => HeaderValue::from_static(IN_FRAMES),
        Page::Home | Page::Match => HeaderValue::from_static(OWN_ALONE),
    };
    response.add_header(CONTENT_SECURITY_POLICY, policy)?;
    answer_fixed(
        response,
        HeaderValue::from_static("text/html; charset=utf-8"),
        page.text(),
    )
}

/// Answers with the script of all pages.
pub fn answer_script(response: &mut Response) -> Result<(), AllocError> {
    describe(
        response,
        HeaderValue::from_static("text/javascript; charset=utf-8"),
    )?;
    for part in SCRIPT_PARTS {
        response.body.push(Bytes::from_static(part.as_bytes()))?;
    }
    Ok(())
}

/// Answers with the style of all pages.
pub fn answer_style(response: &mut Response) -> Result<(), AllocError> {
    answer_fixed(
        response,
        HeaderValue::from_static("text/css; charset=utf-8"),
        STYLE_TEXT,
    )
}

/// Answers with a line of plain text.
pub fn answer_line(response: &mut Response, line: &'static str) -> Result<(), AllocError>
    ensures { OnOk result (response.new.status ≡ response.old.status) }
{
    answer_fixed(response, Kind::Plain.media_type(), line)
}

/// Answers with a status, and a line of plain text that says why.
pub fn refuse(
    response: &mut Response,
    status: StatusCode,
    why: &'static str,
) -> Result<(), AllocError>
    ensures { OnOk result (response.new.status ≡ status) }
{
    response.status = status;
    answer_line(response, why)
}

/// Answers with a text that changes, so that no cache may keep it.
pub fn answer_text(response: &mut Response, kind: Kind, text: Vec<u8>) -> Result<(), AllocError> {
    if kind == Kind::Picture {
        response.add_header(CONTENT_SECURITY_POLICY, HeaderValue::from_static(PICTURE))?;
    }
    response.add_header(CACHE_CONTROL, HeaderValue::from_static("no-store"))?;
    response.add_header(CONTENT_TYPE, kind.media_type())?;
    match Bytes::from_vec(text) {
        Ok(bytes) => response.body.push(bytes),
        Err(_) => Err(AllocError),
    }
}

/// Answers with a text that is the same in every answer.
fn answer_fixed(
    response: &mut Response,
    media_type: HeaderValue,
    text: &'static str,
) -> Result<(), AllocError>
    ensures { OnOk result (response.new.status ≡ response.old.status) }
{
    describe(response, media_type)?;
    response.body.push(Bytes::from_static(text.as_bytes()))
}

/// Adds the headers of a text that stays the same until another version of the program runs.
fn describe(response: &mut Response, media_type: HeaderValue) -> Result<(), AllocError>
    ensures { OnOk result (response.new.status ≡ response.old.status) }
{
    response.add_header(CACHE_CONTROL, HeaderValue::from_static("no-cache"))?;
    response.add_header(CONTENT_TYPE, media_type)
}
