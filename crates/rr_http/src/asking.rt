//! What a request asks, read from its head: its page, its method, and the size of its body.
//! `serving` does what it asks. A new page is added here, in `serving`, and in the definitions of
//! both.

ghost use Rattle.std.specs.Prelude.{◌≡◌, Some, codes, length};
ghost use Rattle.std.specs.Str.{bytes_eq};
ghost use Rattle.rr_http.specs.Asked.{view_of};
ghost use Rattle.rr_http.specs.AskedParts.{fields_in};
ghost use Rattle.rr_http.specs.Requests.{HasQueryWithin, asks_of, asks_page};
ghost use Rattle.rr_http.specs.Requests.{body_size};
ghost use Rattle.rr_http.specs.Requests.{is_length, is_query_path, is_segment};
ghost use Rattle.rr_http.specs.Requests.{method_of, page_of, size_of, values_of};
ghost use Rattle.rr_http.specs.Wants.{RequestAsks};

use crate::body_size::{BODY_LIMIT, BodySize};
use crate::fields::Fields;
use http::Method;
use httparse::Status;
use httparse::spans::{EMPTY_HEADER_SPAN, parse_request};
use rr_bytes::{are_digits, capped_value, cut_before};
use std::str;

/// How many fields the head of a request has at most (profile).
pub const FIELD_LIMIT: usize = 64;

/// What stands at a path.
#[derive(Clone, Copy, Debug, PartialEq, Eq)]
pub enum Page {
    /// The report on a body that is submitted, by `POST /submissions`.
    Submissions,
    /// The answer to a query, by `GET /query/` and the query.
    Query,
    /// The public dump, by `GET /dump`.
    Dump,
}

/// What the path of a query begins with (profile).
const QUERY: &[u8] = b"/query/";

impl Page {
    /// The page at a path, if there is one (profile).
    #[tactic(auto, unfolding(crate::specs::Requests::page_of))]
    fn at(path: &[u8]) -> Option<Page>
        ensures { result ≡ page_of path.now }
    {
        if path == b"/submissions".as_slice() {
            Some(Page::Submissions)
        } else if path == b"/dump".as_slice() {
            Some(Page::Dump)
        } else if is_query_path(path) {
            Some(Page::Query)
        } else {
            None
        }
    }

    /// Whether this is the method of the page (RFC 9110, 9.3).
    fn takes(self, method: &[u8]) -> bool
        ensures { result ≡ bytes_eq method.now (method_of self) }
    {
        match self {
            Page::Submissions => method == Method::POST.as_str().as_bytes(),
            Page::Query | Page::Dump => method == Method::GET.as_str().as_bytes(),
        }
    }
}

/// Whether the path is that of a query: one segment follows `/query/` (RFC 3986, 3.3; profile).
fn is_query_path(path: &[u8]) -> bool
    ensures { result ≡ is_query_path path.now }
{
    path.starts_with(QUERY) && is_segment(&path[QUERY.len()..])
}

/// Whether the text is a segment of a path that has bytes (RFC 3986, 3.3).
fn is_segment(text: &[u8]) -> bool
    ensures { result ≡ is_segment text.now }
{
    !text.is_empty() && !text.contains(&b'/')
}

/// Why a request is refused.
#[derive(Clone, Copy, Debug, PartialEq, Eq)]
pub enum Refusal {
    /// 8,192 bytes have no empty line: 431.
    HeadTooLarge,
    /// There is no head of a request, it has more than 64 fields, or the length of the body is bad
    /// or given more than once: 400.
    BadRequest,
    /// The body has a transfer coding: 501.
    NotImplemented,
    /// No page stands at the path: 404.
    NotFound,
    /// The page has another method: 405.
    MethodNotAllowed(Page),
    /// The body has no length: 411.
    LengthRequired,
    /// The body is larger than 1,048,576 bytes: 413.
    PayloadTooLarge,
    /// The desk is stopped, or memory ran out: 503.
    Unavailable,
}

/// What a request asks.
#[derive(Clone, Copy, Debug, PartialEq, Eq)]
pub enum Requested<'a> {
    /// Nothing that is done: it is refused.
    Refused(Refusal),
    /// The report on its body, which has this size.
    Submission(BodySize),
    /// The answer to this query, whose percent escapes are still to be read.
    Query(&'a [u8]),
    /// The public dump.
    Dump,
}

/// What is asked by the request whose head this text begins with. If the text begins with no head,
/// or with one of more than 64 fields, that is refused as `BadRequest` (RFC 9112, 2.1; profile).
///
/// Otherwise the first refusal of these is given: for a transfer coding, for a path without a page,
/// and for another method than the page's. For a submission those follow for no length, for a bad
/// length or more than one, and for one above 1,048,576 (RFC 9110, 15; profile). If none applies,
/// what its page is for is asked: the report, the answer to what follows `/query/`, or the dump. A
/// query that is asked has no more bytes than the text.
pub fn read_request(head: &[u8]) -> Requested<'_>
    ensures asks { RequestAsks head.now (view_of result) }
    ensures within { HasQueryWithin (length head.now) (view_of result) }
{
    let mut fields = [EMPTY_HEADER_SPAN; FIELD_LIMIT];
    match parse_request(head, &mut fields) {
        Ok(Status::Complete(spans)) => match str::from_utf8(spans.path.of(head)) {
            Ok(target) => asked_of(
                spans.method.of(head),
                target.as_bytes(),
                Fields::new(head, &fields[..spans.headers]),
            ),
            Err(_) => Requested::Refused(Refusal::BadRequest),
        },
        Ok(Status::Partial) | Err(_) => Requested::Refused(Refusal::BadRequest),
    }
}

/// What a request of this method, target and fields asks (RFC 9110; profile).
#[tactic(auto, unfolding(crate::specs::Requests::asks_of))]
fn asked_of<'a>(method: &[u8], target: &'a [u8], fields: Fields<'_>) -> Requested<'a>
    ensures asks { view_of result ≡ asks_of method.now target.now (fields_in fields.entry) }
    ensures within { HasQueryWithin (length target.now) (view_of result) }
{
    if fields.find(b"Transfer-Encoding").is_some() {
        return Requested::Refused(Refusal::NotImplemented);
    }
    let (path, _) = cut_before(target, b'?');
    match Page::at(path) {
        None => Requested::Refused(Refusal::NotFound),
        Some(page) => {
            if page.takes(method) {
                asked_at(path, page, fields)
            } else {
                Requested::Refused(Refusal::MethodNotAllowed(page))
            }
        }
    }
}

/// What a request by the method of the page asks.
#[tactic(auto, using(crate::proofs::RequestLemmas::query_follows))]
fn asked_at<'a>(path: &'a [u8], page: Page, fields: Fields<'_>) -> Requested<'a>
    requires { page_of path.now ≡ Some page }
    ensures asks { view_of result ≡ asks_page path.now (fields_in fields.entry) page }
    ensures within { HasQueryWithin (length path.now) (view_of result) }
{
    match page {
        Page::Submissions => match read_size(fields) {
            Ok(size) => Requested::Submission(size),
            Err(refusal) => Requested::Refused(refusal),
        },
        Page::Query => Requested::Query(&path[QUERY.len()..]),
        Page::Dump => Requested::Dump,
    }
}

/// The size of the body that the fields tell (RFC 9110, 8.6).
fn read_size(fields: Fields<'_>) -> Result<BodySize, Refusal>
    ensures { result ≡ body_size (values_of (codes "Content-Length") (fields_in fields.entry)) }
{
    match fields.find(b"Content-Length") {
        None => Err(Refusal::LengthRequired),
        Some((value, rest)) => match rest.find(b"Content-Length") {
            None => size_of(value),
            Some(_) => Err(Refusal::BadRequest),
        },
    }
}

/// The size that the text spells (RFC 9110, 8.6).
#[tactic(auto, unfolding(crate::specs::Requests::size_of))]
fn size_of(text: &[u8]) -> Result<BodySize, Refusal>
    ensures { result ≡ size_of text.now }
{
    if !is_length(text) {
        return Err(Refusal::BadRequest);
    }
    match BodySize::new(capped_value(text, BODY_LIMIT)) {
        Some(size) => Ok(size),
        None => Err(Refusal::PayloadTooLarge),
    }
}

/// Whether the text is a length, in decimal digits alone (RFC 9110, 8.6).
fn is_length(text: &[u8]) -> bool
    ensures { result ≡ is_length text.now }
{
    !text.is_empty() && are_digits(text)
}
