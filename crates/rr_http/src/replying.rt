//! Replies by HTTP, for `answering` and `serving`: refusals, and the head before an answer.

ghost use Rattle.std.specs.Prelude.{◌≡◌, ◌+◌, ◌≤◌, ◌++◌, length};
ghost use Rattle.rr_io.specs.Sending.{Writes};
ghost use Rattle.rr_http.specs.Replies.{allow_line, ok_head, reason_of, refusal_fields};
ghost use Rattle.rr_http.specs.Replies.{refusal_reply, status_of, status_words};

use crate::asking::{Page, Refusal};
use http::StatusCode;
use rr_io::{Writer, write_all};
use rr_submission::ShortText;
use std::io;

/// Writes the reply to a request that is refused: a status line, fields, and the status in words as
/// the body (RFC 9112, 4; profile). The error is that a write failed: the writer has taken the
/// beginning of the reply, and not all.
pub fn write_refusal<W: Writer>(writer: &mut W, refusal: Refusal) -> io::Result<()>
    ensures { Writes (W.told writer.old) (W.told writer.new) (refusal_reply refusal) result }
{
    write_all(writer, refusal_reply(refusal).as_bytes())
}

/// Writes the head of a reply whose body is what was asked. After a fault the writer has taken the
/// beginning of it, and not all.
#[tactic(auto, unfolding(crate::specs::Replies::ok_head))]
pub(crate) fn write_ok_head<W: Writer>(writer: &mut W) -> io::Result<()>
    ensures { Writes (W.told writer.old) (W.told writer.new) ok_head result }
{
    write_all(
        writer,
        b"HTTP/1.1 200 OK\r\nContent-Type: text/plain\r\nConnection: close\r\n\r\n",
    )
}

/// The reply to a request that is refused.
#[tactic(auto, unfolding(crate::specs::Replies::refusal_reply))]
fn refusal_reply(refusal: Refusal) -> ShortText
    ensures { result ≡ refusal_reply refusal }
{
    let mut reply = ShortText::new();
    reply.push(b"HTTP/1.1 ");
    push_words(&mut reply, refusal);
    push_fields(&mut reply, refusal);
    push_words(&mut reply, refusal);
    reply.push(b"\n");
    reply
}

/// Appends the fields of a refusal, and the empty line after them. The bounds on lengths here keep
/// the reply within the 320 bytes of a `ShortText`.
#[tactic(auto, using(crate::proofs::ReplyLemmas::allow_short))]
fn push_fields(reply: &mut ShortText, refusal: Refusal)
    requires { length reply.old ≤ 48 }
    ensures value { reply.new ≡ reply.old ++ refusal_fields refusal }
    ensures short { length reply.new ≤ length reply.old + 100 }
{
    reply.push(b"\r\nContent-Type: text/plain\r\nContent-Length: ");
    reply.push_number(body_length(refusal) as u64);
    reply.push(b"\r\nConnection: close\r\n");
    reply.push(allow_line(refusal).as_bytes());
    reply.push(b"\r\n");
}

/// Appends the status code and its reason words.
#[tactic(auto, using(crate::proofs::ReplyLemmas::reason_short))]
fn push_words(reply: &mut ShortText, refusal: Refusal)
    requires { length reply.old ≤ 200 }
    ensures value { reply.new ≡ reply.old ++ status_words refusal }
    ensures short { length reply.new ≤ length reply.old + 35 }
{
    reply.push(status(refusal).as_str().as_bytes());
    reply.push(b" ");
    reply.push(reason(refusal).as_bytes());
}

/// The status code of a refusal (RFC 9110, 15; RFC 6585, 5).
fn status(refusal: Refusal) -> StatusCode
    ensures { result ≡ status_of refusal }
{
    match refusal {
        Refusal::HeadTooLarge => StatusCode::REQUEST_HEADER_FIELDS_TOO_LARGE,
        Refusal::BadRequest => StatusCode::BAD_REQUEST,
        Refusal::NotImplemented => StatusCode::NOT_IMPLEMENTED,
        Refusal::NotFound => StatusCode::NOT_FOUND,
        Refusal::MethodNotAllowed(_) => StatusCode::METHOD_NOT_ALLOWED,
        Refusal::LengthRequired => StatusCode::LENGTH_REQUIRED,
        Refusal::PayloadTooLarge => StatusCode::PAYLOAD_TOO_LARGE,
        Refusal::Unavailable => StatusCode::SERVICE_UNAVAILABLE,
    }
}

/// The reason words of the status.
#[tactic(auto, using(crate::proofs::ReplyLemmas::reason_known))]
fn reason(refusal: Refusal) -> &'static str
    ensures { result.now ≡ reason_of refusal }
{
    match status(refusal).canonical_reason() {
        Some(reason) => reason,
        None => "",
    }
}

/// How many bytes the body of a refusal has: the status in words, and an LF.
#[tactic(auto, using(crate::proofs::ReplyLemmas::lengths))]
fn body_length(refusal: Refusal) -> usize
    ensures { result ≡ length (status_words refusal) + 1 }
{
    reason(refusal).len() + 5
}

/// The line that names the method of the page, where another was refused (RFC 9110, 10.2.1).
fn allow_line(refusal: Refusal) -> &'static str
    ensures { result.now ≡ allow_line refusal }
{
    match refusal {
        Refusal::MethodNotAllowed(page) => match page {
            Page::Submissions => "Allow: POST\r\n",
            Page::Query | Page::Dump => "Allow: GET\r\n",
        },
        _ => "",
    }
}
