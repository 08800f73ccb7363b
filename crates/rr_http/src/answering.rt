//! The answers to what a connection wants: a query, the public dump, a submission, or a refusal.
//! `serving` gives them.

ghost use Rattle.std.specs.Prelude.{◌≡◌, ◌≤◌, [], Err, false, length, take};
ghost use Rattle.percent_encoding.specs.Percent.{percent_decode};
ghost use Rattle.rr_http.specs.Answering.{AnswersDump, AnswersQuery, AnswersRunning};
ghost use Rattle.rr_http.specs.Answering.{RepliesWithAnswer, SubmitsBody, WritesReply, dump_end};
ghost use Rattle.rr_http.specs.Registrars.{LeavesSubmitted};
ghost use Rattle.rr_http.specs.Replies.{refusal_reply};

use crate::asking::Refusal;
use crate::body::Body;
use crate::body_size::BODY_LIMIT;
use crate::heads::HEAD_LIMIT;
use crate::registrar::Registrar;
use crate::replying::{write_ok_head, write_refusal};
use percent_encoding::percent_decode;
use rr_desk::{ConnFault, DeskDumpFault, Done, SubmissionFault};
use rr_io::Writer;
use std::alloc::Global;

/// Refuses a request. The error is that a write failed: the writer has taken the beginning of the
/// reply, and not all.
pub(crate) fn refuse<W: Writer>(writer: &mut W, refusal: Refusal) -> Result<(), ConnFault>
    ensures { WritesReply (refusal_reply refusal)
        (W.told writer.old) (W.told writer.new) result }
{
    match write_refusal(writer, refusal) {
        Ok(()) => Ok(()),
        Err(_) => Err(ConnFault::Write),
    }
}

/// Asks the desk and writes its answer, alone (RFC 3912, 2) or after a head. The error is that a
/// write failed: the writer has taken the beginning of the answer, and not all.
pub(crate) fn write_answer<D: Registrar, W: Writer>(
    alloc: Global,
    desk: &mut D,
    query: &[u8],
    writer: &mut W,
) -> Result<(), ConnFault>
    ensures { RepliesWithAnswer D.Answers [] query.now desk.old desk.new
        (W.told writer.old) (W.told writer.new) result }
{
    match desk.answer(alloc, query, writer) {
        Ok(()) => Ok(()),
        Err(_) => Err(ConnFault::Write),
    }
}

/// Answers a query by HTTP, of at most 8,192 bytes, whose percent escapes are read first (RFC 3986,
/// 2.1). If the desk is stopped it is not asked, and the reply is 503. Nor is it asked if not even
/// the head of the reply can be written. The error is that a write failed: the writer has taken the
/// beginning of the reply, and not all.
pub(crate) fn answer_query<D: Registrar, W: Writer>(
    alloc: Global,
    desk: &mut D,
    escaped: &[u8],
    writer: &mut W,
) -> Result<(), ConnFault>
    requires { length escaped.now ≤ HEAD_LIMIT }
    ensures { AnswersQuery D.Answers (D.ledger.is_stopped desk.old)
        (percent_decode escaped.now) desk.old desk.new
        (W.told writer.old) (W.told writer.new) result }
{
    if desk.stopped() {
        return refuse(writer, Refusal::Unavailable);
    }
    let mut query = [0u8; HEAD_LIMIT];
    let count = decode(escaped, &mut query);
    give_answer(alloc, desk, &query[..count], writer)
}

/// Writes bytes with their percent escapes read to the front of a buffer (RFC 3986, 2.1), and gives
/// how many these are.
fn decode(escaped: &[u8], decoded: &mut [u8]) -> usize
    requires { length escaped.now ≤ length decoded.old }
    ensures within { result ≤ length decoded.new }
    ensures decodes { take result decoded.new ≡ percent_decode escaped.now }
{
    let mut count = 0usize;
    for byte in percent_decode(escaped) {
        decoded[count] = byte;
        count += 1;
    }
    count
}

/// Writes the head of a reply, and after it the answer to a query; the desk is asked once the head
/// is written. The error is that a write failed: the writer has taken the beginning of the reply,
/// and not all.
fn give_answer<D: Registrar, W: Writer>(
    alloc: Global,
    desk: &mut D,
    query: &[u8],
    writer: &mut W,
) -> Result<(), ConnFault>
    ensures { AnswersRunning D.Answers query.now desk.old desk.new
        (W.told writer.old) (W.told writer.new) result }
{
    match write_ok_head(writer) {
        Ok(()) => write_answer(alloc, desk, query, writer),
        Err(_) => Err(ConnFault::Write),
    }
}

/// Gives the public dump by HTTP, or 503 if the desk is stopped. Where memory runs out the dump
/// ends early, which is not an error. The error is that a write failed: the writer has taken the
/// beginning of the reply, and not all.
pub(crate) fn give_dump<D: Registrar, W: Writer>(
    alloc: Global,
    desk: &D,
    writer: &mut W,
) -> Result<(), ConnFault>
    ensures { AnswersDump (D.dumped desk.now) (D.ledger.is_stopped desk.now)
        (W.told writer.old) (W.told writer.new) result }
{
    if desk.stopped() {
        return refuse(writer, Refusal::Unavailable);
    }
    match write_ok_head(writer) {
        Ok(()) => match desk.dump(alloc, writer) {
            Ok(()) => Ok(()),
            Err(fault) => dump_end(fault),
        },
        Err(_) => Err(ConnFault::Write),
    }
}

/// How serving a connection ends whose dump was cut short.
fn dump_end(fault: DeskDumpFault) -> Result<(), ConnFault>
    ensures { result ≡ dump_end (Err fault) }
{
    match fault {
        DeskDumpFault::Write => Err(ConnFault::Write),
        DeskDumpFault::Memory | DeskDumpFault::Stopped => Ok(()),
    }
}

/// Submits to a desk that runs a body of which these bytes came, at most 1,048,576, and `missing`
/// more did not. Writes the report; no item is decided that misses bytes. A read fault says that
/// bytes are missing: the items that came whole are decided. After a write fault those up to the
/// one whose line could not be written are, or all of them. After a fault of the store, which alone
/// stops the desk, those before the item at which it came are. If memory ran out before the first
/// item, none are. The fault is never that the desk had stopped. What is left of the desk is what
/// `Registrar::submit` leaves.
pub(crate) fn submit_body<D: Registrar, W: Writer>(
    alloc: Global,
    desk: &mut D,
    bytes: &[u8],
    missing: usize,
    writer: &mut W,
) -> Result<Done, SubmissionFault>
    requires small { length bytes.now ≤ BODY_LIMIT }
    requires running { D.ledger.is_stopped desk.old ≡ false }
    ensures submits { SubmitsBody D.ledger (D.settings desk.old).source bytes.now missing
        desk.old desk.new (W.told writer.old) (W.told writer.new) result }
    ensures leaves { LeavesSubmitted D.ledger D.settings desk.old desk.new result }
{
    let mut body = Body::new(bytes, missing);
    desk.submit(alloc, &mut body, writer)
}
