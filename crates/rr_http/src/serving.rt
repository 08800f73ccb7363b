//! Serving a connection: what it wants is found, done, and answered. `Both` serves each one so.

ghost use Rattle.std.specs.Prelude.{◌≡◌, ◌≤◌, false, length};
ghost use Rattle.rr_desk.specs.Turns.{conn_visit};
ghost use Rattle.rr_http.specs.Asked.{view_of};
ghost use Rattle.rr_http.specs.Registrars.{Leaves};
ghost use Rattle.rr_http.specs.Requests.{HasQueryWithin};
ghost use Rattle.rr_http.specs.Serving.{Serves, ServesAsks, ServesBody, SubmitsRead, end_by};
ghost use Rattle.rr_http.specs.ServingParts.{ServesHead};
ghost use Rattle.rr_http.specs.Wants.{IsHead};

use crate::answering::{answer_query, give_dump, refuse, submit_body, write_answer};
use crate::asking::{Refusal, Requested, read_request};
use crate::body_reading::{BodyEnd, read_body};
use crate::body_size::BodySize;
use crate::heads::{HEAD_LIMIT, Head, read_head};
use crate::registrar::Registrar;
use crate::replying::write_ok_head;
use rr_desk::ConnFault;
use rr_io::{Connection, Writer};
use std::alloc::Global;

/// Serves one connection by whois or HTTP: reads what it wants, asks the desk, and writes the reply
/// (RFC 3912, RFC 9112). By whois the reply is the desk's answer to the first line. By HTTP it is a
/// head and the answer to a query with its percent escapes read, the public dump, or the report on
/// a submission. Or it is a refusal, and the desk is not asked.
///
/// The error is that a read of the connection failed, otherwise that a write did (the law
/// `ends_tell_failed_calls`). After a failed write only the beginning of the reply is written.
/// Where a read fails before it is known what the connection wants, nothing is written, and the
/// desk stays as it is.
///
/// A body is submitted as far as it came, without an item that misses bytes. Of submissions only a
/// fault of the store stops the desk. After any other end of one it keeps what it is to keep
/// (`Kept` of its ledger): a desk over tables, the rows of its registry. A registry of its source
/// stays one. Where a prefix is held, and each item up to a fault of the store is foreign to its
/// holders or their own, nobody else changes what they hold.
///
/// By HTTP a stopped desk is not asked, and the reply is 503, unless the request is refused anyway.
/// The reply is 503, too, where memory runs out for a body, of which nothing more is read then.
/// Where not even the head of a reply by HTTP can be written, the desk is not asked. Where memory
/// runs out for a dump, the reply ends early, which is no error. However serving ends, what is to
/// last of the desk (`Lasts`) lasts, and its settings stay.
pub fn serve_one<D: Registrar, C: Connection>(
    alloc: Global,
    desk: &mut D,
    conn: &mut C,
) -> Result<(), ConnFault>
    ensures serves { Serves D.Registrar desk.old desk.new
        (conn_visit C.Reader C.Writer conn.old conn.new result) }
    ensures leaves { Leaves D.ledger D.settings desk.old desk.new }
{
    let mut buf = [0u8; HEAD_LIMIT];
    match read_head(conn, &mut buf) {
        Ok((head, count)) => serve_head(alloc, desk, head, &buf[..count], conn),
        Err(_) => Err(ConnFault::Read),
    }
}

/// Serves a connection of which these bytes were read, by what stands at their head.
fn serve_head<D: Registrar, C: Connection>(
    alloc: Global,
    desk: &mut D,
    head: Head,
    read: &[u8],
    conn: &mut C,
) -> Result<(), ConnFault>
    requires head { IsHead read.now head }
    requires short { length read.now ≤ HEAD_LIMIT }
    ensures { ServesHead D.Registrar read.now desk.old desk.new
        (conn_visit C.Reader C.Writer conn.old conn.new result) }
{
    match head {
        Head::Whois(count) => write_answer(alloc, desk, &read[..count], conn),
        Head::Http(count) => {
            let asked = read_request(&read[..count]);
            serve_asked(alloc, desk, &read[count..], asked, conn)
        }
        Head::Refused(refusal) => refuse(conn, refusal),
    }
}

/// Does what a request asks; these bytes came with its head.
fn serve_asked<D: Registrar, C: Connection>(
    alloc: Global,
    desk: &mut D,
    buffered: &[u8],
    asked: Requested<'_>,
    conn: &mut C,
) -> Result<(), ConnFault>
    requires { HasQueryWithin HEAD_LIMIT (view_of asked) }
    ensures { ServesAsks D.Registrar buffered.now (view_of asked.entry) desk.old desk.new
        (conn_visit C.Reader C.Writer conn.old conn.new result) }
{
    match asked {
        Requested::Refused(refusal) => refuse(conn, refusal),
        Requested::Submission(size) => serve_submission(alloc, desk, buffered, size, conn),
        Requested::Query(escaped) => answer_query(alloc, desk, escaped, conn),
        Requested::Dump => give_dump(alloc, desk, conn),
    }
}

/// Reads a body of this size and submits it; these of its bytes came with the head.
fn serve_submission<D: Registrar, C: Connection>(
    alloc: Global,
    desk: &mut D,
    buffered: &[u8],
    size: BodySize,
    conn: &mut C,
) -> Result<(), ConnFault>
    ensures { ServesBody D.Registrar buffered.now size desk.old desk.new
        (conn_visit C.Reader C.Writer conn.old conn.new result) }
{
    if desk.stopped() {
        return refuse(conn, Refusal::Unavailable);
    }
    match read_body(alloc, conn, buffered, size) {
        Ok((body, end)) => {
            let failed = submit_read(alloc, desk, &body, size, conn);
            end_by(end, failed)
        }
        Err(_) => refuse(conn, Refusal::Unavailable),
    }
}

/// Submits a body of this size of which these bytes came, writes the report after the head of the
/// reply, and says whether a write failed. That head is written first, because each line of the
/// report is written once its item is decided.
fn submit_read<D: Registrar, W: Writer>(
    alloc: Global,
    desk: &mut D,
    body: &[u8],
    size: BodySize,
    writer: &mut W,
) -> bool
    requires within { length body.now ≤ size }
    requires running { D.ledger.is_stopped desk.old ≡ false }
    ensures { (end : BodyEnd) → SubmitsRead D.Registrar body.now size end desk.old desk.new
        (W.told writer.old) (W.told writer.new) (end_by end result) }
{
    let failed = writer.failed_writes();
    match write_ok_head(writer) {
        Ok(()) => {
            // The report tells what became of it.
            let _ = submit_body(alloc, desk, body, size.bytes() - body.len(), writer);
            failed < writer.failed_writes()
        }
        Err(_) => true,
    }
}

/// How serving a connection ends whose body ended so, where a write failed or none did.
fn end_by(end: BodyEnd, write_failed: bool) -> Result<(), ConnFault>
    ensures { result ≡ end_by end write_failed }
{
    match end {
        BodyEnd::Broken => Err(ConnFault::Read),
        BodyEnd::Whole | BodyEnd::Short => {
            if write_failed {
                Err(ConnFault::Write)
            } else {
                Ok(())
            }
        }
    }
}
