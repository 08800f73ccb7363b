//! Laws of connections, for readers and for the proofs of other crates. Nothing calls these
//! functions.

ghost use Rattle.rr_http.specs.Faults.{EndsTellFailedCalls};
ghost use Rattle.rr_http.specs.ReplyBytes.{AnswersWithItsReply, AnswersWithItsReport};
ghost use Rattle.rr_http.specs.ToldBytes.{BodyFollowsItsHead, WantsByItsBytes};
ghost use Rattle.rr_http.specs.TurnEvents.{TurnsAreEvents};
ghost use Rattle.rr_http.specs.Wants.{WantsByItsHead};

use crate::registrar::Registrar;
use sqlite::Alter;

/// What is wanted by the head of a connection, once enough of it was read to know that, is wanted
/// by all that the connection gives, whatever may follow. The head has at most 8,192 bytes. Where
/// the input ended with it, nothing follows.
pub fn wants_by_its_head()
    ensures { WantsByItsHead }
{}

/// If a connection tells its bytes, and its head was read until it was known what is wanted, all of
/// its bytes want that. It is what is wanted whatever may follow the head; where the input ended
/// with the head, nothing follows.
pub fn wants_by_its_bytes()
    ensures { WantsByItsBytes }
{}

/// The body that is read after the head of a request, on a connection that tells its bytes, is what
/// stands after that head. It is as many bytes as its size, or all if the input ends before that,
/// or as many as came before a read failed.
pub fn body_follows_its_head()
    ensures { BodyFollowsItsHead }
{}

/// A connection that tells its bytes, and to which nothing was written, is answered with its reply,
/// by whois or HTTP. The desk is left as that reply leaves it. `IsReply` says both, by all bytes
/// that the connection gives, the desk, and how serving ended. The reply is whole, or cut off where
/// a write failed; a dump may end early also without that, as where memory ran out. Nothing is
/// answered if a read failed before it was known what is wanted.
pub fn answers_with_its_reply<D: Registrar>()
    ensures { AnswersWithItsReply D.Registrar }
{}

/// If a submission of a body ended well, no byte of the body is missing, and each of its items was
/// decided, in order. What is answered is the head of a reply and the whole report. The writer
/// tells its bytes, and had taken none before that head.
pub fn answers_with_its_report<D: Registrar>()
    ensures { AnswersWithItsReport D.Registrar }
{}

/// If one more failed call can be counted on each side, as of a connection that a listener has just
/// accepted, how serving it ended tells its failed calls. `Ok` says that none failed, `Read` that a
/// read did, and `Write` that a write did and no read.
pub fn ends_tell_failed_calls<D: Registrar>()
    ensures { EndsTellFailedCalls D.Registrar }
{}

/// The turns of a desk that is served by whois and HTTP are events of a history of its database,
/// from the desk before them to that after them. Each is a query with its answer, the public dump
/// or a submission, by the bytes of the connection and of the reply to it, or does nothing.
pub fn turns_are_events<S: Alter>()
    ensures { TurnsAreEvents S.Store }
{}
