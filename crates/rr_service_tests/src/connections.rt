//! Connections to desks, and their replies.
use crate::desks::{Office, expect_text};
use crate::memory_peers::MemoryInput;
use rr_desk::ConnFault;
use std::alloc::{AllocError, Global};
use std::process::Abort;
use std::test::Fail;

/// A connection that gives these bytes and then ends, at most `step` of them in a call, and takes
/// all that is written.
pub fn ending(bytes: &[u8], step: usize) -> MemoryInput<'_> {
    MemoryInput {
        bytes,
        step,
        reads_end: usize::MAX,
        writes_end: usize::MAX,
    }
}

/// Asserts how the serving of a connection ends, and what it is answered.
pub fn expect_served<D: Office, R: Abort + AllocGlobal>(
    rt: &R,
    desk: &mut D,
    input: MemoryInput<'_>,
    wanted: Result<(), ConnFault>,
    reply: &[u8],
) -> Result<(), Fail> {
    let (answer, answered) = desk.served(rt.alloc(), input);
    assert_eq!(rt; answer, wanted);
    expect_text(rt, &answered, str::from_utf8(reply)?)
}

/// Asserts that a connection is served that gives these bytes and then ends, at most `step` of them
/// in a call, and what it is answered.
pub fn expect_reply<D: Office, R: Abort + AllocGlobal>(
    rt: &R,
    desk: &mut D,
    bytes: &[u8],
    step: usize,
    reply: &str,
) -> Result<(), Fail> {
    expect_served(rt, desk, ending(bytes, step), Ok(()), reply.as_bytes())
}

/// What is replied to a request.
#[derive(Clone, Copy)]
pub enum Reply<'a> {
    /// This text.
    Text(&'a str),
    /// The page with this body.
    Page(&'a str),
    /// A refusal with this status and reason, and with the line that allows a method, if any.
    Refusal(&'a str, &'a str),
}

impl Reply<'_> {
    /// Its bytes.
    pub fn written(self, alloc: Global) -> Result<String, AllocError> {
        match self {
            Reply::Text(text) => text.to_string(alloc),
            Reply::Page(body) => page(alloc, body),
            Reply::Refusal(words, allow) => refusal(alloc, words, allow),
        }
    }
}

/// The page with this body.
fn page(alloc: Global, body: &str) -> Result<String, AllocError> {
    format!(in alloc;
        "HTTP/1.1 200 OK\r\nContent-Type: text/plain\r\nConnection: close\r\n\r\n{body}"
    )
}

/// The refusal with this status and reason, and with this line.
fn refusal(alloc: Global, words: &str, allow: &str) -> Result<String, AllocError> {
    let length = words.len() + 1;
    format!(in alloc;
        "HTTP/1.1 {words}\r\nContent-Type: text/plain\r\nContent-Length: {length}\r\n\
         Connection: close\r\n{allow}\r\n{words}\n"
    )
}

/// Asserts what is replied to requests in turn.
pub fn expect_replies<D: Office, R: Abort + AllocGlobal>(
    rt: &R,
    desk: &mut D,
    cases: &[(&str, Reply<'_>)],
) -> Result<(), Fail> {
    for (request, reply) in cases {
        let reply = reply.written(rt.alloc())?;
        expect_reply(rt, desk, request.as_bytes(), 50, reply.as_str())?;
    }
    Ok(())
}
