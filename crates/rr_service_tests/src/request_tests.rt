//! What no clause says: that heads are read in pieces of any size, and what worked requests ask and
//! are replied. What is expected comes from the rules, read by hand.
use rr_http::{
    BodyEnd, BodySize, HEAD_LIMIT, Head, Page, Refusal, Requested, read_body, read_head,
    read_request, write_refusal,
};
use rr_io::{Counted, Cut, Reader, Writer};
use std::alloc::{AllocError, Global};
use std::io;
use std::process::Abort;
use std::test::Fail;

/// What a connection wants, without what it borrows.
#[derive(Clone, Copy, Debug, PartialEq, Eq)]
enum Seen {
    Failed,
    Whois(usize),
    Refused(Refusal),
    Submission(usize, usize),
    Query(usize),
    Dump,
}

/// What a connection wants that gives these bytes, at most `step` in a read.
fn outcome(text: &[u8], step: usize) -> Seen {
    let mut buf = [0u8; HEAD_LIMIT];
    let mut reader = Cut::new(Counted::new(text), step.max(1), 100_000);
    match read_head(&mut reader, &mut buf) {
        Ok((head, count)) => wanted(head, &buf[..count]),
        Err(_) => Seen::Failed,
    }
}

/// What a connection wants of which these bytes were read, with this at their head.
fn wanted(head: Head, read: &[u8]) -> Seen {
    match head {
        Head::Whois(count) => Seen::Whois(count),
        Head::Http(count) => match read.get(..count) {
            Some(head) => summary(count, head),
            None => Seen::Failed,
        },
        Head::Refused(refusal) => Seen::Refused(refusal),
    }
}

fn summary(place: usize, head: &[u8]) -> Seen {
    match read_request(head) {
        Requested::Refused(refusal) => Seen::Refused(refusal),
        Requested::Submission(size) => Seen::Submission(place, size.bytes()),
        Requested::Query(escaped) => Seen::Query(escaped.len()),
        Requested::Dump => Seen::Dump,
    }
}

/// Asserts what a connection wants that gives these bytes, at most `step` in a read.
fn expect_seen<R: Abort>(rt: &R, text: &[u8], step: usize, wanted: Seen) {
    let found = outcome(text, step);
    assert_eq!(rt; found, wanted, "{step} bytes a read of {text:?}");
}

/// Asserts what connections want that give these bytes, at most seven in a read.
fn expect_each<R: Abort>(rt: &R, cases: &[(&[u8], Seen)]) {
    for (text, wanted) in cases {
        expect_seen(rt, text, 7, *wanted);
    }
}

/// A submission whose head has 52 bytes, with its body.
const WHOLE: &[u8] = b"POST /submissions HTTP/1.1\r\nContent-Length: 007 \r\n\r\nabcdefg";

#[test]
fn a_head_is_read_in_pieces_of_any_size(rt: HostRuntime) {
    for step in 1..WHOLE.len() {
        expect_seen(&rt, WHOLE, step, Seen::Submission(52, 7));
    }
}

/// The same without its body.
const HEAD: &[u8] = b"POST /submissions HTTP/1.1\r\nContent-Length: 007 \r\n\r\n";

#[test]
fn a_head_cut_at_each_place_is_whois_or_refused(rt: HostRuntime) {
    let head = HEAD;
    for end in 0..head.len() {
        let wanted = if end < 26 {
            Seen::Whois(end)
        } else {
            Seen::Refused(Refusal::BadRequest)
        };
        expect_seen(&rt, &head[..end], 5, wanted);
    }
}

/// A request for the dump with so many fields, each of so many bytes beside its name.
fn dump_request(alloc: Global, fields: usize, value: usize) -> Result<Vec<u8>, AllocError> {
    let mut text = Vec::from_slice(alloc, b"GET /dump HTTP/1.1\r\n")?;
    for _ in 0..fields {
        text.extend_from_slice(b"a:")?;
        text.resize(text.len().saturating_add(value), b'b')?;
        text.extend_from_slice(b"\r\n")?;
    }
    text.extend_from_slice(b"\r\n")?;
    Ok(text)
}

/// How many fields a request for the dump has and how many bytes each beside its name, its size,
/// and what is wanted.
type Size = (usize, usize, usize, Seen);

/// Asserts what requests of these sizes want.
fn expect_sizes<R: Abort + AllocGlobal>(rt: &R, cases: &[Size]) -> Result<(), AllocError> {
    for (fields, value, size, wanted) in cases {
        let text = dump_request(rt.alloc(), *fields, *value)?;
        assert_eq!(rt; text.len(), *size);
        expect_seen(rt, &text, 4_096, *wanted);
    }
    Ok(())
}

const FIELDS: &[Size] = &[
    (64, 1, 342, Seen::Dump),
    (65, 1, 347, Seen::Refused(Refusal::BadRequest)),
];

#[test]
fn a_head_has_at_most_64_fields(rt: HostRuntime) -> Result<(), Fail> {
    Ok(expect_sizes(&rt, FIELDS)?)
}

const BYTES: &[Size] = &[
    (1, 8_165, 8_191, Seen::Dump),
    (1, 8_166, 8_192, Seen::Dump),
    (1, 8_167, 8_193, Seen::Refused(Refusal::HeadTooLarge)),
];

#[test]
fn a_head_has_at_most_8192_bytes(rt: HostRuntime) -> Result<(), Fail> {
    Ok(expect_sizes(&rt, BYTES)?)
}

/// What ends a first line of 8,192 bytes, and what is wanted.
const LINES: &[(&[u8], Seen)] = &[
    (b"a", Seen::Whois(8_192)),
    (b" HTTP/1.1", Seen::Refused(Refusal::HeadTooLarge)),
];

#[test]
fn a_first_line_of_8192_bytes_is_whois(rt: HostRuntime) -> Result<(), Fail> {
    for (end, wanted) in LINES {
        let mut text = Vec::new(rt.alloc());
        text.resize(8_192 - end.len().min(8_192), b'a')?;
        text.extend_from_slice(end)?;
        expect_seen(&rt, &text, 1_000, *wanted);
    }
    Ok(())
}

/// Submissions, and what is wanted: a body has one length of digits alone.
const LENGTHS: &[(&[u8], Seen)] = &[
    (
        b"POST /submissions HTTP/1.1\r\nA: b\r\n\r\n",
        Seen::Refused(Refusal::LengthRequired),
    ),
    (
        b"POST /submissions HTTP/1.1\r\nContent-Length: 0\r\n\r\n",
        Seen::Submission(49, 0),
    ),
    (
        b"POST /submissions HTTP/1.1\r\ncontent-length:\t5 \r\n\r\n",
        Seen::Submission(50, 5),
    ),
    (
        b"POST /submissions HTTP/1.1\r\nContent-Length: 00000000000000000000000000000005\r\n\r\n",
        Seen::Submission(80, 5),
    ),
    (
        b"POST /submissions HTTP/1.1\r\nContent-Length: 1048576\r\n\r\n",
        Seen::Submission(55, 1_048_576),
    ),
    (
        b"POST /submissions HTTP/1.1\r\nContent-Length: 1048577\r\n\r\n",
        Seen::Refused(Refusal::PayloadTooLarge),
    ),
    (
        b"POST /submissions HTTP/1.1\r\n\
          Content-Length: 99999999999999999999999999999999999999\r\n\r\n",
        Seen::Refused(Refusal::PayloadTooLarge),
    ),
    (
        b"POST /submissions HTTP/1.1\r\nContent-Length: +5\r\n\r\n",
        Seen::Refused(Refusal::BadRequest),
    ),
    (
        b"POST /submissions HTTP/1.1\r\nContent-Length: -5\r\n\r\n",
        Seen::Refused(Refusal::BadRequest),
    ),
    (
        b"POST /submissions HTTP/1.1\r\nContent-Length: 5 5\r\n\r\n",
        Seen::Refused(Refusal::BadRequest),
    ),
    (
        b"POST /submissions HTTP/1.1\r\nContent-Length: 5, 5\r\n\r\n",
        Seen::Refused(Refusal::BadRequest),
    ),
    (
        b"POST /submissions HTTP/1.1\r\nContent-Length:\r\n\r\n",
        Seen::Refused(Refusal::BadRequest),
    ),
    (
        b"POST /submissions HTTP/1.1\r\nContent-Length: 5\r\nContent-Length: 5\r\n\r\n",
        Seen::Refused(Refusal::BadRequest),
    ),
    (
        b"POST /submissions HTTP/1.1\r\nContent-Length: x\r\nTransfer-Encoding: chunked\r\n\r\n",
        Seen::Refused(Refusal::NotImplemented),
    ),
];

#[test]
fn a_body_has_one_length_of_digits_alone(rt: HostRuntime) {
    expect_each(&rt, LENGTHS);
}

/// Requests by their paths and methods, and lines that are none.
const PATHS: &[(&[u8], Seen)] = &[
    (b"GET /dump?x=1 HTTP/1.0\n\n", Seen::Dump),
    (b"GET /query/a%2Fb HTTP/1.1\n\n", Seen::Query(5)),
    (
        b"GET /query/a/b HTTP/1.1\n\n",
        Seen::Refused(Refusal::NotFound),
    ),
    (
        b"GET /query/ HTTP/1.1\n\n",
        Seen::Refused(Refusal::NotFound),
    ),
    (b"GET /Dump HTTP/1.1\n\n", Seen::Refused(Refusal::NotFound)),
    (
        b"GET /nothing HTTP/1.1\n\n",
        Seen::Refused(Refusal::NotFound),
    ),
    (
        b"PUT /dump HTTP/1.1\n\n",
        Seen::Refused(Refusal::MethodNotAllowed(Page::Dump)),
    ),
    (
        b"get /query/a HTTP/1.1\n\n",
        Seen::Refused(Refusal::MethodNotAllowed(Page::Query)),
    ),
    (
        b"GET /dump  HTTP/1.1\n\n",
        Seen::Refused(Refusal::BadRequest),
    ),
    (b"object mntner a-mnt\r\n", Seen::Whois(19)),
    (b"a\r", Seen::Whois(2)),
    (b"", Seen::Whois(0)),
];

#[test]
fn paths_and_methods_are_told_apart(rt: HostRuntime) {
    expect_each(&rt, PATHS);
}

/// Bytes above 127 and line ends in targets, names, methods and values.
const HIGH: &[(&[u8], Seen)] = &[
    (b"GET /query/\xc3\xa9 HTTP/1.1\r\n\r\n", Seen::Query(2)),
    (
        b"GET /\xc3\xa9 HTTP/1.1\r\n\r\n",
        Seen::Refused(Refusal::NotFound),
    ),
    (
        b"GET /query/\x80 HTTP/1.1\r\n\r\n",
        Seen::Refused(Refusal::BadRequest),
    ),
    (
        b"GET /dump HTTP/1.1\r\nA\x80: b\r\n\r\n",
        Seen::Refused(Refusal::BadRequest),
    ),
    (
        b"G\x80T /dump HTTP/1.1\r\n\r\n",
        Seen::Refused(Refusal::BadRequest),
    ),
    (
        b"GET /dump HTTP/1.1\r\nA: b\rc\r\n\r\n",
        Seen::Refused(Refusal::BadRequest),
    ),
    (
        b"GET /dump HTTP/1.1\r\nA: b\r\n c\r\n\r\n",
        Seen::Refused(Refusal::BadRequest),
    ),
];

#[test]
fn high_bytes_stand_in_targets_and_values(rt: HostRuntime) {
    expect_each(&rt, HIGH);
}

#[test]
fn each_high_byte_stands_in_a_value(rt: HostRuntime) {
    let mut text = *b"GET /dump HTTP/1.1\r\nA: b\r\n\r\n";
    for byte in 128..=255u8 {
        text[23] = byte;
        expect_seen(&rt, &text, 3, Seen::Dump);
    }
}

/// Two refusals, one after the other.
const WRITTEN: &str = "\
HTTP/1.1 411 Length Required\r
Content-Type: text/plain\r
Content-Length: 20\r
Connection: close\r
\r
411 Length Required
HTTP/1.1 405 Method Not Allowed\r
Content-Type: text/plain\r
Content-Length: 23\r
Connection: close\r
Allow: POST\r
\r
405 Method Not Allowed
";

#[test]
fn refusals_are_whole_replies(rt: HostRuntime) {
    let mut sink = Counted::new(Vec::new(rt.alloc()));
    assert!(rt; write_refusal(&mut sink, Refusal::LengthRequired).is_ok());
    assert!(rt; write_refusal(&mut sink, Refusal::MethodNotAllowed(Page::Submissions)).is_ok());
    assert_eq!(rt; sink.into_inner().as_slice(), WRITTEN.as_bytes());
}

/// A writer that counts its calls.
#[derive(Drop)]
struct Calls<W> {
    inner: W,
    calls: u64,
}

impl<W: Writer> Writer for Calls<W> {
    ghost told = { λ c. W.told c.inner };

    fn write(&mut self, bytes: &[u8]) -> io::Result<usize> {
        self.calls = self.calls.saturating_add(1);
        self.inner.write(bytes)
    }

    fn failed_writes(&self) -> u64 {
        self.inner.failed_writes()
    }
}

/// Each refusal.
const REFUSALS: &[Refusal] = &[
    Refusal::HeadTooLarge,
    Refusal::BadRequest,
    Refusal::NotImplemented,
    Refusal::NotFound,
    Refusal::MethodNotAllowed(Page::Dump),
    Refusal::LengthRequired,
    Refusal::PayloadTooLarge,
    Refusal::Unavailable,
];

#[test]
fn a_refusal_is_written_in_one_call(rt: HostRuntime) {
    for refusal in REFUSALS {
        let inner = Counted::new(Vec::new(rt.alloc()));
        let mut sink = Calls { inner, calls: 0 };
        assert!(rt; write_refusal(&mut sink, *refusal).is_ok());
        assert_eq!(rt; sink.calls, 1, "{refusal:?}");
    }
}

/// Asserts the body that is read after these bytes of it, and how it ends.
fn expect_body<T: Reader, R: Abort + AllocGlobal>(
    rt: &R,
    reader: &mut T,
    buffered: &[u8],
    wanted: (&[u8], BodyEnd),
) -> Result<(), AllocError> {
    let size = BodySize::new(4).unwrap();
    let (body, end) = read_body(rt.alloc(), reader, buffered, size)?;
    assert_eq!(rt; (body.as_slice(), end), wanted);
    Ok(())
}

#[test]
fn a_body_is_short_where_its_bytes_do_not_come(rt: HostRuntime) -> Result<(), Fail> {
    let mut reader = Cut::new(Counted::new(b"cdef".as_slice()), 1, 3);
    expect_body(&rt, &mut reader, b"ab", (b"abcd", BodyEnd::Whole))?;
    expect_body(&rt, &mut reader, b"", (b"e", BodyEnd::Broken))?;
    let mut ended = Counted::new(b"g".as_slice());
    expect_body(&rt, &mut ended, b"ab", (b"abg", BodyEnd::Short))?;
    Ok(())
}
