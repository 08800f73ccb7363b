//! Whole connections, and the bytes that answer them. What is expected comes from the rules, read
//! by hand.
use crate::connections::{Reply, ending, expect_replies, expect_reply, expect_served};
use crate::desks::{Office, Trial, try_new};
use crate::memory_peers::MemoryInput;
use crate::stopped::{stop, try_fused};
use crate::texts::{EXACT, POSTED, POSTED_REPORT, TEN};
use rr_desk::ConnFault;
use std::process::Abort;
use std::test::Fail;

/// The reply to it where 150 bytes come.
const BEGUN: &str = "\
HTTP/1.1 200 OK\r
Content-Type: text/plain\r
Connection: close\r
\r
1 inetnum 10.0.0.0 - 10.255.255.255: added
% read fault after 1 items
";

/// The public text of the root, as an answer.
const ROOT: &str = "\
mntner:         ROOT-MNT
auth:           # filtered
mnt-by:         ROOT-MNT
source:         TEST

";

/// The public dump after that submission.
const DUMP: &str = "\
mntner:         ROOT-MNT
auth:           # filtered
mnt-by:         ROOT-MNT
source:         TEST

as-block:       AS0 - AS65535
mnt-by:         ROOT-MNT
source:         TEST

as-block:       AS65536 - AS4294967295
mnt-by:         ROOT-MNT
source:         TEST

aut-num:        AS1
mnt-by:         ROOT-MNT
source:         TEST

inetnum:        0.0.0.0 - 255.255.255.255
mnt-by:         ROOT-MNT
source:         TEST

inetnum:        10.0.0.0/8
mnt-by:         ROOT-MNT
source:         TEST

% end 6
";

/// A submission of two items without a password, which leaves the registry as it is: its head has
/// 50 bytes, its first paragraph ends with the 51st byte of its body, and the body has 94.
const TWO: &str = "\
POST /submissions HTTP/1.1\r
Content-Length: 94\r
\r
inetnum: 10.0.0.0/8
mnt-by: ROOT-MNT
source: TEST

aut-num: AS1
mnt-by: ROOT-MNT
source: TEST
";

/// The reply to it.
const TWO_REPLY: &str = "\
HTTP/1.1 200 OK\r
Content-Type: text/plain\r
Connection: close\r
\r
1 inetnum 10.0.0.0 - 10.255.255.255: refused E11
2 aut-num AS1: refused E11
% items 2
";

/// The reply where its first paragraph does not come whole.
const NONE_REPLY: &str = "\
HTTP/1.1 200 OK\r
Content-Type: text/plain\r
Connection: close\r
\r
% read fault after 0 items
";

/// The reply where its first paragraph comes whole, and its second does not.
const ONE_REPLY: &str = "\
HTTP/1.1 200 OK\r
Content-Type: text/plain\r
Connection: close\r
\r
1 inetnum 10.0.0.0 - 10.255.255.255: refused E11
% read fault after 1 items
";

/// The reply to a head without its end.
const BAD_REQUEST: &str = "\
HTTP/1.1 400 Bad Request\r
Content-Type: text/plain\r
Content-Length: 16\r
Connection: close\r
\r
400 Bad Request
";

/// The reply to a target that is not a page.
const NOT_FOUND: &str = "\
HTTP/1.1 404 Not Found\r
Content-Type: text/plain\r
Content-Length: 14\r
Connection: close\r
\r
404 Not Found
";

/// The reply to a head of too many bytes.
const TOO_LARGE: &str = "\
HTTP/1.1 431 Request Header Fields Too Large\r
Content-Type: text/plain\r
Content-Length: 36\r
Connection: close\r
\r
431 Request Header Fields Too Large
";

/// Requests that are refused, each with its status, its reason and the field that allows a method.
const REFUSED: &[(&str, Reply<'static>)] = &[
    (
        "GET /dump HTTP/1.1\r\n",
        Reply::Refusal("400 Bad Request", ""),
    ),
    (
        "GET  /dump HTTP/1.1\r\n\r\n",
        Reply::Refusal("400 Bad Request", ""),
    ),
    (
        "GET /dump HTTP/1.1 \r\n\r\n",
        Reply::Refusal("400 Bad Request", ""),
    ),
    (
        "PUT /nothing HTTP/1.1\r\ntransfer-encoding: chunked\r\n\r\n",
        Reply::Refusal("501 Not Implemented", ""),
    ),
    (
        "POST /submissions HTTP/1.1\r\nContent-Length: x\r\nTransfer-Encoding:\r\n\r\n",
        Reply::Refusal("501 Not Implemented", ""),
    ),
    (
        "GET /nothing HTTP/1.1\r\n\r\n",
        Reply::Refusal("404 Not Found", ""),
    ),
    (
        "PUT /nothing HTTP/1.1\r\n\r\n",
        Reply::Refusal("404 Not Found", ""),
    ),
    (
        "GET /query/?a HTTP/1.1\r\n\r\n",
        Reply::Refusal("404 Not Found", ""),
    ),
    (
        "GET /%64ump HTTP/1.1\r\n\r\n",
        Reply::Refusal("404 Not Found", ""),
    ),
    (
        "PUT /submissions HTTP/1.1\r\n\r\n",
        Reply::Refusal("405 Method Not Allowed", "Allow: POST\r\n"),
    ),
    (
        "HEAD /dump HTTP/1.1\r\n\r\n",
        Reply::Refusal("405 Method Not Allowed", "Allow: GET\r\n"),
    ),
    (
        "POST /query/a HTTP/1.1\r\n\r\n",
        Reply::Refusal("405 Method Not Allowed", "Allow: GET\r\n"),
    ),
    (
        "POST /submissions HTTP/1.1\r\n\r\n",
        Reply::Refusal("411 Length Required", ""),
    ),
    (
        "POST /submissions HTTP/1.1\r\nContent-Length: 1048577\r\nContent-Length: 1048577\r\n\r\n",
        Reply::Refusal("400 Bad Request", ""),
    ),
    (
        "POST /submissions HTTP/1.1\r\nContent-Length: 1048577\r\n\r\n",
        Reply::Refusal("413 Payload Too Large", ""),
    ),
];

/// Requests in turn, and what is replied to each.
struct Replies(&'static [(&'static str, Reply<'static>)]);

impl Trial for Replies {
    fn tried<D: Office + Drop, R: Abort + AllocGlobal>(
        &self,
        rt: &R,
        mut desk: D,
    ) -> Result<(), Fail> {
        expect_replies(rt, &mut desk, self.0)
    }
}

#[test]
fn a_request_is_refused_by_the_first_status_that_holds(rt: HostRuntime) -> Result<(), Fail> {
    try_new(&rt, &Replies(REFUSED))
}

/// Heads with a byte that stands after them up to a size, and the replies: heads of 8,192 bytes
/// without their end and of a byte less, and such a line.
const LONG: &[(&str, u8, usize, &str)] = &[
    ("GET /dump HTTP/1.1\r\nA: ", b'b', 8_192, TOO_LARGE),
    ("GET /dump HTTP/1.1\r\nA: ", b'b', 8_191, BAD_REQUEST),
    ("", b'a', 8_192, "% error 2\n"),
];

/// What is so long, and the replies to it.
struct Long;

impl Trial for Long {
    fn tried<D: Office + Drop, R: Abort + AllocGlobal>(
        &self,
        rt: &R,
        mut desk: D,
    ) -> Result<(), Fail> {
        for (head, byte, size, reply) in LONG {
            let mut text = Vec::from_slice(rt.alloc(), head.as_bytes())?;
            text.resize(*size, *byte)?;
            expect_reply(rt, &mut desk, &text, 1, reply)?;
        }
        Ok(())
    }
}

#[test]
fn a_head_of_8192_bytes_without_its_end_is_too_large(rt: HostRuntime) -> Result<(), Fail> {
    try_new(&rt, &Long)
}

/// Requests in turn, and what is given.
const GIVEN: &[(&str, Reply<'static>)] = &[
    (POSTED, Reply::Page(POSTED_REPORT)),
    (
        "GET /query/%2E HTTP/1.1\r\n\r\n",
        Reply::Page("% error 1\n"),
    ),
    ("GET /query/%2e HTTP/1.0\n\n", Reply::Page("% error 1\n")),
    (
        "GET /query/exact%2010.0.0.0%2F8 HTTP/1.1\r\n\r\n",
        Reply::Page(TEN),
    ),
    (
        "GET /query/root%2Dm%6et?exact HTTP/1.1\r\n\r\n",
        Reply::Page(ROOT),
    ),
    (
        "GET /query/ROOT-MNT%0A HTTP/1.1\r\n\r\n",
        Reply::Page("% error 1\n"),
    ),
    (
        "GET /query/ROOT-MNT%zz HTTP/1.1\r\n\r\n",
        Reply::Page("% error 1\n"),
    ),
    (
        "GET /query/closest+10.0.0.1 HTTP/1.1\r\n\r\n",
        Reply::Page("% error 1\n"),
    ),
    (
        "GET /dump HTTP/1.1\r\nContent-Length: x\r\n\r\n",
        Reply::Page(DUMP),
    ),
];

#[test]
fn what_a_request_asks_is_given(rt: HostRuntime) -> Result<(), Fail> {
    try_new(&rt, &Replies(GIVEN))
}

/// Queries as lines and as paths, and their answers.
const QUERIES: &[(&str, &str, &str)] = &[
    ("object mntner root-mnt", "object%20mntner%20root-mnt", ROOT),
    ("root-mnt", "root-mnt", ROOT),
    ("C-MNT", "C-MNT", "% no entries\n"),
    ("exact 10.0.0.0/8", "exact%2010.0.0.0%2F8", "% no entries\n"),
    ("object mntner", "object%20mntner", "% error 1\n"),
    ("expand RS-ANY", "expand%20RS-ANY", "% empty\n"),
];

/// The ends of a line.
const ENDS: &[&str] = &["\r\n", "\n", ""];

/// Asserts the answer to a query by whois, with each end that a line has.
fn expect_whois<D: Office, R: Abort + AllocGlobal>(
    rt: &R,
    desk: &mut D,
    query: &str,
    answer: &str,
) -> Result<(), Fail> {
    for end in ENDS {
        let line = format!(in rt.alloc(); "{query}{end}")?;
        expect_reply(rt, desk, line.as_bytes(), 3, answer)?;
    }
    Ok(())
}

/// Queries, each by whois and by HTTP.
struct Alike;

impl Trial for Alike {
    fn tried<D: Office + Drop, R: Abort + AllocGlobal>(
        &self,
        rt: &R,
        mut desk: D,
    ) -> Result<(), Fail> {
        for (query, path, answer) in QUERIES {
            expect_whois(rt, &mut desk, query, answer)?;
            let request = format!(in rt.alloc(); "GET /query/{path} HTTP/1.1\r\n\r\n")?;
            expect_replies(rt, &mut desk, &[(request.as_str(), Reply::Page(answer))])?;
        }
        Ok(())
    }
}

#[test]
fn a_query_is_answered_alike_by_whois_and_http(rt: HostRuntime) -> Result<(), Fail> {
    try_new(&rt, &Alike)
}

/// What a stopped desk refuses, by whois too, and what is refused before.
const STOPPED: &[(&str, Reply<'static>)] = &[
    (TWO, Reply::Refusal("503 Service Unavailable", "")),
    (
        "GET /query/ROOT-MNT HTTP/1.1\r\n\r\n",
        Reply::Refusal("503 Service Unavailable", ""),
    ),
    (
        "GET /dump HTTP/1.1\r\n\r\n",
        Reply::Refusal("503 Service Unavailable", ""),
    ),
    (
        "GET /nothing HTTP/1.1\r\n\r\n",
        Reply::Refusal("404 Not Found", ""),
    ),
    (
        "PUT /dump HTTP/1.1\r\n\r\n",
        Reply::Refusal("405 Method Not Allowed", "Allow: GET\r\n"),
    ),
    (
        "POST /submissions HTTP/1.1\r\n\r\n",
        Reply::Refusal("411 Length Required", ""),
    ),
    ("ROOT-MNT\r\n", Reply::Text("% error 6\n")),
];

/// A desk that a fault stops.
struct Stopped;

impl Trial for Stopped {
    fn tried<D: Office + Drop, R: Abort + AllocGlobal>(
        &self,
        rt: &R,
        mut desk: D,
    ) -> Result<(), Fail> {
        stop(rt.alloc(), &mut desk)?;
        expect_replies(rt, &mut desk, STOPPED)
    }
}

#[test]
fn a_stopped_desk_serves_nothing(rt: HostRuntime) -> Result<(), Fail> {
    try_fused(&rt, &Stopped)
}

/// The reply to the two items where only so many bytes of the request come. In its first line it is
/// not a request yet: it is a name at first, and then two words that are not a query.
fn cut_reply(count: usize) -> &'static str {
    match count {
        0 | 6..=25 => "% error 1\n",
        1..=5 => "% no entries\n",
        26..=49 => BAD_REQUEST,
        50..=100 => NONE_REPLY,
        101..=143 => ONE_REPLY,
        _ => TWO_REPLY,
    }
}

/// The request of two items, cut at each place.
struct Cuts;

impl Trial for Cuts {
    fn tried<D: Office + Drop, R: Abort + AllocGlobal>(
        &self,
        rt: &R,
        mut desk: D,
    ) -> Result<(), Fail> {
        let text = TWO.as_bytes();
        for count in 0..text.len() + 1 {
            expect_reply(rt, &mut desk, &text[..count], 1, cut_reply(count))?;
        }
        Ok(())
    }
}

#[test]
fn a_request_is_cut_at_each_place(rt: HostRuntime) -> Result<(), Fail> {
    try_new(&rt, &Cuts)
}

/// So many bytes of a text.
fn first(text: &str, count: usize) -> Result<&[u8], Fail> {
    match text.as_bytes().get(..count) {
        Some(bytes) => Ok(bytes),
        None => Err("the text is shorter".into()),
    }
}

/// A short body, of which the complete paragraphs count: its first one stands after it.
struct Short;

impl Trial for Short {
    fn tried<D: Office + Drop, R: Abort + AllocGlobal>(
        &self,
        rt: &R,
        mut desk: D,
    ) -> Result<(), Fail> {
        expect_reply(rt, &mut desk, first(POSTED, 150)?, 1, BEGUN)?;
        expect_reply(rt, &mut desk, EXACT.as_bytes(), 1, TEN)
    }
}

#[test]
fn a_short_body_counts_up_to_its_last_whole_paragraph(rt: HostRuntime) -> Result<(), Fail> {
    try_new(&rt, &Short)
}

/// A connection that gives these bytes one by one, and of which each read fails after so many.
fn breaking(text: &str, reads: usize) -> MemoryInput<'_> {
    MemoryInput {
        reads_end: reads,
        ..ending(text.as_bytes(), 1)
    }
}

/// Asserts what is replied where a read of a text fails at each place: nothing before so many bytes
/// have come.
fn expect_broken<D: Office, R: Abort + AllocGlobal>(
    rt: &R,
    desk: &mut D,
    text: &str,
    whole: usize,
) -> Result<(), Fail> {
    for reads in 0..text.len() {
        let reply = if reads < whole { "" } else { cut_reply(reads) };
        let wanted = Err(ConnFault::Read);
        expect_served(rt, desk, breaking(text, reads), wanted, reply.as_bytes())?;
    }
    Ok(())
}

/// The request of two items, whose head has 50 bytes, and a query, in which reads fail.
struct Breaks;

impl Trial for Breaks {
    fn tried<D: Office + Drop, R: Abort + AllocGlobal>(
        &self,
        rt: &R,
        mut desk: D,
    ) -> Result<(), Fail> {
        expect_broken(rt, &mut desk, TWO, 50)?;
        expect_broken(rt, &mut desk, "root-mnt\n", 9)?;
        let whole = breaking("root-mnt\n", 9);
        expect_served(rt, &mut desk, whole, Ok(()), ROOT.as_bytes())
    }
}

#[test]
fn a_read_fails_at_each_place(rt: HostRuntime) -> Result<(), Fail> {
    try_new(&rt, &Breaks)
}

/// Requests that leave the registry as it is, and their replies.
const REPLIED: &[(&str, &str)] = &[
    (TWO, TWO_REPLY),
    ("GET /nothing HTTP/1.1\r\n\r\n", NOT_FOUND),
    ("root-mnt\n", ROOT),
];

/// A request, and its reply, of which a prefix is written where a write fails.
#[derive(Drop)]
struct Prefixes {
    request: &'static str,
    reply: &'static str,
}

impl Trial for Prefixes {
    fn tried<D: Office + Drop, R: Abort + AllocGlobal>(
        &self,
        rt: &R,
        mut desk: D,
    ) -> Result<(), Fail> {
        let reply = self.reply.as_bytes();
        for writes in 0..reply.len() {
            let input = MemoryInput {
                writes_end: writes,
                ..ending(self.request.as_bytes(), 7)
            };
            let wanted = Err(ConnFault::Write);
            expect_served(rt, &mut desk, input, wanted, &reply[..writes])?;
        }
        Ok(())
    }
}

#[test]
fn a_write_fails_at_each_place(rt: HostRuntime) -> Result<(), Fail> {
    for (request, reply) in REPLIED {
        try_new(&rt, &Prefixes { request, reply })?;
    }
    Ok(())
}

/// A request with bytes after it, which are not looked at, however many come at once, and the reply
/// to it.
#[derive(Drop)]
struct Alone {
    request: &'static str,
    reply: &'static str,
}

impl Trial for Alone {
    fn tried<D: Office + Drop, R: Abort + AllocGlobal>(
        &self,
        rt: &R,
        mut desk: D,
    ) -> Result<(), Fail> {
        let request = self.request;
        let more = format!(in rt.alloc(); "{request}GET /dump HTTP/1.1\r\n\r\n")?;
        for step in 1..=more.len() {
            expect_reply(rt, &mut desk, more.as_bytes(), step, self.reply)?;
        }
        Ok(())
    }
}

#[test]
fn bytes_after_a_request_are_not_looked_at(rt: HostRuntime) -> Result<(), Fail> {
    for (request, reply) in REPLIED {
        try_new(&rt, &Alone { request, reply })?;
    }
    Ok(())
}
