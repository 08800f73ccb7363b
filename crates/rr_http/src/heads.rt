//! The head of a connection: the bytes by which it says what it wants. `serving` reads it first.

ghost use Rattle.std.specs.Prelude.{◌≡◌, ◌≤◌, None, false, length, take, IfOk, IfSome};
ghost use Rattle.std.specs.Prelude.{OnErr};
ghost use Rattle.rr_http.specs.HeadParts.{BreaksOn, ReadsOn, goal_place, request_head};
ghost use Rattle.rr_http.specs.Heads.{has_line_feed, head_length, line_end};
ghost use Rattle.rr_http.specs.Lines.{line_speaks_http, without_return};
ghost use Rattle.rr_http.specs.Wants.{BreaksHead, FindsHead, IsHead};

use crate::asking::Refusal;
use rr_bytes::{ByteSet, place_of, trim_end};
use rr_io::Reader;
use std::io;

/// How many bytes of a connection are read at most before it is known what it wants (profile).
pub const HEAD_LIMIT: usize = 8_192;

/// What stands at the head of a connection.
#[derive(Clone, Copy, Debug, PartialEq, Eq)]
pub enum Head {
    /// A query by whois, of so many bytes: the first line without its line end (RFC 3912, 2).
    Whois(usize),
    /// The head of a request by HTTP, of so many bytes (RFC 9112, 2.1).
    Http(usize),
    /// A first line by HTTP, and no whole head of a request: it is refused, as `HeadTooLarge` if
    /// 8,192 bytes were read, otherwise as `BadRequest`.
    Refused(Refusal),
}

/// Reads the head of a connection into `buf`, which has 8,192 bytes, until it is known what the
/// connection wants. By HTTP that is when the head of its request is whole, otherwise when its
/// first line is; or when `buf` is full, or the input ended. Gives what stands there, and how many
/// bytes were read, which `buf` then begins with. The error is a failed read before that is known.
pub fn read_head<R: Reader>(reader: &mut R, buf: &mut [u8]) -> io::Result<(Head, usize)>
    requires { length buf.old ≡ HEAD_LIMIT }
    ensures within { IfOk result (λ read. read.1 ≤ HEAD_LIMIT) }
    ensures finds { IfOk result
        (λ read. FindsHead (R.told reader.old) (R.told reader.new) (take read.1 buf.new) read.0) }
    ensures breaks { OnErr result (BreaksHead (R.told reader.old) (R.told reader.new)) }
{
    let (count, line) = read_on(reader, Goal::Line, buf, 0, 0)?;
    let Some(end) = line else {
        return Ok((lone_line(&buf[..count]), count));
    };
    if !speaks_http(&buf[..end]) {
        return Ok((Head::Whois(query_length(&buf[..end])), count));
    }
    let (count, head) = read_on(reader, Goal::EmptyLine, buf, count, end)?;
    Ok((request_head(count, head), count))
}

/// What a line is that no LF ends.
fn lone_line(text: &[u8]) -> Head
    requires { has_line_feed text.now ≡ false }
    ensures { IsHead text.now result }
{
    if speaks_http(text) {
        request_head(text.len(), None)
    } else {
        Head::Whois(text.len())
    }
}

/// The head of a request, by where it ends among so many bytes.
fn request_head(count: usize, place: Option<usize>) -> Head
    ensures { result ≡ request_head count place }
{
    match place {
        Some(length) => Head::Http(length),
        None => Head::Refused(if HEAD_LIMIT <= count {
            Refusal::HeadTooLarge
        } else {
            Refusal::BadRequest
        }),
    }
}

/// Whether a first line is by HTTP; otherwise it is by whois (profile).
fn speaks_http(line: &[u8]) -> bool
    ensures { result ≡ line_speaks_http line.now }
{
    let text = trim_end(line, ByteSet::Blanks);
    text.ends_with(b" HTTP/1.0") || text.ends_with(b" HTTP/1.1")
}

/// How many bytes of a line are its query by whois: all but the CR before its LF (RFC 3912, 2).
fn query_length(line: &[u8]) -> usize
    ensures value { take result line.now ≡ without_return line.now }
    ensures within { result ≤ length line.now }
{
    if line.ends_with(b"\r") {
        line.len() - 1
    } else {
        line.len()
    }
}

/// What the head of a connection is read for.
#[derive(Clone, Copy, Debug, PartialEq, Eq)]
pub(crate) enum Goal {
    /// Its first line, up to the LF.
    Line,
    /// The head of a request, up to and with its empty line (RFC 9112, 2.1).
    EmptyLine,
}

impl Goal {
    /// How many bytes of the text it has, if it is whole there.
    fn place(self, text: &[u8]) -> Option<usize>
        ensures value { result ≡ goal_place self text.now }
        ensures within { IfSome result (λ place. place ≤ length text.now) }
    {
        match self {
            Goal::Line => place_of(text, b'\n'),
            Goal::EmptyLine => head_length(text),
        }
    }

    /// The same of a text whose first `seen` bytes do not have it: the last two of these alone are
    /// looked at again.
    fn place_after(self, text: &[u8], seen: usize) -> Option<usize>
        requires within { seen ≤ length text.now }
        requires unreached { goal_place self (take seen text.now) ≡ None }
        ensures { result ≡ goal_place self text.now }
    {
        let from = seen.saturating_sub(2);
        match self.place(&text[from..]) {
            Some(place) => Some(from + place),
            None => None,
        }
    }
}

/// Reads on after the first `filled` bytes of `buf`, the first `seen` of which do not have the
/// goal, until they have it, fill the buffer, or the input ends: gives how many there are then, and
/// the place of the goal. A failed read is the error.
fn read_on<R: Reader>(
    reader: &mut R,
    goal: Goal,
    buf: &mut [u8],
    filled: usize,
    seen: usize,
) -> io::Result<(usize, Option<usize>)>
    requires within { seen ≤ filled }
    requires filled { filled ≤ length buf.old }
    requires unreached { goal_place goal (take seen buf.old) ≡ None }
    ensures within { IfOk result (λ read. read.0 ≤ length buf.new) }
    ensures reads { IfOk result (λ read. ReadsOn goal (length buf.new) (R.told reader.old)
        (R.told reader.new) (take filled buf.old) (take read.0 buf.new) read.1) }
    ensures breaks { OnErr result (BreaksOn goal (length buf.new) (R.told reader.old)
        (R.told reader.new) (take filled buf.old)) }
{
    let mut count = filled;
    let mut place = goal.place_after(&buf[..count], seen);
    'reads: while place.is_none() && count < buf.len() {
        let more = reader.read(&mut buf[count..])?;
        if more == 0 {
            return Ok((count, None));
        }
        place = goal.place_after(&buf[..count + more], count);
        count += more;
    }
    Ok((count, place))
}

/// How many bytes of the text the head of a request has, if it is whole there (RFC 9112, 2.1).
fn head_length(text: &[u8]) -> Option<usize>
    ensures value { result ≡ head_length text.now }
    ensures within { IfSome result (λ place. place ≤ length text.now) }
{
    let mut place = 0;
    let mut rest = text;
    'bytes: while let Some((first, after)) = rest.split_first() {
        place += 1;
        let end = line_end(after);
        if *first == b'\n' && end > 0 {
            return Some(place + end);
        }
        rest = after;
    }
    None
}

/// How many bytes the line end has that the text begins with; 0 if there is none (RFC 9112, 2.2).
fn line_end(text: &[u8]) -> usize
    ensures value { result ≡ line_end text.now }
    ensures within { result ≤ length text.now }
{
    match text {
        [b'\n', ..] => 1,
        [b'\r', b'\n', ..] => 2,
        _ => 0,
    }
}
