//! The body of a request as the reader that `answering` gives a submission.

ghost use Rattle.std.specs.Prelude.{◌≡◌, ◌<◌, []};

use rr_io::Reader;
use std::io;
use std::io::ErrorKind;

/// A body that was read, as a reader: it gives the bytes that came, and where the body is short it
/// fails after them, each time that it is read. It tells the bytes that never came as left to read,
/// so that no reading of a short body ends but by a failed read.
#[derive(Drop)]
pub(crate) struct Body<'a> {
    rest: &'a [u8],
    missing: usize,
    failed: u64,
    reads: u64,
    ghost fails_at_end: { 0 < failed → (0 < missing) × (rest.now ≡ []) },
}

impl<'a> Body<'a> {
    ghost use Rattle.rr_http.specs.BodyParts.{body_failed, body_missing, body_reads, body_rest};

    /// The body of which these bytes came, and `missing` more did not; nothing was read of it yet.
    pub(crate) fn new(bytes: &'a [u8], missing: usize) -> Body<'a>
        ensures rest { body_rest result ≡ bytes.now }
        ensures missing { body_missing result ≡ missing }
        ensures failed { body_failed result ≡ 0 }
        ensures reads { body_reads result ≡ 0 }
    {
        Body {
            rest: bytes,
            missing,
            failed: 0,
            reads: 0,
        }
    }
}

impl<'a> Reader for Body<'a> {
    ghost use Rattle.rr_http.specs.BodyParts.{body_told};

    ghost told = { body_told };

    fn read(&mut self, buf: &mut [u8]) -> io::Result<usize> {
        if self.rest.is_empty() && self.missing > 0 {
            self.failed = self.failed.saturating_add(1);
            return Err(io::Error::from(ErrorKind::UnexpectedEof));
        }
        let (given, rest) = self.rest.split_at(self.rest.len().min(buf.len()));
        buf[..given.len()].copy_from_slice(given);
        self.rest = rest;
        self.reads = self.reads.saturating_add(1);
        Ok(given.len())
    }

    fn failed_reads(&self) -> u64 {
        self.failed
    }
}
