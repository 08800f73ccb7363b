//! std's readers and writers, with their failed calls and their reads counted: how the crates above
//! make a `Reader` or a `Writer` of one.
ghost use Rattle.std.specs.Prelude.{◌≡◌};
ghost use Rattle.rr_io.specs.Told.{Counts, alone};

use super::{Reader, Writer};
use std::io;
use std::io::{ErrorKind, Read, Write};

/// A reader or a writer of std. Its failed reads are counted, its failed writes apart from them,
/// and its reads that do not fail, each up to `u64::MAX`. It tells its bytes where std does: over
/// memory, and not over files, sockets and standard streams. Nothing stands beside it.
#[derive(Drop)]
pub struct Counted<T> {
    inner: T,
    failed_reads: u64,
    failed_writes: u64,
    reads: u64,
}

impl<T> Counted<T> {
    ghost use Rattle.rr_io.specs.Counted.{counted_inner, counted_failed_reads};
    ghost use Rattle.rr_io.specs.Counted.{counted_failed_writes, counted_reads};

    /// `inner`, with no failed call and no read so far.
    pub fn new(inner: T) -> Self
        ensures inner { counted_inner result ≡ inner }
        ensures failed_reads { counted_failed_reads result ≡ 0 }
        ensures failed_writes { counted_failed_writes result ≡ 0 }
        ensures reads { counted_reads result ≡ 0 }
    {
        Counted {
            inner,
            failed_reads: 0,
            failed_writes: 0,
            reads: 0,
        }
    }

    /// The reader or writer inside, whose calls were counted.
    pub fn into_inner(self) -> T
        ensures { result ≡ counted_inner self }
    {
        let Counted { inner, .. } = self;
        inner
    }
}

/// Counts one more, up to `u64::MAX`.
pub(crate) fn count_one(count: &mut u64)
    ensures { Counts count.old count.new 1 }
{
    *count = count.saturating_add(1);
}

impl<T: Read> Reader for Counted<T> {
    ghost told = { λ c. record {
      bytes = T.remaining c.inner;
      faults = c.failed_reads;
      reads = c.reads;
      aside = alone;
    } };

    fn read(&mut self, buf: &mut [u8]) -> io::Result<usize> {
        match self.inner.read(buf) {
            Ok(count) => {
                count_one(&mut self.reads);
                Ok(count)
            }
            Err(error) => {
                count_one(&mut self.failed_reads);
                Err(error)
            }
        }
    }

    fn failed_reads(&self) -> u64 {
        self.failed_reads
    }
}

impl<T: Write> Writer for Counted<T> {
    ghost told = { λ c. record {
      bytes = T.contents c.inner;
      faults = c.failed_writes;
      reads = 0;
      aside = alone;
    } };

    fn write(&mut self, bytes: &[u8]) -> io::Result<usize> {
        match self.inner.write(bytes) {
            Ok(0) if !bytes.is_empty() => {
                count_one(&mut self.failed_writes);
                Err(io::Error::from(ErrorKind::WriteZero))
            }
            Ok(count) => Ok(count),
            Err(error) => {
                count_one(&mut self.failed_writes);
                Err(error)
            }
        }
    }

    fn failed_writes(&self) -> u64 {
        self.failed_writes
    }
}
