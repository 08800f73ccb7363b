//! Counted readers, for calls of std that read to an end: `settings_reading` and `rr_cli` make
//! them.

ghost use Rattle.std.specs.Prelude.{◌≡◌};
ghost use Rattle.rr_io.specs.Counted.{counted_inner};

use rr_io::{Counted, Reader};
use std::io;
use std::io::Read;

/// A reader of std whose reads and failed reads are counted, and which is itself a reader of std.
#[derive(Drop)]
pub struct Readable<R> {
    counted: Counted<R>,
}

impl<R: Read> Readable<R> {
    /// `reader`, with its reads and failed reads counted from now on; no clause says that none is
    /// counted yet.
    pub fn new(reader: R) -> Readable<R>
        ensures { counted_inner result.counted ≡ reader }
    {
        Readable {
            counted: Counted::new(reader),
        }
    }

    /// The reader, with its counts.
    pub fn into_counted(self) -> Counted<R>
        ensures { result ≡ self.counted }
    {
        self.counted
    }
}

impl<R: Read> Read for Readable<R> {
    ghost use Rattle.rr_io.specs.Counted.{counted_inner};

    ghost remaining = { λ r. R.remaining (counted_inner r.counted) };

    fn read(&mut self, buf: &mut [u8]) -> io::Result<usize> {
        self.counted.read(buf)
    }
}
