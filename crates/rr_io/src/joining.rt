//! A reader and a writer as one connection: those over TCP and over memory are made so.
ghost use Rattle.std.specs.Prelude.{◌≡◌, refl};
ghost use Rattle.rr_io.specs.Told.{beside, set_beside};

use super::{Connection, Reader, Writer};
use std::io;

/// A connection that is made of a reader and a writer. Each counts its own failed calls.
#[derive(Drop)]
pub struct Joined<R, W> {
    reader: R,
    writer: W,
}

impl<R, W> Joined<R, W> {
    ghost use Rattle.rr_io.specs.Joined.{joined_reader, joined_writer};

    /// The reader and the writer as one connection.
    pub fn new(reader: R, writer: W) -> Self
        ensures reader { joined_reader result ≡ reader }
        ensures writer { joined_writer result ≡ writer }
    {
        Joined { reader, writer }
    }

    /// The reader and the writer themselves.
    pub fn into_parts(self) -> (R, W)
        ensures { result ≡ (joined_reader self, joined_writer self) }
    {
        let Joined { reader, writer } = self;
        (reader, writer)
    }
}

impl<R: Reader, W: Writer> Reader for Joined<R, W> {
    ghost told = { λ j. set_beside (beside (W.told j.writer)) (R.told j.reader) };

    fn read(&mut self, buf: &mut [u8]) -> io::Result<usize> {
        self.reader.read(buf)
    }

    fn failed_reads(&self) -> u64 {
        self.reader.failed_reads()
    }
}

impl<R: Reader, W: Writer> Writer for Joined<R, W> {
    ghost told = { λ j. set_beside (beside (R.told j.reader)) (W.told j.writer) };

    fn write(&mut self, bytes: &[u8]) -> io::Result<usize> {
        self.writer.write(bytes)
    }

    fn failed_writes(&self) -> u64 {
        self.writer.failed_writes()
    }
}

impl<R: Reader, W: Writer> Connection for Joined<R, W> {
    ghost read_leaves_writer = { λ _. refl };

    ghost write_leaves_reader = { λ _. refl };
}
