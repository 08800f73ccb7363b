//! How far a command is, as standard error shows it on a terminal. What a command reads from and
//! writes to counts what passes, and keeps why its last call that failed did so: `load`, `submit`
//! and `rr_cli` make such. A line of `open_desk` says that a large database is being opened.

ghost use Rattle.std.specs.Prelude.{◌≡◌, ◌<◌, IsNone};

use crate::cause::Cause;
use crate::error_stream::ErrorStream;
use crate::meter::{CLEARED, Meter, Things};
use crate::output::{Input, Output};
use rr_io::{Reader, Writer};
use std::io;

/// A database of fewer bytes is opened without a word.
const LARGE: u64 = 8_388_608;

/// What standard error shows of how far a command is, while standard output is written.
#[derive(Clone, Copy)]
pub enum Shown {
    /// Nothing.
    Nothing,
    /// The items of the report that passes.
    Items,
    /// The objects of the dump that passes.
    Objects,
    /// Nothing of its own: a count that something else shows is taken away before anything is
    /// printed.
    Others,
}

/// A writer, as standard output, of which standard error shows on a terminal how much passed; it
/// keeps why the last write that failed did so. Contracts see nothing of it but the writer.
#[derive(Drop)]
pub struct Progress<'a, W> {
    errors: ErrorStream<'a>,
    writer: W,
    meter: Meter<'a>,
    cause: Cause,
}

impl<'a, W: Writer> Progress<'a, W> {
    /// `writer`, of which nothing is shown so far, though no clause says so.
    pub fn new(errors: ErrorStream<'a>, writer: W) -> Progress<'a, W>
        ensures { result.writer ≡ writer }
    {
        Progress {
            errors,
            writer,
            meter: Meter::silent(errors),
            cause: Cause::Unnumbered,
        }
    }
}

/// It passes each write on, and tells what the writer tells.
impl<W: Writer> Writer for Progress<'_, W> {
    ghost told = { λ p. W.told p.writer };

    fn write(&mut self, bytes: &[u8]) -> io::Result<usize> {
        let made_way = self.meter.make_way();
        match self.writer.write(bytes) {
            Ok(count) => {
                self.meter.pass(&bytes[..count], made_way);
                Ok(count)
            }
            Err(error) => {
                self.cause = Cause::of(&error);
                Err(error)
            }
        }
    }

    fn failed_writes(&self) -> u64 {
        self.writer.failed_writes()
    }
}

impl<W: Writer> Output for Progress<'_, W> {
    fn show(&mut self, shown: Shown) {
        self.meter.clear();
        let is_shared = self.errors.is_shared();
        self.meter = match shown {
            Shown::Nothing => Meter::silent(self.errors),
            Shown::Items => Meter::new(self.errors, Things::Items, is_shared),
            Shown::Objects => Meter::new(self.errors, Things::Objects, is_shared),
            Shown::Others => Meter::eraser(self.errors),
        };
    }

    fn cause(&self) -> Cause {
        self.cause
    }

    fn keep(&mut self, cause: Cause) {
        self.cause = cause;
    }
}

/// A reader whose bytes may be counted, and which keeps why the last read that failed did so.
/// Contracts see nothing of it but the reader.
#[derive(Drop)]
pub struct Reading<'a, R> {
    reader: R,
    meter: Meter<'a>,
    /// Why the last read that failed did so. Until one fails it is `Endless`: reading that ends
    /// with a fault, though no read failed, was given up after the greatest number of reads.
    cause: Cause,
}

impl<'a, R: Reader> Reading<'a, R> {
    /// `reader`, with its bytes counted from now on, though no clause says so.
    pub fn new(errors: ErrorStream<'a>, reader: R) -> Reading<'a, R>
        ensures { result.reader ≡ reader }
    {
        Reading {
            reader,
            meter: Meter::new(errors, Things::Bytes, false),
            cause: Cause::Endless,
        }
    }

    /// `reader`, with nothing counted, though no clause says so.
    pub fn silent(errors: ErrorStream<'a>, reader: R) -> Reading<'a, R>
        ensures { result.reader ≡ reader }
    {
        Reading {
            reader,
            meter: Meter::silent(errors),
            cause: Cause::Endless,
        }
    }

    /// Takes the count away from the terminal; the reader stays as it is.
    pub fn end(&mut self)
        ensures { self.new.reader ≡ self.old.reader }
    {
        self.meter.clear();
    }
}

/// It passes each read on, and tells what the reader tells.
impl<R: Reader> Reader for Reading<'_, R> {
    ghost told = { λ p. R.told p.reader };

    fn read(&mut self, buf: &mut [u8]) -> io::Result<usize> {
        match self.reader.read(buf) {
            Ok(count) => {
                self.meter.pass(&buf[..count], false);
                Ok(count)
            }
            Err(error) => {
                self.cause = Cause::of(&error);
                Err(error)
            }
        }
    }

    fn failed_reads(&self) -> u64 {
        self.reader.failed_reads()
    }
}

impl<R: Reader> Input for Reading<'_, R> {
    fn cause(&self) -> Cause {
        self.cause
    }
}

/// A line that stands on a terminal until it is taken away: its type is not `Drop`, so whoever has
/// one takes it away, or does not compile.
struct TerminalLine<'a> {
    errors: ErrorStream<'a>,
}

impl<'a> TerminalLine<'a> {
    /// Writes the line.
    fn draw(errors: ErrorStream<'a>, text: &[u8]) -> TerminalLine<'a> {
        errors.show(text);
        TerminalLine { errors }
    }

    /// Takes it away.
    fn clear(self) {
        let TerminalLine { errors } = self;
        errors.show(CLEARED);
    }
}

/// A line on a terminal that says, of a large database, that it is being opened.
pub(crate) struct Opening<'a> {
    line: Option<TerminalLine<'a>>,
}

impl<'a> Opening<'a> {
    /// Shows the line for a database of so many bytes, if that is large and standard error is a
    /// terminal.
    pub(crate) fn begin(errors: ErrorStream<'a>, size: u64) -> Opening<'a>
        ensures { size < LARGE → IsNone result.line }
    {
        let is_shown = size >= LARGE && errors.is_terminal();
        let line = if is_shown {
            Some(TerminalLine::draw(errors, b"opening the database"))
        } else {
            None
        };
        Opening { line }
    }

    /// Takes the line away; no clause says so.
    pub(crate) fn end(self) {
        let Opening { line } = self;
        if let Some(line) = line {
            line.clear();
        }
    }
}
