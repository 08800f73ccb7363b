//! The parts of answers: lines of expansions, and names that are missing; objects are parts by
//! `form`. `writing` writes and appends them.

ghost use Rattle.std.specs.Prelude.{◌<◌, length, ℕ, List};
ghost use Rattle.rr_io.specs.Sending.{Writes};
ghost use Rattle.rr_text.specs.Outputs.{MayAdd};

use crate::text::push_line;
use rr_io::{Writer, write_pieces};
use rr_number::{AsNumber, Range, SetName};
use std::alloc::AllocError;
use std::io;

/// A part of an answer, which is written by itself.
pub(crate) trait Part {
    // Its bytes.
    ghost bytes: { Self → List ℕ };

    /// Appends its bytes. The error is that memory ran out: then bytes may have been appended, and
    /// what stood there before still comes first.
    fn push_onto(&self, out: &mut Vec<u8>) -> Result<(), AllocError>
        ensures { MayAdd (bytes self.now) out.old.items out.new.items result };

    /// Writes its bytes. The error is that a write failed: the writer has then taken the beginning
    /// of them, and not all. Lack of memory is no error.
    fn write<W: Writer>(&self, writer: &mut W) -> io::Result<()>
        ensures { Writes (W.told writer.old) (W.told writer.new) (bytes self.now) result };

    // It has bytes: so an answer with a part is never replaced by the line that there is none.
    ghost has_bytes: { (part : Self) → 0 < length (bytes part) };
}

/// An AS number in an expansion.
impl Part for AsNumber {
    ghost use Rattle.rr_answer.specs.Texts.{number_line};
    ghost use Rattle.rr_answer.specs.HasBytes.{number_has_bytes};

    ghost bytes = { number_line };

    ghost has_bytes = { number_has_bytes };

    fn push_onto(&self, out: &mut Vec<u8>) -> Result<(), AllocError> {
        push_line(out, self.text().as_bytes())
    }

    fn write<W: Writer>(&self, writer: &mut W) -> io::Result<()> {
        write_pieces(writer, &[self.text().as_bytes(), b"\n"])
    }
}

/// A range in an expansion.
impl Part for Range {
    ghost use Rattle.rr_answer.specs.Texts.{range_line};
    ghost use Rattle.rr_answer.specs.HasBytes.{range_has_bytes};

    ghost bytes = { range_line };

    ghost has_bytes = { range_has_bytes };

    fn push_onto(&self, out: &mut Vec<u8>) -> Result<(), AllocError> {
        push_line(out, self.text().as_bytes())
    }

    fn write<W: Writer>(&self, writer: &mut W) -> io::Result<()> {
        write_pieces(writer, &[self.text().as_bytes(), b"\n"])
    }
}

/// A name that an expansion misses.
impl Part for SetName {
    ghost use Rattle.rr_answer.specs.Texts.{missing_line};
    ghost use Rattle.rr_answer.specs.HasBytes.{missing_has_bytes};

    ghost bytes = { missing_line };

    ghost has_bytes = { missing_has_bytes };

    fn push_onto(&self, out: &mut Vec<u8>) -> Result<(), AllocError> {
        out.extend_from_slice(b"% missing ")?;
        push_line(out, self.as_bytes())
    }

    fn write<W: Writer>(&self, writer: &mut W) -> io::Result<()> {
        write_pieces(writer, &[b"% missing ", self.as_bytes(), b"\n"])
    }
}
