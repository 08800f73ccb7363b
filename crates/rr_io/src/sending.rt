//! Whole texts written, by as many writes as it takes: for all that is printed to a `Writer`.
ghost use Rattle.std.specs.Prelude.{flat_map};
ghost use Rattle.rr_io.specs.Sending.{Writes};

use super::Writer;
use std::io;

/// Writes all of `bytes`: they are taken in order, and no fault is counted. The error is that a
/// write failed: the writer has then taken the beginning of them, and not all, and one fault is
/// counted, up to 2^64 - 1. Either way no read is counted, and what stands beside the writer stays.
/// Of the bytes taken this is said where `told` tells them.
pub fn write_all<W: Writer>(writer: &mut W, bytes: &[u8]) -> io::Result<()>
    ensures { Writes (W.told writer.old) (W.told writer.new) bytes.now result }
{
    let mut rest = bytes;
    'rest: while !rest.is_empty() {
        let count = writer.write(rest)?;
        let (_, after) = rest.split_at(count);
        rest = after;
    }
    Ok(())
}

/// Writes all of the pieces, one after the other, as `write_all` writes their bytes. The error is
/// that a write failed: the writer has then taken the beginning of their bytes, and not all.
pub fn write_pieces<W: Writer>(writer: &mut W, pieces: &[&[u8]]) -> io::Result<()>
    ensures { Writes (W.told writer.old) (W.told writer.new)
        (flat_map (λ piece. piece.now) pieces.now) result }
{
    'pieces: for piece in pieces {
        write_all(writer, piece)?;
    }
    Ok(())
}
