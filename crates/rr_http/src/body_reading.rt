//! The body of a request, which `serving` reads whole before it is submitted.

ghost use Rattle.std.specs.Prelude.{◌≡◌, ◌<◌, ◌≤◌, length, IfOk, OnErr, vec_capacity};
ghost use Rattle.rr_http.specs.Bodies.{ReadsBody};
ghost use Rattle.rr_http.specs.BodyParts.{ReadsRest};

use crate::body_size::BodySize;
use rr_io::{READ_SIZE, Reader};
use std::alloc::{AllocError, Global};

/// How the reading of a body ended.
#[derive(Clone, Copy, Debug, PartialEq, Eq)]
pub enum BodyEnd {
    /// With its last byte.
    Whole,
    /// Before that, with the end of the input.
    Short,
    /// Before that, with a failed read.
    Broken,
}

/// Reads the body of a request, of this size, the first bytes of which came with its head: they are
/// `buffered`, up to that size. Gives its bytes, or those that came of it, and how the reading
/// ended. Only if the end is `Broken` a read failed, the last one. No byte after the body is read.
/// The error is that memory ran out for a body that is not empty, and nothing is read then.
pub fn read_body<R: Reader>(
    alloc: Global,
    reader: &mut R,
    buffered: &[u8],
    size: BodySize,
) -> Result<(Vec<u8>, BodyEnd), AllocError>
    ensures reads { IfOk result (λ read. ReadsBody (R.told reader.old) (R.told reader.new)
        buffered.now size read.0.items read.1) }
    ensures some { OnErr result (0 < size) }
    ensures unread { OnErr result (reader.new ≡ reader.old) }
{
    let size = size.bytes();
    let mut body = Vec::with_capacity(alloc, size)?;
    body.extend_from_slice(&buffered[..buffered.len().min(size)])?;
    let end = read_rest(reader, &mut body, size);
    Ok((body, end))
}

/// Reads on until the body has `size` bytes, for which there is room, the input ends, or a read
/// fails.
fn read_rest<R: Reader>(reader: &mut R, body: &mut Vec<u8>, size: usize) -> BodyEnd
    requires within { length body.old.items ≤ size }
    requires room { size ≤ vec_capacity body.old }
    ensures { ReadsRest (R.told reader.old) (R.told reader.new)
        body.old.items size body.new.items result }
{
    let mut block = [0u8; READ_SIZE];
    'reads: while body.len() < size {
        let room = (size - body.len()).min(READ_SIZE);
        match reader.read(&mut block[..room]) {
            Ok(count) => {
                if count == 0 {
                    return BodyEnd::Short;
                }
                if body.extend_from_slice(&block[..count]).is_err() {
                    // There is room for `size` bytes.
                    unreachable!();
                }
            }
            Err(_) => return BodyEnd::Broken,
        }
    }
    BodyEnd::Whole
}
