//! Answers written part by part, so that they need not be whole in memory: for `found`.

ghost use Rattle.std.specs.Prelude.{◌≡◌, ◌+◌, ◌≤◌, ◌<◌, ◌++◌, []};
ghost use Rattle.std.specs.Prelude.{length, take, true, false};
ghost use Rattle.std.specs.List.{flat_map};
ghost use Rattle.rr_io.specs.Sending.{Writes};
ghost use Rattle.rr_answer.specs.Texts as texts;
ghost use Rattle.rr_answer.specs.WritingParts.{WritesSome};

use crate::part::Part;
use rr_io::{Writer, write_all};
use rr_number::SetName;
use std::alloc::Global;
use std::io;

/// After how many bytes what was gathered is written.
const CHUNK: usize = 65_536;

/// Appends a part whole, if memory allows, and says whether it did; if not, nothing is appended.
fn push_whole<T: Part>(out: &mut Vec<u8>, part: &T) -> bool
    ensures pushed { result ≡ true → out.new.items ≡ out.old.items ++ T.bytes part.now }
    ensures refused { result ≡ false → out.new.items ≡ out.old.items }
{
    let before = out.len();
    match part.push_onto(out) {
        Ok(()) => true,
        Err(_) => {
            out.truncate(before);
            false
        }
    }
}

/// Gathers the first parts, as many as fit or as memory allows, and says how many.
fn gather<T: Part>(out: &mut Vec<u8>, parts: &[T]) -> usize
    ensures count { result ≤ length parts.now }
    ensures bytes { out.new.items ≡ flat_map T.bytes (take result parts.now) }
{
    out.clear();
    let mut count = 0;
    'parts: for part in parts {
        if out.len() >= CHUNK {
            return count;
        }
        if !push_whole(out, part) {
            return count;
        }
        count += 1;
    }
    count
}

/// Writes the first of the parts, which are some, and says how many: one by itself where memory
/// does not allow to gather it.
fn write_some<T: Part, W: Writer>(
    gathered: &mut Vec<u8>,
    writer: &mut W,
    parts: &[T],
) -> io::Result<usize>
    requires { 0 < length parts.now }
    ensures { WritesSome T.bytes parts.now
        (W.told writer.old) (W.told writer.new) result }
{
    let count = gather(gathered, parts);
    if count == 0 {
        parts[0].write(writer)?;
        return Ok(1);
    }
    write_all(writer, gathered)?;
    Ok(count)
}

/// Writes the parts. The error is that a write failed: the writer has then taken the beginning of
/// them, and not all.
fn write_parts<T: Part, W: Writer>(
    gathered: &mut Vec<u8>,
    writer: &mut W,
    parts: &[T],
) -> io::Result<()>
    ensures { Writes (W.told writer.old) (W.told writer.new)
        (flat_map T.bytes parts.now) result }
{
    let mut rest = parts;
    'rest: while !rest.is_empty() {
        let count = write_some(gathered, writer, rest)?;
        let (_, after) = rest.split_at(count);
        rest = after;
    }
    Ok(())
}

/// Whether nothing was found, and no name is missing.
fn are_none<T>(found: &[T], missing: &[SetName]) -> bool
    ensures yes { result ≡ true → (found.now ≡ []) × (missing.now ≡ []) }
    ensures no { result ≡ false → 0 < length found.now + length missing.now }
{
    found.is_empty() && missing.is_empty()
}

/// Writes what was found and the names that are missing, or the line that there is nothing. The
/// error is that a write failed: the writer has then taken the beginning of that, and not all.
pub(crate) fn write_members<T: Part, W: Writer>(
    alloc: Global,
    writer: &mut W,
    found: &[T],
    missing: &[SetName],
    nothing: &[u8],
) -> io::Result<()>
    ensures { Writes (W.told writer.old) (W.told writer.new)
        (texts.or_else nothing.now
        (flat_map T.bytes found.now ++ flat_map texts.missing_line missing.now)) result }
{
    if are_none(found, missing) {
        return write_all(writer, nothing);
    }
    let mut gathered = Vec::new(alloc);
    write_parts(&mut gathered, writer, found)?;
    write_parts(&mut gathered, writer, missing)
}
