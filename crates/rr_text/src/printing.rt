//! The lines of canonical text (profile): for attributes that are printed, and for blocks that are
//! read. `comparing` takes the columns. Where memory runs out, bytes may have been appended, and
//! what stood before them stays.

ghost use Rattle.std.specs.Prelude.{◌≡◌, ◌≤◌, ◌<◌, ◌+◌, ◌-◌, ◌^◌};
ghost use Rattle.std.specs.Prelude.{max, replicate};
ghost use Rattle.std.specs.List.{flat_map};
ghost use Rattle.rr_bytes.specs.LetterCase.{lowered};
ghost use Rattle.rr_text.specs.Lines.{text_lines};
ghost use Rattle.rr_text.specs.Entries.{continued};
ghost use Rattle.rr_text.specs.CanonicalText as canon;
ghost use Rattle.rr_text.specs.KeptText.{printed_by};
ghost use Rattle.rr_text.specs.Outputs.{MayAdd};
ghost use Rattle.rr_text.specs.PrivateParts.{added_lines, value_after};

use crate::line::{LineKind, added_value, opened_value, split_line, written_name};
use std::alloc::AllocError;

/// The column, counted from 0, in which values begin.
pub(crate) const VALUE_COLUMN: usize = 16;

/// So many spaces.
#[inline]
pub(crate) fn blanks(count: usize) -> &'static [u8]
    requires { count ≤ canon.value_column }
    ensures { result.now ≡ replicate count 32 }
{
    let (blanks, _) = b"                ".split_at(count);
    blanks
}

/// How many spaces stand between the colon after a name of this length and its value.
pub(crate) fn blanks_after(name_len: usize) -> usize
    requires { name_len < 2 ^ 63 }
    ensures bound { result ≤ canon.value_column }
    ensures value { result ≡ max 1 (canon.value_column - (name_len + 1)) }
{
    VALUE_COLUMN.saturating_sub(name_len + 1).max(1)
}

/// Appends the first line of a value after so many spaces, or nothing where it is empty.
fn push_first_line(out: &mut Vec<u8>, count: usize, line: &[u8]) -> Result<(), AllocError>
    requires { count ≤ canon.value_column }
    ensures { MayAdd (canon.after_blanks count line.now) out.old.items out.new.items result }
{
    if line.is_empty() {
        return Ok(());
    }
    out.extend_from_slice(blanks(count))?;
    out.extend_from_slice(line)
}

/// Appends the colon after a name, and the first line of its value with an LF.
fn push_value(out: &mut Vec<u8>, name: &[u8], line: &[u8]) -> Result<(), AllocError>
    ensures { MayAdd (value_after name.now line.now) out.old.items out.new.items result }
{
    out.push(b':')?;
    push_first_line(out, blanks_after(name.len()), line)?;
    out.push(b'\n')?;
    Ok(())
}

/// Appends the first line of an attribute of this name.
pub(crate) fn push_opening(out: &mut Vec<u8>, name: &[u8], line: &[u8]) -> Result<(), AllocError>
    ensures { MayAdd (canon.ended (canon.opening_line name.now line.now))
        out.old.items out.new.items result }
{
    out.extend_from_slice(name)?;
    push_value(out, name, line)
}

/// Appends a name in lower case.
fn push_lowered(out: &mut Vec<u8>, name: &[u8]) -> Result<(), AllocError>
    ensures { MayAdd (lowered name.now) out.old.items out.new.items result }
{
    for byte in name {
        out.push(byte.to_ascii_lowercase())?;
    }
    Ok(())
}

/// Appends the first line of an attribute whose name, in any letter case, is printed in lower case.
fn push_lowered_opening(out: &mut Vec<u8>, name: &[u8], line: &[u8]) -> Result<(), AllocError>
    ensures { MayAdd (canon.ended (canon.opening_line (lowered name.now) line.now))
        out.old.items out.new.items result }
{
    push_lowered(out, name)?;
    push_value(out, name, line)
}

/// Appends a further line of a value as it is printed, with its LF.
fn push_further(out: &mut Vec<u8>, line: &[u8]) -> Result<(), AllocError>
    ensures { MayAdd (canon.ended (canon.further_line line.now))
        out.old.items out.new.items result }
{
    if line.is_empty() {
        out.extend_from_slice(b"+\n")
    } else {
        out.extend_from_slice(blanks(VALUE_COLUMN))?;
        out.extend_from_slice(line)?;
        out.push(b'\n')?;
        Ok(())
    }
}

/// Appends what a line of a block adds to the canonical text.
pub(crate) fn push_line(out: &mut Vec<u8>, line: &[u8], kind: LineKind) -> Result<(), AllocError>
    ensures { MayAdd (printed_by line.now kind) out.old.items out.new.items result }
{
    match kind {
        LineKind::Blank | LineKind::Skipped => Ok(()),
        LineKind::Continuation => push_further(out, added_value(line)),
        LineKind::Opening => push_lowered_opening(out, written_name(line), opened_value(line)),
    }
}

/// Appends what a line adds to the canonical text of the value before it.
fn push_continuation(out: &mut Vec<u8>, line: &[u8], kind: LineKind) -> Result<(), AllocError>
    ensures { MayAdd
        (flat_map (λ line. canon.ended (canon.further_line line)) (added_lines line.now kind))
        out.old.items out.new.items result }
{
    match kind {
        LineKind::Continuation => push_further(out, added_value(line)),
        LineKind::Blank | LineKind::Skipped | LineKind::Opening => Ok(()),
    }
}

/// Appends the canonical text of the lines that continue a value.
pub(crate) fn push_continuations(out: &mut Vec<u8>, text: &[u8]) -> Result<(), AllocError>
    ensures { MayAdd (flat_map (λ line. canon.ended (canon.further_line line))
        (continued (text_lines text.now)))
        out.old.items out.new.items result }
{
    let mut rest = text;
    'lines: while !rest.is_empty() {
        let (line, after) = split_line(rest);
        let kind = LineKind::of(line);
        if kind.opens_attribute() {
            return Ok(());
        }
        push_continuation(out, line, kind)?;
        rest = after;
    }
    Ok(())
}
