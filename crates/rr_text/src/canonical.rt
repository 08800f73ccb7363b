//! Canonical text: printed for answers and dumps, and read again from the rows of a database. If
//! its form changes, the rows that were written before are refused.

ghost use Rattle.std.specs.Prelude.{◌≡◌, ◌<◌, ◌++◌, IfOk, OnOk, IfSome, Some, List};
ghost use Rattle.std.specs.Prelude.{OnErr, length, map, true};
ghost use Rattle.rr_text.specs.Fields.{Field, AreFields, with_value};
ghost use Rattle.rr_text.specs.CanonicalText as canon;
ghost use Rattle.rr_text.specs.KeptText.{IsKeptText, fields_in};
ghost use Rattle.rr_text.specs.Lines.{text_lines};
ghost use Rattle.rr_text.specs.Outputs.{MayAdd};
ghost use Rattle.rr_text.specs.PrivateParts.{opens_first};

use crate::comparing::are_printed;
use crate::inspect::block_fault;
use crate::line::{LineKind, split_line};
use crate::paragraph::Paragraph;
use std::alloc::{AllocError, Global};

/// Appends the canonical text of a paragraph (profile). The error is that memory ran out: then
/// nothing is appended.
pub fn print_onto(out: &mut Vec<u8>, paragraph: &Paragraph) -> Result<(), AllocError>
    ensures ok { OnOk result (out.new.items ≡ out.old.items ++ canon.canonical paragraph.now) }
    ensures err { OnErr result (out.new.items ≡ out.old.items) }
{
    out.extend_from_slice(paragraph.text())
}

/// Appends the canonical text (profile) of the paragraph in which each attribute of exactly this
/// name has this one line as its value; the others are as they were. Where the line meets what
/// [`Paragraph::with_values`] requires, this is the text of what that call gives. The error is that
/// memory ran out: then bytes may have been appended, and what stood before them stays.
pub fn print_onto_with_values(
    out: &mut Vec<u8>,
    paragraph: &Paragraph,
    name: &[u8],
    line: &[u8],
) -> Result<(), AllocError>
    ensures { MayAdd (canon.canonical (map (with_value name.now line.now) paragraph.now))
        out.old.items out.new.items result }
{
    if !paragraph.has(name) {
        return print_onto(out, paragraph);
    }
    for attribute in paragraph.attributes() {
        attribute.print_onto_with_value(out, name, line)?;
    }
    Ok(())
}

/// The paragraph whose canonical text this is (profile), with at least one attribute, all well
/// formed. `None` comes exactly where the text is that of no such paragraph. The size of the text
/// has no bound. The error is that memory ran out.
pub fn read_canonical(alloc: Global, text: &[u8]) -> Result<Option<Paragraph>, AllocError>
    ensures found { IfOk result
        (λ read. IfSome read (λ paragraph. canon.canonical paragraph ≡ text.now)) }
    ensures fields { IfOk result
        (λ read. IfSome read (λ paragraph. (0 < length paragraph) × AreFields paragraph)) }
    ensures only { IfOk result
        (λ read. (fields : List Field) → 0 < length fields → AreFields fields
        → canon.canonical fields ≡ text.now → read ≡ Some fields) }
{
    if !is_canonical(text) {
        return Ok(None);
    }
    Ok(Some(Paragraph::kept(Vec::from_slice(alloc, text)?)))
}

/// Whether a text is the canonical text of a paragraph with an attribute.
fn is_canonical(text: &[u8]) -> bool
    ensures yes { result ≡ true → IsKeptText text.now × (0 < length (fields_in text.now)) }
    ensures only { (fields : List Field) → 0 < length fields → AreFields fields
        → canon.canonical fields ≡ text.now → result ≡ true }
{
    if !opens(text) {
        return false;
    }
    if block_fault(text).is_some() {
        return false;
    }
    are_printed(text)
}

/// Whether a text begins with a line that opens an attribute.
fn opens(text: &[u8]) -> bool
    ensures { result ≡ opens_first (text_lines text.now) }
{
    if text.is_empty() {
        return false;
    }
    let (line, _) = split_line(text);
    LineKind::of(line).opens_attribute()
}
