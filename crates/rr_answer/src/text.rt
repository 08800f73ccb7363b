//! The texts of objects and of lines, appended to bytes in memory. If memory runs out, bytes may
//! have been appended, and what stood there still comes first. Dumps and the parts of answers are
//! made of these; a part that memory has no room for is written by itself, as `part` says.

ghost use Rattle.rr_text.specs.CanonicalText.{canonical, ended};
ghost use Rattle.rr_text.specs.Outputs.{MayAdd};
ghost use Rattle.rr_answer.specs.Texts as texts;

use rr_object::{Object, print_public};
use rr_text::{Paragraph, print_onto};
use std::alloc::AllocError;

/// Appends an object as it is answered: for public dumps. (Answers keep a `Form` of it.)
pub(crate) fn push_public(text: &mut Vec<u8>, object: &Object) -> Result<(), AllocError>
    ensures { MayAdd (texts.public_text object.now) text.old.items text.new.items result }
{
    print_public(text, object)?;
    text.push(b'\n')?;
    Ok(())
}

/// Appends the canonical text of a paragraph and an empty line.
pub(crate) fn push_paragraph(text: &mut Vec<u8>, paragraph: &Paragraph) -> Result<(), AllocError>
    ensures { MayAdd (ended (canonical paragraph.now)) text.old.items text.new.items result }
{
    print_onto(text, paragraph)?;
    text.push(b'\n')?;
    Ok(())
}

/// Appends a line with the LF that ends it.
pub(crate) fn push_line(text: &mut Vec<u8>, line: &[u8]) -> Result<(), AllocError>
    ensures { MayAdd (ended line.now) text.old.items text.new.items result }
{
    text.extend_from_slice(line)?;
    text.push(b'\n')?;
    Ok(())
}
