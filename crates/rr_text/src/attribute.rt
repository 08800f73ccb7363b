//! An attribute of a paragraph, as `attributes` gives it: a name, and a value of one line or more.
//! All that reads submissions and objects asks it.

ghost use Rattle.std.specs.Prelude.{◌≡◌, ◌∷◌, ◌++◌, [], IfOk, IfSome, OnOk, map};
ghost use Rattle.std.specs.Prelude.{false};
ghost use Rattle.rr_text.specs.Lines.{text_lines};
ghost use Rattle.rr_text.specs.Entries.{continued};
ghost use Rattle.rr_text.specs.PrivateParts.{added_lines};

use crate::line::{LineKind, added_value, opened_value, split_line, written_name};
use crate::printing::{push_continuations, push_opening};
use std::alloc::{AllocError, Global};
use std::marker::Model;

/// An attribute of a paragraph: the line that opens it, and the text after that line, whose first
/// lines, perhaps none, continue the value. It is lent from the text of the paragraph. Contracts
/// see the name and the lines of the value.
#[derive(Debug, Drop)]
pub struct Attribute<'a> {
    line: &'a [u8],
    after: &'a [u8],
}

impl<'a> Model for Attribute<'a> {
    ghost use Rattle.rr_text.specs.Fields.{Field};
    ghost use Rattle.rr_text.specs.Lines.{text_lines};
    ghost use Rattle.rr_text.specs.Entries.{continued};
    ghost use Rattle.rr_text.specs.KeptText.{kept_field};

    ghost Value = { Field };

    ghost view = { λ a. kept_field a.line.now (continued (text_lines a.after.now)) };
}

impl<'a> Attribute<'a> {
    ghost use Rattle.rr_text.specs.Fields.{has_name, with_value};
    ghost use Rattle.rr_text.specs.CanonicalText.{field_text};
    ghost use Rattle.rr_text.specs.Outputs.{MayAdd};
    ghost use Rattle.rr_text.specs.KeptText.{kept_field};

    /// The attribute that this line opens, where this text stands after it.
    pub(crate) fn opened(line: &'a [u8], after: &'a [u8]) -> Attribute<'a>
        ensures { result ≡ kept_field line.now (continued (text_lines after.now)) }
    {
        Attribute { line, after }
    }

    /// The name. In each attribute of a paragraph it is in lower case, as `Paragraph::attributes`
    /// says.
    pub fn name(&self) -> &'a [u8]
        ensures { result.now ≡ self.now.name }
    {
        written_name(self.line)
    }

    /// Whether the name is exactly this one.
    pub fn has_name(&self, name: &[u8]) -> bool
        ensures { result ≡ has_name name.now self.now }
    {
        self.name() == name
    }

    /// The lines of the value. In each attribute of a paragraph there is at least one, and none has
    /// blanks round it, as `Paragraph::attributes` says. The error is that memory ran out.
    pub fn lines(&self, alloc: Global) -> Result<Vec<&'a [u8]>, AllocError>
        ensures { IfOk result (λ lines. map (λ line. line.now) lines.items ≡ self.now.lines) }
    {
        let mut lines = Vec::new(alloc);
        lines.push(opened_value(self.line))?;
        push_continued(&mut lines, self.after)?;
        Ok(lines)
    }

    /// The only line of the value, where it is seen to have no other; no clause says when the
    /// answer is `None`.
    pub(crate) fn only_line(&self) -> Option<&'a [u8]>
        ensures { IfSome result (λ line. self.now.lines ≡ line.now ∷ []) }
    {
        if continues(self.after) {
            return None;
        }
        Some(opened_value(self.line))
    }

    /// Appends the canonical text of the attribute.
    pub(crate) fn print_onto(&self, out: &mut Vec<u8>) -> Result<(), AllocError>
        ensures { MayAdd (field_text self.now) out.old.items out.new.items result }
    {
        push_opening(out, self.name(), opened_value(self.line))?;
        push_continuations(out, self.after)
    }

    /// Appends the canonical text of the attribute, with this line as its value if it has this
    /// name.
    pub(crate) fn print_onto_with_value(
        &self,
        out: &mut Vec<u8>,
        name: &[u8],
        line: &[u8],
    ) -> Result<(), AllocError>
        ensures { MayAdd (field_text (with_value name.now line.now self.now))
            out.old.items out.new.items result }
    {
        if self.has_name(name) {
            push_opening(out, self.name(), line)
        } else {
            self.print_onto(out)
        }
    }
}

/// Whether a text begins with a line that may continue a value.
fn continues(text: &[u8]) -> bool
    ensures { result ≡ false → continued (text_lines text.now) ≡ [] }
{
    if text.is_empty() {
        return false;
    }
    let (line, _) = split_line(text);
    !LineKind::of(line).opens_attribute()
}

/// Adds the lines that continue a value. No clause says what the list has after memory ran out,
/// here and below.
fn push_continued<'t>(lines: &mut Vec<&'t [u8]>, text: &'t [u8]) -> Result<(), AllocError>
    ensures { OnOk result (map (λ line. line.now) lines.new.items
        ≡ map (λ line. line.now) lines.old.items ++ continued (text_lines text.now)) }
{
    let mut rest = text;
    'lines: while !rest.is_empty() {
        let (line, after) = split_line(rest);
        let kind = LineKind::of(line);
        if kind.opens_attribute() {
            return Ok(());
        }
        push_added(lines, line, kind)?;
        rest = after;
    }
    Ok(())
}

/// Adds what a line adds to the lines of a value.
fn push_added<'t>(
    lines: &mut Vec<&'t [u8]>,
    line: &'t [u8],
    kind: LineKind,
) -> Result<(), AllocError>
    ensures { OnOk result (map (λ line. line.now) lines.new.items
        ≡ map (λ line. line.now) lines.old.items ++ added_lines line.now kind) }
{
    match kind {
        LineKind::Continuation => {
            lines.push(added_value(line))?;
            Ok(())
        }
        LineKind::Blank | LineKind::Skipped | LineKind::Opening => Ok(()),
    }
}
