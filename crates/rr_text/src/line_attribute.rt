//! Attributes made in memory, of which `Paragraph::new` makes a paragraph: for `opening` of
//! `rr_desk` and `upper` of `rr_store`.

ghost use Rattle.std.specs.Prelude.{◌≡◌, IfOk};

use crate::printing::push_opening;
use crate::text::Text;
use std::alloc::{AllocError, Global};
use std::marker::Model;

/// An attribute with a value of one line, in memory of its own. No clause bounds its bytes.
/// Contracts see the name, and a value of this line alone.
#[derive(Debug, Drop)]
pub struct LineAttribute {
    name: Text,
    line: Text,
}

impl Model for LineAttribute {
    ghost use Rattle.rr_text.specs.Fields.{Field, one_line};

    ghost Value = { Field };

    ghost view = { λ a. one_line a.name a.line };
}

impl LineAttribute {
    ghost use Rattle.rr_text.specs.Fields.{one_line};
    ghost use Rattle.rr_text.specs.CanonicalText.{field_text};
    ghost use Rattle.rr_text.specs.Outputs.{MayAdd};

    /// The attribute of this name, whose value is this line alone; both are taken as they are. The
    /// error is that memory ran out.
    pub fn new(alloc: Global, name: &[u8], line: &[u8]) -> Result<LineAttribute, AllocError>
        ensures { IfOk result (λ made. made ≡ one_line name.now line.now) }
    {
        let name = Text::from_slice(alloc, name)?;
        let line = Text::from_slice(alloc, line)?;
        Ok(LineAttribute { name, line })
    }

    /// Appends its canonical text.
    pub(crate) fn print_onto(&self, out: &mut Vec<u8>) -> Result<(), AllocError>
        ensures { MayAdd (field_text self.now) out.old.items out.new.items result }
    {
        push_opening(out, self.name.as_slice(), self.line.as_slice())
    }
}
