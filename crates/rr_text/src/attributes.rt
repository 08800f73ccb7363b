//! The attributes of a paragraph's text in turn: what `Paragraph::attributes` gives.

ghost use Rattle.std.specs.Prelude.{◌≡◌, ◌∷◌};
ghost use Rattle.std.specs.Iterator.{YieldsFirst, item_count};
ghost use Rattle.rr_text.specs.Lines.{text_lines};
ghost use Rattle.rr_text.specs.KeptText.{fields_in, kept_fields};
ghost use Rattle.rr_text.specs.PrivateParts.{OpensOrEnds};

use crate::attribute::Attribute;
use crate::line::{LineKind, split_line};
use std::marker::Model;

/// The attributes of a text that are still to come: the line that opens the next one and the text
/// after it, or nothing. Contracts see the list of these attributes, of which `next` takes the
/// first.
#[derive(Debug, Drop)]
pub struct Attributes<'a> {
    line: &'a [u8],
    after: &'a [u8],
}

impl<'a> Model for Attributes<'a> {
    ghost use Rattle.std.specs.Prelude.{List, ◌∷◌};
    ghost use Rattle.rr_text.specs.Fields.{Field};
    ghost use Rattle.rr_text.specs.Lines.{text_lines};
    ghost use Rattle.rr_text.specs.KeptText.{kept_fields};
    ghost use Rattle.rr_text.specs.PrivateParts.{OpensOrEnds};

    ghost Value = { List Field };

    ghost view = { λ a. kept_fields (a.line.now ∷ text_lines a.after.now) };

    ghost invariant = { λ a. OpensOrEnds a.line.now a.after.now };
}

impl<'a> Attributes<'a> {
    /// The attributes of a text.
    #[tactic(auto, unfolding(crate::specs::KeptText::fields_in))]
    pub(crate) fn of(text: &'a [u8]) -> Attributes<'a>
        ensures { result ≡ fields_in text.now }
    {
        let (line, after) = next_opening(text);
        Attributes { line, after }
    }
}

impl<'a> Iterator for Attributes<'a> {
    type Item = Attribute<'a>;

    ghost next_gives = { YieldsFirst (λ fields. fields) };

    ghost remaining = { item_count (λ fields. fields) };

    /// The first of the attributes that are still to come, which is then no longer among them;
    /// `None` where there is none.
    fn next(&mut self) -> Option<Attribute<'a>> {
        if self.line.is_empty() {
            return None;
        }
        let attribute = Attribute::opened(self.line, self.after);
        let (line, after) = next_opening(self.after);
        self.line = line;
        self.after = after;
        Some(attribute)
    }
}

/// The first line of a text that opens an attribute and the text after it; nothing where there is
/// none.
fn next_opening(text: &[u8]) -> (&[u8], &[u8])
    ensures fields { kept_fields (result.0.now ∷ text_lines result.1.now)
        ≡ kept_fields (text_lines text.now) }
    ensures next { OpensOrEnds result.0.now result.1.now }
{
    let mut rest = text;
    'lines: while !rest.is_empty() {
        let (line, after) = split_line(rest);
        if LineKind::of(line).opens_attribute() {
            return (line, after);
        }
        rest = after;
    }
    (rest, rest)
}
