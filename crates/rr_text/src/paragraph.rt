//! Paragraphs, which are attributes in order: texts are read as them, and objects keep them.

ghost use Rattle.std.specs.Prelude.{◌≡◌, ◌↔◌, ◌<◌, ◌^◌, IsTrue, IfOk, length};
ghost use Rattle.std.specs.Prelude.{not, map, filter};
ghost use Rattle.std.specs.List.{list_any};
ghost use Rattle.rr_text.specs.Fields.{AreFields, IsLine, has_name};
ghost use Rattle.rr_text.specs.Fields as fields;
ghost use Rattle.rr_text.specs.CanonicalText.{canonical};
ghost use Rattle.rr_text.specs.KeptText.{IsKeptText, fields_in};

use crate::attributes::Attributes;
use crate::canonical::print_onto_with_values;
use crate::line_attribute::LineAttribute;
use std::alloc::{AllocError, Global};
use std::marker::Model;

/// A paragraph: attributes in order, perhaps none, each well formed as `attributes` says. It is
/// kept as its canonical text, in one piece of memory, and contracts see the list of attributes as
/// plain data.
#[derive(Debug, Drop)]
pub struct Paragraph {
    text: Vec<u8>,
}

impl Model for Paragraph {
    ghost use Rattle.std.specs.Prelude.{List};
    ghost use Rattle.rr_text.specs.Fields.{Field};
    ghost use Rattle.rr_text.specs.KeptText.{IsKeptText, fields_in};

    ghost Value = { List Field };

    ghost view = { λ p. fields_in p.text.items };

    ghost invariant = { λ p. IsKeptText p.text.items };
}

impl Paragraph {
    /// The paragraph of these attributes, in this order; the error is that memory ran out. Each
    /// must have the name of an attribute, in lower case, and a line with no blanks round it, no LF
    /// and no refused byte.
    pub fn new(alloc: Global, attributes: &[LineAttribute]) -> Result<Paragraph, AllocError>
        requires { AreFields attributes.now }
        ensures { IfOk result (λ made. made ≡ attributes.now) }
    {
        Ok(Paragraph::kept(printed(alloc, attributes)?))
    }

    /// The paragraph whose canonical text this must be, of well-formed attributes. The text is
    /// moved to memory that fits it; no clause says so.
    pub(crate) fn kept(text: Vec<u8>) -> Paragraph
        requires { IsKeptText text.items }
        ensures { result ≡ fields_in text.items }
    {
        let mut text = text;
        text.shrink_to_fit();
        Paragraph { text }
    }

    /// The canonical text of the paragraph (profile). Its attributes are well formed: each has the
    /// name of an attribute, in lower case, and at least one line. No line has an LF, a refused
    /// byte or blanks round it.
    pub fn text(&self) -> &[u8]
        ensures canonical { result.now ≡ canonical self.now }
        ensures fields { AreFields self.now }
    {
        &self.text
    }

    /// The attributes in order, fewer than 2^63. They are well formed: each has the name of an
    /// attribute, in lower case, and at least one line. No line has an LF, a refused byte or blanks
    /// round it.
    #[tactic(auto, using(crate::proofs::KeptLemmas::fields_few))]
    pub fn attributes(&self) -> Attributes<'_>
        ensures value { result ≡ self.now }
        ensures fields { AreFields self.now }
        ensures few { length self.now < 2 ^ 63 }
    {
        Attributes::of(&self.text)
    }

    /// Whether an attribute has exactly this name. Names are kept in lower case.
    pub fn has(&self, name: &[u8]) -> bool
        ensures { result ≡ list_any (has_name name.now) self.now }
    {
        self.attributes().any(|attribute| attribute.has_name(name))
    }

    /// An equal paragraph; the error is that memory ran out.
    pub fn copy(&self, alloc: Global) -> Result<Paragraph, AllocError>
        ensures { IfOk result (λ copy. copy ≡ self.now) }
    {
        let text = Vec::from_slice(alloc, &self.text)?;
        Ok(Paragraph { text })
    }

    /// The paragraph less its attributes of exactly this name, the others in their order. Names are
    /// kept in lower case. The error is that memory ran out.
    pub fn without(self, alloc: Global, name: &[u8]) -> Result<Paragraph, AllocError>
        ensures { IfOk result
            (λ made. made ≡ filter (λ field. not (has_name name.now field)) self) }
    {
        if !self.has(name) {
            return Ok(self);
        }
        Ok(Paragraph::kept(printed_without(alloc, &self, name)?))
    }

    /// A copy in which each attribute of exactly this name has this one line as its value; the
    /// others are as they were, and all are in their order. Names are kept in lower case. The line
    /// must have no blanks round it, no LF and no refused byte. The error is that memory ran out.
    pub fn with_values(
        &self,
        alloc: Global,
        name: &[u8],
        line: &[u8],
    ) -> Result<Paragraph, AllocError>
        requires { IsLine line.now }
        ensures { IfOk result
            (λ made. made ≡ map (fields.with_value name.now line.now) self.now) }
    {
        let mut text = Vec::new(alloc);
        print_onto_with_values(&mut text, self, name, line)?;
        // they are fields, as those that are printed have to be
        let _attributes = self.attributes();
        Ok(Paragraph::kept(text))
    }
}

impl PartialEq for Paragraph {
    ghost use Rattle.rr_text.specs.Fields.{fields_eq};
    ghost use Rattle.rr_text.specs.FieldEquality.{fields_eq-laws};

    ghost eq = { fields_eq };

    ghost laws = { fields_eq-laws };

    /// Whether the attributes are the same, in the same order.
    fn eq(&self, other: &Paragraph) -> bool
        ensures value { result ≡ fields_eq self.now other.now }
        ensures same { IsTrue result ↔ (self.now ≡ other.now) }
    {
        self.text == other.text
    }
}

/// The canonical text of these attributes; the error is that memory ran out.
#[tactic(auto, unfolding(crate::specs::CanonicalText::canonical))]
fn printed(alloc: Global, attributes: &[LineAttribute]) -> Result<Vec<u8>, AllocError>
    ensures { IfOk result (λ text. text.items ≡ canonical attributes.now) }
{
    let mut text = Vec::new(alloc);
    for attribute in attributes {
        attribute.print_onto(&mut text)?;
    }
    Ok(text)
}

/// The canonical text of a paragraph without its attributes of this name; the error is that memory
/// ran out.
fn printed_without(alloc: Global, paragraph: &Paragraph, name: &[u8]) -> Result<Vec<u8>, AllocError>
    ensures { IfOk result (λ text. text.items
        ≡ canonical (filter (λ field. not (has_name name.now field)) paragraph.now)) }
{
    let mut text = Vec::new(alloc);
    for attribute in paragraph.attributes() {
        if !attribute.has_name(name) {
            attribute.print_onto(&mut text)?;
        }
    }
    Ok(text)
}
