//! The objects of an answer, each where it stands: in the registry, or in a public form made for
//! the answer. `found` keeps them.

ghost use Rattle.std.specs.Prelude.{◌≡◌, IfOk};
ghost use Rattle.std.specs.List.{flat_map};
ghost use Rattle.rr_object.specs.Readings.{public_of};
ghost use Rattle.rr_sets.specs.Lists.{lent};
ghost use Rattle.rr_answer.specs.Founds as founds;
ghost use Rattle.rr_answer.specs.Texts.{public_text};

use crate::part::Part;
use crate::text::push_paragraph;
use rr_io::{Writer, write_pieces};
use rr_object::{Object, public};
use rr_text::Paragraph;
use std::alloc::{AllocError, Global};
use std::io;

/// An object as it is answered: what the registry keeps, or its public form where that is another.
#[derive(Drop)]
pub enum Form<'a> {
    /// The paragraph of the object, which hides nothing.
    Kept(&'a Paragraph),
    /// The public form, made for this answer.
    Made(Box<Paragraph>),
}

impl<'a> Form<'a> {
    /// The form in which an object is answered, its public one. The error is that memory ran out.
    #[tactic(auto, using(crate::proofs::Forms::nothing_hidden))]
    pub(crate) fn of(alloc: Global, object: &'a Object) -> Result<Form<'a>, AllocError>
        ensures { IfOk result (λ form. founds.shown form ≡ public_of object.now) }
    {
        let paragraph = object.paragraph();
        if !paragraph.has(b"auth") {
            return Ok(Form::Kept(paragraph));
        }
        match Box::new(alloc, public(alloc, object)?) {
            Ok(made) => Ok(Form::Made(made)),
            Err(_) => Err(AllocError),
        }
    }

    /// The paragraph that is answered.
    fn paragraph(&self) -> &Paragraph
        ensures { result.now ≡ founds.shown self.now }
    {
        match self {
            Form::Kept(paragraph) => paragraph,
            Form::Made(paragraph) => paragraph,
        }
    }
}

/// An object as it is answered.
impl Part for Form<'_> {
    ghost use Rattle.rr_answer.specs.Founds.{form_text};
    ghost use Rattle.rr_answer.specs.HasBytes.{form_has_bytes};

    ghost bytes = { form_text };

    ghost has_bytes = { form_has_bytes };

    fn push_onto(&self, out: &mut Vec<u8>) -> Result<(), AllocError> {
        push_paragraph(out, self.paragraph())
    }

    fn write<W: Writer>(&self, writer: &mut W) -> io::Result<()> {
        write_pieces(writer, &[self.paragraph().text(), b"\n"])
    }
}

/// The forms of the objects, in their order; the clause says which text they have together. The
/// error is that memory ran out.
#[tactic(auto, using(crate::proofs::Lists::texts_lent))]
pub(crate) fn forms<'a>(alloc: Global, objects: &[&'a Object]) -> Result<Vec<Form<'a>>, AllocError>
    ensures { IfOk result (λ forms.
        flat_map founds.form_text forms.items ≡ flat_map public_text (lent objects.now)) }
{
    let mut forms = Vec::with_capacity(alloc, objects.len())?;
    'objects: for object in objects {
        let form = Form::of(alloc, object)?;
        match forms.push(form) {
            Ok(()) => {}
            Err(_) => return Err(AllocError),
        }
    }
    Ok(forms)
}
