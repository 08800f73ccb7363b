//! The block of AS numbers that tables of version 1 did not know, which `migrating` adds. A new
//! registry of `rr_desk` has it too.

ghost use Rattle.std.specs.Prelude.{◌≡◌, IfOk, IfSome, IsSome};
ghost use Rattle.rr_text.specs.Fields.{AreFields};
ghost use Rattle.rr_object.specs.Objects.{Obj};
ghost use Rattle.rr_object.specs.Readings.{ReadsAs};
ghost use Rattle.rr_store.specs.Maps.{IsObjectOf};
ghost use Rattle.rr_store.specs.Migrating.{upper_block};

use crate::objects::read_paragraph;
use rr_number::Name;
use rr_object::Object;
use rr_text::{LineAttribute, Paragraph};
use std::alloc::{AllocError, Global};

/// The AS numbers of more than 16 bits (RFC 6793).
const UPPER: &[u8] = b"AS65536 - AS4294967295";

/// The attributes of the block, which are well formed. The error is that memory ran out, here and
/// below.
#[tactic(auto, using(crate::proofs::UpperLemmas::upper_fields))]
fn upper_attributes(
    alloc: Global,
    root: &Name,
    source: &Name,
) -> Result<Vec<LineAttribute>, AllocError>
    ensures value { IfOk result (λ attributes.
        attributes.items ≡ upper_block root.now source.now) }
    ensures fields { IfOk result (λ attributes. AreFields attributes.items) }
{
    let mut attributes = Vec::with_capacity(alloc, 3)?;
    attributes.push(LineAttribute::new(alloc, b"as-block", UPPER)?)?;
    attributes.push(LineAttribute::new(alloc, b"mnt-by", root.as_bytes())?)?;
    attributes.push(LineAttribute::new(alloc, b"source", source.as_bytes())?)?;
    Ok(attributes)
}

/// The paragraph of the block.
fn upper_paragraph(alloc: Global, root: &Name, source: &Name) -> Result<Paragraph, AllocError>
    ensures value { IfOk result (λ paragraph. paragraph ≡ upper_block root.now source.now) }
    ensures fields { IfOk result AreFields }
{
    let attributes = upper_attributes(alloc, root, source)?;
    Paragraph::new(alloc, &attributes)
}

/// The block of the AS numbers of more than 16 bits (RFC 6793), which the root maintains: what its
/// paragraph (`upper_block`) reads as in this source. It is such as readers make in a registry of
/// the source. `None` comes exactly where the paragraph reads as no object there. The error is that
/// memory ran out.
pub fn upper_object(alloc: Global, root: &Name, source: &Name) -> Result<Option<Object>, AllocError>
    ensures of_source { IfOk result (λ made. IfSome made (IsObjectOf source.now)) }
    ensures read { IfOk result (λ made. IfSome made
        (ReadsAs source.now (upper_block root.now source.now))) }
    ensures only { IfOk result (λ made. (object : Obj) →
        ReadsAs source.now (upper_block root.now source.now) object → IsSome made) }
{
    let paragraph = upper_paragraph(alloc, root, source)?;
    read_paragraph(alloc, paragraph, source)
}
