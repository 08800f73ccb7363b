//! What a submission's paragraph holds beside its object, as `items` and `request` ask.

ghost use Rattle.std.specs.Prelude.{◌≡◌, IfOk};
ghost use Rattle.rr_submission.specs.SubmissionTexts.{asks_deletion, is_password, is_secrets_alone};
ghost use Rattle.rr_submission.specs.SubmissionTexts.{own_fields};

use rr_text::{Attribute, Paragraph};
use std::alloc::{AllocError, Global};

/// Whether an attribute gives a secret.
pub(crate) fn is_password(attribute: &Attribute) -> bool
    ensures { result ≡ is_password attribute.now }
{
    attribute.has_name(b"password")
}

/// Whether a paragraph gives secrets and is not an item.
pub(crate) fn is_secrets_alone(paragraph: &Paragraph) -> bool
    ensures { result ≡ is_secrets_alone paragraph.now }
{
    paragraph
        .attributes()
        .all(|attribute| is_password(&attribute))
}

/// Whether a paragraph asks for a deletion.
pub(crate) fn asks_deletion(paragraph: &Paragraph) -> bool
    ensures { result ≡ asks_deletion paragraph.now }
{
    paragraph.has(b"delete")
}

/// The paragraph less its attributes `password` and `delete`; the error is that memory ran out.
pub(crate) fn own_paragraph(alloc: Global, paragraph: Paragraph) -> Result<Paragraph, AllocError>
    ensures { IfOk result (λ own. own ≡ own_fields paragraph) }
{
    let asked = paragraph.without(alloc, b"password")?;
    asked.without(alloc, b"delete")
}
