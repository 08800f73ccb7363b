//! The secret that an attribute of a submission gives. `items` collects the secrets.

ghost use Rattle.std.specs.Prelude.{◌≡◌, IfOk};
ghost use Rattle.rr_submission.specs.SubmissionTexts.{secret_of};

use rr_bytes::joined_by_space;
use rr_text::Attribute;
use std::alloc::{AllocError, Global};

/// The secret that an attribute `password` gives: the lines of its value joined by one space, `#`
/// kept (profile). The error is that memory ran out.
pub(crate) fn secret_of(alloc: Global, attribute: &Attribute) -> Result<Vec<u8>, AllocError>
    ensures { IfOk result (λ secret. secret.items ≡ secret_of attribute.now) }
{
    let lines = attribute.lines(alloc)?;
    joined_by_space(alloc, &lines)
}
