//! Objects as `rr_answer` shows them to everybody in answers and dumps: without the values of
//! `auth`.

ghost use Rattle.std.specs.Prelude.{◌≡◌, IfOk};
ghost use Rattle.rr_object.specs.Readings.{public_of};
ghost use Rattle.rr_text.specs.CanonicalText.{canonical};
ghost use Rattle.rr_text.specs.Outputs.{MayAdd};

use crate::object::Object;
use rr_text::{Paragraph, print_onto_with_values};
use std::alloc::{AllocError, Global};

/// The attribute whose values are not shown.
const SECRET: &[u8] = b"auth";

/// The line in place of each of them.
const FILTERED: &[u8] = b"# filtered";

/// The paragraph of an object for public answers: each value of an attribute named `auth` is the
/// line `# filtered`, and the other attributes are as they are. The error is that memory ran out.
#[tactic(auto, unfolding(crate::specs::Readings::public_of))]
pub fn public(alloc: Global, object: &Object) -> Result<Paragraph, AllocError>
    ensures { IfOk result (λ paragraph. paragraph ≡ public_of object.now) }
{
    object.paragraph().with_values(alloc, SECRET, FILTERED)
}

/// Appends the canonical text of an object's paragraph for public answers. There each value of an
/// attribute named `auth` is the line `# filtered`; the other attributes are as they are. The error
/// is that memory ran out: then bytes may have been appended, and what stood before them stays.
#[tactic(auto, unfolding(crate::specs::Readings::public_of))]
pub fn print_public(out: &mut Vec<u8>, object: &Object) -> Result<(), AllocError>
    ensures { MayAdd (canonical (public_of object.now)) out.old.items out.new.items result }
{
    print_onto_with_values(out, object.paragraph(), SECRET, FILTERED)
}
