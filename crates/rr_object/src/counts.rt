//! How often attributes stand in an object, which `object` judges; and the text of a list, for
//! `object_reading`.

ghost use Rattle.std.specs.Prelude.{◌≡◌, not, IfOk, map};
ghost use Rattle.rr_bytes.specs.Parts.{is_filled};
ghost use Rattle.rr_object.specs.Items.{values_of};
ghost use Rattle.rr_object.specs.Kinds.{kind_name};
ghost use Rattle.rr_object.specs.Readings.{breaks, is_miscounted, is_miscounted_in};
ghost use Rattle.rr_object.specs.Readings.{items_read, list_text};
ghost use Rattle.rr_object.specs.declared.kind.Kind.TheVariants as kinds;
ghost use Rattle.rr_object.specs.declared.kind.Occurs.TheVariants.{Once};

use crate::class::Class;
use crate::kind::Kind;
use crate::lists::{count_named, items, joined, spaced};
use rr_text::{Paragraph, Text};
use std::alloc::{AllocError, Global};

/// Whether an attribute that an object of the class needs is missing or has no item, or one that
/// stands once is repeated; the values of `source` and the items of `mnt-by` were read.
pub(crate) fn is_miscounted(
    alloc: Global,
    class: Class,
    paragraph: &Paragraph,
    sources: &[Text],
    maintainers: &[&[u8]],
) -> Result<bool, AllocError>
    requires sources { sources.now ≡ values_of (kind_name kinds.Source) paragraph.now }
    requires maintainers { map (λ item. item.now) maintainers.now
        ≡ items_read kinds.MntBy class paragraph.now }
    ensures { IfOk result (λ miscounted. miscounted ≡ is_miscounted class paragraph.now) }
{
    Ok(
        count_named(paragraph, class.name().as_bytes()) != 1
            || is_missing(maintainers)
            || breaks_once(alloc, paragraph, sources)?
            || lacks_auth(class, paragraph),
    )
}

/// Whether there is no item.
fn is_missing(listed: &[&[u8]]) -> bool
    ensures { result ≡ not (is_filled (map (λ item. item.now) listed.now)) }
{
    listed.is_empty()
}

/// Whether the `source` stands more or less often than once, or has no item; its values were read.
#[tactic(auto, unfolding(crate::specs::Readings::items_of))]
fn breaks_once(alloc: Global, paragraph: &Paragraph, sources: &[Text]) -> Result<bool, AllocError>
    requires { sources.now ≡ values_of (kind_name kinds.Source) paragraph.now }
    ensures { IfOk result (λ breaking. breaking ≡ breaks Once kinds.Source paragraph.now) }
{
    if count_named(paragraph, Kind::Source.name().as_bytes()) != 1 {
        return Ok(true);
    }
    let text = joined(alloc, sources)?;
    let listed = items(alloc, &text)?;
    Ok(is_missing(&listed))
}

/// Whether an object of the class needs an `auth` and has none.
#[tactic(auto, using(crate::proofs::Counted::no_auth), unfolding(crate::specs::Kinds::occurs))]
fn lacks_auth(class: Class, paragraph: &Paragraph) -> bool
    ensures { result ≡ is_miscounted_in class kinds.Auth paragraph.now }
{
    match class {
        Class::Mntner => count_named(paragraph, Kind::Auth.name().as_bytes()) == 0,
        _ => false,
    }
}

/// The text in which the items of an attribute's values stand.
pub(crate) fn list_text(alloc: Global, kind: Kind, values: &[Text]) -> Result<Vec<u8>, AllocError>
    ensures { IfOk result (λ text. text.items ≡ list_text kind values.now) }
{
    let text = joined(alloc, values)?;
    if kind == Kind::MntRoutes {
        spaced(alloc, &text)
    } else {
        Ok(text)
    }
}
