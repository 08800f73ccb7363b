//! The values of a paragraph's attributes, and the items of lists: for the reading of objects.

ghost use Rattle.std.specs.Prelude.{◌≡◌, IfOk, map};
ghost use Rattle.rr_text.specs.Fields.{has_name};
ghost use Rattle.rr_object.specs.Items.{items, joined, spaced, values_of};
ghost use Rattle.rr_object.specs.Readings.{count_named};

use rr_bytes::{ByteSet, parts_between};
use rr_text::{Paragraph, Text, meaning};
use std::alloc::{AllocError, Global};

/// How many attributes have this name.
pub(crate) fn count_named(paragraph: &Paragraph, name: &[u8]) -> usize
    ensures { result ≡ count_named name.now paragraph.now }
{
    paragraph
        .attributes()
        .filter(|attribute| attribute.has_name(name))
        .count()
}

/// What the attributes of this name say, in order.
pub(crate) fn values_of(
    alloc: Global,
    paragraph: &Paragraph,
    name: &[u8],
) -> Result<Vec<Text>, AllocError>
    ensures { IfOk result (λ values. values.items ≡ values_of name.now paragraph.now) }
{
    let mut values = Vec::new(alloc);
    for attribute in paragraph.attributes() {
        if attribute.has_name(name) {
            values.push(meaning(alloc, &attribute)?)?;
        }
    }
    Ok(values)
}

/// The values one after another, each ended by a comma.
pub(crate) fn joined(alloc: Global, values: &[Text]) -> Result<Vec<u8>, AllocError>
    ensures { IfOk result (λ text. text.items ≡ joined values.now) }
{
    let mut text = Vec::new(alloc);
    'values: for value in values {
        text.extend_from_slice(value.as_slice())?;
        text.push(b',')?;
    }
    Ok(text)
}

/// The text with a space on either side of each brace.
pub(crate) fn spaced(alloc: Global, text: &[u8]) -> Result<Vec<u8>, AllocError>
    ensures { IfOk result (λ out. out.items ≡ spaced text.now) }
{
    let mut out = Vec::new(alloc);
    'bytes: for b in text {
        if *b == b'{' || *b == b'}' {
            out.extend_from_slice(&[b' ', *b, b' '])?;
        } else {
            out.push(*b)?;
        }
    }
    Ok(out)
}

/// The items of a list.
#[tactic(auto, unfolding(crate::specs::Items::items))]
pub(crate) fn items(alloc: Global, text: &[u8]) -> Result<Vec<&[u8]>, AllocError>
    ensures { IfOk result (λ listed. map (λ item. item.now) listed.items ≡ items text.now) }
{
    parts_between(alloc, text, ByteSet::BlanksAndCommas)
}
