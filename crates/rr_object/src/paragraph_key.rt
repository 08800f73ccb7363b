//! The keys of paragraphs: for the reading of objects, and for reports and messages about what is
//! no object.

ghost use Rattle.std.specs.Prelude.{◌≡◌, IfOk};
ghost use Rattle.rr_object.specs.Faults.{GivesUnlessMemory};
ghost use Rattle.rr_object.specs.Items.{only};
ghost use Rattle.rr_object.specs.KeySpellings.{key_at, key_from, key_of, route_key_of};
ghost use Rattle.rr_object.specs.declared.class.Class.TheVariants as class;
ghost use Rattle.std.specs.Option.{option_and_then};

use crate::class::Class;
use crate::key::Key;
use crate::key_text::route_key_of;
use crate::kind::Kind;
use crate::lists::values_of;
use crate::object_fault::ObjectFault;
use rr_text::{Attribute, Paragraph, Text, meaning};
use std::alloc::{AllocError, Global};

/// The key of a paragraph (RFC 2622, 2 and 4). Its first attribute names the class, and the value
/// of that attribute is the key; a route's key is this prefix and the one `origin`. `UnknownClass`
/// where there is no attribute or the first names no class. `BadKey` where these values spell no
/// key of the class, or a route has not exactly one `origin`. `Memory` where memory ran out.
pub fn key_of(alloc: Global, paragraph: &Paragraph) -> Result<Key, ObjectFault>
    ensures { GivesUnlessMemory (key_of paragraph.now) result }
{
    match paragraph.attributes().next() {
        Some(first) => key_by(alloc, paragraph, &first),
        None => Err(ObjectFault::UnknownClass),
    }
}

/// The key of a paragraph of which this is the first attribute.
fn key_by(alloc: Global, paragraph: &Paragraph, first: &Attribute) -> Result<Key, ObjectFault>
    ensures { GivesUnlessMemory (key_from first.now paragraph.now) result }
{
    let Some(class) = Class::named(first.name()) else {
        return Err(ObjectFault::UnknownClass);
    };
    let text = meaning(alloc, first)?;
    match key_at(alloc, class, text.as_slice(), paragraph)? {
        Some(key) => Ok(key),
        None => Err(ObjectFault::BadKey),
    }
}

/// The key of an object of a class whose class attribute means this text.
#[tactic(auto, unfolding(crate::specs::KeySpellings::key_at))]
fn key_at(
    alloc: Global,
    class: Class,
    text: &[u8],
    paragraph: &Paragraph,
) -> Result<Option<Key>, AllocError>
    ensures { IfOk result (λ key. key ≡ key_at class text.now paragraph.now) }
{
    match class {
        Class::Route => route_key_at(alloc, text, paragraph),
        _ => Key::read(alloc, class, text),
    }
}

/// The key of a route whose class attribute means this text, by the one `origin` of its paragraph.
#[tactic(auto, unfolding(crate::specs::KeySpellings::key_at))]
fn route_key_at(
    alloc: Global,
    text: &[u8],
    paragraph: &Paragraph,
) -> Result<Option<Key>, AllocError>
    ensures { IfOk result (λ key. key ≡ key_at class.Route text.now paragraph.now) }
{
    let origins = values_of(alloc, paragraph, Kind::Origin.name().as_bytes())?;
    Ok(route_key_with(text, &origins))
}

/// The key of a route of this prefix and the one of these origins; none where they are not one.
fn route_key_with(text: &[u8], origins: &[Text]) -> Option<Key>
    ensures { result ≡ option_and_then (route_key_of text.now) (only origins.now) }
{
    match origins {
        [origin] => route_key_of(text, origin.as_slice()),
        _ => None,
    }
}
