//! Keys read from texts: from queries, and from the first attributes of paragraphs for
//! `paragraph_key`.

ghost use Rattle.std.specs.Prelude.{◌≡◌, IfOk, map};
ghost use Rattle.rr_object.specs.KeySpellings.{as_set_key_of, key_of_text, route_key_of};
ghost use Rattle.rr_object.specs.KeySpellings.{route_key_of_words, route_set_key_of};
ghost use Rattle.rr_object.specs.declared.class.Class.TheVariants as class;

use crate::class::Class;
use crate::key::Key;
use crate::members::is_as_set_kind;
use rr_bytes::words;
use rr_number::{AsNumber, AsSpan, Name, Prefix, SetName, Span};
use std::alloc::{AllocError, Global};

impl Key {
    /// The key of a class that a text spells, as in a query: for a route by two words, its prefix
    /// and its origin. `None` where it spells no key of the class; `AS-ANY` and `RS-ANY` are none.
    /// The error is that memory ran out (RFC 2622, 3 to 6; profile).
    #[tactic(auto, unfolding(crate::specs::KeySpellings::key_of_text))]
    pub fn read(alloc: Global, class: Class, text: &[u8]) -> Result<Option<Key>, AllocError>
        ensures { IfOk result (λ key. key ≡ key_of_text class text.now) }
    {
        match class {
            Class::Mntner => Ok(Name::read_maintainer(alloc, text)?.map(Key::Mntner)),
            Class::AsBlock => Ok(AsSpan::read(text).map(Key::AsBlock)),
            Class::AutNum => Ok(AsNumber::read(text).map(Key::AutNum)),
            Class::Inetnum => Ok(Span::read(text).map(Key::Inetnum)),
            Class::Route => read_route(alloc, text),
            Class::AsSet => Ok(read_as_set(alloc, text)?.map(Key::AsSet)),
            Class::RouteSet => Ok(read_route_set(alloc, text)?.map(Key::RouteSet)),
        }
    }
}

/// The key of a route that a text spells by two words.
#[tactic(auto, unfolding(crate::specs::KeySpellings::key_of_text))]
fn read_route(alloc: Global, text: &[u8]) -> Result<Option<Key>, AllocError>
    ensures { IfOk result (λ key. key ≡ key_of_text class.Route text.now) }
{
    let found = words(alloc, text)?;
    Ok(route_of_words(&found))
}

/// The key of a route that these words spell, if they are two.
fn route_of_words(found: &[&[u8]]) -> Option<Key>
    ensures { result ≡ route_key_of_words (map (λ word. word.now) found.now) }
{
    match found {
        [prefix, origin] => route_key_of(prefix, origin),
        _ => None,
    }
}

/// The key of a route of this prefix and this origin.
pub(crate) fn route_key_of(prefix: &[u8], origin: &[u8]) -> Option<Key>
    ensures { result ≡ route_key_of prefix.now origin.now }
{
    let prefix = Prefix::read(prefix)?;
    let origin = AsNumber::read(origin)?;
    Some(Key::Route(prefix, origin))
}

/// The name of an as-set other than `AS-ANY` that a text spells.
fn read_as_set(alloc: Global, text: &[u8]) -> Result<Option<SetName>, AllocError>
    ensures { IfOk result (λ name. name ≡ as_set_key_of text.now) }
{
    match SetName::read(alloc, text)? {
        Some(name) if is_as_set_kind(name.kind()) && !name.is_any() => Ok(Some(name)),
        _ => Ok(None),
    }
}

/// The name of a route-set other than `RS-ANY` that a text spells.
fn read_route_set(alloc: Global, text: &[u8]) -> Result<Option<SetName>, AllocError>
    ensures { IfOk result (λ name. name ≡ route_set_key_of text.now) }
{
    match SetName::read(alloc, text)? {
        Some(name) if !is_as_set_kind(name.kind()) && !name.is_any() => Ok(Some(name)),
        _ => Ok(None),
    }
}
