//! Lists of a registry's objects, each by one pass over them. The plain book answers by these, and
//! the indexed book asks whether one object lies inside a span.

ghost use Rattle.std.specs.Prelude.{◌≡◌, IfOk, filter};
ghost use Rattle.rr_book.specs.Listings.{addresses, covers_span, lies_in};
ghost use Rattle.rr_sets.specs.Lists.{lent};

use rr_number::Span;
use rr_object::{Key, Object};
use std::alloc::{AllocError, Global};

/// All of the objects, in their order. The error is that memory ran out.
pub(crate) fn all(alloc: Global, objects: &[Object]) -> Result<Vec<&Object>, AllocError>
    ensures { IfOk result (λ found. lent found.items ≡ objects.now) }
{
    objects.iter().collect(alloc)
}

/// Those of the objects that are inetnums or routes whose addresses cover the span, or are the
/// span, in their order. The error is that memory ran out.
pub(crate) fn covering(
    alloc: Global,
    objects: &[Object],
    span: Span,
) -> Result<Vec<&Object>, AllocError>
    ensures { IfOk result (λ found. lent found.items ≡ filter (covers_span span) objects.now) }
{
    objects
        .iter()
        .filter(|object| covers_span(object, span))
        .collect(alloc)
}

/// Those of the objects that are inetnums or routes whose addresses lie inside the span, or are the
/// span, in their order. The error is that memory ran out.
pub(crate) fn inside(
    alloc: Global,
    objects: &[Object],
    span: Span,
) -> Result<Vec<&Object>, AllocError>
    ensures { IfOk result (λ found. lent found.items ≡ filter (lies_in span) objects.now) }
{
    objects
        .iter()
        .filter(|object| lies_in(object, span))
        .collect(alloc)
}

/// Whether the object is an inetnum or a route whose addresses cover the span, or are the span.
fn covers_span(object: &Object, span: Span) -> bool
    ensures { result ≡ covers_span span object.now }
{
    match addresses(object.key()) {
        Some(own) => own.covers(span),
        None => false,
    }
}

/// Whether the object is an inetnum or a route whose addresses lie inside the span, or are the
/// span.
pub fn lies_in(object: &Object, span: Span) -> bool
    ensures { result ≡ lies_in span object.now }
{
    match addresses(object.key()) {
        Some(own) => span.covers(own),
        None => false,
    }
}

/// The span that the key is about, where it is an inetnum's or a route's.
fn addresses(key: &Key) -> Option<Span>
    ensures { result ≡ addresses key.now }
{
    match key {
        Key::Inetnum(span) => Some(*span),
        Key::Route(prefix, _) => Some(prefix.span()),
        _ => None,
    }
}
