//! The closest objects of a class to a span, by a scan of a list. The plain book answers by it.

ghost use Rattle.std.specs.Prelude.{◌≡◌};
ghost use Rattle.std.specs.List.{list_all};
ghost use Rattle.std.specs.Option.{option_copied};
ghost use Rattle.rr_auth.specs.Closest.{closest_of, is_closest, is_no_closer, block_span};
ghost use Rattle.rr_auth.specs.Closest.{inetnum_span, prefix_of_closest, route_prefix, route_span};
ghost use Rattle.rr_book.specs.Private.{span_in};

use rr_number::{Prefix, Span};
use rr_object::{Class, Key, Object};

/// The first of the objects of the class that is closest to the span. Its own span covers or equals
/// that, and no smaller one of the class does. None if there is none, as of a class without spans.
/// No clause says that only objects that cover the span are compared with the others.
pub(crate) fn closest<'a>(objects: &'a [Object], class: Class, span: Span) -> Option<&'a Object>
    ensures { option_copied result ≡ closest_of (span_in class) objects.now span }
{
    objects
        .iter()
        .find(|object| is_closest(objects, class, span, object))
}

/// Whether the object is closest to the span, among these objects of the class.
fn is_closest(objects: &[Object], class: Class, span: Span, object: &Object) -> bool
    ensures { result ≡ is_closest (span_in class) objects.now span object.now }
{
    match span_in(class, object.key()) {
        Some(own) => own.covers(span) && none_is_closer(objects, class, span, own),
        None => false,
    }
}

/// Whether no object of the class covers the span and is smaller than `own`.
fn none_is_closer(objects: &[Object], class: Class, span: Span, own: Span) -> bool
    ensures { result ≡ list_all (is_no_closer (span_in class) span own) objects.now }
{
    objects
        .iter()
        .all(|object| is_no_closer(class, span, own, object))
}

/// Whether the object is not of the class, does not cover the span, or is not smaller than `own`.
fn is_no_closer(class: Class, span: Span, own: Span, object: &Object) -> bool
    ensures { result ≡ is_no_closer (span_in class) span own object.now }
{
    match span_in(class, object.key()) {
        Some(other) => !other.covers(span) || own.size() <= other.size(),
        None => true,
    }
}

/// The span of the key, where the key is of the class and this is as-block, inetnum or route.
fn span_in(class: Class, key: &Key) -> Option<Span>
    ensures { result ≡ span_in class key.now }
{
    match class {
        Class::Inetnum => inetnum_span(key),
        Class::AsBlock => block_span(key),
        Class::Route => route_span(key),
        _ => None,
    }
}

fn inetnum_span(key: &Key) -> Option<Span>
    ensures { result ≡ inetnum_span key.now }
{
    match key {
        Key::Inetnum(span) => Some(*span),
        _ => None,
    }
}

fn block_span(key: &Key) -> Option<Span>
    ensures { result ≡ block_span key.now }
{
    match key {
        Key::AsBlock(span) => Some(span.span()),
        _ => None,
    }
}

fn route_span(key: &Key) -> Option<Span>
    ensures { result ≡ route_span key.now }
{
    match key {
        Key::Route(prefix, _) => Some(prefix.span()),
        _ => None,
    }
}

/// The prefix of the first of the routes that is closest to the prefix, as `closest` says; none if
/// none covers it.
pub(crate) fn closest_route_prefix(objects: &[Object], prefix: Prefix) -> Option<Prefix>
    ensures { result ≡ prefix_of_closest objects.now prefix }
{
    match closest(objects, Class::Route, prefix.span()) {
        Some(route) => route_prefix(route.key()),
        None => None,
    }
}

fn route_prefix(key: &Key) -> Option<Prefix>
    ensures { result ≡ route_prefix key.now }
{
    match key {
        Key::Route(prefix, _) => Some(*prefix),
        _ => None,
    }
}
