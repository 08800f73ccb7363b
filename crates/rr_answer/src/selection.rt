//! The objects that a query asks for, looked up in the registry for `answering`.

ghost use Rattle.std.specs.Prelude.{◌≡◌, [], IfOk, filter};
ghost use Rattle.std.specs.FinMap.{get, values};
ghost use Rattle.std.specs.List.{cons_option, filter_map};
ghost use Rattle.std.specs.Option.{option_copied};
ghost use Rattle.rr_number.specs.Prefixes.{span_of};
ghost use Rattle.rr_object.specs.Objects.{object_names};
ghost use Rattle.rr_auth.specs.Registries.{Sound};
ghost use Rattle.rr_object.specs.declared.key.Key.TheVariants as key;
ghost use Rattle.rr_sets.specs.Lists.{lent};
ghost use Rattle.rr_answer.specs.declared.query.Query.TheVariants as query;
ghost use Rattle.rr_answer.specs.Selections as select;

use crate::query::Query;
use rr_auth::Book;
use rr_book::Keeper;
use rr_number::{AsNumber, Name, Prefix};
use rr_object::{Key, Object};
use rr_registry::Registry;
use std::alloc::{AllocError, Global};

/// The objects that the query asks for, by class and key; of an expansion none. The error is that
/// memory ran out, here and below.
pub(crate) fn asked<'a, B: Keeper>(
    alloc: Global,
    registry: &'a Registry<B>,
    query: &Query,
) -> Result<Vec<&'a Object>, AllocError>
    ensures { IfOk result (λ found. lent found.items ≡ select.asked query.now registry.now) }
{
    match query {
        Query::Object(key) => listed(alloc, registry.book().get(key)),
        Query::Exact(prefix) => exact(alloc, registry.book(), *prefix),
        Query::Closest(prefix) => closest(alloc, registry.book(), *prefix),
        Query::Less(prefix) => registry.covering(alloc, prefix.span()),
        Query::More(prefix) => registry.inside(alloc, prefix.span()),
        Query::Naming(name) => naming(alloc, registry, name),
        Query::Originated(number) => registry.book().routes_of(alloc, *number),
        Query::Expand(_) | Query::Prefixes(_) => Ok(Vec::new(alloc)),
    }
}

/// The object, if there is one, as a list.
fn listed(alloc: Global, object: Option<&Object>) -> Result<Vec<&Object>, AllocError>
    ensures { IfOk result
        (λ found. lent found.items ≡ cons_option (option_copied object.entry) []) }
{
    let mut found = Vec::new(alloc);
    if let Some(object) = object {
        found.push(object)?;
    }
    Ok(found)
}

/// The inetnum and the routes of exactly the prefix, each looked up by its key.
#[tactic(auto, using(crate::proofs::Exact::inetnum_before_routes))]
fn exact<B: Book>(alloc: Global, book: &B, prefix: Prefix) -> Result<Vec<&Object>, AllocError>
    ensures { IfOk result
        (λ found. lent found.items ≡ select.asked (query.Exact prefix) (B.contents book.now)) }
{
    // its length is one of a prefix
    let _length = prefix.length();
    let routes = routes_of(alloc, book, prefix)?;
    before(alloc, inetnum_of(book, prefix), &routes)
}

/// The inetnum of the prefix's span.
fn inetnum_of<B: Book>(book: &B, prefix: Prefix) -> Option<&Object>
    ensures { option_copied result ≡ get (B.contents book.now) (key.Inetnum (span_of prefix)) }
{
    let key = Key::Inetnum(prefix.span());
    book.get(&key)
}

/// The inetnum, if there is one, before the routes.
#[tactic(auto, using(crate::proofs::Lists::lent_after))]
fn before<'a>(
    alloc: Global,
    inetnum: Option<&'a Object>,
    routes: &[&'a Object],
) -> Result<Vec<&'a Object>, AllocError>
    ensures { IfOk result (λ found. lent found.items
        ≡ cons_option (option_copied inetnum.entry) (lent routes.now)) }
{
    let mut found = listed(alloc, inetnum)?;
    found.extend_from_slice(routes)?;
    Ok(found)
}

/// The objects that name the maintainer.
fn naming<'a, B: Keeper>(
    alloc: Global,
    registry: &'a Registry<B>,
    name: &Name,
) -> Result<Vec<&'a Object>, AllocError>
    ensures { IfOk result
        (λ found. lent found.items ≡ filter (object_names name.now) (values registry.now)) }
{
    let objects = registry.objects(alloc)?;
    those_naming(alloc, &objects, name)
}

/// Those of the objects that name the maintainer.
fn those_naming<'a>(
    alloc: Global,
    objects: &[&'a Object],
    name: &Name,
) -> Result<Vec<&'a Object>, AllocError>
    ensures { IfOk result (λ found. found.items
        ≡ filter (λ object. object_names name.now object.now) objects.now) }
{
    objects
        .iter()
        .copied()
        .filter(|object| object.names(name))
        .collect(alloc)
}

/// The closest inetnum to the prefix, and the closest routes.
fn closest<B: Book>(alloc: Global, book: &B, prefix: Prefix) -> Result<Vec<&Object>, AllocError>
    ensures { IfOk result
        (λ found. lent found.items ≡ select.asked (query.Closest prefix) (B.contents book.now)) }
{
    let routes = routes_closest(alloc, book, prefix)?;
    before(alloc, book.closest_inetnum(prefix.span()), &routes)
}

/// The closest routes to the prefix.
fn routes_closest<B: Book>(
    alloc: Global,
    book: &B,
    prefix: Prefix,
) -> Result<Vec<&Object>, AllocError>
    ensures { IfOk result
        (λ found. lent found.items ≡ select.routes_closest (B.contents book.now) prefix) }
{
    match book.closest_route_prefix(prefix) {
        Some(closest) => routes_of(alloc, book, closest),
        None => Ok(Vec::new(alloc)),
    }
}

/// The routes of the prefix, in a book that is sound.
#[tactic(auto, using(crate::proofs::Routes::routes_of_origins))]
fn routes_of<B: Book>(alloc: Global, book: &B, prefix: Prefix) -> Result<Vec<&Object>, AllocError>
    ensures routes { IfOk result (λ found. lent found.items
        ≡ filter (select.is_route_of prefix) (values (B.contents book.now))) }
    ensures sound { Sound (B.contents book.now) }
{
    let origins = book.origins(alloc, prefix)?;
    routes_from(alloc, book, prefix, &origins)
}

/// The routes of the prefix with these origins.
fn routes_from<'a, B: Book>(
    alloc: Global,
    book: &'a B,
    prefix: Prefix,
    origins: &[AsNumber],
) -> Result<Vec<&'a Object>, AllocError>
    ensures { IfOk result (λ found. lent found.items
        ≡ filter_map (λ n. get (B.contents book.now) (key.Route prefix n)) origins.now) }
{
    let mut found = Vec::new(alloc);
    for origin in origins {
        if let Some(route) = route_of(book, prefix, *origin) {
            found.push(route)?;
        }
    }
    Ok(found)
}

/// The route of the prefix and the origin.
fn route_of<B: Book>(book: &B, prefix: Prefix, origin: AsNumber) -> Option<&Object>
    ensures { option_copied result ≡ get (B.contents book.now) (key.Route prefix origin) }
{
    let key = Key::Route(prefix, origin);
    book.get(&key)
}
