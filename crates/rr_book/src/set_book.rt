//! The lists that expansions of sets ask a plain book for. Those of a class or an origin take one
//! pass over the objects, and the objects that name a set are found by the keys under it.

ghost use Rattle.std.specs.Prelude.{◌≡◌, IfOk, filter};
ghost use Rattle.std.specs.List.{filter_map};
ghost use Rattle.rr_book.specs.SetLists.{is_of_class};
ghost use Rattle.rr_sets.specs.KeyParts.{prefix_from};
ghost use Rattle.rr_sets.specs.Lists.{is_originated, lent};

use crate::plain_book::PlainBook;
use rr_auth::Book;
use rr_number::{AsNumber, Prefix, SetName};
use rr_object::{Class, Key, Object};
use rr_sets::SetBook;
use std::alloc::{AllocError, Global};

impl SetBook for PlainBook {
    fn aut_nums(&self, alloc: Global) -> Result<Vec<&Object>, AllocError> {
        objects_of_class(alloc, self.as_slice(), Class::AutNum)
    }

    fn routes(&self, alloc: Global) -> Result<Vec<&Object>, AllocError> {
        objects_of_class(alloc, self.as_slice(), Class::Route)
    }

    fn routes_of(&self, alloc: Global, origin: AsNumber) -> Result<Vec<&Object>, AllocError> {
        objects_originated(alloc, self.as_slice(), origin)
    }

    fn prefixes_of(&self, alloc: Global, origin: AsNumber) -> Result<Vec<Prefix>, AllocError> {
        prefixes_from(alloc, self.as_slice(), origin)
    }

    fn referrers(&self, alloc: Global, name: &SetName) -> Result<Vec<&Object>, AllocError> {
        self.objects_that_name(alloc, name)
    }
}

/// The objects of the class, in their order; the error is that memory ran out.
fn objects_of_class<'a>(
    alloc: Global,
    objects: &'a [Object],
    class: Class,
) -> Result<Vec<&'a Object>, AllocError>
    ensures { IfOk result (λ found. lent found.items ≡ filter (is_of_class class) objects.now) }
{
    objects
        .iter()
        .filter(|object| is_of_class(object, class))
        .collect(alloc)
}

/// Whether the object is of the class, as its key says.
fn is_of_class(object: &Object, class: Class) -> bool
    ensures { result ≡ is_of_class class object.now }
{
    object.key().class() == class
}

/// The routes of the origin, in their order; the error is that memory ran out.
fn objects_originated(
    alloc: Global,
    objects: &[Object],
    origin: AsNumber,
) -> Result<Vec<&Object>, AllocError>
    ensures { IfOk result
        (λ found. lent found.items ≡ filter (is_originated origin) objects.now) }
{
    objects
        .iter()
        .filter(|object| is_originated(object, origin))
        .collect(alloc)
}

/// Whether the object is a route of the origin.
fn is_originated(object: &Object, origin: AsNumber) -> bool
    ensures { result ≡ is_originated origin object.now }
{
    match object.key() {
        Key::Route(_, own) => *own == origin,
        _ => false,
    }
}

/// The prefixes of the routes of the origin, in the order of the objects; the error is that memory
/// ran out.
fn prefixes_from(
    alloc: Global,
    objects: &[Object],
    origin: AsNumber,
) -> Result<Vec<Prefix>, AllocError>
    ensures { IfOk result
        (λ found. found.items ≡ filter_map (λ o. prefix_from origin o.key) objects.now) }
{
    objects
        .iter()
        .filter_map(|object| prefix_from(object.key(), origin))
        .collect(alloc)
}

/// The prefix of the key, where it is that of a route of the origin.
fn prefix_from(key: &Key, origin: AsNumber) -> Option<Prefix>
    ensures { result ≡ prefix_from origin key.now }
{
    match key {
        Key::Route(prefix, own) => { if *own == origin { Some(*prefix) } else { None } }
        _ => None,
    }
}
