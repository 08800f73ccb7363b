//! The ranges that are in a set itself, without those of its references: for `route_sets`.

ghost use Rattle.std.specs.Prelude.{◌≡◌, ◌↔◌, ◌⊎◌, ◌||◌, Contains, IfOk, is_some, map};
ghost use Rattle.std.specs.List.{filter_map};
ghost use Rattle.std.specs.Option.{option_copied};
ghost use Rattle.std.specs.Str.{bytes_eq};
ghost use Rattle.rr_number.specs.AnySets.{as_any, rs_any};
ghost use Rattle.rr_number.specs.Ranges.{RangeParts, bare};
ghost use Rattle.rr_number.specs.SetNames.{kind_of};
ghost use Rattle.rr_object.specs.Keys.{key_of_kind};
ghost use Rattle.rr_auth.specs.Registries.{LooksUp};
ghost use Rattle.rr_sets.specs.KeyParts.{range_of_key};
ghost use Rattle.rr_sets.specs.MemberParts.{range_listed};
ghost use Rattle.rr_sets.specs.RouteSets.{HasRange, IsAnyRange, IsByReference, IsOriginated};
ghost use Rattle.rr_sets.specs.RouteSets.{ListsRange};
ghost use Rattle.rr_object.specs.declared.member.MemberSet.{MemberSet};

use crate::book::SetBook;
use crate::by_reference::belonging;
use rr_number::{AsNumber, Prefix, Range, SetName};
use rr_object::{Key, Member, Object};
use std::alloc::{AllocError, Global};

/// The ranges that are in the set of the name itself, where one may come twice; `set` is its
/// object, if it is registered.
pub(crate) fn ranges_in<B: SetBook>(
    alloc: Global,
    book: &B,
    name: &SetName,
    set: Option<&Object>,
) -> Result<Vec<Range>, AllocError>
    requires { LooksUp (B.contents book.now) (key_of_kind (kind_of name.now) name.now)
        (option_copied set) }
    ensures { IfOk result (λ ranges. (range : RangeParts) → Contains ranges.items range
        ↔ HasRange (B.contents book.now) (MemberSet.Set name.now) range) }
{
    let mut ranges = registered_ranges(alloc, book, name, set)?;
    ranges.extend_from_slice(&any_ranges(alloc, book, name)?)?;
    Ok(ranges)
}

/// The ranges of the routes of an AS.
pub(crate) fn ranges_of_origin<B: SetBook>(
    alloc: Global,
    book: &B,
    origin: AsNumber,
) -> Result<Vec<Range>, AllocError>
    ensures { IfOk result (λ ranges. (range : RangeParts)
        → Contains ranges.items range ↔ IsOriginated (B.contents book.now) origin range) }
{
    bare_ranges(alloc, &book.prefixes_of(alloc, origin)?)
}

/// The ranges that a registered set lists, and those of routes that belong to it by their own word.
fn registered_ranges<B: SetBook>(
    alloc: Global,
    book: &B,
    name: &SetName,
    set: Option<&Object>,
) -> Result<Vec<Range>, AllocError>
    requires { LooksUp (B.contents book.now) (key_of_kind (kind_of name.now) name.now)
        (option_copied set) }
    ensures { IfOk result (λ ranges. (range : RangeParts)
        → Contains ranges.items range ↔ (ListsRange (B.contents book.now) name.now range
        ⊎ IsByReference (B.contents book.now) name.now range)) }
{
    match set {
        Some(object) => {
            let mut ranges = ranges_listed(alloc, object.members())?;
            let objects = belonging(alloc, book, name, object)?;
            ranges.extend_from_slice(&ranges_of(alloc, &objects)?)?;
            Ok(ranges)
        }
        None => Ok(Vec::new(alloc)),
    }
}

/// The ranges of `RS-ANY`; none for another set.
fn any_ranges<B: SetBook>(alloc: Global, book: &B, name: &SetName) -> Result<Vec<Range>, AllocError>
    ensures { IfOk result (λ ranges. (range : RangeParts)
        → Contains ranges.items range ↔ IsAnyRange (B.contents book.now) name.now range) }
{
    if name.is_rs_any() {
        ranges_of(alloc, &book.routes(alloc)?)
    } else {
        Ok(Vec::new(alloc))
    }
}

/// The registered set of the name in a book, which is sound; the error is that memory ran out.
pub(crate) fn registered_set<'a, B: SetBook>(
    alloc: Global,
    book: &'a B,
    name: &SetName,
) -> Result<Option<&'a Object>, AllocError>
    ensures { IfOk result (λ object. LooksUp (B.contents book.now)
        (key_of_kind (kind_of name.now) name.now) (option_copied object)) }
{
    let key = Key::of_kind(name.kind(), name.copy(alloc)?);
    Ok(book.get(&key))
}

/// Whether a set of the name is registered, or it is `AS-ANY` or `RS-ANY`; `set` is its object.
pub(crate) fn is_known(name: &SetName, set: Option<&Object>) -> bool
    ensures { result ≡ (is_some (option_copied set.entry)
        || (bytes_eq name.now as_any || bytes_eq name.now rs_any)) }
{
    set.is_some() || name.is_as_any() || name.is_rs_any()
}

/// The ranges among the members.
fn ranges_listed(alloc: Global, members: &[Member]) -> Result<Vec<Range>, AllocError>
    ensures { IfOk result (λ ranges. ranges.items ≡ filter_map range_listed members.now) }
{
    members
        .iter()
        .filter_map(|member| range_listed(member))
        .collect(alloc)
}

/// The range that the member is.
fn range_listed(member: &Member) -> Option<Range>
    ensures { result ≡ range_listed member.now }
{
    match member {
        Member::Range(range) => Some(*range),
        Member::Set(_, _) => None,
    }
}

/// The ranges of the prefixes alone.
fn bare_ranges(alloc: Global, prefixes: &[Prefix]) -> Result<Vec<Range>, AllocError>
    ensures { IfOk result (λ ranges. ranges.items ≡ map bare prefixes.now) }
{
    prefixes
        .iter()
        .map(|prefix| Range::of(*prefix))
        .collect(alloc)
}

/// The ranges of those objects that are routes.
fn ranges_of(alloc: Global, objects: &[&Object]) -> Result<Vec<Range>, AllocError>
    ensures { IfOk result
        (λ ranges. ranges.items ≡ filter_map (λ o. range_of_key o.now.key) objects.now) }
{
    objects
        .iter()
        .filter_map(|object| route_range(object))
        .collect(alloc)
}

/// The range of a route's prefix alone.
fn route_range(object: &Object) -> Option<Range>
    ensures { result ≡ range_of_key object.now.key }
{
    match object.key() {
        Key::Route(prefix, _) => Some(Range::of(*prefix)),
        _ => None,
    }
}
