//! The list of a plain book, in the order of the objects' keys. An object is found, put in and
//! taken out by its key, or found by the name of a mntner, in a binary search. What crosses a key,
//! names a maintainer or originates a prefix is found by a scan. The indexed book asks `origin_at`.

ghost use Rattle.std.specs.Prelude.{◌≡◌, ◌<◌, ◌≤◌, true, find, length};
ghost use Rattle.std.specs.Prelude.{OnOk, OnErr, IfOk, IfErr, IsTrue};
ghost use Rattle.std.specs.List.{list_any};
ghost use Rattle.std.specs.Option.{option_copied};
ghost use Rattle.std.specs.Ordering.{is_gt};
ghost use Rattle.rr_object.specs.KeyOrders.{key_cmp};
ghost use Rattle.rr_object.specs.Keys.{is_mntner_of};
ghost use Rattle.rr_auth.specs.Registries.{is_crossed_by_some, is_other_naming, keys_cross};
ghost use Rattle.rr_auth.specs.Closest.{origin_at, origins_among, same_prefix};
ghost use Rattle.rr_book.specs.Books.{object_at, is_in_order, left_without, put_in};
ghost use Rattle.rr_book.specs.Private.{is_span, place_of, stands_at};

use crate::keys::{compare, is_same};
use rr_number::{AsNumber, Name, Prefix};
use rr_object::{Key, Object};
use std::alloc::{AllocError, AllocFailed, Global};
use std::mem;

/// The object of the key; none if there is none. The objects must stand in the order of their keys,
/// no two under one key.
pub(crate) fn find_by_key<'a>(objects: &'a [Object], key: &Key) -> Option<&'a Object>
    requires { is_in_order objects.now ≡ true }
    ensures { option_copied result ≡ object_at objects.now key.now }
{
    match objects.get(place(objects, key)) {
        Some(object) => {
            if is_same(key, object.key()) {
                Some(object)
            } else {
                None
            }
        }
        None => None,
    }
}

/// The mntner of the name; none if there is none. The objects must stand in the order of their
/// keys, no two under one key.
pub(crate) fn find_mntner<'a>(objects: &'a [Object], name: &Name) -> Option<&'a Object>
    requires { is_in_order objects.now ≡ true }
    ensures { option_copied result ≡ find (λ o. is_mntner_of name.now o.key) objects.now }
{
    match objects.get(place_of_mntner(objects, name)) {
        Some(object) => {
            if object.key().is_mntner_of(name) {
                Some(object)
            } else {
                None
            }
        }
        None => None,
    }
}

/// The first place whose key is not below that of the mntner of the name.
fn place_of_mntner(objects: &[Object], name: &Name) -> usize
    requires { is_in_order objects.now ≡ true }
    ensures { result ≡ place_of (Key.Mntner name.now) objects.now }
{
    objects.partition_point(|object| is_above(name, object.key()))
}

/// Whether the key of the mntner of the name is above this one.
fn is_above(name: &Name, key: &Key) -> bool
    ensures { result ≡ is_gt (key_cmp (Key.Mntner name.now) key.now) }
{
    match key {
        Key::Mntner(own) => name > own,
        _ => false,
    }
}

/// Whether the key is that of an inetnum or an as-block, and its span crosses that of some object
/// of its class.
pub(crate) fn some_crosses(objects: &[Object], key: &Key) -> bool
    ensures { result ≡ is_crossed_by_some key.now objects.now }
{
    is_span(key) && objects.iter().any(|object| keys_cross(object.key(), key))
}

/// Whether the key is that of an as-block or an inetnum: no other crosses any, so that a scan for
/// it is saved.
fn is_span(key: &Key) -> bool
    ensures { result ≡ is_span key.now }
{
    matches!(key, Key::AsBlock(_) | Key::Inetnum(_))
}

/// Whether the keys are of one class, as-block or inetnum, and their spans cross.
fn keys_cross(key: &Key, other: &Key) -> bool
    ensures { result ≡ keys_cross key.now other.now }
{
    match key {
        Key::AsBlock(span) => match other {
            Key::AsBlock(other) => span.span().crosses(other.span()),
            _ => false,
        },
        Key::Inetnum(span) => match other {
            Key::Inetnum(other) => span.crosses(*other),
            _ => false,
        },
        _ => false,
    }
}

/// Whether an object other than the maintainer of the name names that maintainer.
pub(crate) fn is_named_by_another(objects: &[Object], name: &Name) -> bool
    ensures { result ≡ list_any (is_other_naming name.now) objects.now }
{
    objects.iter().any(|object| is_other_naming(object, name))
}

/// Whether the object is not the maintainer of the name, and names that maintainer.
pub(crate) fn is_other_naming(object: &Object, name: &Name) -> bool
    ensures { result ≡ is_other_naming name.now object.now }
{
    !object.key().is_mntner_of(name) && object.names(name)
}

/// The origins of the routes of exactly the prefix, in the order of the objects. The error is that
/// memory ran out.
pub(crate) fn origins(
    alloc: Global,
    objects: &[Object],
    prefix: Prefix,
) -> Result<Vec<AsNumber>, AllocError>
    ensures { IfOk result (λ v. v.items ≡ origins_among objects.now prefix) }
{
    objects
        .iter()
        .filter_map(|object| origin_at(object.key(), prefix))
        .collect(alloc)
}

/// The origin in the key, where this is the key of a route of exactly the prefix; otherwise none.
pub fn origin_at(key: &Key, prefix: Prefix) -> Option<AsNumber>
    ensures { result ≡ origin_at prefix key.now }
{
    match key {
        Key::Route(own, origin) => {
            if is_same_prefix(*own, prefix) {
                Some(*origin)
            } else {
                None
            }
        }
        _ => None,
    }
}

/// Whether the prefixes have one address and one length.
fn is_same_prefix(prefix: Prefix, other: Prefix) -> bool
    ensures { result ≡ same_prefix prefix other }
{
    prefix.address().to_bits() == other.address().to_bits() && prefix.length() == other.length()
}

/// Puts the object into its place in the order of the keys. One of the same key that stood there is
/// given back, and none if none did. The objects must stand in that order before, no two under one
/// key. The error is that memory ran out: it gives the new object back, and the list stays as it
/// was.
#[tactic(auto, using(crate::proofs::Places::put_in_place))]
pub(crate) fn put(
    objects: &mut Vec<Object>,
    object: Object,
) -> Result<Option<Object>, AllocFailed<Object>>
    requires { is_in_order objects.old.items ≡ true }
    ensures ok { OnOk result (objects.new.items ≡ put_in object objects.old.items) }
    ensures old { IfOk result (λ old. old ≡ object_at objects.old.items object.key) }
    ensures err { OnErr result (objects.new.items ≡ objects.old.items) }
    ensures returned { IfErr result (λ refused. refused.value ≡ object) }
{
    let at = place(objects, object.key());
    if stands_at(objects, object.key(), at) {
        return Ok(Some(mem::replace(&mut objects[at], object)));
    }
    objects.insert(at, object)?;
    Ok(None)
}

/// The first place whose key is not below the given one, among objects in the order of their keys;
/// their number if there is none.
fn place(objects: &[Object], key: &Key) -> usize
    requires { is_in_order objects.now ≡ true }
    ensures value { result ≡ place_of key.now objects.now }
    ensures within { result ≤ length objects.now }
{
    objects.partition_point(|object| compare(key, object.key()).is_gt())
}

/// Whether an object of the key stands at the place.
#[tactic(auto, using(crate::proofs::Places::stands_within))]
fn stands_at(objects: &[Object], key: &Key, at: usize) -> bool
    ensures value { result ≡ stands_at key.now objects.now at }
    ensures within { IsTrue result → at < length objects.now }
{
    match objects.get(at) {
        Some(object) => is_same(key, object.key()),
        None => false,
    }
}

/// Takes the object of the key out, and gives it back; none if there is none. The others stay. The
/// objects must stand in the order of their keys, no two under one key.
pub(crate) fn remove(objects: &mut Vec<Object>, key: &Key) -> Option<Object>
    requires { is_in_order objects.old.items ≡ true }
    ensures rest { objects.new.items ≡ left_without key.now objects.old.items }
    ensures old { result ≡ object_at objects.old.items key.now }
{
    let at = place(objects, key);
    if stands_at(objects, key, at) {
        Some(objects.remove(at))
    } else {
        None
    }
}
