//! The verdict on an item, over any book: whether it is carried out, or why it is refused. A
//! registry of `rr_registry` asks for it.

ghost use Rattle.std.specs.Prelude.{◌≡◌, Some};
ghost use Rattle.std.specs.List.{list_any};
ghost use Rattle.std.specs.Option.{option_and_then, option_copied};
ghost use Rattle.std.specs.FinMap.{get};
ghost use Rattle.rr_number.specs.Prefixes.{span_of};
ghost use Rattle.rr_object.specs.KeyOrders.{IsKeyValue};
ghost use Rattle.rr_auth.specs.Closest.{closest_inetnum};
ghost use Rattle.rr_auth.specs.Authority.{lower_passes, routes_pass};
ghost use Rattle.rr_auth.specs.Conditions.{is_in_use, route_passes};
ghost use Rattle.rr_auth.specs.Known.{IsKnown, MayTryKnown, TriesKnown};
ghost use Rattle.rr_auth.specs.Laws.{IsItem};
ghost use Rattle.rr_auth.specs.Passing.{MayTry, Tries};
ghost use Rattle.rr_auth.specs.Private.{below, below_origin, below_parent, below_space};
ghost use Rattle.rr_auth.specs.SetParents.{parent_key};
ghost use Rattle.rr_auth.specs.Verdicts.{addition, by_place, change, deletion, submission, verdict};

use crate::authority::{lower_passes, routes_pass};
use crate::book::Book;
use crate::item::Item;
use crate::known::Known;
use crate::passing::{names_pass, names_unknown};
use crate::secrets::Secrets;
use crate::verdict::Verdict;
use rr_number::{AsNumber, Parent, Prefix, SetKind, SetName, Span};
use rr_object::{Code, Key, Object};
use std::alloc::{AllocError, Global};

/// The verdict on an item over the book's registry (RFC 2725, 9; profile). The error is that memory
/// ran out. In either case the secrets stay as they were, and the key of an object that is
/// submitted is well formed. What `known` remembers must be true of the registry; what it remembers
/// afterwards, in either case, still is.
pub fn judge<B: Book>(
    alloc: Global,
    book: &B,
    secrets: &mut Secrets,
    known: &mut Known,
    item: &Item,
) -> Result<Verdict, AllocError>
    requires { IsKnown (B.contents book.now) known.old }
    ensures verdict { MayTryKnown (B.contents book.now) known.new
        (verdict (B.contents book.now) secrets.old item.now) secrets.old secrets.new result }
    ensures formed { IsItem item.now }
{
    match item {
        Item::Submit(object) => judge_object(alloc, book, secrets, known, object),
        Item::Delete(key) => Ok(judge_deletion(book, secrets, known, key)),
    }
}

/// The verdict on an object: on an addition where its key is new, otherwise on a change. Its key is
/// well formed. The error is out of memory.
fn judge_object<B: Book>(
    alloc: Global,
    book: &B,
    secrets: &mut Secrets,
    known: &mut Known,
    object: &Object,
) -> Result<Verdict, AllocError>
    requires { IsKnown (B.contents book.now) known.old }
    ensures verdict { MayTryKnown (B.contents book.now) known.new
        (submission (get (B.contents book.now) object.now.key) (B.contents book.now) secrets.old
        object.now) secrets.old secrets.new result }
    ensures formed { IsKeyValue object.now.key }
{
    match book.get(object.key()) {
        None => judge_addition(alloc, book, secrets, object),
        Some(stored) => Ok(judge_change(book, secrets, known, stored, object)),
    }
}

/// The verdict on an object whose key is new; the error is out of memory.
fn judge_addition<B: Book>(
    alloc: Global,
    book: &B,
    secrets: &mut Secrets,
    object: &Object,
) -> Result<Verdict, AllocError>
    ensures { MayTry (addition (B.contents book.now) secrets.old object.now)
        secrets.old secrets.new result }
{
    if names_unknown(book, Some(object), object) {
        Ok(Verdict::Refuse(Code::E10))
    } else if !names_pass(book, Some(object), secrets, object.maintainers()) {
        Ok(Verdict::Refuse(Code::E11))
    } else {
        judge_place(alloc, book, secrets, object.key())
    }
}

/// The verdict on an object in whose place another stands.
fn judge_change<B: Book>(
    book: &B,
    secrets: &mut Secrets,
    known: &mut Known,
    stored: &Object,
    object: &Object,
) -> Verdict
    requires stored { get (B.contents book.now) object.now.key ≡ Some stored.now }
    requires known { IsKnown (B.contents book.now) known.old }
    ensures { TriesKnown (B.contents book.now) known.new
        (change (B.contents book.now) secrets.old stored.now object.now)
        secrets.old secrets.new result }
{
    if names_unknown(book, None, object) {
        Verdict::Refuse(Code::E10)
    } else if !known.passes(book, secrets, object.key(), stored) {
        Verdict::Refuse(Code::E11)
    } else if stored.paragraph() == object.paragraph() {
        Verdict::Unchanged
    } else {
        Verdict::Change
    }
}

/// The verdict on the deletion of the object of the key.
fn judge_deletion<B: Book>(book: &B, secrets: &mut Secrets, known: &mut Known, key: &Key) -> Verdict
    requires { IsKnown (B.contents book.now) known.old }
    ensures { TriesKnown (B.contents book.now) known.new
        (deletion (get (B.contents book.now) key.now) (B.contents book.now) secrets.old key.now)
        secrets.old secrets.new result }
{
    match book.get(key) {
        None => Verdict::Refuse(Code::E18),
        Some(stored) => {
            if !known.passes(book, secrets, key, stored) {
                Verdict::Refuse(Code::E11)
            } else if is_in_use(book, key) {
                Verdict::Refuse(Code::E17)
            } else {
                Verdict::Delete
            }
        }
    }
}

/// Whether the key is that of a mntner that another object names.
fn is_in_use<B: Book>(book: &B, key: &Key) -> bool
    ensures { result ≡ is_in_use (B.contents book.now) key.now }
{
    match key {
        Key::Mntner(name) => book.names_maintainer(name),
        _ => false,
    }
}

/// The verdict on a new object by its place in the hierarchy; the error is out of memory.
fn judge_place<B: Book>(
    alloc: Global,
    book: &B,
    secrets: &mut Secrets,
    key: &Key,
) -> Result<Verdict, AllocError>
    ensures { MayTry (by_place (B.contents book.now) secrets.old key.now)
        secrets.old secrets.new result }
{
    if book.crosses(key) {
        return Ok(Verdict::Refuse(Code::E16));
    }
    match key {
        Key::Mntner(_) => Ok(Verdict::Add),
        Key::AsBlock(block) => Ok(judge_below(book, secrets, book.closest_block(block.span()))),
        Key::AutNum(number) => Ok(judge_below(
            book,
            secrets,
            book.closest_block(span_of_number(*number)),
        )),
        Key::Inetnum(span) => Ok(judge_below(book, secrets, book.closest_inetnum(*span))),
        Key::Route(prefix, origin) => judge_route(alloc, book, secrets, *prefix, *origin),
        Key::AsSet(name) => judge_set(alloc, book, secrets, SetKind::AsSet, name),
        Key::RouteSet(name) => judge_set(alloc, book, secrets, SetKind::RouteSet, name),
    }
}

/// The span of an AS number alone.
fn span_of_number(number: AsNumber) -> Span
    ensures { result ≡ record { first = number; last = number } }
{
    Span::new(number.number(), number.number())
}

/// The verdict on an object whose closest cover, or parent, is this one.
fn judge_below<B: Book>(book: &B, secrets: &mut Secrets, cover: Option<&Object>) -> Verdict
    ensures { Tries (below (lower_passes (B.contents book.now) secrets.old)
        (option_copied cover.entry)) secrets.old secrets.new result }
{
    match cover {
        None => Verdict::Refuse(Code::E12),
        Some(cover) => {
            if lower_passes(book, secrets, cover) {
                Verdict::Add
            } else {
                Verdict::Refuse(Code::E13)
            }
        }
    }
}

/// The verdict on a set of the kind: its parent decides, where it has one. The error is out of
/// memory.
fn judge_set<B: Book>(
    alloc: Global,
    book: &B,
    secrets: &mut Secrets,
    kind: SetKind,
    name: &SetName,
) -> Result<Verdict, AllocError>
    ensures { MayTry (below_parent (B.contents book.now) secrets.old kind name.now)
        secrets.old secrets.new result }
{
    match name.parent(alloc)? {
        None => Ok(Verdict::Add),
        Some(parent) => Ok(judge_below_parent(book, secrets, parent_key(kind, parent))),
    }
}

/// The key of the parent of a set of the kind; none where that is several AS numbers alone.
fn parent_key(kind: SetKind, parent: Parent) -> Option<Key>
    ensures { result ≡ parent_key kind parent }
{
    match parent {
        Parent::Number(number) => Some(Key::AutNum(number)),
        Parent::Set(name) => Some(Key::of_kind(kind, name)),
        Parent::Bare => None,
    }
}

/// The verdict on a set whose parent has this key.
fn judge_below_parent<B: Book>(book: &B, secrets: &mut Secrets, parent: Option<Key>) -> Verdict
    ensures { Tries (below (lower_passes (B.contents book.now) secrets.old)
        (option_and_then (get (B.contents book.now)) parent)) secrets.old secrets.new result }
{
    match parent {
        None => Verdict::Refuse(Code::E12),
        Some(key) => judge_below(book, secrets, book.get(&key)),
    }
}

/// The verdict on a route: its origin's aut-num decides first, then the space that it lies in. The
/// error is out of memory.
fn judge_route<B: Book>(
    alloc: Global,
    book: &B,
    secrets: &mut Secrets,
    prefix: Prefix,
    origin: AsNumber,
) -> Result<Verdict, AllocError>
    ensures { MayTry (below_origin (B.contents book.now) secrets.old prefix origin)
        secrets.old secrets.new result }
{
    match book.get(&Key::AutNum(origin)) {
        None => Ok(Verdict::Refuse(Code::E14)),
        Some(aut_num) => {
            if routes_pass(book, secrets, aut_num, prefix) {
                judge_space(alloc, book, secrets, prefix)
            } else {
                Ok(Verdict::Refuse(Code::E15))
            }
        }
    }
}

/// The verdict of the routes or the inetnum that a route lies below; the error is out of memory.
fn judge_space<B: Book>(
    alloc: Global,
    book: &B,
    secrets: &mut Secrets,
    prefix: Prefix,
) -> Result<Verdict, AllocError>
    ensures { MayTry (below_space (B.contents book.now) secrets.old prefix)
        secrets.old secrets.new result }
{
    match book.closest_route_prefix(prefix) {
        None => Ok(judge_inetnum_space(book, secrets, prefix)),
        Some(closest) => {
            let origins = book.origins(alloc, closest)?;
            if some_route_passes(book, secrets, prefix, closest, &origins) {
                Ok(Verdict::Add)
            } else {
                Ok(Verdict::Refuse(Code::E13))
            }
        }
    }
}

/// The verdict of the closest inetnum on a route that no route covers.
fn judge_inetnum_space<B: Book>(book: &B, secrets: &mut Secrets, prefix: Prefix) -> Verdict
    ensures { Tries (below (routes_pass (B.contents book.now) secrets.old prefix)
        (closest_inetnum (B.contents book.now) (span_of prefix))) secrets.old secrets.new result }
{
    match book.closest_inetnum(prefix.span()) {
        None => Verdict::Refuse(Code::E12),
        Some(inetnum) => {
            if routes_pass(book, secrets, inetnum, prefix) {
                Verdict::Add
            } else {
                Verdict::Refuse(Code::E13)
            }
        }
    }
}

/// Whether a route of the closest prefix and one of these origins authorises a route of the prefix.
fn some_route_passes<B: Book>(
    book: &B,
    secrets: &mut Secrets,
    prefix: Prefix,
    closest: Prefix,
    origins: &[AsNumber],
) -> bool
    ensures { Tries (list_any (route_passes (B.contents book.now) secrets.old prefix closest)
        origins.now) secrets.old secrets.new result }
{
    'origins: for origin in origins {
        if route_passes(book, secrets, prefix, closest, *origin) {
            return true;
        }
    }
    false
}

/// Whether the route of the closest prefix and the origin is registered and authorises a route of
/// the prefix.
fn route_passes<B: Book>(
    book: &B,
    secrets: &mut Secrets,
    prefix: Prefix,
    closest: Prefix,
    origin: AsNumber,
) -> bool
    ensures { Tries (route_passes (B.contents book.now) secrets.old prefix closest origin)
        secrets.old secrets.new result }
{
    match book.get(&Key::Route(closest, origin)) {
        Some(route) => routes_pass(book, secrets, route, prefix),
        None => false,
    }
}
