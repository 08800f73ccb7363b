//! The objects of the indexed book by key, in a balanced tree, and the lists that are read from it.

ghost use Rattle.std.specs.Prelude.{◌≡◌, ◌&&◌, ◌||◌, [], ◌∷◌, None, Some};
ghost use Rattle.std.specs.Prelude.{false, true, filter, is_some, map, IfErr, IfOk, OnErr, OnOk};
ghost use Rattle.std.specs.BTreeSet.{contains};
ghost use Rattle.std.specs.FinMap.{contains_key, entries, get, remove, values};
ghost use Rattle.std.specs.List.{filter_map, list_any};
ghost use Rattle.std.specs.List.Sorted.{IsStrictlySortedBy};
ghost use Rattle.std.specs.Map.{values_of};
ghost use Rattle.std.specs.Option.{option_copied};
ghost use Rattle.std.specs.Ordering.{is_gt};
ghost use Rattle.rr_number.specs.AsNumbers.{greatest_as_number};
ghost use Rattle.rr_number.specs.Prefixes.{span_of};
ghost use Rattle.rr_object.specs.declared.class.Class.TheVariants as class;
ghost use Rattle.rr_object.specs.declared.key.Key.{Key};
ghost use Rattle.rr_object.specs.declared.key.Key.TheVariants.{Route};
ghost use Rattle.rr_object.specs.KeyOrders.{key_cmp};
ghost use Rattle.rr_auth.specs.Closest.{origin_at, origins_among};
ghost use Rattle.rr_auth.specs.Registries.{Reg, Sound};
ghost use Rattle.rr_book.specs.Books.{book_of, is_in_order};
ghost use Rattle.rr_book.specs.Listings.{inside, lies_in};
ghost use Rattle.rr_book.specs.SetLists.{is_of_class};
ghost use Rattle.rr_sets.specs.Lists.{lent};
ghost use Rattle.rr_index.specs.ChosenKeyParts.{is_chosen};
ghost use Rattle.rr_index.specs.InsideParts.{inetnum_at, is_inetnum_in, is_route_in};
ghost use Rattle.rr_index.specs.InsideParts.{routes_from, routes_to};
ghost use Rattle.rr_index.specs.KeyRangeParts.{lies_between};
ghost use Rattle.rr_index.specs.OriginIndexes.{origin_cmp};
ghost use Rattle.rr_index.specs.Private.{is_of_origin, IsTold, PutsObject};

use crate::origin_index::OriginIndex;
use rr_book::listings::lies_in;
use rr_book::object_lists::origin_at;
use rr_number::{Address, AsNumber, Prefix, Span};
use rr_object::{Key, Object};
use std::alloc::{AllocError, AllocFailed, Global};
use std::collections::btree_map::Range;
use std::collections::{BTreeMap, BTreeSet};
use std::marker::Model;
use std::mem;

/// Objects, each under its key; contracts see the finite map from keys to objects.
#[derive(Drop)]
pub(crate) struct ObjectMap {
    entries: BTreeMap<Key, Object>,
}

impl Model for ObjectMap {
    ghost use Rattle.rr_auth.specs.Registries.{Reg};
    ghost use Rattle.std.specs.FinMap as map;
    ghost use Rattle.rr_object.specs.contracts.key.Key as key;
    ghost use Rattle.rr_object.specs.contracts.object.Object as object;

    ghost Value = { Reg };

    ghost coded = { map.code (key.the_row).coded (object.the_row).coded };

    ghost use Rattle.rr_index.specs.ObjectMaps.{registry_of, IsRising};

    ghost view = { λ m. registry_of m.entries };

    ghost invariant = { λ m. IsRising m.entries };
}

impl ObjectMap {
    /// The map of the objects, which must stand in the order of class and key, no two under one
    /// key. The error is that memory ran out. No clause says that each is compared with the next
    /// alone.
    pub(crate) fn of(alloc: Global, objects: Vec<Object>) -> Result<ObjectMap, AllocError>
        requires { is_in_order objects.items ≡ true }
        ensures { IfOk result (λ kept. kept ≡ book_of objects.items) }
    {
        let mut entries = Vec::with_capacity(alloc, objects.len())?;
        for object in objects {
            let key = object.key().copy(alloc)?;
            entries.push((key, object))?;
        }
        Ok(ObjectMap {
            entries: BTreeMap::from_iter(alloc, entries)?,
        })
    }

    /// The object of the key; none if there is none.
    pub(crate) fn get(&self, key: &Key) -> Option<&Object>
        ensures { option_copied result ≡ get self.now key.now }
    {
        self.entries.get(key)
    }

    /// Puts the object under its key, in place of one that stood there. The error is that memory
    /// ran out; nothing changes, and it gives the object back.
    pub(crate) fn add(&mut self, alloc: Global, object: Object) -> Result<(), AllocFailed<Object>>
        ensures puts { PutsObject self.old object self.new result }
        ensures returned { IfErr result (λ refused. refused.value ≡ object) }
    {
        let Ok(key) = object.key().copy(alloc) else {
            return Err(AllocFailed { value: object });
        };
        match self.entries.insert(key, object) {
            Ok(_) => Ok(()),
            Err(refused) => {
                let (_, object) = refused.value;
                Err(AllocFailed { value: object })
            }
        }
    }

    /// Puts the object in place of the one of its key, which is given back. Where there is none,
    /// nothing changes and the object comes back as the error. No clause says that it takes no
    /// memory.
    pub(crate) fn replace(&mut self, object: Object) -> Result<Object, Object>
        ensures puts { PutsObject self.old object self.new result }
        ensures old { IfOk result (λ old. get self.old object.key ≡ Some old) }
        ensures none { OnErr result (get self.old object.key ≡ None) }
        ensures back { IfErr result (λ back. back ≡ object) }
    {
        match self.entries.get_mut(object.key()) {
            Some(standing) => Ok(mem::replace(standing, object)),
            None => Err(object),
        }
    }

    /// Takes the object of the key out, if there is one, and gives it back.
    pub(crate) fn remove(&mut self, key: &Key) -> Option<Object>
        ensures rest { self.new ≡ remove self.old key.now }
        ensures old { result ≡ get self.old key.now }
    {
        self.entries.remove(key)
    }

    /// All objects, in the order of class and key; the error is that memory ran out.
    pub(crate) fn all(&self, alloc: Global) -> Result<Vec<&Object>, AllocError>
        ensures { IfOk result (λ found. lent found.items ≡ values self.now) }
    {
        let mut found = Vec::new(alloc);
        for object in self.entries.values() {
            found.push(object)?;
        }
        Ok(found)
    }

    /// The objects of those keys that have one, in the order of class and key; the error is that
    /// memory ran out. The keys strictly rise, after an error too.
    pub(crate) fn at_keys(
        &self,
        alloc: Global,
        keys: &BTreeSet<Key>,
    ) -> Result<Vec<&Object>, AllocError>
        ensures found { IfOk result
            (λ found. lent found.items ≡ filter_map (λ key. get self.now key) keys.now.keys) }
        ensures ordered { IsStrictlySortedBy ⟦<Key as Ord>⟧.cmp keys.now.keys }
    {
        let mut found = Vec::new(alloc);
        for key in keys {
            if let Some(object) = self.get(key) {
                found.push(object)?;
            }
        }
        Ok(found)
    }

    /// The objects of those routes of the origin in the index that have one here, in the order of
    /// their prefixes; the error is that memory ran out. All routes of the index strictly rise, by
    /// origin and then by prefix, after an error too.
    pub(crate) fn routes_of(
        &self,
        alloc: Global,
        origins: &OriginIndex,
        origin: AsNumber,
    ) -> Result<Vec<&Object>, AllocError>
        ensures found { IfOk result (λ found. lent found.items
            ≡ filter_map (λ route. get self.now (Route route.1 route.0))
            (filter (is_of_origin origin) origins.now.routes.keys)) }
        ensures ordered { IsStrictlySortedBy origin_cmp origins.now.routes.keys }
    {
        let mut found = Vec::new(alloc);
        for route in origins.routes_of(origin) {
            if let Some(object) = self.route(route.1, route.0) {
                found.push(object)?;
            }
        }
        Ok(found)
    }

    /// The object of the route; none if there is none.
    fn route(&self, prefix: Prefix, origin: AsNumber) -> Option<&Object>
        ensures { option_copied result ≡ get self.now (Route prefix origin) }
    {
        self.get(&Key::Route(prefix, origin))
    }

    /// The aut-nums, in the order of their keys; the registry must be sound. The error is that
    /// memory ran out.
    pub(crate) fn aut_nums(&self, alloc: Global) -> Result<Vec<&Object>, AllocError>
        requires { Sound self.now }
        ensures { IfOk result
            (λ found. lent found.items ≡ filter (is_of_class class.AutNum) (values self.now)) }
    {
        let lowest = AsNumber::new(0);
        let highest = AsNumber::new(u32::MAX);
        self.listed(alloc, Key::AutNum(lowest), Key::AutNum(highest))
    }

    /// The routes, in the order of their keys; the registry must be sound. The error is that memory
    /// ran out.
    pub(crate) fn routes(&self, alloc: Global) -> Result<Vec<&Object>, AllocError>
        requires { Sound self.now }
        ensures { IfOk result
            (λ found. lent found.items ≡ filter (is_of_class class.Route) (values self.now)) }
    {
        let lowest = Address::from_bits(0);
        let highest = Address::from_bits(u32::MAX);
        let first = Prefix::new(lowest, 0);
        let last = Prefix::new(highest, 32);
        self.listed(alloc, first_of(first), last_of(last))
    }

    /// The objects whose keys lie from one key to another, in the order of class and key; the error
    /// is that memory ran out.
    fn listed(&self, alloc: Global, first: Key, last: Key) -> Result<Vec<&Object>, AllocError>
        requires { is_gt (key_cmp first last) ≡ false }
        ensures { IfOk result (λ found. lent found.items
            ≡ values_of (filter (λ e. lies_between first last e.0) (entries self.now))) }
    {
        let mut found = Vec::new(alloc);
        for (_, object) in self.between(first, last) {
            found.push(object)?;
        }
        Ok(found)
    }

    /// The objects whose keys lie from one key to another, with their keys, in the order of class
    /// and key.
    fn between(&self, first: Key, last: Key) -> Range<'_, Key, Object>
        requires { is_gt (key_cmp first last) ≡ false }
        ensures { result ≡ filter (λ e. lies_between first last e.0) (entries self.now) }
    {
        self.entries.range(first..=last)
    }

    /// The inetnums and routes whose addresses lie inside the span, in the order of class and key;
    /// equal ones count. The registry must be sound, and the error is that memory ran out. It steps
    /// over those whose first address lies in the span, and looks at one route more at most, which
    /// no clause says.
    pub(crate) fn inside(&self, alloc: Global, span: Span) -> Result<Vec<&Object>, AllocError>
        requires { Sound self.now }
        ensures { IfOk result (λ found. lent found.items ≡ inside self.now span) }
    {
        let mut found = self.inetnums_inside(alloc, span)?;
        let routes = self.routes_inside(alloc, span)?;
        found.extend_from_slice(&routes)?;
        Ok(found)
    }

    /// The inetnums inside the span; the error is that memory ran out.
    fn inetnums_inside(&self, alloc: Global, span: Span) -> Result<Vec<&Object>, AllocError>
        requires { Sound self.now }
        ensures { IfOk result (λ found. lent found.items
            ≡ filter (λ o. is_inetnum_in span o.key) (values self.now)) }
    {
        let (first, last) = (span.first(), span.last());
        self.picked(alloc, span, inetnum_at(first), inetnum_at(last))
    }

    /// The routes inside the span; the error is that memory ran out.
    fn routes_inside(&self, alloc: Global, span: Span) -> Result<Vec<&Object>, AllocError>
        requires { Sound self.now }
        ensures { IfOk result (λ found. lent found.items
            ≡ filter (λ o. is_route_in span o.key) (values self.now)) }
    {
        let (first, last) = (span.first(), span.last());
        self.picked(alloc, span, routes_from(first), routes_to(last))
    }

    /// The inetnums and routes inside the span whose keys lie from one key to another, in the order
    /// of class and key; the error is that memory ran out.
    fn picked(
        &self,
        alloc: Global,
        span: Span,
        first: Key,
        last: Key,
    ) -> Result<Vec<&Object>, AllocError>
        requires { is_gt (key_cmp first last) ≡ false }
        ensures { IfOk result (λ found. lent found.items ≡ filter (lies_in span)
            (values_of (filter (λ e. lies_between first last e.0) (entries self.now)))) }
    {
        let mut found = Vec::new(alloc);
        for (_, object) in self.between(first, last) {
            if lies_in(object, span) {
                found.push(object)?;
            }
        }
        Ok(found)
    }

    /// The inetnums of these spans and the routes of these prefixes, in the order of class and key.
    /// The registry must be sound, and the error is that memory ran out.
    pub(crate) fn chosen(
        &self,
        alloc: Global,
        spans: &[Span],
        prefixes: &[Prefix],
    ) -> Result<Vec<&Object>, AllocError>
        requires { Sound self.now }
        ensures { IfOk result (λ found. lent found.items ≡ filter
            (λ o. is_chosen spans.now (map span_of prefixes.now) o.key) (values self.now)) }
    {
        let mut keys = inetnum_keys(alloc, spans)?;
        self.add_routes(alloc, prefixes, &mut keys)?;
        self.at_keys(alloc, &keys)
    }

    /// Puts the keys of the routes of these prefixes among the keys. If memory runs out some may be
    /// missing.
    fn add_routes(
        &self,
        alloc: Global,
        prefixes: &[Prefix],
        keys: &mut BTreeSet<Key>,
    ) -> Result<(), AllocError>
        requires { Sound self.now }
        ensures { OnOk result ((k : Key) → contains key_cmp keys.new k ≡
            (contains key_cmp keys.old k
            || (contains_key self.now k && is_chosen [] (map span_of prefixes.now) k))) }
    {
        for prefix in prefixes {
            self.add_routes_of(alloc, *prefix, keys)?;
        }
        Ok(())
    }

    /// Puts the keys of the routes of the prefix among the keys. If memory runs out some may be
    /// missing.
    fn add_routes_of(
        &self,
        alloc: Global,
        prefix: Prefix,
        keys: &mut BTreeSet<Key>,
    ) -> Result<(), AllocError>
        requires { Sound self.now }
        ensures { OnOk result ((k : Key) → contains key_cmp keys.new k ≡
            (contains key_cmp keys.old k
            || (contains_key self.now k && is_chosen [] (span_of prefix ∷ []) k))) }
    {
        // its length is one of a prefix
        let _length = prefix.length();
        for (key, _) in self.between(first_of(prefix), last_of(prefix)) {
            keys.insert(key.copy(alloc)?)?;
        }
        Ok(())
    }

    /// The origins of the routes of exactly the prefix, in the order of their keys. The registry
    /// must be sound, and the error is that memory ran out.
    pub(crate) fn origins(&self, alloc: Global, prefix: Prefix) -> Result<Vec<AsNumber>, AllocError>
        requires { Sound self.now }
        ensures { IfOk result (λ v. v.items ≡ origins_among (values self.now) prefix) }
    {
        let mut origins = Vec::new(alloc);
        for (_, object) in self.between(first_of(prefix), last_of(prefix)) {
            if let Some(origin) = origin_at(object.key(), prefix) {
                origins.push(origin)?;
            }
        }
        Ok(origins)
    }

    /// Whether another route of the key's prefix is registered in a registry that becomes this one
    /// when the key is taken out. Of another key than a route's no clause says anything. This
    /// registry must be sound.
    pub(crate) fn is_routed(&self, key: &Key) -> bool
        requires { Sound self.now }
        ensures { (r : Reg) → self.now ≡ remove r key.now → IsTold r key.now result }
    {
        match key {
            Key::Route(prefix, _) => self.has_route(*prefix),
            _ => false,
        }
    }

    /// Whether a route of the prefix is there.
    fn has_route(&self, prefix: Prefix) -> bool
        requires { Sound self.now }
        ensures { result ≡ list_any (λ o. is_some (origin_at prefix o.key)) (values self.now) }
    {
        self.between(first_of(prefix), last_of(prefix))
            .next()
            .is_some()
    }
}

/// The keys of the inetnums of these spans; the error is that memory ran out.
fn inetnum_keys(alloc: Global, spans: &[Span]) -> Result<BTreeSet<Key>, AllocError>
    ensures { IfOk result
        (λ keys. (k : Key) → contains key_cmp keys k ≡ is_chosen spans.now [] k) }
{
    let mut keys = BTreeSet::new(alloc);
    for span in spans {
        keys.insert(Key::Inetnum(*span))?;
    }
    Ok(keys)
}

/// The key of the inetnum of one address.
fn inetnum_at(address: u32) -> Key
    ensures { result ≡ inetnum_at address }
{
    Key::Inetnum(Span::new(address, address))
}

/// A key that no route from this address on is below, and at most one before it is not.
fn routes_from(address: u32) -> Key
    ensures { result ≡ routes_from address }
{
    if address == 0 {
        first_of(Prefix::new(Address::from_bits(0), 0))
    } else {
        routes_to(address - 1)
    }
}

/// A key that no route up to this address is above.
fn routes_to(address: u32) -> Key
    ensures { result ≡ routes_to address }
{
    last_of(Prefix::new(Address::from_bits(address), 32))
}

/// The least key that a route of the prefix can have.
fn first_of(prefix: Prefix) -> Key
    ensures { result ≡ Route prefix 0 }
{
    Key::Route(prefix, AsNumber::new(0))
}

/// The greatest key that a route of the prefix can have.
fn last_of(prefix: Prefix) -> Key
    ensures { result ≡ Route prefix greatest_as_number }
{
    Key::Route(prefix, AsNumber::new(u32::MAX))
}
