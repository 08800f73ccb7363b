//! Which objects name which sets in their `member-of`. Each book keeps this index beside its
//! objects.

ghost use Rattle.std.specs.Prelude.{◌≡◌, ◌&&◌, ◌||◌, ℕ, List, true, false};
ghost use Rattle.std.specs.Prelude.{IfOk, OnOk, OnErr, IsTrue};
ghost use Rattle.std.specs.BTreeMap.{get};
ghost use Rattle.std.specs.BTreeSet.{contains};
ghost use Rattle.std.specs.Cmp.Lexicographic.{slice_cmp};
ghost use Rattle.std.specs.List.{filter_map, list_any};
ghost use Rattle.std.specs.List.Sorted.{IsStrictlySortedBy};
ghost use Rattle.std.specs.Option.{option_copied, option_map_or};
ghost use Rattle.std.specs.Ordering.{eq_by_cmp, nat_cmp};
ghost use Rattle.std.specs.Str.{bytes_eq};
ghost use Rattle.rr_object.specs.declared.key.Key.{Key};
ghost use Rattle.rr_object.specs.KeyOrders.{key_cmp};
ghost use Rattle.rr_sets.specs.Lists.{lent};
ghost use Rattle.rr_book.specs.Books.{object_at, is_in_order};
ghost use Rattle.rr_book.specs.Private.{HasAddedKey, HasTakenKey};
ghost use Rattle.rr_book.specs.SetIndexes.{is_meant, stands_under, HasAdded, HasSameKeys};
ghost use Rattle.rr_book.specs.SetIndexes.{HasTaken, MayChange};
ghost use Rattle.rr_book.specs.SetLists.{names_set};

use crate::object_lists::find_by_key;
use rr_number::SetName;
use rr_object::{Key, Object};
use std::alloc::{AllocError, Global};
use std::collections::{BTreeMap, BTreeSet};

/// Keys of objects, under the names of the sets that these objects name in their `member-of`.
#[derive(Drop)]
pub struct SetIndex {
    keys: BTreeMap<SetName, BTreeSet<Key>>,
}

/// What an object and the one in whose place it comes name in their `member-of`.
#[derive(Drop)]
pub(crate) struct NamedSets {
    /// The sets that the one in whose place it comes names; none if there is none.
    pub(crate) before: BTreeSet<SetName>,
    /// The sets that the object names.
    pub(crate) after: BTreeSet<SetName>,
}

impl SetIndex {
    /// An index that has no key under any set.
    pub fn new(alloc: Global) -> SetIndex
        ensures { (name : List ℕ) (key : Key) → stands_under result.keys name key ≡ false }
    {
        SetIndex {
            keys: BTreeMap::new(alloc),
        }
    }

    /// The index that has under each set the keys of exactly those of the objects that name it in
    /// their `member-of`. The error is that memory ran out.
    pub fn of(alloc: Global, objects: &[Object]) -> Result<SetIndex, AllocError>
        ensures { IfOk result (λ referrers. (name : List ℕ) (key : Key)
            → stands_under referrers.keys name key ≡
            list_any (λ o. names_set name o && eq_by_cmp key_cmp o.key key) objects.now) }
    {
        let mut referrers = SetIndex::new(alloc);
        let none = BTreeSet::new(alloc);
        for object in objects {
            referrers.add_each(alloc, object, &none)?;
        }
        Ok(referrers)
    }

    /// The keys that the index has under the name of the set; none if it has no entry of this name.
    pub fn keys(&self, name: &SetName) -> Option<&BTreeSet<Key>>
        ensures { option_copied result ≡ get (slice_cmp nat_cmp) self.now.keys name.now }
    {
        self.keys.get(name)
    }

    /// Puts the key of `object` under each set that it names in its `member-of`, save those that
    /// `other` names there. `other` is the one in whose place it comes, if there is one. Nothing
    /// else changes. Under none of the sets where it is put may the key stand before. The result
    /// says which sets each of the two names. The error is that memory ran out, and then the same
    /// keys stand under each set as before.
    pub(crate) fn enter(
        &mut self,
        alloc: Global,
        object: &Object,
        other: Option<&Object>,
    ) -> Result<NamedSets, AllocError>
        requires { (name : List ℕ) (key : Key) → IsTrue (is_meant object.now
            (λ set. option_map_or (names_set set) (option_copied other) false) name key)
            → stands_under self.old.keys name key ≡ false }
        ensures before { IfOk result
            (λ sets. (name : List ℕ) → contains (slice_cmp nat_cmp) sets.before name ≡
            option_map_or (names_set name) (option_copied other.entry) false) }
        ensures after { IfOk result (λ sets. (name : List ℕ)
            → contains (slice_cmp nat_cmp) sets.after name ≡ names_set name object.now) }
        ensures ok { IfOk result (λ sets. HasAdded object.now
            (contains (slice_cmp nat_cmp) sets.before) self.old.keys self.new.keys) }
        ensures err { OnErr result (HasSameKeys self.old.keys self.new.keys) }
    {
        let before = sets_named(alloc, other)?;
        let after = sets_named(alloc, Some(object))?;
        self.add(alloc, object, &before)?;
        Ok(NamedSets { before, after })
    }

    /// Puts the object's key under each set that it names in its `member-of`, save those in
    /// `others`. Nothing else changes. Under none of the sets where it is put may the key stand
    /// before. The error is that memory ran out, and then the same keys stand under each set as
    /// before.
    pub fn add(
        &mut self,
        alloc: Global,
        object: &Object,
        others: &BTreeSet<SetName>,
    ) -> Result<(), AllocError>
        requires { (name : List ℕ) (key : Key)
            → IsTrue (is_meant object.now (contains (slice_cmp nat_cmp) others.now) name key)
            → stands_under self.old.keys name key ≡ false }
        ensures { MayChange (HasAdded object.now (contains (slice_cmp nat_cmp) others.now))
            self.old.keys self.new.keys result }
    {
        match self.add_each(alloc, object, others) {
            Ok(()) => Ok(()),
            Err(refused) => {
                self.take(object, others);
                Err(refused)
            }
        }
    }

    /// Puts the object's key under each set that it names, save the others. The error is that
    /// memory ran out. Then nothing is put but this key, perhaps, under some of these sets, and
    /// every key that stood under a set still does.
    fn add_each(
        &mut self,
        alloc: Global,
        object: &Object,
        others: &BTreeSet<SetName>,
    ) -> Result<(), AllocError>
        ensures ok { OnOk result (HasAdded object.now (contains (slice_cmp nat_cmp) others.now)
            self.old.keys self.new.keys) }
        ensures some { OnErr result
            ((name : List ℕ) (key : Key) → IsTrue (stands_under self.new.keys name key) →
            IsTrue (stands_under self.old.keys name key
            || is_meant object.now (contains (slice_cmp nat_cmp) others.now) name key)) }
        ensures kept { OnErr result ((name : List ℕ) (key : Key) → IsTrue (stands_under
            self.old.keys name key) → IsTrue (stands_under self.new.keys name key)) }
    {
        for name in object.member_of() {
            if !others.contains(name) {
                self.add_under(alloc, name, object.key())?;
            }
        }
        Ok(())
    }

    /// Puts the key under the set, and changes nothing else. If memory runs out, the same keys
    /// stand under each set as before.
    fn add_under(&mut self, alloc: Global, name: &SetName, key: &Key) -> Result<(), AllocError>
        ensures { MayChange (HasAddedKey name.now key.now) self.old.keys self.new.keys result }
    {
        let key = key.copy(alloc)?;
        match self.keys.get_mut(name) {
            Some(keys) => {
                keys.insert(key)?;
            }
            None => {
                let mut keys = BTreeSet::new(alloc);
                keys.insert(key)?;
                self.keys.insert(name.copy(alloc)?, keys)?;
            }
        }
        Ok(())
    }

    /// Takes the object's key from under each set that it names in its `member-of`, save those in
    /// `others`. Nothing else changes.
    pub fn take(&mut self, object: &Object, others: &BTreeSet<SetName>)
        ensures { HasTaken object.now (contains (slice_cmp nat_cmp) others.now)
            self.old.keys self.new.keys }
    {
        for name in object.member_of() {
            if !others.contains(name) {
                self.take_from(name, object.key());
            }
        }
    }

    /// Does what `take` does, and frees the object.
    pub(crate) fn take_and_free(&mut self, object: Object, others: &BTreeSet<SetName>)
        ensures { HasTaken object (contains (slice_cmp nat_cmp) others.now)
            self.old.keys self.new.keys }
    {
        self.take(&object, others);
    }

    /// Takes the object's key from under each set that it names in its `member-of`. Nothing else
    /// changes.
    pub fn take_all(&mut self, object: &Object)
        ensures { HasTaken object.now (λ other. false) self.old.keys self.new.keys }
    {
        for name in object.member_of() {
            self.take_from(name, object.key());
        }
    }

    /// Does what `take_all` does, and frees the object.
    pub(crate) fn take_all_and_free(&mut self, object: Object)
        ensures { HasTaken object (λ other. false) self.old.keys self.new.keys }
    {
        self.take_all(&object);
    }

    /// Takes the key from under the set, and changes nothing else.
    fn take_from(&mut self, name: &SetName, key: &Key)
        ensures { HasTakenKey name.now key.now self.old.keys self.new.keys }
    {
        if self.take_key(name, key) {
            self.keys.remove(name);
        }
    }

    /// Takes the key from under the set, and changes nothing else; `true` says that none is left
    /// under it.
    fn take_key(&mut self, name: &SetName, key: &Key) -> bool
        ensures taken { HasTakenKey name.now key.now self.old.keys self.new.keys }
        ensures empty { IsTrue result → (k : Key)
            → stands_under self.new.keys name.now k ≡ false }
    {
        match self.keys.get_mut(name) {
            Some(keys) => {
                keys.remove(key);
                keys.is_empty()
            }
            None => false,
        }
    }
}

/// The sets that the object names in its `member-of`; none without an object. The error is that
/// memory ran out.
pub fn sets_named(alloc: Global, object: Option<&Object>) -> Result<BTreeSet<SetName>, AllocError>
    ensures { IfOk result (λ sets. (name : List ℕ) → contains (slice_cmp nat_cmp) sets name ≡
        option_map_or (names_set name) (option_copied object.entry) false) }
{
    match object {
        Some(object) => sets_among(alloc, object.member_of()),
        None => Ok(BTreeSet::new(alloc)),
    }
}

/// The sets of these names; the error is that memory ran out.
fn sets_among(alloc: Global, names: &[SetName]) -> Result<BTreeSet<SetName>, AllocError>
    ensures { IfOk result (λ sets. (name : List ℕ) → contains (slice_cmp nat_cmp) sets name ≡
        list_any (λ own. bytes_eq own name) names.now) }
{
    let mut sets = BTreeSet::new(alloc);
    for name in names {
        sets.insert(name.copy(alloc)?)?;
    }
    Ok(sets)
}

/// Those of the objects that have one of `keys`, in the order of these keys. The objects must stand
/// in the order of their own keys, no two under one. The error is that memory ran out. That `keys`
/// strictly rise is promised after an error too.
pub(crate) fn objects_of<'a>(
    alloc: Global,
    objects: &'a [Object],
    keys: &BTreeSet<Key>,
) -> Result<Vec<&'a Object>, AllocError>
    requires { is_in_order objects.now ≡ true }
    ensures found { IfOk result (λ found. lent found.items
        ≡ filter_map (object_at objects.now) keys.now.keys) }
    ensures ordered { IsStrictlySortedBy ⟦<Key as Ord>⟧.cmp keys.now.keys }
{
    let mut found = Vec::new(alloc);
    for key in keys {
        if let Some(object) = find_by_key(objects, key) {
            found.push(object)?;
        }
    }
    Ok(found)
}
