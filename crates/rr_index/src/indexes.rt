//! What the indexed book keeps beside its objects. An object is entered in all indexes or in none,
//! and taken out of all.

ghost use Rattle.std.specs.Prelude.{◌≡◌, ℕ, IfOk, IsTrue, List, None, Some, OnErr, OnOk};
ghost use Rattle.std.specs.Prelude.{false};
ghost use Rattle.std.specs.BTreeSet.{contains};
ghost use Rattle.std.specs.Cmp.Lexicographic.{slice_cmp};
ghost use Rattle.std.specs.FinMap.{empty, get, insert, remove};
ghost use Rattle.std.specs.Option.{option_copied};
ghost use Rattle.std.specs.Ordering.{nat_cmp};
ghost use Rattle.rr_object.specs.declared.key.Key.{Key};
ghost use Rattle.rr_auth.specs.Registries.{Reg, Sound};
ghost use Rattle.rr_book.specs.Books.{IsBook, book_of};
ghost use Rattle.rr_book.specs.SetIndexes.{is_meant, stands_under};
ghost use Rattle.rr_book.specs.SetLists.{names_set};
ghost use Rattle.rr_index.specs.EnteringParts.{CanEnter, ChangesOwnKeys, ChangesPlaces, HasNamed};
ghost use Rattle.rr_index.specs.EnteringParts.{HasPlaces, HasUnnamed, IsUncrossed, is_named_by};
ghost use Rattle.rr_index.specs.Indexes.{HasIndexes, HasKeys};
ghost use Rattle.rr_index.specs.NameIndexes.{HasNames};

use crate::name_index::NameIndex;
use crate::naming_index::NamingIndex;
use crate::object_map::ObjectMap;
use crate::origin_index::OriginIndex;
use crate::span_index::SpanIndex;
use rr_book::set_index::{SetIndex, sets_named};
use rr_number::SetName;
use rr_object::Object;
use std::alloc::{AllocError, Global};
use std::collections::BTreeSet;

/// The indexes of a registry: the spans of its objects, its routes by origin, and the names of its
/// mntners. Also the keys under the sets that the objects name in `member-of`, and how often they
/// name each maintainer.
#[derive(Drop)]
pub(crate) struct Indexes {
    pub(crate) spans: SpanIndex,
    pub(crate) origins: OriginIndex,
    pub(crate) names: NameIndex,
    pub(crate) referrers: SetIndex,
    pub(crate) namings: NamingIndex,
}

impl Indexes {
    /// The indexes of no objects.
    pub(crate) fn new(alloc: Global) -> Indexes
        ensures { HasIndexes empty result }
    {
        Indexes {
            spans: SpanIndex::new(alloc),
            origins: OriginIndex::new(alloc),
            names: NameIndex::new(alloc),
            referrers: SetIndex::new(alloc),
            namings: NamingIndex::new(alloc),
        }
    }

    /// The indexes of objects that must stand in the order of class and key, no two under one key,
    /// and whose registry must be sound. The error is that memory ran out.
    pub(crate) fn of(alloc: Global, objects: &[Object]) -> Result<Indexes, AllocError>
        requires { IsBook objects.now }
        ensures { IfOk result (λ indexes. HasIndexes (book_of objects.now) indexes) }
    {
        let mut indexes = Indexes::new(alloc);
        for object in objects {
            indexes.enter(alloc, object)?;
        }
        Ok(indexes)
    }

    /// Enters an object: the indexes of a registry that has none under its key become those of the
    /// registry with it. The key must stand under no set that the object names, and no inetnum and
    /// no as-block that is held may cross it. The error is that memory ran out, and the indexes of
    /// such a registry are still its indexes.
    pub(crate) fn enter(&mut self, alloc: Global, object: &Object) -> Result<(), AllocError>
        requires { CanEnter self.old object.now }
        ensures ok { OnOk result ((r : Reg) → HasIndexes r self.old → get r object.now.key
            ≡ None → HasIndexes (insert r object.now.key object.now) self.new) }
        ensures err { OnErr result ((r : Reg) → HasIndexes r self.old
            → get r object.now.key ≡ None → HasIndexes r self.new) }
    {
        self.namings.add(alloc, object)?;
        match self.enter_keys(alloc, object) {
            Ok(()) => Ok(()),
            Err(refused) => {
                self.namings.take(object);
                Err(refused)
            }
        }
    }

    /// Enters the key of the object, under the sets that it names too. If memory runs out, the
    /// indexes stay those of the same objects. The counts of namings stay in any case.
    fn enter_keys(&mut self, alloc: Global, object: &Object) -> Result<(), AllocError>
        requires { CanEnter self.old object.now }
        ensures ok { OnOk result ((r : Reg) → HasKeys r self.old.spans self.old.origins
            self.old.names self.old.referrers → get r object.now.key ≡ None
            → HasKeys (insert r object.now.key object.now) self.new.spans self.new.origins
            self.new.names self.new.referrers) }
        ensures err { OnErr result ((r : Reg) → HasKeys r self.old.spans self.old.origins
            self.old.names self.old.referrers → get r object.now.key ≡ None
            → HasKeys r self.new.spans self.new.origins self.new.names self.new.referrers) }
        ensures namings { self.new.namings ≡ self.old.namings }
    {
        let none = BTreeSet::new(alloc);
        self.referrers.add(alloc, object, &none)?;
        match self.enter_key(alloc, object) {
            Ok(()) => Ok(()),
            Err(refused) => {
                self.referrers.take_all(object);
                Err(refused)
            }
        }
    }

    /// Enters the name, the origin and the span of the object. If memory runs out, these indexes
    /// stay those of the same objects. The other indexes stay in any case.
    fn enter_key(&mut self, alloc: Global, object: &Object) -> Result<(), AllocError>
        requires { IsUncrossed self.old.spans object.now.key }
        ensures ok { OnOk result ((r : Reg) → HasPlaces r self.old.spans self.old.origins
            → HasNames r self.old.names.keys
            → HasPlaces (insert r object.now.key object.now) self.new.spans self.new.origins
            × HasNames (insert r object.now.key object.now) self.new.names.keys) }
        ensures err { OnErr result ((r : Reg) → HasPlaces r self.old.spans self.old.origins
            → HasNames r self.old.names.keys → get r object.now.key ≡ None
            → HasPlaces r self.new.spans self.new.origins × HasNames r self.new.names.keys) }
        ensures own_keys { ChangesOwnKeys self.old self.new }
    {
        let key = object.key();
        self.names.add(alloc, key)?;
        match self.enter_place(object) {
            Ok(()) => Ok(()),
            Err(refused) => {
                self.names.take(key);
                Err(refused)
            }
        }
    }

    /// Enters the origin and the span of the object. If memory runs out, these indexes stay those
    /// of the same objects. The other indexes stay in any case.
    fn enter_place(&mut self, object: &Object) -> Result<(), AllocError>
        requires { IsUncrossed self.old.spans object.now.key }
        ensures ok { OnOk result ((r : Reg) → HasPlaces r self.old.spans self.old.origins
            → HasPlaces (insert r object.now.key object.now) self.new.spans self.new.origins) }
        ensures err { OnErr result ((r : Reg) → HasPlaces r self.old.spans self.old.origins
            → get r object.now.key ≡ None
            → HasPlaces r self.new.spans self.new.origins) }
        ensures places { ChangesPlaces self.old self.new }
    {
        let key = object.key();
        self.origins.add(key)?;
        match self.spans.add(key) {
            Ok(()) => Ok(()),
            Err(refused) => {
                self.origins.take(key);
                Err(refused)
            }
        }
    }

    /// Enters what an object names: its key, under each set that it names and `standing` does not,
    /// and its namings of maintainers. Other indexes stay. Under none of these sets may the key
    /// stand before. The result is the sets that the object names. The error is that memory ran
    /// out. Then the indexes of a registry that has `standing` under the key, or nothing if that is
    /// none, are still its indexes.
    pub(crate) fn enter_names(
        &mut self,
        alloc: Global,
        object: &Object,
        standing: Option<&Object>,
    ) -> Result<BTreeSet<SetName>, AllocError>
        requires { (name : List ℕ) (key : Key)
            → IsTrue (is_meant object.now (is_named_by (option_copied standing)) name key)
            → stands_under self.old.referrers.keys name key ≡ false }
        ensures sets { IfOk result (λ sets. (name : List ℕ)
            → contains (slice_cmp nat_cmp) sets name ≡ names_set name object.now) }
        ensures ok { OnOk result
            (HasNamed object.now (option_copied standing.entry) self.old self.new) }
        ensures err { OnErr result ((r : Reg) → HasIndexes r self.old
            → option_copied standing.entry ≡ get r object.now.key → HasIndexes r self.new) }
    {
        let before = sets_named(alloc, standing)?;
        let after = sets_named(alloc, Some(object))?;
        self.referrers.add(alloc, object, &before)?;
        match self.namings.add(alloc, object) {
            Ok(()) => Ok(after),
            Err(refused) => {
                self.referrers.take(object, &before);
                Err(refused)
            }
        }
    }

    /// Takes out what an object names in whose place another came: its key, from under each set
    /// that it names, save `sets`, and its namings of maintainers. Other indexes stay.
    pub(crate) fn leave_names(&mut self, old: Object, sets: BTreeSet<SetName>)
        ensures { HasUnnamed old (contains (slice_cmp nat_cmp) sets) self.old self.new }
    {
        self.referrers.take(&old, &sets);
        self.namings.take(&old);
    }

    /// Takes out an object that is no longer among these objects, whose registry must be sound. If
    /// the indexes were those of these objects and of it, they are then those of these objects
    /// alone.
    pub(crate) fn leave(&mut self, objects: &ObjectMap, gone: &Object)
        requires { Sound objects.now }
        ensures { (r : Reg) → HasIndexes r self.old → get r gone.now.key ≡ Some gone.now
            → objects.now ≡ remove r gone.now.key
            → HasIndexes objects.now self.new }
    {
        let key = gone.key();
        let is_routed = objects.is_routed(key);
        self.spans.take(key, is_routed);
        self.origins.take(key);
        self.names.take(key);
        self.referrers.take_all(gone);
        self.namings.take(gone);
    }

    /// Does what `leave` does, and frees the object. The registry of these objects must be sound.
    pub(crate) fn leave_and_free(&mut self, objects: &ObjectMap, gone: Object)
        requires { Sound objects.now }
        ensures { (r : Reg) → HasIndexes r self.old → get r gone.key ≡ Some gone
            → objects.now ≡ remove r gone.key
            → HasIndexes objects.now self.new }
    {
        self.leave(objects, &gone);
    }
}
