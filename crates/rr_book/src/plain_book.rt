//! A registry as a list of objects in the order of their keys. Tests compare the indexed book with
//! this one; the program keeps its registry in the indexed one.

ghost use Rattle.std.specs.Prelude.{◌≡◌};
ghost use Rattle.std.specs.FinMap.{values};
ghost use Rattle.rr_auth.specs.Registries.{ListsOf, Sound};
ghost use Rattle.rr_sets.specs.Lists.{IsReferrer, ListsOnce};

use crate::closest::{closest, closest_route_prefix};
use crate::keeper::Keeper;
use crate::set_index::{SetIndex, objects_of};
use crate::{listings, object_lists};
use rr_auth::Book;
use rr_number::{AsNumber, Name, Prefix, SetName, Span};
use rr_object::{Class, Key, Object};
use std::alloc::{AllocError, Global};
use std::marker::Model;

/// Objects in the order of class and key, and their keys under the sets that they name in
/// `member-of`; contracts see the finite map from keys to objects. It is always sound, as `SetBook`
/// says.
#[derive(Drop)]
pub struct PlainBook {
    objects: Vec<Object>,
    referrers: SetIndex,
}

impl Model for PlainBook {
    ghost use Rattle.rr_auth.specs.Registries.{Reg};
    ghost use Rattle.std.specs.FinMap as map;
    ghost use Rattle.rr_object.specs.contracts.key.Key as key;
    ghost use Rattle.rr_object.specs.contracts.object.Object as object;

    ghost Value = { Reg };

    ghost coded = { map.code (key.the_row).coded (object.the_row).coded };

    ghost use Rattle.rr_book.specs.Books.{book_of};
    ghost use Rattle.rr_book.specs.SetIndexes.{IsIndexed};

    ghost view = { λ b. book_of b.objects.items };

    ghost invariant = { λ b. IsIndexed b.objects.items b.referrers.keys };
}

impl PlainBook {
    /// Exactly the objects whose `member-of` names the set, each once; the error is that memory ran
    /// out. The registry is sound, after an error too. No clause says that they are in the order of
    /// class and key, nor that k of n objects take O(k log n) steps.
    pub(crate) fn objects_that_name(
        &self,
        alloc: Global,
        name: &SetName,
    ) -> Result<Vec<&Object>, AllocError>
        ensures { ListsOf self.now
            (λ found. ListsOnce (IsReferrer self.now name.now) found.items) result }
    {
        match self.referrers.keys(name) {
            Some(keys) => objects_of(alloc, &self.objects, keys),
            None => Ok(Vec::new(alloc)),
        }
    }

    /// All objects, in the order of class and key. The registry is sound.
    #[tactic(auto, using(crate::proofs::Order::values_of_book))]
    pub(crate) fn as_slice(&self) -> &[Object]
        ensures objects { result.now ≡ values self.now }
        ensures sound { Sound self.now }
    {
        self.objects.as_slice()
    }
}

impl Book for PlainBook {
    ghost contents = { λ b. b };

    fn get(&self, key: &Key) -> Option<&Object> {
        object_lists::find_by_key(&self.objects, key)
    }

    fn maintainer(&self, name: &Name) -> Option<&Object> {
        object_lists::find_mntner(&self.objects, name)
    }

    fn closest_inetnum(&self, span: Span) -> Option<&Object> {
        closest(&self.objects, Class::Inetnum, span)
    }

    fn closest_block(&self, span: Span) -> Option<&Object> {
        closest(&self.objects, Class::AsBlock, span)
    }

    fn closest_route_prefix(&self, prefix: Prefix) -> Option<Prefix> {
        closest_route_prefix(&self.objects, prefix)
    }

    fn origins(&self, alloc: Global, prefix: Prefix) -> Result<Vec<AsNumber>, AllocError> {
        object_lists::origins(alloc, &self.objects, prefix)
    }

    fn crosses(&self, key: &Key) -> bool {
        object_lists::some_crosses(&self.objects, key)
    }

    fn names_maintainer(&self, name: &Name) -> bool {
        object_lists::is_named_by_another(&self.objects, name)
    }
}

impl Keeper for PlainBook {
    fn of(alloc: Global, objects: Vec<Object>) -> Result<PlainBook, AllocError> {
        let referrers = SetIndex::of(alloc, &objects)?;
        Ok(PlainBook { objects, referrers })
    }

    fn insert(&mut self, alloc: Global, object: Object) -> Result<(), AllocError> {
        let standing = object_lists::find_by_key(&self.objects, object.key());
        let sets = self.referrers.enter(alloc, &object, standing)?;
        match object_lists::put(&mut self.objects, object) {
            Ok(Some(old)) => {
                self.referrers.take_and_free(old, &sets.after);
                Ok(())
            }
            Ok(None) => Ok(()),
            Err(refused) => {
                self.referrers.take_and_free(refused.value, &sets.before);
                Err(AllocError)
            }
        }
    }

    fn remove(&mut self, key: &Key) {
        if let Some(old) = object_lists::remove(&mut self.objects, key) {
            self.referrers.take_all_and_free(old);
        }
    }

    fn objects(&self, alloc: Global) -> Result<Vec<&Object>, AllocError> {
        listings::all(alloc, self.as_slice())
    }

    fn covering(&self, alloc: Global, span: Span) -> Result<Vec<&Object>, AllocError> {
        listings::covering(alloc, self.as_slice(), span)
    }

    fn inside(&self, alloc: Global, span: Span) -> Result<Vec<&Object>, AllocError> {
        listings::inside(alloc, self.as_slice(), span)
    }
}
