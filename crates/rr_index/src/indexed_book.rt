//! The book in which the program keeps its registry: objects by key, and the indexes beside them.

ghost use Rattle.std.specs.Prelude.{◌≡◌, None, true, is_some};
ghost use Rattle.std.specs.FinMap.{get, insert};
ghost use Rattle.rr_auth.specs.Registries.{Sound};
ghost use Rattle.rr_index.specs.Private.{PutsObject};

use crate::indexes::Indexes;
use crate::object_map::ObjectMap;
use rr_auth::Book;
use rr_book::Keeper;
use rr_number::{AsNumber, AsSpan, Name, Prefix, SetName, Span};
use rr_object::{Key, Object};
use rr_sets::SetBook;
use std::alloc::{AllocError, Global};
use std::marker::Model;

/// Objects by key in a balanced tree; contracts see the finite map from keys to objects, which is
/// always sound. Beside them are the spans of inetnums and as-blocks in nests, the prefixes of
/// routes in a prefix tree, and the routes by origin. So are the names of the maintainers, how
/// often each is named, and the keys under the sets that the objects name in `member-of`.
///
/// No clause says how many steps a call takes. For n objects, a key, a maintainer and whether it is
/// named are found in O(log n) steps. So are a closest inetnum, as-block or route, and a crossing.
/// k objects of any list, or k origins, take O(k log n). k prefixes of an origin take O(k + log n),
/// and what is inside a span alike, where k have their first address in it.
#[derive(Drop)]
pub struct IndexedBook {
    objects: ObjectMap,
    indexes: Indexes,
}

impl Model for IndexedBook {
    ghost use Rattle.rr_auth.specs.Registries.{Reg};
    ghost use Rattle.std.specs.FinMap as map;
    ghost use Rattle.rr_object.specs.contracts.key.Key as key;
    ghost use Rattle.rr_object.specs.contracts.object.Object as object;

    ghost Value = { Reg };

    ghost coded = { map.code (key.the_row).coded (object.the_row).coded };

    ghost use Rattle.rr_index.specs.Indexes.{IsIndexedBy};

    ghost view = { λ b. b.objects };

    ghost invariant = { λ b. IsIndexedBy b.objects b.indexes };
}

impl IndexedBook {
    /// Puts an object in place of the one of its key, which must be there; the registry with it
    /// must be sound. The error is that memory ran out, and nothing changes.
    fn change(&mut self, alloc: Global, object: Object) -> Result<(), AllocError>
        requires sound { Sound (insert self.old object.key object) }
        requires stands { is_some (get self.old object.key) ≡ true }
        ensures { PutsObject self.old object self.new result }
    {
        let standing = self.objects.get(object.key());
        let sets = self.indexes.enter_names(alloc, &object, standing)?;
        match self.objects.replace(object) {
            Ok(old) => {
                self.indexes.leave_names(old, sets);
                Ok(())
            }
            // An object stands under the key.
            Err(_) => unreachable!(),
        }
    }

    /// Puts an object of a key under which none may stand; the registry with it must be sound. The
    /// error is that memory ran out, and nothing changes.
    fn add(&mut self, alloc: Global, object: Object) -> Result<(), AllocError>
        requires sound { Sound (insert self.old object.key object) }
        requires free { get self.old object.key ≡ None }
        ensures { PutsObject self.old object self.new result }
    {
        self.indexes.enter(alloc, &object)?;
        match self.objects.add(alloc, object) {
            Ok(()) => Ok(()),
            Err(refused) => {
                self.indexes.leave_and_free(&self.objects, refused.value);
                Err(AllocError)
            }
        }
    }
}

impl Book for IndexedBook {
    ghost contents = { λ b. b };

    fn get(&self, key: &Key) -> Option<&Object> {
        self.objects.get(key)
    }

    fn maintainer(&self, name: &Name) -> Option<&Object> {
        match self.indexes.names.key(name) {
            Some(key) => self.objects.get(key),
            None => None,
        }
    }

    fn closest_inetnum(&self, span: Span) -> Option<&Object> {
        match self.indexes.spans.closest_inetnum(span) {
            Some(own) => self.objects.get(&Key::Inetnum(own)),
            None => None,
        }
    }

    fn closest_block(&self, span: Span) -> Option<&Object> {
        match self.indexes.spans.closest_block(span) {
            Some(own) => self.objects.get(&Key::AsBlock(AsSpan::of(own))),
            None => None,
        }
    }

    fn closest_route_prefix(&self, prefix: Prefix) -> Option<Prefix> {
        self.indexes.spans.closest_route_prefix(prefix)
    }

    fn origins(&self, alloc: Global, prefix: Prefix) -> Result<Vec<AsNumber>, AllocError> {
        self.objects.origins(alloc, prefix)
    }

    fn crosses(&self, key: &Key) -> bool {
        self.indexes.spans.crosses(key)
    }

    fn names_maintainer(&self, name: &Name) -> bool {
        self.indexes.namings.is_named(name)
    }
}

impl SetBook for IndexedBook {
    fn aut_nums(&self, alloc: Global) -> Result<Vec<&Object>, AllocError> {
        self.objects.aut_nums(alloc)
    }

    fn routes(&self, alloc: Global) -> Result<Vec<&Object>, AllocError> {
        self.objects.routes(alloc)
    }

    fn routes_of(&self, alloc: Global, origin: AsNumber) -> Result<Vec<&Object>, AllocError> {
        self.objects.routes_of(alloc, &self.indexes.origins, origin)
    }

    fn prefixes_of(&self, alloc: Global, origin: AsNumber) -> Result<Vec<Prefix>, AllocError> {
        self.indexes.origins.prefixes_of(alloc, origin)
    }

    fn referrers(&self, alloc: Global, name: &SetName) -> Result<Vec<&Object>, AllocError> {
        match self.indexes.referrers.keys(name) {
            Some(keys) => self.objects.at_keys(alloc, keys),
            None => Ok(Vec::new(alloc)),
        }
    }
}

impl Keeper for IndexedBook {
    fn of(alloc: Global, objects: Vec<Object>) -> Result<IndexedBook, AllocError> {
        let indexes = Indexes::of(alloc, &objects)?;
        let objects = ObjectMap::of(alloc, objects)?;
        Ok(IndexedBook { objects, indexes })
    }

    fn insert(&mut self, alloc: Global, object: Object) -> Result<(), AllocError> {
        if self.objects.get(object.key()).is_some() {
            self.change(alloc, object)
        } else {
            self.add(alloc, object)
        }
    }

    fn remove(&mut self, key: &Key) {
        if let Some(old) = self.objects.remove(key) {
            self.indexes.leave_and_free(&self.objects, old);
        }
    }

    fn objects(&self, alloc: Global) -> Result<Vec<&Object>, AllocError> {
        self.objects.all(alloc)
    }

    fn covering(&self, alloc: Global, span: Span) -> Result<Vec<&Object>, AllocError> {
        let spans = self.indexes.spans.inetnums.covering(alloc, span)?;
        let prefixes = self.indexes.spans.routes.covering(alloc, span)?;
        self.objects.chosen(alloc, &spans, &prefixes)
    }

    fn inside(&self, alloc: Global, span: Span) -> Result<Vec<&Object>, AllocError> {
        self.objects.inside(alloc, span)
    }
}
