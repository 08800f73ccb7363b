//! The routes of a registry, by origin: one of the indexes of the indexed book.

ghost use Rattle.std.specs.Prelude.{◌≡◌, IfOk, OnErr, OnOk, filter, map};
ghost use Rattle.std.specs.FinMap.{empty, insert, remove};
ghost use Rattle.std.specs.List.Sorted.{IsStrictlySortedBy};
ghost use Rattle.rr_object.specs.Objects.{Obj};
ghost use Rattle.rr_auth.specs.Registries.{Reg};
ghost use Rattle.rr_index.specs.OriginIndexes.{HasOrigins, origin_cmp};
ghost use Rattle.rr_index.specs.Private.{is_of_origin};

use rr_number::{Address, AsNumber, Prefix};
use rr_object::Key;
use std::alloc::{AllocError, Global};
use std::collections::BTreeSet;
use std::collections::btree_set::Range;

/// The origins of the registered routes, each with its prefix: the routes of an origin stand next
/// to each other.
#[derive(Drop)]
pub(crate) struct OriginIndex {
    routes: BTreeSet<(AsNumber, Prefix)>,
}

impl OriginIndex {
    /// An index without routes: that of a registry without objects.
    pub(crate) fn new(alloc: Global) -> OriginIndex
        ensures { HasOrigins empty result.routes }
    {
        OriginIndex {
            routes: BTreeSet::new(alloc),
        }
    }

    /// Enters a key: the routes of a registry become those of it with any object put under the key.
    /// The error is that memory ran out, and the routes are still those of the registry.
    pub(crate) fn add(&mut self, key: &Key) -> Result<(), AllocError>
        ensures ok { OnOk result ((r : Reg) (o : Obj) → HasOrigins r self.old.routes
            → HasOrigins (insert r key.now o) self.new.routes) }
        ensures err { OnErr result
            ((r : Reg) → HasOrigins r self.old.routes → HasOrigins r self.new.routes) }
    {
        if let Key::Route(prefix, origin) = key {
            self.routes.insert((*origin, *prefix))?;
        }
        Ok(())
    }

    /// Takes out a key: the routes of a registry become those of it without the object of the key.
    pub(crate) fn take(&mut self, key: &Key)
        ensures { (r : Reg) → HasOrigins r self.old.routes
            → HasOrigins (remove r key.now) self.new.routes }
    {
        if let Key::Route(prefix, origin) = key {
            self.routes.remove(&(*origin, *prefix));
        }
    }

    /// The routes that the index has of the origin, in the order of their prefixes. All its routes
    /// strictly rise, by origin and then by prefix.
    pub(crate) fn routes_of(&self, origin: AsNumber) -> Range<'_, (AsNumber, Prefix)>
        ensures routes { result ≡ filter (is_of_origin origin) self.now.routes.keys }
        ensures ordered { IsStrictlySortedBy origin_cmp self.now.routes.keys }
    {
        let least = Prefix::new(Address::from_bits(0), 0);
        let greatest = Prefix::new(Address::from_bits(u32::MAX), 32);
        self.routes.range((origin, least)..=(origin, greatest))
    }

    /// The prefixes of the routes that the index has of the origin, in order; the error is that
    /// memory ran out. All its routes strictly rise, by origin and then by prefix, after an error
    /// too.
    pub(crate) fn prefixes_of(
        &self,
        alloc: Global,
        origin: AsNumber,
    ) -> Result<Vec<Prefix>, AllocError>
        ensures found { IfOk result (λ found. found.items
            ≡ map (λ route. route.1) (filter (is_of_origin origin) self.now.routes.keys)) }
        ensures ordered { IsStrictlySortedBy origin_cmp self.now.routes.keys }
    {
        let mut found = Vec::new(alloc);
        for route in self.routes_of(origin) {
            found.push(route.1)?;
        }
        Ok(found)
    }
}
