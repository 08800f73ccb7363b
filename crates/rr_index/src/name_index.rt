//! The maintainers of a registry, by name: one of the indexes of the indexed book.

ghost use Rattle.std.specs.Prelude.{◌≡◌};
ghost use Rattle.std.specs.BTreeMap.{get as key_at};
ghost use Rattle.std.specs.Cmp.Lexicographic.{slice_cmp};
ghost use Rattle.std.specs.FinMap.{empty, remove};
ghost use Rattle.std.specs.Option.{option_copied};
ghost use Rattle.std.specs.Ordering.{nat_cmp};
ghost use Rattle.rr_object.specs.declared.key.Key.TheVariants.{Mntner};
ghost use Rattle.rr_auth.specs.Registries.{Reg};
ghost use Rattle.rr_index.specs.NameIndexes.{EntersName, HasNames};

use rr_number::Name;
use rr_object::Key;
use std::alloc::{AllocError, Global};
use std::collections::BTreeMap;

/// The keys of the registered mntners, by name: a mntner is found by its name without a key that
/// owns memory.
#[derive(Drop)]
pub(crate) struct NameIndex {
    keys: BTreeMap<Name, Key>,
}

impl NameIndex {
    /// An index without names: that of a registry without objects.
    pub(crate) fn new(alloc: Global) -> NameIndex
        ensures { HasNames empty result.keys }
    {
        NameIndex {
            keys: BTreeMap::new(alloc),
        }
    }

    /// The key that the index has under the name; none if it has none.
    pub(crate) fn key(&self, name: &Name) -> Option<&Key>
        ensures { option_copied result ≡ key_at (slice_cmp nat_cmp) self.now.keys name.now }
    {
        self.keys.get(name)
    }

    /// Enters a key: the names of a registry become those of it with any object put under the key.
    /// The error is that memory ran out, and the names are still those of the registry.
    pub(crate) fn add(&mut self, alloc: Global, key: &Key) -> Result<(), AllocError>
        ensures { EntersName self.old.keys key.now self.new.keys result }
    {
        match key {
            Key::Mntner(name) => self.put(alloc, name, key),
            _ => Ok(()),
        }
    }

    /// Puts the key of the mntner of the name under the name. The error is that memory ran out, and
    /// the names are still those of the registry as it was.
    fn put(&mut self, alloc: Global, name: &Name, key: &Key) -> Result<(), AllocError>
        requires { key.now ≡ Mntner name.now }
        ensures { EntersName self.old.keys (Mntner name.now) self.new.keys result }
    {
        let under = name.copy(alloc)?;
        let kept = key.copy(alloc)?;
        self.keys.insert(under, kept)?;
        Ok(())
    }

    /// Takes out a key: the names of a registry become those of it without the object of the key.
    pub(crate) fn take(&mut self, key: &Key)
        ensures { (r : Reg) → HasNames r self.old.keys
            → HasNames (remove r key.now) self.new.keys }
    {
        if let Key::Mntner(name) = key {
            self.keys.remove(name);
        }
    }
}
