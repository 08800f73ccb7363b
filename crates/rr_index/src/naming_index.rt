//! How often the objects of a registry name each maintainer: one of the indexes of the indexed
//! book.

ghost use Rattle.std.specs.Prelude.{◌≡◌, ◌+◌, ◌-◌, ℕ, List, [], ◌∷◌};
ghost use Rattle.std.specs.Prelude.{◌==◌, cond, take, nat_lt, IfErr, IsTrue, OnErr, OnOk};
ghost use Rattle.std.specs.FinMap.{empty};
ghost use Rattle.std.specs.Str.{bytes_eq};
ghost use Rattle.rr_object.specs.Objects.{names_of};
ghost use Rattle.rr_index.specs.NamingIndexes.{HasNamings, count_at, namings, namings_by};

use rr_number::Name;
use rr_object::{Key, Object};
use std::alloc::{AllocError, Global};
use std::collections::BTreeMap;

/// How often registered objects name each maintainer, its own mntner left out: whether one is named
/// at all is found without a look at the objects.
#[derive(Drop)]
pub(crate) struct NamingIndex {
    counts: BTreeMap<Name, u64>,
}

impl NamingIndex {
    /// An index without counts: that of a registry without objects.
    pub(crate) fn new(alloc: Global) -> NamingIndex
        ensures { HasNamings empty result.counts }
    {
        NamingIndex {
            counts: BTreeMap::new(alloc),
        }
    }

    /// Whether the counts say that the maintainer is named: its count is above 0.
    pub(crate) fn is_named(&self, name: &Name) -> bool
        ensures { result ≡ nat_lt 0 (count_at self.now.counts name.now) }
    {
        match self.counts.get(name) {
            Some(count) => *count > 0,
            None => false,
        }
    }

    /// Adds to the count of each maintainer how often the object names it, unless the object is its
    /// mntner. The error is that memory ran out, and no count changes.
    pub(crate) fn add(&mut self, alloc: Global, object: &Object) -> Result<(), AllocError>
        ensures ok { OnOk result ((name : List ℕ) → count_at self.new.counts name
            ≡ count_at self.old.counts name + namings_by name object.now) }
        ensures err { OnErr result ((name : List ℕ)
            → count_at self.new.counts name ≡ count_at self.old.counts name) }
    {
        match self.add_each(alloc, object) {
            Ok(()) => Ok(()),
            Err(counted) => {
                self.take_first(object, counted);
                Err(AllocError)
            }
        }
    }

    /// Counts the maintainers that the object names, one after the other. The error is that memory
    /// ran out, and says how many of its names were counted.
    fn add_each(&mut self, alloc: Global, object: &Object) -> Result<(), u64>
        ensures ok { OnOk result ((name : List ℕ) → count_at self.new.counts name
            ≡ count_at self.old.counts name + namings_by name object.now) }
        ensures some { IfErr result (λ counted. (name : List ℕ) → count_at self.new.counts name
            ≡ count_at self.old.counts name
            + namings name object.now.key (take counted (names_of object.now))) }
    {
        let mut counted: u64 = 0;
        for name in object.maintainers_named() {
            let Some(more) = counted.checked_add(1) else {
                return Err(counted);
            };
            match self.raise(alloc, object.key(), name) {
                Ok(()) => counted = more,
                Err(_) => return Err(counted),
            }
        }
        Ok(())
    }

    /// Takes from the count of each maintainer how often the object names it, unless the object is
    /// its mntner; no count falls below 0.
    pub(crate) fn take(&mut self, object: &Object)
        ensures { (name : List ℕ) → count_at self.new.counts name
            ≡ count_at self.old.counts name - namings_by name object.now }
    {
        for name in object.maintainers_named() {
            self.lower(object.key(), name);
        }
    }

    /// Takes back what was counted of the object's first names.
    fn take_first(&mut self, object: &Object, counted: u64)
        ensures { (name : List ℕ) → count_at self.new.counts name
            ≡ count_at self.old.counts name
            - namings name object.now.key (take counted (names_of object.now)) }
    {
        let mut left = counted;
        for name in object.maintainers_named() {
            if left == 0 {
                return;
            }
            left -= 1;
            self.lower(object.key(), name);
        }
    }

    /// Counts one naming more by an object of the key. The error is that memory ran out, and
    /// nothing changes.
    fn raise(&mut self, alloc: Global, key: &Key, name: &Name) -> Result<(), AllocError>
        ensures ok { OnOk result ((other : List ℕ) → count_at self.new.counts other
            ≡ count_at self.old.counts other + namings other key.now (name.now ∷ [])) }
        ensures err { OnErr result ((other : List ℕ)
            → count_at self.new.counts other ≡ count_at self.old.counts other) }
    {
        if key.is_mntner_of(name) {
            Ok(())
        } else {
            self.count_up(alloc, name)
        }
    }

    /// Counts one naming less by an object of the key.
    fn lower(&mut self, key: &Key, name: &Name)
        ensures { (other : List ℕ) → count_at self.new.counts other
            ≡ count_at self.old.counts other - namings other key.now (name.now ∷ []) }
    {
        if !key.is_mntner_of(name) {
            self.count_down(name);
        }
    }

    /// Adds one to the count of the name. The error is that memory ran out, and nothing changes.
    fn count_up(&mut self, alloc: Global, name: &Name) -> Result<(), AllocError>
        ensures ok { OnOk result ((other : List ℕ) → count_at self.new.counts other
            ≡ count_at self.old.counts other + cond (bytes_eq name.now other) 1 0) }
        ensures err { OnErr result ((other : List ℕ)
            → count_at self.new.counts other ≡ count_at self.old.counts other) }
    {
        match self.counts.get_mut(name) {
            Some(count) => add_one(count),
            None => {
                self.counts.insert(name.copy(alloc)?, 1)?;
                Ok(())
            }
        }
    }

    /// Takes one from the count of the name, and the name out where none is left.
    fn count_down(&mut self, name: &Name)
        ensures { (other : List ℕ) → count_at self.new.counts other
            ≡ count_at self.old.counts other - cond (bytes_eq name.now other) 1 0 }
    {
        if self.lessen(name) {
            self.counts.remove(name);
        }
    }

    /// Takes one from the count of the name; `true` says that none is left.
    fn lessen(&mut self, name: &Name) -> bool
        ensures lowered { (other : List ℕ) → count_at self.new.counts other
            ≡ count_at self.old.counts other - cond (bytes_eq name.now other) 1 0 }
        ensures none { IsTrue result → count_at self.new.counts name.now ≡ 0 }
    {
        match self.counts.get_mut(name) {
            Some(count) => take_one(count),
            None => false,
        }
    }
}

/// Adds one to the count; where that is the greatest number, this counts as memory that ran out and
/// changes nothing.
fn add_one(count: &mut u64) -> Result<(), AllocError>
    ensures ok { OnOk result (count.new ≡ count.old + 1) }
    ensures err { OnErr result (count.new ≡ count.old) }
{
    match count.checked_add(1) {
        Some(more) => {
            *count = more;
            Ok(())
        }
        None => Err(AllocError),
    }
}

/// Takes one from the count, and says whether none is left.
fn take_one(count: &mut u64) -> bool
    ensures taken { count.new ≡ count.old - 1 }
    ensures none { result ≡ (count.new == 0) }
{
    *count = count.saturating_sub(1);
    *count == 0
}
