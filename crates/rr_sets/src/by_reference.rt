//! The objects that say by their `member-of` that they belong to a set, where the set takes their
//! word: for `direct` and `ranges`.

ghost use Rattle.std.specs.Prelude.{◌≡◌, ◌↔◌, ◌||◌, ℕ, List, Contains, IfOk};
ghost use Rattle.std.specs.Prelude.{IsTrue, filter, length, not, ◌==◌};
ghost use Rattle.std.specs.BTreeSet.{contains};
ghost use Rattle.std.specs.Cmp.Lexicographic.{slice_cmp};
ghost use Rattle.std.specs.List.{list_any};
ghost use Rattle.std.specs.Ordering.{nat_cmp};
ghost use Rattle.std.specs.Str.{bytes_eq};
ghost use Rattle.rr_object.specs.Objects.{Obj};
ghost use Rattle.rr_sets.specs.Lists.{IsReferrer, lent};
ghost use Rattle.rr_sets.specs.SetObjects.{takes};

use crate::book::SetBook;
use rr_number::{Name, SetName};
use rr_object::Object;
use std::alloc::{AllocError, Global};
use std::collections::BTreeSet;

/// The objects that belong to the set of the name by their own word, where `set` is its object. The
/// registry is not asked where its `mbrs-by-ref` is empty, and else once for `referrers`. The steps
/// outside the book are O(n log n) for n names there and in `mnt-by` of the referrers. No clause
/// says either.
pub(crate) fn belonging<'a, B: SetBook>(
    alloc: Global,
    book: &'a B,
    name: &SetName,
    set: &Object,
) -> Result<Vec<&'a Object>, AllocError>
    ensures { IfOk result (λ objects. (o : Obj) → Contains (lent objects.items) o
        ↔ (IsReferrer (B.contents book.now) name.now o × IsTrue (takes set.now.by_ref o))) }
{
    if !may_take(set) {
        return Ok(Vec::new(alloc));
    }
    let referrers = book.referrers(alloc, name)?;
    taken(alloc, set, &referrers)
}

/// Whether there is an object whose word could be taken.
fn may_take(set: &Object) -> bool
    ensures { result ≡ (set.now.by_ref.any || not (length set.now.by_ref.names == 0)) }
{
    set.by_ref_any() || !set.by_ref().is_empty()
}

/// Those of the objects whose word is taken.
fn taken<'a>(
    alloc: Global,
    set: &Object,
    objects: &[&'a Object],
) -> Result<Vec<&'a Object>, AllocError>
    ensures { IfOk result
        (λ taken. taken.items ≡ filter (λ o. takes set.now.by_ref o.now) objects.now) }
{
    let names = in_order(alloc, set.by_ref())?;
    maintained(alloc, set.by_ref_any(), &names, objects)
}

/// The names, in order.
fn in_order(alloc: Global, names: &[Name]) -> Result<BTreeSet<Name>, AllocError>
    ensures { IfOk result (λ set. (name : List ℕ)
        → contains (slice_cmp nat_cmp) set name ≡ list_any (bytes_eq name) names.now) }
{
    let mut set = BTreeSet::new(alloc);
    for name in names {
        set.insert(name.copy(alloc)?)?;
    }
    Ok(set)
}

/// Those of the objects that have one of the names in their `mnt-by`, or all of them.
fn maintained<'a>(
    alloc: Global,
    all: bool,
    names: &BTreeSet<Name>,
    objects: &[&'a Object],
) -> Result<Vec<&'a Object>, AllocError>
    ensures { IfOk result (λ maintained. maintained.items ≡ filter (λ o. all
        || list_any (contains (slice_cmp nat_cmp) names.now) o.now.maintainers) objects.now) }
{
    objects
        .iter()
        .copied()
        .filter(|object| all || is_maintained(object, names))
        .collect(alloc)
}

/// Whether one of the names is in the object's `mnt-by`.
fn is_maintained(object: &Object, names: &BTreeSet<Name>) -> bool
    ensures { result ≡ list_any (contains (slice_cmp nat_cmp) names.now) object.now.maintainers }
{
    object
        .maintainers()
        .iter()
        .any(|maintainer| names.contains(maintainer))
}
