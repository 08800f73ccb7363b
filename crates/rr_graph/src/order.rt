//! Sets as sorted lists: for the searches here, and for `rr_sets`.

ghost use Rattle.std.specs.Prelude.{◌≡◌, IfOk};
ghost use Rattle.std.specs.List.Sorted.{IsStrictlySortedBy};
ghost use Rattle.rr_graph.specs.Answered.{PutsInOrder};

use std::alloc::{AllocError, Global};
use std::collections::BTreeSet;

/// Lists what the set has, each thing once, in ascending order; the error is that memory ran out.
pub fn ascending<T: Ord + Drop>(alloc: Global, set: BTreeSet<T>) -> Result<Vec<T>, AllocError>
    ensures same { IfOk result (λ list. list.items ≡ set.keys) }
    ensures sorted { IfOk result (λ list. IsStrictlySortedBy T.cmp list.items) }
{
    set.into_iter().collect(alloc)
}

/// Puts the list in ascending order, without repeats. It still has exactly the same things, if
/// things compare `Equal` only where they are the same.
pub fn put_in_order<T: Ord + Drop>(list: &mut Vec<T>)
    ensures { PutsInOrder T.cmp list.old.items list.new.items }
{
    list.sort_unstable();
    list.dedup();
}
