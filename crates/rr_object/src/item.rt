//! Items of lists: each kind of list has its own. `members` says how each kind is read, and
//! `object_reading` reads the lists.

ghost use Rattle.std.specs.Prelude.{◌≡◌, ◌≢◌, false, true, map, IfErr, IfOk, List};
ghost use Rattle.std.specs.Prelude.{None, Option, Some, ℕ};
ghost use Rattle.rr_object.specs.Items.{are_good, meant};
ghost use Rattle.rr_object.specs.declared.object_fault.ObjectFault.TheVariants.{BadValue, Memory};

use crate::object_fault::ObjectFault;
use std::alloc::{AllocError, Global};

/// How the items of a list are read.
pub(crate) trait ReadItem {
    /// What an item stands for.
    type Item: Drop;

    // what an item stands for, if anything; nothing at all where it is badly spelled
    ghost item_of: { List ℕ → Option (Option Self.Item) };

    /// What the item stands for, `None` where it is well spelled and stands for nothing. The error
    /// `BadValue` says that it is badly spelled, and `Memory` that memory ran out.
    fn read_item(alloc: Global, item: &[u8]) -> Result<Option<Self::Item>, ObjectFault>
        ensures good { IfOk result (λ read. item_of item.now ≡ Some read) }
        ensures bad { IfErr result
            (λ fault. fault ≢ Memory → (fault ≡ BadValue) × (item_of item.now ≡ None)) };
}

/// What the items stand for, without those that stand for nothing. The error `BadValue` says that
/// one is badly spelled, and `Memory` that memory ran out.
pub(crate) fn read_items<R: ReadItem>(
    alloc: Global,
    listed: &[&[u8]],
) -> Result<Vec<R::Item>, ObjectFault>
    ensures good { IfOk result
        (λ _. are_good R.item_of (map (λ item. item.now) listed.now) ≡ true) }
    ensures value { IfOk result
        (λ read. read.items ≡ meant R.item_of (map (λ item. item.now) listed.now)) }
    ensures bad { IfErr result (λ fault. fault ≢ Memory
        → (fault ≡ BadValue)
        × (are_good R.item_of (map (λ item. item.now) listed.now) ≡ false)) }
{
    let mut read = Vec::with_capacity(alloc, listed.len())?;
    'items: for item in listed {
        if let Some(value) = R::read_item(alloc, item)? {
            read.push(value).map_err(AllocError::from)?;
        }
    }
    Ok(read)
}
