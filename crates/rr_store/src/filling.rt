//! The rows of a list of objects, as a transaction of `creating` or `migrating` adds them to tables
//! without a row. A fault is SQLite's, or that memory ran out; no clause says which.

ghost use Rattle.std.specs.Prelude.{map, OnOk};
ghost use Rattle.std.specs.List.{AllByRecursion};
ghost use Rattle.rr_store.specs.Contents.{IsTidy};
ghost use Rattle.rr_store.specs.Entries.{IsAdded, entry_of};
ghost use Rattle.rr_store.specs.FillingParts.{IsBlank, IsFilledWith};
ghost use Rattle.rr_store.specs.Made.{IsBare, IsMadeWith};
ghost use Rattle.rr_store.specs.Maps.{IsObject};
ghost use Rattle.rr_store.specs.Creating.{IsStoreOf};
ghost use Rattle.rr_object.specs.Objects.{lent};
ghost use Rattle.rr_store.specs.StepParts.{Steps, StepsWhereOpen};

use crate::bodies::add_rows;
use crate::entry::StoredEntry;
use crate::making::make_tables;
use crate::statements::add_meta_row;
use crate::store_fault::StoreFault;
use crate::version::Version;
use rr_object::Object;
use sqlite::{Alter, Transaction};
use std::alloc::Global;

/// Adds the rows of the objects, which are such as readers make.
pub(crate) fn add_objects<S: Alter>(
    tx: &mut Transaction<'_, S>,
    alloc: Global,
    objects: &[&Object],
) -> Result<(), StoreFault>
    ensures steps { StepsWhereOpen S.Store IsTidy (IsAdded (map entry_of (lent objects.now)))
        tx.old tx.new result }
    ensures read { OnOk result (AllByRecursion IsObject (lent objects.now)) }
{
    for object in objects {
        let entry = StoredEntry::of(alloc, object)?;
        add_rows(tx, &entry)?;
    }
    Ok(())
}

/// Adds the version and the rows of the objects to tables without a row.
pub(crate) fn fill<S: Alter>(
    tx: &mut Transaction<'_, S>,
    alloc: Global,
    objects: &[&Object],
) -> Result<(), StoreFault>
    ensures { Steps S.Store IsBare (IsFilledWith (lent objects.now)) tx.old tx.new result }
{
    // the count is not asked for: the clause says which rows changed
    let _version = add_meta_row(tx, b"version", Version::Current.text())?;
    add_objects(tx, alloc, objects)
}

/// Makes the three tables, and adds the version and the rows of the objects.
pub(crate) fn make_filled<S: Alter>(
    tx: &mut Transaction<'_, S>,
    alloc: Global,
    objects: &[&Object],
) -> Result<(), StoreFault>
    ensures { Steps S.Store IsBlank (IsMadeWith (IsStoreOf (lent objects.now)))
        tx.old tx.new result }
{
    make_tables(tx)?;
    fill(tx, alloc, objects)
}
