//! What a transaction that adds, puts or takes out one object does before its commit, for `writes`
//! and `filling`. It fails by SQLite, for want of memory, or as `leaving_names` finds a row that is
//! none of an object; no clause says which.

ghost use Rattle.std.specs.Prelude.{[], ◌∷◌, map};
ghost use Rattle.rr_store.specs.Contents.{Adds, Alters, IsTidy, RemovesRows, is_name_among};
ghost use Rattle.rr_store.specs.Contents.{is_named_of, named_values};
ghost use Rattle.rr_store.specs.Entries.{IsAdded, IsPut, IsTakenOut};
ghost use Rattle.rr_store.specs.Maps.{AreOfObjects};
ghost use Rattle.rr_store.specs.Tables.{named_tree};
ghost use Rattle.rr_store.specs.StepParts.{IsOver, Steps, StepsWhereOpen};

use crate::entry::StoredEntry;
use crate::leaving_names::names_of_rows;
use crate::statements::{add_name, add_object, remove_name, remove_object, rows_of_key};
use crate::store_fault::StoreFault;
use rr_number::Name;
use sqlite::{Alter, Error, Transaction};
use std::alloc::Global;

/// Adds the rows of the names with this class and key.
fn add_names<S: Alter>(
    tx: &mut Transaction<'_, S>,
    names: &[Name],
    class: u8,
    key: &[u8],
) -> Result<(), Error>
    ensures { StepsWhereOpen S.Store IsTidy
        (λ old new. Alters old new named_tree
        (Adds (map (λ name. named_values name class key.now) names.now)))
        tx.old tx.new result }
{
    for name in names {
        // the count is not asked for: the clause says which rows changed
        let _count = add_name(tx, name.as_bytes(), class, key)?;
    }
    Ok(())
}

/// Adds the rows of an object.
pub(crate) fn add_rows<S: Alter>(
    tx: &mut Transaction<'_, S>,
    entry: &StoredEntry,
) -> Result<(), StoreFault>
    ensures { Steps S.Store IsTidy (IsAdded (entry.now ∷ []))
        tx.old tx.new result }
{
    let class = entry.class();
    let key = entry.key();
    // the count is not asked for: the clause says which rows changed
    let _object = add_object(tx, class, key, entry.body())?;
    add_names(tx, entry.names(), class, key)?;
    Ok(())
}

/// Takes out the rows of the names with this class and key.
fn remove_names<S: Alter>(
    tx: &mut Transaction<'_, S>,
    names: &[Name],
    class: u8,
    key: &[u8],
) -> Result<(), Error>
    ensures { StepsWhereOpen S.Store IsTidy
        (λ old new. Alters old new named_tree (RemovesRows (is_name_among class key.now names.now)))
        tx.old tx.new result }
{
    for name in names {
        // the count is not asked for: the clause says which rows changed
        let _count = remove_name(tx, name.as_bytes(), class, key)?;
    }
    Ok(())
}

/// Takes out the rows of `named` of the object with this class and key, if there is one. Each goes
/// by its whole primary key, because no index of that table begins with the class.
fn forget_names<S: Alter>(
    tx: &mut Transaction<'_, S>,
    alloc: Global,
    class: u8,
    key: &[u8],
) -> Result<(), StoreFault>
    requires { IsOver S.Store AreOfObjects tx.old.conn.now }
    ensures { Steps S.Store AreOfObjects
        (λ old new. Alters old new named_tree (RemovesRows (is_named_of class key.now)))
        tx.old tx.new result }
{
    let rows = rows_of_key(tx, class, key)?;
    let names = names_of_rows(alloc, &rows)?;
    remove_names(tx, &names, class, key)?;
    Ok(())
}

/// Takes out the rows of the object with this class and key, if there is one.
pub(crate) fn remove_rows<S: Alter>(
    tx: &mut Transaction<'_, S>,
    alloc: Global,
    class: u8,
    key: &[u8],
) -> Result<(), StoreFault>
    requires { IsOver S.Store AreOfObjects tx.old.conn.now }
    ensures { Steps S.Store AreOfObjects (IsTakenOut class key.now)
        tx.old tx.new result }
{
    forget_names(tx, alloc, class, key)?;
    // the count is not asked for: the clause says which rows changed
    let _removed = remove_object(tx, class, key)?;
    Ok(())
}

/// Puts the rows of an object in place of those with its class and key.
pub(crate) fn put_rows<S: Alter>(
    tx: &mut Transaction<'_, S>,
    alloc: Global,
    entry: &StoredEntry,
) -> Result<(), StoreFault>
    requires { IsOver S.Store AreOfObjects tx.old.conn.now }
    ensures { Steps S.Store AreOfObjects (IsPut entry.now) tx.old tx.new result }
{
    remove_rows(tx, alloc, entry.class(), entry.key())?;
    add_rows(tx, entry)
}
