//! Tables of version 1, written anew in one transaction as those of version 2, for
//! `Store::migrate`.

ghost use Rattle.std.specs.Prelude.{◌≡◌, [], ◌∷◌, ◌++◌, map, IfErr, IfOk};
ghost use Rattle.rr_store.specs.Contents.{IsTidy};
ghost use Rattle.rr_store.specs.Entries.{entry_of};
ghost use Rattle.rr_store.specs.Calls.{OnCleanDisk, Transacts, database};
ghost use Rattle.rr_object.specs.Objects.{lent};
ghost use Rattle.rr_store.specs.Migrating.{FailsOverOldRows, IsMigrated, RefusesOldTables};
ghost use Rattle.rr_store.specs.Migrating.{has_mntner};
ghost use Rattle.rr_store.specs.MigratingParts.{IsCleared, IsReplaced, IsRewritten};
ghost use Rattle.rr_store.specs.declared.store_fault.MigrateFault.TheVariants.{Store};
ghost use Rattle.rr_store.specs.StepParts.{Steps};
ghost use Rattle.rr_store.specs.LookParts.{HoldsOnCleanDisk};

use crate::ending::end;
use crate::filling::fill;
use crate::idle_connection::IdleConnection;
use crate::objects::lent;
use crate::opening::stored_objects;
use crate::statements::{clear_meta, clear_names, clear_objects};
use crate::store_fault::{BAD_ROWS, MigrateFault, StoreFault};
use crate::upper::upper_object;
use crate::version::Version;
use rr_number::Name;
use rr_object::Object;
use sqlite::{Alter, Error, Transaction};
use std::alloc::{AllocError, Global};

/// Takes out all rows of the three tables, and no others. The error is SQLite's.
fn clear_rows<S: Alter>(tx: &mut Transaction<'_, S>) -> Result<(), Error>
    ensures { Steps S.Store IsTidy IsCleared tx.old tx.new result }
{
    // the counts are not asked for: the clauses say which rows changed
    let _meta = clear_meta(tx)?;
    let _objects = clear_objects(tx)?;
    let _names = clear_names(tx)?;
    Ok(())
}

/// Puts the rows of the objects in place of all rows. No clause says why that fails, here and in
/// the next function.
fn refill<S: Alter>(
    tx: &mut Transaction<'_, S>,
    alloc: Global,
    objects: &[&Object],
) -> Result<(), StoreFault>
    ensures { Steps S.Store IsTidy (IsReplaced (map entry_of (lent objects.now)))
        tx.old tx.new result }
{
    clear_rows(tx)?;
    fill(tx, alloc, objects)
}

/// Puts the rows of the objects in place of all rows, in one transaction.
fn replace<S: Alter>(
    conn: &mut IdleConnection<S>,
    alloc: Global,
    objects: &[&Object],
) -> Result<(), StoreFault>
    requires { HoldsOnCleanDisk S.Store IsTidy conn.old }
    ensures { Transacts S.Store (IsReplaced (map entry_of (lent objects.now)))
        conn.old conn.new result }
{
    conn.note_committed();
    let mut tx = conn.inner.transaction();
    let work = refill(&mut tx, alloc, objects);
    end(tx, work)
}

/// The objects and the block. The error is that memory ran out.
fn with_upper(mut objects: Vec<Object>, upper: Object) -> Result<Vec<Object>, AllocError>
    ensures { IfOk result (λ all. all.items ≡ objects.items ++ upper ∷ []) }
{
    objects.push(upper)?;
    Ok(objects)
}

/// Puts the rows of the objects and of the block of the AS numbers of more than 16 bits in place of
/// all rows, in one transaction. It also fails if the block is no object of the source; no clause
/// says why it fails.
fn rewrite<S: Alter>(
    conn: &mut IdleConnection<S>,
    alloc: Global,
    objects: Vec<Object>,
    root: &Name,
    source: &Name,
) -> Result<(), StoreFault>
    requires { HoldsOnCleanDisk S.Store IsTidy conn.old }
    ensures { Transacts S.Store (IsRewritten root.now source.now objects.items)
        conn.old conn.new result }
{
    conn.note_idle();
    let Some(upper) = upper_object(alloc, root, source)? else {
        return Err(StoreFault::Store(BAD_ROWS));
    };
    let all = with_upper(objects, upper)?;
    let lent = lent(alloc, &all)?;
    replace(conn, alloc, &lent)
}

/// Whether one of the objects is the mntner of the name.
fn has_mntner(objects: &[Object], name: &Name) -> bool
    ensures { result ≡ has_mntner name.now objects.now }
{
    objects.iter().any(|object| object.key().is_mntner_of(name))
}

/// Writes tables of version 1 that hold objects of the source anew as those of version 2. The block
/// of the AS numbers of more than 16 bits, which the root maintains, is added to them. The faults
/// are those of `Store::migrate`.
pub(crate) fn migrate_rows<S: Alter>(
    conn: &mut IdleConnection<S>,
    alloc: Global,
    root: &Name,
    source: &Name,
) -> Result<(), MigrateFault>
    ensures migrates { Transacts S.Store (IsMigrated root.now source.now)
        conn.old conn.new result }
    ensures why { OnCleanDisk S.Store conn.new (IfErr result
        (RefusesOldTables root.now source.now (database S.Store conn.old))) }
    ensures cause { IfErr result (λ fault. (error : _) → fault ≡ Store error →
        FailsOverOldRows S.Store root.now source.now conn.old conn.new error) }
{
    let objects = stored_objects(conn, alloc, source, Version::Old)?;
    if has_mntner(&objects, root) {
        rewrite(conn, alloc, objects, root, source)?;
        Ok(())
    } else {
        Err(MigrateFault::NoRoot)
    }
}
