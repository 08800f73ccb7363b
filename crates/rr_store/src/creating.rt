//! A new store, made in one transaction, for `Store::create`.

ghost use Rattle.std.specs.Prelude.{◌≡◌, ◌≢◌, false, IfErr};
ghost use Rattle.sqlite.specs.declared.error.Error.{Error};
ghost use Rattle.rr_store.specs.Made.{HasSomeRow, IsBare, IsMadeWith, no_schema};
ghost use Rattle.rr_store.specs.Tables.{HasTables};
ghost use Rattle.rr_store.specs.Calls.{OnCleanDisk, Transacts, database};
ghost use Rattle.rr_store.specs.Creating.{FailsOverRow, IsStoreOf};
ghost use Rattle.rr_store.specs.Faults.{no_tables};
ghost use Rattle.rr_object.specs.Objects.{lent};
ghost use Rattle.rr_store.specs.declared.store_fault.CreateFault.TheVariants.{Memory, NotEmpty};
ghost use Rattle.rr_store.specs.declared.store_fault.CreateFault.TheVariants.{Store};
ghost use Rattle.rr_store.specs.LookParts.{HoldsOnCleanDisk};

use crate::ending::end;
use crate::filling::{fill, make_filled};
use crate::idle_connection::IdleConnection;
use crate::schema::has_tables;
use crate::store_fault::{CreateFault, NO_TABLES, StoreFault};
use crate::vacancy::{is_bare, is_blank};
use rr_object::Object;
use sqlite::Alter;
use std::alloc::Global;

/// Makes a store in a database with nothing in it. No clause says why it fails, here and in the
/// next function.
fn create_in_blank<S: Alter>(
    conn: &mut IdleConnection<S>,
    alloc: Global,
    objects: &[&Object],
) -> Result<(), StoreFault>
    requires { conn.old.schema ≡ no_schema }
    ensures { Transacts S.Store (IsMadeWith (IsStoreOf (lent objects.now)))
        conn.old conn.new result }
{
    conn.note_committed();
    let mut tx = conn.inner.transaction();
    let work = make_filled(&mut tx, alloc, objects);
    end(tx, work)
}

/// Makes a store in a database with the three tables and no row in them.
fn create_in_bare<S: Alter>(
    conn: &mut IdleConnection<S>,
    alloc: Global,
    objects: &[&Object],
) -> Result<(), StoreFault>
    requires { HoldsOnCleanDisk S.Store IsBare conn.old }
    ensures { Transacts S.Store (IsMadeWith (IsStoreOf (lent objects.now)))
        conn.old conn.new result }
{
    conn.note_committed();
    let mut tx = conn.inner.transaction();
    let work = fill(&mut tx, alloc, objects);
    end(tx, work)
}

/// Makes a store in a database that has the three tables. `NotEmpty` says that one of them has a
/// row. Where one has, it is the fault, or the database's error has a cause outside the rows.
fn create_in_tables<S: Alter>(
    conn: &mut IdleConnection<S>,
    alloc: Global,
    objects: &[&Object],
) -> Result<(), CreateFault>
    requires { HasTables conn.old.schema }
    ensures makes { Transacts S.Store (IsMadeWith (IsStoreOf (lent objects.now)))
        conn.old conn.new result }
    ensures filled { OnCleanDisk S.Store conn.new (IfErr result (λ fault. fault ≡ NotEmpty →
        HasSomeRow (database S.Store conn.old))) }
    ensures memory { OnCleanDisk S.Store conn.new (IfErr result (λ fault. fault ≡ Memory →
        ¬ HasSomeRow (database S.Store conn.old))) }
    ensures cause { IfErr result (λ fault. (error : Error) → fault ≡ Store error →
        FailsOverRow S.Store conn.old conn.new error) }
{
    match is_bare(conn) {
        Ok(true) => Ok(create_in_bare(conn, alloc, objects)?),
        Ok(false) => Err(CreateFault::NotEmpty),
        Err(error) => Err(CreateFault::Store(error)),
    }
}

/// Makes a store in a database with nothing in it, or with the three tables and no row in them. The
/// faults are those of `Store::create`.
pub(crate) fn create_where_vacant<S: Alter>(
    conn: &mut IdleConnection<S>,
    alloc: Global,
    objects: &[&Object],
) -> Result<(), CreateFault>
    ensures makes { Transacts S.Store (IsMadeWith (IsStoreOf (lent objects.now)))
        conn.old conn.new result }
    ensures filled { OnCleanDisk S.Store conn.new (IfErr result (λ fault. fault ≡ NotEmpty →
        HasTables conn.old.schema × HasSomeRow (database S.Store conn.old))) }
    ensures memory { OnCleanDisk S.Store conn.new (IfErr result (λ fault. fault ≡ Memory →
        HasTables conn.old.schema → ¬ HasSomeRow (database S.Store conn.old))) }
    ensures untabled { IfErr result (λ fault. ¬ HasTables conn.old.schema →
        conn.old.schema ≢ no_schema → fault ≡ Store no_tables) }
    ensures cause { IfErr result (λ fault. (error : Error) → fault ≡ Store error →
        FailsOverRow S.Store conn.old conn.new error) }
{
    conn.note_idle();
    let schema = conn.schema();
    if is_blank(schema) {
        return Ok(create_in_blank(conn, alloc, objects)?);
    }
    if has_tables(conn.schema()) {
        create_in_tables(conn, alloc, objects)
    } else {
        Err(CreateFault::Store(NO_TABLES))
    }
}
