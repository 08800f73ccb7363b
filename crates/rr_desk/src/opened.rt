//! How a registry and the store of its rows come about: from tables that are there, as for
//! `Desk::open`, or with new ones, as for `Desk::create` and `Desk::load`.

ghost use Rattle.std.specs.Prelude.{◌≡◌, IfErr, IfOk};
ghost use Rattle.rr_store.specs.Maps.{HasRows};
ghost use Rattle.rr_store.specs.Calls.{IsOpen, IsSettled, OnCleanDisk, database};
ghost use Rattle.rr_desk.specs.Opened.{FailsToMakeTables, FailsToOpenTables, MakesTables};
ghost use Rattle.rr_desk.specs.Opened.{OpensTables};
ghost use Rattle.rr_desk.specs.Private.{opening_fault};
ghost use Rattle.rr_desk.specs.Private.{IsStockOf, IsStockOfSource};

use crate::stock::Stock;
use rr_index::IndexedBook;
use rr_number::Name;
use rr_registry::{LoadFault, Registry};
use rr_store::{CreateFault, IdleConnection, OpenFault, Store};
use sqlite::Alter;
use std::alloc::Global;

/// The registry of this source whose rows the tables hold, with its store. A fault gives the
/// connection back, and says why there is none.
pub(crate) fn open_stored<S: Alter>(
    alloc: Global,
    conn: IdleConnection<S>,
    source: &Name,
) -> Result<Stock<S>, (OpenFault, IdleConnection<S>)>
    ensures stock { IfOk result (IsStockOfSource S.Store source.now) }
    ensures opens { IfOk result (OpensTables S.Store conn) }
    ensures fails { IfErr result (λ e. FailsToOpenTables S.Store source.now conn e.1 e.0) }
{
    let (store, objects) = Store::open_all(alloc, conn, source)?;
    match Registry::from_objects(alloc, objects) {
        Ok(registry) => Ok(Stock::of(registry, store)),
        Err(fault) => Err((refused(fault), store.close())),
    }
}

/// Why tables whose objects are not a registry are not opened.
fn refused(fault: LoadFault) -> OpenFault
    ensures { result ≡ opening_fault fault }
{
    match fault {
        LoadFault::Duplicate(_) | LoadFault::Overlap(_) | LoadFault::Unnamed(_) => {
            OpenFault::BadRow
        }
        LoadFault::Memory => OpenFault::Memory,
    }
}

/// A registry with a new store, in tables that hold the rows of its objects. A fault gives the
/// connection back, and says why there is none.
pub(crate) fn create_stored<S: Alter>(
    alloc: Global,
    conn: IdleConnection<S>,
    registry: Registry<IndexedBook>,
) -> Result<Stock<S>, (CreateFault, IdleConnection<S>)>
    ensures stock { IfOk result (IsStockOf S.Store registry) }
    ensures makes { IfOk result (λ stored.
        MakesTables S.Store (HasRows registry) conn stored.store) }
    ensures fails { IfErr result (λ e.
        FailsToMakeTables S.Store (HasRows registry) conn e.1 e.0) }
{
    let store = create_store(alloc, conn, &registry)?;
    Ok(Stock::of(registry, store))
}

/// The store of the rows of a registry, in new tables. It is open, and a stop leaves these rows. A
/// fault gives the connection back, and says why there is none.
fn create_store<S: Alter>(
    alloc: Global,
    conn: IdleConnection<S>,
    registry: &Registry<IndexedBook>,
) -> Result<Store<S>, (CreateFault, IdleConnection<S>)>
    ensures rows { IfOk result (λ store.
        OnCleanDisk S.Store store (HasRows registry.now (database S.Store store))) }
    ensures is_open { IfOk result (IsOpen S.Store) }
    ensures settled { IfOk result (IsSettled S.Store) }
    ensures makes { IfOk result (MakesTables S.Store (HasRows registry.now) conn) }
    ensures fails { IfErr result (λ e.
        FailsToMakeTables S.Store (HasRows registry.now) conn e.1 e.0) }
{
    match registry.objects(alloc) {
        Ok(objects) => Store::create(alloc, conn, &objects),
        Err(_) => {
            conn.note_idle();
            Err((CreateFault::Memory, conn))
        }
    }
}
