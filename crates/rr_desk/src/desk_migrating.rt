//! Desks over tables of version 1, which are migrated, as `irrdesk migrate` does it.

ghost use Rattle.std.specs.Prelude.{◌≡◌, ◌⊎◌, IfErr, IfOk, OnOk};
ghost use Rattle.rr_auth.specs.Sources.{IsRegistryOf};
ghost use Rattle.rr_store.specs.Calls.{Looks, OnCleanDisk, database};
ghost use Rattle.rr_store.specs.declared.store_fault.MigrateFault.TheVariants.{BadRow, Memory};
ghost use Rattle.rr_store.specs.declared.store_fault.MigrateFault.TheVariants.{NoRoot};
ghost use Rattle.rr_desk.specs.Histories.{MigratesEvent};
ghost use Rattle.rr_desk.specs.Migrating.{AreRegistry, FailsMigrating, FailsToMigrateTables};
ghost use Rattle.rr_desk.specs.Migrating.{HasUpper, IsGrown, MigratesTables, RefusesOldRegistry};
ghost use Rattle.rr_desk.specs.MigratingParts.{HasLoadFault, HasUpperFault, IsGrowthFault, told_as};
ghost use Rattle.rr_desk.specs.Opened.{IsRunning};
ghost use Rattle.rr_desk.specs.Private.{IsStockOf, IsStockOfSource};

use crate::desk::Desk;
use crate::opening::{upper_object, with_object};
use crate::settings::Settings;
use crate::stock::Stock;
use rr_index::IndexedBook;
use rr_object::Object;
use rr_registry::{LoadFault, Registry};
use rr_store::{IdleConnection, MigrateFault, Store};
use sqlite::Alter;
use std::alloc::{AllocError, Global};

impl<S: Alter> Desk<S> {
    /// The desk of the registry to which tables of version 1 are migrated. They held the rows of
    /// the objects of a sound registry, and no others. All of these were of the settings' source,
    /// with keys that have texts in version 1, and one was the root's mntner. The new registry has
    /// these objects and the block of the AS numbers of more than 16 bits, which the root
    /// maintains, and no others (RFC 6793). All rows are written anew as those of version 2, whole
    /// or not at all, and the rest of the file stays. The connection was open. The desk runs with
    /// the settings, which say the source and the root. Its registry is one of that source, and its
    /// rows are those of it.
    ///
    /// After a fault the connection is given back, in no transaction and with all tables as they
    /// were. `WrongVersion` gives another version that a row of `meta` says. `BadRow` says that no
    /// row of `meta` says one of 32 bits other than 1. The tables then hold the rows of no registry
    /// of the source in version 1. `NoRoot` says that they hold those of a sound registry, all of
    /// the source, without the root's mntner. All three come only where the three tables are there.
    /// Where they are not, the fault is an error of the database, that a table is not there. Where
    /// they are, and each row has its own number, such an error has a cause outside the rows. But
    /// where the tables could be migrated, no clause says why it came. When `Memory` comes, no
    /// clause says.
    ///
    /// A stop of the process during the call leaves what one before it left. Or, where the
    /// connection was open and the tables could be migrated, it leaves the new ones whole.
    pub fn migrate(
        alloc: Global,
        conn: IdleConnection<S>,
        settings: Settings,
    ) -> Result<Desk<S>, (MigrateFault, IdleConnection<S>)>
        ensures runs { IfOk result (IsRunning S.Store settings) }
        ensures migrates { IfOk result (λ desk. MigratesTables S.Store settings conn desk.stock) }
        ensures fails { IfErr result (λ e. FailsToMigrateTables S.Store settings conn e.1 e.0) }
        ensures event { MigratesEvent S.Store settings conn result }
    {
        let stock = migrate_stored(alloc, conn, &settings)?;
        Ok(Desk { settings, stock })
    }
}

/// The registry that migration makes of the tables, with the store of its rows.
fn migrate_stored<S: Alter>(
    alloc: Global,
    mut conn: IdleConnection<S>,
    settings: &Settings,
) -> Result<Stock<S>, (MigrateFault, IdleConnection<S>)>
    ensures stock { IfOk result (IsStockOfSource S.Store settings.now.source) }
    ensures migrates { IfOk result (MigratesTables S.Store settings.now conn) }
    ensures fails { IfErr result (λ e. FailsToMigrateTables S.Store settings.now conn e.1 e.0) }
{
    match migrated_registry(alloc, &mut conn, settings) {
        Ok(registry) => migrate_tables(alloc, conn, settings, registry),
        Err(fault) => Err((fault, conn)),
    }
}

/// Migrates the tables. The registry that they are to hold then was made before, so that memory
/// can't run out for it once the rows are changed.
fn migrate_tables<S: Alter>(
    alloc: Global,
    conn: IdleConnection<S>,
    settings: &Settings,
    registry: Registry<IndexedBook>,
) -> Result<Stock<S>, (MigrateFault, IdleConnection<S>)>
    requires { OnCleanDisk S.Store conn
        (IsGrown settings.now (database S.Store conn) registry) }
    ensures stock { IfOk result (IsStockOf S.Store registry) }
    ensures migrates { IfOk result (MigratesTables S.Store settings.now conn) }
    ensures fails { IfErr result (λ e. FailsToMigrateTables S.Store settings.now conn e.1 e.0) }
{
    let store = Store::migrate(alloc, conn, settings.root(), settings.source())?;
    Ok(Stock::of(registry, store))
}

/// The registry that the tables are to hold once they are migrated; nothing changes.
fn migrated_registry<S: Alter>(
    alloc: Global,
    conn: &mut IdleConnection<S>,
    settings: &Settings,
) -> Result<Registry<IndexedBook>, MigrateFault>
    ensures looks { Looks S.Store conn.old conn.new result }
    ensures grown { OnCleanDisk S.Store conn.new
        (IfOk result (IsGrown settings.now (database S.Store conn.old))) }
    ensures of_source { IfOk result (IsRegistryOf settings.now.source) }
    ensures why { OnCleanDisk S.Store conn.new
        (IfErr result (RefusesOldRegistry settings.now (database S.Store conn.old))) }
    ensures store { IfErr result (FailsMigrating S.Store settings.now conn.old conn.new) }
{
    let objects = Store::old_objects(alloc, conn, settings.source())?;
    grow(alloc, objects, settings)
}

/// The registry of the objects, which are to be one, and of the block of the AS numbers of more
/// than 16 bits.
fn grow(
    alloc: Global,
    objects: Vec<Object>,
    settings: &Settings,
) -> Result<Registry<IndexedBook>, MigrateFault>
    ensures ok { OnOk result (AreRegistry objects.items) }
    ensures grown { IfOk result (HasUpper settings.now objects.items) }
    ensures fault { IfErr result (IsGrowthFault settings.now objects.items) }
{
    check_registry(alloc, &objects)?;
    with_upper(alloc, objects, settings)
}

/// Checks that the objects are a registry. The fault is that they are not, or that memory ran out.
fn check_registry(alloc: Global, objects: &[Object]) -> Result<(), MigrateFault>
    ensures ok { OnOk result (AreRegistry objects.now) }
    ensures fault { IfErr result (λ fault.
        (fault ≡ Memory) ⊎ ((fault ≡ BadRow) × HasLoadFault objects.now)) }
{
    let copies = copies(alloc, objects)?;
    let made: Result<Registry<IndexedBook>, LoadFault> = Registry::from_objects(alloc, copies);
    match made {
        Ok(_registry) => Ok(()),
        Err(fault) => Err(told_as(fault, MigrateFault::BadRow)),
    }
}

/// A copy of each of the objects; the error is that memory ran out.
fn copies(alloc: Global, objects: &[Object]) -> Result<Vec<Object>, AllocError>
    ensures { IfOk result (λ copies. copies.items ≡ objects.now) }
{
    let mut copies = Vec::with_capacity(alloc, objects.len())?;
    for object in objects {
        copies.push(object.copy(alloc)?)?;
    }
    Ok(copies)
}

/// The registry of the objects of a registry of version 1 and of the block, which has a key that
/// none of them has, and crosses none: so what can be the matter is that its maintainer, the root,
/// is not among them.
fn with_upper(
    alloc: Global,
    objects: Vec<Object>,
    settings: &Settings,
) -> Result<Registry<IndexedBook>, MigrateFault>
    ensures ok { IfOk result (HasUpper settings.now objects.items) }
    ensures fault { IfErr result (λ fault.
        (fault ≡ Memory) ⊎ ((fault ≡ NoRoot) × HasUpperFault settings.now objects.items)) }
{
    let upper = upper_object(alloc, settings)?;
    let objects = with_object(objects, upper)?;
    match Registry::from_objects(alloc, objects) {
        Ok(registry) => Ok(registry),
        Err(fault) => Err(told_as(fault, MigrateFault::NoRoot)),
    }
}

/// That memory ran out as such, and what else is the matter with objects as this fault.
fn told_as(fault: LoadFault, told: MigrateFault) -> MigrateFault
    ensures { result ≡ told_as fault told }
{
    match fault {
        LoadFault::Duplicate(_) | LoadFault::Overlap(_) | LoadFault::Unnamed(_) => told,
        LoadFault::Memory => MigrateFault::Memory,
    }
}
