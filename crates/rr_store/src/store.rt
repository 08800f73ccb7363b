//! The store: what a desk calls to keep the objects of its registry in a database.

ghost use Rattle.std.specs.Prelude.{◌≡◌, [], ◌∷◌, false, IfErr, IfOk};
ghost use Rattle.rr_object.specs.Classes.{class_number};
ghost use Rattle.rr_object.specs.Keys.{class_of};
ghost use Rattle.rr_object.specs.KeyTexts.{key_bytes};
ghost use Rattle.rr_object.specs.Objects.{lent};
ghost use Rattle.rr_store.specs.Entries.{IsAdded, IsPut, IsTakenOut, entry_of};
ghost use Rattle.rr_store.specs.Maps.{AreOldStored};
ghost use Rattle.rr_store.specs.Maps.{Puts, TakesOut};
ghost use Rattle.rr_store.specs.Adding.{AddsTo};
ghost use Rattle.rr_store.specs.Creating.{FailsToMake, MakesStore};
ghost use Rattle.rr_store.specs.Migrating.{FailsToMigrate, MigratesStore};
ghost use Rattle.rr_store.specs.Opening.{FailsToOpen, OpensStore};
ghost use Rattle.rr_store.specs.Opening.{RefusesTables};
ghost use Rattle.rr_store.specs.declared.version.Version.TheVariants.{Old};
ghost use Rattle.rr_store.specs.Opening.{AreListed, InspectsWith};
ghost use Rattle.rr_store.specs.Storing.{Stores, WritesRows};

use crate::creating::create_where_vacant;
use crate::entry::StoredEntry;
use crate::idle_connection::IdleConnection;
use crate::migrating::migrate_rows;
use crate::opening::stored_objects;
use crate::store_fault::{CreateFault, MigrateFault, OpenFault, StoreFault};
use crate::version::Version;
use crate::writes::{insert_entry, put_entry, remove_entry};
use rr_number::Name;
use rr_object::{Key, Object};
use sqlite::Alter;
use std::alloc::Global;
use std::marker::Model;

/// A connection in no transaction; a contract sees the connection. While it is open and the disk
/// has returned what was written, its tables hold the rows of some objects, which are such as
/// readers make, and no others.
///
/// What the calls say of tables, of rows and of why SQLite failed is true where the disk has
/// returned what was written. So is what they say of an open connection, and of a stop during the
/// call. A connection that is shut stays so, and a call shuts one only where the disk failed or
/// refused. No call forgets a fault of the disk. The limit of steps stays, and reads that are
/// tested against a digest still are.
///
/// A cause outside the rows is one of these: memory ran out, the disk failed or refused, the
/// connection was shut, or a limit of steps interrupted the call. All else in the file is the other
/// rows, the schema, and each other tree that is not an index's.
#[derive(Drop)]
pub struct Store<S: Alter> {
    conn: IdleConnection<S>,
}

impl<S: Alter> Model for Store<S> {
    ghost use Rattle.sqlite.specs.Held.{Held, held_code};

    ghost Value = { Held S };

    ghost coded = { held_code S.code };

    ghost use Rattle.rr_store.specs.Kept.{IsKeptConnection};

    ghost view = { λ s. s.conn };

    ghost invariant = { λ s. IsKeptConnection S.Store s.conn };
}

impl<S: Alter> Store<S> {
    /// Makes the store of the objects, by one transaction, in a database with no table, index or
    /// view, or with the three tables and no row in them. The objects are such as readers make. The
    /// tables are then of version 2, and hold the rows of these objects and no others, each with
    /// its own number. Where nothing stood, they are the tables of a new store, with no other
    /// table, index or view; where they stood, all else in the file stays. On success the
    /// connection was open, and stays so. No clause says whether two objects of one key are
    /// refused.
    ///
    /// After a fault the connection is given back, and tables and rows are as they were, while it
    /// is open. Where one of the three tables has a row, the fault is `NotEmpty`, or an error of
    /// SQLite with a cause outside the rows. `NotEmpty` comes only there. Where something stands,
    /// but not the three (`has_tables`), the fault is `Store`, of a table that is not there.
    /// Otherwise no clause says why the call fails.
    ///
    /// A stop during the call leaves what one before it left or, where the connection was open and
    /// there was room, the tables and rows of the store. One after it, while the connection is
    /// open, leaves those that stand.
    pub fn create(
        alloc: Global,
        mut conn: IdleConnection<S>,
        objects: &[&Object],
    ) -> Result<Store<S>, (CreateFault, IdleConnection<S>)>
        ensures makes { IfOk result (MakesStore S.Store (lent objects.now) conn) }
        ensures fails { IfErr result (λ e. FailsToMake S.Store (lent objects.now) conn e.1 e.0) }
    {
        let made = create_where_vacant(&mut conn, alloc, objects);
        conn.note_committed();
        match made {
            Ok(()) => Ok(Store { conn }),
            Err(fault) => Err((fault, conn)),
        }
    }

    /// Opens the store of the tables of version 2, which hold the rows of objects of the source and
    /// no others, and gives these objects. Whatever the disk returned, they are such as readers
    /// make in a registry of the source. They stand in order of class and key, and no two have one
    /// key. On success the connection was open, and stays so.
    ///
    /// After a fault the connection is given back. `WrongVersion` gives another version that a row
    /// of `meta` says. `BadRow` says that no row of `meta` says another version of 32 bits. The
    /// tables are then not of version 2, or do not hold exactly the rows of such objects. Both come
    /// only where the three tables are there. Where they are not, the fault is `Store`, of a table
    /// that is not there. Where they are, and each of their rows has its own number, SQLite's error
    /// has a cause outside the rows.
    ///
    /// Nothing changes while the connection is open. A stop during the call leaves what one before
    /// it left; one after it, while the connection is open, the rows that stand.
    pub fn open_all(
        alloc: Global,
        mut conn: IdleConnection<S>,
        source: &Name,
    ) -> Result<(Store<S>, Vec<Object>), (OpenFault, IdleConnection<S>)>
        ensures opens { IfOk result (λ s. OpensStore S.Store source.now conn s.0 s.1.items) }
        ensures fails { IfErr result (λ e. FailsToOpen S.Store source.now conn e.1 e.0) }
    {
        let stored = stored_objects(&mut conn, alloc, source, Version::Current);
        conn.note_committed();
        match stored {
            Ok(objects) => Ok((Store { conn }, objects)),
            Err(fault) => Err((fault, conn)),
        }
    }

    /// The objects whose rows, and no others, tables of version 1 hold; or why they were not read.
    /// All are of the source, and their keys have texts in version 1. Whatever the disk returned,
    /// those given are such as readers make in a registry of the source. They stand in order of
    /// class and key, and no two have one key. On success the connection was open, and stays so.
    ///
    /// `WrongVersion` gives another version that a row of `meta` says. `BadRow` says that no row of
    /// `meta` says one of 32 bits other than 1. The tables are then not of version 1, or do not
    /// hold exactly the rows of such objects. Both come only where the three tables are there.
    /// Where they are not, the fault is `Store`, of a table that is not there. Where they are, and
    /// each of their rows has its own number, SQLite's error has a cause outside the rows. Nothing
    /// changes while the connection is open, and a stop leaves what one before the call left.
    pub fn old_objects(
        alloc: Global,
        conn: &mut IdleConnection<S>,
        source: &Name,
    ) -> Result<Vec<Object>, OpenFault>
        ensures { InspectsWith S.Store conn.old conn.new result
            (λ objects. AreListed source.now objects.items)
            (λ db objects. AreOldStored source.now objects.items db)
            (RefusesTables Old source.now) }
    {
        stored_objects(conn, alloc, source, Version::Old)
    }

    /// Writes tables of version 1 anew, by one transaction, as those of version 2, and gives the
    /// store of these. The old ones hold the rows of objects of the source and no others. No two of
    /// these objects have one key, their keys have texts in version 1, and one is the root's
    /// mntner. The new ones hold the rows of the same objects and of one more, and no others. That
    /// one is the block of the AS numbers of more than 16 bits, which the root maintains (RFC
    /// 6793). All else in the file stays. On success the connection was open, and stays so.
    ///
    /// After a fault the connection is given back, and the rows are as they were, while it is open.
    /// `WrongVersion` gives another version that a row of `meta` says. `BadRow` says that no row of
    /// `meta` says one of 32 bits other than 1. The tables are then not of version 1, or do not
    /// hold exactly the rows of objects of the source, no two of one key. `NoRoot` says that they
    /// are of version 1 and hold just such rows, and that the root's mntner is not among the
    /// objects. All three come only where the three tables are there. Where they are not, the fault
    /// is `Store`, of a table that is not there. Where they are, and each of their rows has its own
    /// number, SQLite's error has a cause outside the rows. But where tables of version 1 hold such
    /// rows, with those of the root's mntner, no clause says why the call failed.
    ///
    /// A stop during the call leaves what one before it left or, where the connection was open, the
    /// new rows. One after it, while the connection is open, leaves those that stand.
    pub fn migrate(
        alloc: Global,
        mut conn: IdleConnection<S>,
        root: &Name,
        source: &Name,
    ) -> Result<Store<S>, (MigrateFault, IdleConnection<S>)>
        ensures migrates { IfOk result (MigratesStore S.Store root.now source.now conn) }
        ensures fails { IfErr result (λ e.
            FailsToMigrate S.Store root.now source.now conn e.1 e.0) }
    {
        let migrated = migrate_rows(&mut conn, alloc, root, source);
        conn.note_committed();
        match migrated {
            Ok(()) => Ok(Store { conn }),
            Err(fault) => Err((fault, conn)),
        }
    }

    /// Puts the rows of the object in place of those of its class and key, by one transaction. Each
    /// row then has its own number, and all else in the file stays. Where the tables hold the rows
    /// of a map of objects by key (`HasRows`), they then hold those of the map with the object
    /// under its key. On success the connection was open, and stays so. After a fault the rows are
    /// as they were, while the connection is open. No clause says why it fails.
    ///
    /// A stop during the call leaves what one before it left or, where the connection was open, the
    /// rows after it. One after the call, while the connection is open, leaves those that stand.
    pub fn put(&mut self, alloc: Global, object: &Object) -> Result<(), StoreFault>
        ensures { Stores S.Store (IsPut (entry_of object.now)) (Puts object.now.key object.now)
            self.old self.new result }
    {
        let written = self.put_rows_of(alloc, object);
        self.conn.note_committed();
        written
    }

    /// Puts the rows of the object, which is such as readers make; `put` adds what a stop after the
    /// call leaves.
    fn put_rows_of(&mut self, alloc: Global, object: &Object) -> Result<(), StoreFault>
        ensures { WritesRows S.Store (IsPut (entry_of object.now)) (Puts object.now.key object.now)
            self.old self.new result }
    {
        self.conn.note_idle();
        let entry = StoredEntry::of(alloc, object)?;
        put_entry(&mut self.conn, alloc, &entry)
    }

    /// Adds the rows of an object, by one transaction. Each row then has its own number, and all
    /// else in the file stays. Where the tables hold the rows of a map of objects by key
    /// (`HasRows`) that lacks the object's key, they then hold those of the map with the object.
    /// Unlike [`Store::put`] it does not look for rows of that key. Where some stand, the primary
    /// key of the tables that [`Store::create`] makes refuses the new ones, which no clause says.
    /// The connection, and what a fault and a stop leave, are as at [`Store::put`]. No clause says
    /// why it fails.
    pub fn add(&mut self, alloc: Global, object: &Object) -> Result<(), StoreFault>
        ensures { Stores S.Store (IsAdded (entry_of object.now ∷ []))
            (AddsTo object.now.key object.now) self.old self.new result }
    {
        let written = self.add_rows_of(alloc, object);
        self.conn.note_committed();
        written
    }

    /// Adds the rows of the object, which is such as readers make; `add` adds what a stop after the
    /// call leaves.
    fn add_rows_of(&mut self, alloc: Global, object: &Object) -> Result<(), StoreFault>
        ensures { WritesRows S.Store (IsAdded (entry_of object.now ∷ []))
            (AddsTo object.now.key object.now) self.old self.new result }
    {
        self.conn.note_idle();
        let entry = StoredEntry::of(alloc, object)?;
        insert_entry(&mut self.conn, &entry)
    }

    /// Takes out the rows of this key and its class, by one transaction. Each row left has its own
    /// number, and all else in the file stays. Where the tables hold the rows of a map of objects
    /// by key (`HasRows`), they then hold those of the map without this key. The connection, and
    /// what a fault and a stop leave, are as at [`Store::put`]. No clause says why it fails.
    pub fn remove(&mut self, alloc: Global, key: &Key) -> Result<(), StoreFault>
        ensures { Stores S.Store
            (IsTakenOut (class_number (class_of key.now)) (key_bytes key.now)) (TakesOut key.now)
            self.old self.new result }
    {
        let written = self.remove_rows_of(alloc, key);
        self.conn.note_committed();
        written
    }

    /// Takes out the rows of the object with this key, which has the parts of its class; `remove`
    /// adds what a stop after the call leaves.
    fn remove_rows_of(&mut self, alloc: Global, key: &Key) -> Result<(), StoreFault>
        ensures { WritesRows S.Store
            (IsTakenOut (class_number (class_of key.now)) (key_bytes key.now)) (TakesOut key.now)
            self.old self.new result }
    {
        self.conn.note_idle();
        let class = key.class().number();
        let bytes = key.bytes(alloc)?;
        remove_entry(&mut self.conn, alloc, class, &bytes)
    }

    /// Gives the connection back, in no transaction, with its rows as they are.
    pub fn close(self) -> IdleConnection<S>
        ensures same { result ≡ self }
        ensures autocommit { result.in_transaction ≡ false }
    {
        let Store { conn } = self;
        conn
    }
}
