//! The writes of a store, each one transaction, for `put`, `add` and `remove` of `Store`. What is
//! said of rows, and that a connection is open, is true where the disk has returned what was
//! written.

ghost use Rattle.std.specs.Prelude.{[], ◌∷◌};
ghost use Rattle.rr_store.specs.Entries.{IsAdded, IsPut, IsTakenOut};
ghost use Rattle.rr_store.specs.Calls.{Transacts};
ghost use Rattle.rr_store.specs.Kept.{IsKeptConnection};

use crate::bodies::{add_rows, put_rows, remove_rows};
use crate::ending::end;
use crate::entry::StoredEntry;
use crate::idle_connection::IdleConnection;
use crate::store_fault::StoreFault;
use sqlite::Alter;
use std::alloc::Global;

/// Puts the rows of an object in place of those with its class and key. The connection was open
/// then, and stays so. After an error the rows are as they were, while the connection is open. No
/// clause says why it fails, here and below. A stop leaves what one before the call left or, where
/// the connection was open, the rows after it.
pub(crate) fn put_entry<S: Alter>(
    conn: &mut IdleConnection<S>,
    alloc: Global,
    entry: &StoredEntry,
) -> Result<(), StoreFault>
    requires { IsKeptConnection S.Store conn.old }
    ensures { Transacts S.Store (IsPut entry.now) conn.old conn.new result }
{
    conn.note_committed();
    let mut tx = conn.inner.transaction();
    let work = put_rows(&mut tx, alloc, entry);
    end(tx, work)
}

/// Adds the rows of an object. The connection, and what an error and a stop leave, are as at
/// `put_entry`.
pub(crate) fn insert_entry<S: Alter>(
    conn: &mut IdleConnection<S>,
    entry: &StoredEntry,
) -> Result<(), StoreFault>
    requires { IsKeptConnection S.Store conn.old }
    ensures { Transacts S.Store (IsAdded (entry.now ∷ [])) conn.old conn.new result }
{
    conn.note_committed();
    let mut tx = conn.inner.transaction();
    let work = add_rows(&mut tx, entry);
    end(tx, work)
}

/// Takes out the rows of the object with this class and key, if there is one. The connection, and
/// what an error and a stop leave, are as at `put_entry`.
pub(crate) fn remove_entry<S: Alter>(
    conn: &mut IdleConnection<S>,
    alloc: Global,
    class: u8,
    key: &[u8],
) -> Result<(), StoreFault>
    requires { IsKeptConnection S.Store conn.old }
    ensures { Transacts S.Store (IsTakenOut class key.now) conn.old conn.new result }
{
    conn.note_committed();
    let mut tx = conn.inner.transaction();
    let work = remove_rows(&mut tx, alloc, class, key);
    end(tx, work)
}
