//! Queries on the three tables, asked by the checks of `checks`, `meta_check` and `vacancy`. Of
//! those that give rows, the database's error has a cause outside the rows. Of those that count,
//! read objects or compare names, it has one where each row has its own number.

ghost use Rattle.std.specs.Prelude.{[], map, IfErr, IfOk};
ghost use Rattle.std.specs.Prelude.{IsTrue};
ghost use Rattle.sqlite.specs.Given.{IsPlain};
ghost use Rattle.sqlite.specs.Held.{state};
ghost use Rattle.sqlite.specs.Listing.{understood};
ghost use Rattle.sqlite.specs.State.{FailsToQuery, Shown};
ghost use Rattle.sqlite.specs.Values.{bound};
ghost use Rattle.rr_store.specs.Contents.{IsInRank, by_three, by_two, contents};
ghost use Rattle.rr_store.specs.Contents.{number};
ghost use Rattle.rr_store.specs.Contents.{by_one, meta_rows};
ghost use Rattle.rr_store.specs.Tables.{meta_tree, named_tree, object_tree};
ghost use Rattle.rr_store.specs.Calls.{Looks, OnCleanDisk};
ghost use Rattle.rr_store.specs.CheckParts.{NamesAre, TableHoldsNone};
ghost use Rattle.rr_store.specs.Opening.{AreObjectsOf};
ghost use Rattle.rr_store.specs.LookParts.{CountsRows, IfSeen, IsTabled, Selects};
ghost use Rattle.rr_store.specs.Opening.{Inspects};
ghost use Rattle.rr_store.specs.CheckParts.{HasBadRow, TableGives};

use crate::idle_connection::IdleConnection;
use crate::row_streams::{count_numbered, take_all_names, take_objects};
use crate::store_fault::OpenFault;
use crate::version::Version;
use rr_number::Name;
use rr_object::Object;
use sqlite::{Alter, Error, Row};
use sqlite_value::value::ValueRef;
use std::alloc::Global;

/// The answer of a query, which changes nothing and commits nothing if its text is plain, or why
/// the query failed.
fn look<S: Alter>(
    conn: &mut IdleConnection<S>,
    sql: &str,
    params: &[ValueRef<'_>],
) -> Result<Vec<Row>, Error>
    ensures looks { OnCleanDisk S.Store conn.old (IsPlain (understood conn.old.schema sql.now))
        → Looks S.Store conn.old conn.new result }
    ensures shown { OnCleanDisk S.Store conn.new (IfOk result (λ rows. Shown sql.now
        (bound params.now) (state S.Store conn.old) (state S.Store conn.new) rows.items)) }
    ensures refused { OnCleanDisk S.Store conn.new (IfErr result (FailsToQuery sql.now
        (bound params.now) (state S.Store conn.old) (state S.Store conn.new))) }
{
    conn.note_committed();
    conn.inner.query_all(sql, params)
}

/// The names and values of the rows of `meta`, in order of the names.
pub(crate) fn meta_rows<S: Alter>(conn: &mut IdleConnection<S>) -> Result<Vec<Row>, Error>
    ensures { IfSeen S.Store IsTabled conn.old
        (Selects S.Store conn.old conn.new result (λ db rows.
        IsInRank by_two (meta_rows (db.trees meta_tree)) rows.items)) }
{
    look(
        conn,
        "SELECT name, value FROM meta ORDER BY name, value",
        &[],
    )
}

/// The rows of `named` without their numbers, by maintainer, class and key.
pub(crate) fn sorted_named_rows<S: Alter>(conn: &mut IdleConnection<S>) -> Result<Vec<Row>, Error>
    ensures { IfSeen S.Store IsTabled conn.old
        (Selects S.Store conn.old conn.new result (λ db rows.
        IsInRank by_three (contents (db.trees named_tree)) rows.items)) }
{
    look(
        conn,
        "SELECT maintainer, class, okey FROM named ORDER BY maintainer, class, okey",
        &[],
    )
}

/// The numbers of the rows of `meta`, in order.
pub(crate) fn meta_numbers<S: Alter>(conn: &mut IdleConnection<S>) -> Result<Vec<Row>, Error>
    ensures { IfSeen S.Store IsTabled conn.old
        (Selects S.Store conn.old conn.new result (λ db rows.
        IsInRank by_one (map number (db.trees meta_tree)) rows.items)) }
{
    look(conn, "SELECT rowid FROM meta ORDER BY rowid", &[])
}

/// The numbers of the rows of `object`, in order.
pub(crate) fn object_numbers<S: Alter>(conn: &mut IdleConnection<S>) -> Result<Vec<Row>, Error>
    ensures { IfSeen S.Store IsTabled conn.old
        (Selects S.Store conn.old conn.new result (λ db rows.
        IsInRank by_one (map number (db.trees object_tree)) rows.items)) }
{
    look(conn, "SELECT rowid FROM object ORDER BY rowid", &[])
}

/// The numbers of the rows of `named`, in order.
pub(crate) fn named_numbers<S: Alter>(conn: &mut IdleConnection<S>) -> Result<Vec<Row>, Error>
    ensures { IfSeen S.Store IsTabled conn.old
        (Selects S.Store conn.old conn.new result (λ db rows.
        IsInRank by_one (map number (db.trees named_tree)) rows.items)) }
{
    look(conn, "SELECT rowid FROM named ORDER BY rowid", &[])
}

/// How many rows `meta` has, which have to have numbers of their own.
pub(crate) fn count_meta<S: Alter>(conn: &mut IdleConnection<S>) -> Result<usize, Error>
    ensures { IfSeen S.Store IsTabled conn.old
        (CountsRows S.Store meta_tree conn.old conn.new result) }
{
    conn.note_committed();
    let mut rows = conn
        .inner
        .query("SELECT rowid FROM meta ORDER BY rowid", &[])?;
    count_numbered(&mut rows)
}

/// How many rows `object` has, which have to have numbers of their own.
pub(crate) fn count_object<S: Alter>(conn: &mut IdleConnection<S>) -> Result<usize, Error>
    ensures { IfSeen S.Store IsTabled conn.old
        (CountsRows S.Store object_tree conn.old conn.new result) }
{
    conn.note_committed();
    let mut rows = conn
        .inner
        .query("SELECT rowid FROM object ORDER BY rowid", &[])?;
    count_numbered(&mut rows)
}

/// How many rows `named` has, which have to have numbers of their own.
pub(crate) fn count_named<S: Alter>(conn: &mut IdleConnection<S>) -> Result<usize, Error>
    ensures { IfSeen S.Store IsTabled conn.old
        (CountsRows S.Store named_tree conn.old conn.new result) }
{
    conn.note_committed();
    let mut rows = conn
        .inner
        .query("SELECT rowid FROM named ORDER BY rowid", &[])?;
    count_numbered(&mut rows)
}

/// The objects that `object` holds, in the order of the numbers of its rows: one walk over the
/// table, with room made for so many at first.
pub(crate) fn read_objects<S: Alter>(
    conn: &mut IdleConnection<S>,
    alloc: Global,
    count: usize,
    source: &Name,
    version: Version,
) -> Result<Vec<Object>, OpenFault>
    ensures inspects { IfSeen S.Store IsTabled conn.old
        (Inspects S.Store conn.old conn.new result
        (λ db objects. TableGives version source.now objects.items db)
        (HasBadRow (TableHoldsNone version source.now))) }
    ensures of_source { IfOk result (λ objects. AreObjectsOf source.now objects.items) }
{
    conn.note_committed();
    let mut rows = conn.inner.query(
        "SELECT rowid, class, okey, body FROM object ORDER BY rowid",
        &[],
    )?;
    take_objects(&mut rows, alloc, count, source, version)
}

/// True only if the rows of `named`, in their order, are those of the maintainers that the objects
/// name. No fault is `BadRow`.
pub(crate) fn names_in_turn<S: Alter>(
    conn: &mut IdleConnection<S>,
    alloc: Global,
    objects: &[Object],
    version: Version,
) -> Result<bool, OpenFault>
    ensures { IfSeen S.Store IsTabled conn.old
        (Inspects S.Store conn.old conn.new result
        (λ db are. IsTrue are → NamesAre version objects.now db) (HasBadRow (λ _. ⊥))) }
{
    conn.note_committed();
    let mut rows = conn.inner.query(
        "SELECT rowid, maintainer, class, okey FROM named ORDER BY rowid",
        &[],
    )?;
    take_all_names(&mut rows, alloc, objects, version)
}
