//! Whether a database has room for a new store, as `creating` asks. An error has a cause outside
//! the rows.

ghost use Rattle.std.specs.Prelude.{◌≡◌, IsTrue};
ghost use Rattle.rr_store.specs.Made.{no_schema};
ghost use Rattle.rr_store.specs.Tables.{meta_tree, named_tree, object_tree};
ghost use Rattle.rr_store.specs.VacancyParts.{SaysEmpty};
ghost use Rattle.rr_store.specs.LookParts.{IfSeen, HoldsOnCleanDisk, IsTabled, Selects};
ghost use Rattle.rr_store.specs.VacancyParts.{SaysBare};

use crate::idle_connection::IdleConnection;
use crate::row_reading::{meta_numbers, named_numbers, object_numbers};
use sqlite::{Alter, Error};
use sqlite_schema::schema::Schema;

/// Whether a schema has nothing in it.
pub(crate) fn is_blank(schema: &Schema) -> bool
    ensures is { IsTrue result → schema.now ≡ no_schema }
    ensures only { schema.now ≡ no_schema → IsTrue result }
{
    schema.tables.is_empty() && schema.indexes.is_empty() && schema.views.is_empty()
}

/// Whether `meta` has no row.
fn meta_is_empty<S: Alter>(conn: &mut IdleConnection<S>) -> Result<bool, Error>
    ensures { IfSeen S.Store IsTabled conn.old
        (Selects S.Store conn.old conn.new result
        (λ db is. SaysEmpty (db.trees meta_tree) is)) }
{
    let rows = meta_numbers(conn)?;
    Ok(rows.as_slice().is_empty())
}

/// Whether `object` has no row.
fn object_is_empty<S: Alter>(conn: &mut IdleConnection<S>) -> Result<bool, Error>
    ensures { IfSeen S.Store IsTabled conn.old
        (Selects S.Store conn.old conn.new result
        (λ db is. SaysEmpty (db.trees object_tree) is)) }
{
    let rows = object_numbers(conn)?;
    Ok(rows.as_slice().is_empty())
}

/// Whether `named` has no row.
fn named_is_empty<S: Alter>(conn: &mut IdleConnection<S>) -> Result<bool, Error>
    ensures { IfSeen S.Store IsTabled conn.old
        (Selects S.Store conn.old conn.new result
        (λ db is. SaysEmpty (db.trees named_tree) is)) }
{
    let rows = named_numbers(conn)?;
    Ok(rows.as_slice().is_empty())
}

/// Whether the three tables have no row.
pub(crate) fn is_bare<S: Alter>(conn: &mut IdleConnection<S>) -> Result<bool, Error>
    requires { HoldsOnCleanDisk S.Store IsTabled conn.old }
    ensures { Selects S.Store conn.old conn.new result SaysBare }
{
    let meta = meta_is_empty(conn)?;
    let object = object_is_empty(conn)?;
    let named = named_is_empty(conn)?;
    Ok(meta && object && named)
}
