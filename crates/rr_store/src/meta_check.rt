//! Whether a database has the three tables, with numbers of their own for the rows of `meta`:
//! `opening` asks this first.

ghost use Rattle.std.specs.Prelude.{◌≡◌, IfErr, OnOk};
ghost use Rattle.rr_store.specs.Tables.{HasTables};
ghost use Rattle.rr_store.specs.Calls.{FailsOverTidy, Looks, OnCleanDisk, database};
ghost use Rattle.rr_store.specs.CheckParts.{HasNumberedMeta};
ghost use Rattle.rr_store.specs.Faults.{no_tables};

use crate::idle_connection::IdleConnection;
use crate::row_reading::count_meta;
use crate::schema::has_tables;
use crate::store_fault::NO_TABLES;
use sqlite::{Alter, Error};

/// Checks that the three tables are there, and the rows of `meta` have numbers of their own. If the
/// tables are not there, the error says so. If each of their rows has its own number, it has a
/// cause outside the rows.
pub(crate) fn check_meta<S: Alter>(conn: &mut IdleConnection<S>) -> Result<(), Error>
    ensures looks { Looks S.Store conn.old conn.new result }
    ensures meta { OnCleanDisk S.Store conn.new (OnOk result
        (HasNumberedMeta (database S.Store conn.old))) }
    ensures untabled { IfErr result (λ error.
        ¬ HasTables conn.old.schema → error ≡ no_tables) }
    ensures cause { IfErr result (FailsOverTidy S.Store conn.old conn.new) }
{
    conn.note_idle();
    if !has_tables(conn.schema()) {
        return Err(NO_TABLES);
    }
    // the count is not asked for: the clause says that the rows have numbers of their own
    let _count = count_meta(conn)?;
    Ok(())
}
