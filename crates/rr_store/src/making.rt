//! The three tables of a new store, made in a transaction before `filling` adds their rows. An
//! error is SQLite's. `tools/irr/local/tables.py` has the same tables.

ghost use Rattle.std.specs.Prelude.{◌≡◌, []};
ghost use Rattle.rr_store.specs.FillingParts.{HasNewTables, IsBlank};
ghost use Rattle.rr_store.specs.Made.{Creates, meta_table, named_table, no_schema, object_table};
ghost use Rattle.rr_store.specs.Made.{with_meta, with_object};
ghost use Rattle.rr_store.specs.StepParts.{Steps};

use sqlite::{Alter, Error, Transaction};

/// Makes the table `meta`, of the tables' version.
fn create_meta<S: Alter>(tx: &mut Transaction<'_, S>) -> Result<usize, Error>
    ensures { Steps S.Store IsBlank (Creates no_schema meta_table)
        tx.old tx.new result }
{
    tx.execute(
        "CREATE TABLE IF NOT EXISTS meta (name TEXT NOT NULL PRIMARY KEY, \
         value TEXT NOT NULL) STRICT",
        &[],
    )
}

/// Makes the table `object`, of the texts of objects.
fn create_object<S: Alter>(tx: &mut Transaction<'_, S>) -> Result<usize, Error>
    ensures { Steps S.Store (λ db. db.schema ≡ with_meta) (Creates with_meta object_table)
        tx.old tx.new result }
{
    tx.execute(
        "CREATE TABLE IF NOT EXISTS object (class INTEGER NOT NULL \
         CHECK (class >= 1 AND class <= 7), okey TEXT NOT NULL, body BLOB NOT NULL, \
         PRIMARY KEY (class, okey)) STRICT",
        &[],
    )
}

/// Makes the table `named`: which objects name which maintainers.
fn create_named<S: Alter>(tx: &mut Transaction<'_, S>) -> Result<usize, Error>
    ensures { Steps S.Store (λ db. db.schema ≡ with_object) (Creates with_object named_table)
        tx.old tx.new result }
{
    tx.execute(
        "CREATE TABLE IF NOT EXISTS named (maintainer TEXT NOT NULL, class INTEGER NOT NULL, \
         okey TEXT NOT NULL, PRIMARY KEY (maintainer, class, okey)) STRICT",
        &[],
    )
}

/// Makes the three tables.
pub(crate) fn make_tables<S: Alter>(tx: &mut Transaction<'_, S>) -> Result<(), Error>
    ensures { Steps S.Store IsBlank (λ _. HasNewTables) tx.old tx.new result }
{
    // the counts are not asked for: the clauses say which tables were made
    let _first = create_meta(tx)?;
    let _second = create_object(tx)?;
    let _third = create_named(tx)?;
    Ok(())
}
