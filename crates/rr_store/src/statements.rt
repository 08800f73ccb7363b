//! The statements of a transaction that add, take out or read rows, one in each function, for
//! `bodies`, `filling` and `migrating`. An error is SQLite's. The number is how many rows changed,
//! which no clause says.

ghost use Rattle.std.specs.Prelude.{◌≡◌, [], ◌∷◌, filter, true, IfOk};
ghost use Rattle.std.specs.Prelude.{IsPermutation};
ghost use Rattle.rr_store.specs.Contents.{Adds, Alters, IsTidy, RemovesRows, contents};
ghost use Rattle.rr_store.specs.Contents.{is_name_of, is_object_of, meta_values, named_values};
ghost use Rattle.rr_store.specs.Contents.{object_values};
ghost use Rattle.rr_store.specs.Tables.{meta_tree, named_tree, object_tree};
ghost use Rattle.rr_store.specs.Calls.{OnCleanDisk, database};
ghost use Rattle.rr_store.specs.StepParts.{Steps};
ghost use Rattle.rr_store.specs.StepParts.{IsOver};

use sqlite::{Alter, Error, Row, Transaction};
use sqlite_value::value::ValueRef;

/// Adds a row of `meta`.
pub(crate) fn add_meta_row<'x, S: Alter>(
    tx: &mut Transaction<'_, S>,
    name: &'x [u8],
    value: &'x [u8],
) -> Result<usize, Error>
    ensures { Steps S.Store IsTidy
        (λ old new. Alters old new meta_tree (Adds (meta_values name.now value.now ∷ [])))
        tx.old tx.new result }
{
    tx.execute(
        "INSERT INTO meta (name, value) VALUES (?1, ?2)",
        &[ValueRef::Text(name), ValueRef::Text(value)],
    )
}

/// Adds a row of `object`.
pub(crate) fn add_object<'x, S: Alter>(
    tx: &mut Transaction<'_, S>,
    class: u8,
    key: &'x [u8],
    body: &'x [u8],
) -> Result<usize, Error>
    ensures { Steps S.Store IsTidy
        (λ old new. Alters old new object_tree (Adds (object_values class key.now body.now ∷ [])))
        tx.old tx.new result }
{
    tx.execute(
        "INSERT INTO object (class, okey, body) VALUES (?1, ?2, ?3)",
        &[
            ValueRef::Int(i64::from(class)),
            ValueRef::Text(key),
            ValueRef::Blob(body),
        ],
    )
}

/// Adds a row of `named`.
pub(crate) fn add_name<'x, S: Alter>(
    tx: &mut Transaction<'_, S>,
    name: &'x [u8],
    class: u8,
    key: &'x [u8],
) -> Result<usize, Error>
    ensures { Steps S.Store IsTidy
        (λ old new. Alters old new named_tree (Adds (named_values name.now class key.now ∷ [])))
        tx.old tx.new result }
{
    tx.execute(
        "INSERT INTO named (maintainer, class, okey) VALUES (?1, ?2, ?3)",
        &[
            ValueRef::Text(name),
            ValueRef::Int(i64::from(class)),
            ValueRef::Text(key),
        ],
    )
}

/// Takes out the rows of `object` with this class and key.
pub(crate) fn remove_object<S: Alter>(
    tx: &mut Transaction<'_, S>,
    class: u8,
    key: &[u8],
) -> Result<usize, Error>
    ensures { Steps S.Store IsTidy
        (λ old new. Alters old new object_tree (RemovesRows (is_object_of class key.now)))
        tx.old tx.new result }
{
    tx.execute(
        "DELETE FROM object WHERE class = ?1 AND okey = ?2",
        &[ValueRef::Int(i64::from(class)), ValueRef::Text(key)],
    )
}

/// Takes out the rows of `named` of this maintainer, class and key.
pub(crate) fn remove_name<'x, S: Alter>(
    tx: &mut Transaction<'_, S>,
    name: &'x [u8],
    class: u8,
    key: &'x [u8],
) -> Result<usize, Error>
    ensures { Steps S.Store IsTidy
        (λ old new. Alters old new named_tree (RemovesRows (is_name_of class key.now name.now)))
        tx.old tx.new result }
{
    tx.execute(
        "DELETE FROM named WHERE maintainer = ?1 AND class = ?2 AND okey = ?3",
        &[
            ValueRef::Text(name),
            ValueRef::Int(i64::from(class)),
            ValueRef::Text(key),
        ],
    )
}

/// The rows of the objects with this class and key.
pub(crate) fn rows_of_key<S: Alter>(
    tx: &mut Transaction<'_, S>,
    class: u8,
    key: &[u8],
) -> Result<Vec<Row>, Error>
    requires { IsOver S.Store IsTidy tx.old.conn.now }
    ensures rows { OnCleanDisk S.Store tx.new.conn.now (IfOk result (λ rows. IsPermutation
        (filter (is_object_of class key.now)
        (contents ((database S.Store tx.old.conn.now).trees object_tree))) rows.items)) }
    ensures steps { Steps S.Store IsTidy
        (λ old new. new ≡ old) tx.old tx.new result }
{
    tx.query_all(
        "SELECT class, okey, body FROM object WHERE class = ?1 AND okey = ?2",
        &[ValueRef::Int(i64::from(class)), ValueRef::Text(key)],
    )
}

/// Takes out all rows of `meta`.
pub(crate) fn clear_meta<S: Alter>(tx: &mut Transaction<'_, S>) -> Result<usize, Error>
    ensures { Steps S.Store IsTidy
        (λ old new. Alters old new meta_tree (RemovesRows (λ _. true)))
        tx.old tx.new result }
{
    tx.execute("DELETE FROM meta", &[])
}

/// Takes out all rows of `object`.
pub(crate) fn clear_objects<S: Alter>(tx: &mut Transaction<'_, S>) -> Result<usize, Error>
    ensures { Steps S.Store IsTidy
        (λ old new. Alters old new object_tree (RemovesRows (λ _. true)))
        tx.old tx.new result }
{
    tx.execute("DELETE FROM object", &[])
}

/// Takes out all rows of `named`.
pub(crate) fn clear_names<S: Alter>(tx: &mut Transaction<'_, S>) -> Result<usize, Error>
    ensures { Steps S.Store IsTidy
        (λ old new. Alters old new named_tree (RemovesRows (λ _. true)))
        tx.old tx.new result }
{
    tx.execute("DELETE FROM named", &[])
}
