//! What the rows of the three tables say, each table by itself: `opening` checks all.

ghost use Rattle.std.specs.Prelude.{◌≡◌, [], ◌∷◌, codes, IfErr, IfOk};
ghost use Rattle.std.specs.Prelude.{OnOk};
ghost use Rattle.std.specs.Prelude.{IsSorted};
ghost use Rattle.rr_store.specs.Contents.{AreNumbered, by_three, meta_row, meta_rows};
ghost use Rattle.rr_store.specs.Maps.{HasVersion};
ghost use Rattle.rr_store.specs.Tables.{meta_tree, named_tree, object_tree};
ghost use Rattle.rr_store.specs.CheckParts.{AreNamingRows, IsVersionFault, NamesAre};
ghost use Rattle.rr_store.specs.CheckParts.{TableHoldsNone};
ghost use Rattle.rr_store.specs.Opening.{AreObjectsOf, IfStore};
ghost use Rattle.rr_store.specs.Versions.{version_text};
ghost use Rattle.rr_store.specs.declared.store_fault.OpenFault.TheVariants.{BadRow};
ghost use Rattle.rr_store.specs.declared.store_fault.OpenFault.TheVariants.{WrongVersion};
ghost use Rattle.rr_store.specs.LookParts.{IfSeen, IsTabled};
ghost use Rattle.rr_store.specs.Opening.{Inspects};
ghost use Rattle.rr_store.specs.CheckParts.{HasBadRow, TableGives};
ghost use Rattle.rr_store.specs.ReadingParts.{IsRowFault};

use crate::idle_connection::IdleConnection;
use crate::meta::{is_version_row_alone, other_version};
use crate::namings::are_named;
use crate::row_reading::{
    count_named, count_object, meta_rows, names_in_turn, read_objects, sorted_named_rows,
};
use crate::store_fault::OpenFault;
use crate::version::Version;
use rr_number::Name;
use rr_object::Object;
use sqlite::{Alter, Row};
use std::alloc::Global;

/// Checks that the rows of `meta` are the one that says the version asked for. The fault is another
/// version that a row says, and else `BadRow`.
fn judge_version(rows: &[Row], version: Version) -> Result<(), OpenFault>
    ensures ok { OnOk result
        (rows.now ≡ meta_row (codes "version") (version_text version) ∷ []) }
    ensures fault { IfErr result (IsVersionFault version rows.now) }
    ensures no_store { IfErr result (IfStore (λ _. ⊥)) }
{
    if let Some(number) = other_version(rows, version) {
        return Err(OpenFault::WrongVersion(number));
    }
    if is_version_row_alone(rows, version) {
        Ok(())
    } else {
        Err(OpenFault::BadRow)
    }
}

/// Checks that the tables are of the version asked for. The fault is as at `judge_version`, or of
/// the query.
pub(crate) fn check_version<S: Alter>(
    conn: &mut IdleConnection<S>,
    version: Version,
) -> Result<(), OpenFault>
    ensures { IfSeen S.Store IsTabled conn.old
        (Inspects S.Store conn.old conn.new result
        (λ db _. HasVersion (version_text version) db)
        (λ db. IsVersionFault version (meta_rows (db.trees meta_tree)))) }
{
    let rows = meta_rows(conn)?;
    judge_version(&rows, version)
}

/// The objects that `object` holds, in the order of the numbers of its rows, which have numbers of
/// their own. `BadRow` says that it holds the rows of no objects of the source. Otherwise the query
/// failed, or memory ran out.
pub(crate) fn check_objects<S: Alter>(
    conn: &mut IdleConnection<S>,
    alloc: Global,
    source: &Name,
    version: Version,
) -> Result<Vec<Object>, OpenFault>
    ensures inspects { IfSeen S.Store IsTabled conn.old
        (Inspects S.Store conn.old conn.new result
        (λ db objects. AreNumbered (db.trees object_tree)
        × TableGives version source.now objects.items db)
        (HasBadRow (TableHoldsNone version source.now))) }
    ensures of_source { IfOk result (λ objects. AreObjectsOf source.now objects.items) }
{
    let count = count_object(conn)?;
    read_objects(conn, alloc, count, source, version)
}

/// Checks that the rows of `named`, by maintainer, class and key, are those of the maintainers that
/// the objects name. The fault is `BadRow`, which says of sorted rows that they are not, or that
/// memory ran out.
fn judge_names(
    alloc: Global,
    rows: &[Row],
    objects: &[Object],
    version: Version,
) -> Result<(), OpenFault>
    ensures ok { OnOk result (AreNamingRows version objects.now rows.now) }
    ensures bad_row { IsSorted by_three rows.now → IfErr result (λ fault. fault ≡ BadRow →
        AreNamingRows version objects.now rows.now → ⊥) }
    ensures row_fault { IfErr result IsRowFault }
{
    if are_named(alloc, rows, objects, version)? {
        Ok(())
    } else {
        Err(OpenFault::BadRow)
    }
}

/// Checks that the rows of `named` are those that the objects name, asked for in order of
/// maintainer, class and key. `BadRow` says that they are not. Otherwise the query failed, or
/// memory ran out. So it is below.
fn check_sorted_names<S: Alter>(
    conn: &mut IdleConnection<S>,
    alloc: Global,
    objects: &[Object],
    version: Version,
) -> Result<(), OpenFault>
    ensures { IfSeen S.Store IsTabled conn.old
        (Inspects S.Store conn.old conn.new result
        (λ db _. NamesAre version objects.now db)
        (HasBadRow (λ db. NamesAre version objects.now db → ⊥))) }
{
    let rows = sorted_named_rows(conn)?;
    judge_names(alloc, &rows, objects, version)
}

/// Checks the rows of `named` as they stand, and once more in order only where these differ.
fn check_maintainers<S: Alter>(
    conn: &mut IdleConnection<S>,
    alloc: Global,
    objects: &[Object],
    version: Version,
) -> Result<(), OpenFault>
    ensures { IfSeen S.Store IsTabled conn.old
        (Inspects S.Store conn.old conn.new result
        (λ db _. NamesAre version objects.now db)
        (HasBadRow (λ db. NamesAre version objects.now db → ⊥))) }
{
    if names_in_turn(conn, alloc, objects, version)? {
        return Ok(());
    }
    check_sorted_names(conn, alloc, objects, version)
}

/// Checks the rows of `named`, and that each has a rowid of its own. They stand in the order of the
/// objects unless others wrote them: only then are they asked for once more, and compared in order.
pub(crate) fn check_named_table<S: Alter>(
    conn: &mut IdleConnection<S>,
    alloc: Global,
    objects: &[Object],
    version: Version,
) -> Result<(), OpenFault>
    ensures { IfSeen S.Store IsTabled conn.old
        (Inspects S.Store conn.old conn.new result
        (λ db _. AreNumbered (db.trees named_tree) × NamesAre version objects.now db)
        (HasBadRow (λ db. NamesAre version objects.now db → ⊥))) }
{
    // the count is not needed: the clause says that the rows have numbers of their own
    let _count = count_named(conn)?;
    check_maintainers(conn, alloc, objects, version)
}
