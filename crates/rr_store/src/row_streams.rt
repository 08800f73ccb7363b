//! Rows read one at a time for `row_reading`, so that only what is made of them takes memory. They
//! are counted, read as objects, or compared with the names of objects; of names the contracts say
//! only what `true` means.

ghost use Rattle.std.specs.Prelude.{◌≡◌, List, IfErr, IfOk, IsTrue, length, map};
ghost use Rattle.std.specs.List.{flat_map};
ghost use Rattle.sqlite_value.specs.declared.value.Value.TheVariants.{Int};
ghost use Rattle.sqlite_value.specs.Order.{Row as Values};
ghost use Rattle.sqlite_trees.specs.Tree.{rowid};
ghost use Rattle.rr_store.specs.Contents.{AreNumbered, IsPast, contents, named_values};
ghost use Rattle.rr_store.specs.Entries.{named_rows};
ghost use Rattle.rr_store.specs.Maps.{entry_in};
ghost use Rattle.rr_store.specs.Calls.{IsOpen, OnCleanDisk};
ghost use Rattle.rr_store.specs.Opening.{AreObjectsOf};
ghost use Rattle.rr_store.specs.ReadingParts.{AreRead};
ghost use Rattle.rr_store.specs.StreamParts.{FailsAfterRows, FailsToCount, GivesMore, GivesRest};
ghost use Rattle.rr_store.specs.StreamParts.{IsNotNext, Streams};
ghost use Rattle.rr_store.specs.Versions.{form_of};
ghost use Rattle.rr_store.specs.declared.store_fault.OpenFault.TheVariants.{BadRow};
ghost use Rattle.rr_store.specs.StreamParts.{FailsToTake, RefusesRows};

use crate::columns::is_named_row;
use crate::names::maintainers_of;
use crate::namings::key_text;
use crate::objects::take_object;
use crate::store_fault::{BAD_ROWS, OpenFault};
use crate::version::Version;
use rr_number::Name;
use rr_object::Object;
use sqlite::{Alter, Error, ErrorCode, Row, Rows};
use std::alloc::Global;

/// The number of a row. The error is that it has no whole number above the last one, or that memory
/// ran out.
fn next_number(row: &Row, last: Option<i64>) -> Result<i64, Error>
    ensures number { IfOk result (λ number. rowid row.now ≡ Int number) }
    ensures past { IfOk result (IsPast last) }
    ensures not_next { IfErr result (IsNotNext last row.now) }
{
    let number: i64 = row.get(0)?;
    match last {
        Some(before) => {
            if before < number {
                Ok(number)
            } else {
                Err(BAD_ROWS)
            }
        }
        None => Ok(number),
    }
}

/// How many rows are to come, whose first values are numbers that rise. The error is that a row has
/// no such number, that the query failed, or that memory ran out.
pub(crate) fn count_numbered<S: Alter>(rows: &mut Rows<'_, S>) -> Result<usize, Error>
    requires { IsOpen S.Store rows.old.conn.now }
    ensures streams { Streams S.Store rows.old rows.new result }
    ensures numbered { OnCleanDisk S.Store rows.new.conn.now (IfOk result (λ count.
        (rest : List Values) × GivesRest S.Store rows.old.conn.now rows.new.conn.now rest ×
        AreNumbered rest × (count ≡ length rest))) }
    ensures fails { OnCleanDisk S.Store rows.new.conn.now (IfErr result
        (FailsToCount S.Store rows.old.conn.now rows.new.conn.now)) }
{
    let mut last = None;
    'rows: for count in 0..usize::MAX {
        rows.advance()?;
        let Some(row) = rows.get() else {
            return Ok(count);
        };
        last = Some(next_number(row, last)?);
    }
    Err(Error::SqliteFailure(ErrorCode::OutOfMemory))
}

/// The objects of the rows to come, in turn; room is made for `count` of them at first. `BadRow`
/// says that some row is that of no object of the source in tables of this version. Otherwise the
/// query failed, or memory ran out; no other version is told of.
pub(crate) fn take_objects<S: Alter>(
    rows: &mut Rows<'_, S>,
    alloc: Global,
    count: usize,
    source: &Name,
    version: Version,
) -> Result<Vec<Object>, OpenFault>
    requires { IsOpen S.Store rows.old.conn.now }
    ensures streams { Streams S.Store rows.old rows.new result }
    ensures read { OnCleanDisk S.Store rows.new.conn.now (IfOk result (λ objects.
        (rest : List Values) × GivesRest S.Store rows.old.conn.now rows.new.conn.now rest ×
        AreRead (form_of version) source.now (contents rest) objects.items)) }
    ensures of_source { IfOk result (λ objects. AreObjectsOf source.now objects.items) }
    ensures refuses { OnCleanDisk S.Store rows.new.conn.now (IfErr result (RefusesRows S.Store
        (form_of version) source.now rows.old.conn.now rows.new.conn.now)) }
    ensures fails { IfErr result (FailsToTake S.Store rows.old rows.new) }
{
    let mut objects = Vec::with_capacity(alloc, count)?;
    'rows: for _ in 0..u64::MAX {
        rows.advance()?;
        let Some(row) = rows.get() else {
            return Ok(objects);
        };
        take_object(&mut objects, alloc, row, source, version)?;
    }
    Err(OpenFault::Memory)
}

/// True only if the next rows are those of these names, for an object of this class and key. The
/// error is that the query failed.
fn take_names<S: Alter>(
    rows: &mut Rows<'_, S>,
    names: &[Name],
    class: u8,
    key: &[u8],
) -> Result<bool, Error>
    requires { IsOpen S.Store rows.old.conn.now }
    ensures streams { Streams S.Store rows.old rows.new result }
    ensures are { OnCleanDisk S.Store rows.new.conn.now (IfOk result (λ are. IsTrue are →
        (more : List Values) × GivesMore S.Store rows.old.conn.now rows.new.conn.now more ×
        (contents more ≡ map (λ name. named_values name class key.now) names.now))) }
    ensures fails { OnCleanDisk S.Store rows.new.conn.now (IfErr result
        (FailsAfterRows S.Store rows.old.conn.now rows.new.conn.now)) }
{
    for name in names {
        rows.advance()?;
        let Some(row) = rows.get() else {
            return Ok(false);
        };
        if !is_named_row(row, name.as_bytes(), class, key) {
            return Ok(false);
        }
    }
    Ok(true)
}

/// True only if the next rows are those of the maintainers that the object names. The fault, here
/// and below, is that the query failed, or that memory ran out.
fn take_names_of<S: Alter>(
    rows: &mut Rows<'_, S>,
    alloc: Global,
    object: &Object,
    version: Version,
) -> Result<bool, OpenFault>
    requires { IsOpen S.Store rows.old.conn.now }
    ensures streams { Streams S.Store rows.old rows.new result }
    ensures are { OnCleanDisk S.Store rows.new.conn.now (IfOk result (λ are. IsTrue are →
        (more : List Values) × GivesMore S.Store rows.old.conn.now rows.new.conn.now more ×
        (contents more ≡ named_rows (entry_in (form_of version) object.now)))) }
    ensures no_bad_row { IfErr result (λ fault. fault ≡ BadRow → ⊥) }
    ensures fails { IfErr result (FailsToTake S.Store rows.old rows.new) }
{
    let names = maintainers_of(alloc, object)?;
    let key = key_text(alloc, object.key(), version)?;
    Ok(take_names(rows, &names, object.key().class().number(), &key)?)
}

/// True only if the rows to come are those of the maintainers that the objects name, in the order
/// of the objects. They stand so unless others wrote them. At `false`, `checks` compares them once
/// more in order.
pub(crate) fn take_all_names<S: Alter>(
    rows: &mut Rows<'_, S>,
    alloc: Global,
    objects: &[Object],
    version: Version,
) -> Result<bool, OpenFault>
    requires { IsOpen S.Store rows.old.conn.now }
    ensures streams { Streams S.Store rows.old rows.new result }
    ensures are { OnCleanDisk S.Store rows.new.conn.now (IfOk result (λ are. IsTrue are →
        (rest : List Values) × GivesRest S.Store rows.old.conn.now rows.new.conn.now rest ×
        (contents rest ≡ flat_map named_rows (map (entry_in (form_of version)) objects.now)))) }
    ensures no_bad_row { IfErr result (λ fault. fault ≡ BadRow → ⊥) }
    ensures fails { IfErr result (FailsToTake S.Store rows.old rows.new) }
{
    for object in objects {
        if !take_names_of(rows, alloc, object, version)? {
            return Ok(false);
        }
    }
    rows.advance()?;
    match rows.get() {
        Some(_) => Ok(false),
        None => Ok(true),
    }
}
