//! The rows of objects, and why one has no object of the registry, for messages of `diagnosis`
//! alone. Of a function without `ensures` no clause says what it finds or adds.

ghost use Rattle.std.specs.Prelude.{◌≡◌, IfErr, IsTrue};
ghost use Rattle.std.specs.Option.{option_copied};
ghost use Rattle.rr_commands.specs.ObjectRows.{AreMostlyOfOther, IsOfOtherSource, IsTextOfOther};
ghost use Rattle.rr_commands.specs.ObjectRows.{row_numbered};

use crate::shown::push_key;
use rr_number::Name;
use rr_object::{Key, Object, ObjectFault};
use rr_store::Version;
use rr_text::read_canonical;
use sqlite::Row;
use sqlite_value::value::ValueRef;
use std::alloc::{AllocError, Global};

/// Which objects rows are to have: those of this source, in tables of this version.
#[derive(Clone, Copy)]
pub(crate) struct Wanted<'a> {
    pub(crate) source: &'a Name,
    pub(crate) version: Version,
}

/// Why a row has no object of a registry by its class and key.
#[derive(Clone, Copy, PartialEq, Eq)]
pub(crate) enum RowFault {
    /// Its object is of another source.
    OtherSource,
    /// It has none, or one by another class or key.
    Bad,
    /// Memory ran out as it was read.
    Memory,
}

/// Adds the row of this number, from 1, or nothing if there is none.
pub(crate) fn push_numbered(found: &mut String, rows: &[Row], number: u64) {
    if let Some(row) = row_at(rows, number) {
        // Without memory, the message has a part of the row, or names the database alone.
        let _ = push_row(found, row);
    }
}

/// The row of this number, from 1.
fn row_at(rows: &[Row], number: u64) -> Option<&Row>
    ensures { option_copied result ≡ row_numbered rows.now number }
{
    match number {
        0 => None,
        _ => rows.get(number as usize - 1),
    }
}

/// Whether more than half of the rows have objects of another source. Of `false` no clause speaks.
pub(crate) fn are_mostly_others(
    alloc: Global,
    rows: &[Row],
    source: &Name,
    version: Version,
) -> bool
    ensures { IsTrue result → AreMostlyOfOther source.now rows.now }
{
    let mut others = 0usize;
    'rows: for row in rows {
        if is_of_other(alloc, row, source, version) {
            others += 1;
        }
    }
    others > rows.len() / 2
}

/// Whether a row has an object of another source. Of `false` no clause speaks.
fn is_of_other(alloc: Global, row: &Row, source: &Name, version: Version) -> bool
    ensures { IsTrue result → IsOfOtherSource source.now row.now }
{
    match object_of(alloc, row, source, version) {
        Err(RowFault::OtherSource) => true,
        _ => false,
    }
}

/// The first row with this fault.
pub(crate) fn first_with<'a>(
    alloc: Global,
    rows: &'a [Row],
    source: &Name,
    version: Version,
    fault: RowFault,
) -> Option<&'a Row> {
    rows.iter()
        .find(|row| fault_of(alloc, row, source, version) == Some(fault))
}

/// Whether more rows are good in the other version than in this one.
pub(crate) fn suit_other_version(
    alloc: Global,
    rows: &[Row],
    source: &Name,
    version: Version,
) -> bool {
    good_count(alloc, rows, source, version.other()) > good_count(alloc, rows, source, version)
}

/// How many rows have an object of the source by its class and key.
fn good_count(alloc: Global, rows: &[Row], source: &Name, version: Version) -> usize {
    rows.iter()
        .filter(|row| fault_of(alloc, row, source, version).is_none())
        .count()
}

/// The objects of rows; `None` if one of them has none, or if memory ran out.
pub(crate) fn objects_of(
    alloc: Global,
    rows: &[Row],
    source: &Name,
    version: Version,
) -> Option<Vec<Object>> {
    let mut objects = Vec::new(alloc);
    for row in rows {
        objects
            .push(object_of(alloc, row, source, version).ok()?)
            .ok()?;
    }
    Some(objects)
}

/// Why a row has no object of the source by its class and key, if it has none.
fn fault_of(alloc: Global, row: &Row, source: &Name, version: Version) -> Option<RowFault> {
    object_of(alloc, row, source, version).err()
}

/// The object of a row.
fn object_of(alloc: Global, row: &Row, source: &Name, version: Version) -> Result<Object, RowFault>
    ensures { IfErr result
        (λ fault. fault ≡ RowFault.OtherSource → IsOfOtherSource source.now row.now) }
{
    let body: Result<Vec<u8>, sqlite::Error> = row.get(2);
    match body {
        Ok(body) => read_body(alloc, row, body.as_slice(), source, version),
        Err(_) => Err(RowFault::Bad),
    }
}

/// The object of a row with this text.
fn read_body(
    alloc: Global,
    row: &Row,
    body: &[u8],
    source: &Name,
    version: Version,
) -> Result<Object, RowFault>
    ensures { IfErr result (λ fault. fault ≡ RowFault.OtherSource → IsTextOfOther source.now
        body.now) }
{
    match read_canonical(alloc, body) {
        Ok(Some(paragraph)) => match Object::read(alloc, paragraph, source) {
            Ok(object) => keyed(alloc, row, object, version),
            Err(ObjectFault::OtherSource) => Err(RowFault::OtherSource),
            Err(ObjectFault::Memory) => Err(RowFault::Memory),
            Err(_) => Err(RowFault::Bad),
        },
        Ok(None) => Err(RowFault::Bad),
        Err(AllocError) => Err(RowFault::Memory),
    }
}

/// The object, if the row has its class and key.
fn keyed(alloc: Global, row: &Row, object: Object, version: Version) -> Result<Object, RowFault>
    ensures { IfErr result (λ fault. fault ≡ RowFault.Bad) }
{
    let class: Result<u64, sqlite::Error> = row.get(0);
    match class {
        Ok(class) if class == u64::from(object.key().class().number()) => {
            if has_key(alloc, row, object.key(), version) {
                Ok(object)
            } else {
                Err(RowFault::Bad)
            }
        }
        _ => Err(RowFault::Bad),
    }
}

/// Whether a row has this key. If memory runs out, the answer is that it has.
fn has_key(alloc: Global, row: &Row, key: &Key, version: Version) -> bool {
    let found: Result<String, sqlite::Error> = row.get(1);
    match (found, version.key_bytes(alloc, key)) {
        (Ok(found), Ok(Some(bytes))) => found.as_bytes() == bytes.as_slice(),
        (Ok(_), Err(_)) => true,
        (Ok(_), Ok(None)) | (Err(_), _) => false,
    }
}

/// Adds the class and the key of a row, as the tables have them; nothing if these are no integer
/// and no text. The error is that memory ran out: what was added by then stays.
pub(crate) fn push_row(found: &mut String, row: &Row) -> Result<(), AllocError> {
    match (row.get_ref(0), row.get_ref(1)) {
        (Ok(ValueRef::Int(class)), Ok(ValueRef::Text(key))) => {
            write!(found, ", class {class}, okey ")?;
            push_key(found, key)
        }
        _ => Ok(()),
    }
}
