//! Which objects name which maintainers, as the rows of `named` have it. `checks` compares these
//! rows with the objects by `are_named`, if `row_streams` did not find them in the order of the
//! objects. `row_streams` takes `key_text`.

ghost use Rattle.std.specs.Prelude.{◌≡◌, ◌++◌, [], IfOk, IsSorted};
ghost use Rattle.std.specs.Prelude.{IsTrue};
ghost use Rattle.std.specs.Prelude.{OnOk, map, unwrap_or};
ghost use Rattle.std.specs.List.{flat_map};
ghost use Rattle.rr_store.specs.Contents.{by_three, named_values};
ghost use Rattle.rr_store.specs.Entries.{named_rows};
ghost use Rattle.rr_store.specs.Maps.{entry_in};
ghost use Rattle.rr_store.specs.CheckParts.{AreNamingRows};
ghost use Rattle.rr_store.specs.NamingParts.{naming_row};
ghost use Rattle.rr_store.specs.Versions.{form_of};

use crate::columns::is_bare_named_row;
use crate::names::maintainers_of;
use crate::version::Version;
use rr_number::Name;
use rr_object::{Key, Object};
use sqlite::Row;
use std::alloc::{AllocError, Global};

/// A maintainer and an object that names it.
#[derive(Debug, PartialEq, Eq, PartialOrd, Ord, Drop)]
pub(crate) struct Naming {
    maintainer: Name,
    class: u8,
    key: Vec<u8>,
}

/// The text of a key in tables of a version, which is empty where it has none. The error is that
/// memory ran out.
pub(crate) fn key_text(alloc: Global, key: &Key, version: Version) -> Result<Vec<u8>, AllocError>
    ensures { IfOk result (λ bytes. bytes.items ≡ unwrap_or (form_of version key.now) []) }
{
    match version.key_bytes(alloc, key)? {
        Some(bytes) => Ok(bytes),
        None => Ok(Vec::new(alloc)),
    }
}

/// Takes in that the object with this class and key names each of the maintainers. The error is
/// that memory ran out; what was taken in then, no clause says. So it is below.
fn push_namings(
    all: &mut Vec<Naming>,
    alloc: Global,
    names: &[Name],
    class: u8,
    key: &[u8],
) -> Result<(), AllocError>
    ensures { OnOk result (map naming_row all.new.items ≡
        map naming_row all.old.items ++ map (λ name. named_values name class key.now) names.now) }
{
    for name in names {
        all.push(Naming {
            maintainer: name.copy(alloc)?,
            class,
            key: Vec::from_slice(alloc, key)?,
        })?;
    }
    Ok(())
}

/// Takes in whom the object names.
fn push_object(
    all: &mut Vec<Naming>,
    alloc: Global,
    object: &Object,
    version: Version,
) -> Result<(), AllocError>
    ensures { OnOk result (map naming_row all.new.items ≡
        map naming_row all.old.items ++ named_rows (entry_in (form_of version) object.now)) }
{
    let names = maintainers_of(alloc, object)?;
    let key = key_text(alloc, object.key(), version)?;
    push_namings(all, alloc, &names, object.key().class().number(), &key)
}

/// Who names whom, as often as `named` has a row of it.
fn namings(alloc: Global, objects: &[Object], version: Version) -> Result<Vec<Naming>, AllocError>
    ensures { IfOk result (λ all. map naming_row all.items ≡
        flat_map named_rows (map (entry_in (form_of version)) objects.now)) }
{
    let mut all = Vec::new(alloc);
    for object in objects {
        push_object(&mut all, alloc, object, version)?;
    }
    Ok(all)
}

/// Who names whom, sorted by maintainer, class and key.
fn sorted_namings(
    alloc: Global,
    objects: &[Object],
    version: Version,
) -> Result<Vec<Naming>, AllocError>
    ensures same { IfOk result (λ all.
        AreNamingRows version objects.now (map naming_row all.items)) }
    ensures sorted { IfOk result (λ all. IsSorted by_three (map naming_row all.items)) }
{
    let mut all = namings(alloc, objects, version)?;
    all.sort()?;
    Ok(all)
}

/// Whether rows are those of the namings, in turn.
fn are_rows_of(rows: &[Row], namings: &[Naming]) -> bool
    ensures is { IsTrue result → rows.now ≡ map naming_row namings.now }
    ensures only { rows.now ≡ map naming_row namings.now → IsTrue result }
{
    let mut rest = rows;
    let mut left = namings;
    while let ([row, later @ ..], [naming, others @ ..]) = (rest, left) {
        if !is_bare_named_row(row, naming.maintainer.as_bytes(), naming.class, &naming.key) {
            return false;
        }
        rest = later;
        left = others;
    }
    rest.is_empty() && left.is_empty()
}

/// Whether rows without numbers, sorted by maintainer, class and key, are those of the maintainers
/// that the objects name. Of rows that are not sorted so, `false` says nothing. The error is that
/// memory ran out.
pub(crate) fn are_named(
    alloc: Global,
    rows: &[Row],
    objects: &[Object],
    version: Version,
) -> Result<bool, AllocError>
    ensures is { IfOk result (λ is. IsTrue is → AreNamingRows version objects.now rows.now) }
    ensures only { IsSorted by_three rows.now → IfOk result (λ is.
        AreNamingRows version objects.now rows.now → IsTrue is) }
{
    let namings = sorted_namings(alloc, objects, version)?;
    Ok(are_rows_of(rows, &namings))
}
