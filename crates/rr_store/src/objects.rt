//! Objects read from rows, and put in the order of their keys, for what opens or migrates tables.
//! `leaving_names` and `upper` take `read_paragraph`, and `migrating` takes `lent`.

ghost use Rattle.std.specs.Prelude.{◌≡◌, ◌++◌, [], ◌∷◌, IfErr, IfOk, IfSome};
ghost use Rattle.std.specs.Prelude.{IsPermutation, IsSome};
ghost use Rattle.std.specs.Prelude.{IsSorted, IsTrue, OnOk, Some};
ghost use Rattle.rr_text.specs.CanonicalText.{canonical};
ghost use Rattle.rr_object.specs.Classes.{class_number};
ghost use Rattle.rr_object.specs.Keys.{class_of};
ghost use Rattle.rr_object.specs.Objects.{Obj, lent};
ghost use Rattle.rr_object.specs.Readings.{ReadsAs};
ghost use Rattle.rr_store.specs.Contents.{columns, object_values};
ghost use Rattle.rr_store.specs.Maps.{AreApart, AreInOrder, IsObjectOf};
ghost use Rattle.rr_store.specs.ReadingParts.{IsRowOf, by_key, is_below};
ghost use Rattle.rr_store.specs.Versions.{form_of};
ghost use Rattle.rr_store.specs.declared.store_fault.OpenFault.TheVariants.{BadRow};
ghost use Rattle.rr_store.specs.ReadingParts.{IsRowFault};

use crate::columns::{bytes_at, is_object_row};
use crate::store_fault::OpenFault;
use crate::version::Version;
use rr_number::Name;
use rr_object::laws::keys_compare_by_their_parts;
use rr_object::{Object, ObjectFault};
use rr_text::{Paragraph, read_canonical};
use sqlite::Row;
use std::alloc::{AllocError, Global};
use std::cmp::Ordering;

/// The object of the source that a paragraph is, if it is one. The error is that memory ran out,
/// here and below.
pub(crate) fn read_paragraph(
    alloc: Global,
    paragraph: Paragraph,
    source: &Name,
) -> Result<Option<Object>, AllocError>
    ensures found { IfOk result (λ read. IfSome read (λ object.
        ReadsAs source.now paragraph object)) }
    ensures only { IfOk result (λ read. (object : _) →
        ReadsAs source.now paragraph object → IsSome read) }
{
    match Object::read(alloc, paragraph, source) {
        Ok(object) => Ok(Some(object)),
        Err(ObjectFault::Memory) => Err(AllocError),
        Err(_) => Ok(None),
    }
}

/// The object of the source whose canonical text this is, if it is that of one.
fn read_text(alloc: Global, text: &[u8], source: &Name) -> Result<Option<Object>, AllocError>
    ensures found { IfOk result (λ read. IfSome read (λ object.
        IsObjectOf source.now object × (canonical object.paragraph ≡ text.now))) }
    ensures only { IfOk result (λ read. (object : _) → IsObjectOf source.now object →
        canonical object.paragraph ≡ text.now → IsSome read) }
{
    match read_canonical(alloc, text)? {
        Some(paragraph) => Ok(read_paragraph(alloc, paragraph, source)?),
        None => Ok(None),
    }
}

/// Whether a row with its number is that of the object, with this text.
fn is_row_of(
    alloc: Global,
    row: &Row,
    object: &Object,
    text: &[u8],
    version: Version,
) -> Result<bool, AllocError>
    ensures is { IfOk result (λ is. IsTrue is → (key : _) ×
        (form_of version object.now.key ≡ Some key) ×
        (columns row.now ≡ object_values (class_number (class_of object.now.key)) key text.now)) }
    ensures only { IfOk result (λ is. (key : _) → form_of version object.now.key ≡ Some key →
        columns row.now ≡ object_values (class_number (class_of object.now.key)) key text.now →
        IsTrue is) }
{
    let class = object.key().class().number();
    match version.key_bytes(alloc, object.key())? {
        Some(key) => Ok(is_object_row(row, class, &key, text)),
        None => Ok(false),
    }
}

/// The object of the source whose row, with its number, this is, if it is that of one.
fn read_object(
    alloc: Global,
    row: &Row,
    source: &Name,
    version: Version,
) -> Result<Option<Object>, AllocError>
    ensures found { IfOk result (λ read. IfSome read (λ object.
        IsObjectOf source.now object × IsRowOf (form_of version) object (columns row.now))) }
    ensures only { IfOk result (λ read. (object : _) → IsObjectOf source.now object →
        IsRowOf (form_of version) object (columns row.now) → IsSome read) }
{
    let Some(text) = bytes_at(row, 3) else {
        return Ok(None);
    };
    let Some(object) = read_text(alloc, text, source)? else {
        return Ok(None);
    };
    if is_row_of(alloc, row, &object, text, version)? {
        Ok(Some(object))
    } else {
        Ok(None)
    }
}

/// Takes in the object of the source whose row, with its number, this is. The fault is `BadRow`,
/// which says that there is none, or that memory ran out. What was taken in then, no clause says.
pub(crate) fn take_object(
    objects: &mut Vec<Object>,
    alloc: Global,
    row: &Row,
    source: &Name,
    version: Version,
) -> Result<(), OpenFault>
    ensures read { OnOk result ((object : Obj) × IsObjectOf source.now object ×
        IsRowOf (form_of version) object (columns row.now) ×
        (objects.new.items ≡ objects.old.items ++ object ∷ [])) }
    ensures bad_row { IfErr result (λ fault. fault ≡ BadRow → (object : Obj) →
        IsObjectOf source.now object → IsRowOf (form_of version) object (columns row.now)
        → ⊥) }
    ensures row_fault { IfErr result IsRowFault }
{
    let Some(object) = read_object(alloc, row, source, version)? else {
        return Err(OpenFault::BadRow);
    };
    match objects.push(object) {
        Ok(()) => Ok(()),
        Err(_) => Err(OpenFault::Memory),
    }
}

/// References to the objects, in their order. The error is that memory ran out.
pub(crate) fn lent(alloc: Global, objects: &[Object]) -> Result<Vec<&Object>, AllocError>
    ensures { IfOk result (λ found. lent found.items ≡ objects.now) }
{
    objects.iter().collect(alloc)
}

/// Whether the key of an object is below that of the first of others, if there is one.
fn is_below(object: &Object, others: &[Object]) -> bool
    ensures { result ≡ is_below object.now others.now }
{
    match others {
        [other, ..] => {
            // the clause speaks of the order of keys by their parts
            keys_compare_by_their_parts();
            object.key().cmp(other.key()) == Ordering::Less
        }
        [] => true,
    }
}

/// Whether the objects stand in the order of their keys.
fn are_in_order(objects: &[Object]) -> bool
    ensures is { IsTrue result → AreInOrder objects.now }
    ensures only { AreInOrder objects.now → IsTrue result }
{
    let mut rest = objects;
    while let [first, later @ ..] = rest {
        if !is_below(first, later) {
            return false;
        }
        rest = later;
    }
    true
}

/// The objects sorted by their keys. The error is that memory ran out.
fn sorted(mut objects: Vec<Object>) -> Result<Vec<Object>, AllocError>
    ensures same { IfOk result (λ sorted. IsPermutation objects.items sorted.items) }
    ensures order { IfOk result (λ sorted. IsSorted by_key sorted.items) }
{
    // the clause speaks of the order of keys by their parts
    keys_compare_by_their_parts();
    objects.sort_by(|a, b| a.key().cmp(b.key()))?;
    Ok(objects)
}

/// The objects in the order of their keys, of which no two are the same. The fault is `BadRow`,
/// which says that two are, or that memory ran out. Those that stand so already are not sorted.
pub(crate) fn in_order(objects: Vec<Object>) -> Result<Vec<Object>, OpenFault>
    ensures same { IfOk result (λ ordered. IsPermutation objects.items ordered.items) }
    ensures order { IfOk result (λ ordered. AreInOrder ordered.items) }
    ensures fault { IfErr result (λ fault. fault ≡ BadRow → AreApart objects.items → ⊥) }
    ensures row_fault { IfErr result IsRowFault }
{
    if are_in_order(&objects) {
        return Ok(objects);
    }
    let sorted = sorted(objects)?;
    if are_in_order(&sorted) {
        Ok(sorted)
    } else {
        Err(OpenFault::BadRow)
    }
}
