//! The maintainers that an object names, read from its row before `bodies` takes its rows out.

ghost use Rattle.std.specs.Prelude.{◌≡◌, ◌≢◌, [], ◌∷◌, IfErr, IfOk, IfSome, IsSome};
ghost use Rattle.std.specs.List.{AllByRecursion, find};
ghost use Rattle.rr_text.specs.Fields.{has_name};
ghost use Rattle.rr_text.specs.CanonicalText.{canonical};
ghost use Rattle.rr_object.specs.Kinds.{kind_name};
ghost use Rattle.rr_object.specs.declared.kind.Kind.TheVariants.{Source};
ghost use Rattle.rr_store.specs.Entries.{entry_of, object_row};
ghost use Rattle.rr_store.specs.Maps.{AreNamesOf, IsObject};
ghost use Rattle.rr_store.specs.ReadingParts.{first_source};
ghost use Rattle.rr_store.specs.declared.store_fault.StoreFault.TheVariants.{Memory};

use crate::columns::bytes_at;
use crate::names::maintainers_of;
use crate::objects::read_paragraph;
use crate::store_fault::{BAD_ROWS, StoreFault};
use rr_number::Name;
use rr_object::{Kind, Object};
use rr_text::{Attribute, Paragraph, meaning, read_canonical};
use sqlite::Row;
use std::alloc::{AllocError, Global};

/// The first attribute `source`, if there is one.
fn first_source_attribute(paragraph: &Paragraph) -> Option<Attribute<'_>>
    ensures { result ≡ find (has_name (kind_name Source)) paragraph.now }
{
    paragraph.attributes().find(|attribute| attribute.has_name(Kind::Source.name().as_bytes()))
}

/// The source that the first attribute `source` names, if it names one. The error is that memory
/// ran out, here and below.
fn first_source(alloc: Global, paragraph: &Paragraph) -> Result<Option<Name>, AllocError>
    ensures { IfOk result (λ source. source ≡ first_source paragraph.now) }
{
    match first_source_attribute(paragraph) {
        Some(attribute) => Name::read(alloc, meaning(alloc, &attribute)?.as_slice()),
        None => Ok(None),
    }
}

/// The object whose canonical text this is, if it is that of one, whichever source it names.
fn read_any(alloc: Global, text: &[u8]) -> Result<Option<Object>, AllocError>
    ensures found { IfOk result (λ read. IfSome read (λ object.
        IsObject object × (canonical object.paragraph ≡ text.now))) }
    ensures only { IfOk result (λ read. (object : _) → IsObject object →
        canonical object.paragraph ≡ text.now → IsSome read) }
{
    let Some(paragraph) = read_canonical(alloc, text)? else {
        return Ok(None);
    };
    match first_source(alloc, &paragraph)? {
        Some(source) => Ok(read_paragraph(alloc, paragraph, &source)?),
        None => Ok(None),
    }
}

/// The maintainers that the object of a row names, each once. A fault of the store, which is any
/// but lack of memory, says that the row is none of an object.
fn names_of_row(alloc: Global, row: &Row) -> Result<Vec<Name>, StoreFault>
    ensures names { IfOk result (λ names. AreNamesOf names.items row.now) }
    ensures refused { IfErr result (λ fault. fault ≢ Memory → (object : _) → IsObject object →
        row.now ≡ object_row (entry_of object) → ⊥) }
{
    let Some(text) = bytes_at(row, 2) else {
        return Err(StoreFault::Store(BAD_ROWS));
    };
    match read_any(alloc, text)? {
        Some(object) => Ok(maintainers_of(alloc, &object)?),
        None => Err(StoreFault::Store(BAD_ROWS)),
    }
}

/// The maintainers that the object names, each once, whose row is the one row of a class and a key;
/// no maintainers if there is no row. A fault of the store, which is any but lack of memory, says
/// that these rows are not the one of an object.
pub(crate) fn names_of_rows(alloc: Global, rows: &[Row]) -> Result<Vec<Name>, StoreFault>
    ensures names { IfOk result (λ names. AllByRecursion (AreNamesOf names.items) rows.now) }
    ensures refused { IfErr result (λ fault. fault ≢ Memory → (object : _) → IsObject object →
        rows.now ≡ object_row (entry_of object) ∷ [] → ⊥) }
{
    match rows {
        [] => Ok(Vec::new(alloc)),
        [row] => names_of_row(alloc, row),
        _ => Err(StoreFault::Store(BAD_ROWS)),
    }
}
