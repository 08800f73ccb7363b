//! What the columns of a row hold, for all that compares rows or reads objects from them.

ghost use Rattle.std.specs.Prelude.{◌≡◌, pos, IfSome, IsTrue, None};
ghost use Rattle.sqlite_value.specs.declared.value.Value.TheVariants.{Blob, Int, Text};
ghost use Rattle.sqlite_value.specs.Order.{column};
ghost use Rattle.rr_store.specs.Contents.{columns, meta_row, named_values, object_values};

use sqlite::Row;
use sqlite_value::value::ValueRef;

/// Whether the row has the number at this place.
fn has_number(row: &Row, at: usize, number: u8) -> bool
    ensures is { IsTrue result → column row.now at ≡ Int (pos number) }
    ensures only { column row.now at ≡ Int (pos number) → IsTrue result }
{
    match row.get_ref(at) {
        Ok(ValueRef::Int(held)) => held == i64::from(number),
        _ => false,
    }
}

/// Whether the row has the text at this place.
fn has_text(row: &Row, at: usize, text: &[u8]) -> bool
    ensures is { IsTrue result → column row.now at ≡ Text text.now }
    ensures only { column row.now at ≡ Text text.now → IsTrue result }
{
    match row.get_ref(at) {
        Ok(ValueRef::Text(held)) => held == text,
        _ => false,
    }
}

/// Whether the row has the blob of these bytes at this place.
fn has_blob(row: &Row, at: usize, bytes: &[u8]) -> bool
    ensures is { IsTrue result → column row.now at ≡ Blob bytes.now }
    ensures only { column row.now at ≡ Blob bytes.now → IsTrue result }
{
    match row.get_ref(at) {
        Ok(ValueRef::Blob(held)) => held == bytes,
        _ => false,
    }
}

/// The bytes of a column, if it holds a blob.
pub(crate) fn bytes_at(row: &Row, at: usize) -> Option<&[u8]>
    ensures found { IfSome result (λ bytes. column row.now at ≡ Blob bytes.now) }
    ensures none { (bytes : _) → result ≡ None → column row.now at ≡ Blob bytes → ⊥ }
{
    match row.get_ref(at) {
        Ok(ValueRef::Blob(held)) => Some(held),
        _ => None,
    }
}

/// The text of the second column of a row without a number, if it holds one.
pub(crate) fn second_text(row: &Row) -> Option<&[u8]>
    ensures found { IfSome result (λ text. column row.now 1 ≡ Text text.now) }
    ensures none { (text : _) → result ≡ None → column row.now 1 ≡ Text text → ⊥ }
{
    match row.get_ref(1) {
        Ok(ValueRef::Text(held)) => Some(held),
        _ => None,
    }
}

/// Whether a row with its number is that of an object.
pub(crate) fn is_object_row(row: &Row, class: u8, key: &[u8], body: &[u8]) -> bool
    ensures is { IsTrue result → columns row.now ≡ object_values class key.now body.now }
    ensures only { columns row.now ≡ object_values class key.now body.now → IsTrue result }
{
    has_number(row, 1, class) && has_text(row, 2, key) && has_blob(row, 3, body)
}

/// Whether a row with its number is that of a maintainer and an object that names it.
pub(crate) fn is_named_row(row: &Row, name: &[u8], class: u8, key: &[u8]) -> bool
    ensures is { IsTrue result → columns row.now ≡ named_values name.now class key.now }
    ensures only { columns row.now ≡ named_values name.now class key.now → IsTrue result }
{
    has_text(row, 1, name) && has_number(row, 2, class) && has_text(row, 3, key)
}

/// Whether a row without a number is that of a maintainer and an object that names it.
pub(crate) fn is_bare_named_row(row: &Row, name: &[u8], class: u8, key: &[u8]) -> bool
    ensures is { IsTrue result → row.now ≡ named_values name.now class key.now }
    ensures only { row.now ≡ named_values name.now class key.now → IsTrue result }
{
    row.column_count() == 3
        && has_text(row, 0, name)
        && has_number(row, 1, class)
        && has_text(row, 2, key)
}

/// Whether a row of `meta`, without a number, has this name and this value.
pub(crate) fn is_bare_meta_row(row: &Row, name: &[u8], value: &[u8]) -> bool
    ensures is { IsTrue result → row.now ≡ meta_row name.now value.now }
    ensures only { row.now ≡ meta_row name.now value.now → IsTrue result }
{
    row.column_count() == 2 && has_text(row, 0, name) && has_text(row, 1, value)
}
