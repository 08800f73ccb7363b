//! The version that the rows of `meta` say, as `checks` and the diagnosis of `rr_commands` ask.

ghost use Rattle.std.specs.Prelude.{◌≡◌, ◌≢◌, ◌<◌, ◌^◌, [], ◌∷◌};
ghost use Rattle.std.specs.Prelude.{Contains, None, codes, decimal};
ghost use Rattle.std.specs.Prelude.{IfSome, IsTrue};
ghost use Rattle.rr_store.specs.Contents.{meta_row};
ghost use Rattle.rr_store.specs.Versions.{version_number, version_text};

use crate::columns::{is_bare_meta_row, second_text};
use crate::version::{Version, read_decimal};
use sqlite::Row;

/// The number in a row, if that says another version than the one asked for.
fn other_number(row: &Row, version: Version) -> Option<u32>
    ensures found { IfSome result (λ n. (n ≢ version_number version) ×
        (row.now ≡ meta_row (codes "version") (decimal n))) }
    ensures only { (n : _) → n < 2 ^ 32 → n ≢ version_number version →
        row.now ≡ meta_row (codes "version") (decimal n) → result ≡ None → ⊥ }
{
    let value = second_text(row)?;
    let number = read_decimal(value)?;
    if number != version.number() && is_bare_meta_row(row, b"version", value) {
        Some(number)
    } else {
        None
    }
}

/// The number of another version than the one asked for that a row says, if one does.
pub(crate) fn other_version(rows: &[Row], version: Version) -> Option<u32>
    ensures found { IfSome result (λ n. (n ≢ version_number version) ×
        Contains rows.now (meta_row (codes "version") (decimal n))) }
    ensures only { (n : _) → n < 2 ^ 32 →
        Contains rows.now (meta_row (codes "version") (decimal n)) → result ≡ None →
        n ≡ version_number version }
{
    for row in rows {
        if let Some(number) = other_number(row, version) {
            return Some(number);
        }
    }
    None
}

/// Whether the rows, each a name and a value of `meta`, are just one, whose name is `version` and
/// whose value is the number of the version asked for.
pub fn is_version_row_alone(rows: &[Row], version: Version) -> bool
    ensures is { IsTrue result
        → rows.now ≡ meta_row (codes "version") (version_text version) ∷ [] }
    ensures only { rows.now ≡ meta_row (codes "version") (version_text version) ∷ [] →
        IsTrue result }
{
    match rows {
        [row] => is_bare_meta_row(row, b"version", version.text()),
        _ => false,
    }
}
