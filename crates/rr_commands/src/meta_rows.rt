//! The version that rows of `meta` say, for messages of `diagnosis` alone.

ghost use Rattle.std.specs.Prelude.{◌≡◌, IfSome, IsTrue, codes, decimal};
ghost use Rattle.sqlite_value.specs.Order.{column};
ghost use Rattle.sqlite_value.specs.declared.value.Value.TheVariants.{Text};
ghost use Rattle.rr_commands.specs.MetaRows.{RowsSayVersion};

use crate::obstacle::text_at;
use rr_store::read_decimal;
use sqlite::Row;

/// The version that one of these rows of `meta` says. Of `None` no clause speaks.
pub(crate) fn version_in(rows: &[Row]) -> Option<u32>
    ensures { IfSome result (RowsSayVersion rows.now) }
{
    for row in rows {
        if is_of_version(row) {
            return number_of(row);
        }
    }
    None
}

/// Whether a row of `meta` is that of the version. Of `false` no clause speaks.
fn is_of_version(row: &Row) -> bool
    ensures { IsTrue result → column row.now 0 ≡ Text (codes "version") }
{
    text_at(row, 0) == b"version".as_slice()
}

/// The number that a row of `meta` has in decimal digits. Of `None` no clause speaks.
fn number_of(row: &Row) -> Option<u32>
    ensures { IfSome result (λ number. column row.now 1 ≡ Text (decimal number)) }
{
    let found: Result<String, sqlite::Error> = row.get(1);
    match found {
        Ok(found) => read_decimal(found.as_bytes()),
        Err(_) => None,
    }
}
