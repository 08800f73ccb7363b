//! The three tables in a schema: whether they are there, and which trees are theirs. Calls that
//! make, open or migrate a store ask this first, and so do messages of `rr_commands` about refused
//! databases.

ghost use Rattle.std.specs.Prelude.{◌≡◌, [], ◌∷◌, true, false, codes, IsTrue};
ghost use Rattle.std.specs.List.{list_all};
ghost use Rattle.sqlite_schema.specs.declared.schema.Kind.TheVariants as kind;
ghost use Rattle.rr_store.specs.Tables.{HasTables, IsPlainTable, meta, named, object};
ghost use Rattle.rr_store.specs.Tables.{refers_elsewhere, required, rules_of, stands_apart};

use sqlite_schema::names::same_name;
use sqlite_schema::schema::{Column, Kind, Reference, Schema, Table};
use sqlite_value::keys::Collation;
use sqlite_value::value::Value;

/// The tree of `meta`, the first of a file; the next one is that of its primary key.
pub const META_TREE: u32 = 0;

/// The tree of `object`; the next one is that of its primary key.
pub const OBJECT_TREE: u32 = 2;

/// The tree of `named`; the next one is that of its primary key.
pub const NAMED_TREE: u32 = 4;

/// Whether a column has this name and kind, and is one of a STRICT table that takes no NULL.
fn is_required(column: &Column, name: &[u8], kind: Kind) -> bool
    ensures is { IsTrue result → column.now ≡ required name.now kind }
    ensures only { column.now ≡ required name.now kind → IsTrue result }
{
    column.name.as_slice() == name
        && column.kind == kind
        && column.is_strict
        && column.not_null
        && matches!(column.default, Value::Null)
        && column.collation == Collation::Binary
}

/// Whether a table has no foreign key, no INTEGER PRIMARY KEY, no AUTOINCREMENT and no default.
fn is_plain(table: &Table) -> bool
    ensures is { IsTrue result → IsPlainTable table.now }
    ensures only { IsPlainTable table.now → IsTrue result }
{
    table.key.is_none()
        && table.references.is_empty()
        && table.computed.is_empty()
        && table.stamps.places.is_empty()
        && table.stamps.terms.roots.is_empty()
        && table.stamps.formats.is_empty()
        && !table.is_counted
}

fn are_meta_columns(columns: &[Column]) -> bool
    ensures is { IsTrue result → columns.now
        ≡ required (codes "name") kind.Text ∷ required (codes "value") kind.Text ∷ [] }
    ensures only { columns.now ≡ required (codes "name") kind.Text
        ∷ required (codes "value") kind.Text ∷ [] → IsTrue result }
{
    match columns {
        [first, second] => is_required(first, b"name", Kind::Text)
            && is_required(second, b"value", Kind::Text),
        _ => false,
    }
}

fn are_object_columns(columns: &[Column]) -> bool
    ensures is { IsTrue result → columns.now ≡ required (codes "class") kind.Integer
        ∷ required (codes "okey") kind.Text ∷ required (codes "body") kind.Blob ∷ [] }
    ensures only { columns.now ≡ required (codes "class") kind.Integer ∷ required
        (codes "okey") kind.Text ∷ required (codes "body") kind.Blob ∷ [] → IsTrue result }
{
    match columns {
        [first, second, third] => is_required(first, b"class", Kind::Integer)
            && is_required(second, b"okey", Kind::Text)
            && is_required(third, b"body", Kind::Blob),
        _ => false,
    }
}

fn are_named_columns(columns: &[Column]) -> bool
    ensures is { IsTrue result → columns.now ≡ required (codes "maintainer") kind.Text
        ∷ required (codes "class") kind.Integer ∷ required (codes "okey") kind.Text ∷ [] }
    ensures only { columns.now ≡ required (codes "maintainer") kind.Text ∷ required (codes
        "class") kind.Integer ∷ required (codes "okey") kind.Text ∷ [] → IsTrue result }
{
    match columns {
        [first, second, third] => is_required(first, b"maintainer", Kind::Text)
            && is_required(second, b"class", Kind::Integer)
            && is_required(third, b"okey", Kind::Text),
        _ => false,
    }
}

fn is_meta(table: &Table) -> bool
    ensures is { IsTrue result → table.now ≡ meta (rules_of table.now) }
    ensures only { table.now ≡ meta (rules_of table.now) → IsTrue result }
{
    table.name.as_slice() == b"meta".as_slice()
        && table.tree == META_TREE
        && are_meta_columns(table.columns.as_slice())
        && is_plain(table)
}

fn is_object(table: &Table) -> bool
    ensures is { IsTrue result → table.now ≡ object (rules_of table.now) }
    ensures only { table.now ≡ object (rules_of table.now) → IsTrue result }
{
    table.name.as_slice() == b"object".as_slice()
        && table.tree == OBJECT_TREE
        && are_object_columns(table.columns.as_slice())
        && is_plain(table)
}

fn is_named(table: &Table) -> bool
    ensures is { IsTrue result → table.now ≡ named (rules_of table.now) }
    ensures only { table.now ≡ named (rules_of table.now) → IsTrue result }
{
    table.name.as_slice() == b"named".as_slice()
        && table.tree == NAMED_TREE
        && are_named_columns(table.columns.as_slice())
        && is_plain(table)
}

fn refers_elsewhere(reference: &Reference) -> bool
    ensures { result ≡ refers_elsewhere reference.now }
{
    let parent = reference.parent.as_slice();
    !(same_name(b"meta", parent) || same_name(b"object", parent) || same_name(b"named", parent))
}

fn refer_elsewhere(references: &[Reference]) -> bool
    ensures { result ≡ list_all refers_elsewhere references.now }
{
    references
        .iter()
        .all(|reference| refers_elsewhere(reference))
}

fn stands_apart(table: &Table) -> bool
    ensures { result ≡ stands_apart table.now }
{
    NAMED_TREE < table.tree && refer_elsewhere(table.references.as_slice())
}

fn stand_apart(tables: &[Table]) -> bool
    ensures { result ≡ list_all stands_apart tables.now }
{
    tables.iter().all(|table| stands_apart(table))
}

/// Whether these are the three tables, and the others stand apart from them.
fn are_ours(first: &Table, second: &Table, third: &Table, others: &[Table]) -> bool
    ensures meta { IsTrue result → first.now ≡ meta (rules_of first.now) }
    ensures object { IsTrue result → second.now ≡ object (rules_of second.now) }
    ensures named { IsTrue result → third.now ≡ named (rules_of third.now) }
    ensures apart { IsTrue result → list_all stands_apart others.now ≡ true }
    ensures only { first.now ≡ meta (rules_of first.now)
        → second.now ≡ object (rules_of second.now) → third.now ≡ named (rules_of third.now)
        → list_all stands_apart others.now ≡ true → IsTrue result }
{
    is_meta(first) && is_object(second) && is_named(third) && stand_apart(others)
}

/// Whether the schema begins with the tables `meta`, `object` and `named`, and each other table has
/// a later tree than `named` and no foreign key to the three. Each of the three must have its tree
/// and its columns, which are of a STRICT table, take no NULL and are compared as BINARY. It must
/// have no foreign key, INTEGER PRIMARY KEY, AUTOINCREMENT or default. Its other keys and its
/// checks are free, and so are the indexes and views of the schema.
pub fn has_tables(schema: &Schema) -> bool
    ensures is { IsTrue result → HasTables schema.now }
    ensures only { HasTables schema.now → IsTrue result }
{
    match schema.tables.as_slice() {
        [first, second, third, others @ ..] => are_ours(first, second, third, others),
        _ => false,
    }
}
