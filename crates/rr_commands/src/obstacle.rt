//! How the tables of a registry were made otherwise than irrdesk makes them, for messages of
//! `diagnosis` alone: in another order, or with what keeps them from being read. `meta_rows` calls
//! `text_at`, the one function here of which a clause speaks.

ghost use Rattle.std.specs.Prelude.{◌≡◌, ◌≢◌, []};
ghost use Rattle.sqlite_value.specs.Order.{column};
ghost use Rattle.sqlite_value.specs.declared.value.Value.TheVariants.{Text};

use crate::shown::push_key;
use rr_store::{META_TREE, NAMED_TREE, OBJECT_TREE, has_tables};
use sqlite::Row;
use sqlite_schema::schema::{Column, Reference, Schema, Table};
use sqlite_value::keys::Collation;
use sqlite_value::value::{Value, ValueRef};
use std::alloc::AllocError;

/// What has a name and was added to a table.
#[derive(Clone, Copy)]
struct Obstacle<'a> {
    kind: &'static str,
    name: &'a [u8],
    table: &'a [u8],
}

/// Adds what keeps the three tables of a schema from being read, if it is found; says whether. The
/// rows list the schema as name, kind, table and text. If memory runs out, the answer is `false`,
/// and the beginning may stay added.
pub(crate) fn push_obstacle(schema: &Schema, rows: &[Row], found: &mut String) -> bool {
    match obstacle_in(schema, rows) {
        Some(obstacle) if !has_tables(schema) => push_found(found, &obstacle).is_ok(),
        _ => false,
    }
}

/// Whether a schema has the three tables with their columns, in a way that is not read.
pub(crate) fn has_other_tables(schema: &Schema) -> bool {
    !has_tables(schema)
        && has_whole(schema, "meta")
        && has_whole(schema, "object")
        && has_whole(schema, "named")
}

/// Whether a schema has the table of this name with its columns.
fn has_whole(schema: &Schema, name: &str) -> bool {
    schema.tables.as_slice().iter().any(|table| {
        table.name.as_slice() == name.as_bytes() && has_columns(table)
    })
}

/// Whether a table is one of the three and has its columns.
fn has_columns(table: &Table) -> bool {
    match columns_of(table.name.as_slice()) {
        Some(wanted) => wanted
            .iter()
            .all(|name| has_column(table.columns.as_slice(), name)),
        None => false,
    }
}

/// Adds what was found: its kind, its name and its table. The error is that memory ran out: what
/// was added by then stays.
fn push_found(found: &mut String, obstacle: &Obstacle<'_>) -> Result<(), AllocError> {
    let kind = obstacle.kind;
    write!(found, ", {kind} ")?;
    push_key(found, obstacle.name)?;
    found.push_str(" of ")?;
    push_key(found, obstacle.table)
}

/// The first trigger or index, column, default or collation, or foreign key that keeps the tables
/// from being read.
fn obstacle_in<'a>(schema: &'a Schema, rows: &'a [Row]) -> Option<Obstacle<'a>> {
    if let Some(row) = rows.iter().find(|row| is_bound_by(schema, row)) {
        return obstacle_of(row);
    }
    if let Some(table) = schema
        .tables
        .as_slice()
        .iter()
        .find(|table| has_more(table))
    {
        return column_of(table);
    }
    if let Some(table) = schema
        .tables
        .as_slice()
        .iter()
        .find(|table| has_more_rules(table))
    {
        return rule_of(table);
    }
    let table = schema
        .tables
        .as_slice()
        .iter()
        .find(|table| refers_here(table))?;
    key_of_table(table)
}

/// Whether a row lists what keeps the library from reading one of the three tables: a trigger on
/// it, or an index that the library does not understand.
fn is_bound_by(schema: &Schema, row: &Row) -> bool {
    columns_of(text_at(row, 2)).is_some()
        && schema.views.as_slice().iter().any(|view| view.binds
            && view.name.as_slice() == text_at(row, 0))
}

/// What a row lists: a trigger, or else an index.
fn obstacle_of(row: &Row) -> Option<Obstacle<'_>> {
    let kind = if text_at(row, 1) == b"trigger".as_slice() {
        "trigger"
    } else {
        "index"
    };
    Some(Obstacle {
        kind,
        name: text_at(row, 0),
        table: text_at(row, 2),
    })
}

/// The text in column `at` of a row, from 0, or nothing.
pub(crate) fn text_at(row: &Row, at: usize) -> &[u8]
    ensures { result.now ≢ [] → column row.now at ≡ Text result.now }
{
    match row.get_ref(at) {
        Ok(ValueRef::Text(text)) => text,
        _ => b"",
    }
}

/// The columns of the table of this name, if it is one of the three, in letters of any case.
fn columns_of(table: &[u8]) -> Option<&'static [&'static str]> {
    if table.eq_ignore_ascii_case(b"meta") {
        Some(&["name", "value"])
    } else if table.eq_ignore_ascii_case(b"object") {
        Some(&["class", "okey", "body"])
    } else if table.eq_ignore_ascii_case(b"named") {
        Some(&["maintainer", "class", "okey"])
    } else {
        None
    }
}

/// Whether a table is one of the three and has a further column.
fn has_more(table: &Table) -> bool {
    column_of(table).is_some()
}

/// The first further column of a table that is one of the three and has all of its own. If one of
/// these is missing, a further column may be that one, spelled otherwise, and so none is told.
fn column_of(table: &Table) -> Option<Obstacle<'_>> {
    let wanted = columns_of(table.name.as_slice())?;
    if !has_columns(table) {
        return None;
    }
    let columns = table.columns.as_slice();
    let column = columns.iter().find(|column| is_further(column, wanted))?;
    Some(Obstacle {
        kind: "column",
        name: column.name.as_slice(),
        table: table.name.as_slice(),
    })
}

fn has_column(columns: &[Column], name: &str) -> bool {
    columns
        .iter()
        .any(|column| column.name.as_slice() == name.as_bytes())
}

/// Whether a column is none of those that are wanted.
fn is_further(column: &Column, wanted: &[&str]) -> bool {
    !wanted
        .iter()
        .any(|name| name.as_bytes() == column.name.as_slice())
}

/// Whether a table is one of the three, and one of its columns has a default or a collation.
fn has_more_rules(table: &Table) -> bool {
    rule_of(table).is_some()
}

/// The first default of a table that is one of the three, or else the first collation.
fn rule_of(table: &Table) -> Option<Obstacle<'_>> {
    columns_of(table.name.as_slice())?;
    let columns = table.columns.as_slice();
    if let Some(column) = column_with_default(table) {
        return Some(Obstacle {
            kind: "default of column",
            name: column.name.as_slice(),
            table: table.name.as_slice(),
        });
    }
    let column = columns
        .iter()
        .find(|column| column.collation != Collation::Binary)?;
    Some(Obstacle {
        kind: "collation of column",
        name: column.name.as_slice(),
        table: table.name.as_slice(),
    })
}

/// The first column with a literal as its default. If there is none, the first with an expression,
/// or else the first with the time.
fn column_with_default(table: &Table) -> Option<&Column> {
    let columns = table.columns.as_slice();
    if let Some(column) = columns
        .iter()
        .find(|column| !matches!(column.default, Value::Null))
    {
        return Some(column);
    }
    let place = match table.computed.as_slice() {
        [place, ..] => *place,
        [] => *table.stamps.places.as_slice().first()?,
    };
    columns.get(place.checked_sub(1)?)
}

/// Whether a table has a foreign key that keeps the three from being read.
fn refers_here(table: &Table) -> bool {
    key_of_table(table).is_some()
}

/// The first foreign key of a table to one of the three, or to any table if it is one of them.
fn key_of_table(table: &Table) -> Option<Obstacle<'_>> {
    let is_ours = columns_of(table.name.as_slice()).is_some();
    let key = table
        .references
        .as_slice()
        .iter()
        .find(|key| is_ours || is_to_ours(key))?;
    Some(Obstacle {
        kind: "foreign key to",
        name: key.parent.as_slice(),
        table: table.name.as_slice(),
    })
}

/// Whether a foreign key is to one of the three tables.
fn is_to_ours(key: &Reference) -> bool {
    columns_of(key.parent.as_slice()).is_some()
}

/// Whether the three tables are there, each with the index of its key alone, but do not stand
/// first, or not in their order.
pub(crate) fn has_other_order(rows: &[Row]) -> bool {
    let found = [
        tree_of("meta", rows),
        tree_of("object", rows),
        tree_of("named", rows),
    ];
    let are_plain = has_key_alone("meta", rows)
        && has_key_alone("object", rows)
        && has_key_alone("named", rows);
    let trees = [
        Some(u64::from(META_TREE)),
        Some(u64::from(OBJECT_TREE)),
        Some(u64::from(NAMED_TREE)),
    ];
    are_plain && found != trees && found.iter().all(Option::is_some)
}

/// The tree of a table among these rows, whose fifth value is the number of the tree and one more.
/// A table that was dropped before it leaves a gap.
fn tree_of(name: &str, rows: &[Row]) -> Option<u64> {
    let row = rows.iter().find(|row| text_at(row, 0) == name.as_bytes()
        && text_at(row, 1) == b"table".as_slice())?;
    let listed: Result<u64, sqlite::Error> = row.get(4);
    listed.ok()?.checked_sub(1)
}

/// Whether a table has one index that came with it.
fn has_key_alone(name: &str, rows: &[Row]) -> bool {
    let mut has_one = false;
    for row in rows {
        if is_index_of(row, name) {
            if has_one {
                return false;
            }
            has_one = true;
        }
    }
    has_one
}

/// Whether a row lists an index that came with the table of this name: it has no text.
fn is_index_of(row: &Row, table: &str) -> bool {
    text_at(row, 1) == b"index".as_slice()
        && text_at(row, 2) == table.as_bytes()
        && text_at(row, 3).is_empty()
}
