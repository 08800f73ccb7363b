//! What is the matter with a database whose registry is not opened, for `open_desk`, or not
//! migrated, for `migrate`. It is for messages alone: contracts say of which kind it is, and not
//! that it is so. The store says only that there is something; the rows are looked at once more,
//! because a person needs to know where, and that commits nothing. If memory runs out meanwhile,
//! what the store said is told, or what else was found.

ghost use Rattle.std.specs.Prelude.{◌≡◌, IfSome, IsTrue, Some, false, nat_lt};
ghost use Rattle.rr_commands.specs.Commands.{Finds, LooksAt};
ghost use Rattle.rr_commands.specs.Found.{IsToldUnopened, is_of_old, is_of_rows, is_of_tables};
ghost use Rattle.rr_commands.specs.Found.{is_of_unmigrated, is_of_version, keys_beside};
ghost use Rattle.rr_commands.specs.MetaRows.{RowsSayVersion};
ghost use Rattle.rr_commands.specs.Migrated.{IsDiagnosis, LooksAtRefused};

use crate::meta_rows::version_in;
use crate::object_rows::{
    RowFault, Wanted, are_mostly_others, first_with, objects_of, push_numbered, push_row,
    suit_other_version,
};
use crate::obstacle::{has_other_order, has_other_tables, push_obstacle};
use crate::trouble::Trouble;
use rr_desk::{MigrateFault, OpenFault};
use rr_index::IndexedBook;
use rr_number::Name;
use rr_registry::{LoadFault, Registry};
use rr_store::{IdleConnection, OLD_VERSION, VERSION, Version, is_version_row_alone};
use sqlite::{Alter, Row};
use sqlite_schema::schema::Schema;
use std::alloc::{AllocError, Global};

/// What a file has, in its order: each of the three tables is followed by the index of its key. The
/// number of a row is that of its tree, plus one.
const LISTED: &str = "SELECT name, type, tbl_name, sql, rowid FROM sqlite_schema ORDER BY rowid";

/// The rows of `meta`.
const META: &str = "SELECT name, value FROM meta";

/// The rows of objects.
const OBJECTS: &str = "SELECT class, okey, body FROM object ORDER BY class, okey";

/// The first row of names, by class and key, that is of no object.
const NAMES_ALONE: &str = "SELECT class, okey FROM named EXCEPT SELECT class, okey FROM object \
    ORDER BY class, okey LIMIT 1";

/// What is the matter with a database whose registry was not opened for this reason: that reason,
/// or what a look at the database may find, which commits nothing. Where that is to be seen is
/// added to `found`: the class and key of a row, a table, or what was added to one. Its rows are
/// looked at if a copy of the source was made.
#[tactic(auto, using(crate::proofs::FoundLemmas::tables_unopened))]
pub(crate) fn trouble_with<S: Alter>(
    alloc: Global,
    conn: &mut IdleConnection<S>,
    source: Result<Name, AllocError>,
    fault: OpenFault,
    found: &mut String,
) -> Trouble
    ensures cause { IsToldUnopened fault result }
    ensures looks { LooksAt S.Store conn.old conn.new }
{
    conn.note_idle();
    match (fault, source) {
        (OpenFault::Store(_), _) => {
            if let Some(version) = later_version(conn) {
                Trouble::Opening(OpenFault::WrongVersion(version))
            } else {
                match found_in_schema(conn, found) {
                    Some(trouble) => trouble,
                    None => Trouble::Opening(fault),
                }
            }
        }
        (OpenFault::BadRow, Ok(source)) => {
            match found_in_rows(alloc, conn, &source, Version::Current, found) {
                Some(trouble) => trouble,
                None => Trouble::Opening(fault),
            }
        }
        (OpenFault::WrongVersion(version), Ok(source)) => {
            match found_in_old(alloc, conn, &source, version, found) {
                Some(trouble) => trouble,
                None => Trouble::Opening(fault),
            }
        }
        _ => Trouble::Opening(fault),
    }
}

/// What is the matter with tables that say this version and are not read, if it is found. Of the
/// version that is migrated it is another row of `meta` beside it, or keys of the version that is
/// read.
fn found_in_old<S: Alter>(
    alloc: Global,
    conn: &mut IdleConnection<S>,
    source: &Name,
    version: u32,
    found: &mut String,
) -> Option<Trouble>
    ensures { Finds S.Store (is_of_old version) conn.old conn.new result }
{
    conn.note_idle();
    if version != OLD_VERSION {
        return None;
    }
    if are_other_rows(conn.ask(META), Version::Old) {
        push_meta(found);
        return Some(Trouble::OtherRows);
    }
    match conn.ask(OBJECTS) {
        Ok(rows) if suit_other_version(alloc, rows.as_slice(), source, Version::Old) => {
            push_meta(found);
            Some(Trouble::NewKeys)
        }
        _ => None,
    }
}

/// What is the matter with rows of which more are good in the other version than in this one, which
/// `meta` says.
fn keys_beside(version: Version) -> Trouble
    ensures keys { result ≡ keys_beside version }
    ensures kind { IsTrue (is_of_rows version result) }
{
    match version {
        Version::Old => Trouble::NewKeys,
        Version::Current => Trouble::OldKeys,
    }
}

/// What is told of how a migration ended: that, or what a look at a database that was refused may
/// find. Where that is to be seen is added to `found`, as by `trouble_with`. The look commits
/// nothing, and no other database is looked at.
pub(crate) fn told_of<S: Alter>(
    alloc: Global,
    conn: &mut IdleConnection<S>,
    source: Result<Name, AllocError>,
    end: Result<u8, Trouble>,
    found: &mut String,
) -> Result<u8, Trouble>
    ensures diagnosis { IsDiagnosis end result }
    ensures looks { LooksAtRefused S.Store end conn.old conn.new }
{
    match (end, source) {
        (Err(Trouble::Migrating(MigrateFault::Store(_))), _) => match found_in_tables(conn, found) {
            Some(trouble) => Err(trouble),
            None => end,
        },
        (Err(Trouble::Migrating(MigrateFault::BadRow)), Ok(source)) => {
            match found_in_rows(alloc, conn, &source, Version::Old, found) {
                Some(trouble) => Err(trouble),
                None => end,
            }
        }
        (Err(Trouble::Migrating(MigrateFault::WrongVersion(version))), _) => {
            match found_in_meta(conn, version, found) {
                Some(trouble) => Err(trouble),
                None => end,
            }
        }
        (Err(Trouble::Migrating(MigrateFault::NoRoot)), _) => {
            if are_none(conn.ask(OBJECTS)) {
                Err(Trouble::Empty)
            } else {
                end
            }
        }
        _ => end,
    }
}

/// Whether a look found that there are no rows.
fn are_none(found: Result<Vec<Row>, sqlite::Error>) -> bool {
    match found {
        Ok(rows) => rows.as_slice().is_empty(),
        Err(_) => false,
    }
}

/// What is the matter with a `meta` that says this version and is not migrated, if it is found: of
/// the version that is read, another row beside it.
fn found_in_meta<S: Alter>(
    conn: &mut IdleConnection<S>,
    version: u32,
    found: &mut String,
) -> Option<Trouble>
    ensures { Finds S.Store (is_of_version version) conn.old conn.new result }
{
    conn.note_idle();
    if version == VERSION {
        if are_other_rows(conn.ask(META), Version::Current) {
            push_meta(found);
            return Some(Trouble::OtherRows);
        }
    }
    None
}

/// Adds that the rows of `meta` are the matter.
fn push_meta(found: &mut String) {
    // Without memory for this, the message names the database alone.
    let _ = found.push_str(", table meta");
}

/// What is the matter with tables that are not migrated, if it is found.
#[tactic(auto, using(crate::proofs::FoundLemmas::tables_unmigrated))]
fn found_in_tables<S: Alter>(conn: &mut IdleConnection<S>, found: &mut String) -> Option<Trouble>
    ensures { Finds S.Store is_of_unmigrated conn.old conn.new result }
{
    if let Some(version) = later_version(conn) {
        Some(Trouble::Migrating(MigrateFault::WrongVersion(version)))
    } else {
        found_in_schema(conn, found)
    }
}

/// What is the matter with how tables were made, if it is found.
fn found_in_schema<S: Alter>(conn: &mut IdleConnection<S>, found: &mut String) -> Option<Trouble>
    ensures { Finds S.Store is_of_tables conn.old conn.new result }
{
    match conn.ask(LISTED) {
        Ok(rows) => judge_schema(conn.schema(), rows.as_slice(), found),
        Err(_) => None,
    }
}

/// What is the matter with tables that are listed so: their order, what was added to them, or that
/// they were made otherwise.
fn judge_schema(schema: &Schema, rows: &[Row], found: &mut String) -> Option<Trouble>
    ensures { IfSome result (λ trouble. IsTrue (is_of_tables trouble)) }
{
    if has_other_order(rows) {
        Some(Trouble::OtherOrder)
    } else if push_obstacle(schema, rows, found) {
        Some(Trouble::Obstacle)
    } else if has_other_tables(schema) {
        Some(Trouble::OtherTables)
    } else {
        None
    }
}

/// The version that `meta` says, if it is a later one: those tables may have other
/// columns.
fn later_version<S: Alter>(conn: &mut IdleConnection<S>) -> Option<u32>
    ensures { Finds S.Store (nat_lt VERSION) conn.old conn.new result }
{
    match conn.ask(META) {
        Ok(rows) => later_in(rows.as_slice()),
        Err(_) => None,
    }
}

/// The version that these rows of `meta` say, if it is a later one.
fn later_in(rows: &[Row]) -> Option<u32>
    ensures later { IfSome result (λ version. IsTrue (nat_lt VERSION version)) }
    ensures says { IfSome result (RowsSayVersion rows.now) }
{
    match version_in(rows) {
        Some(version) if version > VERSION => Some(version),
        _ => None,
    }
}

/// What is the matter with rows that are those of no registry of the source, if it is found. The
/// rows of `meta` come first, because keys are written as its version has them.
fn found_in_rows<S: Alter>(
    alloc: Global,
    conn: &mut IdleConnection<S>,
    source: &Name,
    version: Version,
    found: &mut String,
) -> Option<Trouble>
    ensures { Finds S.Store (is_of_rows version) conn.old conn.new result }
{
    if are_other_rows(conn.ask(META), version) {
        push_meta(found);
        return Some(Trouble::OtherRows);
    }
    match conn.ask(OBJECTS) {
        Ok(rows) => judge_rows(
            alloc,
            conn,
            rows.as_slice(),
            Wanted { source, version },
            found,
        ),
        Err(_) => None,
    }
}

/// Whether a look at `meta` found other rows than that of this version.
fn are_other_rows(meta: Result<Vec<Row>, sqlite::Error>, version: Version) -> bool {
    match meta {
        Ok(rows) => !is_version_row_alone(rows.as_slice(), version),
        Err(_) => false,
    }
}

/// What is the matter with these rows of objects. If most are of another source, it is that. If
/// more are good in the other version than in this one, it is that `meta` says this one. Otherwise
/// it is the first that is bad by itself, or else of another source, or else what is bad of all
/// together.
fn judge_rows<S: Alter>(
    alloc: Global,
    conn: &mut IdleConnection<S>,
    rows: &[Row],
    wanted: Wanted<'_>,
    found: &mut String,
) -> Option<Trouble>
    ensures { Finds S.Store (is_of_rows wanted.entry.version) conn.old conn.new result }
{
    conn.note_idle();
    if are_mostly_others(alloc, rows, wanted.source, wanted.version) {
        return Some(Trouble::OtherSource);
    }
    if let Some(row) = first_with(alloc, rows, wanted.source, wanted.version, RowFault::Bad) {
        if suit_other_version(alloc, rows, wanted.source, wanted.version) {
            push_meta(found);
            return Some(keys_beside(wanted.version));
        }
        // Without memory, the message has a part of the row, or names the database alone.
        let _ = push_row(found, row);
        return Some(Trouble::BadObject);
    }
    match first_with(
        alloc,
        rows,
        wanted.source,
        wanted.version,
        RowFault::OtherSource,
    ) {
        Some(row) => {
            // As above.
            let _ = push_row(found, row);
            Some(Trouble::OtherSourceRow)
        }
        None => judge_together(alloc, conn, rows, wanted, found),
    }
}

/// What is the matter with rows of objects that are good one by one. It is the first whose object
/// names a maintainer who is not there, or has a span that crosses one before it, and else `named`.
fn judge_together<S: Alter>(
    alloc: Global,
    conn: &mut IdleConnection<S>,
    rows: &[Row],
    wanted: Wanted<'_>,
    found: &mut String,
) -> Option<Trouble>
    ensures { Finds S.Store (is_of_rows wanted.entry.version) conn.old conn.new result }
{
    conn.note_idle();
    let Some(objects) = objects_of(alloc, rows, wanted.source, wanted.version) else {
        return None;
    };
    let loaded: Result<Registry<IndexedBook>, LoadFault> = Registry::from_objects(alloc, objects);
    match loaded {
        Ok(_) => {
            let trouble = judge_names(conn, found);
            return Some(trouble);
        }
        Err(LoadFault::Overlap(number)) => {
            push_numbered(found, rows, number);
            Some(Trouble::Overlap)
        }
        Err(LoadFault::Unnamed(number)) => {
            push_numbered(found, rows, number);
            Some(Trouble::Unnamed)
        }
        Err(_) => None,
    }
}

/// What is the matter with the rows of `named` beside those of a registry: the first that is of no
/// object, and else all of them.
fn judge_names<S: Alter>(conn: &mut IdleConnection<S>, found: &mut String) -> Trouble
    ensures { (version : Version) →
        Finds S.Store (is_of_rows version) conn.old conn.new (Some result) }
{
    if let Ok(rows) = conn.ask(NAMES_ALONE) {
        if let Some(row) = rows.as_slice().first() {
            // Without memory, the message has a part of the row, or names the database alone.
            let _ = push_row(found, row);
            return Trouble::NoObject;
        }
    }
    // Without memory for the table, the message names the database alone.
    let _ = found.push_str(", table named");
    Trouble::OtherRows
}
