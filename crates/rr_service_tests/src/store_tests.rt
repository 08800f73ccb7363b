//! Stores over databases in memory, and rows that are none of the objects of a registry.

use crate::databases::{Database, HOLDER, ROOT, TEN, WHOLE, expect_texts};
use rr_store::{CreateFault, OpenFault};
use sqlite::{Connection, Error};
use std::alloc::Global;
use std::process::Abort;
use std::test::Fail;

const ELEVEN: &str = "\
inetnum:        11.0.0.0 - 11.255.255.255
mnt-by:         A-MNT
source:         TEST
";

/// The body of one object gets another blank.
const SPACED: &str = "UPDATE object SET body = x'696e65746e756d3a20202020202020202031302e302e302e30\
     202d2031302e3235352e3235352e3235350a6d6e742d62793a202020202020202020412d4d4e540a\
     736f757263653a202020202020202020544553540a' WHERE okey = '0a000000-0affffff'";

/// Makes a store of the four objects in a database where there is none.
fn filled<D: Database + Drop, R: Abort + AllocGlobal>(rt: &R, database: D) -> Result<D, Fail> {
    let (fault, database) = database.created(rt.alloc())?;
    assert_eq!(rt; fault, None);
    Ok(database)
}

/// Asserts that the store, opened again, has the objects of the texts. Whom they name is seen only
/// as far as opening judges it: it refuses rows of `named` that are not those of the objects.
fn expect_all<D: Database + Drop, R: Abort + AllocGlobal>(
    rt: &R,
    database: D,
    texts: &[&str],
) -> Result<(), Fail> {
    let (found, _database) = database.opened(rt.alloc(), "TEST")?;
    expect_texts(rt, &found?, texts)
}

/// Asserts what a new store gives.
fn expect_given<D: Database + Drop, R: Abort + AllocGlobal>(
    rt: &R,
    database: D,
) -> Result<(), Fail> {
    let database = filled(rt, database)?;
    expect_all(rt, database, &[HOLDER, ROOT, WHOLE, TEN])
}

/// Asserts what a store gives after a put and a removal.
fn expect_changed<D: Database + Drop, R: Abort + AllocGlobal>(
    rt: &R,
    database: D,
) -> Result<(), Fail> {
    let database = filled(rt, database)?.changed(rt.alloc(), ELEVEN, TEN)?;
    expect_all(rt, database, &[HOLDER, ROOT, WHOLE, ELEVEN])
}

const META: &str = "DELETE FROM meta";

const OBJECT: &str = "DELETE FROM object";

const NAMED: &str = "DELETE FROM named";

/// Statements, and what a store answers that is made over another after them: a row of any table
/// leaves no room.
const VACANT: &[(&[&str], Option<CreateFault>)] = &[
    (&[], Some(CreateFault::NotEmpty)),
    (&[OBJECT, NAMED], Some(CreateFault::NotEmpty)),
    (&[META, NAMED], Some(CreateFault::NotEmpty)),
    (&[META, OBJECT], Some(CreateFault::NotEmpty)),
    (&[META, OBJECT, NAMED], None),
];

fn run_all<D: Database>(database: &mut D, statements: &[&str]) -> Result<(), Error> {
    for sql in statements {
        let _count = database.run(sql)?;
    }
    Ok(())
}

/// Asserts what a store answers that is made over another, after these statements.
fn expect_room<D: Database + Drop, R: Abort + AllocGlobal>(
    rt: &R,
    database: D,
    statements: &[&str],
    wanted: Option<CreateFault>,
) -> Result<(), Fail> {
    let mut database = filled(rt, database)?;
    run_all(&mut database, statements)?;
    let (fault, _database) = database.created(rt.alloc())?;
    assert_eq!(rt; fault, wanted);
    Ok(())
}

/// Statements with a source, and what a store of the four objects answers that is opened after one
/// of them.
const OTHERS: &[(&str, &str, Option<OpenFault>)] = &[
    ("UPDATE meta SET value = '2'", "TEST", None),
    (
        "UPDATE meta SET value = '3'",
        "TEST",
        Some(OpenFault::WrongVersion(3)),
    ),
    (
        "UPDATE meta SET value = 'x'",
        "TEST",
        Some(OpenFault::BadRow),
    ),
    ("DELETE FROM meta", "TEST", Some(OpenFault::BadRow)),
    (
        "DELETE FROM named WHERE class = 1",
        "TEST",
        Some(OpenFault::BadRow),
    ),
    (
        "DELETE FROM object WHERE class = 1",
        "TEST",
        Some(OpenFault::BadRow),
    ),
    (SPACED, "TEST", Some(OpenFault::BadRow)),
    (
        "UPDATE meta SET value = '2'",
        "OTHER",
        Some(OpenFault::BadRow),
    ),
];

/// Makes a store of the four objects, and changes rows by this statement.
fn altered<D: Database + Drop, R: Abort + AllocGlobal>(
    rt: &R,
    database: D,
    sql: &str,
) -> Result<D, Fail> {
    let mut database = filled(rt, database)?;
    assert!(rt; database.run(sql)? > 0, "no row: {sql}");
    Ok(database)
}

/// Why the store is not opened for this source.
fn fault_of<D: Database + Drop>(
    alloc: Global,
    database: D,
    source: &str,
) -> Result<Option<OpenFault>, Fail> {
    let (found, _database) = database.opened(alloc, source)?;
    Ok(found.err())
}

/// Asserts what a store of the four objects answers that is opened after this statement.
fn expect_fault<D: Database + Drop, R: Abort + AllocGlobal>(
    rt: &R,
    database: D,
    (sql, source): (&str, &str),
    wanted: Option<OpenFault>,
) -> Result<(), Fail> {
    let database = altered(rt, database, sql)?;
    let found = fault_of(rt.alloc(), database, source)?;
    assert_eq!(rt; found, wanted, "{sql}");
    Ok(())
}

/// What is asserted of a database with nothing in it.
#[derive(Clone, Copy)]
enum Claim {
    /// What a new store gives.
    Given,
    /// What a store gives after a put and a removal.
    Changed,
    /// What a store answers that is made over another, after these statements.
    Room(&'static [&'static str], Option<CreateFault>),
    /// What a store answers that is opened after this statement, for this source.
    Fault(&'static str, &'static str, Option<OpenFault>),
}

fn expect<D: Database + Drop, R: Abort + AllocGlobal>(
    rt: &R,
    database: D,
    claim: Claim,
) -> Result<(), Fail> {
    match claim {
        Claim::Given => expect_given(rt, database),
        Claim::Changed => expect_changed(rt, database),
        Claim::Room(statements, wanted) => expect_room(rt, database, statements, wanted),
        Claim::Fault(sql, source, wanted) => expect_fault(rt, database, (sql, source), wanted),
    }
}

fn expect_in_memory<R: Abort + AllocGlobal>(rt: &R, claim: Claim) -> Result<(), Fail> {
    expect(rt, Connection::open_in_memory(rt.alloc())?, claim)
}

#[test]
fn a_new_store_gives_its_objects_in_order(rt: HostRuntime) -> Result<(), Fail> {
    expect_in_memory(&rt, Claim::Given)
}

#[test]
fn a_closed_store_is_opened_as_it_was(rt: HostRuntime) -> Result<(), Fail> {
    expect_in_memory(&rt, Claim::Changed)
}

#[test]
fn a_row_of_any_table_leaves_no_room(rt: HostRuntime) -> Result<(), Fail> {
    for (statements, wanted) in VACANT {
        expect_in_memory(&rt, Claim::Room(statements, *wanted))?;
    }
    Ok(())
}

#[test]
fn other_rows_are_not_opened(rt: HostRuntime) -> Result<(), Fail> {
    for (sql, source, wanted) in OTHERS {
        expect_in_memory(&rt, Claim::Fault(sql, source, *wanted))?;
    }
    Ok(())
}
