//! Tables of version 1, and what migration makes of them.

use crate::databases::{Database, HOLDER, NUMBERS, OldRow, ROOT};
use rr_store::MigrateFault;
use sqlite::{Connection, Error};
use std::process::Abort;
use std::test::Fail;

/// The three tables, of version 1 and with no object.
const TABLES: &[&str] = &[
    "CREATE TABLE IF NOT EXISTS meta (name TEXT NOT NULL PRIMARY KEY, value TEXT NOT NULL) STRICT",
    "CREATE TABLE IF NOT EXISTS object (class INTEGER NOT NULL CHECK (class >= 1 AND class <= 7), \
     okey TEXT NOT NULL, body BLOB NOT NULL, PRIMARY KEY (class, okey)) STRICT",
    "CREATE TABLE IF NOT EXISTS named (maintainer TEXT NOT NULL, class INTEGER NOT NULL, \
     okey TEXT NOT NULL, PRIMARY KEY (maintainer, class, okey)) STRICT",
    "INSERT INTO meta (name, value) VALUES ('version', '1')",
];

/// The root and its AS numbers.
pub const OLD: &[OldRow] = &[
    (1, "ROOT-MNT", ROOT, "ROOT-MNT"),
    (2, "0000-ffff", NUMBERS, "ROOT-MNT"),
];

/// Makes the tables of version 1, with these rows.
pub fn lay<D: Database>(database: &mut D, rows: &[OldRow]) -> Result<(), Error> {
    for sql in TABLES {
        let _count = database.run(sql)?;
    }
    for row in rows {
        database.add(*row)?;
    }
    Ok(())
}

/// Selections, and what they give of the migrated tables: keys of a block have eight digits, and
/// names and the version are written anew.
const ANEW: &[(&str, &[u8])] = &[
    (
        "SELECT okey FROM object WHERE class = 2 ORDER BY okey",
        b"00000000-0000ffff|00010000-ffffffff|",
    ),
    ("SELECT value FROM meta", b"2|"),
    (
        "SELECT okey FROM named WHERE class = 2 ORDER BY okey",
        b"00000000-0000ffff|00010000-ffffffff|",
    ),
];

/// Asserts what is selected.
fn expect_selected<D: Database, R: Abort + AllocGlobal>(
    rt: &R,
    database: &mut D,
    cases: &[(&str, &[u8])],
) -> Result<(), Fail> {
    for (sql, wanted) in cases {
        let found = database.texts(rt.alloc(), sql)?;
        assert!(rt; found.as_slice() == *wanted, "{sql}");
    }
    Ok(())
}

/// Asserts what migration makes of the tables of version 1, and that it makes nothing of them a
/// second time.
fn expect_anew<D: Database + Drop, R: Abort + AllocGlobal>(
    rt: &R,
    mut database: D,
) -> Result<(), Fail> {
    lay(&mut database, OLD)?;
    let (fault, mut database) = database.migrated(rt.alloc(), "ROOT-MNT")?;
    assert_eq!(rt; fault, None);
    expect_selected(rt, &mut database, ANEW)?;
    let (fault, _database) = database.migrated(rt.alloc(), "ROOT-MNT")?;
    assert_eq!(rt; fault, Some(MigrateFault::WrongVersion(2)));
    Ok(())
}

/// Rows of version 1, and why they are not migrated: the root is none of them, or a key has eight
/// digits.
const REFUSED: &[(&[OldRow], MigrateFault)] = &[
    (&[(1, "A-MNT", HOLDER, "A-MNT")], MigrateFault::NoRoot),
    (
        &[
            (1, "ROOT-MNT", ROOT, "ROOT-MNT"),
            (2, "00000000-0000ffff", NUMBERS, "ROOT-MNT"),
        ],
        MigrateFault::BadRow,
    ),
];

fn expect_refused<D: Database + Drop, R: Abort + AllocGlobal>(
    rt: &R,
    mut database: D,
    rows: &[OldRow],
    wanted: MigrateFault,
) -> Result<(), Fail> {
    lay(&mut database, rows)?;
    let (fault, _database) = database.migrated(rt.alloc(), "ROOT-MNT")?;
    assert_eq!(rt; fault, Some(wanted));
    Ok(())
}

/// What is asserted of a database with nothing in it.
#[derive(Clone, Copy)]
enum Claim {
    /// What migration makes of the tables of version 1.
    Anew,
    /// Why these rows of version 1 are not migrated.
    Refused(&'static [OldRow], MigrateFault),
}

fn expect<D: Database + Drop, R: Abort + AllocGlobal>(
    rt: &R,
    database: D,
    claim: Claim,
) -> Result<(), Fail> {
    match claim {
        Claim::Anew => expect_anew(rt, database),
        Claim::Refused(rows, wanted) => expect_refused(rt, database, rows, wanted),
    }
}

fn expect_in_memory<R: Abort + AllocGlobal>(rt: &R, claim: Claim) -> Result<(), Fail> {
    expect(rt, Connection::open_in_memory(rt.alloc())?, claim)
}

#[test]
fn keys_names_and_the_version_are_written_anew_once(rt: HostRuntime) -> Result<(), Fail> {
    expect_in_memory(&rt, Claim::Anew)
}

#[test]
fn other_rows_are_not_migrated(rt: HostRuntime) -> Result<(), Fail> {
    for (rows, wanted) in REFUSED {
        expect_in_memory(&rt, Claim::Refused(rows, *wanted))?;
    }
    Ok(())
}
