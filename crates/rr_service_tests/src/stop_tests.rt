//! A stop at each call of a disk, and the rows that are found after it.

use crate::databases::{
    Database, HOLDER, MOVED, NUMBERS, ROOT, TEN, WHOLE, expect_texts, is_made_of,
};
use crate::migration_tests::{OLD, lay};
use rr_store::OpenFault;
use sqlite::{Alter, Connection, FileStore, Files, Options};
use sqlite_disk::{Crash, Disk, Fuse, Memory};
use std::alloc::Global;
use std::process::Abort;
use std::test::Fail;

/// The block of the AS numbers of more than 16 bits, which migration adds.
const UPPER: &str = "\
as-block:       AS65536 - AS4294967295
mnt-by:         ROOT-MNT
source:         TEST
";

/// More calls than the writes of a test make of one file.
const CALLS: u64 = 2_000;

/// Few pages are kept, and the log is soon copied into the file of the database, so that both files
/// are called often.
const OPTIONS: Options = Options {
    cache_pages: 32,
    spill_pages: 32,
    checkpoint_frames: 8,
    seed: 7,
};

/// One of the files of a database.
#[derive(Clone, Copy, Debug, PartialEq, Eq)]
enum Part {
    Log,
    Database,
}

/// Files in memory with nothing in them.
fn blank(alloc: Global) -> Files<Memory> {
    Files {
        log: Memory::new(alloc),
        db: Memory::new(alloc),
    }
}

/// The files, one of which fails after so many calls.
fn fused(files: Files<Memory>, part: Part, calls: u64) -> Files<Fuse<Memory>> {
    let (log, db) = match part {
        Part::Log => (calls, u64::MAX),
        Part::Database => (u64::MAX, calls),
    };
    Files {
        log: Fuse::new(files.log, log),
        db: Fuse::new(files.db, db),
    }
}

/// What is done with the database of some files.
#[derive(Clone, Copy)]
enum Deed {
    /// Make the tables of version 1, with their rows.
    Lay,
    /// Make a store of the four objects, put the moved one, and take it out.
    Write,
    /// Migrate the tables of version 1.
    Migrate,
    /// Read the objects.
    Read,
}

/// What comes of it.
#[derive(Drop)]
struct Found {
    /// How many writes were done.
    done: usize,
    /// The version of the tables that were read, and none where there are none.
    version: Option<u32>,
    /// The canonical texts of the objects that were read.
    rows: Vec<u8>,
}

/// What comes of so many writes.
fn writes(alloc: Global, done: usize) -> Found {
    Found {
        done,
        version: None,
        rows: Vec::new(alloc),
    }
}

/// What comes of reading these rows of tables of a version.
fn reads(version: u32, rows: Vec<u8>) -> Found {
    Found {
        done: 0,
        version: Some(version),
        rows,
    }
}

/// Does this with a database; answers with what comes of it, and with the database.
fn does<D: Database + Drop>(alloc: Global, database: D, deed: Deed) -> Result<(Found, D), Fail> {
    match deed {
        Deed::Lay => lays(alloc, database),
        Deed::Write => {
            let (done, database) = database.written(alloc)?;
            Ok((writes(alloc, done), database))
        }
        Deed::Migrate => {
            let (fault, database) = database.migrated(alloc, "ROOT-MNT")?;
            Ok((writes(alloc, usize::from(fault.is_none())), database))
        }
        Deed::Read => read(alloc, database),
    }
}

fn lays<D: Database + Drop>(alloc: Global, mut database: D) -> Result<(Found, D), Fail> {
    lay(&mut database, OLD)?;
    Ok((writes(alloc, OLD.len()), database))
}

/// The objects of tables of version 2, or else of those of version 1.
fn read<D: Database + Drop>(alloc: Global, database: D) -> Result<(Found, D), Fail> {
    let (opened, database) = database.opened(alloc, "TEST")?;
    match opened {
        Ok(rows) => Ok((reads(2, rows), database)),
        Err(OpenFault::Store(_)) => Ok((writes(alloc, 0), database)),
        Err(OpenFault::WrongVersion(1)) => {
            let (rows, database) = database.old_objects(alloc)?;
            Ok((reads(1, rows), database))
        }
        Err(_) => Err("rows of no registry".into()),
    }
}

/// Does this with a database that is left then; answers with what comes of it, and with what the
/// database is kept in.
fn does_last<S: Alter + Drop>(
    alloc: Global,
    conn: Connection<S>,
    deed: Deed,
) -> Result<(Found, S), Fail> {
    let (found, conn) = does(alloc, conn, deed)?;
    Ok((found, conn.into_store()))
}

/// The database of the files, or none where the disk fails before.
fn database<D: Disk + Drop>(
    alloc: Global,
    files: Files<D>,
) -> Result<Option<Connection<FileStore<D>>>, Fail> {
    if !files.log.may_be_used() || !files.db.may_be_used() {
        return Err("a disk of no use".into());
    }
    match Connection::open_files(alloc, files, OPTIONS) {
        Ok(conn) => Ok(Some(conn)),
        Err(_) => Ok(None),
    }
}

/// Does this with a database; answers with what comes of it, and with its files.
fn does_in_files<D: Disk + Drop>(
    alloc: Global,
    conn: Connection<FileStore<D>>,
    deed: Deed,
) -> Result<(Found, Files<D>), Fail> {
    let (found, store) = does_last(alloc, conn, deed)?;
    Ok((found, store.close()))
}

/// Does this with the database of the files, until their disk fails; answers with what comes of it,
/// and with the files. None where the disk fails before.
fn run<D: Disk + Drop>(
    alloc: Global,
    files: Files<D>,
    deed: Deed,
) -> Result<Option<(Found, Files<D>)>, Fail> {
    match database(alloc, files)? {
        Some(conn) => Ok(Some(does_in_files(alloc, conn, deed)?)),
        None => Ok(None),
    }
}

/// What is read after a stop.
fn read_again<D: Crash + Drop>(alloc: Global, mut files: Files<D>) -> Result<Found, Fail> {
    files.log.crash();
    files.db.crash();
    match run(alloc, files, Deed::Read)? {
        Some((found, _files)) => Ok(found),
        None => Err("no database".into()),
    }
}

/// How many writes of this deed were done on these files, and what is read after the stop. None
/// where the disk fails before.
fn stopped<D: Crash + Drop>(
    alloc: Global,
    files: Files<D>,
    deed: Deed,
) -> Result<Option<(usize, Found)>, Fail> {
    match run(alloc, files, deed)? {
        Some((found, files)) => Ok(Some((found.done, read_again(alloc, files)?))),
        None => Ok(None),
    }
}

/// The objects after none, one, two and three of the writes.
const WRITTEN: [&[&str]; 4] = [
    &[],
    &[HOLDER, ROOT, WHOLE, TEN],
    &[HOLDER, ROOT, WHOLE, MOVED],
    &[HOLDER, ROOT, WHOLE],
];

/// Whether the objects are those after so many writes, or after one more.
fn is_written(done: usize, text: &[u8]) -> bool {
    WRITTEN
        .iter()
        .skip(done)
        .take(2)
        .any(|texts| is_made_of(text, texts))
}

/// How many of the three writes were done at the stop of this file's call, where the disk did not
/// fail before. Asserts what stands after the stop.
fn expect_written<R: Abort + AllocGlobal>(
    rt: &R,
    part: Part,
    calls: u64,
) -> Result<Option<usize>, Fail> {
    let files = fused(blank(rt.alloc()), part, calls);
    let Some((done, found)) = stopped(rt.alloc(), files, Deed::Write)? else {
        return Ok(None);
    };
    assert!(rt; found.version != Some(1), "{part:?} {calls}");
    assert!(rt; is_written(done, &found.rows), "{part:?} {calls}");
    Ok(Some(done))
}

/// Stops the three writes at each call of this file: how many were done at a stop, and last of all
/// the three.
fn stop_writes<R: Abort + AllocGlobal>(rt: &R, part: Part) -> Result<[bool; 4], Fail> {
    let mut seen = [false; 4];
    for calls in 0..CALLS {
        if let Some(done) = expect_written(rt, part, calls)? {
            if let Some(is_seen) = seen.get_mut(done) {
                *is_seen = true;
            }
            if done == 3 {
                return Ok(seen);
            }
        }
    }
    Err("the writes make more calls".into())
}

#[test]
fn a_stop_leaves_the_rows_before_a_write_or_after_it(rt: HostRuntime) -> Result<(), Fail> {
    assert_eq!(rt; stop_writes(&rt, Part::Log)?, [true; 4]);
    let _seen = stop_writes(&rt, Part::Database)?;
    Ok(())
}

fn copied(alloc: Global, file: &Memory) -> Result<Memory, Fail> {
    let mut copy = Memory::new(alloc);
    copy.write_at(0, file.bytes())?;
    copy.sync()?;
    Ok(copy)
}

/// Copies of both files.
fn copies(alloc: Global, files: &Files<Memory>) -> Result<Files<Memory>, Fail> {
    Ok(Files {
        log: copied(alloc, &files.log)?,
        db: copied(alloc, &files.db)?,
    })
}

/// Files with a registry of version 1.
fn laid(alloc: Global) -> Result<Files<Memory>, Fail> {
    match run(alloc, blank(alloc), Deed::Lay)? {
        Some((_found, files)) => Ok(files),
        None => Err("no database".into()),
    }
}

/// The objects of version 1, and the migrated ones.
const BEFORE: &[&str] = &[ROOT, NUMBERS];

const BEHIND: &[&str] = &[ROOT, NUMBERS, UPPER];

/// Whether the files, one of which fails after so many calls, were migrated, and whether their
/// tables are migrated after the stop, where the disk did not fail before. Asserts what stands
/// after it.
fn expect_migrated<R: Abort + AllocGlobal>(
    rt: &R,
    old: &Files<Memory>,
    part: Part,
    calls: u64,
) -> Result<Option<(bool, bool)>, Fail> {
    let files = fused(copies(rt.alloc(), old)?, part, calls);
    let Some((done, found)) = stopped(rt.alloc(), files, Deed::Migrate)? else {
        return Ok(None);
    };
    let is_done = done == 1;
    let is_new = found.version == Some(2);
    assert!(rt;
        is_new || (!is_done && found.version == Some(1)),
        "{part:?} {calls}"
    );
    expect_texts(rt, &found.rows, if is_new { BEHIND } else { BEFORE })?;
    Ok(Some((is_done, is_new)))
}

/// Stops the migration at each call of this file: whether a stop left the tables of version 1, and
/// whether one left those of version 2.
fn stop_migration<R: Abort + AllocGlobal>(
    rt: &R,
    old: &Files<Memory>,
    part: Part,
) -> Result<[bool; 2], Fail> {
    let mut seen = [false; 2];
    for calls in 0..CALLS {
        if let Some((done, is_new)) = expect_migrated(rt, old, part, calls)? {
            seen = [seen[0] || !is_new, seen[1] || is_new];
            if done {
                return Ok(seen);
            }
        }
    }
    Err("migration makes more calls".into())
}

#[test]
fn a_stop_leaves_tables_of_version_1_or_migrated_ones(rt: HostRuntime) -> Result<(), Fail> {
    let old = laid(rt.alloc())?;
    assert_eq!(rt; stop_migration(&rt, &old, Part::Log)?, [true; 2]);
    let _seen = stop_migration(&rt, &old, Part::Database)?;
    Ok(())
}
