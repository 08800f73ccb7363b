//! Desks that a fault of the store stopped.
use crate::desks::{Office, Trial, expect_text, try_in};
use crate::texts::THREE;
use rr_desk::{DeskDumpFault, SubmissionFault};
use sqlite::{Connection, Files, Options};
use sqlite_disk::{Disk, Fuse, Memory};
use std::alloc::Global;
use std::process::Abort;
use std::test::Fail;

/// Tries this with a new desk over a database in these files.
fn try_in_files<D: Disk + Drop, T: Trial, R: Abort + AllocGlobal>(
    rt: &R,
    files: Files<D>,
    trial: &T,
) -> Result<(), Fail> {
    if !files.log.may_be_used() || !files.db.may_be_used() {
        return Err("a disk of no use".into());
    }
    match Connection::open_files(rt.alloc(), files, Options::new(7)) {
        Ok(conn) => try_in(rt, conn, trial),
        Err((error, _left)) => Err(error.into()),
    }
}

/// Tries this with a new desk over a database in files in memory, of which the log fails after a
/// hundred calls.
pub fn try_fused<T: Trial, R: Abort + AllocGlobal>(rt: &R, trial: &T) -> Result<(), Fail> {
    let files = Files {
        log: Fuse::new(Memory::new(rt.alloc()), 100),
        db: Fuse::new(Memory::new(rt.alloc()), u64::MAX),
    };
    try_in_files(rt, files, trial)
}

/// An AS number that is added and deleted.
const PASSING: &str =
    "password: bc\n\naut-num: AS1\nmnt-by: ROOT-MNT\nsource: TEST\n\naut-num: AS1\ndelete: x\n";

/// Submits to a desk until a fault stops it.
pub fn stop<D: Office>(alloc: Global, desk: &mut D) -> Result<(), Fail> {
    for _ in 0..100 {
        if desk.stopped() {
            return Ok(());
        }
        let _found = desk.submitted(alloc, PASSING, usize::MAX, usize::MAX);
    }
    Err("no fault stopped the desk".into())
}

/// Asserts that a desk is stopped, and that it reads and writes nothing of a submission.
fn expect_unread<D: Office, R: Abort + AllocGlobal>(rt: &R, desk: &mut D) {
    assert!(rt; desk.stopped());
    let found = desk.submitted(rt.alloc(), THREE, usize::MAX, usize::MAX);
    assert_eq!(rt; found.answer, Err(SubmissionFault::Stopped));
    assert_eq!(rt; (found.report.len(), found.left), (0, THREE.len()));
}

/// Asserts that a desk which is stopped gives no dump.
fn expect_no_dump<D: Office, R: Abort + AllocGlobal>(rt: &R, desk: &D) {
    let (answer, dump) = desk.dumped(rt.alloc());
    assert_eq!(rt; answer, Err(DeskDumpFault::Stopped));
    assert!(rt; dump.is_empty());
}

/// Asserts that a desk is stopped: it answers nothing else.
pub fn expect_stopped<D: Office, R: Abort + AllocGlobal>(rt: &R, desk: &mut D) -> Result<(), Fail> {
    expect_unread(rt, desk);
    expect_no_dump(rt, desk);
    let (error, answer) = desk.answered(rt.alloc(), "10.0.0.1")?;
    assert_eq!(rt; error, 6);
    expect_text(rt, &answer, "% error 6\n")
}
