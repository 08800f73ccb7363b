//! What a desk keeps after submissions, and after faults of readers, writers and the store.
use crate::desks::{Office, Trial, expect_kept, expect_report, try_new};
use crate::stopped::expect_stopped;
use crate::texts::{THREE, THREE_ADDED};
use rr_desk::{CreateFault, Done, SubmissionFault};
use sqlite::{Constraint, Error, ErrorCode};
use std::process::Abort;
use std::test::Fail;

/// What comes of the three inetnums where a read fails inside the last.
const UNREAD: &str = "\
1 inetnum 10.0.0.0 - 10.255.255.255: added
2 inetnum 11.0.0.0 - 11.255.255.255: added
% read fault after 2 items
";

/// What comes of them afterwards.
const REST: &str = "\
1 inetnum 10.0.0.0 - 10.255.255.255: unchanged
2 inetnum 11.0.0.0 - 11.255.255.255: unchanged
3 inetnum 12.0.0.0 - 12.255.255.255: added
% items 3
";

/// The answer to a submission of three items, all of which were decided.
const ALL: Result<Done, SubmissionFault> = Ok(Done {
    items: 3,
    refused: 0,
});

/// Submits the three to a desk, whose reads fail after so many bytes; asserts the answer, the
/// report, and how many of them the desk keeps.
fn expect_submitted<D: Office, R: Abort + AllocGlobal>(
    rt: &R,
    desk: &mut D,
    given: usize,
    wanted: (Result<Done, SubmissionFault>, &str, usize),
) -> Result<(), Fail> {
    let (answer, report, added) = wanted;
    expect_report(rt, desk, (THREE, given), answer, report)?;
    assert!(rt; !desk.stopped());
    expect_kept(rt, desk, added)
}

/// Submits the three to a desk that the tables keep, and asserts what they keep of them.
fn expect_rest<D: Office + Drop, R: Abort + AllocGlobal>(rt: &R, mut desk: D) -> Result<(), Fail> {
    expect_submitted(rt, &mut desk, usize::MAX, (ALL, REST, 3))?;
    let desk = desk.after(rt.alloc(), &[])?;
    expect_kept(rt, &desk, 3)?;
    let fault = desk.refused_another(rt.alloc())?;
    assert_eq!(rt; fault, Some(CreateFault::NotEmpty));
    Ok(())
}

/// The three are submitted with a read that fails inside the last of them, and then whole, each
/// time to the desk that the tables keep. No other desk is made in its place.
struct Filling;

impl Trial for Filling {
    fn tried<D: Office + Drop, R: Abort + AllocGlobal>(
        &self,
        rt: &R,
        mut desk: D,
    ) -> Result<(), Fail> {
        let unread = Err(SubmissionFault::ReadFault { items: 2 });
        expect_submitted(rt, &mut desk, THREE.len() - 5, (unread, UNREAD, 2))?;
        expect_rest(rt, desk.after(rt.alloc(), &[])?)
    }
}

#[test]
fn a_desk_keeps_what_it_told(rt: HostRuntime) -> Result<(), Fail> {
    try_new(&rt, &Filling)
}

/// The three are submitted with a writer that fails after so many bytes, by which so many items are
/// decided.
#[derive(Drop)]
struct Room {
    room: usize,
    items: u64,
}

impl Trial for Room {
    /// Asserts the answer, that a prefix of the report was written, and how many of the three stand
    /// in the tables.
    fn tried<D: Office + Drop, R: Abort + AllocGlobal>(
        &self,
        rt: &R,
        mut desk: D,
    ) -> Result<(), Fail> {
        let Room { room, items } = *self;
        let found = desk.submitted(rt.alloc(), THREE, usize::MAX, room);
        assert_eq!(rt;
            found.answer,
            Err(SubmissionFault::WriteFault { items }),
            "with room for {room} bytes"
        );
        assert_eq!(rt; found.report.len(), room);
        assert!(rt; THREE_ADDED.as_bytes().starts_with(&found.report));
        expect_kept(rt, &desk.begun_again(rt.alloc())?, items as usize)
    }
}

/// For how many bytes of the report there is room, and how many items are decided by then.
const ROOMS: &[(usize, u64)] = &[(0, 1), (42, 1), (43, 2), (85, 2), (86, 3), (138, 3)];

#[test]
fn a_failed_write_leaves_the_items_told(rt: HostRuntime) -> Result<(), Fail> {
    for (room, items) in ROOMS {
        let (room, items) = (*room, *items);
        try_new(&rt, &Room { room, items })?;
    }
    Ok(())
}

/// An index that refuses a second row of one key.
const ONE_KEY: &str = "CREATE UNIQUE INDEX one_key ON object (okey)";

/// Three inetnums of the root, the second of which has the key of the first as-block.
const SECOND_REFUSED: &str = "\
password: bc

inetnum: 10.0.0.0/8
mnt-by: ROOT-MNT
source: TEST

inetnum: 0.0.0.0/16
mnt-by: ROOT-MNT
source: TEST

inetnum: 12.0.0.0/8
mnt-by: ROOT-MNT
source: TEST
";

/// What comes of them.
const STOPPED: &str = "\
1 inetnum 10.0.0.0 - 10.255.255.255: added
2 inetnum 0.0.0.0 - 0.0.255.255: refused E91
% stopped after 1 items
";

/// What comes of the three others afterwards.
const BEGUN_AGAIN: &str = "\
1 inetnum 10.0.0.0 - 10.255.255.255: unchanged
2 inetnum 11.0.0.0 - 11.255.255.255: added
3 inetnum 12.0.0.0 - 12.255.255.255: added
% items 3
";

/// Why the database refuses a second row of one key.
const TAKEN: Error = Error::SqliteFailure(ErrorCode::ConstraintViolation(Constraint::Unique));

/// Asserts that the second of its items stops a desk whose database has that index.
fn expect_refused<D: Office, R: Abort + AllocGlobal>(rt: &R, desk: &mut D) -> Result<(), Fail> {
    let wanted = Err(SubmissionFault::LedgerStopped { items: 1 });
    assert_eq!(rt; desk.cause(), None);
    expect_report(rt, desk, (SECOND_REFUSED, usize::MAX), wanted, STOPPED)?;
    assert_eq!(rt; desk.cause(), Some(TAKEN));
    expect_stopped(rt, desk)
}

/// Asserts that a desk which was stopped begins again at what its tables hold.
fn expect_begun_again<D: Office + Drop, R: Abort + AllocGlobal>(
    rt: &R,
    desk: D,
) -> Result<(), Fail> {
    let mut desk = desk.begun_again(rt.alloc())?;
    assert!(rt; !desk.stopped());
    expect_kept(rt, &desk, 1)?;
    expect_submitted(rt, &mut desk, usize::MAX, (ALL, BEGUN_AGAIN, 3))
}

/// The database of a desk refuses a second row of one key.
struct Stop;

impl Trial for Stop {
    fn tried<D: Office + Drop, R: Abort + AllocGlobal>(&self, rt: &R, desk: D) -> Result<(), Fail> {
        let mut desk = desk.after(rt.alloc(), &[ONE_KEY])?;
        expect_refused(rt, &mut desk)?;
        expect_begun_again(rt, desk)
    }
}

#[test]
fn a_stopped_desk_begins_again_at_its_tables(rt: HostRuntime) -> Result<(), Fail> {
    try_new(&rt, &Stop)
}
