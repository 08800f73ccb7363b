//! Submissions whose reader or writer fails in mid-stream.
use crate::books::{source, taken};
use crate::texts::OPENING;
use crate::told::expect_text;
use rr_index::IndexedBook;
use rr_io::{Counted, Cut, Writer};
use rr_registry::{Keeper, Registry};
use rr_submission::{Done, SubmissionFault, submit};
use std::alloc::Global;
use std::io;
use std::process::Abort;
use std::test::Fail;

/// Three inetnums of the root.
const THREE: &str = "\
password: bc

inetnum: 10.0.0.0/8
mnt-by: ROOT-MNT
source: TEST

inetnum: 11.0.0.0/8
mnt-by: ROOT-MNT
source: TEST

inetnum: 12.0.0.0/8
mnt-by: ROOT-MNT
source: TEST
";

const ADDED: &str = "\
1 inetnum 10.0.0.0 - 10.255.255.255: added
2 inetnum 11.0.0.0 - 11.255.255.255: added
3 inetnum 12.0.0.0 - 12.255.255.255: added
% items 3
";

/// The same where a read fails before the first is complete.
const NONE_READ: &str = "% read fault after 0 items\n";

/// The same where a read fails inside the second.
const ONE_READ: &str = "\
1 inetnum 10.0.0.0 - 10.255.255.255: added
% read fault after 1 items
";

/// The same where a read fails inside the third.
const TWO_READ: &str = "\
1 inetnum 10.0.0.0 - 10.255.255.255: added
2 inetnum 11.0.0.0 - 11.255.255.255: added
% read fault after 2 items
";

/// Submits the three where the reader fails after so many bytes and the writer after others;
/// answers with what is answered, and with the bytes written.
fn submit_cut<B: Keeper>(
    alloc: Global,
    registry: &mut Registry<B>,
    (given, room): (usize, usize),
) -> Result<(Result<Done, SubmissionFault>, Vec<u8>), Fail> {
    let source = source(alloc)?;
    let mut reader = Cut::new(Counted::new(THREE.as_bytes()), 7, given);
    let mut writer = Cut::new(Counted::new(Vec::new(alloc)), 5, room);
    let done = submit(alloc, registry, &source, &mut reader, &mut writer);
    Ok((done, writer.into_inner().into_inner()))
}

/// Asserts how many of the three stand.
fn expect_stand<B: Keeper, R: Abort + AllocGlobal>(
    rt: &R,
    registry: &Registry<B>,
    items: u64,
) -> Result<(), Fail> {
    let stand = registry.objects(rt.alloc())?.len() as u64;
    assert_eq!(rt; stand, items.saturating_add(4));
    Ok(())
}

/// Asserts what comes of the three: what is answered, that this prefix of the report was written,
/// and how many stand.
fn expect_cut<B: Keeper + Drop, R: Abort + AllocGlobal>(
    rt: &R,
    (given, room): (usize, usize),
    wanted: Result<Done, SubmissionFault>,
    told: &str,
    items: u64,
) -> Result<(), Fail> {
    let mut registry = taken::<B>(rt.alloc(), OPENING.as_bytes())?;
    let (done, written) = submit_cut(rt.alloc(), &mut registry, (given, room))?;
    assert_eq!(rt; done, wanted, "{given} bytes to read, room for {room}");
    let prefix = &told.as_bytes()[..room.min(told.len())];
    assert!(rt; written.as_slice() == prefix, "room for {room}");
    expect_stand(rt, &registry, items)
}

/// How many of the three are decided where there is room for so many bytes of lines.
fn decided(room: usize) -> u64 {
    match room {
        0..=42 => 1,
        43..=85 => 2,
        _ => 3,
    }
}

#[test]
fn a_failed_write_leaves_the_items_told(rt: HostRuntime) -> Result<(), Fail> {
    for room in 0..=140 {
        let items = decided(room);
        let wanted = if room < 139 {
            Err(SubmissionFault::WriteFault { items })
        } else {
            Ok(Done { items, refused: 0 })
        };
        expect_cut::<IndexedBook, HostRuntime>(&rt, (usize::MAX, room), wanted, ADDED, items)?;
    }
    Ok(())
}

/// How many of the three are complete where so many bytes can be read, and the report on these.
fn complete(given: usize) -> (u64, &'static str) {
    match given {
        0..=64 => (0, NONE_READ),
        65..=115 => (1, ONE_READ),
        _ => (2, TWO_READ),
    }
}

#[test]
fn a_failed_read_leaves_the_items_before_it(rt: HostRuntime) -> Result<(), Fail> {
    for given in 0..=THREE.len() {
        let (items, told) = complete(given);
        let wanted = Err(SubmissionFault::ReadFault { items });
        expect_cut::<IndexedBook, HostRuntime>(&rt, (given, usize::MAX), wanted, told, items)?;
    }
    for room in 0..=113 {
        let items = decided(room).min(2);
        let wanted = if room < 86 {
            SubmissionFault::WriteFault { items }
        } else {
            SubmissionFault::ReadFault { items }
        };
        expect_cut::<IndexedBook, HostRuntime>(
            &rt,
            (THREE.len() - 5, room),
            Err(wanted),
            TWO_READ,
            items,
        )?;
    }
    Ok(())
}

/// A writer that counts its calls, and those of them that end with a line.
#[derive(Drop)]
struct Calls<W> {
    inner: W,
    calls: u64,
    line_ends: u64,
}

impl<W: Writer> Writer for Calls<W> {
    ghost told = { λ c. W.told c.inner };

    fn write(&mut self, bytes: &[u8]) -> io::Result<usize> {
        self.calls = self.calls.saturating_add(1);
        if bytes.ends_with(b"\n") {
            self.line_ends = self.line_ends.saturating_add(1);
        }
        self.inner.write(bytes)
    }

    fn failed_writes(&self) -> u64 {
        self.inner.failed_writes()
    }
}

/// Asserts that each line of the report on the three goes out in one write.
fn expect_lines<B: Keeper + Drop, R: Abort + AllocGlobal>(rt: &R) -> Result<(), Fail> {
    let mut registry = taken::<B>(rt.alloc(), OPENING.as_bytes())?;
    let mut writer = Calls {
        inner: Counted::new(Vec::new(rt.alloc())),
        calls: 0,
        line_ends: 0,
    };
    let mut reader = Counted::new(THREE.as_bytes());
    let source = source(rt.alloc())?;
    let _done = submit(rt.alloc(), &mut registry, &source, &mut reader, &mut writer)?;
    let Calls {
        inner,
        calls,
        line_ends,
    } = writer;
    assert_eq!(rt; (calls, line_ends), (4, 4));
    expect_text(rt, &inner.into_inner(), ADDED, "the report is whole")
}

#[test]
fn each_line_is_written_in_one_call(rt: HostRuntime) -> Result<(), Fail> {
    expect_lines::<IndexedBook, HostRuntime>(&rt)
}
