//! Paragraphs read piece by piece: cuts, and readers that fail or never end.

use crate::text_tests::{CANONICAL, FOLDED, is_printed};
use rr_io::{Counted, Cut, READ_SIZE, Reader};
use rr_text::{Paragraphs, TextFault};
use std::alloc::Global;
use std::io;
use std::io::Read;
use std::process::Abort;
use std::test::Fail;

/// A text in two pieces.
#[derive(Drop)]
struct Halves<'t> {
    first: &'t [u8],
    second: &'t [u8],
}

impl Read for Halves<'_> {
    fn read(&mut self, buf: &mut [u8]) -> io::Result<usize> {
        if self.first.is_empty() {
            self.first = self.second;
            self.second = &[];
        }
        self.first.read(buf)
    }
}

/// A line of one byte a read, without an end. It counts its reads.
#[derive(Drop)]
struct Unending {
    reads: u64,
}

impl Read for Unending {
    fn read(&mut self, buf: &mut [u8]) -> io::Result<usize> {
        if buf.is_empty() {
            return Ok(0);
        }
        self.reads = self.reads.saturating_add(1);
        buf[0] = b'%';
        Ok(1)
    }
}

/// Whether a reader gives, in its next paragraph, one that is printed so.
fn gives<S: Reader>(
    alloc: Global,
    paragraphs: &mut Paragraphs,
    reader: &mut S,
    printed: &str,
) -> Result<bool, TextFault> {
    match paragraphs.next(alloc, reader)? {
        Some(paragraph) => Ok(is_printed(&paragraph, printed)),
        None => Ok(false),
    }
}

/// Asserts that a reader gives one paragraph, printed so, and then none for good.
fn expect_one<S: Reader, R: Abort + AllocGlobal>(
    rt: &R,
    reader: &mut S,
    printed: &str,
) -> Result<(), TextFault> {
    let mut paragraphs = Paragraphs::new(rt.alloc())?;
    assert!(rt; gives(rt.alloc(), &mut paragraphs, reader, printed)?);
    assert!(rt; paragraphs.next(rt.alloc(), reader)?.is_none());
    assert!(rt; paragraphs.next(rt.alloc(), reader)?.is_none());
    Ok(())
}

#[test]
fn a_text_is_one_paragraph_however_it_is_cut(rt: HostRuntime) -> Result<(), Fail> {
    let text = FOLDED.as_bytes();
    for cut in 0..=text.len() {
        let (first, second) = text.split_at(cut);
        let mut reader = Counted::new(Halves { first, second });
        expect_one(&rt, &mut reader, CANONICAL)?;
    }
    Ok(())
}

/// A text with a faulty paragraph between two good ones.
const MIDDLE: &[u8] = b"% mirror\n\na: 1\n\n\nfaulty\n% x\n \t\nb: 2";

#[test]
fn paragraphs_after_a_fault_are_read(rt: HostRuntime) -> Result<(), Fail> {
    let alloc = rt.alloc();
    let mut reader = Counted::new(MIDDLE);
    let mut paragraphs = Paragraphs::new(alloc)?;
    assert!(rt; gives(alloc, &mut paragraphs, &mut reader, "a:              1\n")?);
    let fault = paragraphs.next(alloc, &mut reader).err();
    assert_eq!(rt; fault, Some(TextFault::NoColon));
    assert!(rt; gives(alloc, &mut paragraphs, &mut reader, "b:              2\n")?);
    assert!(rt; paragraphs.next(alloc, &mut reader)?.is_none());
    Ok(())
}

/// Asserts that the paragraphs of a reader end with this fault, twice.
fn expect_fault<S: Reader, R: Abort + AllocGlobal>(
    rt: &R,
    paragraphs: &mut Paragraphs,
    reader: &mut S,
    fault: TextFault,
) {
    for _ in 0..2 {
        let found = paragraphs.next(rt.alloc(), reader).err();
        assert_eq!(rt; found, Some(fault));
    }
}

/// How many bytes can be read of three paragraphs, and how many of these come.
const LEFT: &[(usize, usize)] = &[(5, 0), (6, 1), (11, 1), (12, 1), (13, 2), (18, 2)];

#[test]
fn a_failed_read_ends_the_paragraphs_for_good(rt: HostRuntime) -> Result<(), Fail> {
    for (left, count) in LEFT {
        let text = b"a: 1\n\nb: 2\n \nc: 3\n".as_slice();
        let mut reader = Cut::new(Counted::new(text), READ_SIZE, *left);
        let mut paragraphs = Paragraphs::new(rt.alloc())?;
        for _ in 0..*count {
            assert!(rt;
                paragraphs.next(rt.alloc(), &mut reader)?.is_some(),
                "after {left} bytes"
            );
        }
        expect_fault(&rt, &mut paragraphs, &mut reader, TextFault::Read);
        assert_eq!(rt; reader.failed_reads(), 1);
    }
    Ok(())
}

#[test]
fn a_text_without_an_end_is_given_up(rt: HostRuntime) -> Result<(), Fail> {
    let mut reader = Counted::new(Unending { reads: 0 });
    let mut paragraphs = Paragraphs::new(rt.alloc())?;
    expect_fault(&rt, &mut paragraphs, &mut reader, TextFault::Endless);
    assert_eq!(rt; reader.into_inner().reads, 16_777_216);
    Ok(())
}
