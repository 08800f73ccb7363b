//! Thousands of texts of a seeded generator, each submitted whole and in pieces.
use crate::books::{cut_report, report, taken};
use crate::texts::OPENING;
use rand_core::utils::NextWord;
use rand_pcg::Pcg32;
use rr_index::IndexedBook;
use rr_io::Counted;
use rr_registry::{Keeper, PlainBook, Registry};
use std::alloc::{AllocError, Global};
use std::process::Abort;
use std::test::Fail;

const TEXTS: u32 = 2_000;

/// What the texts are made of, beside single bytes of every value.
const PARTS: [&str; 16] = [
    "inetnum: 10.0.0.0/8\nmnt-by: ROOT-MNT\nsource: TEST\n\n",
    "inetnum: 10.1.0.0 - 10.1.255.255\nmnt-by: A-MNT\nmnt-routes: A-MNT {10.0.0.0/8^+}\n\
     source: TEST\n\n",
    "mntner: A-MNT\nauth: SHA256-PW a:00\nmnt-by: A-MNT\nsource: TEST\n",
    "mntner: A-MNT\nauth: NONE\nmnt-by: ROOT-MNT\nsource: TEST\n\n",
    "aut-num: AS1\nmnt-by: ROOT-MNT\nsource: TEST\n\n",
    "route: 10.0.0.0/8\norigin: AS1\nmnt-by: ROOT-MNT\nsource: TEST\n\n",
    "as-set: AS-X\nmembers: AS1, AS-Y\nmnt-by: ROOT-MNT\nsource: TEST\n\n",
    "inetnum: 10.0.0.0/8\ndelete: x\n\n",
    "delete: x\n",
    "# a comment\n",
    "+ and further\n",
    " ",
    "\t\r\n",
    "\n\n\n",
    ":",
    "nocolon\n",
];

/// A text of up to 15 pieces, now and then with an item that is too large.
fn any_text(alloc: Global, words: &mut Pcg32) -> Result<Vec<u8>, AllocError> {
    let mut text = Vec::from_slice(alloc, b"password: bc\n\n")?;
    if words.next_word() % 256 == 0 {
        add_lines(&mut text)?;
    }
    add_pieces(words, &mut text)?;
    Ok(text)
}

/// Adds lines of a paragraph that is too large.
fn add_lines(text: &mut Vec<u8>) -> Result<(), AllocError> {
    for _ in 0..1_500 {
        text.extend_from_slice(b"descr: a line of a paragraph that is too large\n")?;
    }
    Ok(())
}

fn add_pieces(words: &mut Pcg32, text: &mut Vec<u8>) -> Result<(), AllocError> {
    for _ in 0..words.next_word() % 16 {
        add_piece(words, text)?;
    }
    Ok(())
}

/// Adds a part, a part cut short, or a byte.
fn add_piece(words: &mut Pcg32, text: &mut Vec<u8>) -> Result<(), AllocError> {
    let [kind, which, place, byte] = words.next_word().to_le_bytes();
    let part = PARTS[usize::from(which % 16)].as_bytes();
    let one = [byte];
    let piece = match kind % 4 {
        0 => &one[..],
        1 => &part[..usize::from(place).min(part.len())],
        _ => part,
    };
    text.extend_from_slice(piece)
}

/// How many paragraphs a text has, told by its blank lines.
fn paragraphs(text: &[u8]) -> u64 {
    let mut count = 0u64;
    let mut inside = false;
    for line in text.split(|byte| *byte == b'\n') {
        if is_blank(line) {
            inside = false;
        } else if !inside && !matches!(line.first(), Some(b'#' | b'%')) {
            inside = true;
            count = count.wrapping_add(1);
        }
    }
    count
}

fn is_blank(line: &[u8]) -> bool {
    line.iter()
        .all(|byte| matches!(*byte, b' ' | b'\t' | b'\r'))
}

/// Asserts the lines of a report: one for each item, and the number of them. The first paragraph is
/// of passwords alone.
fn expect_lines<R: Abort + AllocGlobal>(rt: &R, text: &[u8], report: &[u8]) -> Result<(), Fail> {
    let count = paragraphs(text);
    let last = format!(in rt.alloc(); "% items {}\n", count.saturating_sub(1))?;
    assert!(rt; report.ends_with(last.as_bytes()));
    let lines = report.iter().filter(|byte| **byte == b'\n').count();
    assert_eq!(rt; lines as u64, count);
    Ok(())
}

/// Submits a text that comes in pieces of at most so many bytes; asserts the report.
fn expect_cut<B: Keeper, R: Abort + AllocGlobal>(
    rt: &R,
    registry: &mut Registry<B>,
    text: &[u8],
    step: usize,
    wanted: &[u8],
) -> Result<(), Fail> {
    let found = cut_report(rt.alloc(), registry, text, step)?;
    assert_eq!(rt; found.as_slice(), wanted);
    Ok(())
}

/// Submits a text whole; asserts the lines of the report, and answers with it.
fn whole_report<B: Keeper, R: Abort + AllocGlobal>(
    rt: &R,
    registry: &mut Registry<B>,
    text: &[u8],
) -> Result<Vec<u8>, Fail> {
    let whole = report(rt.alloc(), registry, &mut Counted::new(text))?;
    expect_lines(rt, text, &whole)?;
    Ok(whole)
}

/// Submits the texts to a book whole, and to another kind of book by single bytes and in pieces:
/// the reports are the same.
fn expect_reports<P: Keeper + Drop, I: Keeper + Drop, R: Abort + AllocGlobal>(
    rt: &R,
) -> Result<(), Fail> {
    let mut words = Pcg32::new(42, 54);
    let mut plain = taken::<P>(rt.alloc(), OPENING.as_bytes())?;
    let mut by_bytes = taken::<I>(rt.alloc(), OPENING.as_bytes())?;
    let mut by_pieces = taken::<I>(rt.alloc(), OPENING.as_bytes())?;
    for _ in 0..TEXTS {
        let text = any_text(rt.alloc(), &mut words)?;
        let step = usize::from(words.next_word().to_le_bytes()[0]) + 1;
        let whole = whole_report(rt, &mut plain, &text)?;
        expect_cut(rt, &mut by_bytes, &text, 1, &whole)?;
        expect_cut(rt, &mut by_pieces, &text, step, &whole)?;
    }
    Ok(())
}

#[test]
fn any_text_has_its_report_however_it_is_cut(rt: HostRuntime) -> Result<(), Fail> {
    expect_reports::<PlainBook, IndexedBook, _>(&rt)
}
