//! Worked texts, and what no clause says.

use rr_text::{Paragraph, TextFault, meaning, next_paragraph};
use std::process::Abort;
use std::test::Fail;

/// A text with CR LF at each line end but the last, folded values and a skipped line.
pub(crate) const FOLDED: &str = "\
Mntner: A-MNT\r
descr: first # note\r
\tsecond\r
+\r
% skipped\r
+third\r
auth: SHA256-PW\r
\x20ab:ba7816bf8f01cfea414140de5dae2223b00361a396177a9cb410ff61f20015ad\r
mnt-by: A-MNT\r
source: test";

/// Its canonical text.
pub(crate) const CANONICAL: &str = "\
mntner:         A-MNT
descr:          first # note
                second
+
                third
auth:           SHA256-PW
                ab:ba7816bf8f01cfea414140de5dae2223b00361a396177a9cb410ff61f20015ad
mnt-by:         A-MNT
source:         test
";

/// Whether a paragraph is printed so.
pub(crate) fn is_printed(paragraph: &Paragraph, wanted: &str) -> bool {
    paragraph.text() == wanted.as_bytes()
}

/// Asserts the fault of a text's first paragraph.
fn expect_fault<R: Abort + AllocGlobal>(rt: &R, text: &[u8], fault: TextFault) {
    let found = next_paragraph(rt.alloc(), text, 0).err();
    assert_eq!(rt; found, Some(fault), "of {text:?}");
}

#[test]
fn meaning_leaves_comments_out(rt: HostRuntime) -> Result<(), Fail> {
    let found = next_paragraph(rt.alloc(), FOLDED.as_bytes(), 0)?;
    let (paragraph, _) = found.ok_or("no paragraph")?;
    let descr = paragraph.attributes().nth(1).ok_or("descr")?;
    assert_eq!(rt; descr.lines(rt.alloc())?.len(), 4);
    let said = meaning(rt.alloc(), &descr)?;
    assert_eq!(rt; said.as_slice(), b"first second  third".as_slice());
    Ok(())
}

/// Texts, and their faults: that of the first faulty line.
const FAULTS: &[(&str, TextFault)] = &[
    ("a: b\x00\n", TextFault::BadByte),
    ("a: b\x7f\n", TextFault::BadByte),
    (" \x01\n", TextFault::BadByte),
    ("nocolon\x1f\n", TextFault::BadByte),
    (" a: b\n", TextFault::FirstContinues),
    ("+\n", TextFault::FirstContinues),
    ("\ra: b\n", TextFault::FirstContinues),
    ("1a: b\x00\n", TextFault::BadByte),
    ("a: \x01\nnocolon\n1: c\n", TextFault::BadByte),
    (" a\nnocolon\n1: c\x00\n", TextFault::FirstContinues),
    ("nocolon\na\x00: b\n", TextFault::NoColon),
    ("nocolon\n1a: b\n", TextFault::NoColon),
    ("a b\n", TextFault::NoColon),
    ("1a: b\nnocolon\n", TextFault::BadName),
    (": b\n", TextFault::BadName),
    ("a b: c\n", TextFault::BadName),
    ("a: b\n c\n9: d\n e\x00\n", TextFault::BadName),
    ("% x\x00\n+a\n", TextFault::FirstContinues),
    // Names of 65 and of 64 bytes, of which the second begins with a dash.
    (
        "a-_0aaaaaaaaaaaaaaaaaaaaaaaaaaaaaaaaaaaaaaaaaaaaaaaaaaaaaaaaaaaaa: x",
        TextFault::BadName,
    ),
    (
        "-_0aaaaaaaaaaaaaaaaaaaaaaaaaaaaaaaaaaaaaaaaaaaaaaaaaaaaaaaaaaaaa: x",
        TextFault::BadName,
    ),
];

#[test]
fn the_first_faulty_line_decides(rt: HostRuntime) {
    for (text, fault) in FAULTS {
        expect_fault(&rt, text.as_bytes(), *fault);
    }
}

/// Texts without a paragraph.
const SKIPPED: &[&str] = &["", "\n\n", "% one\n# two", " \t\r\n%\n\n#\n \n"];

#[test]
fn skipped_lines_alone_are_no_paragraph(rt: HostRuntime) -> Result<(), Fail> {
    for text in SKIPPED {
        assert!(rt; next_paragraph(rt.alloc(), text.as_bytes(), 0)?.is_none());
    }
    Ok(())
}
