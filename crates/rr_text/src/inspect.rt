//! What is wrong with lines and blocks, for all that reads a block as a paragraph.

ghost use Rattle.std.specs.Prelude.{◌≡◌, Some, None};
ghost use Rattle.rr_text.specs.Lines.{text_lines};
ghost use Rattle.rr_text.specs.Faults as faults;

use crate::line::{LineKind, has_refused_byte, split_line};
use crate::text_fault::TextFault;
use rr_bytes::{ByteSet, is_attribute_name, place_of, trim_end};

/// The fault of a line that opens an attribute and has no refused byte: that it has no colon, or no
/// name of an attribute before it.
fn opening_fault(line: &[u8]) -> Option<TextFault>
    ensures { result ≡ faults.opening_fault line.now }
{
    match place_of(line, b':') {
        None => Some(TextFault::NoColon),
        Some(place) => {
            let (before, _) = line.split_at(place);
            if is_attribute_name(trim_end(before, ByteSet::BlanksAndLineFeeds)) {
                None
            } else {
                Some(TextFault::BadName)
            }
        }
    }
}

/// The fault of a line, of which it is known whether it is the first of its block.
#[tactic(auto, unfolding(crate::specs::Faults::line_fault))]
fn line_fault(line: &[u8], is_first: bool) -> Option<TextFault>
    ensures { result ≡ faults.line_fault is_first line.now }
{
    match LineKind::of(line) {
        LineKind::Blank | LineKind::Skipped => None,
        LineKind::Continuation => {
            if has_refused_byte(line) {
                Some(TextFault::BadByte)
            } else if is_first {
                Some(TextFault::FirstContinues)
            } else {
                None
            }
        }
        LineKind::Opening => {
            if has_refused_byte(line) {
                Some(TextFault::BadByte)
            } else {
                opening_fault(line)
            }
        }
    }
}

/// The first fault of the lines of a text that does not begin a block.
fn later_fault(text: &[u8]) -> Option<TextFault>
    ensures { result ≡ faults.later_fault (text_lines text.now) }
{
    let mut rest = text;
    'lines: while !rest.is_empty() {
        let (line, after) = split_line(rest);
        let fault = line_fault(line, false);
        if fault.is_some() {
            return fault;
        }
        rest = after;
    }
    None
}

/// The fault of the first faulty line of a block.
pub(crate) fn block_fault(block: &[u8]) -> Option<TextFault>
    ensures { result ≡ faults.block_fault (text_lines block.now) }
{
    if block.is_empty() {
        return None;
    }
    let (line, after) = split_line(block);
    match line_fault(line, true) {
        Some(fault) => Some(fault),
        None => later_fault(after),
    }
}
