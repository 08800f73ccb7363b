//! The lines of a text, their kinds and what stands in them: for all of this crate that reads text.
//! By `is_refused` `rr_answer` also refuses queries.

ghost use Rattle.std.specs.Prelude.{◌≡◌, ◌<◌, ◌∷◌, ◌++◌, ◌⊎◌, [], length};
ghost use Rattle.std.specs.Prelude.{true};
ghost use Rattle.std.specs.List.{list_any};
ghost use Rattle.rr_bytes.specs.NameBytes.{begins};
ghost use Rattle.rr_text.specs.Bytes.{is_refused};
ghost use Rattle.rr_text.specs.Lines.{is_blank_line, is_skipped_line, is_paragraph_line};
ghost use Rattle.rr_text.specs.Lines.{is_continuation_sign, line_kind, text_lines, are_whole_lines};
ghost use Rattle.rr_text.specs.Entries.{added_value, opened_value};
ghost use Rattle.rr_text.specs.Faults.{written_name};
ghost use Rattle.rr_text.specs.PrivateParts.{opens_attribute};

use rr_bytes::{ByteSet, cut_around, cut_before, place_of, trim, trim_end};

/// What kind of line a line is (RFC 2622, 2).
#[derive(Clone, Copy, Debug, PartialEq, Eq)]
pub(crate) enum LineKind {
    /// Blanks alone, which ends a paragraph.
    Blank,
    /// A line that begins with `#` or `%`.
    Skipped,
    /// A further line of the value before it.
    Continuation,
    /// The first line of an attribute.
    Opening,
}

impl LineKind {
    /// The kind of a line.
    #[tactic(auto, unfolding(crate::specs::Lines::line_kind))]
    pub(crate) fn of(line: &[u8]) -> LineKind
        ensures { result ≡ line_kind line.now }
    {
        if is_blank_only(line) {
            LineKind::Blank
        } else if begins_skipped(line) {
            LineKind::Skipped
        } else if begins_continuation(line) {
            LineKind::Continuation
        } else {
            LineKind::Opening
        }
    }

    /// Whether such a line is the first of an attribute.
    pub(crate) fn opens_attribute(self) -> bool
        ensures { result ≡ opens_attribute self }
    {
        match self {
            LineKind::Blank | LineKind::Skipped | LineKind::Continuation => false,
            LineKind::Opening => true,
        }
    }
}

/// Whether a byte may stand in skipped lines alone: a control byte of ASCII other than tab, LF and
/// CR (profile).
#[inline]
pub fn is_refused(byte: u8) -> bool
    ensures { result ≡ is_refused byte }
{
    byte.is_ascii_control() & !ByteSet::BlanksAndLineFeeds.has(byte)
}

/// Whether a line is one of blanks alone, which ends a paragraph.
#[inline]
pub(crate) fn is_blank_only(line: &[u8]) -> bool
    ensures { result ≡ is_blank_line line.now }
{
    line.iter()
        .all(|byte| ByteSet::BlanksAndLineFeeds.has(*byte))
}

/// Whether a line begins with `#` or `%`.
#[inline]
pub(crate) fn begins_skipped(line: &[u8]) -> bool
    ensures { result ≡ is_skipped_line line.now }
{
    match line {
        [first, ..] => *first == b'#' || *first == b'%',
        [] => false,
    }
}

/// Whether a line begins with a blank or `+`.
#[inline]
fn begins_continuation(line: &[u8]) -> bool
    ensures { result ≡ begins is_continuation_sign line.now }
{
    match line {
        [first, ..] => ByteSet::BlanksAndLineFeeds.has(*first) || *first == b'+',
        [] => false,
    }
}

/// Whether a line is neither blank nor skipped.
#[inline]
pub(crate) fn is_of_paragraph(line: &[u8]) -> bool
    ensures { result ≡ is_paragraph_line line.now }
{
    !is_blank_only(line) && !begins_skipped(line)
}

/// Whether a line has a byte that only skipped lines may have.
#[inline]
pub(crate) fn has_refused_byte(line: &[u8]) -> bool
    ensures { result ≡ list_any is_refused line.now }
{
    let mut found = false;
    for byte in line {
        found |= is_refused(*byte);
    }
    found
}

/// The first line of a text that is not empty, and what follows it. The line has the LF that ends
/// it; the last one may have none.
pub(crate) fn split_line(text: &[u8]) -> (&[u8], &[u8])
    requires { 0 < length text.now }
    ensures whole { text.now ≡ result.0.now ++ result.1.now }
    ensures lines { text_lines text.now ≡ result.0.now ∷ text_lines result.1.now }
    ensures single { text_lines result.0.now ≡ result.0.now ∷ [] }
    ensures ended { (are_whole_lines result.0.now ≡ true) ⊎ (result.1.now ≡ []) }
    ensures shorter { length result.1.now < length text.now }
{
    match place_of(text, b'\n') {
        Some(place) => text.split_at(place + 1),
        None => text.split_at(text.len()),
    }
}

/// The name that a line opens with.
pub(crate) fn written_name(line: &[u8]) -> &[u8]
    ensures { result.now ≡ written_name line.now }
{
    let (name, _) = cut_before(line, b':');
    trim_end(name, ByteSet::BlanksAndLineFeeds)
}

/// The line of a value that a line opens with.
pub(crate) fn opened_value(line: &[u8]) -> &[u8]
    ensures { result.now ≡ opened_value line.now }
{
    let (_, value) = cut_around(line, b':');
    trim(value, ByteSet::BlanksAndLineFeeds)
}

/// The line that a continuation adds to a value.
#[tactic(auto, using(crate::proofs::EntryLemmas::added_empty))]
pub(crate) fn added_value(line: &[u8]) -> &[u8]
    ensures { result.now ≡ added_value line.now }
{
    match line.split_first() {
        Some((_, rest)) => trim(rest, ByteSet::BlanksAndLineFeeds),
        None => line,
    }
}
