//! Spans of numbers of 32 bits: of addresses, the keys of inetnums, and of AS numbers, of which
//! `as_span` makes blocks. `rr_cover` finds values by them.

ghost use Rattle.std.specs.Prelude.{◌≡◌, ◌≤◌, Some};
ghost use Rattle.rr_io.specs.Sending.{Writes};
ghost use Rattle.rr_number.specs.ExactReads.{ReadsExactly};
ghost use Rattle.rr_number.specs.Shown.{Shows};
ghost use Rattle.rr_number.specs.SpanTexts.{IsSpanText, spelled_span, span_text};
ghost use Rattle.rr_number.specs.Spans.{IsSpan, covers, crosses, meets, size};

pub mod laws;

use crate::address::Address;
use crate::dash::cut_at_dash;
use crate::ends::{ends_text, read_between};
use crate::number_text::NumberText;
use crate::prefix::Prefix;
use rr_io::{Writer, write_all};
use std::marker::Model;
use std::{fmt, io};

/// The numbers from a first to a last one, both included; the first is not above the last, which is
/// below 2^32. Spans are ordered by their first number, then by their last (profile).
#[derive(Clone, Copy, Debug, PartialEq, Eq, PartialOrd, Ord)]
pub struct Span {
    first: u32,
    last: u32,
}

impl Model for Span {
    ghost use Rattle.rr_number.specs.Spans.{Ends, IsSpan};

    ghost Value = { Ends };

    ghost view = { λ a. record { first = a.first; last = a.last } };

    ghost invariant = { λ a. IsSpan (record { first = a.first; last = a.last }) };

    ghost inverse = { λ s. record { first = s.first; last = s.last } };
}

impl Span {
    /// The span from `first` to `last`; `first` must not be above `last`.
    pub fn new(first: u32, last: u32) -> Span
        requires { first ≤ last }
        ensures { result ≡ record { first = first; last = last } }
    {
        Span { first, last }
    }

    /// The first number of the span.
    pub fn first(self) -> u32
        ensures { result ≡ self.first }
    {
        self.first
    }

    /// The last number of the span, which is not below the first, and is below 2^32.
    pub fn last(self) -> u32
        ensures { Shows IsSpan self self.last result }
    {
        self.last
    }

    /// How many numbers the span has, both ends among them.
    pub fn size(self) -> u64
        ensures { result ≡ size self }
    {
        u64::from(self.last - self.first) + 1
    }

    /// Whether each number of `other` lies in this span (RFC 2725, 9).
    pub fn covers(self, other: Span) -> bool
        ensures { result ≡ covers self other }
    {
        self.first <= other.first && other.last <= self.last
    }

    /// Whether some number lies in both spans.
    fn meets(self, other: Span) -> bool
        ensures { result ≡ meets self other }
    {
        self.first <= other.last && other.first <= self.last
    }

    /// Whether some number lies in both spans, and neither covers the other (profile).
    pub fn crosses(self, other: Span) -> bool
        ensures { result ≡ crosses self other }
    {
        self.meets(other) && !self.covers(other) && !other.covers(self)
    }

    /// The span of addresses that the whole text spells: two addresses with a dash between them, or
    /// a prefix, which spells the span of its addresses. The first address is not above the last;
    /// blanks (spaces, tabs, CRs) may stand on either side of the dash. `None` where the text is
    /// spelled otherwise (profile).
    pub fn read(text: &[u8]) -> Option<Span>
        ensures { ReadsExactly IsSpanText spelled_span text.now result }
    {
        read_span(text)
    }

    /// The first and the last address of the span, as `Address::text` prints them, with ` - `
    /// between them (profile).
    #[tactic(auto, unfolding(crate::specs::SpanTexts::span_text))]
    pub fn text(self) -> NumberText
        ensures { result ≡ span_text self }
    {
        ends_text::<Address>(self)
    }

    /// Writes the text of the span of addresses, as `write_all` does. The error is that a write
    /// failed: the writer has then taken the beginning of the text, and not all.
    pub fn print_to<W: Writer>(&self, writer: &mut W) -> io::Result<()>
        ensures { Writes (W.told writer.old) (W.told writer.new)
            (span_text self.now) result }
    {
        write_all(writer, self.text().as_bytes())
    }
}

impl fmt::Display for Span {
    ghost output = { λ s. Some (span_text s) };

    fn fmt<W: fmt::Write>(&self, f: &mut fmt::Formatter<W>) -> fmt::Result {
        f.pad(self.text().as_str())
    }
}

#[inline]
#[tactic(auto, unfolding(crate::specs::SpanTexts::spelled_span))]
fn read_span(text: &[u8]) -> Option<Span>
    ensures { result ≡ spelled_span text.now }
{
    match cut_at_dash(text) {
        Some((first, last)) => read_between::<Address>(first, last),
        None => Some(Prefix::read(text)?.span()),
    }
}
