//! Blocks of AS numbers, which are read, printed and ordered here: the keys of as-blocks.

ghost use Rattle.std.specs.Prelude.{◌≡◌, Some};
ghost use Rattle.rr_io.specs.Sending.{Writes};
ghost use Rattle.rr_number.specs.AsSpans.{IsAsSpan, IsAsSpanText, as_span_of, as_span_text};
ghost use Rattle.rr_number.specs.ExactReads.{ReadsExactly};
ghost use Rattle.rr_number.specs.Shown.{Shows};

use crate::dash::cut_at_dash;
use crate::ends::{ends_text, read_between};
use crate::number_text::NumberText;
use crate::{AsNumber, Span};
use rr_io::{Writer, write_all};
use std::marker::Model;
use std::{fmt, io};

/// The AS numbers from a first to a last one, both included, as the key of an as-block has them
/// (RFC 2725, 9). The first is not above the last, which is at most 4294967295. Blocks are ordered
/// by the first number, then by the last (profile).
#[derive(Clone, Copy, Debug, PartialEq, Eq, PartialOrd, Ord)]
pub struct AsSpan {
    span: Span,
}

impl Model for AsSpan {
    ghost use Rattle.rr_number.specs.AsSpans.{IsAsSpan};
    ghost use Rattle.rr_number.specs.Spans.{Ends};

    ghost Value = { Ends };

    ghost view = { λ a. a.span };

    ghost invariant = { λ a. IsAsSpan a.span };

    ghost inverse = { λ s. record { span = s } };
}

impl AsSpan {
    /// The block of the AS numbers of this span.
    pub fn of(span: Span) -> Self
        ensures { result ≡ span }
    {
        // No number of a span is above the greatest AS number.
        let _last = span.last();
        AsSpan { span }
    }

    /// The span of the block's numbers: the first is not above the last, which is at most
    /// 4294967295.
    pub fn span(self) -> Span
        ensures { Shows IsAsSpan self self result }
    {
        self.span
    }

    /// The block that the whole text spells: two AS numbers, as `AsNumber::read` reads them, with
    /// `-` between them. The first is not above the last; blanks (spaces, tabs, CRs) may stand on
    /// either side of the `-`. `None` where the text spells none (profile).
    pub fn read(text: &[u8]) -> Option<Self>
        ensures { ReadsExactly IsAsSpanText as_span_of text.now result }
    {
        read_block(text)
    }

    /// The printed text: the first and the last AS number, as `AsNumber::text` prints them, with
    /// ` - ` between them (profile).
    pub fn text(self) -> NumberText
        ensures { result ≡ as_span_text self }
    {
        ends_text::<AsNumber>(self.span)
    }

    /// Writes the printed text, as `write_all` does. The error is that a write failed: the writer
    /// has then taken the beginning of the text, and not all.
    pub fn print_to<W: Writer>(&self, writer: &mut W) -> io::Result<()>
        ensures { Writes (W.told writer.old) (W.told writer.new)
            (as_span_text self.now) result }
    {
        write_all(writer, self.text().as_bytes())
    }
}

/// The block that the text spells, if it does.
fn read_block(text: &[u8]) -> Option<AsSpan>
    ensures { result ≡ as_span_of text.now }
{
    let (first, last) = cut_at_dash(text)?;
    let span = read_between::<AsNumber>(first, last)?;
    Some(AsSpan { span })
}

impl fmt::Display for AsSpan {
    ghost output = { λ s. Some (as_span_text s) };

    fn fmt<W: fmt::Write>(&self, f: &mut fmt::Formatter<W>) -> fmt::Result {
        f.pad(self.text().as_str())
    }
}
