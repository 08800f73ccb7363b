//! Spans as texts, two ends with a dash between them: for `span` and `as_span`. What an end is,
//! `address` and `as_number` say; `prefix` also prints its address as an end.

ghost use Rattle.std.specs.Prelude.{◌≡◌, ◌+◌, ◌≤◌, List, Option, length};
ghost use Rattle.std.specs.Prelude.{ℕ};
ghost use Rattle.rr_number.specs.EndsTexts.{ends_between, ends_text};
ghost use Rattle.rr_number.specs.NumberTextParts.{Appends};

use crate::number_text::{NUMBER_SIZE, NumberText};
use crate::span::Span;

/// How the ends of a kind of spans are spelled and printed.
pub(crate) trait End {
    // the number that the text spells, if it does
    ghost end_of: { List ℕ → Option ℕ };

    // the number as it is printed
    ghost end_text: { ℕ → List ℕ };

    /// The number that the whole text spells, as `end_of` says; `None` where it spells none.
    fn read_end(text: &[u8]) -> Option<u32>
        ensures { result ≡ end_of text.now };

    /// Appends the number as `end_text` prints it: at most 15 bytes, as an address has. `text` must
    /// have room for 15.
    fn push_end(number: u32, text: &mut NumberText)
        requires { length text.old + 15 ≤ NUMBER_SIZE }
        ensures { Appends 15 (end_text number) text.old text.new };
}

/// The span between the ends that two texts spell, as `E` says, if they do and the first is not
/// above the last; otherwise `None`.
#[inline]
#[tactic(auto, unfolding(crate::specs::EndsTexts::ends_between))]
pub(crate) fn read_between<E: End>(first: &[u8], last: &[u8]) -> Option<Span>
    ensures { result ≡ ends_between E.end_of first.now last.now }
{
    let first = E::read_end(first)?;
    let last = E::read_end(last)?;
    if first <= last {
        Some(Span::new(first, last))
    } else {
        None
    }
}

/// The span's ends, as `E` prints them, with ` - ` between them.
pub(crate) fn ends_text<E: End>(span: Span) -> NumberText
    ensures { result ≡ ends_text E.end_text span }
{
    let mut text = NumberText::new();
    E::push_end(span.first(), &mut text);
    text.push_str(" - ");
    E::push_end(span.last(), &mut text);
    text
}
