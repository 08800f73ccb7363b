//! Laws of spans, for readers and for the proofs of other crates. Nothing calls these functions.

ghost use Rattle.std.specs.Prelude.{◌≡◌};
ghost use Rattle.rr_number.specs.Spans.{Ends, span_cmp};
ghost use Rattle.rr_number.specs.SpanLaws.{CoveringIsInclusion, MeetingIsSharing, CoversItself};
ghost use Rattle.rr_number.specs.SpanLaws.{CoversFurther, CoversBothWays, CrossesBothWays};
ghost use Rattle.rr_number.specs.SpanLaws.{ApartOrNested, CoverIsLarger, OneNumber, SizesAdd};
ghost use Rattle.rr_number.specs.SpanLaws.{SpansAreOrdered};

use crate::as_span::AsSpan;
use crate::span::Span;

/// A span covers another exactly where each number of the other lies in it, and two spans meet
/// exactly where some number lies in both.
pub fn spans_are_sets()
    ensures inclusion { CoveringIsInclusion }
    ensures sharing { MeetingIsSharing }
{}

/// Covering is a partial order: each span covers itself and what a covered one covers, and only
/// equal ones cover each other.
pub fn covering_is_an_order()
    ensures itself { CoversItself }
    ensures further { CoversFurther }
    ensures both { CoversBothWays }
{}

/// Where two spans do not cross, they do not meet, or one covers the other. A span crosses another
/// exactly where the other crosses it.
pub fn spans_are_apart_or_nested_or_cross()
    ensures symmetric { CrossesBothWays }
    ensures nested { ApartOrNested }
{}

/// The size counts the numbers: it is 1 for one number, and where a span is cut in two, it is the
/// sum of the sizes of both. A span is larger than any other that it covers.
pub fn size_counts_numbers()
    ensures one { OneNumber }
    ensures add { SizesAdd }
    ensures larger { CoverIsLarger }
{}

/// Spans, and blocks of AS numbers, are ordered by their first number, then by their last. The
/// order is total, and only equal ones tie.
pub fn spans_are_ordered()
    ensures derived { (s t : Ends) → ⟦<Span as Ord>⟧.cmp s t ≡ span_cmp s t }
    ensures blocks { (s t : Ends) → ⟦<AsSpan as Ord>⟧.cmp s t ≡ span_cmp s t }
    ensures ordered { SpansAreOrdered }
{}
