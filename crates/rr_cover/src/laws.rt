//! Laws of maps of spans, for readers and for the proofs of other crates. Nothing calls these
//! functions.

ghost use Rattle.rr_cover.specs.SpanMapLaws.{ClosestIsOne, CoveringIsWhole, ListsRise};

/// Where no two spans of a map cross, at most one of them, with one value, is closest to a span
/// (RFC 2725, 9).
pub fn closest_is_one<T>()
    ensures { ClosestIsOne T }
{}

/// The list of the spans of a map that cover a span has exactly these, in order of first, then last
/// number, without repeats (profile).
pub fn lists_are_whole<T>()
    ensures covering { CoveringIsWhole T }
    ensures rise { ListsRise T }
{}
