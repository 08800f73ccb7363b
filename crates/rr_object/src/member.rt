//! Members of sets, as `members` reads them of objects and `rr_sets` follows them.

use rr_number::{AsNumber, Operator, Range, SetName};

/// What a set's `members` names beside ranges (RFC 2622, 5).
#[derive(Debug, PartialEq, Eq, PartialOrd, Ord, Drop)]
pub enum MemberSet {
    /// An autonomous system; in a route-set, the routes that it originates.
    AutNum(AsNumber),
    /// A set, `AS-ANY` and `RS-ANY` among them.
    Set(SetName),
}

/// An item of a set's `members` (RFC 2622, 5). A range that its operator drops is none.
#[derive(Debug, PartialEq, Eq, PartialOrd, Ord, Drop)]
pub enum Member {
    /// A range of prefixes, its operator applied.
    Range(Range),
    /// An autonomous system or a set, with a range operator, which is plain in an as-set.
    Set(MemberSet, Operator),
}
