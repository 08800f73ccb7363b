//! The names `AS-ANY` and `RS-ANY`, which code spells here alone, and definitions in `AnySets`
//! alone: for `name` and `set_name`.

/// The name of the set of all ASes (RFC 2622, 5).
pub(crate) const AS_ANY: &[u8] = b"AS-ANY";

/// The name of the set of all routes (RFC 2622, 5).
pub(crate) const RS_ANY: &[u8] = b"RS-ANY";
