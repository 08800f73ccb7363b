//! Verdicts on items: what `judge` answers, and `rr_registry` carries out.

use rr_object::Code;

/// What is to be done with an item.
#[derive(Clone, Copy, Debug, PartialEq, Eq)]
pub enum Verdict {
    /// The object is new and is added.
    Add,
    /// The object takes the place of the stored one.
    Change,
    /// The object has the paragraph of the stored one: nothing is to be done.
    Unchanged,
    /// The stored object is deleted.
    Delete,
    /// The item is refused, and the registry stays as it is.
    Refuse(Code),
}
