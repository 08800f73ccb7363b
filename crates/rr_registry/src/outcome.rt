//! What became of an item: what a registry or a ledger returns for it, and a report tells.

use rr_object::Code;

/// What became of an item.
#[derive(Clone, Copy, Debug, PartialEq, Eq)]
pub enum Outcome {
    /// The object was added.
    Added,
    /// The object took the place of the registered one with its key.
    Changed,
    /// The object has the text of the registered one; nothing changed.
    Unchanged,
    /// The object was deleted.
    Deleted,
    /// The item was refused; nothing changed.
    Refused(Code),
}
