//! What keeps items from being handled: the faults of `handling` before it reports.

/// Why the items of a text were not all handled, or not all told.
#[derive(Clone, Copy, Debug, PartialEq, Eq)]
pub(crate) enum HandlingFault {
    /// Memory ran out before the first item.
    Memory,
    /// The line of an item could not be written; that item is the last of so many that were
    /// decided.
    Unwritten {
        /// The items that were decided.
        items: u64,
    },
    /// The ledger stopped at an item, after so many that were decided.
    LedgerStopped {
        /// The items that were decided.
        items: u64,
    },
}
