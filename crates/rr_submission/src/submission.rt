//! How a submission ended, as `submit` answers it: the count of its items, or why it was cut short.

/// How many items a submission had, and how many of them were refused.
#[derive(Clone, Copy, Debug, PartialEq, Eq)]
pub struct Done {
    /// The items.
    pub items: u64,
    /// Those that were refused.
    pub refused: u64,
}

/// Why a submission was cut short; `items` were decided before that.
#[derive(Clone, Copy, Debug, PartialEq, Eq)]
pub enum SubmissionFault {
    /// A read failed, or the text had no end within 16,777,216 reads.
    ReadFault {
        /// The items that were decided.
        items: u64,
    },
    /// A write of the report failed, in the line of an item or in the last line.
    WriteFault {
        /// The items that were decided; if the line of an item could not be written, it is one of
        /// them.
        items: u64,
    },
    /// The ledger stopped at an item.
    LedgerStopped {
        /// The items that were decided.
        items: u64,
    },
    /// Memory ran out before the first item.
    Memory,
    /// The ledger was stopped before the submission: nothing was read, decided or written. (The
    /// ending `Stopped` goes with `LedgerStopped`.)
    Stopped,
}
