//! Why the nest did not insert a value: a load of `rr_registry` reports it.

/// Why a value was not inserted at a span. The value comes back with the fault.
#[derive(Debug, Drop, PartialEq, Eq)]
pub enum InsertFault<T> {
    /// The span crosses one that is held.
    Overlap(T),
    /// Memory ran out.
    Memory(T),
}
