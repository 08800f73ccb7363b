//! What an expansion answers, of either kind: `rr_answer` prints it.

use rr_graph::ReachFault;
use rr_number::SetName;
use std::alloc::AllocError;

/// What a set stands for, and the names of sets that it reaches and that are missing: an expansion
/// makes it, as the fields say.
#[derive(Drop)]
pub struct Members<T> {
    /// What is in the set, in ascending order, without repeats.
    pub found: Vec<T>,
    /// The names that are reached and of which there is no set, in ascending order, without
    /// repeats. `AS-ANY` is never among them and, where the set stands for ranges, nor is `RS-ANY`.
    pub missing: Vec<SetName>,
}

/// Why a set is not expanded.
#[derive(Clone, Copy, Debug, PartialEq, Eq)]
pub enum ExpandFault {
    /// There is no such set.
    NoSuchSet,
    /// There is such a set, and its expansion would go over the limit.
    TooMany,
    /// Memory ran out.
    Memory,
}

/// A walk that goes over its limit is an expansion that does, and memory that ran out stays so.
impl From<ReachFault> for ExpandFault {
    ghost use Rattle.std.specs.Prelude.{◌≡◌};
    ghost use Rattle.rr_sets.specs.Faults.{expand_fault_of};

    ghost from_gives = { λ fault result. result ≡ expand_fault_of fault };

    fn from(fault: ReachFault) -> ExpandFault {
        match fault {
            ReachFault::TooMany => ExpandFault::TooMany,
            ReachFault::Memory => ExpandFault::Memory,
        }
    }
}

/// The fault is that memory ran out.
impl From<AllocError> for ExpandFault {
    ghost use Rattle.std.specs.Prelude.{◌≡◌};
    ghost use Rattle.rr_sets.specs.declared.members.ExpandFault.TheVariants.{Memory};

    ghost from_gives = { λ _ fault. fault ≡ Memory };

    fn from(_refused: AllocError) -> ExpandFault {
        ExpandFault::Memory
    }
}
