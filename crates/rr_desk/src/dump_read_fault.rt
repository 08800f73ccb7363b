//! Why a dump cannot be read, as `read_dump` tells it.

ghost use Rattle.std.specs.Prelude.{◌≡◌};
ghost use Rattle.rr_desk.specs.declared.dump_read_fault.DumpReadFault.TheVariants.{Memory};

use rr_object::Code;
use std::alloc::AllocError;

/// Why a dump was not read. Entries are counted from 1; those before the one that a fault names are
/// objects of the source.
#[derive(Clone, Copy, Debug, PartialEq, Eq)]
pub enum DumpReadFault {
    /// A read failed.
    Read,
    /// The dump had no end within 16,777,216 reads.
    Endless,
    /// The text of this entry has a fault.
    Text(u64),
    /// This entry is not an object of the source; a submission of it is refused with this code.
    Object(u64, Code),
    /// Memory ran out: the dump was read to its end, or nothing of it was.
    Memory,
}

impl From<AllocError> for DumpReadFault {
    ghost from_gives = { λ _ fault. fault ≡ Memory };

    fn from(_refused: AllocError) -> DumpReadFault {
        DumpReadFault::Memory
    }
}
