//! Why a paragraph is not an object, in the order in which a paragraph is judged: for all that
//! reads objects, and for the code in the report.

ghost use Rattle.std.specs.Prelude.{◌≡◌};
ghost use Rattle.rr_object.specs.Faults.{code_of};
ghost use Rattle.rr_object.specs.declared.object_fault.ObjectFault.TheVariants.{Memory};

use crate::code::Code;
use std::alloc::AllocError;

/// Why a paragraph is not an object of the registry. But for `Memory` these stand in the order in
/// which a paragraph is judged.
#[derive(Clone, Copy, Debug, PartialEq, Eq)]
pub enum ObjectFault {
    /// The paragraph has no attribute, or the first one names no class.
    UnknownClass,
    /// The key is bad; for a route also an origin that is missing, repeated or bad.
    BadKey,
    /// A needed attribute is missing or has no item, or one that stands once is repeated.
    BadCount,
    /// An interpreted attribute has a bad value, or there is a `password` or a `delete`, which
    /// stand in no object.
    BadValue,
    /// The source is not the registry's own.
    OtherSource,
    /// Memory ran out.
    Memory,
}

impl ObjectFault {
    /// The code of an item that is refused for this fault (profile).
    pub fn code(self) -> Code
        ensures { result ≡ code_of self }
    {
        match self {
            ObjectFault::UnknownClass => Code::E02,
            ObjectFault::BadKey => Code::E03,
            ObjectFault::BadCount => Code::E04,
            ObjectFault::BadValue => Code::E05,
            ObjectFault::OtherSource => Code::E06,
            ObjectFault::Memory => Code::E90,
        }
    }
}

impl From<AllocError> for ObjectFault {
    ghost from_gives = { λ _ fault. fault ≡ Memory };

    fn from(_error: AllocError) -> ObjectFault {
        ObjectFault::Memory
    }
}
