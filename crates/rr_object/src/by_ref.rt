//! What `mbrs-by-ref` says. `object_reading` makes it, and `object` keeps it and answers by it.

ghost use Rattle.std.specs.Prelude.{◌≡◌};

use rr_number::Name;
use std::marker::Model;

/// Whose objects may say by `member-of` that they belong to a set (RFC 2622, 5).
#[derive(Debug, Drop)]
pub struct ByRef {
    any: bool,
    names: Vec<Name>,
}

impl Model for ByRef {
    ghost use Rattle.rr_object.specs.Parts.{ByRefParts};

    ghost Value = { ByRefParts };

    ghost view = { λ b. record { any = b.any; names = b.names.items } };
}

impl ByRef {
    /// These maintainers' objects, and anybody's if `any`.
    pub(crate) fn new(any: bool, names: Vec<Name>) -> ByRef
        ensures { result ≡ record { any = any; names = names.items } }
    {
        ByRef { any, names }
    }

    /// Whether anybody's objects may say that they belong to the set.
    pub fn any(&self) -> bool
        ensures { result ≡ self.now.any }
    {
        self.any
    }

    /// The maintainers that are named: their objects may say that they belong to the set. Where
    /// `any` holds, those of all others may, too.
    pub fn names(&self) -> &[Name]
        ensures { result.now ≡ self.now.names }
    {
        self.names.as_slice()
    }
}
