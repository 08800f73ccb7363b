//! Entries of `mnt-routes`. `grants` reads them, and `rr_auth` asks them who decides about a route.

ghost use Rattle.std.specs.Prelude.{◌≡◌, IfOk};

use rr_number::{Name, Range};
use std::alloc::AllocError;
use std::marker::Model;

/// An entry of `mnt-routes`: a maintainer, and for which prefixes it may authorise routes
/// (RFC 2725, 10). A range that its operator drops is not read into it.
#[derive(Debug, Drop)]
pub struct Grant {
    name: Name,
    any: bool,
    ranges: Vec<Range>,
}

impl Model for Grant {
    ghost use Rattle.rr_object.specs.Parts.{GrantParts};

    ghost Value = { GrantParts };

    ghost view = { λ g. record { name = g.name; any = g.any; ranges = g.ranges.items } };
}

impl Grant {
    ghost use Rattle.rr_object.specs.Grants.{with_range};

    /// The entry of this maintainer: for each prefix, or for those that one of the ranges admits.
    pub(crate) fn new(name: Name, any: bool, ranges: Vec<Range>) -> Grant
        ensures { result ≡ record { name = name; any = any; ranges = ranges.items } }
    {
        Grant { name, any, ranges }
    }

    /// The entry for one range more, where there is one; the error is that memory ran out.
    pub(crate) fn with_range(self, range: Option<Range>) -> Result<Grant, AllocError>
        ensures { IfOk result (λ grant. grant ≡ with_range self range) }
    {
        let Grant {
            name,
            any,
            mut ranges,
        } = self;
        if let Some(range) = range {
            ranges.push(range)?;
        }
        Ok(Grant { name, any, ranges })
    }

    /// The maintainer of the entry.
    pub fn name(&self) -> &Name
        ensures { result.now ≡ self.now.name }
    {
        &self.name
    }

    /// Whether the entry is for each prefix.
    pub fn any(&self) -> bool
        ensures { result ≡ self.now.any }
    {
        self.any
    }

    /// The ranges of the entry. Unless it is for each prefix, it is for those that one of them
    /// admits.
    pub fn ranges(&self) -> &[Range]
        ensures { result.now ≡ self.now.ranges }
    {
        self.ranges.as_slice()
    }
}
