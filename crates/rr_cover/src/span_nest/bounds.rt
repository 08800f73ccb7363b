//! Bounds on the last numbers of a part of the search tree of a nest: `changes` keeps them, and
//! `reading` and `lists` pass by parts for them.

ghost use Rattle.std.specs.Prelude.{◌≡◌};
ghost use Rattle.rr_cover.specs.NestParts.{with_before, with_after};

/// Bounds that a node keeps on the last numbers of its span and of those below it. By them a
/// search passes by sides that have nothing to find.
#[derive(Clone, Copy)]
pub(super) struct Lasts {
    /// No last number of the side before, nor the node's own, is above this one.
    pub(super) before: u32,
    /// No last number of the side after is above this one.
    pub(super) after: u32,
}

impl Lasts {
    /// These bounds, widened so that the side before may have the last number.
    pub(super) fn with_before(self, last: u32) -> Lasts
        ensures { result ≡ with_before self last }
    {
        Lasts {
            before: self.before.max(last),
            after: self.after,
        }
    }

    /// These bounds, widened so that the side after may have the last number.
    pub(super) fn with_after(self, last: u32) -> Lasts
        ensures { result ≡ with_after self last }
    {
        Lasts {
            before: self.before,
            after: self.after.max(last),
        }
    }
}
