//! What names, of maintainers, sources and sets, have in common: bytes, which are compared and
//! printed. For `Name` and `SetName`.

ghost use Rattle.std.specs.Prelude.{nat_eq, Some};
ghost use Rattle.std.proofs.Common.{rules};
ghost use Rattle.std.specs.Cmp.{partial_order_from_own_ties};
ghost use Rattle.std.specs.Cmp.Lexicographic.{pointwise, slice_cmp};
ghost use Rattle.std.specs.Cmp.Rules.{comparing};
ghost use Rattle.std.specs.Ordering.{as_partial_cmp, nat_cmp};

use std::cmp::Ordering;
use std::fmt;
use std::marker::Model;

/// A name's bytes, as it is printed. Names are ordered by them (profile).
#[derive(Debug, Drop)]
pub struct NameText {
    pub(crate) bytes: Vec<u8>,
}

impl Model for NameText {
    ghost use Rattle.std.specs.Prelude.{List, ℕ};

    ghost Value = { List ℕ };

    ghost view = { λ a. a.bytes.items };
}

impl fmt::Display for NameText {
    ghost output = { λ name. Some name };

    fn fmt<W: fmt::Write>(&self, f: &mut fmt::Formatter<W>) -> fmt::Result {
        let text = str::from_utf8(&self.bytes).map_err(|_| fmt::Error)?;
        f.pad(text)
    }
}

impl PartialEq for NameText {
    ghost eq = { pointwise nat_eq };

    ghost laws = { Prim.search (comparing, rules) };

    fn eq(&self, other: &NameText) -> bool {
        self.bytes == other.bytes
    }
}

impl Eq for NameText {
    ghost laws = { Prim.search (comparing, rules) };
}

impl PartialOrd for NameText {
    ghost partial_cmp = { as_partial_cmp (slice_cmp nat_cmp) };

    ghost laws = { partial_order_from_own_ties (Prim.search (comparing, rules))
        (Prim.search (comparing, rules)) };

    fn partial_cmp(&self, other: &NameText) -> Option<Ordering> {
        Some(self.cmp(other))
    }
}

impl Ord for NameText {
    ghost cmp = { slice_cmp nat_cmp };

    ghost total = { Prim.search (comparing, rules) };

    ghost matches_partial_cmp = { Prim.search (comparing, rules) };

    ghost matches_eq = { Prim.search (comparing, rules) };

    fn cmp(&self, other: &NameText) -> Ordering {
        self.bytes.cmp(&other.bytes)
    }
}
