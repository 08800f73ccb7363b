//! The kinds of sets that have names, as-sets and route-sets: `set_name` tells them by the words in
//! a name. Keys, verdicts on sets and expansions go by them.

ghost use Rattle.std.specs.Prelude.{◌≡◌};
ghost use Rattle.rr_number.specs.SetNames.{word_start};

/// A kind of sets that have names (RFC 2622, 5).
#[derive(Clone, Copy, Debug, PartialEq, Eq)]
pub enum SetKind {
    /// A set of ASes; its name has a component that begins with `AS-`.
    AsSet,
    /// A set of routes; its name has a component that begins with `RS-`.
    RouteSet,
}

impl SetKind {
    /// What the words of sets of the kind begin with: `AS-` or `RS-` (RFC 2622, 2).
    pub(crate) fn word_start(self) -> &'static [u8]
        ensures { result.now ≡ word_start self }
    {
        match self {
            SetKind::AsSet => b"AS-",
            SetKind::RouteSet => b"RS-",
        }
    }
}
