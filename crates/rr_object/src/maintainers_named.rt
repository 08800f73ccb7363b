//! The maintainers that an object names: for verdicts and loads, which look whether they are
//! registered, and for books and rows, which keep who is named. A query asks who names one.

ghost use Rattle.std.specs.Prelude.{◌≡◌};
ghost use Rattle.std.specs.Iterator.{YieldsFirstRef, item_count};
ghost use Rattle.rr_object.specs.Objects.{names_of, object_names};

use crate::grant::Grant;
use crate::object::Object;
use rr_number::Name;
use std::marker::Model;

/// The maintainers in `mnt-by`, `mnt-lower`, `mnt-routes` and `mbrs-by-ref` of an object, in this
/// order and without `ANY`; one that is named twice comes twice.
#[derive(Debug, Drop)]
pub struct MaintainersNamed<'a> {
    maintainers: &'a [Name],
    lower: &'a [Name],
    routes: &'a [Grant],
    by_ref: &'a [Name],
}

impl<'a> Model for MaintainersNamed<'a> {
    ghost use Rattle.std.specs.Prelude.{ℕ, List, ◌++◌, map};

    ghost Value = { List (List ℕ) };

    ghost view = { λ s. ((s.maintainers.now ++ s.lower.now)
        ++ map (λ grant. grant.name) s.routes.now) ++ s.by_ref.now };
}

impl Object {
    /// The maintainers that the object names in `mnt-by`, `mnt-lower`, `mnt-routes` and
    /// `mbrs-by-ref`, in this order and without `ANY` (profile). One that is named twice comes
    /// twice.
    pub fn maintainers_named(&self) -> MaintainersNamed<'_>
        ensures { result ≡ names_of self.now }
    {
        MaintainersNamed {
            maintainers: self.maintainers(),
            lower: self.lower(),
            routes: self.routes(),
            by_ref: self.by_ref(),
        }
    }

    /// Whether the object names the maintainer in `mnt-by`, `mnt-lower`, `mnt-routes` or
    /// `mbrs-by-ref` (profile).
    pub fn names(&self, name: &Name) -> bool
        ensures { result ≡ object_names name.now self.now }
    {
        self.maintainers_named().any(|own| own == name)
    }
}

impl<'a> Iterator for MaintainersNamed<'a> {
    type Item = &'a Name;

    ghost next_gives = { YieldsFirstRef (λ names. names) };

    ghost remaining = { item_count (λ names. names) };

    /// The first of the maintainers that are still to come, who is then no longer among them;
    /// `None` where there is none.
    fn next(&mut self) -> Option<&'a Name> {
        if let Some((first, others)) = self.maintainers.split_first() {
            self.maintainers = others;
            return Some(first);
        }
        if let Some((first, others)) = self.lower.split_first() {
            self.lower = others;
            return Some(first);
        }
        if let Some((first, others)) = self.routes.split_first() {
            self.routes = others;
            return Some(first.name());
        }
        let (first, others) = self.by_ref.split_first()?;
        self.by_ref = others;
        Some(first)
    }
}
