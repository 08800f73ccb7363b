//! The interpreted attributes, and how often each stands in an object of each class: for the
//! reading of objects, and for `rr_store`, which looks for the source in a row.

ghost use Rattle.std.specs.Prelude.{◌≡◌};
ghost use Rattle.rr_object.specs.Kinds.{is_read, kind_name, occurs};

use crate::class::Class;

/// An attribute that is read in objects of some class, and not only kept as text.
#[derive(Clone, Copy, Debug, PartialEq, Eq)]
pub enum Kind {
    /// The maintainers: a change needs a secret of one of them (RFC 2622, 3).
    MntBy,
    /// The registry of the object (RFC 2622, 2).
    Source,
    /// How a maintainer is recognised (RFC 2622, 3).
    Auth,
    /// The maintainers: an object below this one needs a secret of one of them (RFC 2725, 9).
    MntLower,
    /// The maintainers, each for some prefixes or all: a route below this object needs a secret of
    /// one of them (RFC 2725, 9).
    MntRoutes,
    /// The autonomous system that a route comes from (RFC 2622, 4).
    Origin,
    /// The sets that an object asks to belong to (RFC 2622, 5).
    MemberOf,
    /// The members of a set (RFC 2622, 5).
    Members,
    /// Whose objects may ask to belong to a set (RFC 2622, 5).
    MbrsByRef,
}

/// How often an attribute stands in an object (profile).
#[derive(Clone, Copy, Debug, PartialEq, Eq)]
pub enum Occurs {
    /// Exactly once, with an item.
    Once,
    /// Any number of times, with at least one item over all.
    WithItems,
    /// Any number of times.
    Freely,
    /// It is kept as text, and not read.
    AsText,
}

impl Kind {
    /// The name of the attribute, in lower case.
    pub fn name(self) -> &'static str
        ensures { result.now ≡ kind_name self }
    {
        match self {
            Kind::MntBy => "mnt-by",
            Kind::Source => "source",
            Kind::Auth => "auth",
            Kind::MntLower => "mnt-lower",
            Kind::MntRoutes => "mnt-routes",
            Kind::Origin => "origin",
            Kind::MemberOf => "member-of",
            Kind::Members => "members",
            Kind::MbrsByRef => "mbrs-by-ref",
        }
    }

    /// How often the attribute stands in an object of a class.
    #[tactic(auto, unfolding(crate::specs::Kinds::occurs))]
    pub(crate) fn occurs(self, class: Class) -> Occurs
        ensures { result ≡ occurs self class }
    {
        match (self, class) {
            (Kind::MntBy, _) | (Kind::Auth, Class::Mntner) => Occurs::WithItems,
            (Kind::Source, _) | (Kind::Origin, Class::Route) => Occurs::Once,
            (Kind::MntLower, Class::Mntner) => Occurs::AsText,
            (Kind::MntLower, _) => Occurs::Freely,
            (Kind::MntRoutes, Class::AutNum | Class::Inetnum | Class::Route) => Occurs::Freely,
            (Kind::MemberOf, Class::AutNum | Class::Route) => Occurs::Freely,
            (Kind::Members | Kind::MbrsByRef, Class::AsSet | Class::RouteSet) => Occurs::Freely,
            _ => Occurs::AsText,
        }
    }

    /// Whether the attribute is read in an object of a class, and not only kept as text.
    pub(crate) fn is_read(self, class: Class) -> bool
        ensures { result ≡ is_read self class }
    {
        match self.occurs(class) {
            Occurs::AsText => false,
            _ => true,
        }
    }
}
