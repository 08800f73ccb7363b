//! The seven classes of objects, with their names and numbers. They say how a paragraph is read,
//! and queries and books list objects by them. Rows of databases have the numbers, which stay.

ghost use Rattle.std.specs.Prelude.{◌≡◌, ◌<◌, ◌≤◌};
ghost use Rattle.rr_object.specs.Classes.{class_name, class_named, class_number};

/// A class of objects.
#[derive(Clone, Copy, Debug, PartialEq, Eq)]
pub enum Class {
    /// A maintainer (RFC 2622, 3).
    Mntner,
    /// A block of AS numbers (RFC 2725, 10; the form of its key is that of this profile).
    AsBlock,
    /// An autonomous system (RFC 2622, 6).
    AutNum,
    /// A block of addresses (RFC 2725, 10; the form of its key is that of this profile).
    Inetnum,
    /// A route: a prefix and its origin (RFC 2622, 4).
    Route,
    /// A set of autonomous systems (RFC 2622, 5).
    AsSet,
    /// A set of routes (RFC 2622, 5).
    RouteSet,
}

const ALL: [Class; 7] = [
    Class::Mntner,
    Class::AsBlock,
    Class::AutNum,
    Class::Inetnum,
    Class::Route,
    Class::AsSet,
    Class::RouteSet,
];

impl Class {
    /// The class whose objects begin with an attribute of exactly this name; `None` where there is
    /// none. Such names are in lower case.
    pub fn named(name: &[u8]) -> Option<Class>
        ensures { result ≡ class_named name.now }
    {
        ALL.iter()
            .copied()
            .find(|class| class.name().as_bytes() == name)
    }

    /// The number of the class, 1 to 7 in the order of `Class` (profile).
    pub fn number(self) -> u8
        ensures value { result ≡ class_number self }
        ensures within { (0 < result) × (result ≤ 7) }
    {
        self as u8 + 1
    }

    /// The name of the class, which is that of its first attribute, in lower case.
    pub fn name(self) -> &'static str
        ensures { result.now ≡ class_name self }
    {
        match self {
            Class::Mntner => "mntner",
            Class::AsBlock => "as-block",
            Class::AutNum => "aut-num",
            Class::Inetnum => "inetnum",
            Class::Route => "route",
            Class::AsSet => "as-set",
            Class::RouteSet => "route-set",
        }
    }
}
