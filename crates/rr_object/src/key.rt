//! Keys of objects: what names an object in its class. Registries, queries, reports and rows use
//! them.

ghost use Rattle.std.specs.Prelude.{◌≡◌, IfOk};
ghost use Rattle.rr_object.specs.Keys.{class_of, is_mntner_of, key_of_kind};

use crate::class::Class;
use rr_number::{AsNumber, AsSpan, Name, Prefix, SetKind, SetName, Span};
use std::alloc::{AllocError, Global};

/// What names an object among those of the registry. Keys are ordered by the numbers of their
/// classes, then by the numbers that make them up (`key_cmp`), which is the order of their bytes
/// (profile).
#[derive(Debug, PartialEq, Eq, PartialOrd, Ord, Drop)]
pub enum Key {
    /// A maintainer's name.
    Mntner(Name),
    /// The first and the last number of a block.
    AsBlock(AsSpan),
    /// The number of an autonomous system.
    AutNum(AsNumber),
    /// The first and the last address of a block.
    Inetnum(Span),
    /// A prefix and its origin.
    Route(Prefix, AsNumber),
    /// The name of a set of autonomous systems.
    AsSet(SetName),
    /// The name of a set of routes.
    RouteSet(SetName),
}

impl Key {
    /// The key of the set of this kind and name; whether the name is of that kind is not asked.
    pub fn of_kind(kind: SetKind, name: SetName) -> Key
        ensures { result ≡ key_of_kind kind name }
    {
        match kind {
            SetKind::AsSet => Key::AsSet(name),
            SetKind::RouteSet => Key::RouteSet(name),
        }
    }

    /// The class of the object.
    pub fn class(&self) -> Class
        ensures { result ≡ class_of self.now }
    {
        match self {
            Key::Mntner(_) => Class::Mntner,
            Key::AsBlock(_) => Class::AsBlock,
            Key::AutNum(_) => Class::AutNum,
            Key::Inetnum(_) => Class::Inetnum,
            Key::Route(_, _) => Class::Route,
            Key::AsSet(_) => Class::AsSet,
            Key::RouteSet(_) => Class::RouteSet,
        }
    }

    /// Whether the key is that of the mntner of this name.
    pub fn is_mntner_of(&self, name: &Name) -> bool
        ensures { result ≡ is_mntner_of name.now self.now }
    {
        match self {
            Key::Mntner(own) => own == name,
            _ => false,
        }
    }

    /// An equal key; the error is that memory ran out.
    pub fn copy(&self, alloc: Global) -> Result<Key, AllocError>
        ensures { IfOk result (λ key. key ≡ self.now) }
    {
        match self {
            Key::Mntner(name) => Ok(Key::Mntner(name.copy(alloc)?)),
            Key::AsBlock(span) => Ok(Key::AsBlock(*span)),
            Key::AutNum(number) => Ok(Key::AutNum(*number)),
            Key::Inetnum(span) => Ok(Key::Inetnum(*span)),
            Key::Route(prefix, origin) => Ok(Key::Route(*prefix, *origin)),
            Key::AsSet(name) => Ok(Key::AsSet(name.copy(alloc)?)),
            Key::RouteSet(name) => Ok(Key::RouteSet(name.copy(alloc)?)),
        }
    }
}
