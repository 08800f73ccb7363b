//! Registries, as the expansion of sets asks about them: each book implements this trait. Only
//! `routes_of` is asked by no expansion, but by `rr_answer` for the routes of an origin.

ghost use Rattle.std.specs.Prelude.{◌≡◌, IfOk, filter};
ghost use Rattle.std.specs.FinMap.{values};
ghost use Rattle.std.specs.List.{filter_map};

use rr_auth::Book;
use rr_number::{AsNumber, Prefix, SetName};
use rr_object::Object;
use std::alloc::{AllocError, Global};

/// A registry that lists its aut-nums, its routes, and the objects that ask to be in a set. It is
/// sound: each object stands under its own key, which is well formed, and each maintainer that it
/// names is registered. No two inetnums cross, and no two as-blocks. Each call but `routes_of`
/// promises this, after an error too. The errors are that memory ran out.
pub trait SetBook: Book {
    ghost use Rattle.rr_auth.specs.Registries.{ListsOf};
    ghost use Rattle.rr_sets.specs.KeyParts.{prefix_from};
    ghost use Rattle.rr_sets.specs.Lists.{IsAutNum, IsReferrer, IsRegisteredRoute, ListsOnce};
    ghost use Rattle.rr_sets.specs.Lists.{is_originated, lent};

    /// Lists exactly the registered aut-nums, each once, in any order. The registry is sound, after
    /// an error too.
    fn aut_nums(&self, alloc: Global) -> Result<Vec<&Object>, AllocError>
        ensures { ListsOf (Self.contents self.now) (λ objects.
            ListsOnce (IsAutNum (Self.contents self.now)) objects.items) result };

    /// Lists exactly the registered routes, each once, in any order. The registry is sound, after
    /// an error too.
    fn routes(&self, alloc: Global) -> Result<Vec<&Object>, AllocError>
        ensures { ListsOf (Self.contents self.now) (λ objects.
            ListsOnce (IsRegisteredRoute (Self.contents self.now)) objects.items) result };

    /// Lists exactly the registered routes of the origin, in the order of class and key, in which
    /// an answer has them. That the registry is sound, no clause of this call says.
    fn routes_of(&self, alloc: Global, origin: AsNumber) -> Result<Vec<&Object>, AllocError>
        ensures { IfOk result (λ objects. lent objects.items
            ≡ filter (is_originated origin) (values (Self.contents self.now))) };

    /// Lists exactly the prefixes of the registered routes of the origin, in the order of the keys
    /// of these. The registry is sound, after an error too. An expansion asks for those of each AS
    /// number that it reaches, so a book should find them without a look at each object.
    fn prefixes_of(&self, alloc: Global, origin: AsNumber) -> Result<Vec<Prefix>, AllocError>
        ensures { ListsOf (Self.contents self.now) (λ prefixes. prefixes.items ≡ filter_map
            (λ o. prefix_from origin o.key) (values (Self.contents self.now))) result };

    /// Lists exactly the registered objects whose `member-of` names the set, each once, in any
    /// order. The registry is sound, after an error too. An expansion asks for those of each set
    /// that it reaches and that has `mbrs-by-ref`, so a book should not look at all its objects for
    /// them.
    fn referrers(&self, alloc: Global, name: &SetName) -> Result<Vec<&Object>, AllocError>
        ensures { ListsOf (Self.contents self.now) (λ objects.
            ListsOnce (IsReferrer (Self.contents self.now) name.now) objects.items) result };
}
