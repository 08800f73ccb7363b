//! What every book does: it is made, changed by one object, and listed. `Registry` of
//! `rr_registry` is kept in any book that does this, and `rr_answer` asks it for lists.

ghost use Rattle.std.specs.Prelude.{◌≡◌, IfOk, OnOk, OnErr};
ghost use Rattle.std.specs.FinMap.{insert, remove, values};

use rr_number::Span;
use rr_object::{Key, Object};
use rr_sets::SetBook;
use std::alloc::{AllocError, Global};

/// A book that a registry is kept in. The registry is sound as `SetBook` says. The errors are that
/// memory ran out.
pub trait Keeper: SetBook {
    ghost use Rattle.rr_auth.specs.Registries.{Sound};
    ghost use Rattle.rr_book.specs.Books.{book_of, IsBook};
    ghost use Rattle.rr_book.specs.Listings.{covering, inside};
    ghost use Rattle.rr_sets.specs.Lists.{lent};

    /// The book of exactly these objects, each under its key. They must stand in the order of class
    /// and key, no two of them under one key, and their registry must be sound.
    fn of(alloc: Global, objects: Vec<Object>) -> Result<Self, AllocError>
        requires { IsBook objects.items }
        ensures { IfOk result (λ book. Self.contents book ≡ book_of objects.items) };

    /// Puts the object under its key, in place of one that stood there; all others stay. The
    /// registry with it has to be sound. The error leaves the registry as it was.
    fn insert(&mut self, alloc: Global, object: Object) -> Result<(), AllocError>
        requires { Sound (insert (Self.contents self.old) object.key object) }
        ensures ok { OnOk result
            (Self.contents self.new ≡ insert (Self.contents self.old) object.key object) }
        ensures err { OnErr result (Self.contents self.new ≡ Self.contents self.old) };

    /// Takes the object of the key out, if there is one; all others stay. The registry without it
    /// has to be sound.
    fn remove(&mut self, key: &Key)
        requires { Sound (remove (Self.contents self.old) key.now) }
        ensures { Self.contents self.new ≡ remove (Self.contents self.old) key.now };

    /// All objects, in the order of class and key.
    fn objects(&self, alloc: Global) -> Result<Vec<&Object>, AllocError>
        ensures { IfOk result
            (λ objects. lent objects.items ≡ values (Self.contents self.now)) };

    /// All inetnums and routes whose addresses cover the span, in the order of class and key; equal
    /// ones count.
    fn covering(&self, alloc: Global, span: Span) -> Result<Vec<&Object>, AllocError>
        ensures { IfOk result
            (λ found. lent found.items ≡ covering (Self.contents self.now) span) };

    /// All inetnums and routes whose addresses lie inside the span, in the order of class and key;
    /// equal ones count.
    fn inside(&self, alloc: Global, span: Span) -> Result<Vec<&Object>, AllocError>
        ensures { IfOk result
            (λ found. lent found.items ≡ inside (Self.contents self.now) span) };
}
