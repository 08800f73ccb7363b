//! The order of keys: whether objects stand in it already and none cross, so that a registry is
//! loaded from them as they are. The contracts say only what `true` means.

ghost use Rattle.std.specs.Prelude.{◌≡◌, [], ◌∷◌, ◌++◌, IfOk, IsTrue, List, true};
ghost use Rattle.rr_object.specs.Objects.{Obj};
ghost use Rattle.rr_book.specs.Books.{is_in_order};
ghost use Rattle.rr_registry.specs.OpenSpanParts.{AreGoneOver, IsGoneOver};
ghost use Rattle.rr_registry.specs.Private.{IsGathered, is_below};

use crate::open_spans::OpenSpans;
use rr_object::{Key, Object};
use std::alloc::{AllocError, Global};

/// The inetnums and the as-blocks of objects that are gone over in the order of their keys.
#[derive(Drop)]
struct GoneOver {
    inetnums: OpenSpans,
    blocks: OpenSpans,
}

impl GoneOver {
    /// Nothing gone over yet.
    fn new(alloc: Global) -> GoneOver
        ensures { AreGoneOver [] result.inetnums result.blocks }
    {
        GoneOver {
            inetnums: OpenSpans::new(alloc),
            blocks: OpenSpans::new(alloc),
        }
    }

    /// Goes on to the key of an object after those before it: true only if it crosses none of them.
    /// The error is that memory ran out.
    fn go_over(&mut self, key: &Key) -> Result<bool, AllocError>
        ensures { IfOk result (λ free. (os : List Obj) (o : Obj) → o.key ≡ key.now
            → is_in_order (os ++ o ∷ []) ≡ true
            → AreGoneOver os self.old.inetnums self.old.blocks
            → IsTrue free → IsGoneOver os o self.new.inetnums self.new.blocks) }
    {
        match key {
            Key::Inetnum(span) => self.inetnums.go_over(*span),
            Key::AsBlock(block) => self.blocks.go_over(block.span()),
            _ => Ok(true),
        }
    }
}

/// True only if the objects stand as they are gathered: their keys strictly rise, and no two spans
/// cross. It takes O(n) steps for n objects, and the error is that memory ran out.
pub(crate) fn are_gathered(alloc: Global, objects: &[Object]) -> Result<bool, AllocError>
    ensures { IfOk result (λ gathered. IsTrue gathered → IsGathered objects.now objects.now) }
{
    if !are_in_order(objects) {
        return Ok(false);
    }
    none_cross(alloc, objects)
}

/// Whether the keys of the objects strictly rise.
fn are_in_order(objects: &[Object]) -> bool
    ensures { result ≡ is_in_order objects.now }
{
    let mut rest = objects;
    while let [first, later @ ..] = rest {
        if !is_below(first, later) {
            return false;
        }
        rest = later;
    }
    true
}

/// Whether the key of an object is below that of the first of others, if there is one.
#[tactic(auto, using(rr_object::proofs::DerivedOrder::derived_order))]
fn is_below(object: &Object, others: &[Object]) -> bool
    ensures { result ≡ is_below object.now others.now }
{
    match others {
        [other, ..] => object.key().cmp(other.key()).is_lt(),
        [] => true,
    }
}

/// True only if no two of objects, whose keys rise, cross. The error is that memory ran out.
fn none_cross(alloc: Global, objects: &[Object]) -> Result<bool, AllocError>
    requires { is_in_order objects.now ≡ true }
    ensures { IfOk result (λ apart. IsTrue apart → IsGathered objects.now objects.now) }
{
    let mut gone_over = GoneOver::new(alloc);
    for object in objects {
        if !gone_over.go_over(object.key())? {
            return Ok(false);
        }
    }
    Ok(true)
}
