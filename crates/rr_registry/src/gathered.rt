//! Objects that are put together one after the other, in any order. A list that does not stand in
//! order is loaded by this.

ghost use Rattle.std.specs.Prelude.{◌≡◌, ◌⊎◌, [], List, IfErr, IfOk, OnOk, false, true};
ghost use Rattle.std.specs.BTreeMap.{insert_entry};
ghost use Rattle.std.specs.FinMap.{insert};
ghost use Rattle.rr_object.specs.Objects.{Obj};
ghost use Rattle.rr_cover.specs.SpanMaps.{crosses_some};
ghost use Rattle.rr_auth.specs.Registries.{is_crossed_by_some};
ghost use Rattle.rr_registry.specs.Loading.{clash_of, is_key_of_some};
ghost use Rattle.rr_registry.specs.Private.{HoldsSpans, IsConsistent, IsEntered, IsTakenIn};
ghost use Rattle.rr_registry.specs.Private.{objects_of};

use crate::load::LoadFault;
use rr_cover::{InsertFault, SpanNest};
use rr_number::Span;
use rr_object::{Key, Object};
use std::alloc::{AllocError, Global};
use std::collections::BTreeMap;

/// Objects under their keys, and the spans of the inetnums and the as-blocks among them. Whether a
/// key stands there or is crossed is found in O(log n) steps for n objects.
#[derive(Drop)]
pub(crate) struct Gathered {
    objects: BTreeMap<Key, Object>,
    spans: Spans,
}

/// The spans of inetnums and of as-blocks.
#[derive(Drop)]
pub(crate) struct Spans {
    inetnums: SpanNest<()>,
    blocks: SpanNest<()>,
}

impl Gathered {
    /// Nothing gathered yet.
    pub(crate) fn new(alloc: Global) -> Gathered
        ensures consistent { IsConsistent result }
        ensures none { objects_of result ≡ [] }
    {
        Gathered {
            objects: BTreeMap::new(alloc),
            spans: Spans {
                inetnums: SpanNest::new(alloc),
                blocks: SpanNest::new(alloc),
            },
        }
    }

    /// Puts the n-th object among those before it. The fault is that one before it has its key, or
    /// else that its span crosses one of those, or that memory ran out. What a fault leaves, no
    /// clause says.
    pub(crate) fn take_in(&mut self, alloc: Global, n: u64, object: Object) -> Result<(), LoadFault>
        requires { IsConsistent self.old }
        ensures ok { OnOk result (IsTakenIn (objects_of self.old) n object (objects_of self.new)) }
        ensures consistent { OnOk result (IsConsistent self.new) }
        ensures err { IfErr result (λ fault. (fault ≡ LoadFault.Memory)
            ⊎ (clash_of (objects_of self.old) n object ≡ Some fault)) }
    {
        let key = self.enter(alloc, n, object.key())?;
        put(&mut self.objects, key, object)?;
        Ok(())
    }

    /// Enters the span of the n-th object, and copies its key. The fault is that one before it has
    /// its key, or else that its span crosses one of those, or that memory ran out.
    fn enter(&mut self, alloc: Global, n: u64, key: &Key) -> Result<Key, LoadFault>
        requires { IsConsistent self.old }
        ensures copy { IfOk result (λ copy. copy ≡ key.now) }
        ensures new { OnOk result (is_key_of_some key.now (objects_of self.old) ≡ false) }
        ensures entered { OnOk result (IsEntered
            (objects_of self.old) key.now self.new.spans.inetnums self.new.spans.blocks) }
        ensures err { IfErr result (λ fault. (fault ≡ LoadFault.Memory) ⊎ ((o : Obj)
            → o.key ≡ key.now → clash_of (objects_of self.old) n o ≡ Some fault)) }
        ensures same { self.new.objects ≡ self.old.objects }
    {
        if self.objects.contains_key(key) {
            return Err(LoadFault::Duplicate(n));
        }
        self.spans.enter(n, key)?;
        Ok(key.copy(alloc)?)
    }

    /// The objects in the order of class and key; the error is that memory ran out.
    pub(crate) fn into_objects(self, alloc: Global) -> Result<Vec<Object>, AllocError>
        ensures { IfOk result (λ objects. objects.items ≡ objects_of self) }
    {
        self.objects.into_values().collect(alloc)
    }
}

impl Spans {
    /// Enters the span of the n-th object, where its key is that of an inetnum or an as-block. The
    /// fault is that the span crosses one that is held, or that memory ran out.
    fn enter(&mut self, n: u64, key: &Key) -> Result<(), LoadFault>
        ensures ok { OnOk result ((os : List Obj) → HoldsSpans os self.old.inetnums
            self.old.blocks → IsEntered os key.now self.new.inetnums self.new.blocks) }
        ensures err { IfErr result (λ fault. (fault ≡ LoadFault.Memory)
            ⊎ ((os : List Obj) → HoldsSpans os self.old.inetnums self.old.blocks
            → (fault ≡ LoadFault.Overlap n) × (is_crossed_by_some key.now os ≡ true))) }
    {
        match key {
            Key::Inetnum(span) => hold(&mut self.inetnums, n, *span),
            Key::AsBlock(block) => hold(&mut self.blocks, n, block.span()),
            _ => Ok(()),
        }
    }
}

/// Puts the object under the key; the error is that memory ran out.
fn put(objects: &mut BTreeMap<Key, Object>, key: Key, object: Object) -> Result<(), AllocError>
    ensures { OnOk result (objects.new.entries
        ≡ insert_entry ⟦<Key as Ord>⟧.cmp objects.old.entries key object) }
{
    objects.insert(key, object)?;
    Ok(())
}

/// Puts the span of the n-th object among those of its class. The fault is that it crosses one of
/// those, or that memory ran out.
fn hold(nest: &mut SpanNest<()>, n: u64, span: Span) -> Result<(), LoadFault>
    ensures ok { OnOk result (nest.new ≡ insert nest.old span tt) }
    ensures free { OnOk result (crosses_some nest.old span ≡ false) }
    ensures err { IfErr result (λ fault. (fault ≡ LoadFault.Memory)
        ⊎ ((fault ≡ LoadFault.Overlap n) × (crosses_some nest.old span ≡ true))) }
{
    match nest.insert(span, ()) {
        Ok(_) => Ok(()),
        Err(InsertFault::Overlap(_)) => Err(LoadFault::Overlap(n)),
        Err(InsertFault::Memory(_)) => Err(LoadFault::Memory),
    }
}
