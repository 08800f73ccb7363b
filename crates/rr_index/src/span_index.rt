//! The spans of registered objects, by which what is closest and what crosses is found: one of the
//! indexes of the indexed book.

ghost use Rattle.std.specs.Prelude.{◌≡◌, OnErr, OnOk, IfSome, IfNone, false};
ghost use Rattle.std.specs.FinMap.{empty, insert, remove};
ghost use Rattle.rr_number.specs.Prefixes.{span_of};
ghost use Rattle.rr_number.specs.Spans.{IsSpan};
ghost use Rattle.rr_cover.specs.SpanMaps.{IsClosest, NoneCovers, crosses_some};
ghost use Rattle.rr_object.specs.Objects.{Obj};
ghost use Rattle.rr_auth.specs.Registries.{Reg, Sound};
ghost use Rattle.rr_auth.specs.Closest.{closest_route_prefix};
ghost use Rattle.rr_auth.specs.Conditions.{crosses_registered as crosses_key};
ghost use Rattle.rr_index.specs.Private.{HoldsSpan, IsTold, is_crossed};
ghost use Rattle.rr_index.specs.SpanIndexes.{HasSpans};

use rr_cover::{PrefixTree, SpanNest};
use rr_number::{Prefix, Span};
use rr_object::Key;
use std::alloc::{AllocError, Global};

/// The spans of the inetnums and of the as-blocks, and the prefixes of the routes.
#[derive(Drop)]
pub(crate) struct SpanIndex {
    pub(crate) inetnums: SpanNest<()>,
    blocks: SpanNest<()>,
    pub(crate) routes: PrefixTree<()>,
}

impl SpanIndex {
    /// An index without spans: that of a registry without objects.
    pub(crate) fn new(alloc: Global) -> SpanIndex
        ensures { HasSpans empty result.inetnums result.blocks result.routes }
    {
        SpanIndex {
            inetnums: SpanNest::new(alloc),
            blocks: SpanNest::new(alloc),
            routes: PrefixTree::new(alloc),
        }
    }

    /// Enters the span of a key: the spans of a registry become those of it with any object put
    /// under the key. No span that is held of the key's class may cross it. The error is that
    /// memory ran out, and the spans are still those of the registry.
    pub(crate) fn add(&mut self, key: &Key) -> Result<(), AllocError>
        requires { is_crossed self.old.inetnums self.old.blocks key.now ≡ false }
        ensures ok { OnOk result
            ((r : Reg) (o : Obj) → HasSpans r self.old.inetnums self.old.blocks self.old.routes
            → HasSpans (insert r key.now o) self.new.inetnums self.new.blocks self.new.routes) }
        ensures err { OnErr result
            ((r : Reg) → HasSpans r self.old.inetnums self.old.blocks self.old.routes
            → HasSpans r self.new.inetnums self.new.blocks self.new.routes) }
    {
        match key {
            Key::Inetnum(span) => hold(&mut self.inetnums, *span),
            Key::AsBlock(block) => hold(&mut self.blocks, block.span()),
            Key::Route(prefix, _) => {
                // its length is one of a prefix
                let _length = prefix.length();
                hold_prefix(&mut self.routes, *prefix)
            }
            _ => Ok(()),
        }
    }

    /// Takes out the span of a key: the spans of a registry become those of it without the object
    /// of the key. This is so if `is_routed` says of a route's key whether another route of its
    /// prefix is registered; such a prefix stays.
    pub(crate) fn take(&mut self, key: &Key, is_routed: bool)
        ensures { (r : Reg) → HasSpans r self.old.inetnums self.old.blocks self.old.routes
            → IsTold r key.now is_routed
            → HasSpans (remove r key.now) self.new.inetnums self.new.blocks self.new.routes }
    {
        match key {
            Key::Inetnum(span) => {
                self.inetnums.remove(*span);
            }
            Key::AsBlock(block) => {
                self.blocks.remove(block.span());
            }
            Key::Route(prefix, _) => {
                // its length is one of a prefix
                let _length = prefix.length();
                if !is_routed {
                    self.routes.remove(*prefix);
                }
            }
            _ => {}
        }
    }

    /// The span of the closest inetnum to the span, which may be equal; none if none covers it. The
    /// ends of the span asked about are in order and have 32 bits.
    pub(crate) fn closest_inetnum(&self, span: Span) -> Option<Span>
        ensures found { IfSome result (λ own. IsClosest self.now.inetnums span own tt) }
        ensures none { IfNone result (NoneCovers self.now.inetnums span) }
        ensures ordered { IsSpan span }
    {
        match self.inetnums.closest(span) {
            Some((own, _)) => Some(own),
            None => None,
        }
    }

    /// The span of the closest as-block to the span, which may be equal; none if none covers it.
    /// The ends of the span asked about are in order and have 32 bits.
    pub(crate) fn closest_block(&self, span: Span) -> Option<Span>
        ensures found { IfSome result (λ own. IsClosest self.now.blocks span own tt) }
        ensures none { IfNone result (NoneCovers self.now.blocks span) }
        ensures ordered { IsSpan span }
    {
        match self.blocks.closest(span) {
            Some((own, _)) => Some(own),
            None => None,
        }
    }

    /// The prefix of the closest routes to the prefix, in the sound registry whose spans these are;
    /// none if no route covers it.
    pub(crate) fn closest_route_prefix(&self, prefix: Prefix) -> Option<Prefix>
        ensures { (r : Reg) → Sound r → HasSpans r self.now.inetnums self.now.blocks
            self.now.routes → result ≡ closest_route_prefix r prefix }
    {
        match closest_prefix(&self.routes, prefix) {
            Some(own) => {
                // its length is one of a prefix
                let _length = own.length();
                Some(own)
            }
            None => None,
        }
    }

    /// Whether the key is that of an inetnum or an as-block, and its span crosses that of an object
    /// of its class in the sound registry whose spans these are.
    pub(crate) fn crosses(&self, key: &Key) -> bool
        ensures { (r : Reg) → Sound r → HasSpans r self.now.inetnums self.now.blocks
            self.now.routes → result ≡ crosses_key r key.now }
    {
        match key {
            Key::Inetnum(span) => self.inetnums.crosses(*span),
            Key::AsBlock(block) => self.blocks.crosses(block.span()),
            _ => false,
        }
    }
}

/// The longest prefix of the tree that covers the prefix; none if none does.
fn closest_prefix(tree: &PrefixTree<()>, prefix: Prefix) -> Option<Prefix>
    ensures found { IfSome result (λ own. IsClosest tree.now (span_of prefix) (span_of own) tt) }
    ensures none { IfNone result (NoneCovers tree.now (span_of prefix)) }
{
    match tree.closest(prefix) {
        Some((own, _)) => Some(own),
        None => None,
    }
}

/// Puts a span into the nest that none held crosses; the error is that memory ran out, and nothing
/// changes.
fn hold(nest: &mut SpanNest<()>, span: Span) -> Result<(), AllocError>
    requires { crosses_some nest.old span ≡ false }
    ensures { HoldsSpan nest.old span nest.new result }
{
    nest.insert_uncrossed(span, ())?;
    Ok(())
}

/// Puts the prefix into the tree; the error is that memory ran out, and nothing changes.
fn hold_prefix(tree: &mut PrefixTree<()>, prefix: Prefix) -> Result<(), AllocError>
    ensures { HoldsSpan tree.old (span_of prefix) tree.new result }
{
    tree.insert(prefix, ())?;
    Ok(())
}
