//! Spans that nest or lie apart, in a balanced search tree: inetnums and as-blocks, which
//! `rr_index` keeps, and `rr_registry` while it loads.

ghost use Rattle.std.specs.Prelude.{◌≡◌, false, IfOk, IfErr, MatchOption};
ghost use Rattle.std.specs.FinMap as span_map;
ghost use Rattle.rr_number.specs.Spans.{IsSpan};
ghost use Rattle.rr_cover.specs.SpanMaps.{crosses_some, covering, IsClosest};
ghost use Rattle.rr_cover.specs.SpanMaps.{NoneCovers, Inserts, InsertsApart, Removes};

mod bounds;
mod changes;
mod lists;
mod reading;

use crate::insert_fault::InsertFault;
use bounds::Lasts;
use changes::{set, take};
use lists::{push_covering, put_in_order};
use reading::{crosses_any, levels, smallest_cover};
use rr_number::Span;
use std::alloc::{AllocError, AllocFailed, Global};
use std::marker::Model;

/// Values kept by span, no two spans crossing: a height-balanced search tree (AVL) of all spans, in
/// order of first number ascending, then last number descending. Each node keeps, for each side, a
/// number that no last number there is above. So a search passes by the sides in which no span
/// reaches far enough. A tree with each span below those that cover it would be a chain where they
/// lie side by side. This one has at most 28 levels for a million spans, however they nest; no
/// contract says it.
#[derive(Drop)]
pub struct SpanNest<T> {
    root: Nest<T>,
    alloc: Global,
}

/// A search tree of spans.
#[derive(Drop)]
#[cycle(nest)]
enum Nest<T> {
    Empty,
    Fork(Box<Node<T>>),
}

/// A span with its value, and the trees of the spans that stand ahead of it and after it.
#[derive(Drop)]
#[cycle(nest)]
struct Node<T> {
    span: Span,
    value: T,
    /// How many levels the tree has from this node down.
    height: u8,
    bounds: Lasts,
    before: Nest<T>,
    after: Nest<T>,
}

impl<T> Model for SpanNest<T> {
    ghost use Rattle.std.specs.FinMap as span_map;
    ghost use Rattle.rr_number.specs.Spans.{ends_code};
    ghost use Rattle.rr_cover.specs.SpanMaps.{SpanMap};

    ghost Value = { SpanMap T };

    ghost coded = { span_map.code ends_code T.code };

    ghost use Rattle.rr_cover.specs.SpanNests.{nested, IsSound};

    ghost view = { λ a. nested a.root };

    ghost invariant = { λ a. IsSound a.root };
}

impl<T> SpanNest<T> {
    /// A nest of no span.
    pub fn new(alloc: Global) -> Self
        ensures { result ≡ span_map.empty }
    {
        SpanNest {
            root: Nest::Empty,
            alloc,
        }
    }

    /// Whether the span crosses one that is held (profile).
    pub fn crosses(&self, span: Span) -> bool
        ensures { result ≡ crosses_some self.now span }
    {
        crosses_any(&self.root, span)
    }

    /// The smallest span held that covers the span, with its value; `None` where none covers it. An
    /// equal one counts (RFC 2725, 9). The last number of the span asked for is not below its
    /// first, and is below 2^32.
    pub fn closest(&self, span: Span) -> Option<(Span, &T)>
        ensures closest { MatchOption result (NoneCovers self.now span)
            (λ p. IsClosest self.now span p.0 p.1.now) }
        ensures ordered { IsSpan span }
    {
        smallest_cover(&self.root, span)
    }

    /// The spans held that cover the span, each once, in order of first, then last number
    /// (profile). An equal one counts. The error is that memory ran out.
    pub fn covering(&self, alloc: Global, span: Span) -> Result<Vec<Span>, AllocError>
        ensures { IfOk result (λ spans. spans.items ≡ covering self.now span) }
    {
        let mut spans = Vec::new(alloc);
        push_covering(&self.root, span, &mut spans)?;
        put_in_order(&mut spans);
        Ok(spans)
    }

    /// How many levels the tree has, at most 28 for a million spans: the sides of each node differ
    /// by one level at most. Tests check this for up to 1,000 spans; no clause says any of it.
    pub fn levels(&self) -> u32 {
        levels(&self.root)
    }
}

impl<T: Drop> SpanNest<T> {
    /// Puts the value at the span, and gives back the value that stood there, if any did (profile).
    /// What stands at other spans stays. The span is refused with `Overlap` exactly if it crosses
    /// one that is held; any other fault is `Memory`, that memory ran out. After either fault
    /// nothing is changed, and the value comes back with it.
    pub fn insert(&mut self, span: Span, value: T) -> Result<Option<T>, InsertFault<T>>
        ensures { InsertsApart self.old span value self.new result }
    {
        if self.crosses(span) {
            return Err(InsertFault::Overlap(value));
        }
        match self.insert_uncrossed(span, value) {
            Ok(old) => Ok(old),
            Err(refused) => Err(InsertFault::Memory(refused.value)),
        }
    }

    /// Puts the value at the span, and gives back the value that stood there, if any did (profile).
    /// What stands at other spans stays. The span must cross none that is held: unlike
    /// [`SpanNest::insert`], this does not look. If memory runs out, nothing changes, and the value
    /// comes back with the fault.
    pub fn insert_uncrossed(&mut self, span: Span, value: T) -> Result<Option<T>, AllocFailed<T>>
        requires { crosses_some self.old span ≡ false }
        ensures inserts { Inserts self.old span value self.new result }
        ensures back { IfErr result (λ refused. refused.value ≡ value) }
    {
        let alloc = self.alloc;
        match set(&mut self.root, alloc, span, value) {
            Ok(old) => Ok(old),
            Err(value) => Err(AllocFailed { value }),
        }
    }

    /// Takes the span out, if it is held, and gives back the value that stood there. All others
    /// stay with their values, those inside it too (profile).
    pub fn remove(&mut self, span: Span) -> Option<T>
        ensures { Removes self.old span self.new result }
    {
        take(&mut self.root, span)
    }
}
