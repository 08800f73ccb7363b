//! Whether spans of one class cross, as a registry is loaded from objects that stand in order
//! already: n spans are gone over once, in O(n) steps. The contracts say only what `true` means.
//! After `false` the objects are gathered one by one, which finds what crosses.

ghost use Rattle.std.specs.Prelude.{◌≡◌, ◌≤◌, ℕ, Bool, IfOk, IsTrue, OnOk};
ghost use Rattle.rr_number.specs.Spans.{Ends};
ghost use Rattle.rr_auth.specs.Elements.{IsIn};
ghost use Rattle.rr_registry.specs.OpenSpanParts.{AreKeptSpans, HasGoneOverNone, IsShortened};
ghost use Rattle.rr_registry.specs.OpenSpanParts.{MayGoOver};
ghost use Rattle.rr_registry.specs.OpenSpanParts.{NeverRises, ends_below};

use rr_number::Span;
use std::alloc::{AllocError, Global};

/// What is kept of spans that are gone over in their order, no two of which cross: where those end
/// that one after them can still cross.
#[derive(Drop)]
pub(crate) struct OpenSpans {
    /// The first number of the span that came last.
    first: u32,
    /// The last numbers of the spans that begin below `first` and reach it: no number is above one
    /// before it.
    outer: Vec<u32>,
    /// The last numbers of the spans that begin at `first`: no number is below one before it.
    level: Vec<u32>,
}

impl OpenSpans {
    /// Nothing gone over yet.
    pub(crate) fn new(alloc: Global) -> OpenSpans
        ensures { HasGoneOverNone result }
    {
        OpenSpans {
            first: 0,
            outer: Vec::new(alloc),
            level: Vec::new(alloc),
        }
    }

    /// Goes on to a span that comes after those before it: true only if it crosses none of them. n
    /// spans take O(n) steps together, and the error is that memory ran out.
    pub(crate) fn go_over(&mut self, span: Span) -> Result<bool, AllocError>
        ensures { IfOk result (MayGoOver self.old span self.new) }
    {
        self.move_on(span.first())?;
        if !reach(&self.outer, span.last()) {
            return Ok(false);
        }
        self.level.push(span.last())?;
        Ok(true)
    }

    /// Goes on to spans that begin at this number; the error is that memory ran out.
    fn move_on(&mut self, first: u32) -> Result<(), AllocError>
        ensures kept { OnOk result ((gone : Ends → Bool) → self.old.first ≤ first
            → AreKeptSpans gone self.old.first self.old.outer.items self.old.level.items
            → AreKeptSpans gone first self.new.outer.items self.new.level.items) }
        ensures first { OnOk result (self.new.first ≡ first) }
    {
        if first == self.first {
            return Ok(());
        }
        self.level.reverse();
        self.outer.append(&mut self.level)?;
        shorten(&mut self.outer, first);
        self.first = first;
        Ok(())
    }
}

/// Takes numbers below this one away from the end.
fn shorten(lasts: &mut Vec<u32>, first: u32)
    ensures { IsShortened first lasts.old.items lasts.new.items }
{
    while ends_below(lasts, first) {
        lasts.pop();
    }
}

/// Whether the last of the numbers is below this one.
fn ends_below(lasts: &[u32], first: u32) -> bool
    ensures { result ≡ ends_below lasts.now first }
{
    match lasts.last() {
        Some(last) => *last < first,
        None => false,
    }
}

/// True only if all of the numbers, which never rise, reach this one.
fn reach(lasts: &[u32], last: u32) -> bool
    ensures { IsTrue result → NeverRises lasts.now → (x : ℕ) → IsIn x lasts.now
        → last ≤ x }
{
    match lasts.last() {
        Some(least) => last <= *least,
        None => true,
    }
}
