//! Listing the spans of the search tree of a nest: for `SpanNest::covering`.

ghost use Rattle.std.specs.Prelude.{◌≡◌, ◌||◌, ◌&&◌, is_some, OnOk};
ghost use Rattle.std.specs.List.Sorted.{IsStrictlySortedBy};
ghost use Rattle.std.specs.Ordering.{eq_by_cmp};
ghost use Rattle.rr_number.specs.Spans.{Ends, covers, span_cmp};
ghost use Rattle.rr_cover.specs.NestParts.{lists_span};
ghost use Rattle.rr_cover.specs.SpanNests.{standing, IsNest};

use super::Nest;
use rr_number::Span;
use std::alloc::AllocError;

/// Puts the span at the end of the list, if it is wanted; the error is that memory ran out.
fn push_if(wanted: bool, span: Span, out: &mut Vec<Span>) -> Result<(), AllocError>
    ensures ok { OnOk result ((u : Ends) → lists_span out.new.items u
        ≡ (lists_span out.old.items u || (eq_by_cmp span_cmp u span && wanted))) }
{
    if wanted {
        out.push(span)?;
    }
    Ok(())
}

/// Puts the list in order of first, then last number, each span once. The tree has the greatest of
/// the spans with one first number first, so its order is another. It has no span twice: dropping
/// repeats spares a proof of that.
pub(super) fn put_in_order(spans: &mut Vec<Span>)
    ensures rising { IsStrictlySortedBy span_cmp spans.new.items }
    ensures same { (u : Ends) → lists_span spans.new.items u ≡ lists_span spans.old.items u }
{
    spans.sort_unstable();
    spans.dedup();
}

/// Puts the spans of a tree that cover the span at the end of the list. Parts are passed by if none
/// of their spans reaches its last number, or all begin after its first. The error is that memory
/// ran out; then the list may have some of them.
pub(super) fn push_covering<T>(
    nest: &Nest<T>,
    span: Span,
    out: &mut Vec<Span>,
) -> Result<(), AllocError>
    requires { IsNest nest.now }
    ensures ok { OnOk result ((u : Ends) → lists_span out.new.items u
        ≡ (lists_span out.old.items u
        || (is_some (standing nest.now u) && covers u span))) }
{
    match nest {
        Nest::Empty => Ok(()),
        Nest::Fork(node) => {
            if node.bounds.before.max(node.bounds.after) < span.last() {
                return Ok(());
            }
            push_covering(&node.before, span, out)?;
            if span.first() < node.span.first() {
                return Ok(());
            }
            push_if(node.span.covers(span), node.span, out)?;
            push_covering(&node.after, span, out)
        }
    }
}
