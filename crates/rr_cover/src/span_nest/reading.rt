//! Looking spans up in the search tree of a nest: for `SpanNest`. Changes compare spans by it.

ghost use Rattle.std.specs.Prelude.{◌≡◌, ◌+◌, true, false, nat_le, is_some, IfSome};
ghost use Rattle.std.specs.Prelude.{IfNone};
ghost use Rattle.std.specs.Ordering.{eq_by_cmp};
ghost use Rattle.rr_number.specs.Spans.{Ends, IsSpan, span_cmp};
ghost use Rattle.rr_cover.specs.SpanNests.{is_ahead, standing, Only, IsNest, IsSound};
ghost use Rattle.rr_cover.specs.NestParts.{ends_in, begins_in, IsLastReaching, NoneReaches};
ghost use Rattle.rr_cover.specs.NestParts.{SomeCrosses, NoneCrosses};

use super::{Nest, Node};
use rr_number::Span;

/// Whether a span stands ahead of another: it begins before it, or begins with it and ends after
/// it. So outer spans stand ahead of those inside them.
pub(super) fn is_ahead(span: Span, other: Span) -> bool
    ensures { result ≡ is_ahead span other }
{
    span.first() < other.first() || span.first() == other.first() && other.last() < span.last()
}

/// Whether two spans are one.
pub(super) fn is_same(span: Span, other: Span) -> bool
    ensures { result ≡ eq_by_cmp span_cmp span other }
{
    span == other
}

/// The node of the last span in order of those that begin below a number and reach another one.
/// Where all spans of a part begin below it, the greatest last numbers tell which side to take: so
/// the search goes down one way only.
#[cycle(reaching)]
fn last_reaching<T>(nest: &Nest<T>, below: u64, to: u64) -> Option<&Node<T>>
    requires { IsNest nest.now }
    ensures found { IfSome result
        (λ node. IsLastReaching nest.now below to node.now.span node.now.value) }
    ensures none { IfNone result (NoneReaches nest.now below to) }
{
    match nest {
        Nest::Empty => None,
        Nest::Fork(node) => {
            if below <= u64::from(node.span.first()) {
                return last_reaching_in(&node.before, node.bounds.before, below, to);
            }
            match last_reaching_in(&node.after, node.bounds.after, below, to) {
                Some(found) => Some(found),
                None if to <= u64::from(node.span.last()) => Some(node),
                None => last_reaching_in(&node.before, node.bounds.before, below, to),
            }
        }
    }
}

/// The same node of a side, whose last numbers are at most `greatest`. Where that does not reach,
/// the side is not looked at.
#[cycle(reaching)]
fn last_reaching_in<T>(side: &Nest<T>, greatest: u32, below: u64, to: u64) -> Option<&Node<T>>
    requires order { IsNest side.now }
    requires bound { Only (λ s. nat_le s.last greatest) side.now }
    ensures found { IfSome result
        (λ node. IsLastReaching side.now below to node.now.span node.now.value) }
    ensures none { IfNone result (NoneReaches side.now below to) }
{
    if u64::from(greatest) < to {
        return None;
    }
    last_reaching(side, below, to)
}

/// Whether a span held begins before the span and ends within it. Of `true` the clauses say only
/// that some span held crosses the span.
fn ends_within<T>(nest: &Nest<T>, span: Span) -> bool
    requires { IsSound nest.now }
    ensures found { result ≡ true → SomeCrosses nest.now span }
    ensures none { result ≡ false
        → (t : Ends) → is_some (standing nest.now t) ≡ true → ends_in t span ≡ false }
{
    let first = u64::from(span.first());
    match last_reaching(nest, first, first) {
        Some(held) => held.span.last() < span.last(),
        None => false,
    }
}

/// Whether a span held begins within the span and ends after it. Of `true` the clauses say only
/// that some span held crosses the span.
fn begins_within<T>(nest: &Nest<T>, span: Span) -> bool
    requires { IsSound nest.now }
    ensures found { result ≡ true → SomeCrosses nest.now span }
    ensures none { result ≡ false
        → (t : Ends) → is_some (standing nest.now t) ≡ true → begins_in t span ≡ false }
{
    let next = u64::from(span.last()) + 1;
    match last_reaching(nest, next, next) {
        Some(held) => span.first() < held.span.first(),
        None => false,
    }
}

/// Whether the span crosses one that is held.
pub(super) fn crosses_any<T>(nest: &Nest<T>, span: Span) -> bool
    requires { IsSound nest.now }
    ensures found { result ≡ true → SomeCrosses nest.now span }
    ensures none { result ≡ false → NoneCrosses nest.now span }
{
    ends_within(nest, span) || begins_within(nest, span)
}

/// The last span, in order, that covers the span, with its value: the smallest one, where no two
/// cross; `None` where none covers it. The tree must be in order. The span asked for has its first
/// number not above its last, and this below 2^32.
pub(super) fn smallest_cover<T>(nest: &Nest<T>, span: Span) -> Option<(Span, &T)>
    requires order { IsNest nest.now }
    ensures found { IfSome result
        (λ p. IsLastReaching nest.now (span.first + 1) span.last p.0 p.1.now) }
    ensures none { IfNone result (NoneReaches nest.now (span.first + 1) span.last) }
    ensures ordered { IsSpan span }
{
    match last_reaching(nest, u64::from(span.first()) + 1, u64::from(span.last())) {
        Some(node) => Some((node.span, &node.value)),
        None => None,
    }
}

/// How many levels the tree has.
pub(super) fn levels<T>(nest: &Nest<T>) -> u32 {
    match nest {
        Nest::Empty => 0,
        Nest::Fork(node) => {
            let below = levels(&node.before).max(levels(&node.after));
            below.saturating_add(1)
        }
    }
}
