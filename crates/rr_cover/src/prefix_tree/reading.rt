//! Looking prefixes up in a tree: for `PrefixTree`. Changes compare prefixes by it.

ghost use Rattle.std.specs.Prelude.{◌≡◌, ◌≤◌, IfSome, IfNone};
ghost use Rattle.std.specs.Ordering.{eq_by_cmp};
ghost use Rattle.rr_number.specs.Prefixes.{span_of};
ghost use Rattle.rr_number.specs.Spans.{span_cmp};
ghost use Rattle.rr_cover.specs.PrefixTrees.{in_upper, IsTree};
ghost use Rattle.rr_cover.specs.TreeParts.{room, side_of, IsSmallestCover, NoCover};

use super::{Node, Tree};
use rr_number::{Prefix, Span};

/// Whether two prefixes have the same addresses.
pub(super) fn is_same(prefix: Prefix, other: Prefix) -> bool
    ensures { result ≡ eq_by_cmp span_cmp (span_of prefix) (span_of other) }
{
    prefix.span() == other.span()
}

/// Whether a span lies in the upper half of a prefix.
pub(super) fn is_upper(prefix: Prefix, span: Span) -> bool
    ensures { result ≡ in_upper prefix span }
{
    let whole = prefix.span();
    let half = whole.size() / 2;
    u64::from(whole.last()) < u64::from(span.first()) + half && span.last() <= whole.last()
}

/// The side of a node on which a prefix would stand.
fn side<T>(node: &Node<T>, prefix: Prefix) -> &Tree<T>
    ensures { result.now
        ≡ side_of node.now.prefix node.now.lower node.now.upper (span_of prefix) }
{
    if is_upper(node.prefix, prefix.span()) {
        &node.upper
    } else {
        &node.lower
    }
}

/// The smallest prefix held that covers the prefix, with its value; `None` where none covers it.
/// The tree must be in order.
pub(super) fn smallest_cover<T>(tree: &Tree<T>, prefix: Prefix) -> Option<(Prefix, &T)>
    requires { IsTree tree.now }
    ensures found { IfSome result
        (λ p. IsSmallestCover tree.now (span_of prefix) (span_of p.0) p.1.now) }
    ensures none { IfNone result (NoCover tree.now (span_of prefix)) }
{
    match tree {
        Tree::Empty => None,
        Tree::Fork(node) => {
            if !node.prefix.covers(prefix) {
                return None;
            }
            match smallest_cover(side(node, prefix), prefix) {
                Some(found) => Some(found),
                None => match &node.value {
                    Some(value) => Some((node.prefix, value)),
                    None => None,
                },
            }
        }
    }
}

/// How many levels the tree has. The number is at most one for each length from the root's up to
/// 32; no clause says that it is that of the levels. The tree must be in order.
pub(super) fn levels<T>(tree: &Tree<T>) -> u32
    requires { IsTree tree.now }
    ensures { result ≤ room tree.now }
{
    match tree {
        Tree::Empty => 0,
        Tree::Fork(node) => levels(&node.lower).max(levels(&node.upper)) + 1,
    }
}
