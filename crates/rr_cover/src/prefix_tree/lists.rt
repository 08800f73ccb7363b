//! Listing the prefixes of a tree: for `PrefixTree::covering`.

ghost use Rattle.std.specs.Prelude.{◌≡◌, ◌||◌, ◌&&◌, is_some, map, OnOk};
ghost use Rattle.std.specs.List.Sorted.{IsStrictlySortedBy};
ghost use Rattle.std.specs.Ordering.{eq_by_cmp};
ghost use Rattle.rr_number.specs.Prefixes.{span_of};
ghost use Rattle.rr_number.specs.Spans.{Ends, covers, span_cmp};
ghost use Rattle.rr_cover.specs.PrefixTrees.{IsTree};
ghost use Rattle.rr_cover.specs.TreeParts.{standing, is_listed};

use super::Tree;
use rr_number::{Prefix, Span};
use std::alloc::AllocError;

/// Puts the prefix at the end of the list, if it is wanted; the error is that memory ran out.
fn push_if(wanted: bool, prefix: Prefix, out: &mut Vec<Prefix>) -> Result<(), AllocError>
    ensures ok { OnOk result ((u : Ends) → is_listed out.new.items u
        ≡ (is_listed out.old.items u || (eq_by_cmp span_cmp u (span_of prefix) && wanted))) }
{
    if wanted {
        out.push(prefix)?;
    }
    Ok(())
}

/// Puts the list in order of first, then last address, each prefix once. The tree has no prefix
/// twice: dropping repeats spares a proof of that.
pub(super) fn put_in_order(prefixes: &mut Vec<Prefix>)
    ensures rising { IsStrictlySortedBy span_cmp (map span_of prefixes.new.items) }
    ensures same { (u : Ends)
        → is_listed prefixes.new.items u ≡ is_listed prefixes.old.items u }
{
    prefixes.sort_unstable_by_key(|prefix| prefix.span());
    prefixes.dedup_by_key(|prefix| prefix.span());
}

/// Puts the prefixes of a tree that cover the span at the end of the list. A part whose root does
/// not cover it has none. The error is that memory ran out; then the list may have some of them.
pub(super) fn push_covering<T>(
    tree: &Tree<T>,
    span: Span,
    out: &mut Vec<Prefix>,
) -> Result<(), AllocError>
    requires { IsTree tree.now }
    ensures ok { OnOk result ((u : Ends) → is_listed out.new.items u
        ≡ (is_listed out.old.items u || (is_some (standing tree.now u) && covers u span))) }
{
    match tree {
        Tree::Empty => Ok(()),
        Tree::Fork(node) => {
            if !node.prefix.span().covers(span) {
                return Ok(());
            }
            push_if(node.value.is_some(), node.prefix, out)?;
            push_covering(&node.lower, span, out)?;
            push_covering(&node.upper, span, out)
        }
    }
}
