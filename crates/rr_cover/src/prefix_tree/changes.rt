//! Taking prefixes out of a tree: for `PrefixTree::remove`.

ghost use Rattle.std.specs.Prelude.{◌≡◌, true};
ghost use Rattle.rr_number.specs.Prefixes.{span_of};
ghost use Rattle.rr_number.specs.Spans.{Ends};
ghost use Rattle.rr_cover.specs.PrefixTrees.{IsTree};
ghost use Rattle.rr_cover.specs.TreeParts.{standing, is_empty, is_idle, only_side, StaysRooted};
ghost use Rattle.rr_cover.specs.TreeParts.{TakesFromTree};

use super::reading::{is_same, is_upper};
use super::{Node, Tree};
use rr_number::Prefix;
use std::mem;

/// Whether a node has no value and prefixes on one side at most, so that the tree can do without
/// it.
fn is_idle<T>(node: &Node<T>) -> bool
    ensures { result ≡ is_idle node.now.value node.now.lower node.now.upper }
{
    node.value.is_none() && (is_empty(&node.lower) || is_empty(&node.upper))
}

/// Whether the tree has no node.
fn is_empty<T>(tree: &Tree<T>) -> bool
    ensures { result ≡ is_empty tree.now }
{
    matches!(tree, Tree::Empty)
}

/// The one side of an idle node that may have prefixes.
fn only_side<T: Drop>(node: Node<T>) -> Tree<T>
    requires { is_idle node.value node.lower node.upper ≡ true }
    ensures { result ≡ only_side node.lower node.upper }
{
    let Node { lower, upper, .. } = node;
    match lower {
        Tree::Empty => upper,
        Tree::Fork(_) => lower,
    }
}

/// The tree without its root, where that is idle.
fn tidy<T: Drop>(tree: Tree<T>) -> Tree<T>
    requires { IsTree tree }
    ensures all { (s : Ends) → standing result s ≡ standing tree s }
    ensures tree { IsTree result }
    ensures root { StaysRooted tree result }
{
    match tree {
        Tree::Empty => Tree::Empty,
        Tree::Fork(node) => {
            if is_idle(&node) {
                only_side(Box::into_inner(node))
            } else {
                Tree::Fork(node)
            }
        }
    }
}

/// Takes out the value that stands at the prefix, and gives it back. The tree must be in order, and
/// stays so. Where the old root lies in one half of any prefix, so does the new root. The root goes
/// if the tree can do without it, which no clause says.
#[cycle(removal)]
pub(super) fn take<T: Drop>(tree: &mut Tree<T>, prefix: Prefix) -> Option<T>
    requires { IsTree tree.old }
    ensures { TakesFromTree tree.old (span_of prefix) tree.new result }
{
    let value = take_below(tree, prefix);
    let whole = mem::replace(tree, Tree::Empty);
    *tree = tidy(whole);
    value
}

/// Takes out the value that stands at the prefix. The root stays, even if the tree can do without
/// it.
#[cycle(removal)]
fn take_below<T: Drop>(tree: &mut Tree<T>, prefix: Prefix) -> Option<T>
    requires { IsTree tree.old }
    ensures { TakesFromTree tree.old (span_of prefix) tree.new result }
{
    match tree {
        Tree::Empty => None,
        Tree::Fork(node) => {
            if is_same(prefix, node.prefix) {
                node.value.take()
            } else if is_upper(node.prefix, prefix.span()) {
                take(&mut node.upper, prefix)
            } else {
                take(&mut node.lower, prefix)
            }
        }
    }
}
