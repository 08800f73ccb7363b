//! Putting values into a tree of prefixes: for `PrefixTree::insert`.

ghost use Rattle.std.specs.Prelude.{◌≡◌, true, false, Some, IfOk, IfSome};
ghost use Rattle.std.specs.Option.{option_or};
ghost use Rattle.rr_number.specs.Prefixes.{span_of};
ghost use Rattle.rr_number.specs.Spans.{Ends, covers};
ghost use Rattle.rr_cover.specs.PrefixTrees.{IsFork, IsTree};
ghost use Rattle.rr_cover.specs.TreeParts.{own, standing, is_above, root_of, IsParting};
ghost use Rattle.rr_cover.specs.TreeParts.{StaysRooted, StaysRootedWith, CanPut, CanBranch, Grows};
ghost use Rattle.rr_cover.specs.TreeParts.{PutsInTree};

use super::parting::parting;
use super::reading::{is_same, is_upper};
use super::{Node, Tree};
use rr_number::Prefix;
use std::alloc::Global;
use std::mem;

/// A node of the prefix with no value and nothing below it, unless memory runs out. The clause
/// speaks of its prefix alone.
fn bare<T: Drop>(alloc: Global, prefix: Prefix) -> Option<Box<Node<T>>>
    ensures { IfSome result (λ node. node.value.prefix ≡ prefix) }
{
    let node = Node {
        prefix,
        value: None,
        lower: Tree::Empty,
        upper: Tree::Empty,
    };
    match Box::new(alloc, node) {
        Ok(node) => Some(node),
        Err(_) => None,
    }
}

/// The node, with a value or none, as the root of two trees.
fn make_root<T: Drop>(
    mut node: Box<Node<T>>,
    value: Option<T>,
    lower: Tree<T>,
    upper: Tree<T>,
) -> Tree<T>
    requires { IsFork node.value.prefix lower upper × (IsTree lower × IsTree upper) }
    ensures all { (s : Ends) → standing result s
        ≡ option_or (own node.value.prefix value s)
        (option_or (standing lower s) (standing upper s)) }
    ensures tree { IsTree result }
    ensures root { root_of result ≡ Some node.value.prefix }
{
    node.value = value;
    node.lower = lower;
    node.upper = upper;
    Tree::Fork(node)
}

/// The prefix at the root of a tree.
fn root<T>(tree: &Tree<T>) -> Option<Prefix>
    ensures { result ≡ root_of tree.now }
{
    match tree {
        Tree::Empty => None,
        Tree::Fork(node) => Some(node.prefix),
    }
}

/// Whether the root of a tree covers the prefix.
fn is_above<T>(tree: &Tree<T>, prefix: Prefix) -> bool
    ensures { result ≡ is_above tree.now (span_of prefix) }
{
    match tree {
        Tree::Empty => false,
        Tree::Fork(node) => node.prefix.covers(prefix),
    }
}

/// The node with a value above a tree, which lies in one half of the node's prefix.
fn above<T: Drop>(node: Box<Node<T>>, value: T, root: Prefix, tree: Tree<T>) -> Tree<T>
    requires ready { CanBranch tree root node.value.prefix }
    requires covered { covers (span_of node.value.prefix) (span_of root) ≡ true }
    requires short { covers (span_of root) (span_of node.value.prefix) ≡ false }
    ensures { Grows tree (span_of node.value.prefix) value node.value.prefix result }
{
    if is_upper(node.prefix, root.span()) {
        make_root(node, Some(value), Tree::Empty, tree)
    } else {
        make_root(node, Some(value), tree, Tree::Empty)
    }
}

/// The node with a value beside a tree, both below a node for the prefix at which they part.
fn beside<T: Drop>(
    node: Box<Node<T>>,
    value: T,
    fork: Box<Node<T>>,
    root: Prefix,
    tree: Tree<T>,
) -> Tree<T>
    requires ready { CanBranch tree root node.value.prefix }
    requires parted { IsParting fork.value.prefix node.value.prefix root }
    ensures { Grows tree (span_of node.value.prefix) value fork.value.prefix result }
{
    let upper = is_upper(fork.prefix, node.prefix.span());
    let leaf = make_root(node, Some(value), Tree::Empty, Tree::Empty);
    if upper {
        make_root(fork, None, tree, leaf)
    } else {
        make_root(fork, None, leaf, tree)
    }
}

/// Puts the node with a value beside the tree: neither its prefix nor the root's covers the other.
/// If memory runs out, nothing changes and the value comes back.
fn part<T: Drop>(
    tree: &mut Tree<T>,
    alloc: Global,
    root: Prefix,
    node: Box<Node<T>>,
    value: T,
) -> Result<(), T>
    requires ready { CanBranch tree.old root node.value.prefix }
    requires one { covers (span_of node.value.prefix) (span_of root) ≡ false }
    requires other { covers (span_of root) (span_of node.value.prefix) ≡ false }
    ensures puts { PutsInTree tree.old (span_of node.value.prefix) value tree.new result }
    ensures root { StaysRootedWith (span_of node.value.prefix) tree.old tree.new }
{
    let Some(fork) = bare(alloc, parting(node.prefix, node.prefix, root)) else {
        return Err(value);
    };
    let whole = mem::replace(tree, Tree::Empty);
    *tree = beside(node, value, fork, root, whole);
    Ok(())
}

/// Puts a value at a prefix that the root does not cover. If memory runs out, nothing changes and
/// the value comes back.
fn place<T: Drop>(tree: &mut Tree<T>, alloc: Global, prefix: Prefix, value: T) -> Result<(), T>
    requires ready { CanPut tree.old prefix }
    requires short { is_above tree.old (span_of prefix) ≡ false }
    ensures puts { PutsInTree tree.old (span_of prefix) value tree.new result }
    ensures root { StaysRootedWith (span_of prefix) tree.old tree.new }
{
    let Some(node) = bare(alloc, prefix) else {
        return Err(value);
    };
    let Some(root) = root(tree) else {
        *tree = make_root(node, Some(value), Tree::Empty, Tree::Empty);
        return Ok(());
    };
    if !prefix.covers(root) {
        return part(tree, alloc, root, node, value);
    }
    let whole = mem::replace(tree, Tree::Empty);
    *tree = above(node, value, root, whole);
    Ok(())
}

/// Puts the value at the prefix, and gives back the one that stood there, if any did. The tree must
/// be in order, and the prefix have at most 32 bits, with only zeros after them. If memory runs
/// out, nothing changes and the value comes back. The tree stays in order. Where the old root and
/// the prefix that is put in lie in one half of any prefix, so does the new root.
#[cycle(insertion)]
pub(super) fn set<T: Drop>(
    tree: &mut Tree<T>,
    alloc: Global,
    prefix: Prefix,
    value: T,
) -> Result<Option<T>, T>
    requires { CanPut tree.old prefix }
    ensures stood { IfOk result (λ old. old ≡ standing tree.old (span_of prefix)) }
    ensures puts { PutsInTree tree.old (span_of prefix) value tree.new result }
    ensures root { StaysRootedWith (span_of prefix) tree.old tree.new }
{
    if is_above(tree, prefix) {
        return set_below(tree, alloc, prefix, value);
    }
    place(tree, alloc, prefix, value)?;
    Ok(None)
}

/// Puts the value at the prefix, which the root covers, so the tree is not empty. If memory runs
/// out, nothing changes and the value comes back.
#[cycle(insertion)]
fn set_below<T: Drop>(
    tree: &mut Tree<T>,
    alloc: Global,
    prefix: Prefix,
    value: T,
) -> Result<Option<T>, T>
    requires ready { CanPut tree.old prefix }
    requires over { is_above tree.old (span_of prefix) ≡ true }
    ensures stood { IfOk result (λ old. old ≡ standing tree.old (span_of prefix)) }
    ensures puts { PutsInTree tree.old (span_of prefix) value tree.new result }
    ensures root { StaysRooted tree.old tree.new }
{
    match tree {
        Tree::Empty => Err(value),
        Tree::Fork(node) => {
            if is_same(prefix, node.prefix) {
                Ok(mem::replace(&mut node.value, Some(value)))
            } else if is_upper(node.prefix, prefix.span()) {
                set(&mut node.upper, alloc, prefix, value)
            } else {
                set(&mut node.lower, alloc, prefix, value)
            }
        }
    }
}
