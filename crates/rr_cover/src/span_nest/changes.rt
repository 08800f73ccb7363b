//! Changing the search tree of a nest, and keeping it balanced (AVL): for what `SpanNest` inserts
//! and removes. No clause speaks of heights or of balance.

ghost use Rattle.std.specs.Prelude.{◌≡◌, nat_le, None, Some, is_some, IfOk, IfSome, IfNone};
ghost use Rattle.std.specs.Prelude.{OnErr};
ghost use Rattle.std.specs.Option.{option_or};
ghost use Rattle.rr_number.specs.Spans.{Ends, IsSpan};
ghost use Rattle.rr_cover.specs.SpanNests.{at_span, is_ahead, standing, Only, IsBound, IsNest};
ghost use Rattle.rr_cover.specs.NestParts.{with_before, with_after, IsTakenApart, Precedes};
ghost use Rattle.rr_cover.specs.NestParts.{CanJoin, Joins, HoldsSame, Lacks, Gains, Loses};
ghost use Rattle.rr_cover.specs.NestParts.{PutsInNest};

use super::bounds::Lasts;
use super::reading::{is_ahead, is_same};
use super::{Nest, Node};
use rr_number::Span;
use std::alloc::Global;
use std::mem;

/// How many levels the tree has, as its root says.
fn height<T>(nest: &Nest<T>) -> u8 {
    match nest {
        Nest::Empty => 0,
        Nest::Fork(node) => node.height,
    }
}

/// A number that no last number of the tree is above.
fn greatest<T>(nest: &Nest<T>) -> u32
    requires { IsNest nest.now }
    ensures { Only (λ s. nat_le s.last result) nest.now }
{
    match nest {
        Nest::Empty => 0,
        Nest::Fork(node) => node.bounds.before.max(node.bounds.after),
    }
}

/// The root of the tree and its two subtrees, cut off from it.
fn open<T: Drop>(nest: Nest<T>) -> Option<(Box<Node<T>>, Nest<T>, Nest<T>)>
    requires { IsNest nest }
    ensures some { IfSome result (λ p. IsTakenApart nest p.0.value.span p.0.value.value p.1 p.2) }
    ensures none { IfNone result ((s : Ends) → standing nest s ≡ None) }
{
    match nest {
        Nest::Empty => None,
        Nest::Fork(mut node) => {
            let before = mem::replace(&mut node.before, Nest::Empty);
            let after = mem::replace(&mut node.after, Nest::Empty);
            Some((node, before, after))
        }
    }
}

/// The bounds of a node with the span and the two sides.
fn bounds_over<T>(span: Span, before: &Nest<T>, after: &Nest<T>) -> Lasts
    requires { IsNest before.now × IsNest after.now }
    ensures { IsBound result span before.now after.now }
{
    let last = span.last();
    Lasts {
        before: greatest(before).max(last),
        after: greatest(after),
    }
}

/// The node as the root of two trees, with a height and bounds that it is given.
fn link<T: Drop>(
    mut node: Box<Node<T>>,
    height: u8,
    bounds: Lasts,
    before: Nest<T>,
    after: Nest<T>,
) -> Nest<T>
    requires sides { CanJoin node.value.span before after }
    requires bound { IsBound bounds node.value.span before after }
    ensures { Joins before node.value.span node.value.value after result }
{
    node.height = height;
    node.bounds = bounds;
    node.before = before;
    node.after = after;
    Nest::Fork(node)
}

/// The node as the root of two trees, with its height and bounds by theirs.
fn make_root<T: Drop>(node: Box<Node<T>>, before: Nest<T>, after: Nest<T>) -> Nest<T>
    requires { CanJoin node.value.span before after }
    ensures { Joins before node.value.span node.value.value after result }
{
    let height = height(&before).max(height(&after)).saturating_add(1);
    let bounds = bounds_over(node.span, &before, &after);
    link(node, height, bounds, before, after)
}

/// The node as the root of two trees, rotated where one is two levels higher than the other.
fn rebalance<T: Drop>(node: Box<Node<T>>, before: Nest<T>, after: Nest<T>) -> Nest<T>
    requires { CanJoin node.value.span before after }
    ensures { Joins before node.value.span node.value.value after result }
{
    let (height_before, height_after) = (height(&before), height(&after));
    if height_before > height_after.saturating_add(1) {
        rotate_right(node, before, after)
    } else if height_after > height_before.saturating_add(1) {
        rotate_left(node, before, after)
    } else {
        make_root(node, before, after)
    }
}

/// The node as the root of two trees, rotated to the right: the root of the one before comes to the
/// top, or, where the inner side of that one is the higher, the root of this: a double rotation.
fn rotate_right<T: Drop>(node: Box<Node<T>>, before: Nest<T>, after: Nest<T>) -> Nest<T>
    requires { CanJoin node.value.span before after }
    ensures { Joins before node.value.span node.value.value after result }
{
    let Some((root, outer, inner)) = open(before) else {
        return make_root(node, Nest::Empty, after);
    };
    if height(&outer) >= height(&inner) {
        let right = make_root(node, inner, after);
        return make_root(root, outer, right);
    }
    let Some((top, low, high)) = open(inner) else {
        let right = make_root(node, Nest::Empty, after);
        return make_root(root, outer, right);
    };
    let left = make_root(root, outer, low);
    let right = make_root(node, high, after);
    make_root(top, left, right)
}

/// The node as the root of two trees, rotated to the left: the root of the one after comes to the
/// top, or, where the inner side of that one is the higher, the root of this: a double rotation.
fn rotate_left<T: Drop>(node: Box<Node<T>>, before: Nest<T>, after: Nest<T>) -> Nest<T>
    requires { CanJoin node.value.span before after }
    ensures { Joins before node.value.span node.value.value after result }
{
    let Some((root, inner, outer)) = open(after) else {
        return make_root(node, before, Nest::Empty);
    };
    if height(&outer) >= height(&inner) {
        let left = make_root(node, before, inner);
        return make_root(root, left, outer);
    }
    let Some((top, low, high)) = open(inner) else {
        let left = make_root(node, before, Nest::Empty);
        return make_root(root, left, outer);
    };
    let left = make_root(node, before, low);
    let right = make_root(root, high, outer);
    make_root(top, left, right)
}

/// The tree, rotated at its root where one side is two levels higher than the other.
fn rebalanced<T: Drop>(nest: Nest<T>) -> Nest<T>
    requires { IsNest nest }
    ensures { HoldsSame nest result }
{
    let Some((root, before, after)) = open(nest) else {
        return Nest::Empty;
    };
    rebalance(root, before, after)
}

/// Sets the root's height by its sides', and tells whether these differ by a level at most; else
/// nothing is done.
fn update_height<T>(nest: &mut Nest<T>) -> bool
    requires { IsNest nest.old }
    ensures { HoldsSame nest.old nest.new }
{
    match nest {
        Nest::Empty => true,
        Nest::Fork(node) => {
            let (height_before, height_after) = (height(&node.before), height(&node.after));
            if height_before.abs_diff(height_after) > 1 {
                return false;
            }
            node.height = height_before.max(height_after).saturating_add(1);
            true
        }
    }
}

/// Rotates the tree at its root where one side is two levels higher than the other, and sets the
/// root's height.
fn rebalance_root<T: Drop>(nest: &mut Nest<T>)
    requires { IsNest nest.old }
    ensures { HoldsSame nest.old nest.new }
{
    if !update_height(nest) {
        let whole = mem::replace(nest, Nest::Empty);
        *nest = rebalanced(whole);
    }
}

/// Widens the node's bounds so that the side before may have the last number, and tells whether
/// that side rose to the node's height.
fn grow_before<T>(node: &mut Node<T>, last: u32) -> bool
    ensures { node.new ≡ record node.old { bounds = with_before node.old.bounds last } }
{
    node.bounds = node.bounds.with_before(last);
    node.height <= height(&node.before)
}

/// Widens the node's bounds so that the side after may have the last number, and tells whether
/// that side rose to the node's height.
fn grow_after<T>(node: &mut Node<T>, last: u32) -> bool
    ensures { node.new ≡ record node.old { bounds = with_after node.old.bounds last } }
{
    node.bounds = node.bounds.with_after(last);
    node.height <= height(&node.after)
}

/// Inserts a node whose span is not held.
#[cycle(inserting)]
fn insert_node<T: Drop>(nest: &mut Nest<T>, leaf: Box<Node<T>>)
    requires { Lacks nest.old leaf.value.span }
    ensures { Gains nest.old leaf.value.span leaf.value.value nest.new }
{
    if insert_below(nest, leaf) {
        rebalance_root(nest);
    }
}

/// Inserts a node whose span is not held, and tells whether a side rose to the root's height: then
/// that is not set anew yet, and the sides may differ by two levels.
#[cycle(inserting)]
fn insert_below<T: Drop>(nest: &mut Nest<T>, leaf: Box<Node<T>>) -> bool
    requires { Lacks nest.old leaf.value.span }
    ensures { Gains nest.old leaf.value.span leaf.value.value nest.new }
{
    match nest {
        Nest::Empty => {
            *nest = make_root(leaf, Nest::Empty, Nest::Empty);
            false
        }
        Nest::Fork(node) => {
            let last = leaf.span.last();
            if is_ahead(leaf.span, node.span) {
                insert_node(&mut node.before, leaf);
                grow_before(node, last)
            } else {
                insert_node(&mut node.after, leaf);
                grow_after(node, last)
            }
        }
    }
}

/// The first node of a tree that is taken apart at its root, and the tree without it.
fn split_first<T: Drop>(
    root: Box<Node<T>>,
    before: Nest<T>,
    after: Nest<T>,
) -> (Box<Node<T>>, Nest<T>)
    requires { CanJoin root.value.span before after }
    ensures ends { IsSpan result.0.value.span }
    ensures all { (s : Ends)
        → option_or (at_span result.0.value.span result.0.value.value s) (standing result.1 s)
        ≡ option_or (standing before s)
        (option_or (at_span root.value.span root.value.value s) (standing after s)) }
    ensures first { Only (λ s. is_ahead result.0.value.span s) result.1 }
    ensures nest { IsNest result.1 }
{
    let Some((next, low, high)) = open(before) else {
        return (root, after);
    };
    let (first, rest) = split_first(next, low, high);
    let rest = rebalance(root, rest, after);
    (first, rest)
}

/// Two trees as one: the spans of the first stand ahead of those of the second.
fn join<T: Drop>(before: Nest<T>, after: Nest<T>) -> Nest<T>
    requires order { Precedes before after }
    requires nests { IsNest before × IsNest after }
    ensures all { (s : Ends)
        → standing result s ≡ option_or (standing before s) (standing after s) }
    ensures nest { IsNest result }
{
    let Some((root, low, high)) = open(after) else {
        return before;
    };
    let (first, rest) = split_first(root, low, high);
    rebalance(first, before, rest)
}

/// The value of a node.
fn into_value<T: Drop>(node: Node<T>) -> T
    ensures { result ≡ node.value }
{
    let Node { value, .. } = node;
    value
}

/// The value that stands at the span, and the tree without it.
fn take_out<T: Drop>(nest: Nest<T>, span: Span) -> (Option<T>, Nest<T>)
    requires { IsNest nest }
    ensures value { result.0 ≡ standing nest span }
    ensures rest { Loses nest span result.1 }
{
    let Some((root, before, after)) = open(nest) else {
        return (None, Nest::Empty);
    };
    if is_same(span, root.span) {
        let rest = join(before, after);
        return (Some(into_value(Box::into_inner(root))), rest);
    }
    if is_ahead(span, root.span) {
        let (value, before) = take_out(before, span);
        (value, rebalance(root, before, after))
    } else {
        let (value, after) = take_out(after, span);
        (value, rebalance(root, before, after))
    }
}

/// Puts a value in the place of the one that stands at the span; where none stands there it comes
/// back.
fn replace<T: Drop>(nest: &mut Nest<T>, span: Span, value: T) -> Result<T, T>
    requires { IsNest nest.old }
    ensures stood { IfOk result (λ old. standing nest.old span ≡ Some old) }
    ensures puts { PutsInNest nest.old span value nest.new result }
    ensures missing { OnErr result (standing nest.old span ≡ None) }
    ensures kept { (s : Ends) → is_some (standing nest.new s) ≡ is_some (standing nest.old s) }
{
    match nest {
        Nest::Empty => Err(value),
        Nest::Fork(node) => {
            if is_same(span, node.span) {
                Ok(mem::replace(&mut node.value, value))
            } else if is_ahead(span, node.span) {
                replace(&mut node.before, span, value)
            } else {
                replace(&mut node.after, span, value)
            }
        }
    }
}

/// Puts a value at a span that is not held. If memory runs out, nothing changes and the value comes
/// back.
fn add<T: Drop>(nest: &mut Nest<T>, alloc: Global, span: Span, value: T) -> Result<(), T>
    requires order { IsNest nest.old }
    requires missing { standing nest.old span ≡ None }
    ensures { PutsInNest nest.old span value nest.new result }
{
    let node = Node {
        span,
        value,
        height: 1,
        bounds: Lasts {
            before: span.last(),
            after: 0,
        },
        before: Nest::Empty,
        after: Nest::Empty,
    };
    match Box::new(alloc, node) {
        Ok(node) => {
            insert_node(nest, node);
            Ok(())
        }
        Err(refused) => Err(into_value(refused.value)),
    }
}

/// Puts the value at the span, and gives back the one that stood there, if any did. The tree must
/// be in order, and stays so. If memory runs out, nothing changes and the value comes back.
pub(super) fn set<T: Drop>(
    nest: &mut Nest<T>,
    alloc: Global,
    span: Span,
    value: T,
) -> Result<Option<T>, T>
    requires { IsNest nest.old }
    ensures stood { IfOk result (λ old. old ≡ standing nest.old span) }
    ensures puts { PutsInNest nest.old span value nest.new result }
{
    let value = match replace(nest, span, value) {
        Ok(old) => return Ok(Some(old)),
        Err(value) => value,
    };
    add(nest, alloc, span, value)?;
    Ok(None)
}

/// Takes out the value that stands at the span, and gives it back. The tree must be in order, and
/// stays so.
pub(super) fn take<T: Drop>(nest: &mut Nest<T>, span: Span) -> Option<T>
    requires { IsNest nest.old }
    ensures value { result ≡ standing nest.old span }
    ensures rest { Loses nest.old span nest.new }
{
    let whole = mem::replace(nest, Nest::Empty);
    let (value, rest) = take_out(whole, span);
    *nest = rest;
    value
}
