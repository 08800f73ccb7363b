//! Graphs whose edges carry labels, and whose nodes have values: what `gather` goes through.

ghost use Rattle.std.specs.Prelude.{◌≡◌, ◌↔◌, Bool, Contains, IfOk, None, Option, false};
ghost use Rattle.std.proofs.lemmas.Map.Lookups.{CmpEqualImpliesEq};

use std::alloc::{AllocError, Global};

/// An edge, as the node that it leaves sees it. Edges are ordered by node, then by label: so
/// `rr_sets` sorts references.
#[derive(PartialEq, Eq, PartialOrd, Ord, Drop)]
pub struct Edge<N, L> {
    /// The node to which the edge leads.
    pub to: N,
    /// What it does to the values that are found there.
    pub label: L,
}

/// What a look at a node of a labelled graph found, and the edges that leave the node.
#[derive(Drop)]
pub(crate) struct Seen<N, L, K> {
    pub(crate) look: K,
    pub(crate) edges: Vec<Edge<N, L>>,
}

/// A directed graph whose edges carry labels. Nodes have values of their own, and a label makes a
/// value into another or drops it.
pub trait Labelled {
    /// A node. Two nodes compare `Equal` only where they are the same.
    type Node: Ord + Drop;

    /// What a look at a node finds.
    type Look: Drop;

    /// A label of an edge.
    type Label: Copy + Drop;

    /// A value. Two values compare `Equal` only where they are the same.
    type Value: Ord + Copy + Drop;

    /// What a label that changes values looks at in a value, such as the least length of a range.
    /// Two kinds compare `Equal` only where they are the same.
    type Kind: Ord + Copy + Drop;

    /// What else decides what such a label makes of a value, such as the prefix of a range. Two
    /// groups compare `Equal` only where they are the same.
    type Group: Ord + Copy + Drop;

    /// A look at the node may find this.
    ghost shows: { Self → Self.Node → Self.Look → Type 0 };

    /// An edge with this label leads from the first node to the second.
    ghost edge: { Self → Self.Node → Self.Node → Self.Label → Type 0 };

    /// The node has the value by itself.
    ghost own: { Self → Self.Node → Self.Value → Type 0 };

    /// What the label makes of the value; `None` where it drops it.
    ghost passed: { Self.Label → Self.Value → Option Self.Value };

    /// The label counts as one that leaves values as they are; all others are the labels that
    /// change values. Only the time of a search depends on which count so.
    ghost keeps: { Self.Label → Bool };

    /// What labels that change values look at in the value.
    ghost kind_of: { Self.Value → Self.Kind };

    /// What else decides what labels that change values make of the value.
    ghost group_of: { Self.Value → Self.Group };

    /// Lists exactly the edges that leave the node, in any order, where one may come more than
    /// once; the error is that memory ran out. `look` is what a look at the node found. `gather`
    /// keeps to the steps that it states if those to one node stand side by side, which no clause
    /// asks.
    fn edges(
        &self,
        alloc: Global,
        node: &Self::Node,
        look: &Self::Look,
    ) -> Result<Vec<Edge<Self::Node, Self::Label>>, AllocError>
        requires { shows self.now node.now look.now }
        ensures { IfOk result (λ edges. (to : Self.Node) (label : Self.Label) → Contains
            edges.items (record { to = to; label = label }) ↔ edge self.now node.now to label) };

    /// Lists exactly the values that the node has by itself, in any order, where one may come more
    /// than once; the error is that memory ran out. `look` is what a look at the node found.
    fn values(
        &self,
        alloc: Global,
        node: &Self::Node,
        look: &Self::Look,
    ) -> Result<Vec<Self::Value>, AllocError>
        requires { shows self.now node.now look.now }
        ensures { IfOk result (λ values. (value : Self.Value)
            → Contains values.items value ↔ own self.now node.now value) };

    /// What the label makes of the value; `None` where it drops it.
    fn pass(&self, label: Self::Label, value: Self::Value) -> Option<Self::Value>
        ensures { result ≡ passed label value };

    /// Whether the label counts as one that leaves values as they are.
    fn keeps(&self, label: Self::Label) -> bool
        ensures { result ≡ keeps label };

    /// What labels that change values look at in the value.
    fn kind(&self, value: Self::Value) -> Self::Kind
        ensures { result ≡ kind_of value };

    /// What else decides what labels that change values make of the value.
    fn group(&self, value: Self::Value) -> Self::Group
        ensures { result ≡ group_of value };

    /// Makes an equal node; the error is that memory ran out.
    fn copy(&self, alloc: Global, node: &Self::Node) -> Result<Self::Node, AllocError>
        ensures { IfOk result (λ same. same ≡ node.now) };

    /// Nodes that compare `Equal` are the same.
    ghost exact_nodes: { CmpEqualImpliesEq Self.Node.cmp };

    /// Values that compare `Equal` are the same.
    ghost exact_values: { CmpEqualImpliesEq Self.Value.cmp };

    /// Kinds that compare `Equal` are the same.
    ghost exact_kinds: { CmpEqualImpliesEq Self.Kind.cmp };

    /// Groups that compare `Equal` are the same.
    ghost exact_groups: { CmpEqualImpliesEq Self.Group.cmp };

    /// Two labels that change values, and do the same to one value, do the same to each value of
    /// its kind. They make the same value of it, or both drop it.
    ghost alike: { (l m : Self.Label) (v w : Self.Value) → keeps l ≡ false → keeps m ≡ false
        → kind_of v ≡ kind_of w → passed l v ≡ passed m v → passed l w ≡ passed m w };

    /// A label that changes values, and drops a value, drops each value of its kind.
    ghost dropped: { (l : Self.Label) (v w : Self.Value) → keeps l ≡ false
        → kind_of v ≡ kind_of w → passed l v ≡ None → passed l w ≡ None };

    /// A label that changes values does the same to all values of one kind and group.
    ghost same: { (l : Self.Label) (v w : Self.Value) → keeps l ≡ false → kind_of v ≡ kind_of w
        → group_of v ≡ group_of w → passed l v ≡ passed l w };
}

/// A labelled graph whose nodes can be looked at: what `gather` goes through.
pub trait LabelledGraph: Labelled {
    /// Looks at the node; the error is that memory ran out.
    fn look(&self, alloc: Global, node: &Self::Node) -> Result<Self::Look, AllocError>
        ensures { IfOk result (λ look. Self.shows self.now node.now look) };
}
