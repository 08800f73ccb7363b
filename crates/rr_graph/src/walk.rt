//! The nodes that a walk has found so far: for `reach`, and for the pairs of `pairs`.

ghost use Rattle.std.specs.Prelude.{◌≡◌, [], ◌∷◌, false, map};
ghost use Rattle.std.specs.BTreeSet.{contains};
ghost use Rattle.rr_graph.specs.ListingParts.{AddsListed, IsListing};

use crate::{Nodes, ReachFault};
use std::alloc::Global;
use std::collections::BTreeSet;

/// The nodes found, in the order in which they were, and an index that tells which they are.
#[derive(Drop)]
pub(crate) struct FoundNodes<N: Ord + Drop> {
    pub(crate) list: Vec<N>,
    pub(crate) index: BTreeSet<N>,
}

impl<N: Ord + Drop> FoundNodes<N> {
    /// No nodes.
    pub(crate) fn new(alloc: Global) -> Self
        ensures list { result.list.items ≡ [] }
        ensures index { result.index.keys ≡ [] }
    {
        FoundNodes {
            list: Vec::new(alloc),
            index: BTreeSet::new(alloc),
        }
    }

    /// Adds each of the nodes that is not there yet. `TooMany` says that they and those found are
    /// more than `limit`. After a fault no clause says which are there.
    pub(crate) fn add_all<G: Nodes<Node = N>>(
        &mut self,
        alloc: Global,
        graph: &G,
        nodes: Vec<N>,
        limit: usize,
    ) -> Result<(), ReachFault>
        requires { IsListing N.cmp limit self.old.list.items self.old.index }
        ensures { AddsListed N.cmp limit nodes.items self.old self.new result }
    {
        let mut nodes = nodes;
        while let Some(node) = nodes.pop() {
            self.add(alloc, graph, node, limit)?;
        }
        Ok(())
    }

    /// Adds a copy of each of the nodes that is not there yet. The faults are those of `add_all`.
    pub(crate) fn add_copies<G: Nodes<Node = N>>(
        &mut self,
        alloc: Global,
        graph: &G,
        nodes: &[&N],
        limit: usize,
    ) -> Result<(), ReachFault>
        requires { IsListing N.cmp limit self.old.list.items self.old.index }
        ensures { AddsListed N.cmp limit (map (λ n. n.now) nodes.now) self.old self.new result }
    {
        for node in nodes {
            self.add_copy(alloc, graph, node, limit)?;
        }
        Ok(())
    }

    /// Adds the node, unless it is there. The faults are those of `add_all`.
    pub(crate) fn add<G: Nodes<Node = N>>(
        &mut self,
        alloc: Global,
        graph: &G,
        node: N,
        limit: usize,
    ) -> Result<(), ReachFault>
        requires { IsListing N.cmp limit self.old.list.items self.old.index }
        ensures { AddsListed N.cmp limit (node ∷ []) self.old self.new result }
    {
        if self.index.contains(&node) {
            return Ok(());
        }
        self.push(alloc, graph, node, limit)
    }

    /// Adds a copy of the node, unless it is there. The faults are those of `add_all`.
    fn add_copy<G: Nodes<Node = N>>(
        &mut self,
        alloc: Global,
        graph: &G,
        node: &N,
        limit: usize,
    ) -> Result<(), ReachFault>
        requires { IsListing N.cmp limit self.old.list.items self.old.index }
        ensures { AddsListed N.cmp limit (node.now ∷ []) self.old self.new result }
    {
        if self.index.contains(node) {
            return Ok(());
        }
        let copy = graph.copy(alloc, node)?;
        self.push(alloc, graph, copy, limit)
    }

    /// Adds the node, which is not there. The faults are those of `add_all`.
    fn push<G: Nodes<Node = N>>(
        &mut self,
        alloc: Global,
        graph: &G,
        node: N,
        limit: usize,
    ) -> Result<(), ReachFault>
        requires listing { IsListing N.cmp limit self.old.list.items self.old.index }
        requires absent { contains N.cmp self.old.index node ≡ false }
        ensures { AddsListed N.cmp limit (node ∷ []) self.old self.new result }
    {
        if self.list.len() >= limit {
            return Err(ReachFault::TooMany);
        }
        self.index.insert(graph.copy(alloc, &node)?)?;
        self.list.push(node)?;
        Ok(())
    }

    /// The list of the nodes, in the order in which they were found.
    pub(crate) fn into_list(self) -> Vec<N>
        ensures { result ≡ self.list }
    {
        let FoundNodes { list, index: _ } = self;
        list
    }
}
