//! The edges of a labelled graph by the node to which they lead: `gathering` makes them, and
//! `pairs` goes over them.

ghost use Rattle.std.specs.Prelude.{◌≡◌, [], ◌∷◌, ◌++◌, OnOk, IfOk};
ghost use Rattle.std.specs.Prelude.{if◌then◌else◌};
ghost use Rattle.std.specs.BTreeMap.{is_at};
ghost use Rattle.rr_graph.specs.Looks.{AreLooks};
ghost use Rattle.rr_graph.specs.ReversedParts.{edges_at, AddsBackward, IsBackward};

use crate::labels::{Edge, Labelled};
use std::alloc::{AllocError, Global};
use std::collections::BTreeMap;

/// Each edge under the node to which it leads, as that node sees it: `to` is the node that it
/// leaves.
#[derive(Drop)]
pub(crate) struct Backward<N: Ord + Drop, L: Copy + Drop> {
    map: BTreeMap<N, Vec<Edge<N, L>>>,
}

impl<N: Ord + Drop, L: Copy + Drop> Backward<N, L> {
    /// No edges.
    pub(crate) fn new(alloc: Global) -> Self
        ensures { (node : N) → edges_at N.cmp result.map node ≡ [] }
    {
        Backward {
            map: BTreeMap::new(alloc),
        }
    }

    /// The edges that lead to the node.
    pub(crate) fn at(&self, node: &N) -> &[Edge<N, L>]
        ensures { result.now ≡ edges_at N.cmp self.now.map node.now }
    {
        match self.map.get(node) {
            Some(edges) => edges.as_slice(),
            None => &[],
        }
    }

    /// Adds an edge that leads to `head`. After a refusal edges may be gone.
    fn add(&mut self, alloc: Global, head: N, edge: Edge<N, L>) -> Result<(), AllocError>
        ensures { OnOk result ((node : N) → edges_at N.cmp self.new.map node
            ≡ (if is_at (N.cmp head) node then edges_at N.cmp self.old.map head ++ edge ∷ []
            else edges_at N.cmp self.old.map node)) }
    {
        let mut edges = self.map.remove(&head).unwrap_or(Vec::new(alloc));
        edges.push(edge)?;
        self.map.insert(head, edges)?;
        Ok(())
    }

    /// Adds the edges that leave `tail`. After a refusal edges may be gone.
    fn add_all<G: Labelled<Node = N, Label = L>>(
        &mut self,
        alloc: Global,
        graph: &G,
        tail: &N,
        edges: Vec<Edge<N, L>>,
    ) -> Result<(), AllocError>
        ensures { OnOk result (AddsBackward (edges_at N.cmp self.old.map) tail.now edges.items
            (edges_at N.cmp self.new.map)) }
    {
        let mut edges = edges;
        while let Some(edge) = edges.pop() {
            let Edge { to: head, label } = edge;
            let to = graph.copy(alloc, tail)?;
            self.add(alloc, head, Edge { to, label })?;
        }
        Ok(())
    }
}

/// The edges that leave one of the nodes; `looks` are those at the nodes.
pub(crate) fn reversed<G: Labelled>(
    alloc: Global,
    graph: &G,
    nodes: &[G::Node],
    looks: &[G::Look],
) -> Result<Backward<G::Node, G::Label>, AllocError>
    requires { AreLooks (G.shows graph.now) nodes.now looks.now }
    ensures { IfOk result
        (λ backward. IsBackward (G.edge graph.now) nodes.now (edges_at G.Node.cmp backward.map)) }
{
    let mut backward = Backward::new(alloc);
    for (place, tail) in nodes.iter().enumerate() {
        let edges = graph.edges(alloc, tail, &looks[place])?;
        backward.add_all(alloc, graph, tail, edges)?;
    }
    Ok(backward)
}
