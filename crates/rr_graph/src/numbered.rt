//! A labelled graph whose nodes are numbers, as `gathering` makes it of any other.

ghost use Rattle.std.specs.Prelude.{◌≡◌, IfOk, Some, length};
ghost use Rattle.std.specs.BTreeMap.{get, ContainsKey};
ghost use Rattle.std.specs.List.{filter_map};
ghost use Rattle.std.specs.Ordering.{nat_cmp};
ghost use Rattle.rr_graph.specs.Chain.{HasNoRepeats};
ghost use Rattle.rr_graph.specs.Looks.{AreLooks};
ghost use Rattle.rr_graph.specs.NumberedParts.{AreAllPlaces, ArePlaced, IsNumbered, IsPlaced};
ghost use Rattle.rr_graph.specs.NumberedParts.{IsSeen, placed_edge};
ghost use Rattle.rr_graph.specs.ReversedParts.{edges_at};

use crate::labels::{Edge, Labelled, Seen};
use std::alloc::{AllocError, Global};
use std::collections::BTreeMap;

/// A labelled graph by the places of its nodes in a list, and what was seen at these. From then on
/// nodes are compared and copied as numbers, which is what most of a walk consists of.
#[derive(Drop)]
pub(crate) struct Numbered<'a, G: Labelled> {
    graph: &'a G,
    nodes: &'a [G::Node],
    places: BTreeMap<G::Node, u32>,
    edges: BTreeMap<u32, Vec<Edge<u32, G::Label>>>,
}

impl<G: Labelled> Labelled for Numbered<'_, G> {
    ghost use Rattle.std.specs.Prelude.{Contains};
    ghost use Rattle.std.specs.Ordering.{nat_cmp};
    ghost use Rattle.std.proofs.lemmas.Map.Lookups.{exact_unsigned};
    ghost use Rattle.rr_graph.specs.NumberedParts.{IsAt, IsSeen};
    ghost use Rattle.rr_graph.specs.ReversedParts.{edges_at};

    type Node = u32;

    type Look = Seen<G::Node, G::Label, G::Look>;

    type Label = G::Label;

    type Value = G::Value;

    type Kind = G::Kind;

    type Group = G::Group;

    ghost shows = { λ s place seen. (node : G.Node) × IsAt s.nodes.now place node
        × IsSeen (G.edge s.graph.now) (G.shows s.graph.now) node seen };

    ghost edge = { λ s from to label. Contains (edges_at nat_cmp s.edges from)
        (record { to = to; label = label }) };

    ghost own = { λ s place value. (node : G.Node) × IsAt s.nodes.now place node
        × G.own s.graph.now node value };

    ghost passed = { G.passed };

    ghost keeps = { G.keeps };

    ghost kind_of = { G.kind_of };

    ghost group_of = { G.group_of };

    ghost exact_nodes = { exact_unsigned };

    ghost exact_values = { G.exact_values };

    ghost exact_kinds = { G.exact_kinds };

    ghost exact_groups = { G.exact_groups };

    ghost alike = { G.alike };

    ghost dropped = { G.dropped };

    ghost same = { G.same };

    fn edges(
        &self,
        alloc: Global,
        place: &u32,
        _seen: &Seen<G::Node, G::Label, G::Look>,
    ) -> Result<Vec<Edge<u32, G::Label>>, AllocError> {
        copies(alloc, self.leaving(*place))
    }

    fn values(
        &self,
        alloc: Global,
        place: &u32,
        seen: &Seen<G::Node, G::Label, G::Look>,
    ) -> Result<Vec<G::Value>, AllocError> {
        match self.nodes.get(*place as usize) {
            Some(node) => self.graph.values(alloc, node, &seen.look),
            None => Ok(Vec::new(alloc)),
        }
    }

    fn pass(&self, label: G::Label, value: G::Value) -> Option<G::Value> {
        self.graph.pass(label, value)
    }

    fn keeps(&self, label: G::Label) -> bool {
        self.graph.keeps(label)
    }

    fn kind(&self, value: G::Value) -> G::Kind {
        self.graph.kind(value)
    }

    fn group(&self, value: G::Value) -> G::Group {
        self.graph.group(value)
    }

    fn copy(&self, _alloc: Global, place: &u32) -> Result<u32, AllocError> {
        Ok(*place)
    }
}

impl<'a, G: Labelled> Numbered<'a, G> {
    /// The graph by the places of the nodes, without edges to other nodes; `seen` is what was seen
    /// at each.
    pub(crate) fn new(
        alloc: Global,
        graph: &'a G,
        nodes: &'a [G::Node],
        seen: &'a [Seen<G::Node, G::Label, G::Look>],
    ) -> Result<Self, AllocError>
        requires once { HasNoRepeats nodes.now }
        requires seen { AreLooks (IsSeen (G.edge graph.now) (G.shows graph.now)) nodes.now
            seen.now }
        ensures graph { IfOk result (λ numbered. numbered.graph.now ≡ graph.now) }
        ensures nodes { IfOk result (λ numbered. numbered.nodes.now ≡ nodes.now) }
        ensures places { IfOk result
            (λ numbered. IsPlaced nodes.now (get G.Node.cmp numbered.places)) }
        ensures edges { IfOk result (λ numbered. IsNumbered (G.edge graph.now) nodes.now
            (edges_at nat_cmp numbered.edges)) }
    {
        let places = places(alloc, graph, nodes)?;
        let edges = edges(alloc, seen, &places)?;
        Ok(Numbered {
            graph,
            nodes,
            places,
            edges,
        })
    }

    /// The place of the node, which has one.
    pub(crate) fn place(&self, node: &G::Node) -> u32
        requires { ContainsKey G.Node.cmp self.now.places node.now }
        ensures { get G.Node.cmp self.now.places node.now ≡ Some result }
    {
        self.places[node]
    }

    /// How many places there are.
    pub(crate) fn len(&self) -> usize
        ensures { result ≡ length self.now.nodes.now }
    {
        self.nodes.len()
    }

    /// The edges that leave the place.
    pub(crate) fn leaving(&self, place: u32) -> &[Edge<u32, G::Label>]
        ensures { result.now ≡ edges_at nat_cmp self.now.edges place }
    {
        match self.edges.get(&place) {
            Some(edges) => edges.as_slice(),
            None => &[],
        }
    }

    /// All places, in order.
    pub(crate) fn all(&self, alloc: Global) -> Result<Vec<u32>, AllocError>
        ensures { IfOk result
            (λ places. AreAllPlaces (length self.now.nodes.now) places.items) }
    {
        let mut places = Vec::new(alloc);
        for place in 0..self.nodes.len() {
            places.push(narrow(place)?)?;
        }
        Ok(places)
    }
}

/// The place in four bytes, by which an edge takes half the memory. A place that needs more is told
/// as a lack of memory: so many nodes don't fit into any.
fn narrow(place: usize) -> Result<u32, AllocError>
    ensures { IfOk result (λ narrow. narrow ≡ place) }
{
    match u32::try_from(place) {
        Ok(narrow) => Ok(narrow),
        Err(_) => Err(AllocError),
    }
}

/// The place of each node.
fn places<G: Labelled>(
    alloc: Global,
    graph: &G,
    nodes: &[G::Node],
) -> Result<BTreeMap<G::Node, u32>, AllocError>
    requires { HasNoRepeats nodes.now }
    ensures { IfOk result (λ places. IsPlaced nodes.now (get G.Node.cmp places)) }
{
    let mut places = BTreeMap::new(alloc);
    for (place, node) in nodes.iter().enumerate() {
        places.insert(graph.copy(alloc, node)?, narrow(place)?)?;
    }
    Ok(places)
}

/// The edges that were seen to lead to nodes which have places, under the place of what was seen.
fn edges<N: Ord + Drop, L: Copy + Drop, K>(
    alloc: Global,
    seen: &[Seen<N, L, K>],
    places: &BTreeMap<N, u32>,
) -> Result<BTreeMap<u32, Vec<Edge<u32, L>>>, AllocError>
    ensures { IfOk result
        (λ edges. ArePlaced (get N.cmp places.now) seen.now (edges_at nat_cmp edges)) }
{
    let mut all = BTreeMap::new(alloc);
    for (place, seen) in seen.iter().enumerate() {
        all.insert(narrow(place)?, placed(alloc, &seen.edges, places)?)?;
    }
    Ok(all)
}

/// The edges with the places of the nodes to which they lead, where these have some.
fn placed<N: Ord + Drop, L: Copy + Drop>(
    alloc: Global,
    edges: &[Edge<N, L>],
    places: &BTreeMap<N, u32>,
) -> Result<Vec<Edge<u32, L>>, AllocError>
    ensures { IfOk result
        (λ placed. placed.items ≡ filter_map (placed_edge (get N.cmp places.now)) edges.now) }
{
    let mut placed = Vec::new(alloc);
    for edge in edges {
        if let Some(place) = places.get(&edge.to) {
            placed.push(Edge {
                to: *place,
                label: edge.label,
            })?;
        }
    }
    Ok(placed)
}

/// Equal edges.
fn copies<L: Copy + Drop>(
    alloc: Global,
    edges: &[Edge<u32, L>],
) -> Result<Vec<Edge<u32, L>>, AllocError>
    ensures { IfOk result (λ copies. copies.items ≡ edges.now) }
{
    let mut copies = Vec::new(alloc);
    for edge in edges {
        copies.push(Edge {
            to: edge.to,
            label: edge.label,
        })?;
    }
    Ok(copies)
}
