//! Which values are found at a node of a labelled graph: `rr_sets` expands route-sets by it.

ghost use Rattle.std.specs.Prelude.{◌≡◌, ◌↔◌, ◌∷◌, [], Contains, IfOk, map};
ghost use Rattle.rr_graph.specs.Answered.{FindsWithin, IsWalk, ListsInOrder};
ghost use Rattle.rr_graph.specs.Carried.{AreReachedFrom, HasManyPairs, IsFound};
ghost use Rattle.rr_graph.specs.Carried.{IsGatheredFrom, IsReachedFrom, IsTooMany, Leads};
ghost use Rattle.rr_graph.specs.Chain.{MoreThan};
ghost use Rattle.rr_graph.specs.Looks.{AreLooks};
ghost use Rattle.rr_graph.specs.NumberedParts.{IsSeen};
ghost use Rattle.rr_graph.specs.ReversedParts.{IsCarriedPair};

use crate::backward::reversed;
use crate::descent::ends_first;
use crate::labels::{Edge, Labelled, LabelledGraph, Seen};
use crate::numbered::Numbered;
use crate::order::ascending;
use crate::pairs::{Pairs, own_pairs, reach_back};
use crate::settling::{Ordered, settled};
use crate::{Graph, Nodes, ReachFault, Visits, reach};
use std::alloc::{AllocError, Global};
use std::collections::BTreeSet;

/// A labelled graph without its labels.
#[derive(Drop)]
struct Unlabelled<'a, G> {
    graph: &'a G,
}

impl<G: Labelled> Nodes for Unlabelled<'_, G> {
    type Node = G::Node;

    ghost exact = { G.exact_nodes };

    fn copy(&self, alloc: Global, node: &G::Node) -> Result<G::Node, AllocError> {
        self.graph.copy(alloc, node)
    }
}

impl<G: LabelledGraph> Graph for Unlabelled<'_, G> {
    type Look = Seen<G::Node, G::Label, G::Look>;

    ghost edge = { λ s. Leads (G.edge s.graph.now) };

    ghost shows = { λ s. IsSeen (G.edge s.graph.now) (G.shows s.graph.now) };

    fn look(
        &self,
        alloc: Global,
        node: &G::Node,
    ) -> Result<Seen<G::Node, G::Label, G::Look>, AllocError> {
        let look = self.graph.look(alloc, node)?;
        let edges = self.graph.edges(alloc, node, &look)?;
        Ok(Seen { look, edges })
    }

    fn successors<'l>(
        &self,
        alloc: Global,
        seen: &'l Seen<G::Node, G::Label, G::Look>,
    ) -> Result<Vec<&'l G::Node>, AllocError> {
        ends(alloc, &seen.edges)
    }
}

/// The nodes to which the edges lead.
fn ends<N, L>(alloc: Global, edges: &[Edge<N, L>]) -> Result<Vec<&N>, AllocError>
    ensures { IfOk result
        (λ nodes. map (λ n. n.now) nodes.items ≡ map (λ edge. edge.to) edges.now) }
{
    let mut nodes = Vec::new(alloc);
    for edge in edges {
        nodes.push(&edge.to)?;
    }
    Ok(nodes)
}

/// The nodes that are reached from the start, and what was seen at each. `look` is what a look at
/// the start found. `TooMany` says that the nodes are more than `limit`.
fn reached_from<G: LabelledGraph>(
    alloc: Global,
    graph: &G,
    start: &G::Node,
    look: G::Look,
    limit: usize,
) -> Result<Visits<G::Node, Seen<G::Node, G::Label, G::Look>>, ReachFault>
    requires { G.shows graph.now start.now look }
    ensures { FindsWithin (IsWalk (Leads (G.edge graph.now))
        (IsSeen (G.edge graph.now) (G.shows graph.now)) (start.now ∷ []))
        (MoreThan limit (IsReachedFrom (G.edge graph.now) start.now)) result }
{
    let edges = graph.edges(alloc, start, &look)?;
    let node = graph.copy(alloc, start)?;
    reach(
        alloc,
        &Unlabelled { graph },
        node,
        Seen { look, edges },
        limit,
    )
}

/// What the looks found, without the edges.
fn looks<N: Drop, L: Drop, K: Drop>(
    alloc: Global,
    seen: Vec<Seen<N, L, K>>,
) -> Result<Vec<K>, AllocError>
    ensures { IfOk result (λ looks. looks.items ≡ map (λ s. s.look) seen.items) }
{
    seen.into_iter().map(|seen| seen.look).collect(alloc)
}

/// What is found from a node of a labelled graph: `gather` makes it, as its fields say.
#[derive(Drop)]
pub struct NodesAndValues<N, K, V> {
    /// The nodes that are reached, each once, in no promised order.
    pub nodes: Vec<N>,
    /// What the look at each of these nodes found, at the place of the node.
    pub looks: Vec<K>,
    /// The values that are found at the node, each once, in ascending order.
    pub values: Vec<V>,
}

/// Lists exactly what is found at `start`; `look` is what a look at it found. The nodes are those
/// to which chains of edges lead from it, itself included, each once and in no promised order, with
/// what the look at each found. The values are what the labels of such a chain make of a value that
/// the node at its end has by itself. The last label comes first, and a value that a label drops is
/// not found. The values come each once, in ascending order.
///
/// No clause says how long this takes. Each node but the start is looked at once, and the edges of
/// each are listed once. Its values are listed at most once, or twice if rings of edges are
/// reached. The steps are O((KE + F) log F). E counts the edges that are listed, K the kinds of
/// values that are found at one node. F counts the pairs of a node and a value that edges make.
/// Edges that keep values make one of each value found at the node to which they lead. The others
/// make one of each kind and group of these values, and a pair is counted once, however many of
/// them make it.
///
/// Unless memory runs out, the fault is `TooMany` exactly in two cases. More than `limit` nodes are
/// reached, or there are more than `limit` pairs of such a node and a value found at it. When
/// memory runs out, no clause says.
pub fn gather<G: LabelledGraph>(
    alloc: Global,
    graph: &G,
    start: &G::Node,
    look: G::Look,
    limit: usize,
) -> Result<NodesAndValues<G::Node, G::Look, G::Value>, ReachFault>
    requires { G.shows graph.now start.now look }
    ensures { FindsWithin (IsGatheredFrom (G.edge graph.now) (G.own graph.now) G.passed
        (G.shows graph.now) G.Value.cmp start.now)
        (IsTooMany (G.edge graph.now) (G.own graph.now) G.passed limit start.now) result }
{
    let visits = reached_from(alloc, graph, start, look, limit)?;
    let values = found_among(alloc, graph, &visits, start, limit)?;
    let Visits { nodes, looks: seen } = visits;
    let looks = looks(alloc, seen)?;
    Ok(NodesAndValues {
        nodes,
        looks,
        values,
    })
}

/// The values that are found at the start, in ascending order, by the places of the nodes that are
/// reached from it; `visits` has these nodes, and what was seen at each. `TooMany` says that there
/// are more than `limit` pairs of such a node and a value found at it.
fn found_among<G: Labelled>(
    alloc: Global,
    graph: &G,
    visits: &Visits<G::Node, Seen<G::Node, G::Label, G::Look>>,
    start: &G::Node,
    limit: usize,
) -> Result<Vec<G::Value>, ReachFault>
    requires { IsWalk (Leads (G.edge graph.now)) (IsSeen (G.edge graph.now) (G.shows graph.now))
        (start.now ∷ []) visits.now }
    ensures { FindsWithin (λ values. ListsInOrder G.Value.cmp
        (IsFound (G.edge graph.now) (G.own graph.now) G.passed start.now) values.items)
        (HasManyPairs (G.edge graph.now) (G.own graph.now) G.passed limit start.now) result }
{
    let nodes = visits.nodes.as_slice();
    let seen = visits.looks.as_slice();
    let numbered = Numbered::new(alloc, graph, nodes, seen)?;
    let places = numbered.all(alloc)?;
    let place = numbered.place(start);
    let order = ends_first(alloc, &numbered, place)?;
    let ordered = Ordered {
        nodes: &places,
        looks: seen,
        order: &order,
    };
    found_at(alloc, &numbered, &ordered, &place, limit)
}

/// The values that are found at the start, in ascending order, where the nodes are those that are
/// reached from it. `TooMany` is as for `found_among`.
fn found_at<G: Labelled>(
    alloc: Global,
    graph: &G,
    ordered: &Ordered<'_, G::Node, G::Look>,
    start: &G::Node,
    limit: usize,
) -> Result<Vec<G::Value>, ReachFault>
    requires reached { AreReachedFrom (G.edge graph.now) start.now ordered.now.nodes.now }
    requires looks { AreLooks (G.shows graph.now) ordered.now.nodes.now ordered.now.looks.now }
    ensures { FindsWithin (λ values. ListsInOrder G.Value.cmp
        (IsFound (G.edge graph.now) (G.own graph.now) G.passed start.now) values.items)
        (HasManyPairs (G.edge graph.now) (G.own graph.now) G.passed limit start.now) result }
{
    let settled = settled(alloc, graph, ordered, limit)?;
    match settled.into_values(ordered.nodes, start) {
        Some(values) => Ok(values),
        None => walked(alloc, graph, ordered, start, limit),
    }
}

/// The values that are carried back to the start from one of the nodes over edges between them, in
/// ascending order, whatever rings these form. It does not go by the order of the places. `TooMany`
/// is that of `found_pairs`.
fn walked<G: Labelled>(
    alloc: Global,
    graph: &G,
    ordered: &Ordered<'_, G::Node, G::Look>,
    start: &G::Node,
    limit: usize,
) -> Result<Vec<G::Value>, ReachFault>
    requires { AreLooks (G.shows graph.now) ordered.now.nodes.now ordered.now.looks.now }
    ensures { FindsWithin (λ values. ListsInOrder G.Value.cmp
        (λ value. IsCarriedPair (G.edge graph.now) (G.own graph.now) G.passed
        ordered.now.nodes.now (start.now, value)) values.items)
        (MoreThan limit (IsCarriedPair (G.edge graph.now) (G.own graph.now) G.passed
        ordered.now.nodes.now)) result }
{
    let pairs = found_pairs(alloc, graph, ordered.nodes, ordered.looks, limit)?;
    let values = values_at::<G>(alloc, &pairs, start)?;
    Ok(values)
}

/// The pairs of one of the nodes and a value that is carried back to it from one of them over edges
/// between them; `looks` are those at the nodes. `TooMany` says that they are more than `limit`.
fn found_pairs<G: Labelled>(
    alloc: Global,
    graph: &G,
    nodes: &[G::Node],
    looks: &[G::Look],
    limit: usize,
) -> Result<Vec<(G::Node, G::Value)>, ReachFault>
    requires { AreLooks (G.shows graph.now) nodes.now looks.now }
    ensures { FindsWithin (λ pairs. (p : _) → Contains pairs.items p
        ↔ IsCarriedPair (G.edge graph.now) (G.own graph.now) G.passed nodes.now p)
        (MoreThan limit (IsCarriedPair (G.edge graph.now) (G.own graph.now) G.passed nodes.now))
        result }
{
    let starts = own_pairs(alloc, graph, nodes, looks)?;
    let backward = reversed(alloc, graph, nodes, looks)?;
    let pairs = Pairs {
        graph,
        backward: &backward,
    };
    reach_back(alloc, &pairs, starts, limit)
}

/// The values that are paired with the node, in ascending order.
fn values_at<G: Labelled>(
    alloc: Global,
    pairs: &[(G::Node, G::Value)],
    node: &G::Node,
) -> Result<Vec<G::Value>, AllocError>
    ensures { IfOk result (λ values. ListsInOrder G.Value.cmp
        (λ value. Contains pairs.now (node.now, value)) values.items) }
{
    let mut values = BTreeSet::new(alloc);
    for pair in pairs {
        if pair.0 == *node {
            values.insert(pair.1)?;
        }
    }
    ascending(alloc, values)
}
