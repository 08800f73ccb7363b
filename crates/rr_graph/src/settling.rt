//! Settles the nodes of a labelled graph from the ends of its chains back to their start, as far as
//! there are no rings: for `gathering`. After a fault no clause says what is settled or added.

ghost use Rattle.std.specs.Prelude.{◌≡◌, ◌≤◌, ◌↔◌, ◌⊎◌, ◌++◌, [], true};
ghost use Rattle.std.specs.Prelude.{Contains, IfOk, IfSome, IsTrue, OnOk, is_some, length, map};
ghost use Rattle.std.specs.Prelude.{take};
ghost use Rattle.std.specs.List.{filter_map};
ghost use Rattle.std.proofs.lemmas.Map.Lookups.{CmpEqualImpliesEq};
ghost use Rattle.rr_graph.specs.Answered.{ListsInOrder};
ghost use Rattle.rr_graph.specs.Carried.{IsFound};
ghost use Rattle.rr_graph.specs.Chain.{MoreThan};
ghost use Rattle.rr_graph.specs.Looks.{AreLooks};
ghost use Rattle.rr_graph.specs.SettledParts.{IsAmong, IsFoundAmong, IsKnownValueOr, IsMade};
ghost use Rattle.rr_graph.specs.SettledParts.{HoldsAllValues, HoldsAllWithin, IsPassed, IsRun};
ghost use Rattle.rr_graph.specs.SettledParts.{values_at};

use crate::ReachFault;
use crate::effects::{EdgesTo, Effects};
use crate::labels::{Edge, Labelled};
use crate::order::put_in_order;
use crate::settled::Settled;
use std::alloc::{AllocError, Global};

/// Nodes, the looks at these, and in which order of their places they are settled.
#[derive(Drop)]
pub(crate) struct Ordered<'a, N, K> {
    pub(crate) nodes: &'a [N],
    pub(crate) looks: &'a [K],
    pub(crate) order: &'a [u32],
}

/// A node, and what a look at it found.
#[derive(Drop)]
struct NodeAndLook<'a, N, K> {
    node: &'a N,
    look: &'a K,
}

/// Some of the nodes, each with all values that are found at it, in at most `limit` pairs of both.
/// They are those that reach no ring of edges, if their order has each after those to which its
/// edges lead: no clause says so, and `gathering` asks which there are. `TooMany` says that there
/// are more than `limit` pairs of one of the nodes and a value found at it.
pub(crate) fn settled<G: Labelled>(
    alloc: Global,
    graph: &G,
    ordered: &Ordered<'_, G::Node, G::Look>,
    limit: usize,
) -> Result<Settled<G>, ReachFault>
    requires { AreLooks (G.shows graph.now) ordered.now.nodes.now ordered.now.looks.now }
    ensures held { IfOk result
        (λ settled. HoldsAllWithin (G.edge graph.now) (G.own graph.now) G.passed G.Value.cmp
        (values_at G.Node.cmp settled.values) limit settled.pairs) }
    ensures among { IfOk result
        (λ settled. IsAmong ordered.now.nodes.now (values_at G.Node.cmp settled.values)) }
    ensures many { result ≡ Err ReachFault.TooMany
        → MoreThan limit
        (IsFoundAmong (G.edge graph.now) (G.own graph.now) G.passed ordered.now.nodes.now) }
{
    let mut settled = Settled::new(alloc);
    for place in ordered.order {
        if let Some(node) = ordered.nodes.get(*place as usize) {
            let look = &ordered.looks[*place as usize];
            let here = NodeAndLook { node, look };
            settle(alloc, graph, &mut settled, &here, limit)?;
        }
    }
    Ok(settled)
}

/// Settles the node, unless it is settled, or a node to which its edges lead is not. No other node
/// becomes settled. Before and after, each settled node has all values that are found at it, in at
/// most `limit` pairs of both. `TooMany` says that with the node's values there would be more.
fn settle<G: Labelled>(
    alloc: Global,
    graph: &G,
    settled: &mut Settled<G>,
    here: &NodeAndLook<'_, G::Node, G::Look>,
    limit: usize,
) -> Result<(), ReachFault>
    requires shown { G.shows graph.now here.now.node.now here.now.look.now }
    requires held { HoldsAllWithin (G.edge graph.now) (G.own graph.now) G.passed G.Value.cmp
        (values_at G.Node.cmp settled.old.values) limit settled.old.pairs }
    ensures held { OnOk result
        (HoldsAllWithin (G.edge graph.now) (G.own graph.now) G.passed G.Value.cmp
        (values_at G.Node.cmp settled.new.values) limit settled.new.pairs) }
    ensures only { OnOk result ((other : G.Node)
        → is_some (values_at G.Node.cmp settled.new.values other) ≡ true → (is_some
        (values_at G.Node.cmp settled.old.values other) ≡ true) ⊎ (here.now.node.now ≡ other)) }
    ensures many { result ≡ Err ReachFault.TooMany
        → MoreThan limit (IsKnownValueOr (values_at G.Node.cmp settled.old.values)
        here.now.node.now
        (IsFound (G.edge graph.now) (G.own graph.now) G.passed here.now.node.now)) }
{
    if settled.at(here.node).is_some() {
        return Ok(());
    }
    if let Some(values) = found_at(alloc, graph, settled, here.node, here.look)? {
        settled.enter(graph.copy(alloc, here.node)?, values, limit)?;
    }
    Ok(())
}

/// The values that are found at the node, in ascending order, where those to which its edges lead
/// are settled; `look` is what a look at it found.
fn found_at<G: Labelled>(
    alloc: Global,
    graph: &G,
    settled: &Settled<G>,
    node: &G::Node,
    look: &G::Look,
) -> Result<Option<Vec<G::Value>>, AllocError>
    requires shown { G.shows graph.now node.now look.now }
    requires settled { HoldsAllValues (G.edge graph.now) (G.own graph.now) G.passed G.Value.cmp
        (values_at G.Node.cmp settled.now.values) }
    ensures { IfOk result (λ found. IfSome found (λ values. ListsInOrder G.Value.cmp
        (IsFound (G.edge graph.now) (G.own graph.now) G.passed node.now) values.items)) }
{
    let edges = graph.edges(alloc, node, look)?;
    let mut collected = Collected::new(alloc);
    if !add_passed(alloc, graph, settled, &edges, &mut collected)? {
        return Ok(None);
    }
    let Collected {
        mut values,
        last: _,
    } = collected;
    let mut own = graph.values(alloc, node, look)?;
    values.append(&mut own)?;
    put_in_order(&mut values);
    Ok(Some(values))
}

/// Values that are added with repeats, and how many there were after the last removal of these.
#[derive(Drop)]
struct Collected<V: Ord + Drop> {
    values: Vec<V>,
    last: usize,
}

impl<V: Ord + Drop> Collected<V> {
    /// No values.
    fn new(alloc: Global) -> Self
        ensures { result.values.items ≡ [] }
    {
        Collected {
            values: Vec::new(alloc),
            last: 0,
        }
    }

    /// Removes the repeats, and puts the values in order, where there are more than twice as many
    /// as after the last removal. So edges that carry the same values, as often as they come, never
    /// take more than three times the memory of what is found.
    fn dedup_if_doubled(&mut self)
        ensures { CmpEqualImpliesEq V.cmp → (x : V)
            → Contains self.new.values.items x ↔ Contains self.old.values.items x }
    {
        if self.values.len() / 2 > self.last {
            put_in_order(&mut self.values);
            self.last = self.values.len();
        }
    }
}

/// Adds what the labels of the edges make of the values of settled nodes, a run of edges to one
/// node at a time, and tells whether all nodes are settled to which they lead.
fn add_passed<G: Labelled>(
    alloc: Global,
    graph: &G,
    settled: &Settled<G>,
    edges: &[Edge<G::Node, G::Label>],
    collected: &mut Collected<G::Value>,
) -> Result<bool, AllocError>
    ensures known { IfOk result (λ whole. IsTrue whole → (e : Edge G.Node G.Label)
        → Contains edges.now e → is_some (values_at G.Node.cmp settled.now.values e.to) ≡ true) }
    ensures passed { IfOk result (λ whole. IsTrue whole → (v : G.Value)
        → Contains collected.new.values.items v ↔ (Contains collected.old.values.items v
        ⊎ IsPassed G.passed (values_at G.Node.cmp settled.now.values) edges.now v)) }
{
    let mut done = 0;
    while done < edges.len() {
        let node = &edges[done].to;
        let Some(starts) = settled.at(node) else {
            return Ok(false);
        };
        let next = done + 1 + run_length(node, &edges[done + 1..]);
        let head = EdgesTo {
            node,
            edges: &edges[done..next],
        };
        pass_run(alloc, graph, &head, starts, collected)?;
        done = next;
    }
    Ok(true)
}

/// How many of the edges lead to the node, before one that does not.
fn run_length<N: Ord + Drop, L: Drop>(node: &N, edges: &[Edge<N, L>]) -> usize
    ensures within { result ≤ length edges.now }
    ensures run { CmpEqualImpliesEq N.cmp → IsRun node.now (take result edges.now) }
{
    for (place, edge) in edges.iter().enumerate() {
        if edge.to != *node {
            return place;
        }
    }
    edges.len()
}

/// Adds what the labels of edges to the node make of the values, each effect once.
fn pass_run<G: Labelled>(
    alloc: Global,
    graph: &G,
    head: &EdgesTo<'_, G::Node, G::Label>,
    starts: &[G::Value],
    collected: &mut Collected<G::Value>,
) -> Result<(), AllocError>
    requires { IsRun head.now.node.now head.now.edges.now }
    ensures { OnOk result ((v : G.Value) → Contains collected.new.values.items v
        ↔ (Contains collected.old.values.items v
        ⊎ IsMade G.passed head.now.node.now head.now.edges.now starts.now v)) }
{
    if let [edge] = head.edges {
        pass_all(graph, edge.label, starts, &mut collected.values)?;
        collected.dedup_if_doubled();
        return Ok(());
    }
    let mut effects = Effects::<G>::new(alloc, graph);
    for value in starts {
        let made = effects.made(alloc, head, *value)?;
        add_made(&made, &mut collected.values)?;
        collected.dedup_if_doubled();
    }
    Ok(())
}

/// Adds the values of the pairs.
fn add_made<N: Drop, V: Copy + Drop>(
    pairs: &[(N, V)],
    values: &mut Vec<V>,
) -> Result<(), AllocError>
    ensures { OnOk result
        (values.new.items ≡ values.old.items ++ map (λ pair. pair.1) pairs.now) }
{
    for pair in pairs {
        values.push(pair.1)?;
    }
    Ok(())
}

/// Adds what the label makes of the values.
fn pass_all<G: Labelled>(
    graph: &G,
    label: G::Label,
    starts: &[G::Value],
    values: &mut Vec<G::Value>,
) -> Result<(), AllocError>
    ensures { OnOk result
        (values.new.items ≡ values.old.items ++ filter_map (G.passed label) starts.now) }
{
    for value in starts {
        if let Some(passed) = graph.pass(label, *value) {
            values.push(passed)?;
        }
    }
    Ok(())
}
