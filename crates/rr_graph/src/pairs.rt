//! Pairs of a node and a value that is found at it, where rings keep `settling` from finding all:
//! for `gathering`.

ghost use Rattle.std.specs.Prelude.{◌≡◌, ◌↔◌, ◌++◌, Contains, IfOk, OnOk, map};
ghost use Rattle.rr_graph.specs.Answered.{FindsWithin};
ghost use Rattle.rr_graph.specs.Chain.{IsReached, MoreThan};
ghost use Rattle.rr_graph.specs.Looks.{AreLooks};
ghost use Rattle.std.specs.BTreeMap.{get};
ghost use Rattle.std.specs.BTreeSet.{contains};
ghost use Rattle.rr_graph.specs.EffectParts.{AddsAtMost, AreChoices, IsMadeBut};
ghost use Rattle.std.proofs.lemmas.Map.Lookups.{exact_pairs};
ghost use Rattle.rr_graph.specs.ReversedParts.{edges_at, IsOwnPair, LeadsBack};

use crate::backward::Backward;
use crate::effects::{EdgesTo, Effects, carried};
use crate::labels::Labelled;
use crate::walk::FoundNodes;
use crate::{Nodes, ReachFault};
use std::alloc::{AllocError, Global};

/// The pairs of a node and a value. An edge leads from a pair to that of a node from which the
/// value is carried back.
#[derive(Drop)]
pub(crate) struct Pairs<'a, G: Labelled> {
    pub(crate) graph: &'a G,
    pub(crate) backward: &'a Backward<G::Node, G::Label>,
}

impl<G: Labelled> Nodes for Pairs<'_, G> {
    type Node = (G::Node, G::Value);

    ghost exact = { exact_pairs G.Node.cmp G.Value.cmp G.exact_nodes G.exact_values };

    fn copy(
        &self,
        alloc: Global,
        pair: &(G::Node, G::Value),
    ) -> Result<(G::Node, G::Value), AllocError> {
        Ok((self.graph.copy(alloc, &pair.0)?, pair.1))
    }
}

/// So many edges are gone over for each value, and of more those alone that are enough for its
/// kind.
const FEW: usize = 4;

/// The pairs to which the value of the pair is carried back, less those to which edges that change
/// values carried one of its kind and group before.
fn carried_back<G: Labelled>(
    alloc: Global,
    pairs: &Pairs<'_, G>,
    effects: &mut Effects<'_, G>,
    pair: &(G::Node, G::Value),
) -> Result<Vec<(G::Node, G::Value)>, AllocError>
    requires { AreChoices G.keeps G.passed G.kind_of
        (edges_at G.Node.cmp pairs.now.backward.now.map)
        (get ⟦<(G::Node, G::Kind) as Ord>⟧.cmp effects.old.map) }
    ensures known { OnOk result
        (AreChoices G.keeps G.passed G.kind_of (edges_at G.Node.cmp pairs.now.backward.now.map)
        (get ⟦<(G::Node, G::Kind) as Ord>⟧.cmp effects.new.map)) }
    ensures marked { OnOk result (AddsAtMost
        (contains ⟦<((G::Node, G::Kind), G::Group) as Ord>⟧.cmp effects.old.marks)
        (contains ⟦<((G::Node, G::Kind), G::Group) as Ord>⟧.cmp effects.new.marks)
        ((pair.now.0, G.kind_of pair.now.1), G.group_of pair.now.1)) }
    ensures carried { IfOk result (λ carried. IsMadeBut G.keeps G.passed
        (edges_at G.Node.cmp pairs.now.backward.now.map pair.now.0) pair.now.1
        (contains ⟦<((G::Node, G::Kind), G::Group) as Ord>⟧.cmp effects.old.marks
        ((pair.now.0, G.kind_of pair.now.1), G.group_of pair.now.1)) carried.items) }
{
    let edges = pairs.backward.at(&pair.0);
    if edges.len() <= FEW {
        return carried(alloc, pairs.graph, edges, pair.1);
    }
    let head = EdgesTo {
        node: &pair.0,
        edges,
    };
    let made = effects.made(alloc, &head, pair.1)?;
    Ok(made)
}

/// Lists what `reach` does: each pair to which values are carried back from one of `starts`. The
/// fault is that of `reach`. That each effect is used once, no clause says.
pub(crate) fn reach_back<G: Labelled>(
    alloc: Global,
    pairs: &Pairs<'_, G>,
    starts: Vec<(G::Node, G::Value)>,
    limit: usize,
) -> Result<Vec<(G::Node, G::Value)>, ReachFault>
    ensures { FindsWithin (λ found. (p : _) → Contains found.items p ↔ IsReached
        (LeadsBack G.passed (edges_at G.Node.cmp pairs.now.backward.now.map)) starts.items p)
        (MoreThan limit (IsReached
        (LeadsBack G.passed (edges_at G.Node.cmp pairs.now.backward.now.map)) starts.items))
        result }
{
    let mut effects = Effects::<G>::new(alloc, pairs.graph);
    let mut found = FoundNodes::new(alloc);
    found.add_all(alloc, pairs, starts, limit)?;
    let mut done = 0;
    while done < found.list.len() {
        let carried = carried_back(alloc, pairs, &mut effects, &found.list[done])?;
        found.add_all(alloc, pairs, carried, limit)?;
        done += 1;
    }
    Ok(found.into_list())
}

/// The pairs of one of the nodes and a value that it has by itself; `looks` are those at the nodes.
pub(crate) fn own_pairs<G: Labelled>(
    alloc: Global,
    graph: &G,
    nodes: &[G::Node],
    looks: &[G::Look],
) -> Result<Vec<(G::Node, G::Value)>, AllocError>
    requires { AreLooks (G.shows graph.now) nodes.now looks.now }
    ensures { IfOk result
        (λ pairs. (p : _) → Contains pairs.items p ↔ IsOwnPair (G.own graph.now) nodes.now p) }
{
    let mut pairs = Vec::new(alloc);
    for (place, node) in nodes.iter().enumerate() {
        let values = graph.values(alloc, node, &looks[place])?;
        add_own(alloc, graph, &mut pairs, node, &values)?;
    }
    Ok(pairs)
}

/// Adds the pairs of the node and each of the values. If memory runs out, some may be added.
fn add_own<G: Labelled>(
    alloc: Global,
    graph: &G,
    pairs: &mut Vec<(G::Node, G::Value)>,
    node: &G::Node,
    values: &[G::Value],
) -> Result<(), AllocError>
    ensures { OnOk result
        (pairs.new.items ≡ pairs.old.items ++ map (λ value. (node.now, value)) values.now) }
{
    for value in values {
        pairs.push((graph.copy(alloc, node)?, *value))?;
    }
    Ok(())
}
