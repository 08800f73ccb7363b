//! What edges make of values, where many edges do the same: for `settling` and `pairs`. After
//! memory ran out, no clause but `marks` and `map` says what is left of `Effects`.

ghost use Rattle.std.specs.Prelude.{◌≡◌, [], ◌∷◌, ◌++◌, List, None};
ghost use Rattle.std.specs.Prelude.{IfOk, IfSome, IsTrue, OnOk, false, filter, not};
ghost use Rattle.std.specs.BTreeMap.{get};
ghost use Rattle.std.specs.BTreeSet.{contains};
ghost use Rattle.std.specs.List.{filter_map};
ghost use Rattle.std.specs.Option.{option_map};
ghost use Rattle.rr_graph.specs.EffectParts.{AddsAtMost, IsChoice, IsDistinct, IsEnough};
ghost use Rattle.rr_graph.specs.EffectParts.{AreChoices};
ghost use Rattle.rr_graph.specs.EffectParts.{IsMadeBut, SetsMark, changed};
ghost use Rattle.rr_graph.specs.declared.labels.Edge.{Edge};

use crate::labels::{Edge, Labelled};
use std::alloc::{AllocError, Global};
use std::collections::{BTreeMap, BTreeSet};

/// A node with edges that lead to it, over which its values are carried back.
#[derive(Drop)]
pub(crate) struct EdgesTo<'a, N, L> {
    pub(crate) node: &'a N,
    pub(crate) edges: &'a [Edge<N, L>],
}

/// For each node and each kind of values the edges that are enough for values of that kind, and
/// which kinds and groups of values were put through those that change values. Many references
/// between two sets do the same to most values: 35 operators (none, `^+`, and `^n-32` for each n)
/// make one range of a /32, and no operator but none tells `10.0.0.0/8^8-9` from
/// `10.0.0.0/8^8-10`. So each effect is used once.
/// The first group of a kind goes through all edges: mostly there is no second one.
#[derive(Drop)]
pub(crate) struct Effects<'a, G: Labelled> {
    graph: &'a G,
    map: BTreeMap<(G::Node, G::Kind), Choice<G::Node, G::Label>>,
    marks: BTreeSet<((G::Node, G::Kind), G::Group)>,
}

/// Of the edges of a node those that keep values, and of the others some that are enough for values
/// of one kind, once these are of a second group.
#[derive(Drop)]
struct Choice<N, L> {
    keeping: Vec<Edge<N, L>>,
    changing: Option<Vec<Edge<N, L>>>,
}

impl<'a, G: Labelled> Effects<'a, G> {
    /// None yet.
    pub(crate) fn new(alloc: Global, graph: &'a G) -> Self
        ensures known { (key : G.Node × G.Kind)
            → get ⟦<(G::Node, G::Kind) as Ord>⟧.cmp result.map key ≡ None }
        ensures marks { (mark : (G.Node × G.Kind) × G.Group)
            → contains ⟦<((G::Node, G::Kind), G::Group) as Ord>⟧.cmp result.marks mark ≡ false }
    {
        Effects {
            graph,
            map: BTreeMap::new(alloc),
            marks: BTreeSet::new(alloc),
        }
    }

    /// The pairs of a node and what an edge to it makes of the value, less what edges that change
    /// values made of one of its kind and group before.
    pub(crate) fn made(
        &mut self,
        alloc: Global,
        head: &EdgesTo<'_, G::Node, G::Label>,
        value: G::Value,
    ) -> Result<Vec<(G::Node, G::Value)>, AllocError>
        ensures made { (all : G.Node → List (Edge G.Node G.Label))
            → all head.now.node.now ≡ head.now.edges.now
            → AreChoices G.keeps G.passed G.kind_of all
            (get ⟦<(G::Node, G::Kind) as Ord>⟧.cmp self.old.map) → IfOk result
            (λ pairs. IsMadeBut G.keeps G.passed head.now.edges.now value
            (contains ⟦<((G::Node, G::Kind), G::Group) as Ord>⟧.cmp self.old.marks
            ((head.now.node.now, G.kind_of value), G.group_of value)) pairs.items
            × AreChoices G.keeps G.passed G.kind_of all
            (get ⟦<(G::Node, G::Kind) as Ord>⟧.cmp self.new.map)) }
        ensures marked { OnOk result (AddsAtMost
            (contains ⟦<((G::Node, G::Kind), G::Group) as Ord>⟧.cmp self.old.marks)
            (contains ⟦<((G::Node, G::Kind), G::Group) as Ord>⟧.cmp self.new.marks)
            ((head.now.node.now, G.kind_of value), G.group_of value)) }
    {
        let first = self.mark(alloc, head.node, value)?;
        self.note(alloc, head, value, first)?;
        let pairs = self.chosen(alloc, head, value, first)?;
        Ok(pairs)
    }

    /// The node and the kind of the value.
    fn key(
        &self,
        alloc: Global,
        node: &G::Node,
        value: G::Value,
    ) -> Result<(G::Node, G::Kind), AllocError>
        ensures { IfOk result (λ key. key ≡ (node.now, G.kind_of value)) }
    {
        Ok((self.graph.copy(alloc, node)?, self.graph.kind(value)))
    }

    /// Notes of the node and the value's kind what the value needs, unless that is known: which of
    /// the edges keep values, and at a second group, which of the others are enough. Marks stay.
    fn note(
        &mut self,
        alloc: Global,
        head: &EdgesTo<'_, G::Node, G::Label>,
        value: G::Value,
        first: bool,
    ) -> Result<(), AllocError>
        ensures known { (all : G.Node → List (Edge G.Node G.Label))
            → all head.now.node.now ≡ head.now.edges.now → AreChoices G.keeps G.passed G.kind_of all
            (get ⟦<(G::Node, G::Kind) as Ord>⟧.cmp self.old.map) → OnOk result (AreChoices G.keeps
            G.passed G.kind_of all (get ⟦<(G::Node, G::Kind) as Ord>⟧.cmp self.new.map)) }
        ensures marks { self.new.marks ≡ self.old.marks }
    {
        if let Some(choice) = self.lacking(alloc, head, value, first)? {
            let key = self.key(alloc, head.node, value)?;
            self.map.insert(key, choice)?;
        }
        Ok(())
    }

    /// What the value needs and is not known of its kind at the node.
    fn lacking(
        &self,
        alloc: Global,
        head: &EdgesTo<'_, G::Node, G::Label>,
        value: G::Value,
        first: bool,
    ) -> Result<Option<Choice<G::Node, G::Label>>, AllocError>
        ensures { IfOk result (λ lacking. IfSome lacking
            (λ choice. IsChoice G.keeps G.passed head.now.edges.now value choice)) }
    {
        let key = self.key(alloc, head.node, value)?;
        match self.map.get(&key) {
            None => Ok(Some(begin(alloc, self.graph, head.edges)?)),
            Some(choice) => {
                if first && choice.changing.is_none() {
                    Ok(Some(choose(alloc, self.graph, head.edges, value)?))
                } else {
                    Ok(None)
                }
            }
        }
    }

    /// Marks the kind and group of the value at the node, and tells whether they were not yet. What
    /// is known of kinds stays.
    fn mark(&mut self, alloc: Global, node: &G::Node, value: G::Value) -> Result<bool, AllocError>
        ensures marked { IfOk result (SetsMark
            (contains ⟦<((G::Node, G::Kind), G::Group) as Ord>⟧.cmp self.old.marks)
            (contains ⟦<((G::Node, G::Kind), G::Group) as Ord>⟧.cmp self.new.marks)
            ((node.now, G.kind_of value), G.group_of value)) }
        ensures map { self.new.map ≡ self.old.map }
    {
        let key = self.key(alloc, node, value)?;
        let first = self.marks.insert((key, self.graph.group(value)))?;
        Ok(first)
    }

    /// The pairs of a node and what an edge to it makes of the value: edges that keep values, and
    /// unless it is not the first of its kind and group, those that change them.
    fn chosen(
        &self,
        alloc: Global,
        head: &EdgesTo<'_, G::Node, G::Label>,
        value: G::Value,
        first: bool,
    ) -> Result<Vec<(G::Node, G::Value)>, AllocError>
        ensures { (all : G.Node → List (Edge G.Node G.Label))
            → all head.now.node.now ≡ head.now.edges.now → AreChoices G.keeps G.passed G.kind_of all
            (get ⟦<(G::Node, G::Kind) as Ord>⟧.cmp self.now.map) → IfOk result
            (λ pairs. IsMadeBut G.keeps G.passed head.now.edges.now value (not first) pairs.items) }
    {
        let key = self.key(alloc, head.node, value)?;
        let Some(choice) = self.map.get(&key) else {
            return carried(alloc, self.graph, head.edges, value);
        };
        if first {
            return choice.carried(alloc, self.graph, head.edges, value);
        }
        carried(alloc, self.graph, &choice.keeping, value)
    }
}

impl<N: Drop, L: Copy + Drop> Choice<N, L> {
    /// The pairs of a node and what an edge to it makes of the value.
    fn carried<G: Labelled<Node = N, Label = L>>(
        &self,
        alloc: Global,
        graph: &G,
        edges: &[Edge<N, L>],
        value: G::Value,
    ) -> Result<Vec<(N, G::Value)>, AllocError>
        ensures { IsChoice G.keeps G.passed edges.now value self.now → IfOk result
            (λ pairs. IsMadeBut G.keeps G.passed edges.now value false pairs.items) }
    {
        let Some(changing) = &self.changing else {
            return carried(alloc, graph, edges, value);
        };
        let mut pairs = carried(alloc, graph, &self.keeping, value)?;
        let mut more = carried(alloc, graph, changing, value)?;
        pairs.append(&mut more)?;
        Ok(pairs)
    }
}

/// The edges that keep values.
fn begin<G: Labelled>(
    alloc: Global,
    graph: &G,
    edges: &[Edge<G::Node, G::Label>],
) -> Result<Choice<G::Node, G::Label>, AllocError>
    ensures { (value : G.Value)
        → IfOk result (λ choice. IsChoice G.keeps G.passed edges.now value choice) }
{
    Ok(Choice {
        keeping: keeping(alloc, graph, edges)?,
        changing: None,
    })
}

/// The edges that are enough for the value.
fn choose<G: Labelled>(
    alloc: Global,
    graph: &G,
    edges: &[Edge<G::Node, G::Label>],
    value: G::Value,
) -> Result<Choice<G::Node, G::Label>, AllocError>
    ensures { IfOk result (λ choice. IsChoice G.keeps G.passed edges.now value choice) }
{
    let keeping = keeping(alloc, graph, edges)?;
    let changing = distinct(alloc, graph, edges, value)?;
    Ok(Choice {
        keeping,
        changing: Some(changing),
    })
}

/// Those of the edges that keep values.
fn keeping<G: Labelled>(
    alloc: Global,
    graph: &G,
    edges: &[Edge<G::Node, G::Label>],
) -> Result<Vec<Edge<G::Node, G::Label>>, AllocError>
    ensures { IfOk result
        (λ kept. kept.items ≡ filter (λ edge. G.keeps edge.label) edges.now) }
{
    let mut kept = Vec::new(alloc);
    for edge in edges {
        if graph.keeps(edge.label) {
            let to = graph.copy(alloc, &edge.to)?;
            kept.push(Edge {
                to,
                label: edge.label,
            })?;
        }
    }
    Ok(kept)
}

/// Of the edges that change values, lead to one node and make the same of the value, one: the
/// first, if edges come a node at a time, which no clause says.
fn distinct<G: Labelled>(
    alloc: Global,
    graph: &G,
    edges: &[Edge<G::Node, G::Label>],
    value: G::Value,
) -> Result<Vec<Edge<G::Node, G::Label>>, AllocError>
    ensures { IfOk result
        (λ kept. IsEnough (changed G.keeps G.passed) edges.now value kept.items) }
{
    let mut kept = KeptEdges::<G>::new(alloc);
    for edge in edges {
        kept.add(alloc, graph, edge, value)?;
    }
    Ok(kept.edges)
}

/// What the label makes of the value, if it changes values.
fn changed<G: Labelled>(graph: &G, label: G::Label, value: G::Value) -> Option<G::Value>
    ensures { result ≡ changed G.keeps G.passed label value }
{
    if graph.keeps(label) {
        None
    } else {
        graph.pass(label, value)
    }
}

/// Edges, and what they make of a value.
#[derive(Drop)]
struct KeptEdges<G: Labelled> {
    edges: Vec<Edge<G::Node, G::Label>>,
    made: BTreeSet<(G::Node, G::Value)>,
}

impl<G: Labelled> KeptEdges<G> {
    /// No edges.
    fn new(alloc: Global) -> Self
        ensures edges { result.edges.items ≡ [] }
        ensures made { result.made.keys ≡ [] }
    {
        KeptEdges {
            edges: Vec::new(alloc),
            made: BTreeSet::new(alloc),
        }
    }

    /// Forgets what was made at another node. Edges come a node at a time, so each is looked for
    /// among few.
    fn turn_to(&mut self, node: &G::Node)
        ensures edges { self.new.edges ≡ self.old.edges }
        ensures made { (made : G.Node × G.Value)
            → IsTrue (contains ⟦<(G::Node, G::Value) as Ord>⟧.cmp self.new.made made)
            → IsTrue (contains ⟦<(G::Node, G::Value) as Ord>⟧.cmp self.old.made made) }
    {
        if let Some(last) = self.edges.last() {
            if last.to != *node {
                self.made.clear();
            }
        }
    }

    /// Adds the edge, unless it keeps or drops the value, or another that was added makes the same
    /// pair of its node and a value.
    fn add(
        &mut self,
        alloc: Global,
        graph: &G,
        edge: &Edge<G::Node, G::Label>,
        value: G::Value,
    ) -> Result<(), AllocError>
        ensures { (edges : List (Edge G.Node G.Label)) → IsDistinct
            ⟦<(G::Node, G::Value) as Ord>⟧.cmp (changed G.keeps G.passed) value edges
            self.old.edges.items self.old.made → OnOk result (IsDistinct
            ⟦<(G::Node, G::Value) as Ord>⟧.cmp (changed G.keeps G.passed) value
            (edges ++ edge.now ∷ []) self.new.edges.items self.new.made) }
    {
        let Some(passed) = changed(graph, edge.label, value) else {
            return Ok(());
        };
        self.turn_to(&edge.to);
        let made = (graph.copy(alloc, &edge.to)?, passed);
        let first = self.made.insert(made)?;
        if !first {
            return Ok(());
        }
        let to = graph.copy(alloc, &edge.to)?;
        self.edges.push(Edge {
            to,
            label: edge.label,
        })?;
        Ok(())
    }
}

/// The pairs that the value is carried to over the edges.
pub(crate) fn carried<G: Labelled>(
    alloc: Global,
    graph: &G,
    edges: &[Edge<G::Node, G::Label>],
    value: G::Value,
) -> Result<Vec<(G::Node, G::Value)>, AllocError>
    ensures { IfOk result (λ pairs. pairs.items ≡ filter_map (λ edge. option_map
        (λ carried. (edge.to, carried)) (G.passed edge.label value)) edges.now) }
{
    let mut pairs = Vec::new(alloc);
    for edge in edges {
        if let Some(carried) = graph.pass(edge.label, value) {
            pairs.push((graph.copy(alloc, &edge.to)?, carried))?;
        }
    }
    Ok(pairs)
}
