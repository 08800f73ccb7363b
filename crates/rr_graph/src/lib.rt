//! Which nodes of a directed graph are reached from given nodes, and which values are found at
//! them, over any graph whose edges can be listed: for the expansion of sets in `rr_sets`.
#![tactic(auto)]

ghost use Rattle.std.specs.Prelude.{◌≡◌, ◌↔◌, ◌∷◌, [], Contains, IfOk, map};
ghost use Rattle.std.proofs.lemmas.Map.Lookups.{CmpEqualImpliesEq};
ghost use Rattle.rr_graph.specs.Answered.{FindsWithin, IsWalk};
ghost use Rattle.rr_graph.specs.Chain.{IsReached, MoreThan};

mod backward;
mod descent;
mod effects;
mod gathering;
mod labels;
mod numbered;
mod order;
mod pairs;
mod settled;
mod settling;
mod walk;

pub use gathering::{NodesAndValues, gather};
pub use labels::{Edge, Labelled, LabelledGraph};
pub use order::{ascending, put_in_order};
use std::alloc::{AllocError, AllocFailed, Global};
use walk::FoundNodes;

/// Nodes, of which equal ones can be made.
pub trait Nodes {
    /// A node. Two nodes compare `Equal` only where they are the same.
    type Node: Ord + Drop;

    /// Makes an equal node; the error is that memory ran out.
    fn copy(&self, alloc: Global, node: &Self::Node) -> Result<Self::Node, AllocError>
        ensures { IfOk result (λ same. same ≡ node.now) };

    /// Nodes that compare `Equal` are the same.
    ghost exact: { CmpEqualImpliesEq Self.Node.cmp };
}

/// A directed graph. A look at a node finds what its successors are listed from.
pub trait Graph: Nodes {
    /// What a look at a node finds.
    type Look: Drop;

    /// An edge leads from the first node to the second.
    ghost edge: { Self → Self.Node → Self.Node → Type 0 };

    /// A look at the node may find this.
    ghost shows: { Self → Self.Node → Self.Look → Type 0 };

    /// Looks at the node; the error is that memory ran out.
    fn look(&self, alloc: Global, node: &Self::Node) -> Result<Self::Look, AllocError>
        ensures { IfOk result (λ look. shows self.now node.now look) };

    /// Lists exactly the nodes to which an edge leads from the node that was looked at, in any
    /// order, where one may come more than once; the error is that memory ran out.
    fn successors<'l>(
        &self,
        alloc: Global,
        look: &'l Self::Look,
    ) -> Result<Vec<&'l Self::Node>, AllocError>
        ensures { IfOk result (λ nodes. (node : Self.Node) → shows self.now node look.now
            → (next : Self.Node) → Contains (map (λ n. n.now) nodes.items) next
            ↔ edge self.now node next) };
}

/// What a walk visits: `reach` makes it, as its fields say.
#[derive(Drop)]
pub struct Visits<N, K> {
    /// The nodes, each once, in no promised order.
    pub nodes: Vec<N>,
    /// What the look at each node found, at the place of the node.
    pub looks: Vec<K>,
}

/// Why what is reached is not listed.
#[derive(Clone, Copy, Debug, PartialEq, Eq)]
pub enum ReachFault {
    /// More nodes are reached than the limit, or, for `gather`, more pairs of a node and a value
    /// found at it.
    TooMany,
    /// Memory ran out.
    Memory,
}

/// The fault is that memory ran out.
impl From<AllocError> for ReachFault {
    ghost use Rattle.std.specs.Prelude.{◌≡◌};
    ghost use Rattle.rr_graph.specs.declared.ReachFault.TheVariants.{Memory};

    ghost from_gives = { λ _ fault. fault ≡ Memory };

    fn from(_refused: AllocError) -> ReachFault {
        ReachFault::Memory
    }
}

/// The fault is that memory ran out.
impl<T: Drop> From<AllocFailed<T>> for ReachFault {
    ghost use Rattle.std.specs.Prelude.{◌≡◌};
    ghost use Rattle.rr_graph.specs.declared.ReachFault.TheVariants.{Memory};

    ghost from_gives = { λ _ fault. fault ≡ Memory };

    fn from(_refused: AllocFailed<T>) -> ReachFault {
        ReachFault::Memory
    }
}

/// Lists each node that a chain of edges leads to from `start`, the start itself included, once and
/// in no promised order, and what a look at it found. No other node is listed. `look` is what a
/// look at the start found.
///
/// Each other node is looked at once, when the walk turns to it, and successors are listed once of
/// each look. It takes O((V + E) log V) steps for V nodes reached and E edges between them. No
/// clause says so.
///
/// The fault is `TooMany` exactly where more than `limit` nodes are reached, unless memory runs
/// out; when it does, no clause says.
pub fn reach<G: Graph>(
    alloc: Global,
    graph: &G,
    start: G::Node,
    look: G::Look,
    limit: usize,
) -> Result<Visits<G::Node, G::Look>, ReachFault>
    requires { G.shows graph.now start look }
    ensures { FindsWithin (IsWalk (G.edge graph.now) (G.shows graph.now) (start ∷ []))
        (MoreThan limit (IsReached (G.edge graph.now) (start ∷ []))) result }
{
    let mut found = FoundNodes::new(alloc);
    found.add(alloc, graph, start, limit)?;
    found.add_copies(alloc, graph, &graph.successors(alloc, &look)?, limit)?;
    let mut looks = Vec::new(alloc);
    looks.push(look)?;
    let mut done = 1;
    while done < found.list.len() {
        let look = graph.look(alloc, &found.list[done])?;
        found.add_copies(alloc, graph, &graph.successors(alloc, &look)?, limit)?;
        looks.push(look)?;
        done += 1;
    }
    Ok(Visits {
        nodes: found.into_list(),
        looks,
    })
}
