//! Nodes at which all that is found is known: `settling` enters them, and `gathering` takes the
//! values of its start.

ghost use Rattle.std.specs.Prelude.{◌≡◌, None, Some, Contains, OnOk, IfSome};
ghost use Rattle.std.specs.Prelude.{if◌then◌else◌, is_some, true};
ghost use Rattle.std.specs.BTreeMap.{is_at};
ghost use Rattle.std.specs.List.Sorted.{IsStrictlySortedBy};
ghost use Rattle.std.specs.Option.{option_copied};
ghost use Rattle.rr_graph.specs.Chain.{MoreThan};
ghost use Rattle.rr_graph.specs.SettledParts.{IsKnownValueOr, IsTallied, values_at};

use crate::ReachFault;
use crate::labels::Labelled;
use std::alloc::Global;
use std::collections::BTreeMap;

/// Nodes, each with the values that are found at it, in ascending order, and how many pairs of both
/// there are.
#[derive(Drop)]
pub(crate) struct Settled<G: Labelled> {
    values: BTreeMap<G::Node, Vec<G::Value>>,
    pairs: usize,
}

impl<G: Labelled> Settled<G> {
    /// No nodes.
    pub(crate) fn new(alloc: Global) -> Self
        ensures none { (node : G.Node) → values_at G.Node.cmp result.values node ≡ None }
        ensures count { result.pairs ≡ 0 }
    {
        Settled {
            values: BTreeMap::new(alloc),
            pairs: 0,
        }
    }

    /// The values of the node, if they are known.
    pub(crate) fn at(&self, node: &G::Node) -> Option<&[G::Value]>
        ensures { option_copied result ≡ values_at G.Node.cmp self.now.values node.now }
    {
        match self.values.get(node) {
            Some(values) => Some(values.as_slice()),
            None => None,
        }
    }

    /// Enters the values under the node, which has none yet. `TooMany` says that with these there
    /// would be more than `limit` pairs. After a fault nodes may be gone.
    pub(crate) fn enter(
        &mut self,
        node: G::Node,
        values: Vec<G::Value>,
        limit: usize,
    ) -> Result<(), ReachFault>
        requires tallied { IsTallied (values_at G.Node.cmp self.old.values) limit self.old.pairs }
        requires absent { values_at G.Node.cmp self.old.values node ≡ None }
        requires sorted { IsStrictlySortedBy G.Value.cmp values.items }
        ensures tallied { OnOk result
            (IsTallied (values_at G.Node.cmp self.new.values) limit self.new.pairs) }
        ensures entered { OnOk result ((other : G.Node)
            → values_at G.Node.cmp self.new.values other ≡ (if is_at (G.Node.cmp node) other
            then Some values.items else values_at G.Node.cmp self.old.values other)) }
        ensures many { result ≡ Err ReachFault.TooMany → MoreThan limit
            (IsKnownValueOr (values_at G.Node.cmp self.old.values) node (Contains values.items)) }
    {
        let room = limit.saturating_sub(self.pairs);
        if values.len() > room {
            return Err(ReachFault::TooMany);
        }
        self.pairs += values.len();
        self.values.insert(node, values)?;
        Ok(())
    }

    /// The values of the node, where those of all nodes of the list are known.
    pub(crate) fn into_values(self, nodes: &[G::Node], node: &G::Node) -> Option<Vec<G::Value>>
        ensures at { IfSome result
            (λ values. values_at G.Node.cmp self.values node.now ≡ Some values.items) }
        ensures all { IfSome result (λ _. (other : G.Node) → Contains nodes.now other
            → is_some (values_at G.Node.cmp self.values other) ≡ true) }
    {
        let Settled {
            mut values,
            pairs: _,
        } = self;
        if nodes.iter().all(|other| values.contains_key(other)) {
            values.remove(node)
        } else {
            None
        }
    }
}
