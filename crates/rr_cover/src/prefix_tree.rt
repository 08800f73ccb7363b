//! Prefixes in a binary tree: those of routes, which `rr_index` keeps.

ghost use Rattle.std.specs.Prelude.{◌≡◌, ◌≤◌, map, IfOk, IfErr, MatchOption};
ghost use Rattle.std.specs.FinMap as span_map;
ghost use Rattle.rr_number.specs.Prefixes.{span_of};
ghost use Rattle.rr_cover.specs.SpanMaps.{covering, IsClosest, NoneCovers};
ghost use Rattle.rr_cover.specs.SpanMaps.{Inserts, Removes};

mod adding;
mod changes;
mod lists;
mod parting;
mod reading;

use adding::set;
use changes::take;
use lists::{push_covering, put_in_order};
use reading::{levels, smallest_cover};
use rr_number::{Prefix, Span};
use std::alloc::{AllocError, AllocFailed, Global};
use std::marker::Model;

/// Values kept by prefix: a binary tree in which each prefix has those of its lower half on one
/// side and those of its upper half on the other. It has a node for each prefix held and for each
/// at which two of them part. The bits of an address are the way down, and each level is at least
/// one bit longer: so it has at most 33 levels, and needs no balancing.
#[derive(Drop)]
pub struct PrefixTree<T> {
    root: Tree<T>,
    alloc: Global,
}

/// A tree of prefixes.
#[derive(Drop)]
#[cycle(tree)]
enum Tree<T> {
    Empty,
    Fork(Box<Node<T>>),
}

/// A prefix with its value, or one at which two others part, and the trees of the prefixes in its
/// halves.
#[derive(Drop)]
#[cycle(tree)]
struct Node<T> {
    prefix: Prefix,
    value: Option<T>,
    lower: Tree<T>,
    upper: Tree<T>,
}

impl<T> Model for PrefixTree<T> {
    ghost use Rattle.std.specs.FinMap as span_map;
    ghost use Rattle.rr_number.specs.Spans.{ends_code};
    ghost use Rattle.rr_cover.specs.SpanMaps.{SpanMap};

    ghost Value = { SpanMap T };

    ghost coded = { span_map.code ends_code T.code };

    ghost use Rattle.rr_cover.specs.PrefixTrees.{held_by, IsTree};

    ghost view = { λ a. held_by a.root };

    ghost invariant = { λ a. IsTree a.root };
}

impl<T> PrefixTree<T> {
    /// A tree of no prefix.
    pub fn new(alloc: Global) -> Self
        ensures { result ≡ span_map.empty }
    {
        PrefixTree {
            root: Tree::Empty,
            alloc,
        }
    }

    /// The smallest prefix held that covers the prefix, which is the longest one, with its value;
    /// `None` where none covers it. An equal one counts (RFC 2725, 9).
    pub fn closest(&self, prefix: Prefix) -> Option<(Prefix, &T)>
        ensures { MatchOption result (NoneCovers self.now (span_of prefix))
            (λ p. IsClosest self.now (span_of prefix) (span_of p.0) p.1.now) }
    {
        smallest_cover(&self.root, prefix)
    }

    /// The prefixes held that cover the span, each once, in order of first, then last address
    /// (profile). An equal one counts. The error is that memory ran out.
    pub fn covering(&self, alloc: Global, span: Span) -> Result<Vec<Prefix>, AllocError>
        ensures { IfOk result (λ prefixes. map span_of prefixes.items ≡ covering self.now span) }
    {
        let mut prefixes = Vec::new(alloc);
        push_covering(&self.root, span, &mut prefixes)?;
        put_in_order(&mut prefixes);
        Ok(prefixes)
    }

    /// How many levels the tree has, for tests. The number is at most 33, because prefixes have so
    /// many lengths; no clause says that it is that of the levels.
    pub fn levels(&self) -> u32
        ensures { result ≤ 33 }
    {
        levels(&self.root)
    }
}

impl<T: Drop> PrefixTree<T> {
    /// Puts the value at the prefix, and gives back the value that stood there, if any did
    /// (profile). What stands at other prefixes stays. If memory runs out, nothing changes, and the
    /// value comes back with the fault.
    pub fn insert(&mut self, prefix: Prefix, value: T) -> Result<Option<T>, AllocFailed<T>>
        ensures inserts { Inserts self.old (span_of prefix) value self.new result }
        ensures back { IfErr result (λ refused. refused.value ≡ value) }
    {
        // A prefix has only zeros after its bits.
        let _length = prefix.length();
        let alloc = self.alloc;
        match set(&mut self.root, alloc, prefix, value) {
            Ok(old) => Ok(old),
            Err(value) => Err(AllocFailed { value }),
        }
    }

    /// Takes the prefix out, if it is held, and gives back the value that stood there. All others
    /// stay with their values, those inside it too (profile).
    pub fn remove(&mut self, prefix: Prefix) -> Option<T>
        ensures { Removes self.old (span_of prefix) self.new result }
    {
        take(&mut self.root, prefix)
    }
}
