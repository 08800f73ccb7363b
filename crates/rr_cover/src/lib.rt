//! Values kept by span: which span held is closest to a span, and which cover it. `rr_index` and
//! `rr_registry` keep inetnums and as-blocks in nests; `rr_index` keeps the prefixes of routes in a
//! tree.
#![tactic(auto)]

mod insert_fault;
pub mod laws;
mod prefix_tree;
mod span_nest;

pub use insert_fault::InsertFault;
pub use prefix_tree::PrefixTree;
pub use span_nest::SpanNest;
