//! Which AS numbers and which ranges of prefixes the sets of a registry stand for (RFC 2622, 5).
//! `rr_answer` asks for them; `rr_book` and `rr_index` implement `SetBook`.
#![tactic(auto)]

mod as_sets;
mod book;
mod by_reference;
mod direct;
mod members;
mod ranges;
mod references;
mod route_sets;

pub use as_sets::expand_as_set;
pub use book::SetBook;
pub use members::{ExpandFault, Members};
pub use route_sets::expand_route_set;
