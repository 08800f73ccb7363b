//! The registry in memory: a sound map of objects, and what items do to it. `rr_submission` and
//! `rr_desk` decide items by it; `rr_answer` answers from it.
#![tactic(auto)]

pub mod confinement_laws;
mod gathered;
mod key_order;
pub mod laws;
mod load;
mod open_spans;
mod outcome;
mod registry;

pub use load::LoadFault;
pub use outcome::Outcome;
pub use registry::Registry;
pub use rr_book::{Keeper, PlainBook};
