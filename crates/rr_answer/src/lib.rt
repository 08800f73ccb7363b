//! What a registry answers to queries, and its dumps. A desk answers and dumps by this.
#![tactic(auto)]

mod answering;
mod dumping;
mod expansion;
mod form;
mod found;
pub mod laws;
mod part;
mod query;
mod query_fault;
mod query_reading;
mod selection;
mod text;
mod writing;

pub use answering::find_for;
pub use dumping::{DumpFault, dump};
pub use form::Form;
pub use found::Findings;
pub use query_fault::QueryFault;
pub use query_reading::is_too_long;
