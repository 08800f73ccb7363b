//! Submissions: the items of a text, what decides them, and the report on them. A desk takes
//! submissions by `submit`, and its stock is the ledger in it. `rr_http` puts replies together in a
//! `ShortText`.
#![tactic(auto)]

mod ending;
mod handling;
mod handling_fault;
mod items;
mod keyed_item;
pub mod laws;
mod ledger;
mod report_keys;
mod report_line;
mod request;
mod secret;
mod short_text;
mod submission;
mod submission_text;

pub use ending::Ending;
pub use handling::submit;
pub use keyed_item::KeyedItem;
pub use ledger::{Ledger, Stopped};
pub use short_text::{SHORT_SIZE, ShortText};
pub use submission::{Done, SubmissionFault};
