//! Who may change a registry: secrets, the authority of maintainers, and the verdict on an item
//! (RFC 2725, 9 and 10). `rr_registry` asks for verdicts; `rr_book` and `rr_index` implement
//! `Book`.
#![tactic(auto)]

mod auth_line;
mod authority;
mod book;
mod item;
mod judging;
mod known;
pub mod laws;
mod passing;
mod salted;
mod secret;
mod secrets;
mod tried;
mod verdict;

pub use book::Book;
pub use item::Item;
pub use judging::judge;
pub use known::Known;
pub use secrets::Secrets;
pub use verdict::Verdict;
