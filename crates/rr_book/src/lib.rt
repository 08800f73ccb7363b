//! Books, which keep the objects of a registry in memory: what each does (`Keeper`), and one that
//! is a list. `rr_registry` keeps a registry in a book, and `rr_index` has the other one.
#![tactic(auto)]

mod closest;
mod keeper;
mod keys;
pub mod listings;
pub mod object_lists;
mod plain_book;
pub mod set_book;
pub mod set_index;

pub use keeper::Keeper;
pub use plain_book::PlainBook;
