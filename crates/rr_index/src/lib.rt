//! The book in which the program keeps its registry: objects by key in a balanced tree, and
//! indexes beside it. These answer questions about spans, origins, sets and maintainers without a
//! look at all objects. `rr_desk` and `rr_commands` use the book.
#![tactic(auto)]

mod indexed_book;
mod indexes;
mod name_index;
mod naming_index;
mod object_map;
mod origin_index;
mod span_index;

pub use indexed_book::IndexedBook;
