//! Readers and writers as contracts see them, and whole texts written to them: for all crates that
//! read a stream or print to one. They count their failed calls and their reads.
#![tactic(auto)]

mod counting;
mod cutting;
mod joining;
mod receiving;
mod sending;
mod streams;

pub use counting::Counted;
pub use cutting::Cut;
pub use joining::Joined;
pub use receiving::{READ_LIMIT, READ_SIZE, ReadEnd};
pub use sending::{write_all, write_pieces};
pub use streams::{Connection, Reader, Writer};
