//! Connections of whois and HTTP: what each wants, and the bytes that answer it (RFC 3912, RFC
//! 9112).
//!
//! The program uses [`Both`], and the proofs of other crates the laws. The other names that are
//! exported, [`serve_one`] and [`Registrar`] among them, are there for the tests of
//! `rr_service_tests`.
#![tactic(auto)]

mod answering;
mod asking;
mod body;
mod body_reading;
mod body_size;
mod both;
mod desk_registrar;
mod fields;
mod heads;
pub mod laws;
mod registrar;
mod replying;
mod serving;

pub use asking::{Page, Refusal, Requested, read_request};
pub use body_reading::{BodyEnd, read_body};
pub use body_size::{BODY_LIMIT, BodySize};
pub use both::Both;
pub use heads::{HEAD_LIMIT, Head, read_head};
pub use registrar::Registrar;
pub use replying::write_refusal;
pub use serving::serve_one;
