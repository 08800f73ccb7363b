//! The desk: a registry kept in tables, to which submissions and queries are made, and which is
//! dumped and loaded.
//!
//! The commands of the program make, open and close a [`Desk`], and [`serve_all`] serves its
//! connections.
#![tactic(auto)]

mod desk;
mod desk_answering;
mod desk_dumping;
mod desk_migrating;
pub mod dump_laws;
mod dump_read_fault;
mod dump_reading;
pub mod laws;
mod loading;
mod opened;
mod opening;
mod peers;
mod service;
mod settings;
mod stock;
mod turn_serving;

pub use desk::Desk;
pub use desk_answering::{Answered, WriteFault};
pub use desk_dumping::DeskDumpFault;
pub use dump_read_fault::DumpReadFault;
pub use dump_reading::read_dump;
pub use loading::DeskLoadFault;
pub use peers::{AcceptFault, ConnFault, Peers};
pub use rr_store::{CreateFault, MigrateFault, OpenFault};
pub use rr_submission::{Done, SubmissionFault};
pub use service::Service;
pub use settings::{GREATEST_LIMIT, Setting, Settings, ValueFault};
pub use turn_serving::{Served, serve_all};
