//! A listener on 127.0.0.1, whose connections over TCP are served one after the other, and how long
//! their peers are waited for. `rr_cli` serves by it, and asks itself over it.
#![tactic(auto)]

mod deadline;
mod listener;
mod peer_reader;
mod peer_writer;
mod socket;
mod stream;

pub use listener::Listener;
