//! The command line of the program: what its arguments may be, what they ask for, and the help
//! that is shown. `rr_cli` reads its arguments by this.
#![tactic(auto)]

mod arguments_fault;
mod command;
mod command_reading;
mod grammar;
mod help;
pub mod laws;
mod numbers;

pub use arguments_fault::ArgumentsFault;
pub use command::Command;
pub use command_reading::read_command;
