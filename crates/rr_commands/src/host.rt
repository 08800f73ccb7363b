//! What commands use of the machine: `rr_cli` makes a host, and commands are given it.

use crate::error_stream::ErrorStream;
use std::alloc::Global;

/// What each command uses: memory, and standard error for what is not a result.
#[derive(Clone, Copy)]
pub struct Tools<'h> {
    /// Memory.
    pub alloc: Global,
    /// Standard error.
    pub errors: ErrorStream<'h>,
}

/// What a command changes, with its tools: what keeps databases, and what it prints to. Files it
/// only reads.
#[derive(Drop)]
pub struct Host<'h, D, W> {
    /// Its tools.
    pub tools: Tools<'h>,
    /// What keeps databases.
    pub databases: D,
    /// What it prints to.
    pub output: W,
}

/// The database that settings name, and what was found in it, for a message: a row, a table, or
/// what was added to one. `read_settings_file` gives it, a command adds what it found, and `ended`
/// puts both into a fault.
#[derive(Drop)]
pub struct NamedDatabase {
    /// Its path.
    pub path: String,
    /// What was found in it, as it stands after the path; nothing at first.
    pub found: String,
}
