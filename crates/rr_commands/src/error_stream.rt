//! Standard error: how far a command is, a hint, why a served database failed, and the line of a
//! fault. `rr_cli` makes it and writes to it, as `meter` and `progress` do. Without a terminal
//! there is neither progress nor a hint: the tool `irr` takes all that stands there for the line of
//! a fault.

use rr_io::Counted;
use std::io::{IsTerminal, Stderr, Write};
use std::time::Instant;

/// Standard error, with a clock. It gives no way to standard output or to a file, so what is told
/// while a command runs goes nowhere else. No clause says what is a terminal, what is shown, or
/// what time it is.
#[derive(Clone, Copy)]
pub struct ErrorStream<'a> {
    rt: &'a HostRuntime,
}

impl<'a> ErrorStream<'a> {
    /// Standard error of the program.
    pub fn new(rt: &'a HostRuntime) -> ErrorStream<'a> {
        ErrorStream { rt }
    }

    /// Whether it is shown on a terminal. No clause says so.
    pub fn is_terminal(self) -> bool {
        self.rt.stderr().is_terminal()
    }

    /// Whether standard output is shown on a terminal. It then counts as the same one, although it
    /// may be another. No clause says so.
    pub fn is_shared(self) -> bool {
        self.rt.stdout().is_terminal()
    }

    /// Whether standard input is typed on a terminal. No clause says so.
    pub fn is_typed(self) -> bool {
        self.rt.stdin().is_terminal()
    }

    /// Writes these bytes, or part of them if a write fails, which is not reported: no command
    /// fails for it. No clause says so.
    pub fn show(self, bytes: &[u8]) {
        let _ = self.rt.stderr().write_all(bytes);
    }

    /// A writer to standard error that counts its own failed writes, none so far. No clause says
    /// so.
    pub fn counted(self) -> Counted<Stderr> {
        Counted::new(self.rt.stderr())
    }

    /// The time by the system's steady clock, or `None` if it cannot be read. No clause says so.
    pub fn now(self) -> Option<Instant> {
        Instant::now(self.rt).ok()
    }
}
