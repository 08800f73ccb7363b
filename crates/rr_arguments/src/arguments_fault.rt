//! Why the arguments of the command line ask for nothing, as `command_reading` finds and `rr_cli`
//! reports.

ghost use Rattle.std.specs.Prelude.{◌≡◌};
ghost use Rattle.rr_arguments.specs.declared.arguments_fault.ArgumentsFault.TheVariants.{Memory};

use std::alloc::AllocError;

/// Why the arguments ask for nothing that the program does.
#[derive(Drop)]
pub enum ArgumentsFault<'a> {
    /// A parse refuses them, and this line is to say why.
    Refused(String),
    /// A parse gives neither a whole command nor help, the version or a refusal.
    Unexplained,
    /// This argument is not a port, which is a number from 1 to 65,535.
    Port(&'a str),
    /// This argument is not a count, which is a number from 1 to 1,000,000.
    Count(&'a str),
    /// Memory ran out.
    Memory,
}

impl From<AllocError> for ArgumentsFault<'_> {
    ghost from_gives = { λ _ fault. fault ≡ Memory };

    fn from(_error: AllocError) -> Self {
        ArgumentsFault::Memory
    }
}
