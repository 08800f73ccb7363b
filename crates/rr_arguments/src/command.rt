//! The commands of the program, with their arguments, as `command_reading` gives them and `rr_cli`
//! carries them out.

/// What the program is asked to do. `settings` is the path of a settings file.
#[derive(Drop)]
pub enum Command<'a> {
    /// Submit standard input to a registry in memory, which opens with the built-in settings.
    Plain,
    /// Make a registry.
    Init {
        /// The settings.
        settings: &'a str,
    },
    /// Submit a file.
    Submit {
        /// The settings.
        settings: &'a str,
        /// The path of the file.
        file: &'a str,
    },
    /// Ask a registry.
    Query {
        /// The settings.
        settings: &'a str,
        /// The words of the query, with one space between each two.
        query: String,
    },
    /// Print all objects of a registry.
    Dump {
        /// The settings.
        settings: &'a str,
        /// Whether all text of each object is printed, and not its public form.
        full: bool,
    },
    /// Make a registry from a dump.
    Load {
        /// The settings.
        settings: &'a str,
        /// The path of the dump.
        file: &'a str,
    },
    /// Migrate a database of version 1.
    Migrate {
        /// The settings.
        settings: &'a str,
    },
    /// Serve connections.
    Serve {
        /// The settings.
        settings: &'a str,
        /// The port, 1 to 65,535.
        port: u16,
        /// How many connections are served, 1 to 1,000,000.
        count: u64,
    },
    /// Ask a listener of the program's own.
    Probe {
        /// The settings.
        settings: &'a str,
    },
    /// Print help or the version.
    Print(String),
}
