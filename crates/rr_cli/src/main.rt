//! The program `irrdesk`: makes a registry, submits to it, and asks and serves what it has. `main`
//! takes the arguments, the streams, the files and the network of the machine, and `program_run`
//! does the rest.
#![tactic(auto)]

mod network;
mod peers_with_cause;
mod probe_command;
mod program_run;
mod serve_command;
mod standard_streams;

use crate::network::Sockets;
use crate::program_run::ProgramStreams;
use crate::standard_streams::{StandardInput, fill_closed};
use rr_commands::{DatabaseFiles, ErrorStream, Host, Progress, Reading, SystemFiles, Tools};
use rr_io::Counted;
use std::env;
use std::process::ExitCode;

fn main(rt: HostRuntime) -> ExitCode {
    // Kept to the end of the run.
    let filled = fill_closed(&rt);
    let stdin = StandardInput::new(&rt, filled[0].is_some());
    let tools = Tools {
        alloc: rt.alloc(),
        errors: ErrorStream::new(&rt),
    };
    let mut streams = ProgramStreams {
        input: Reading::silent(tools.errors, Counted::new(stdin)),
        errors: tools.errors.counted(),
    };
    let files = SystemFiles::new(&rt);
    let network = Sockets::new(&rt);
    let mut host = Host {
        tools,
        databases: DatabaseFiles::new(&rt),
        output: Progress::new(tools.errors, Counted::new(rt.stdout())),
    };
    ExitCode::from(match program_run::collect(tools.alloc, env::args(&rt)) {
        Ok(arguments) => program_run::run(
            &mut host,
            &files,
            &network,
            arguments.as_slice(),
            &mut streams,
        ),
        Err(trouble) => program_run::tell_unread(trouble, &mut streams.errors),
    })
}
