//! A run of the program, over its arguments and its three streams: the command is read, carried
//! out, and its end told. `main` makes one.

ghost use Rattle.rr_http.specs.DeskRegistrars.{serves_desk};
ghost use Rattle.std.specs.Prelude.{◌≡◌, IfErr, IsOk, OnOk, map, string_bytes};
ghost use Rattle.rr_arguments.specs.CommandLine.{invoked};
ghost use Rattle.rr_commands.specs.Worlds.{deed, ports};
ghost use Rattle.rr_cli.specs.Networks.{means};
ghost use Rattle.rr_cli.specs.Running.{CarriesOut, resources};
ghost use Rattle.rr_cli.specs.Runs.{AreUnread, DoesAsInvoked, EndsRun, EndsUnread, IsOfArguments};
ghost use Rattle.rr_cli.specs.Runs.{Runs, ran_by, refused_arguments};

use crate::network::Network;
use crate::probe_command::probe;
use crate::serve_command::{Listening, serve};
use rr_arguments::{ArgumentsFault, Command, read_command};
use rr_commands::{
    Databases, ErrorStream, Files, Host, Input, Output, ProgramFault, Trouble, dump, init, load,
    migrate, plain, print, query, shown_name, submit,
};
use rr_io::Writer;
use std::alloc::Global;
use std::env::Args;
use std::io;
use std::io::ErrorKind;

/// What a terminal shows before objects are typed on it.
const HINT: &[u8] =
    b"irrdesk: objects are read from this terminal: `irrdesk help` lists the commands\n";

/// The streams of a program beside its standard output, which is its host's.
#[derive(Drop)]
pub struct ProgramStreams<R, E> {
    /// Standard input.
    pub input: R,
    /// Standard error, for the line of a fault.
    pub errors: E,
}

/// Does what the arguments ask for, the first of which is the program's own name, and gives the
/// status. It is 0 if that is done, and 1 if an item was refused or an answer was an error. What
/// each command does, its function says. A command without settings uses no database, and the plain
/// command alone reads standard input. Arguments that ask for no command, or for which memory runs
/// out, are a fault: then no database, standard input or standard output is used. That fault names
/// the word that is no port or no count, or says why the arguments are refused, though no clause
/// says in which words.
///
/// A fault has its line on `streams.errors`, less its end if a write fails. The line names what the
/// fault is about, a word that needs no escape as it is. Without a fault nothing is written by
/// `streams.errors`. The hint, the progress and messages of a server pass it by:
/// `host.tools.errors` writes them, of which no clause speaks. The status of a fault is 2 at wrong
/// arguments, and 3 at wrong settings. Of a command with settings it is 4 at trouble with the
/// database, also if SQLite lacks memory once it is open, or if the desk is stopped. It is else 5,
/// also if other memory ran out (profile).
pub fn run<D: Databases, F: Files, N: Network, R: Input, W: Output, E: Writer>(
    host: &mut Host<'_, D, W>,
    files: &F,
    network: &N,
    arguments: &[String],
    streams: &mut ProgramStreams<R, E>,
) -> u8
    ensures { Runs (ports D.Disk.Store D.calls (F.calls files.now))
        (means (N.calls network.now) serves_desk) (map string_bytes arguments.now)
        (ran_by R.told E.told W.told host.old host.new streams.old streams.new result) }
{
    let end = run_arguments(host, files, network, arguments, &mut streams.input);
    ended_with(host.tools.alloc, end, &mut streams.errors)
}

/// The status of how a run ended, and at a fault its line on `errors`.
fn ended_with<'a, E: Writer>(alloc: Global, end: Result<u8, ProgramFault<'a>>, errors: &mut E) -> u8
    ensures { EndsRun end.entry (E.told errors.old) (E.told errors.new) result }
{
    match end {
        Ok(status) => status,
        Err(fault) => fault.legible(alloc).tell(errors),
    }
}

/// Tells on `errors` the trouble for which the arguments could not be read, and gives its status.
/// The line names nothing that it is about, and is less its end if a write fails. Why reading or
/// printing failed, if the trouble is that, no clause says.
pub fn tell_unread<E: Writer>(trouble: Trouble, errors: &mut E) -> u8
    ensures { EndsUnread trouble (E.told errors.old) (E.told errors.new) result }
{
    ProgramFault::unnamed(trouble).tell(errors)
}

/// The arguments as a list, only if the system gave them; which they are, no clause says. The
/// trouble is that the system gave none, as one is not text or memory ran out, or that memory ran
/// out for the list (profile).
pub fn collect(alloc: Global, arguments: io::Result<Args>) -> Result<Vec<String>, Trouble>
    ensures read { OnOk result (IsOk arguments) }
    ensures unread { IfErr result (AreUnread arguments) }
{
    match arguments {
        Ok(arguments) => match arguments.collect(alloc) {
            Ok(arguments) => Ok(arguments),
            Err(_) => Err(Trouble::Memory),
        },
        Err(error) => Err(refused_arguments(error.kind())),
    }
}

/// What is told of arguments that the system does not give, by the kind of its error.
fn refused_arguments(kind: ErrorKind) -> Trouble
    ensures { result ≡ refused_arguments kind }
{
    match kind {
        ErrorKind::OutOfMemory => Trouble::Memory,
        _ => Trouble::ArgumentsNotText,
    }
}

/// The fault of these arguments, which ask for nothing.
fn fault_of<'a>(alloc: Global, arguments: &[String], fault: ArgumentsFault<'a>) -> ProgramFault<'a>
    ensures { IsOfArguments fault.entry result }
{
    match fault {
        ArgumentsFault::Refused(line) => {
            // Without memory the arguments stay in it as they were given.
            let told = shown_refusal(alloc, arguments).unwrap_or(line);
            ProgramFault::named(told, Trouble::BadArguments)
        }
        ArgumentsFault::Unexplained => ProgramFault::unnamed(Trouble::BadArguments),
        ArgumentsFault::Port(word) => ProgramFault::of(word, Trouble::BadPort),
        ArgumentsFault::Count(word) => ProgramFault::of(word, Trouble::BadCount),
        ArgumentsFault::Memory => ProgramFault::unnamed(Trouble::Memory),
    }
}

/// Why arguments are refused, in which they stand as a line shows them.
fn shown_refusal(alloc: Global, arguments: &[String]) -> Option<String> {
    let shown = shown_arguments(alloc, arguments)?;
    refusal_of(alloc, shown.as_slice())
}

/// These arguments as a line shows them, if there is memory.
fn shown_arguments(alloc: Global, arguments: &[String]) -> Option<Vec<String>> {
    let mut shown = Vec::new(alloc);
    for argument in arguments {
        shown.push(shown_name(alloc, argument.as_str()).ok()?).ok()?;
    }
    Some(shown)
}

/// The line that says why these arguments are refused, if one does.
fn refusal_of(alloc: Global, arguments: &[String]) -> Option<String> {
    match read_command(alloc, arguments) {
        Ok(_command) => None,
        Err(fault) => match fault {
            ArgumentsFault::Refused(line) => Some(line),
            ArgumentsFault::Unexplained
            | ArgumentsFault::Port(_)
            | ArgumentsFault::Count(_)
            | ArgumentsFault::Memory => None,
        },
    }
}

/// Does what the arguments ask for.
fn run_arguments<'a, D: Databases, F: Files, N: Network, R: Input, W: Output>(
    host: &mut Host<'_, D, W>,
    files: &F,
    network: &N,
    arguments: &'a [String],
    input: &mut R,
) -> Result<u8, ProgramFault<'a>>
    ensures { DoesAsInvoked (ports D.Disk.Store D.calls (F.calls files.now))
        (means (N.calls network.now) serves_desk) (invoked (map string_bytes arguments.now))
        (deed (resources host.old.databases (R.told input.old))
        (resources host.new.databases (R.told input.new))
        (W.told host.old.output) (W.told host.new.output) result) }
{
    match read_command(host.tools.alloc, arguments) {
        Ok(command) => carry_out(host, files, network, command, input),
        Err(fault) => Err(fault_of(host.tools.alloc, arguments, fault)),
    }
}

/// Carries out a command.
fn carry_out<'a, D: Databases, F: Files, N: Network, R: Input, W: Output>(
    host: &mut Host<'_, D, W>,
    files: &F,
    network: &N,
    command: Command<'a>,
    input: &mut R,
) -> Result<u8, ProgramFault<'a>>
    ensures { CarriesOut (ports D.Disk.Store D.calls (F.calls files.now))
        (means (N.calls network.now) serves_desk) command.entry
        (deed (resources host.old.databases (R.told input.old))
        (resources host.new.databases (R.told input.new))
        (W.told host.old.output) (W.told host.new.output) result) }
{
    match command {
        Command::Plain => {
            hint(host.tools.errors);
            plain(host.tools.alloc, input, &mut host.output)
        }
        Command::Init { settings } => init(host, files, settings),
        Command::Submit { settings, file } => submit(host, files, settings, file),
        Command::Query {
            settings,
            query: words,
        } => query(host, files, settings, words.as_str()),
        Command::Dump { settings, full } => dump(host, files, settings, full),
        Command::Load { settings, file } => load(host, files, settings, file),
        Command::Migrate { settings } => migrate(host, files, settings),
        Command::Serve {
            settings,
            port,
            count,
        } => serve(host, files, network, settings, Listening { port, count }),
        Command::Probe { settings } => probe(host, files, network, settings),
        Command::Print(text) => print(&mut host.output, text.as_bytes()),
    }
}

/// Says on a terminal that objects are read from it.
fn hint(errors: ErrorStream<'_>) {
    if errors.is_typed() && errors.is_terminal() {
        errors.show(HINT);
    }
}
