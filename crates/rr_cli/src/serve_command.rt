//! `irrdesk serve`: serving connections, of a registry in a database. `program_run` calls it. The
//! tool `irr` waits for the line that begins with `listening`, and connects then.

ghost use Rattle.std.specs.Prelude.{◌≡◌, ◌+◌, ◌<◌, ◌^◌, IfErr, IfOk, string_bytes};
ghost use Rattle.rr_io.specs.Sending.{Writes};
ghost use Rattle.rr_http.specs.DeskRegistrars.{serves_desk};
ghost use Rattle.rr_commands.specs.Commands.{AtDesk, EndsAlike};
ghost use Rattle.rr_commands.specs.Faults.{HasTrouble};
ghost use Rattle.rr_commands.specs.Worlds.{at, deed, done_by, named, ports};
ghost use Rattle.rr_cli.specs.Networks.{means};
ghost use Rattle.rr_cli.specs.Serving.{HasServed, IsAboutServing, IsServedEnd, ServesBy};
ghost use Rattle.rr_cli.specs.Serving.{ServesDesk, ShowsPort, address, listening_head};
ghost use Rattle.rr_cli.specs.Serving.{listening, listening_line, serve_words, served_line};

use crate::network::Network;
use crate::peers_with_cause::PeersWithCause;
use itoa::Buffer;
use rr_commands::{
    DatabaseCause, Databases, Files, Host, NamedDatabase, Output, ProgramFault, Tools, Trouble,
    close, ended, open_desk, read_settings_file,
};
use rr_desk::{ConnFault, Desk, Served, Service, Settings, serve_all};
use rr_http::Both;
use rr_io::{Connection, Writer, write_pieces};
use sqlite::{Alter, Error};
use std::alloc::{AllocError, Global};
use std::io;

/// What is served: a port of 127.0.0.1, and so many turns of what listens on it.
#[derive(Clone, Copy)]
pub struct Listening {
    /// The port.
    pub port: u16,
    /// How many turns.
    pub count: u64,
}

/// Takes `count` turns of a listener on `port` of 127.0.0.1, both of `listening`. Serves each
/// connection by whois and HTTP, from the registry that the settings in `file` name. Prints where
/// it listens, and at the end how many turns were served and how many failed. The status is 0.
///
/// The fault is why there are no settings, and then no database is opened; or why there is no desk
/// (as `open_desk` of `rr_commands` tells it) or no listener. In these cases nothing is printed. Or
/// it is that a line was not printed whole. If both lines were, but no turn was served and no
/// connection accepted in the last one, that is the fault. Clauses say so where turns are told, and
/// never for which cause. A fault names what its trouble is about: the settings file, the database,
/// standard output or, of the listener, its address, unless memory runs out.
///
/// Where there is no database, none is made. Without a listener, or if where it listens is not
/// printed whole, no turn is taken, and the desk stays as it is. The settings of the desk stay, its
/// database lasts, and until a fault of the store stops it, its rows are those of its registry. At
/// the end the database is closed as the desk leaves it. If the database fails meanwhile, that is
/// said once on standard error, of which no clause speaks.
pub fn serve<'a, D: Databases, F: Files, N: Network, W: Output>(
    host: &mut Host<'_, D, W>,
    files: &F,
    network: &N,
    file: &'a str,
    listening: Listening,
) -> Result<u8, ProgramFault<'a>>
    ensures { ServesBy (ports D.Disk.Store D.calls (F.calls files.now))
        (means (N.calls network.now) serves_desk) (serve_words file.now listening)
        (done_by W.told host.old host.new result) }
{
    let (settings, mut store) = read_settings_file(host.tools.alloc, files, file)?;
    let watched = Watched {
        tools: host.tools,
        path: store.path.as_str(),
        listening,
    };
    let end = serve_at(host, network, settings, watched, &mut store.found);
    ended_at(host, end, listening.port, file, store)
}

/// How serving ended; trouble with the listener is about its address.
fn ended_at<'a, D: Databases, W: Output>(
    host: &Host<'_, D, W>,
    end: Result<u8, Trouble>,
    port: u16,
    file: &'a str,
    store: NamedDatabase,
) -> Result<u8, ProgramFault<'a>>
    ensures ends { EndsAlike end result }
    ensures about { IfErr result
        (IsAboutServing port file.now (string_bytes store.path) (string_bytes store.found)) }
{
    let alloc = host.tools.alloc;
    match end {
        Err(Trouble::ListenerUnopened(cause)) => {
            Err(about_port(alloc, Trouble::ListenerUnopened(cause), port))
        }
        Err(Trouble::Unaccepted(cause)) => {
            Err(about_port(alloc, Trouble::Unaccepted(cause), port))
        }
        _ => ended(host, end, file, store),
    }
}

/// A fault about a port of 127.0.0.1.
fn about_port<'a>(alloc: Global, trouble: Trouble, port: u16) -> ProgramFault<'a>
    ensures { HasTrouble trouble (ShowsPort port) result }
{
    match address(alloc, port) {
        Ok(address) => ProgramFault::named(address, trouble),
        Err(_) => ProgramFault::unnamed(trouble),
    }
}

/// Where a port is listened on; the error is that memory ran out.
fn address(alloc: Global, port: u16) -> Result<String, AllocError>
    ensures { IfOk result (λ text. string_bytes text ≡ address port) }
{
    let mut buffer = Buffer::new();
    let mut text = String::from_str(alloc, "127.0.0.1:")?;
    text.push_str(buffer.format(u64::from(port)))?;
    Ok(text)
}

/// Serves connections from the registry in a database.
fn serve_at<D: Databases, N: Network, W: Output>(
    host: &mut Host<'_, D, W>,
    network: &N,
    settings: Settings,
    watched: Watched<'_>,
    found: &mut String,
) -> Result<u8, Trouble>
    ensures { AtDesk (at D.Disk.Store D.calls)
        (ServesDesk D.Disk.Store (means (N.calls network.now) serves_desk)
        watched.entry.listening) (named settings watched.entry.path.now)
        (done_by W.told host.old host.new result) }
{
    let path = watched.path;
    let mut desk = open_desk(watched.tools, &mut host.databases, settings, path, found)?;
    let count = watched.listening.count;
    let end = serve_desk(&watched, &mut desk, network, &mut host.output, count);
    let conn = desk.close();
    close(&mut host.databases, conn);
    end
}

/// Listens on the port, says so, and serves so many connections of a desk.
fn serve_desk<S: Alter, N: Network, W: Writer>(
    watched: &Watched<'_>,
    desk: &mut Desk<S>,
    network: &N,
    output: &mut W,
    count: u64,
) -> Result<u8, Trouble>
    ensures { ServesDesk S.Store (means (N.calls network.now) serves_desk)
        (listening watched.now.listening.port count)
        (deed desk.old desk.new (W.told output.old) (W.told output.new) result) }
{
    let port = watched.listening.port;
    match network.listen(port) {
        Ok(mut listener) => match write_listening(output, port) {
            Ok(()) => serve_turns(watched, desk, &mut listener, output, count),
            Err(_) => Err(Trouble::Unwritten),
        },
        Err(cause) => Err(Trouble::ListenerUnopened(cause)),
    }
}

/// What serves as `Both` does, so many connections to a port. When the database at its path fails,
/// which stops the desk, it says so on standard error, and why.
#[derive(Clone, Copy)]
struct Watched<'a> {
    tools: Tools<'a>,
    path: &'a str,
    listening: Listening,
}

impl Watched<'_> {
    /// Says that the database failed with this error.
    fn say(&self, error: Error) {
        let trouble = Trouble::ServedInVain(DatabaseCause::of(error));
        // Its status is not the program's: serving goes on.
        let _ = ProgramFault::of(self.path, trouble)
            .legible(self.tools.alloc)
            .tell(&mut self.tools.errors.counted());
    }
}

impl Service for Watched<'_> {
    ghost serves = { serves_desk };

    fn serve<S: Alter, C: Connection>(
        &self,
        alloc: Global,
        desk: &mut Desk<S>,
        conn: &mut C,
    ) -> Result<(), ConnFault> {
        let was_stopped = desk.stopped();
        let end = Both.serve(alloc, desk, conn);
        if let (false, Some(error)) = (was_stopped, desk.cause()) {
            self.say(error);
        }
        end
    }
}

/// Takes so many turns of a listener, and prints how many were served and how many failed.
fn serve_turns<S: Alter, P: PeersWithCause, W: Writer>(
    watched: &Watched<'_>,
    desk: &mut Desk<S>,
    peers: &mut P,
    output: &mut W,
    count: u64,
) -> Result<u8, Trouble>
    requires { (P.tally peers.old).turns + count < 2 ^ 64 }
    ensures { HasServed S.Store serves_desk count
        (P.tally peers.old) (P.tally peers.new)
        (deed desk.old desk.new (W.told output.old) (W.told output.new) result) }
{
    let served = serve_all(watched.tools.alloc, desk, peers, watched, count);
    match write_served(output, served) {
        Ok(()) => served_end(served, peers),
        Err(_) => Err(Trouble::Unwritten),
    }
}

/// The status is 0, unless no turn was served and no connection could be accepted in the last one:
/// then the fault is its cause.
fn served_end<P: PeersWithCause>(served: Served, peers: &P) -> Result<u8, Trouble>
    ensures { IsServedEnd (P.tally peers.now) served.served result }
{
    match peers.cause() {
        Some(cause) if served.served == 0 => Err(Trouble::Unaccepted(cause)),
        _ => Ok(0),
    }
}

/// Writes where the program listens.
fn write_listening<W: Writer>(output: &mut W, port: u16) -> io::Result<()>
    ensures writes { Writes (W.told output.old) (W.told output.new) (listening_line port) result }
{
    let mut buffer = Buffer::new();
    write_pieces(
        output,
        &[
            listening_head(),
            buffer.format(u64::from(port)).as_bytes(),
            b"\n",
        ],
    )
}

/// What the line begins with that says where the program listens.
#[tactic(auto, unfolding(crate::specs::Serving::listening_head))]
fn listening_head() -> &'static [u8]
    ensures { result.now ≡ listening_head }
{
    b"listening on 127.0.0.1:"
}

/// Writes how many turns were served, and how many failed.
#[tactic(auto, unfolding(crate::specs::Serving::served_line))]
fn write_served<W: Writer>(output: &mut W, served: Served) -> io::Result<()>
    ensures writes { Writes (W.told output.old) (W.told output.new)
        (served_line served.served served.failed) result }
{
    let mut served_digits = Buffer::new();
    let mut failed_digits = Buffer::new();
    write_pieces(
        output,
        &[
            b"served ",
            served_digits.format(served.served).as_bytes(),
            b", failed ",
            failed_digits.format(served.failed).as_bytes(),
            b"\n",
        ],
    )
}
