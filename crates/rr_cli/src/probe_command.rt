//! `irrdesk probe`: a question of the program to itself, over a connection. `program_run` calls it.

ghost use Rattle.std.specs.Prelude.{◌≡◌, ◌+◌, ◌<◌, ◌^◌, IfErr, IfOk, OnOk};
ghost use Rattle.rr_http.specs.DeskRegistrars.{serves_desk};
ghost use Rattle.rr_commands.specs.Commands.{AtDesk};
ghost use Rattle.rr_commands.specs.Worlds.{at, deed, done_by, named, ports};
ghost use Rattle.rr_cli.specs.Networks.{means};
ghost use Rattle.rr_cli.specs.Probing.{AsksInVain, GivesNoReply, HearsNothing, IsReplyTo};
ghost use Rattle.rr_cli.specs.Probing.{IsWhole, ListensOnce, PrintsReply, ProbesBy, ProbesDesk};
ghost use Rattle.rr_cli.specs.Probing.{TakesOneTurn, question_trouble, reply_status};

use crate::network::Network;
use crate::peers_with_cause::PeersWithCause;
use rr_commands::{
    Cause, Databases, Files, Host, Output, ProgramFault, Readable, Trouble, close, ended,
    open_desk, read_settings_file,
};
use rr_desk::{Desk, Peers, Settings, serve_all};
use rr_http::Both;
use rr_io::{Reader, Writer, write_all};
use sqlite::Alter;
use std::alloc::Global;
use std::io;
use std::io::{ErrorKind, Read};

/// The status if the reply is an error.
const ERROR: u8 = 1;

/// Asks the registry that the settings in `file` name for its root maintainer, and prints the
/// reply. It asks by whois, over a connection to a listener of its own on any free port, of which
/// it takes one turn. The status is 0, or 1 if the reply is an error.
///
/// The fault is why there are no settings, and then no database is opened. Or it is why there is no
/// desk (as `open_desk` of `rr_commands` tells it), no listener or no reply. In these cases nothing
/// is printed. Or it is that the reply was not printed whole. The fault names what its trouble is
/// about: the settings file, the database, standard output or nothing. There is no reply if nobody
/// could ask, if the turn or a read failed, if none was given or told, or if memory ran out. Whose
/// connection the turn serves, no clause says; nor for which cause a turn failed.
///
/// Where there is no database, none is made. Without a listener, or if nobody could ask, the desk
/// stays as it is. After a turn its settings are as they were, its database lasts, and until a
/// fault of the store stops it, its rows are those of its registry. At the end the database is
/// closed as the desk leaves it.
pub fn probe<'a, D: Databases, F: Files, N: Network, W: Output>(
    host: &mut Host<'_, D, W>,
    files: &F,
    network: &N,
    file: &'a str,
) -> Result<u8, ProgramFault<'a>>
    ensures { ProbesBy (ports D.Disk.Store D.calls (F.calls files.now))
        (means (N.calls network.now) serves_desk) file.now
        (done_by W.told host.old host.new result) }
{
    let (settings, mut store) = read_settings_file(host.tools.alloc, files, file)?;
    let path = store.path.as_str();
    let end = probe_at(host, network, settings, path, &mut store.found);
    ended(host, end, file, store)
}

/// Asks the registry in the database at a path for its root maintainer, and prints the reply.
fn probe_at<D: Databases, N: Network, W: Output>(
    host: &mut Host<'_, D, W>,
    network: &N,
    settings: Settings,
    path: &str,
    found: &mut String,
) -> Result<u8, Trouble>
    ensures { AtDesk (at D.Disk.Store D.calls)
        (ProbesDesk D.Disk.Store (means (N.calls network.now) serves_desk))
        (named settings path.now) (done_by W.told host.old host.new result) }
{
    let mut desk = open_desk(host.tools, &mut host.databases, settings, path, found)?;
    let end = probe_desk(host.tools.alloc, &mut desk, network, &mut host.output);
    let conn = desk.close();
    close(&mut host.databases, conn);
    end
}

/// Asks a desk for its root maintainer, and prints the reply.
fn probe_desk<S: Alter, N: Network, W: Writer>(
    alloc: Global,
    desk: &mut Desk<S>,
    network: &N,
    output: &mut W,
) -> Result<u8, Trouble>
    ensures { ProbesDesk S.Store (means (N.calls network.now) serves_desk)
        (deed desk.old desk.new (W.told output.old) (W.told output.new) result) }
{
    let reply = ask_for_root(alloc, desk, network)?;
    print_reply(reply.as_slice(), output)
}

/// Prints a reply: the status is 0, or 1 if it is an error.
fn print_reply<W: Writer>(reply: &[u8], output: &mut W) -> Result<u8, Trouble>
    ensures { PrintsReply reply.now (W.told output.old) (W.told output.new) result }
{
    match write_all(output, reply) {
        Ok(()) => Ok(reply_status(reply)),
        Err(_) => Err(Trouble::Unwritten),
    }
}

/// The reply to the name of a desk's root maintainer, over a connection.
fn ask_for_root<S: Alter, N: Network>(
    alloc: Global,
    desk: &mut Desk<S>,
    network: &N,
) -> Result<Vec<u8>, Trouble>
    ensures reply { IfOk result
        (λ reply. IsReplyTo (N.calls network.now) desk.old.settings.root reply.items) }
    ensures read { OnOk result
        (ListensOnce S.Store (N.calls network.now) serves_desk desk.old desk.new) }
    ensures unread { IfErr result
        (AsksInVain S.Store (N.calls network.now) serves_desk desk.old desk.new) }
{
    match network.listen(0) {
        Ok(mut listener) => match network.ask(&listener, desk.settings().root().as_bytes()) {
            Ok(peer) => serve_asked(alloc, desk, &mut listener, network, peer),
            Err(error) => Err(question_trouble(Cause::of(&error))),
        },
        Err(cause) => Err(Trouble::ListenerUnopened(cause)),
    }
}

/// Serves the connection of a peer that has asked, and reads the reply for it.
fn serve_asked<S: Alter, P: PeersWithCause, N: Network>(
    alloc: Global,
    desk: &mut Desk<S>,
    peers: &mut P,
    network: &N,
    peer: N::Peer,
) -> Result<Vec<u8>, Trouble>
    requires { (P.tally peers.old).turns + 1 < 2 ^ 64 }
    ensures whole { IfOk result (λ reply. IsWhole (N.Peer.remaining peer) reply.items) }
    ensures read { OnOk result
        (TakesOneTurn S.Store serves_desk (P.tally peers.old) desk.old desk.new 0) }
    ensures unread { IfErr result (GivesNoReply S.Store (N.calls network.now) serves_desk
        (P.tally peers.old) (N.Peer.remaining peer) desk.old desk.new) }
{
    let failed = take_turn(alloc, desk, peers);
    if failed == 0 {
        match read_reply(alloc, network, peer) {
            Ok(reply) => Ok(reply),
            Err(error) => Err(question_trouble(Cause::of(&error))),
        }
    } else {
        Err(Trouble::ProbeFailed(peers.cause().unwrap_or(Cause::Unnumbered)))
    }
}

/// Takes a turn of a listener, and gives how many failed: 0, or 1.
fn take_turn<S: Alter, P: Peers>(alloc: Global, desk: &mut Desk<S>, peers: &mut P) -> u64
    requires { (P.tally peers.old).turns + 1 < 2 ^ 64 }
    ensures { TakesOneTurn S.Store serves_desk (P.tally peers.old) desk.old desk.new result }
{
    let turns = serve_all(alloc, desk, peers, &Both, 1);
    turns.failed
}

/// What is told of a question that failed for this cause.
fn question_trouble(cause: Cause) -> Trouble
    ensures { result ≡ question_trouble cause }
{
    match cause {
        Cause::Memory => Trouble::Memory,
        _ => Trouble::ProbeFailed(cause),
    }
}

/// The reply, to its end. The error is that of a failed read, or that the connection ended with no
/// reply, or else that memory ran out.
fn read_reply<N: Network>(alloc: Global, network: &N, peer: N::Peer) -> io::Result<Vec<u8>>
    ensures whole { IfOk result (λ reply. IsWhole (N.Peer.remaining peer) reply.items) }
    ensures why { IfErr result
        (HearsNothing (N.calls network.now) (N.Peer.remaining peer)) }
{
    let mut readable = Readable::new(peer);
    let mut reply = Vec::new(alloc);
    let end = readable.read_to_end(&mut reply);
    let counted = readable.into_counted();
    let failed = counted.failed_reads();
    network.close(counted);
    match end {
        Ok(_) if reply.is_empty() => Err(io::Error::from(ErrorKind::ConnectionAborted)),
        Ok(_) => Ok(reply),
        Err(error) if failed > 0 => Err(error),
        Err(_) => Err(io::Error::from(ErrorKind::OutOfMemory)),
    }
}

/// 1 if the reply is an error, and else 0.
fn reply_status(reply: &[u8]) -> u8
    ensures { result ≡ reply_status reply.now }
{
    if reply.starts_with(b"% error ") {
        ERROR
    } else {
        0
    }
}
