//! How the program listens, for `serve_command` and `probe_command`, and how it asks itself, for
//! the latter.

ghost use Rattle.std.specs.Prelude.{◌≡◌, Err, IfErr, IfOk, Ok};
ghost use Rattle.rr_io.specs.Counted.{counted_failed_reads};
ghost use Rattle.rr_cli.specs.Networks.{NetworkCalls};

use crate::peers_with_cause::PeersWithCause;
use rr_commands::Cause;
use rr_io::Counted;
use rr_listener::Listener;
use std::io;
use std::io::{Read, Write};
use std::net::{Ipv4Addr, Shutdown, TcpStream};
use std::time::Duration;

/// How many seconds the reply is waited for (profile).
const REPLY_WAIT: u64 = 10;

/// How the program listens on ports and asks itself: over sockets, or over whatever else carries
/// bytes.
pub trait Network {
    /// What listens.
    type Listener: PeersWithCause + Drop;

    /// A connection that has asked.
    type Peer: Read + Drop;

    // What its calls do.
    ghost calls: { Self → NetworkCalls };

    /// Listens on this port, or on any free one if it is 0; no turn was counted yet. The error is
    /// the cause for which the port is refused. Of the cause, and of what the listener counts and
    /// tells, clauses say what `calls.listens` says. That 0 stands for a free port, and for which
    /// one, no clause says.
    fn listen(&self, port: u16) -> Result<Self::Listener, Cause>
        ensures turns { IfOk result (λ listener. (Self.Listener.tally listener).turns ≡ 0) }
        ensures listens { IfOk result
            (λ listener. (calls self.now).listens port (Ok (Self.Listener.tally listener))) }
        ensures refused { IfErr result (λ cause. (calls self.now).listens port (Err cause)) };

    /// Connects to a listener, and writes a query, its line end, and nothing more (RFC 3912, 2).
    /// The peer that is returned is to read the reply. The error is the system's. Clauses say, by
    /// `calls.asks`, what is asked, and what the peer is to be given or the error, but neither of
    /// whom nor in which bytes.
    fn ask(&self, listener: &Self::Listener, query: &[u8]) -> io::Result<Self::Peer>
        ensures asked { IfOk result
            (λ peer. (calls self.now).asks query.now (Ok (Self.Peer.remaining peer))) }
        ensures unasked { IfErr result (λ error. (calls self.now).asks query.now (Err error)) };

    /// Closes the connection of a peer; `calls.closes` says what is true then, by the count of its
    /// failed reads.
    fn close(&self, peer: Counted<Self::Peer>)
        ensures { (calls self.now).closes (counted_failed_reads peer) };
}

/// The sockets of this machine, of which no clause says what they carry.
#[derive(Clone, Copy)]
pub struct Sockets<'a> {
    rt: &'a HostRuntime,
}

impl<'a> Sockets<'a> {
    /// The sockets of this machine.
    pub fn new(rt: &'a HostRuntime) -> Sockets<'a> {
        Sockets { rt }
    }
}

impl<'a> Network for Sockets<'a> {
    type Listener = Listener<'a>;

    type Peer = TcpStream;

    // No contract can say what a socket has.
    ghost calls = { λ _. record
        { listens = λ _ _. Unit {0}; asks = λ _ _. Unit {0}; closes = λ _. Unit {0} } };

    fn listen(&self, port: u16) -> Result<Listener<'a>, Cause> {
        match Listener::open(self.rt, port) {
            Ok(listener) => Ok(listener),
            Err(error) => Err(Cause::of(&error)),
        }
    }

    fn ask(&self, listener: &Listener<'a>, query: &[u8]) -> io::Result<TcpStream> {
        let mut peer = TcpStream::connect(self.rt, (Ipv4Addr::LOCALHOST, listener.port()?))?;
        peer.set_read_timeout(Some(Duration::from_secs(REPLY_WAIT)))?;
        peer.write_all(query)?;
        peer.write_all(b"\r\n")?;
        peer.shutdown(Shutdown::Write)?;
        Ok(peer)
    }

    fn close(&self, _peer: Counted<TcpStream>)
        ensures { Unit {0} }
    {}
}
