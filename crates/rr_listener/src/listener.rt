//! A listener on this machine, whose connections are served one after the other. `rr_cli` opens one
//! to serve, and one to ask itself.

ghost use Rattle.std.specs.Prelude.{◌≡◌, ◌+◌, ◌<◌, ◌^◌, IfOk, OnErr, OnOk};
ghost use Rattle.std.specs.Option.{option_map};
ghost use Rattle.std.specs.Result.{result_err, result_ok};

use crate::stream::{Stream, accept_stream, end_stream};
use rr_desk::{AcceptFault, Peers};
use rr_io::{Reader, Writer};
use std::alloc::Global;
use std::io;
use std::net::{Ipv4Addr, TcpListener};

/// What listens on a port of 127.0.0.1, over TCP. Contracts see how many turns there were, and
/// neither what these were nor their bytes. It keeps the error of the last accept if that failed,
/// for people: contracts see whether it keeps one.
#[derive(Drop)]
pub struct Listener<'a> {
    rt: &'a HostRuntime,
    socket: TcpListener,
    turns: u64,
    accept_error: Option<io::Error>,
}

impl<'a> Listener<'a> {
    /// A listener on this port of 127.0.0.1, or on any free one if it is 0; no turn was counted
    /// yet. The error is the system's. Which port it is, no clause says.
    pub fn open(rt: &'a HostRuntime, port: u16) -> io::Result<Listener<'a>>
        ensures { IfOk result (λ listener. listener.turns ≡ 0) }
    {
        let socket = TcpListener::bind(rt, (Ipv4Addr::LOCALHOST, port))?;
        Ok(Listener {
            rt,
            socket,
            turns: 0,
            accept_error: None,
        })
    }

    /// The port that it listens on, though no clause says which. The error is the system's.
    pub fn port(&self) -> io::Result<u16> {
        Ok(self.socket.local_addr()?.port())
    }

    /// The error that is kept: the system's of the last accept, if that failed. Each `accept` sets
    /// it.
    pub fn accept_error(&self) -> Option<&io::Error>
        ensures { option_map (λ error. error.now) result ≡ self.now.accept_error }
    {
        self.accept_error.as_ref()
    }

    /// The connection of an accept that ended so, or that it failed. An error is kept, and counted
    /// as a turn; a connection is no turn yet, and no error is kept then. One turn more is within
    /// `u64`.
    fn keep(&mut self, accepted: io::Result<Stream<'a>>) -> Result<Stream<'a>, AcceptFault>
        requires { self.old.turns + 1 < 2 ^ 64 }
        ensures kept { self.new.accept_error ≡ result_err accepted.entry }
        ensures gives { result_ok result ≡ result_ok accepted.entry }
        ensures accepted { OnOk result (self.new.turns ≡ self.old.turns) }
        ensures refused { OnErr result (self.new.turns ≡ self.old.turns + 1) }
    {
        match accepted {
            Ok(stream) => {
                self.accept_error = None;
                Ok(stream)
            }
            Err(error) => {
                self.accept_error = Some(error);
                self.turns += 1;
                Err(AcceptFault)
            }
        }
    }
}

impl<'a> Peers for Listener<'a> {
    ghost use Rattle.std.specs.Prelude.{None, ◌↔◌, IsErr, IsSome};
    ghost use Rattle.rr_desk.specs.Turns.{IsAccepted, IsUnaccepted, none_told};
    ghost use Rattle.rr_listener.specs.Listening.{listener_tally};

    type Conn = Stream<'a>;

    ghost tally = { listener_tally };

    ghost IsOpen = { λ _. Unit {0} };

    ghost given = { λ _. None };

    /// The next connection to the port, of which no call has failed, and to which nothing was
    /// written where that is told. What its peer sends is not told, and it is no turn yet. An error
    /// is a turn. Exactly then an error is kept for `accept_error`: the system's, though no clause
    /// says which. The turns there were and this one must be within `u64`.
    fn accept(&mut self, _alloc: Global) -> Result<Stream<'a>, AcceptFault>
        requires { self.old.turns + 1 < 2 ^ 64 }
        ensures accepted { IfOk result (λ conn. IsAccepted
            (listener_tally self.old) (listener_tally self.new) None
            (⟦<Stream<'static> as Reader>⟧.told conn) (⟦<Stream<'static> as Writer>⟧.told conn)) }
        ensures refused { OnErr result
            (IsUnaccepted (listener_tally self.old) (listener_tally self.new)) }
        ensures kept { IsSome self.new.accept_error ↔ IsErr result }
    {
        let accepted = accept_stream(self.rt, &self.socket);
        self.keep(accepted)
    }

    fn close(&mut self, conn: Stream<'a>) {
        end_stream(conn);
        self.turns += 1;
    }

    fn turns(&self) -> u64 {
        self.turns
    }

    ghost all_told = { λ listener turns is. none_told listener.turns turns is };
}
