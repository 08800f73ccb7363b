//! What a peer sends, and how long its request is waited for: one side of a `stream`.

ghost use Rattle.std.specs.Prelude.{◌≡◌, length};
ghost use Rattle.std.specs.Duration.{as_nanos};
ghost use Rattle.rr_listener.specs.PeerCalls.{SpendsCall, SpendsTime};

use crate::deadline::{Deadline, Wait};
use crate::socket::PeerSocket;
use rr_io::READ_SIZE;
use std::io;
use std::io::{ErrorKind, Read};

/// How many seconds a peer is given for all that it asks (profile).
const REQUEST_TIME: u64 = 60;

/// How many calls a read makes at most, if the system interrupts them before a byte came, as it
/// does when the process is held still and goes on (profile).
const MOST_CALLS: u32 = 9;

/// For how many seconds, at most, what a peer sends after its reply is taken in (profile).
const DRAIN_TIME: u64 = 1;

/// How many reads of it there are, at most (profile).
const DRAIN_READS: u32 = 512;

/// The bytes that a peer sends. All that it asks has to come within 60 seconds, and a call waits
/// for 10 at most, and is made again if the system interrupts it (profile). The clauses of its
/// public functions do not say so.
#[derive(Drop)]
pub struct PeerReader<'a> {
    rt: &'a HostRuntime,
    socket: PeerSocket,
    deadline: Deadline,
}

impl<'a> PeerReader<'a> {
    /// The bytes that come over a socket, of whose peer no time is taken yet.
    pub fn new(rt: &'a HostRuntime, socket: PeerSocket) -> PeerReader<'a>
        ensures { as_nanos result.deadline.taken ≡ 0 }
    {
        PeerReader {
            rt,
            socket,
            deadline: Deadline::new(),
        }
    }

    /// Takes in what the peer still sends, to its end, but at most for a second, and at most 2 MiB
    /// of it: no clause says so. The error is the system's, or that the time is over.
    pub fn drain(mut self) -> io::Result<()> {
        self.deadline = Deadline::new();
        self.skip_rest()
    }

    /// Takes in what the peer still sends, of whose time for that none is taken yet. The bounds and
    /// the error are those of `drain`.
    fn skip_rest(&mut self) -> io::Result<()>
        requires { as_nanos self.old.deadline.taken ≡ 0 }
    {
        let mut block = [0u8; READ_SIZE];
        for _ in 0..DRAIN_READS {
            if self.receive(&mut block, DRAIN_TIME)? == 0 {
                return Ok(());
            }
        }
        Ok(())
    }

    /// Reads some bytes by one call, of a peer that has so many seconds in all. The error is the
    /// system's, or that the time is over.
    fn receive(&mut self, buf: &mut [u8], seconds: u64) -> io::Result<usize>
        ensures { SpendsCall seconds (length buf.new)
            self.old.deadline self.new.deadline result }
    {
        if let Some(timeout) = self.deadline.next_timeout(seconds)? {
            self.socket.set_read_timeout(timeout)?;
        }
        let wait = Wait::begin(self.rt)?;
        let answer = self.socket.read(&wait, buf);
        self.deadline.end(self.rt, wait)?;
        answer
    }
}

impl Read for PeerReader<'_> {
    /// Reads some bytes, at most as many as `buf` has. The time that earlier reads took stays
    /// taken. The error is the system's, or that the time is over; no clause says which.
    fn read(&mut self, buf: &mut [u8]) -> io::Result<usize>
        ensures { SpendsTime (length buf.new) self.old.deadline self.new.deadline result }
    {
        'calls: for _ in 1..MOST_CALLS {
            let answer = self.receive(buf, REQUEST_TIME);
            if !is_interrupted(&answer) {
                return answer;
            }
        }
        self.receive(buf, REQUEST_TIME)
    }
}

/// Whether the system interrupted a call, so that it is to be made again.
fn is_interrupted(answer: &io::Result<usize>) -> bool {
    match answer {
        Ok(_) => false,
        Err(error) => error.kind() == ErrorKind::Interrupted,
    }
}
