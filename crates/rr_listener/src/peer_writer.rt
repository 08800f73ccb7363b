//! What a peer is sent, and how long it is given to take that: one side of a `stream`.

ghost use Rattle.std.specs.Prelude.{◌≡◌, ◌+◌, ◌-◌, ◌^◌, IfOk, OnErr, length, min, nat_lt};
ghost use Rattle.std.specs.Duration.{as_nanos};
ghost use Rattle.rr_listener.specs.PeerCalls.{SpendsCall, SpendsTime};
ghost use Rattle.rr_listener.specs.ServingTimes.{reply_time};

use crate::deadline::{Deadline, Wait};
use crate::socket::PeerSocket;
use std::io;
use std::io::{ErrorKind, Write};

/// How many calls a write makes at most, so that it waits for 90 seconds at most (profile).
const MOST_CALLS: u32 = 9;

/// How many seconds a peer is given to take a reply (profile).
pub const REPLY_TIME: u64 = 60;

/// For how many bytes that went out a peer is given one second more (profile).
pub const BYTES_A_SECOND: u64 = 16_384;

/// The bytes that a peer is sent. It has to take them within 60 seconds and one more for each 16
/// KiB that went out. A call waits for 10 seconds at most. It is made again if the system
/// interrupts it, or if its time is over before that of the reply, up to 90 seconds in which no
/// byte passes. For the system lets a writer go on only once a good part of its buffer is free,
/// which takes a slow and steady reader longer than 10 (profile). The clauses of its public
/// functions do not say so.
#[derive(Drop)]
pub struct PeerWriter<'a> {
    rt: &'a HostRuntime,
    socket: PeerSocket,
    deadline: Deadline,
    written: u64,
}

impl<'a> PeerWriter<'a> {
    /// The bytes that go over a socket, of which none went out and for which no time is taken yet.
    pub fn new(rt: &'a HostRuntime, socket: PeerSocket) -> PeerWriter<'a>
        ensures untaken { as_nanos result.deadline.taken ≡ 0 }
        ensures unwritten { result.written ≡ 0 }
    {
        PeerWriter {
            rt,
            socket,
            deadline: Deadline::new(),
            written: 0,
        }
    }

    /// Whether some of its bytes went out.
    pub fn has_written(&self) -> bool
        ensures { result ≡ nat_lt 0 self.now.written }
    {
        self.written > 0
    }

    /// Tells the peer that nothing more comes, which no clause says. The error is the system's.
    pub fn finish(self) -> io::Result<()> {
        self.socket.finish()
    }

    /// Sends some of the bytes by one call, and counts those that went out, up to `u64::MAX`. The
    /// error is the system's, or that the time is over; then none are counted.
    fn send(&mut self, buf: &[u8]) -> io::Result<usize>
        ensures spends { SpendsCall (reply_time self.old.written) (length buf.now)
            self.old.deadline self.new.deadline result }
        ensures counts { IfOk result
            (λ count. self.new.written ≡ min (self.old.written + count) (2 ^ 64 - 1)) }
        ensures stays { OnErr result (self.new.written ≡ self.old.written) }
    {
        let seconds = reply_time(self.written);
        if let Some(timeout) = self.deadline.next_timeout(seconds)? {
            self.socket.set_write_timeout(timeout)?;
        }
        let wait = Wait::begin(self.rt)?;
        let answer = self.socket.write(&wait, buf);
        self.deadline.end(self.rt, wait)?;
        let count = answer?;
        self.written = self.written.saturating_add(count as u64);
        Ok(count)
    }
}

impl Write for PeerWriter<'_> {
    /// Writes some bytes, at most as many as `buf` has. The time that earlier writes took stays
    /// taken. The error is the system's, or that the time is over; no clause says which.
    fn write(&mut self, buf: &[u8]) -> io::Result<usize>
        ensures { SpendsTime (length buf.now) self.old.deadline self.new.deadline result }
    {
        'calls: for _ in 1..MOST_CALLS {
            let answer = self.send(buf);
            if !is_made_again(&answer) {
                return answer;
            }
        }
        self.send(buf)
    }

    fn flush(&mut self) -> io::Result<()> {
        Ok(())
    }
}

/// Whether a call waited for the peer until its time was over, or was interrupted by the system, as
/// when the process is held still and goes on: in both cases no byte passed, and it is to be made
/// again. So a peer does not see that the program was held still, unless that spends all 9 calls.
fn is_made_again(answer: &io::Result<usize>) -> bool {
    match answer {
        Ok(_) => false,
        Err(error) => matches!(error.kind(), ErrorKind::WouldBlock | ErrorKind::Interrupted),
    }
}

/// How many seconds a peer is given to take a reply of which so many bytes went out (profile).
fn reply_time(written: u64) -> u64
    ensures { result ≡ reply_time written }
{
    REPLY_TIME + written / BYTES_A_SECOND
}
