//! The socket of a peer, whose calls wait: `peer_reader` reads from it, and `peer_writer` writes.

ghost use Rattle.std.specs.Io.{ReadsAtMost, WritesAtMost};

use crate::deadline::Wait;
use std::io;
use std::io::{Read, Write};
use std::net::{Shutdown, TcpStream};
use std::time::Duration;

/// A socket that is read and written only while a wait for its peer goes on. Contracts see nothing
/// of it but how many bytes a read or a write may pass: what its other functions do, no clause
/// says.
#[derive(Drop)]
pub struct PeerSocket(TcpStream);

impl PeerSocket {
    /// The socket of a connection.
    pub fn new(stream: TcpStream) -> PeerSocket {
        PeerSocket(stream)
    }

    /// Sets how long a read waits. The error is the system's.
    pub fn set_read_timeout(&self, timeout: Duration) -> io::Result<()> {
        self.0.set_read_timeout(Some(timeout))
    }

    /// Sets how long a write waits. The error is the system's.
    pub fn set_write_timeout(&self, timeout: Duration) -> io::Result<()> {
        self.0.set_write_timeout(Some(timeout))
    }

    /// Reads some bytes by one call, which is the wait, at most as many as `buf` has. The error is
    /// the system's.
    pub fn read(&mut self, _wait: &Wait, buf: &mut [u8]) -> io::Result<usize>
        ensures { ReadsAtMost result buf.new }
    {
        self.0.read(buf)
    }

    /// Writes some bytes by one call, which is the wait, at most as many as `buf` has. The error is
    /// the system's.
    pub fn write(&mut self, _wait: &Wait, buf: &[u8]) -> io::Result<usize>
        ensures { WritesAtMost result buf.now }
    {
        self.0.write(buf)
    }

    /// Tells the peer that nothing more comes. The error is the system's.
    pub fn finish(&self) -> io::Result<()> {
        self.0.shutdown(Shutdown::Write)
    }
}
