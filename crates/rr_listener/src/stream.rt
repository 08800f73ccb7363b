//! Connections over TCP, for `listener`: how one is accepted, and how it is ended.

ghost use Rattle.std.specs.Prelude.{◌≡◌, ◌<◌, IfOk, None};
ghost use Rattle.rr_desk.specs.Turns.{IsFresh};

use crate::peer_reader::PeerReader;
use crate::peer_writer::PeerWriter;
use crate::socket::PeerSocket;
use rr_io::{Counted, Joined, Reader, Writer};
use std::io;
use std::net::TcpListener;

/// A connection over TCP: what the peer sends, and what it is sent.
pub type Stream<'a> = Joined<Counted<PeerReader<'a>>, Counted<PeerWriter<'a>>>;

/// Waits for the next connection to a socket. No call of it has failed, nothing was written to it
/// where that is told, and what its peer sends is not told. The error is the system's.
pub(crate) fn accept_stream<'a>(rt: &'a HostRuntime, socket: &TcpListener) -> io::Result<Stream<'a>>
    ensures fresh { IfOk result (λ stream. IsFresh
        (⟦<Stream<'static> as Reader>⟧.told stream)
        (⟦<Stream<'static> as Writer>⟧.told stream)) }
    ensures untold { IfOk result (λ stream.
        (⟦<Stream<'static> as Reader>⟧.told stream).bytes ≡ None) }
{
    let (writing, _peer) = socket.accept()?;
    let reading = writing.try_clone()?;
    Ok(Joined::new(
        Counted::new(PeerReader::new(rt, PeerSocket::new(reading))),
        Counted::new(PeerWriter::new(rt, PeerSocket::new(writing))),
    ))
}

/// Ends a connection, and closes it. If the peer may get what was written it is told first that
/// nothing more comes, and what it still sends is taken in for a while. For a socket that is closed
/// over bytes that were not read resets the connection, and the peer may lose the reply. No clause
/// says so.
pub(crate) fn end_stream(stream: Stream<'_>) {
    let (reader, writer) = stream.into_parts();
    if writer.failed_writes() > 0 {
        return;
    }
    let writer = writer.into_inner();
    if writer.has_written() {
        // The reply was written whole: what fails after it is the peer's loss alone.
        let _ = settle(reader.into_inner(), writer);
    }
}

/// Tells the peer, to which something was written, that nothing more comes, and takes in what it
/// still sends. The error is the system's, or that the time for that is over.
fn settle(reader: PeerReader<'_>, writer: PeerWriter<'_>) -> io::Result<()>
    requires { 0 < writer.written }
{
    writer.finish()?;
    reader.drain()
}
