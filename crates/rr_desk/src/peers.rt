//! Where connections come from, one after the other: sockets, by `rr_listener`, or, in tests,
//! memory. `serve_all` takes them.

ghost use Rattle.std.specs.Prelude.{◌≡◌, ◌+◌, ◌<◌, ◌^◌, ℕ, List, Option, Some};
ghost use Rattle.std.specs.Prelude.{length, IfOk, OnErr};
ghost use Rattle.rr_desk.specs.Turns.{IsAccepted, ClosesConnection, IsUnaccepted, Tally, Turn};

use rr_io::Connection;
use std::alloc::Global;

/// Why a connection failed.
#[derive(Clone, Copy, Debug, PartialEq, Eq)]
pub enum ConnFault {
    /// A read of it failed.
    Read,
    /// A write of it failed.
    Write,
}

/// No connection could be accepted.
#[derive(Clone, Copy, Debug, PartialEq, Eq)]
pub struct AcceptFault;

/// What accepts connections one after the other and closes them. A turn is an accept that failed,
/// or a connection once it is closed.
pub trait Peers {
    /// A connection.
    type Conn: Connection;

    // What it counts and tells of its turns: over memory it tells them, over sockets not.
    ghost tally: { Self → Tally };

    // A connection was accepted, and is not closed yet.
    ghost IsOpen: { Self → Type 0 };

    // The bytes that the reader of that connection told when it was accepted, where it tells them.
    ghost given: { Self → Option (List ℕ) };

    /// The next connection: where those to come are told, the first of them, and the others are
    /// still to come; where not, they stay untold. No call of it has failed, and nothing was
    /// written to it, where that is told. It is open then, and no turn yet; the bytes that its
    /// reader tells are kept as `given`. An error is a turn, and told where turns are told; where
    /// connections to come are told, none is to come then. The turns there were and this one must
    /// be within `u64`. The allocator is for what keeps the connection.
    fn accept(&mut self, alloc: Global) -> Result<Self::Conn, AcceptFault>
        requires { (tally self.old).turns + 1 < 2 ^ 64 }
        ensures accepted { IfOk result (λ conn. IsAccepted (tally self.old) (tally self.new)
            (given self.new) (Self.Conn.Reader.told conn) (Self.Conn.Writer.told conn)) }
        ensures open { IfOk result (λ conn. IsOpen self.new) }
        ensures refused { OnErr result (IsUnaccepted (tally self.old) (tally self.new)) };

    /// Closes a connection, which is a turn; one must have been accepted and not closed yet
    /// (`IsOpen`). Where turns are told, it is told with `given`, the bytes that the accepted one
    /// had to give, and with the bytes that were written to this one. The connections to come stay.
    /// The turns there were and this one must be within `u64`.
    fn close(&mut self, conn: Self::Conn)
        requires open { IsOpen self.old }
        requires room { (tally self.old).turns + 1 < 2 ^ 64 }
        ensures { ClosesConnection (given self.old) (Self.Conn.Writer.told conn).bytes
            (tally self.old) (tally self.new) };

    /// How many turns there were, told or not.
    fn turns(&self) -> u64
        ensures { result ≡ (tally self.now).turns };

    // Where turns are told, as many are told as are counted.
    ghost all_told: { (peers : Self) (turns : List Turn) → (tally peers).told ≡ Some turns
        → length turns ≡ (tally peers).turns };
}
