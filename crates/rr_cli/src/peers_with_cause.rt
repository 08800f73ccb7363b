//! Why a listener accepts no connection, for the lines of `serve_command` and `probe_command` that
//! say so.

ghost use Rattle.std.specs.Prelude.{◌≡◌, IfSome, IsSome, None};
ghost use Rattle.rr_cli.specs.Serving.{EndsAccepted, EndsUnaccepted};

use rr_commands::Cause;
use rr_desk::Peers;
use rr_listener::Listener;

/// A listener that knows why it accepted no connection.
pub trait PeersWithCause: Peers {
    /// Why no connection could be accepted in the last turn; `None` if one was, or there was no
    /// turn. No clause says what the cause is and, where turns are not told, as over sockets,
    /// whether there is one.
    fn cause(&self) -> Option<Cause>
        ensures some { IsSome result → IfSome (Self.tally self.now).told EndsUnaccepted }
        ensures none { result ≡ None → IfSome (Self.tally self.now).told EndsAccepted };
}

impl PeersWithCause for Listener<'_> {
    fn cause(&self) -> Option<Cause> {
        match self.accept_error() {
            Some(error) => Some(Cause::of(error)),
            None => None,
        }
    }
}
