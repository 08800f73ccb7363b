//! What serves connections of a desk, as `Both` of `rr_http` does by whois and HTTP.

ghost use Rattle.std.specs.Prelude.{◌≡◌};
ghost use Rattle.rr_desk.specs.Desks.{desk_state};
ghost use Rattle.rr_desk.specs.Stocks.{DatabaseLasts, StoresUntilStopped};
ghost use Rattle.rr_desk.specs.Turns.{Serving, conn_visit};

use crate::desk::Desk;
use crate::peers::ConnFault;
use rr_io::Connection;
use sqlite::Alter;
use std::alloc::Global;

/// What serves a connection by asking a desk.
pub trait Service {
    // What serving a connection does.
    ghost serves: { Serving };

    /// Serves a connection. What that does to the desk and to the connection, and what the result
    /// says, is what `serves` says of this visit (`conn_visit`). Of `Both`, for one, it says that
    /// what is asked is read, the desk is asked, and the reply is written. The error is then a
    /// failed read or write.
    ///
    /// The settings of the desk stay, and until a fault of the store stops it, its rows are those
    /// of its registry. Its database lasts (`DatabaseLasts`): no fault of the disk is forgotten,
    /// and nothing but such a fault shuts the connection to it. The limit of steps and the tests of
    /// reads stay. While that connection is open, it was open before, and the file stays but for
    /// the rows of the three tables. What is said of rows, of the file and of that connection holds
    /// where the disk gives back what was written.
    fn serve<S: Alter, C: Connection>(
        &self,
        alloc: Global,
        desk: &mut Desk<S>,
        conn: &mut C,
    ) -> Result<(), ConnFault>
        ensures serves { serves S S.Store desk.old desk.new
            (conn_visit C.Reader C.Writer conn.old conn.new result) }
        ensures lasts { DatabaseLasts
            (desk_state S.Store desk.old) (desk_state S.Store desk.new) }
        ensures rows { StoresUntilStopped S.Store desk.new.stock }
        ensures settings { desk.new.settings ≡ desk.old.settings };
}
