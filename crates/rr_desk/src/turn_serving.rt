//! Serving the connections of a listener, one after the other, as `irrdesk serve` does.

ghost use Rattle.std.specs.Prelude.{◌+◌, ◌<◌, ◌^◌, false};
ghost use Rattle.rr_desk.specs.TurnParts.{TakesTurn};
ghost use Rattle.rr_desk.specs.Turns.{StaysServed, TakesTurns};

use crate::desk::Desk;
use crate::peers::{AcceptFault, Peers};
use crate::service::Service;
use sqlite::Alter;
use std::alloc::Global;

/// How many turns were served, and how many failed, because no connection could be accepted, or
/// because a read or a write of one failed.
#[derive(Clone, Copy, Debug, PartialEq, Eq)]
pub struct Served {
    /// The turns that were served.
    pub served: u64,
    /// Those that failed.
    pub failed: u64,
}

/// Takes so many turns of the listener, one after the other: accepts a connection, serves it, and
/// closes it. What serving does is what `serves` of the service says, from when the connection was
/// accepted: no call of it had failed, and nothing was written to it. A turn that fails is counted,
/// and the next one follows. It gives how many turns were served and how many failed.
///
/// Where connections to come are told, they are accepted in their order; where turns are told, each
/// is. All are counted. A turn without a connection leaves the desk as it is. The settings of the
/// desk stay, its database lasts, and until a fault of the store stops it, its rows are those of
/// its registry, all as at [`Service::serve`]. The turns there were and these must be within `u64`.
pub fn serve_all<S: Alter, P: Peers, V: Service>(
    alloc: Global,
    desk: &mut Desk<S>,
    peers: &mut P,
    service: &V,
    count: u64,
) -> Served
    requires { (P.tally peers.old).turns + count < 2 ^ 64 }
    ensures turns { TakesTurns S.Store V.serves count desk.old desk.new
        (P.tally peers.old) (P.tally peers.new) result.served result.failed }
    ensures stays { StaysServed S.Store desk.old desk.new }
{
    let mut served = 0;
    'turns: for turn in 0..count {
        if take_turn(alloc, desk, peers, service) {
            served += 1;
        }
    }
    prove!(desk.keeps_its_rows());
    Served {
        served,
        failed: count - served,
    }
}

/// Takes a turn of the listener: says whether a connection was accepted and served.
fn take_turn<S: Alter, P: Peers, V: Service>(
    alloc: Global,
    desk: &mut Desk<S>,
    peers: &mut P,
    service: &V,
) -> bool
    requires { (P.tally peers.old).turns + 1 < 2 ^ 64 }
    ensures { TakesTurn S.Store V.serves desk.old desk.new
        (P.tally peers.old) (P.tally peers.new) result }
{
    match peers.accept(alloc) {
        Ok(mut conn) => {
            let ended = service.serve(alloc, desk, &mut conn);
            peers.close(conn);
            ended.is_ok()
        }
        Err(AcceptFault) => false,
    }
}
