//! Connections in turn: what each gave and was answered, and how many are served and fail.
use crate::connections::{Reply, ending};
use crate::desks::{Office, Trial, expect_text, try_new};
use crate::memory_peers::{MemoryInput, MemoryTurn};
use crate::texts::{EXACT, POSTED, POSTED_REPORT, TEN};
use rr_desk::{Peers, Served};
use std::process::Abort;
use std::test::Fail;

/// Asserts what a connection that is closed gave and was answered.
fn expect_closed<R: Abort>(
    rt: &R,
    turn: &MemoryTurn<'_>,
    given: &str,
    answered: &str,
) -> Result<(), Fail> {
    expect_text(rt, turn.given, given)?;
    expect_text(rt, &turn.answered, answered)
}

/// Asserts what one of the connections that are closed gave and was answered.
fn expect_turn<R: Abort>(
    rt: &R,
    turns: &[MemoryTurn<'_>],
    at: usize,
    given: &str,
    answered: &str,
) -> Result<(), Fail> {
    match turns.get(at) {
        Some(turn) => expect_closed(rt, turn, given, answered),
        None => Err("no such turn".into()),
    }
}

/// Asserts what three connections gave and were answered: a submission, a query that could not be
/// read, and a query.
fn expect_turns<R: Abort + AllocGlobal>(rt: &R, turns: &[MemoryTurn<'_>]) -> Result<(), Fail> {
    assert_eq!(rt; turns.len(), 3);
    expect_turn(rt, turns, 1, EXACT, "")?;
    expect_turn(rt, turns, 2, EXACT, TEN)?;
    let report = Reply::Page(POSTED_REPORT).written(rt.alloc())?;
    expect_turn(rt, turns, 0, POSTED, report.as_str())
}

/// So many turns of three connections, of which the second breaks, and how many are served and
/// fail.
#[derive(Drop)]
struct Turns {
    count: u64,
    served: Served,
}

impl Trial for Turns {
    fn tried<D: Office + Drop, R: Abort + AllocGlobal>(
        &self,
        rt: &R,
        mut desk: D,
    ) -> Result<(), Fail> {
        let broken = MemoryInput {
            reads_end: 0,
            ..MemoryInput::whole(EXACT.as_bytes())
        };
        let inputs = [
            ending(POSTED.as_bytes(), 1),
            broken,
            MemoryInput::whole(EXACT.as_bytes()),
        ];
        let (served, peers) = desk.turned(rt.alloc(), &inputs, self.count)?;
        assert_eq!(rt; served, self.served);
        assert_eq!(rt; peers.turns(), self.count);
        expect_turns(rt, peers.closed())
    }
}

#[test]
fn three_turns_are_taken(rt: HostRuntime) -> Result<(), Fail> {
    let served = Served {
        served: 2,
        failed: 1,
    };
    try_new(&rt, &Turns { count: 3, served })
}

#[test]
fn turns_past_the_last_connection_fail(rt: HostRuntime) -> Result<(), Fail> {
    let served = Served {
        served: 2,
        failed: 3,
    };
    try_new(&rt, &Turns { count: 5, served })
}
