//! Connections over memory, by which a desk is served here; over sockets there are those of
//! `rr_listener`.

ghost use Rattle.std.specs.Prelude.{◌≡◌, ◌+◌, ◌-◌, ◌<◌, ◌≤◌, ◌^◌};
ghost use Rattle.std.specs.Prelude.{false, is_some, if◌then◌else◌};
ghost use Rattle.std.specs.Prelude.{length, vec_len, vec_capacity};
ghost use Rattle.rr_desk.specs.Turns.{IsAccepted, IsFresh, IsUnaccepted};

use rr_desk::{AcceptFault, Peers};
use rr_io::{Counted, Cut, Joined, Reader, Writer};
use std::alloc::{AllocError, Global};

/// What a connection over memory gives, and where its calls fail.
#[derive(Clone, Copy, Debug)]
pub struct MemoryInput<'a> {
    /// The bytes that it gives.
    pub bytes: &'a [u8],
    /// How many bytes pass in a call at most; 0 stands for 1.
    pub step: usize,
    /// After how many bytes each read fails.
    pub reads_end: usize,
    /// After how many bytes each write fails.
    pub writes_end: usize,
}

impl<'a> MemoryInput<'a> {
    ghost use Rattle.rr_service_tests.specs.MemoryTurns.{IsOfInput};

    /// A connection that gives these bytes. In a call as many bytes may pass as `usize` counts, and
    /// calls fail only after as many.
    pub fn whole(bytes: &'a [u8]) -> MemoryInput<'a>
        ensures bytes { result.bytes.now ≡ bytes.now }
        ensures step { result.step ≡ usize.MAX }
        ensures reads_end { result.reads_end ≡ usize.MAX }
        ensures writes_end { result.writes_end ≡ usize.MAX }
    {
        MemoryInput {
            bytes,
            step: usize::MAX,
            reads_end: usize::MAX,
            writes_end: usize::MAX,
        }
    }

    /// The connection that it is.
    pub(crate) fn connection(self, alloc: Global) -> MemoryConnection<'a>
        ensures fresh { IsFresh (⟦<MemoryConnection<'static> as Reader>⟧.told result)
            (⟦<MemoryConnection<'static> as Writer>⟧.told result) }
        ensures is_of_it { IsOfInput self.entry result
            (⟦<MemoryConnection<'static> as Reader>⟧.told result) }
    {
        let step = self.step.max(1);
        let reader = Cut::new(Counted::new(self.bytes), step, self.reads_end);
        let writer = Cut::new(Counted::new(Vec::new(alloc)), step, self.writes_end);
        Joined::new(reader, writer)
    }
}

/// A connection over memory.
pub type MemoryConnection<'a> = Joined<Cut<Counted<&'a [u8]>>, Cut<Counted<Vec<u8>>>>;

/// A connection over memory that is closed: the bytes that it had to give, and those that it was
/// answered.
#[derive(Drop)]
pub struct MemoryTurn<'a> {
    /// The bytes that it had to give, read or not.
    pub given: &'a [u8],
    /// The bytes that were written to it.
    pub answered: Vec<u8>,
}

/// Connections over memory, in order. Once they are all accepted each accept fails; of such turns
/// only the number is kept.
#[derive(Drop)]
pub struct MemoryPeers<'a> {
    inputs: &'a [MemoryInput<'a>],
    next: usize,
    given: Option<&'a [u8]>,
    turns: Vec<MemoryTurn<'a>>,
    failed_accepts: u64,
    ghost within: { next ≤ length inputs.now },
    ghost room: { vec_len turns + ((length inputs.now - next)
        + (if is_some given then 1 else 0)) ≤ vec_capacity turns },
    ghost counts: { vec_len turns + failed_accepts < 2 ^ 64 },
    ghost failed_last: { 0 < failed_accepts
        → (next ≡ length inputs.now) × (is_some given ≡ false) },
}

impl<'a> MemoryPeers<'a> {
    ghost use Rattle.std.specs.Prelude.{◌≡◌, [], IfOk};
    ghost use Rattle.rr_service_tests.specs.MemoryTurns.{failed_accepts, inputs_left, open_bytes};
    ghost use Rattle.rr_service_tests.specs.MemoryTurns.{turns_closed};

    /// Connections that are to come as these inputs say, in this order, with no turn taken yet. The
    /// error is that memory ran out.
    pub fn new(alloc: Global, inputs: &'a [MemoryInput<'a>]) -> Result<MemoryPeers<'a>, AllocError>
        ensures left { IfOk result (λ peers. inputs_left peers ≡ inputs.now) }
        ensures none_closed { IfOk result (λ peers. turns_closed peers ≡ []) }
        ensures none_failed { IfOk result (λ peers. failed_accepts peers ≡ 0) }
    {
        let turns = Vec::with_capacity(alloc, inputs.len())?;
        Ok(MemoryPeers {
            inputs,
            next: 0,
            given: None,
            turns,
            failed_accepts: 0,
        })
    }

    /// The connections that are closed, in order.
    pub fn closed(&self) -> &[MemoryTurn<'a>]
        ensures { result.now ≡ turns_closed self.now }
    {
        &self.turns
    }
}

impl<'a> Peers for MemoryPeers<'a> {
    ghost use Rattle.std.specs.Prelude.{◌≡◌, [], true, IfOk, OnErr};
    ghost use Rattle.rr_service_tests.specs.MemoryTurns.{AcceptsNext, inputs_left, is_open};
    ghost use Rattle.rr_service_tests.specs.MemoryTurns.{memory_tally, open_bytes};
    ghost use Rattle.rr_service_tests.specs.MemoryTold.{told_in_all};

    type Conn = MemoryConnection<'a>;

    ghost tally = { memory_tally };

    ghost IsOpen = { λ peers. is_open peers ≡ true };

    ghost given = { open_bytes };

    /// The connection that the next input is; an error once there is none.
    #[tactic(auto, using(crate::proofs::MemoryLemmas::failed_told))]
    fn accept(&mut self, alloc: Global) -> Result<MemoryConnection<'a>, AcceptFault>
        requires { (memory_tally self.old).turns + 1 < 2 ^ 64 }
        ensures accepted { IfOk result (λ conn. IsAccepted
            (memory_tally self.old) (memory_tally self.new) (open_bytes self.new)
            (⟦<MemoryConnection<'static> as Reader>⟧.told conn)
            (⟦<MemoryConnection<'static> as Writer>⟧.told conn)) }
        ensures open { IfOk result (λ conn. is_open self.new ≡ true) }
        ensures refused { OnErr result
            (IsUnaccepted (memory_tally self.old) (memory_tally self.new)) }
        ensures next { IfOk result (λ conn. AcceptsNext
            (inputs_left self.old) (inputs_left self.new) conn
            (⟦<MemoryConnection<'static> as Reader>⟧.told conn)) }
        ensures none_left { OnErr result
            ((inputs_left self.old ≡ []) × (inputs_left self.new ≡ [])) }
    {
        if self.next < self.inputs.len() {
            let input = self.inputs[self.next];
            self.next += 1;
            self.given = Some(input.bytes);
            return Ok(input.connection(alloc));
        }
        self.given = None;
        self.failed_accepts += 1;
        Err(AcceptFault)
    }

    fn close(&mut self, conn: MemoryConnection<'a>) {
        let (_, writer) = conn.into_parts();
        let answered = writer.into_inner().into_inner();
        let given = self.given.take().unwrap();
        self.turns.push_reserved(MemoryTurn { given, answered });
    }

    fn turns(&self) -> u64 {
        self.turns.len() as u64 + self.failed_accepts
    }

    ghost all_told = { λ peers turns is.
        told_in_all peers.turns.items peers.failed_accepts turns is };
}
