//! A desk over tables as a registrar, as the program serves it.

ghost use Rattle.rr_desk.specs.Lasting.{database_still};
ghost use Rattle.rr_http.specs.DeskLeaving.{desk_answer_leaves};
ghost use Rattle.rr_http.specs.DeskRegistrars.{desk_registrar};

use crate::registrar::Registrar;
use rr_desk::{Desk, DeskDumpFault, Done, SubmissionFault, WriteFault};
use rr_io::{Reader, Writer};
use sqlite::Alter;
use std::alloc::Global;

impl<S: Alter> Registrar for Desk<S> {
    ghost ledger = { (desk_registrar S.Store).ledger };

    ghost settings = { (desk_registrar S.Store).settings };

    ghost Answers = { (desk_registrar S.Store).Answers };

    ghost dumped = { (desk_registrar S.Store).dumped };

    ghost lasts_still = { λ _. database_still _ };

    ghost answer_leaves = { λ _ _ _ _ is. desk_answer_leaves _ _ _ _ _ is };

    fn stopped(&self) -> bool {
        Desk::stopped(self)
    }

    fn answer<W: Writer>(
        &mut self,
        alloc: Global,
        query: &[u8],
        writer: &mut W,
    ) -> Result<(), WriteFault> {
        Desk::answer(self, alloc, query, writer)?;
        Ok(())
    }

    fn dump<W: Writer>(&self, alloc: Global, writer: &mut W) -> Result<(), DeskDumpFault> {
        Desk::dump(self, alloc, writer, false)?;
        Ok(())
    }

    fn submit<R: Reader, W: Writer>(
        &mut self,
        alloc: Global,
        reader: &mut R,
        writer: &mut W,
    ) -> Result<Done, SubmissionFault> {
        Desk::submit(self, alloc, reader, writer)
    }
}
