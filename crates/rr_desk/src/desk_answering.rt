//! What a desk answers to queries: for `irrdesk query`, and for `rr_http`, which serves it by whois
//! and HTTP.

ghost use Rattle.std.specs.Prelude.{◌≡◌, ◌≢◌, Err, IfErr, IfOk, Ok, false, true};
ghost use Rattle.rr_io.specs.Sending.{Writes};
ghost use Rattle.rr_answer.specs.declared.query_fault.QueryFault.TheVariants.{Memory, TooLong};
ghost use Rattle.rr_answer.specs.Answers.{IsAnswerTo, answer_bytes};
ghost use Rattle.rr_answer.specs.Founds.{found_text};
ghost use Rattle.rr_answer.specs.Queries.{is_too_long};
ghost use Rattle.rr_desk.specs.Answering.{made_answer, told_number};
ghost use Rattle.rr_desk.specs.Desks.{GivesAnswer, WritesAnswer, desk_state};
ghost use Rattle.rr_desk.specs.Histories.{AsksEvent};
ghost use Rattle.rr_desk.specs.Rows.{KeepsRows};
ghost use Rattle.rr_desk.specs.Stocks.{StoresUntilStopped};

use crate::desk::Desk;
use rr_answer::{Findings, QueryFault, find_for, is_too_long};
use rr_io::{Writer, write_all};
use sqlite::Alter;
use std::alloc::Global;

/// What was answered to a query.
#[derive(Clone, Copy, Debug, PartialEq, Eq)]
pub struct Answered {
    /// The number of the error that was written, or 0 where the answer is no error.
    pub error: u8,
}

/// A write of an answer failed.
#[derive(Clone, Copy, Debug, PartialEq, Eq)]
pub struct WriteFault;

impl<S: Alter> Desk<S> {
    /// Answers the text of a query, given without the LF that ended it. What the registry answers
    /// under the limit of the settings is written, or one line `% error n`. The number n is 2 if
    /// the text has more than 1,024 bytes, and otherwise 6 if the desk is stopped. Of a desk that
    /// runs it is 1 if the text is not a query, 3 for an expansion over the limit, or 4 if memory
    /// ran out (profile). The number is returned, or 0 where there is no error. After a write fault
    /// the writer has taken the beginning of the answer, and not all of it. The event has the whole
    /// answer all the same. Until the desk is stopped, its rows are those of its registry.
    #[tactic(auto, using(crate::proofs::AnswerLemmas::written))]
    pub fn answer<W: Writer>(
        &self,
        alloc: Global,
        query: &[u8],
        writer: &mut W,
    ) -> Result<Answered, WriteFault>
        ensures answers { WritesAnswer self.now query.now
            (W.told writer.old) (W.told writer.new) result }
        ensures rows { StoresUntilStopped S.Store self.now.stock }
        ensures keeps { self.now.stock.stopped ≡ false
            → KeepsRows self.now.stock.registry (desk_state S.Store self.now) }
        ensures event { AsksEvent S.Store self.now query.now
            (W.told writer.old) (W.told writer.new) result }
    {
        let found = self.found(alloc, query);
        write_found(alloc, &found, writer)
    }

    /// What the text of a query finds, or the error. Until the desk is stopped its rows are those
    /// of its registry.
    #[tactic(auto, using(crate::proofs::AnswerLemmas::running))]
    fn found(&self, alloc: Global, text: &[u8]) -> Result<Findings<'_>, QueryFault>
        ensures gives { GivesAnswer self.now text.now (made_answer result) }
        ensures rows { StoresUntilStopped S.Store self.now.stock }
        ensures keeps { self.now.stock.stopped ≡ false
            → KeepsRows self.now.stock.registry (desk_state S.Store self.now) }
    {
        if !self.stock.stopped() {
            return self.found_running(alloc, text);
        }
        if is_too_long(text) {
            Err(QueryFault::TooLong)
        } else {
            Err(QueryFault::Stopped)
        }
    }

    /// What the text of a query finds in the registry, or the error.
    fn found_running(&self, alloc: Global, text: &[u8]) -> Result<Findings<'_>, QueryFault>
        ensures ok { IfOk result (λ found. IsAnswerTo self.now.stock.registry
            self.now.settings.limit text.now (Ok (found_text found))) }
        ensures fault { IfErr result (λ fault. fault ≢ Memory → IsAnswerTo
            self.now.stock.registry self.now.settings.limit text.now (Err fault)) }
        ensures long { is_too_long text.now ≡ true → result ≡ Err TooLong }
    {
        let limit = self.settings.limit() as usize;
        find_for(alloc, self.stock.registry(), limit, text)
    }
}

/// Writes what was found part by part, or the line of the error.
fn write_found<W: Writer>(
    alloc: Global,
    found: &Result<Findings<'_>, QueryFault>,
    writer: &mut W,
) -> Result<Answered, WriteFault>
    ensures writes { Writes (W.told writer.old) (W.told writer.new)
        (answer_bytes (made_answer found.now)) result }
    ensures told { IfOk result (λ done. done.error ≡ told_number (made_answer found.now)) }
{
    match found {
        Ok(found) => match found.write(alloc, writer) {
            Ok(()) => Ok(Answered { error: 0 }),
            Err(_) => Err(WriteFault),
        },
        Err(fault) => write_fault(*fault, writer),
    }
}

/// Writes the line of an error.
fn write_fault<W: Writer>(fault: QueryFault, writer: &mut W) -> Result<Answered, WriteFault>
    ensures writes { Writes (W.told writer.old) (W.told writer.new)
        (answer_bytes (Err fault)) result }
    ensures told { IfOk result (λ done. done.error ≡ told_number (Err fault)) }
{
    match write_all(writer, fault.line()) {
        Ok(()) => Ok(Answered {
            error: fault.number(),
        }),
        Err(_) => Err(WriteFault),
    }
}
