//! Expansions of sets as queries find them: what `answering` calls for the members of a set.

ghost use Rattle.std.specs.Prelude.{◌≢◌, Err, IfErr, IfOk, Ok};
ghost use Rattle.rr_answer.specs.declared.query_fault.QueryFault.TheVariants.{Memory};
ghost use Rattle.rr_answer.specs.Answers.{IsNumberAnswer, IsRangeAnswer};
ghost use Rattle.rr_answer.specs.Founds.{found_text};

use crate::found::Findings;
use crate::query_fault::QueryFault;
use rr_number::SetName;
use rr_sets::{ExpandFault, SetBook, expand_as_set, expand_route_set};
use std::alloc::Global;

/// The AS numbers of an as-set as they are answered; no object if there is no such set. The fault
/// is `TooMany` for an expansion over the limit, or that memory ran out.
pub(crate) fn numbers<'a, B: SetBook>(
    alloc: Global,
    book: &'a B,
    name: &SetName,
    limit: usize,
) -> Result<Findings<'a>, QueryFault>
    ensures ok { IfOk result (λ found.
        IsNumberAnswer (B.contents book.now) limit name.now (Ok (found_text found))) }
    ensures fault { IfErr result (λ fault. fault ≢ Memory
        → IsNumberAnswer (B.contents book.now) limit name.now (Err fault)) }
{
    match expand_as_set(alloc, book, name, limit) {
        Ok(members) => Ok(Findings::Numbers(members)),
        Err(ExpandFault::NoSuchSet) => Ok(Findings::Objects(Vec::new(alloc))),
        Err(ExpandFault::TooMany) => Err(QueryFault::TooMany),
        Err(ExpandFault::Memory) => Err(QueryFault::Memory),
    }
}

/// The ranges of a set of either kind as they are answered; no object if there is no such set. The
/// fault is `TooMany` for an expansion over the limit, or that memory ran out.
pub(crate) fn ranges<'a, B: SetBook>(
    alloc: Global,
    book: &'a B,
    name: &SetName,
    limit: usize,
) -> Result<Findings<'a>, QueryFault>
    ensures ok { IfOk result (λ found.
        IsRangeAnswer (B.contents book.now) limit name.now (Ok (found_text found))) }
    ensures fault { IfErr result (λ fault. fault ≢ Memory
        → IsRangeAnswer (B.contents book.now) limit name.now (Err fault)) }
{
    match expand_route_set(alloc, book, name, limit) {
        Ok(members) => Ok(Findings::Ranges(members)),
        Err(ExpandFault::NoSuchSet) => Ok(Findings::Objects(Vec::new(alloc))),
        Err(ExpandFault::TooMany) => Err(QueryFault::TooMany),
        Err(ExpandFault::Memory) => Err(QueryFault::Memory),
    }
}
