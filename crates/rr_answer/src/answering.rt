//! How a query is answered: what it finds in a registry. A desk answers by `find_for`.

ghost use Rattle.std.specs.Prelude.{◌≡◌, ◌≢◌, Err, IfErr, IfOk, Ok, true};
ghost use Rattle.rr_answer.specs.declared.query_fault.QueryFault.TheVariants.{Memory, TooLong};
ghost use Rattle.rr_number.specs.SetNames.{kind_of};
ghost use Rattle.rr_answer.specs.Answers.{IsAnswer, IsAnswerTo, IsExpanded};
ghost use Rattle.rr_answer.specs.Founds.{found_text};
ghost use Rattle.rr_answer.specs.Queries.{is_too_long};

use crate::expansion::{numbers, ranges};
use crate::found::Findings;
use crate::query::Query;
use crate::query_fault::QueryFault;
use crate::query_reading::read_query;
use crate::selection::asked;
use rr_book::Keeper;
use rr_number::{SetKind, SetName};
use rr_registry::Registry;
use rr_sets::SetBook;
use std::alloc::Global;

/// What a query finds, whose text is the answer: the objects that it asks for, or the members of a
/// set and the names that are missing; no object if there is no such set. The fault is `TooMany`
/// exactly for an expansion over `limit`, or that memory ran out.
fn find<'a, B: Keeper>(
    alloc: Global,
    registry: &'a Registry<B>,
    limit: usize,
    query: &Query,
) -> Result<Findings<'a>, QueryFault>
    ensures ok { IfOk result
        (λ found. IsAnswer registry.now limit query.now (Ok (found_text found))) }
    ensures fault { IfErr result
        (λ fault. fault ≢ Memory → IsAnswer registry.now limit query.now (Err fault)) }
{
    match query {
        Query::Expand(name) => expanded(alloc, registry.book(), name, limit),
        Query::Prefixes(name) => ranges(alloc, registry.book(), name, limit),
        _ => {
            let objects = asked(alloc, registry, query)?;
            Ok(Findings::of(alloc, &objects)?)
        }
    }
}

/// The members of a set, by its kind. The fault is `TooMany` for an expansion over the limit, or
/// that memory ran out.
fn expanded<'a, B: SetBook>(
    alloc: Global,
    book: &'a B,
    name: &SetName,
    limit: usize,
) -> Result<Findings<'a>, QueryFault>
    ensures ok { IfOk result (λ found. IsExpanded (kind_of name.now)
        (B.contents book.now) limit name.now (Ok (found_text found))) }
    ensures fault { IfErr result (λ fault. fault ≢ Memory
        → IsExpanded (kind_of name.now) (B.contents book.now) limit name.now (Err fault)) }
{
    match name.kind() {
        SetKind::AsSet => numbers(alloc, book, name, limit),
        SetKind::RouteSet => ranges(alloc, book, name, limit),
    }
}

/// What the text of a query finds, which `Findings::write` writes as the answer. It is the objects
/// that the query asks for, or the members of a set and the names that are missing; no object if
/// there is no such set. Which texts are queries, and what each asks for, `Queries` and
/// `Selections` define.
///
/// The fault is the first of `TooLong`, `Bad` and `TooMany` that fits, in this order. Or, of a text
/// that is not too long, it is that memory ran out; when it does, no clause says. `TooMany` comes
/// exactly for an expansion over `limit`, counted as `expand_as_set` and `expand_route_set` of
/// `rr_sets` count it. `Stopped` never comes.
pub fn find_for<'a, B: Keeper>(
    alloc: Global,
    registry: &'a Registry<B>,
    limit: usize,
    text: &[u8],
) -> Result<Findings<'a>, QueryFault>
    ensures ok { IfOk result
        (λ found. IsAnswerTo registry.now limit text.now (Ok (found_text found))) }
    ensures fault { IfErr result
        (λ fault. fault ≢ Memory → IsAnswerTo registry.now limit text.now (Err fault)) }
    ensures long { is_too_long text.now ≡ true → result ≡ Err TooLong }
{
    let query = read_query(alloc, text)?;
    find(alloc, registry, limit, &query)
}
