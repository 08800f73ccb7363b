//! Queries read from the texts that clients send, for `answering`. A desk also asks whether a text
//! is too long.

ghost use Rattle.std.specs.Prelude.{◌≡◌, ◌≢◌, Err, IfErr, IfOk, Ok, map, true};
ghost use Rattle.std.specs.List.{list_any};
ghost use Rattle.std.specs.Option.{option_and_then};
ghost use Rattle.rr_bytes.specs.Parts.{words};
ghost use Rattle.rr_object.specs.Items.{only};
ghost use Rattle.rr_answer.specs.declared.query_fault.QueryFault.TheVariants.{Memory, TooLong};
ghost use Rattle.rr_answer.specs.Queries as queries;

use crate::query::Query;
use crate::query_fault::QueryFault;
use rr_bytes::{is_keyword, joined_by_space, to_lower, words};
use rr_number::{Address, AsNumber, Name, Prefix, SetName};
use rr_object::{Class, Key};
use rr_text::is_refused;
use std::alloc::{AllocError, Global};

/// The most bytes of a query.
const MOST_BYTES: usize = 1_024;

/// Whether the text is longer than a query may be, which is 1,024 bytes.
pub fn is_too_long(text: &[u8]) -> bool
    ensures { result ≡ queries.is_too_long text.now }
{
    text.len() > MOST_BYTES
}

/// The query that a text is; letter case is ignored (profile). The fault is the first of `TooLong`
/// and `Bad` that fits, or, of a text that is not too long, that memory ran out.
#[tactic(auto, unfolding(crate::specs::Queries::query_of))]
pub(crate) fn read_query(alloc: Global, text: &[u8]) -> Result<Query, QueryFault>
    ensures ok { IfOk result (λ query. queries.query_of text.now ≡ Ok query) }
    ensures fault { IfErr result
        (λ fault. fault ≢ Memory → queries.query_of text.now ≡ Err fault) }
    ensures long { queries.is_too_long text.now ≡ true → result ≡ Err TooLong }
{
    if is_too_long(text) {
        return Err(QueryFault::TooLong);
    }
    if has_unreadable(text) {
        return Err(QueryFault::Bad);
    }
    match query_of_text(alloc, text)? {
        Some(query) => Ok(query),
        None => Err(QueryFault::Bad),
    }
}

/// Whether the text has a byte that no query has.
fn has_unreadable(text: &[u8]) -> bool
    ensures { result ≡ list_any queries.is_unreadable text.now }
{
    text.iter().any(|b| is_unreadable(*b))
}

/// Whether a byte stands in no query: an LF, or one that stands in no line of an object.
fn is_unreadable(b: u8) -> bool
    ensures { result ≡ queries.is_unreadable b }
{
    b == b'\n' || is_refused(b)
}

/// The query of a text's words.
fn query_of_text(alloc: Global, text: &[u8]) -> Result<Option<Query>, AllocError>
    ensures { IfOk result (λ query. query ≡ queries.query_of_words (words text.now)) }
{
    let words = words(alloc, text)?;
    query_of_words(alloc, &words)
}

/// The query that the words are, if they are one.
fn query_of_words(alloc: Global, words: &[&[u8]]) -> Result<Option<Query>, AllocError>
    ensures { IfOk result
        (λ query. query ≡ queries.query_of_words (map (λ word. word.now) words.now)) }
{
    match words {
        [] => Ok(None),
        [word] => query_of_word(alloc, word),
        [verb, word] => query_of_two(alloc, verb, word),
        [verb, second, others @ ..] => query_of_more(alloc, verb, second, others),
    }
}

/// The query that one word is.
fn query_of_word(alloc: Global, word: &[u8]) -> Result<Option<Query>, AllocError>
    ensures { IfOk result (λ query. query ≡ queries.query_of_word word.now) }
{
    if let Some(key) = Key::read(alloc, Class::AutNum, word)? {
        return Ok(Some(Query::Object(key)));
    }
    if let Some(prefix) = prefix_spelled(word) {
        return Ok(Some(Query::Closest(prefix)));
    }
    if let Some(key) = set_key_of(alloc, word)? {
        return Ok(Some(Query::Object(key)));
    }
    Ok(Key::read(alloc, Class::Mntner, word)?.map(Query::Object))
}

/// The prefix that a word spells, or that of the one address that it spells.
fn prefix_spelled(word: &[u8]) -> Option<Prefix>
    ensures { result ≡ queries.prefix_spelled word.now }
{
    if let Some(prefix) = Prefix::read(word) {
        return Some(prefix);
    }
    let address = Address::read(word)?;
    Some(Prefix::new(address, 32))
}

/// The key of a set of either kind.
fn set_key_of(alloc: Global, word: &[u8]) -> Result<Option<Key>, AllocError>
    ensures { IfOk result (λ key. key ≡ queries.set_key_of word.now) }
{
    if let Some(key) = Key::read(alloc, Class::AsSet, word)? {
        return Ok(Some(key));
    }
    Key::read(alloc, Class::RouteSet, word)
}

/// The query that two words are.
fn query_of_two(alloc: Global, verb: &[u8], word: &[u8]) -> Result<Option<Query>, AllocError>
    ensures { IfOk result (λ query. query ≡ queries.query_of_two verb.now word.now) }
{
    if is_keyword(verb, b"exact") {
        Ok(prefix_spelled(word).map(Query::Exact))
    } else if is_keyword(verb, b"closest") {
        Ok(prefix_spelled(word).map(Query::Closest))
    } else if is_keyword(verb, b"less") {
        Ok(prefix_spelled(word).map(Query::Less))
    } else if is_keyword(verb, b"more") {
        Ok(prefix_spelled(word).map(Query::More))
    } else if is_keyword(verb, b"expand") {
        Ok(SetName::read(alloc, word)?.map(Query::Expand))
    } else if is_keyword(verb, b"prefixes") {
        Ok(SetName::read(alloc, word)?.map(Query::Prefixes))
    } else {
        Ok(None)
    }
}

/// The query that three words or more are.
#[tactic(auto, unfolding(crate::specs::Queries::query_of_more))]
fn query_of_more(
    alloc: Global,
    verb: &[u8],
    second: &[u8],
    others: &[&[u8]],
) -> Result<Option<Query>, AllocError>
    ensures { IfOk result (λ query. query
        ≡ queries.query_of_more verb.now second.now (map (λ word. word.now) others.now)) }
{
    if is_keyword(verb, b"object") {
        Ok(key_of_words(alloc, second, others)?.map(Query::Object))
    } else if is_keyword(verb, b"inverse") {
        inverse_of_words(alloc, second, others)
    } else {
        Ok(None)
    }
}

/// The key of the class that the words spell.
fn key_of_words(alloc: Global, class: &[u8], others: &[&[u8]]) -> Result<Option<Key>, AllocError>
    ensures { IfOk result
        (λ key. key ≡ queries.key_of_words class.now (map (λ word. word.now) others.now)) }
{
    let lowered = to_lower(alloc, class)?;
    match Class::named(&lowered) {
        Some(class) => {
            let text = joined_by_space(alloc, others)?;
            Key::read(alloc, class, &text)
        }
        None => Ok(None),
    }
}

/// The query that asks for the objects that name a maintainer, or for the routes of an origin.
fn inverse_of(alloc: Global, attribute: &[u8], word: &[u8]) -> Result<Option<Query>, AllocError>
    ensures { IfOk result (λ query. query ≡ queries.inverse_of attribute.now word.now) }
{
    if is_keyword(attribute, b"mnt") {
        Ok(Name::read_maintainer(alloc, word)?.map(Query::Naming))
    } else if is_keyword(attribute, b"origin") {
        Ok(AsNumber::read(word).map(Query::Originated))
    } else {
        Ok(None)
    }
}

/// The query that asks for the objects that name a maintainer, or for the routes of an origin, if
/// the word of it is one alone.
fn inverse_of_words(
    alloc: Global,
    attribute: &[u8],
    others: &[&[u8]],
) -> Result<Option<Query>, AllocError>
    ensures { IfOk result (λ query. query ≡ option_and_then (queries.inverse_of attribute.now)
        (only (map (λ word. word.now) others.now))) }
{
    match others {
        [word] => inverse_of(alloc, attribute, word),
        _ => Ok(None),
    }
}
