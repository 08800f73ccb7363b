//! Sequences of a seeded generator on each collection, their answers compared.
use crate::collections::Collection;
use rand_core::utils::NextWord;
use rand_pcg::Pcg32;
use rr_cover::{PrefixTree, SpanNest};
use rr_number::{Address, Prefix, Span};
use std::alloc::AllocError;
use std::process::Abort;

const STEPS: u32 = 3_000;

/// A span of numbers below 48: so small that many are equal, nest or cross.
fn any_span(words: &mut Pcg32) -> Span {
    let [one, other, _, _] = words.next_word().to_le_bytes();
    let (one, other) = (u32::from(one % 48), u32::from(other % 48));
    if one <= other {
        Span::new(one, other)
    } else {
        Span::new(other, one)
    }
}

/// The span of a prefix of addresses below 64: so few that many are equal or nest.
fn any_prefix(words: &mut Pcg32) -> Span {
    let [address, length, _, _] = words.next_word().to_le_bytes();
    Prefix::new(Address::from_bits(u32::from(address % 64)), 26 + length % 7).span()
}

/// A span that the collection may hold.
fn any_key(words: &mut Pcg32, of_prefixes: bool) -> Span {
    if of_prefixes {
        any_prefix(words)
    } else {
        any_span(words)
    }
}

/// Puts a value into both collections, or takes one out of both if none is given, and asserts that
/// they answer alike.
fn change_both<R: Abort, C: Collection, D: Collection>(
    rt: &R,
    collection: &mut C,
    other: &mut D,
    span: Span,
    value: Option<u32>,
) {
    match value {
        Some(value) => assert_eq!(rt; collection.put(span, value), other.put(span, value)),
        None => assert_eq!(rt; collection.take(span), other.take(span)),
    }
}

/// Asserts that both collections answer alike about a span that they may hold.
fn expect_alike_at<R: Abort, C: Collection, D: Collection>(
    rt: &R,
    collection: &C,
    other: &D,
    span: Span,
) {
    assert_eq!(rt; collection.closest_to(span), other.closest_to(span));
    assert!(rt; collection.is_crossed_by(span) == other.is_crossed_by(span));
}

/// Asserts that both collections list alike what covers a span.
fn expect_alike_round<R: Abort + AllocGlobal, C: Collection, D: Collection>(
    rt: &R,
    collection: &C,
    other: &D,
    span: Span,
) -> Result<(), AllocError> {
    let covering = collection.spans_covering(rt.alloc(), span)?;
    let others = other.spans_covering(rt.alloc(), span)?;
    assert!(rt; covering.as_slice() == others.as_slice(), "covering {span}");
    Ok(())
}

/// Asserts that the collection, empty so far, answers as a plain vector does at each step of a
/// sequence.
fn expect_as_vec<R: Abort + AllocGlobal, C: Collection + Drop>(
    rt: &R,
    mut collection: C,
    of_prefixes: bool,
) -> Result<(), AllocError> {
    let mut words = Pcg32::new(42, 54);
    let mut plain: Vec<(Span, u32)> = Vec::new(rt.alloc());
    for value in 0..STEPS {
        let span = any_key(&mut words, of_prefixes);
        let takes = words.next_word() % 3 == 0;
        let put = if takes { None } else { Some(value) };
        change_both(rt, &mut collection, &mut plain, span, put);
        let asked = any_key(&mut words, of_prefixes);
        expect_alike_at(rt, &collection, &plain, asked);
        expect_alike_round(rt, &collection, &plain, any_span(&mut words))?;
    }
    Ok(())
}

#[test]
fn vector_and_nest_answer_alike(rt: HostRuntime) -> Result<(), AllocError> {
    expect_as_vec(&rt, SpanNest::new(rt.alloc()), false)
}

#[test]
fn vector_and_tree_answer_alike(rt: HostRuntime) -> Result<(), AllocError> {
    expect_as_vec(&rt, PrefixTree::new(rt.alloc()), true)
}
