//! Nests of spans and trees of prefixes that grow. What they answer is seen in `sequence_tests.rt`.
use crate::collections::{Collection, is_held};
use rr_cover::{InsertFault, PrefixTree, SpanNest};
use rr_number::{Address, Prefix, Span};
use std::alloc::AllocError;
use std::process::Abort;

// The test below shows most where `rt try --test --fail-alloc N` refuses the growth of that number.

/// Whether the collection takes the span, which it does not hold, at once or after a refusal that
/// changed nothing.
fn takes<C: Collection>(collection: &mut C, span: Span, value: u32) -> bool {
    match collection.put(span, value) {
        Ok(old) => old.is_none(),
        Err(InsertFault::Overlap(_)) => false,
        Err(InsertFault::Memory(back)) => {
            let unchanged = back == value && !is_held(collection, span);
            unchanged && matches!(collection.put(span, value), Ok(None))
        }
    }
}

/// How many spans were listed, if memory was had.
fn count(listed: Result<Vec<Span>, AllocError>) -> Option<usize> {
    match listed {
        Ok(listed) => Some(listed.len()),
        Err(_) => None,
    }
}

/// The span of the prefix of the last address that has the length.
fn last_span(length: u8) -> Span {
    Prefix::new(Address::from_bits(u32::MAX), length.min(32)).span()
}

/// Nine lengths in no order.
const LENGTHS: &[u8] = &[28, 24, 32, 27, 31, 26, 30, 25, 29];

/// Asserts that a collection takes nine spans inside each other and one beside them, at which a
/// tree parts, and lists the nine.
fn expect_growth<R: Abort + AllocGlobal, C: Collection>(rt: &R, collection: &mut C) {
    for length in LENGTHS {
        assert!(rt; takes(collection, last_span(*length), 0), "{length}");
    }
    assert!(rt; takes(collection, Span::new(0, 255), 0));
    let inner = last_span(32);
    let covering = count(collection.spans_covering(rt.alloc(), inner));
    let covering = covering.or(count(collection.spans_covering(rt.alloc(), inner)));
    assert_eq!(rt; covering, Some(9));
}

#[test]
fn a_refused_growth_changes_nothing(rt: HostRuntime) {
    expect_growth(&rt, &mut SpanNest::new(rt.alloc()));
    expect_growth(&rt, &mut PrefixTree::new(rt.alloc()));
}
