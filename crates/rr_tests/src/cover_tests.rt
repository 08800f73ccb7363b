//! How many levels trees and nests of spans have. What they hold is seen in `sequence_tests.rt`.
use rr_cover::{PrefixTree, SpanNest};
use rr_number::{Address, Prefix, Span};
use std::test::Fail;

/// The prefix of the last address that has the length.
fn last_prefix(length: u8) -> Prefix {
    Prefix::new(Address::from_bits(u32::MAX), length.min(32))
}

#[test]
fn all_lengths_of_one_address_make_33_levels(rt: HostRuntime) -> Result<(), Fail> {
    let mut tree = PrefixTree::new(rt.alloc());
    for step in 0..33u8 {
        let length = (u32::from(step) * 7 % 33) as u8;
        let _old = tree.insert(last_prefix(length), length)?;
    }
    assert_eq!(rt; tree.levels(), 33);
    for length in 0..32u8 {
        let _value = tree.remove(last_prefix(length));
    }
    assert_eq!(rt; tree.levels(), 1);
    Ok(())
}

#[test]
fn a_parting_node_comes_and_goes_with_its_second_prefix(rt: HostRuntime) -> Result<(), Fail> {
    let other = Prefix::new(Address::from_bits(0), 32);
    let mut tree = PrefixTree::new(rt.alloc());
    let _old = tree.insert(last_prefix(32), ())?;
    let _old = tree.insert(other, ())?;
    assert_eq!(rt; tree.levels(), 2);
    let _value = tree.remove(other);
    assert_eq!(rt; tree.levels(), 1);
    Ok(())
}

/// The fewest nodes of a tree of so many levels, where the sides of each node differ by one level
/// at most.
fn fewest(levels: u32) -> u32 {
    let mut fewest = 0u32;
    let mut next = 1u32;
    for _ in 0..levels {
        let after = fewest.saturating_add(next).saturating_add(1);
        fewest = next;
        next = after;
    }
    fewest
}

/// For places below 500 a span inside that of the place before, for others one beside it.
fn mixed(place: u32) -> Span {
    if place < 500 {
        Span::new(place, 10_000 - place)
    } else {
        let number = 4_000 + place % 1_000;
        Span::new(number, number)
    }
}

#[test]
fn a_nest_has_no_more_levels_than_a_balanced_tree(rt: HostRuntime) -> Result<(), Fail> {
    let mut nest = SpanNest::new(rt.alloc());
    for step in 0..1_000u32 {
        let place = step * 619 % 1_000;
        let _old = nest.insert(mixed(place), place)?;
        assert!(rt; fewest(nest.levels()) <= step + 1, "{step}");
    }
    for step in 0..900u32 {
        let place = step * 389 % 1_000;
        let _value = nest.remove(mixed(place));
        assert!(rt; fewest(nest.levels()) <= 999 - step, "{step}");
    }
    Ok(())
}
