//! Questions to registries in either book that no use of the program asks: about spans that cross
//! others, with the limit zero, and about a set of the other kind.
use crate::books::{answered, taken};
use crate::told::expect_text;
use rr_auth::Book;
use rr_index::IndexedBook;
use rr_number::{SetName, Span};
use rr_object::Key;
use rr_registry::{Keeper, PlainBook, Registry};
use rr_sets::{ExpandFault, SetBook, expand_as_set, expand_route_set};
use std::process::Abort;
use std::test::Fail;

/// Nested and ragged inetnums, and sets: AS-B lists AS-GONE, AS-SELF and RS-C list themselves, and
/// RS-X lists RS-GONE.
const HELD: &str = "\
mntner: A-MNT
auth: SHA256-PW ab:ba7816bf8f01cfea414140de5dae2223b00361a396177a9cb410ff61f20015ad
mnt-by: A-MNT
source: TEST

inetnum: 0.0.0.0 - 255.255.255.255
mnt-by: A-MNT
source: TEST

inetnum: 10.0.0.0/8
mnt-by: A-MNT
source: TEST

inetnum: 10.1.0.0/16
mnt-by: A-MNT
source: TEST

inetnum: 10.1.0.128 - 10.1.1.127
mnt-by: A-MNT
source: TEST

inetnum: 10.1.1.0/25
mnt-by: A-MNT
source: TEST

inetnum: 10.1.0.0 - 10.1.1.255
mnt-by: A-MNT
source: TEST

as-set: AS-B
members: AS2 AS-GONE
mnt-by: A-MNT
source: TEST

as-set: AS-SELF
members: AS-SELF
mnt-by: A-MNT
source: TEST

route-set: RS-C
members: 10.0.0.0/30, RS-C^-
mnt-by: A-MNT
source: TEST

route-set: RS-X
members: RS-GONE
mnt-by: A-MNT
source: TEST
";

/// Spans, and the spans of their closest inetnums.
const CLOSEST: &[(&str, &str)] = &[
    ("10.1.1.0/24", "10.1.0.0 - 10.1.1.255"),
    ("10.1.0.200/32", "10.1.0.128 - 10.1.1.127"),
    ("10.1.1.0 - 10.1.1.127", "10.1.1.0 - 10.1.1.127"),
    ("10.1.1.128 - 10.1.2.0", "10.1.0.0 - 10.1.255.255"),
    ("10.0.255.0 - 10.1.0.0", "10.0.0.0 - 10.255.255.255"),
    ("9.0.0.0/7", "0.0.0.0 - 255.255.255.255"),
];

/// Asserts the closest inetnums of spans.
fn expect_closest<B: Keeper, R: Abort + AllocGlobal>(
    rt: &R,
    registry: &Registry<B>,
) -> Result<(), Fail> {
    for (asked, closest) in CLOSEST {
        let span = Span::read(asked.as_bytes()).ok_or("no span")?;
        let wanted = Span::read(closest.as_bytes()).ok_or("no span")?;
        let object = registry.book().closest_inetnum(span).ok_or("nothing")?;
        assert_eq!(rt; *object.key(), Key::Inetnum(wanted), "{asked}");
    }
    Ok(())
}

/// Queries, the limit of expansions, and what is answered. No settings have the limit zero.
const ANSWERS: &[(&str, usize, &str)] = &[
    ("expand AS-NONE", 0, "% no entries\n"),
    ("expand AS-GONE", 0, "% no entries\n"),
    ("expand RS-GONE", 0, "% no entries\n"),
    ("expand AS-ANY", 0, "% error 3\n"),
];

/// Asserts what a registry answers.
fn expect_answers<B: Keeper, R: Abort + AllocGlobal>(
    rt: &R,
    registry: &Registry<B>,
) -> Result<(), Fail> {
    for (query, limit, wanted) in ANSWERS {
        let answer = answered(rt.alloc(), registry, *limit, query)?;
        expect_text(rt, &answer, wanted, query)?;
    }
    Ok(())
}

/// Names, what their expansions as as-sets fail with, and how many ranges they have as route-sets.
const KINDS: &[(&str, Option<ExpandFault>, usize)] = &[
    ("AS-SELF", None, 0),
    ("RS-C", Some(ExpandFault::NoSuchSet), 3),
    ("RS-ANY", Some(ExpandFault::NoSuchSet), 0),
];

/// Asserts what the expansions of a name are.
fn expect_kind<B: SetBook, R: Abort + AllocGlobal>(
    rt: &R,
    book: &B,
    name: &str,
    fault: Option<ExpandFault>,
    ranges: usize,
) -> Result<(), Fail> {
    let set = SetName::read(rt.alloc(), name.as_bytes())?.ok_or("no name of a set")?;
    let numbers = expand_as_set(rt.alloc(), book, &set, 3);
    assert_eq!(rt; numbers.err(), fault, "{name}");
    let found = expand_route_set(rt.alloc(), book, &set, 3)?.found;
    assert_eq!(rt; found.len(), ranges, "{name}");
    Ok(())
}

fn expect_kinds<B: SetBook, R: Abort + AllocGlobal>(rt: &R, book: &B) -> Result<(), Fail> {
    for (name, fault, ranges) in KINDS {
        expect_kind(rt, book, name, *fault, *ranges)?;
    }
    Ok(())
}

/// Asserts what a registry in this book answers.
fn expect_held<B: Keeper + Drop, R: Abort + AllocGlobal>(rt: &R) -> Result<(), Fail> {
    let registry = taken::<B>(rt.alloc(), HELD.as_bytes())?;
    expect_closest(rt, &registry)?;
    expect_answers(rt, &registry)?;
    expect_kinds(rt, registry.book())
}

#[test]
fn both_books_answer_what_the_program_never_asks(rt: HostRuntime) -> Result<(), Fail> {
    expect_held::<PlainBook, HostRuntime>(&rt)?;
    expect_held::<IndexedBook, HostRuntime>(&rt)
}
