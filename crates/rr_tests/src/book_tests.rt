//! The plain book and the indexed one, which answer alike.
use crate::books::{answered, dumped, item, taken};
use crate::texts::OPENING;
use crate::told::expect_text;
use rand_core::utils::NextWord;
use rand_pcg::Pcg32;
use rr_auth::{Item, Secrets};
use rr_index::IndexedBook;
use rr_io::{Counted, write_all};
use rr_number::Span;
use rr_object::{Code, Object};
use rr_registry::{Keeper, Outcome, PlainBook, Registry};
use std::alloc::{AllocError, Global};
use std::io;
use std::process::Abort;
use std::test::Fail;

const MAINTAINERS: [&str; 4] = ["A-MNT", "B-MNT", "C-MNT", "ROOT-MNT"];

/// What is asked of both registries now and then.
const QUERIES: &[&str] = &[
    "less 10.1.2.3",
    "more 10.0.0.0/8",
    "closest 10.2.0.0/24",
    "closest 10.3.0.128",
    "exact 10.1.0.0/16",
    "object mntner a-mnt",
    "inverse mnt b-mnt",
    "inverse origin as1",
    "expand as-1",
    "expand as-2",
    "expand AS-ANY",
    "expand rs-1",
    "expand rs-2",
    "expand RS-ANY",
    "prefixes as-1",
    "prefixes as-3",
    "prefixes rs-3",
    "prefixes AS-ANY",
    "prefixes RS-ANY",
];

/// Queries of which each is to be answered by more than a note now and then, because routes and
/// members stand.
const FRUITFUL: [&str; 3] = ["inverse origin as1", "expand rs-1", "prefixes as-1"];

/// What is to come about, so that what is compared is worth it.
const WANTED: &[Outcome] = &[
    Outcome::Added,
    Outcome::Changed,
    Outcome::Unchanged,
    Outcome::Deleted,
    Outcome::Refused(Code::E10),
    Outcome::Refused(Code::E11),
    Outcome::Refused(Code::E12),
    Outcome::Refused(Code::E13),
    Outcome::Refused(Code::E14),
    Outcome::Refused(Code::E15),
    Outcome::Refused(Code::E16),
    Outcome::Refused(Code::E17),
    Outcome::Refused(Code::E18),
];

/// What the text of an object is made of: numbers below 6, and one below 3; two maintainers; the
/// ends of a range.
#[derive(Clone, Copy)]
struct Parts {
    one: u8,
    other: u8,
    third: u8,
    by: &'static str,
    name: &'static str,
    ends: (u8, u8),
}

/// The text of some object: so few keys and maintainers that many nest, cross, stand already, or
/// name each other.
fn any_text(alloc: Global, words: &mut Pcg32) -> Result<String, AllocError> {
    let [kind, one, other, who] = words.next_word().to_le_bytes();
    let [third, name, low, high] = words.next_word().to_le_bytes();
    let parts = Parts {
        one: one % 6,
        other: other % 6,
        third: third % 3,
        by: MAINTAINERS[usize::from(who % 4)],
        name: MAINTAINERS[usize::from(name % 3)],
        ends: (low.min(high), low.max(high)),
    };
    match kind % 12 {
        0 | 1 => mntner_text(alloc, parts),
        2 | 3 => numbers_text(alloc, kind % 12 == 2, parts),
        4..=6 => inetnum_text(alloc, kind % 12 == 6, parts),
        7 | 8 => route_text(alloc, parts),
        _ => set_text(alloc, kind % 12 == 9, parts),
    }
}

fn mntner_text(alloc: Global, parts: Parts) -> Result<String, AllocError> {
    let Parts { third, name, .. } = parts;
    format!(in alloc;
        "mntner: {name}\n\
         auth: SHA256-PW ab:ba7816bf8f01cfea414140de5dae2223b00361a396177a9cb410ff61f20015ad\n\
         mnt-by: {name}\ndescr: {third}\nsource: TEST\n"
    )
}

/// An aut-num, or an as-block.
fn numbers_text(alloc: Global, is_one: bool, parts: Parts) -> Result<String, AllocError> {
    let Parts {
        one,
        other,
        third,
        by,
        name,
        ..
    } = parts;
    if is_one {
        format!(in alloc;
            "aut-num: AS{one}\nmember-of: AS-{other}, AS-{third}\nmnt-by: {by}\nmnt-lower: {name}\n\
             source: TEST\n"
        )
    } else {
        format!(in alloc;
            "as-block: AS{} - AS{}\nmnt-by: {by}\nmnt-lower: {name}\nsource: TEST\n",
            one.min(other),
            one.max(other)
        )
    }
}

/// An inetnum of some addresses of a /16, or one of whole ones.
fn inetnum_text(alloc: Global, is_small: bool, parts: Parts) -> Result<String, AllocError> {
    let Parts {
        one,
        other,
        third,
        by,
        name,
        ends: (low, high),
    } = parts;
    if is_small {
        format!(in alloc;
            "inetnum: 10.{one}.0.{low} - 10.{one}.{third}.{high}\nmnt-by: {by}\n\
             mnt-routes: {name} {{10.{one}.0.0/16^+}}, {by}\nsource: TEST\n"
        )
    } else {
        format!(in alloc;
            "inetnum: 10.{}.0.0 - 10.{}.255.255\nmnt-by: {by}, {name}\nsource: TEST\n",
            one.min(other),
            one.max(other)
        )
    }
}

fn route_text(alloc: Global, parts: Parts) -> Result<String, AllocError> {
    let Parts {
        one,
        other,
        third,
        by,
        ..
    } = parts;
    format!(in alloc;
        "route: 10.{one}.0.0/{}\norigin: AS{other}\nmember-of: AS-{one}, RS-{third}\nmnt-by: {by}\n\
         source: TEST\n",
        14 + third % 3
    )
}

/// What stands before the name of a set: nothing, or an AS number, which may be missing.
fn parent_text(alloc: Global, parts: Parts) -> Result<String, AllocError> {
    let Parts { other, third, .. } = parts;
    if third == 2 {
        format!(in alloc; "AS{other}:")
    } else {
        Ok(String::new(alloc))
    }
}

/// An as-set, or a route-set.
fn set_text(alloc: Global, has_numbers: bool, parts: Parts) -> Result<String, AllocError> {
    let Parts {
        one,
        other,
        third,
        by,
        name,
        ..
    } = parts;
    let parent = parent_text(alloc, parts)?;
    if has_numbers {
        format!(in alloc;
            "as-set: {parent}AS-{one}\nmembers: AS{other}, AS-{third}\nmbrs-by-ref: {name}\n\
             mnt-by: {by}\nsource: TEST\n"
        )
    } else {
        format!(in alloc;
            "route-set: {parent}RS-{one}\n\
             members: RS-{third}^+, AS-{other}, AS{other}^24, 10.{other}.0.0/16\n\
             mbrs-by-ref: {name}, ANY\nmnt-by: {by}\nsource: TEST\n"
        )
    }
}

/// Secrets and an item, twice over.
fn any_items(alloc: Global, words: &mut Pcg32) -> Result<(Secrets, Item, Item), Fail> {
    let text = any_text(alloc, words)?;
    let deletes = words.next_word() % 4 == 0;
    let secrets = any_secrets(alloc, words)?;
    let first = item(alloc, deletes, &text)?;
    let second = item(alloc, deletes, &text)?;
    Ok((secrets, first, second))
}

/// The root's secret and that of the others, or only one of them; or none that fits.
fn any_secrets(alloc: Global, words: &mut Pcg32) -> Result<Secrets, AllocError> {
    let mut secrets = Secrets::new(alloc);
    let which = words.next_word() % 8;
    secrets.add_owned(Vec::from_slice(alloc, b"no secret of anybody")?)?;
    if which > 1 {
        secrets.add_owned(Vec::from_slice(alloc, b"c")?)?;
    }
    if which != 1 && which != 2 {
        secrets.add_owned(Vec::from_slice(alloc, b"bc")?)?;
    }
    Ok(secrets)
}

/// A span from the first address of a /16 to the last of one.
fn any_span(words: &mut Pcg32) -> Span {
    let [one, other, _, _] = words.next_word().to_le_bytes();
    let (one, other) = (u32::from(one % 6), u32::from(other % 6));
    let (first, last) = if one <= other {
        (one, other)
    } else {
        (other, one)
    };
    Span::new(
        0x0a00_0000 + first * 0x1_0000,
        0x0a00_ffff + last * 0x1_0000,
    )
}

/// Writes the keys of the objects, each on a line.
fn print_keys(keys: &mut Counted<Vec<u8>>, objects: &[&Object]) -> io::Result<()> {
    for object in objects {
        object.key().print_to(keys)?;
        write_all(keys, b"\n")?;
    }
    write_all(keys, b"\n")
}

/// The keys of all objects, of those that cover the span, and of those inside it.
fn lists<B: Keeper>(alloc: Global, registry: &Registry<B>, span: Span) -> Result<Vec<u8>, Fail> {
    let mut keys = Counted::new(Vec::new(alloc));
    print_keys(&mut keys, &registry.objects(alloc)?)?;
    print_keys(&mut keys, &registry.covering(alloc, span)?)?;
    print_keys(&mut keys, &registry.inside(alloc, span)?)?;
    Ok(keys.into_inner())
}

/// The dump of the registry, and what it answers to each query.
fn answers<B: Keeper>(alloc: Global, registry: &Registry<B>) -> Result<Vec<u8>, Fail> {
    let mut answers = dumped(alloc, registry, true)?;
    for query in QUERIES {
        answers.extend_from_slice(&answered(alloc, registry, 20, query)?)?;
    }
    Ok(answers)
}

/// Asserts that both registries list alike what is round the span.
fn expect_same_lists<P: Keeper, I: Keeper, R: Abort + AllocGlobal>(
    rt: &R,
    plain: &Registry<P>,
    indexed: &Registry<I>,
    span: Span,
) -> Result<(), Fail> {
    let wanted = lists(rt.alloc(), plain, span)?;
    let found = lists(rt.alloc(), indexed, span)?;
    expect_text(rt, &found, str::from_utf8(&wanted)?, "the lists are alike")
}

/// Asserts that both registries have the same dump, and answer alike.
fn expect_same_answers<P: Keeper, I: Keeper, R: Abort + AllocGlobal>(
    rt: &R,
    plain: &Registry<P>,
    indexed: &Registry<I>,
) -> Result<(), Fail> {
    let wanted = answers(rt.alloc(), plain)?;
    let found = answers(rt.alloc(), indexed)?;
    let wanted = str::from_utf8(&wanted)?;
    expect_text(rt, &found, wanted, "the answers are alike")
}

/// Which of the fruitful queries have been answered by more than a note, with those of the registry
/// as it is now.
fn fruitful<B: Keeper>(
    alloc: Global,
    registry: &Registry<B>,
    before: [bool; 3],
) -> Result<[bool; 3], Fail> {
    let mut fruitful = before;
    for (has_borne, query) in fruitful.iter_mut().zip(FRUITFUL) {
        let answer = answered(alloc, registry, 20, query)?;
        *has_borne = *has_borne || !answer.starts_with(b"% ");
    }
    Ok(fruitful)
}

/// The outcome of the next item; asserts that both registries give it, and list alike what is round
/// some span.
fn expect_item<P: Keeper, I: Keeper, R: Abort + AllocGlobal>(
    rt: &R,
    plain: &mut Registry<P>,
    indexed: &mut Registry<I>,
    words: &mut Pcg32,
) -> Result<Outcome, Fail> {
    let (mut secrets, first, second) = any_items(rt.alloc(), words)?;
    let outcome = plain.apply(rt.alloc(), &mut secrets, first);
    let other = indexed.apply(rt.alloc(), &mut secrets, second);
    assert_eq!(rt; other, outcome);
    expect_same_lists(rt, plain, indexed, any_span(words))?;
    Ok(outcome)
}

/// Adds the outcomes of the next fifty items; asserts that both registries answer alike after them.
fn expect_items<P: Keeper, I: Keeper, R: Abort + AllocGlobal>(
    rt: &R,
    plain: &mut Registry<P>,
    indexed: &mut Registry<I>,
    words: &mut Pcg32,
    outcomes: &mut Vec<Outcome>,
) -> Result<(), Fail> {
    for _ in 0..50 {
        outcomes.push(expect_item(rt, plain, indexed, words)?)?;
    }
    expect_same_answers(rt, plain, indexed)
}

/// Asserts that each outcome comes about.
fn expect_wanted<R: Abort>(rt: &R, outcomes: &[Outcome]) {
    for wanted in WANTED {
        assert!(rt; outcomes.contains(wanted), "no {wanted:?}");
    }
}

/// Asserts that registries in two books answer alike to a thousand items, of which every outcome
/// comes about.
fn expect_alike<P: Keeper + Drop, I: Keeper + Drop, R: Abort + AllocGlobal>(
    rt: &R,
) -> Result<(), Fail> {
    let mut words = Pcg32::new(42, 54);
    let mut plain = taken::<P>(rt.alloc(), OPENING.as_bytes())?;
    let mut indexed = taken::<I>(rt.alloc(), OPENING.as_bytes())?;
    let mut outcomes = Vec::new(rt.alloc());
    let mut borne = [false; 3];
    for _ in 0..20 {
        expect_items(rt, &mut plain, &mut indexed, &mut words, &mut outcomes)?;
        borne = fruitful(rt.alloc(), &plain, borne)?;
    }
    expect_wanted(rt, &outcomes);
    assert_eq!(rt; borne, [true; 3], "{FRUITFUL:?}");
    Ok(())
}

#[test]
fn both_books_answer_alike(rt: HostRuntime) -> Result<(), Fail> {
    expect_alike::<PlainBook, IndexedBook, HostRuntime>(&rt)
}
