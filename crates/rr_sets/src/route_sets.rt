//! The expansion of sets into ranges of prefixes, for `rr_answer`.

ghost use Rattle.std.specs.Prelude.{◌≡◌, true, IfOk, length};
ghost use Rattle.std.specs.List.{filter_map};
ghost use Rattle.std.specs.Option.{option_copied};
ghost use Rattle.rr_auth.specs.Registries.{Reg};
ghost use Rattle.rr_graph.specs.Answered.{FindsWithin};
ghost use Rattle.rr_graph.specs.Carried.{IsGatheredFrom};
ghost use Rattle.rr_graph.specs.Looks.{AreLooks};
ghost use Rattle.rr_number.specs.Applied.{applied};
ghost use Rattle.rr_number.specs.Ranges.{range_cmp};
ghost use Rattle.rr_sets.specs.MemberParts.{missing_name};
ghost use Rattle.rr_sets.specs.RouteSets.{FindsSet, HasRange, HasTooMany, Refers, has_set};
ghost use Rattle.rr_sets.specs.SetMeanings.{Expands, route_set_at};

use crate::as_sets::sorted;
use crate::book::SetBook;
use crate::members::{ExpandFault, Members};
use crate::ranges::{is_known, ranges_in, ranges_of_origin, registered_set};
use crate::references::{Reference, copy_of, references_of};
use rr_graph::{Labelled, LabelledGraph, NodesAndValues, ReachFault, gather};
use rr_number::{Operator, Prefix, Range, SetName};
use rr_object::{MemberSet, Object};
use std::alloc::{AllocError, Global};

/// Lists exactly the ranges of prefixes that a set stands for, of either kind, `AS-ANY` and
/// `RS-ANY` among them. It reaches the sets and ASes to which chains of references lead, itself by
/// the empty chain. A range that the set or AS at the end of a chain has itself is put through the
/// operators of that chain, the last first. The set stands for what they make of it, unless one
/// drops it (RFC 2622, 5).
///
/// A registered set has the ranges in its `members` itself. It also has those of the routes that
/// name it in `member-of`, if its `mbrs-by-ref` has `ANY` or a maintainer in the route's `mnt-by`.
/// An AS has those of its routes, and `RS-ANY` those of all routes. The range of a route is that of
/// its prefix alone. A registered set refers to the sets and ASes in its `members`: a route-set
/// under their operators, an as-set under none. An as-set refers also to the ASes whose aut-nums
/// name it in `member-of`, on the same condition of the aut-num's `mnt-by`; `AS-ANY` refers to all
/// that have an aut-num.
///
/// A set's name that is reached is missing if no set of this name is registered and it is neither
/// `AS-ANY` nor `RS-ANY`. Both lists are in ascending order, without repeats.
///
/// The fault is `NoSuchSet` exactly where the name asked for is missing itself. For any other name
/// it is `TooMany` exactly in two cases. More than `limit` sets and ASes are reached, itself among
/// them, or there are more than `limit` pairs of one reached and a range that it stands for.
/// Whatever is reached, the fault may be instead that memory ran out; when it is, no clause says.
///
/// The steps outside the book are O((P + KR + F) log P). P counts those pairs, the sets reached,
/// and the routes of each AS reached. Of each set reached it counts the members, listed or by
/// reference, and the names in its `mbrs-by-ref` and in `mnt-by` of its referrers. R counts the
/// references of the sets reached, and K the least lengths that ranges of one set have, at most 33.
/// F counts, of each set and each other to which it refers, the ranges that the references make.
/// One without operator makes each range of the other. Those with operators together make, of each
/// prefix and least length there, each range once. The m route-sets that each list all the others
/// under all operators, and `0.0.0.0/0`, have 561m pairs, as that prefix has 561 ranges. F is about
/// 7,100m²: 561 without operator and 6,545 with, for each two sets. The book is asked once for the
/// object of each set reached, at most twice for the `referrers` of each that has `mbrs-by-ref`,
/// and at most once for the prefixes of each AS reached. If sets refer to each other in a ring, it
/// is asked at most three times for referrers, and twice for prefixes. No clause counts steps or
/// questions.
pub fn expand_route_set<B: SetBook>(
    alloc: Global,
    book: &B,
    name: &SetName,
    limit: usize,
) -> Result<Members<Range>, ExpandFault>
    ensures { Expands range_cmp (route_set_at (B.contents book.now) limit name.now) result }
{
    let set = registered_set(alloc, book, name)?;
    if !is_known(name, set) {
        return Err(ExpandFault::NoSuchSet);
    }
    expand_known(alloc, book, name, set, limit)
}

/// Lists what a set that there is stands for; `set` is its object, if it is registered.
fn expand_known<'a, B: SetBook>(
    alloc: Global,
    book: &'a B,
    name: &SetName,
    set: Option<&'a Object>,
    limit: usize,
) -> Result<Members<Range>, ExpandFault>
    requires { FindsSet (B.contents book.now) (MemberSet.Set name.now) (option_copied set) }
    ensures { has_set (B.contents book.now) name.now ≡ true
        → Expands range_cmp (route_set_at (B.contents book.now) limit name.now) result }
{
    let gathered = gathered(alloc, book, name, set, limit)?;
    let missing = sorted(
        alloc,
        missing_names(alloc, &gathered.nodes, &gathered.looks)?,
    )?;
    Ok(Members {
        found: gathered.values,
        missing,
    })
}

/// Sets and the references between them. The ranges of a set are its own values, and operators pass
/// them on.
#[derive(Drop)]
struct RouteSets<'a, B: SetBook> {
    book: &'a B,
}

impl<'a, B: SetBook> Labelled for RouteSets<'a, B> {
    ghost use Rattle.rr_number.specs.Applied.{applied};
    ghost use Rattle.rr_sets.specs.RouteSets.{FindsSet, HasRange, Refers};
    ghost use Rattle.std.specs.Option.{option_copied};
    ghost use Rattle.std.proofs.lemmas.Map.Lookups.{exact_unsigned};
    ghost use Rattle.rr_sets.specs.Orders.{applied_alike, applied_dropped, applied_same};
    ghost use Rattle.rr_sets.specs.Orders.{exact_member_sets, exact_prefixes, exact_ranges};
    ghost use Rattle.rr_sets.specs.Orders.{is_plain, least_of, prefix_of};

    type Node = MemberSet;

    type Look = Option<&'a Object>;

    type Label = Operator;

    type Value = Range;

    type Kind = u8;

    type Group = Prefix;

    ghost shows = { λ s set object. FindsSet (B.contents s.book.now) set (option_copied object) };

    ghost edge = { λ s. Refers (B.contents s.book.now) };

    ghost own = { λ s. HasRange (B.contents s.book.now) };

    ghost passed = { applied };

    ghost keeps = { is_plain };

    ghost kind_of = { least_of };

    ghost group_of = { prefix_of };

    ghost exact_nodes = { exact_member_sets };

    ghost exact_values = { exact_ranges };

    ghost exact_kinds = { exact_unsigned };

    ghost exact_groups = { exact_prefixes };

    ghost alike = { applied_alike };

    ghost dropped = { applied_dropped };

    ghost same = { applied_same };

    fn edges(
        &self,
        alloc: Global,
        set: &MemberSet,
        object: &Option<&'a Object>,
    ) -> Result<Vec<Reference>, AllocError> {
        references_of(alloc, self.book, set, *object)
    }

    fn values(
        &self,
        alloc: Global,
        set: &MemberSet,
        object: &Option<&'a Object>,
    ) -> Result<Vec<Range>, AllocError> {
        match set {
            MemberSet::AutNum(number) => ranges_of_origin(alloc, self.book, *number),
            MemberSet::Set(name) => ranges_in(alloc, self.book, name, *object),
        }
    }

    fn pass(&self, operator: Operator, range: Range) -> Option<Range> {
        operator.apply(range)
    }

    fn keeps(&self, operator: Operator) -> bool {
        matches!(operator, Operator::Plain)
    }

    fn kind(&self, range: Range) -> u8 {
        range.low()
    }

    fn group(&self, range: Range) -> Prefix {
        range.prefix()
    }

    fn copy(&self, alloc: Global, set: &MemberSet) -> Result<MemberSet, AllocError> {
        copy_of(alloc, set)
    }
}

impl<'a, B: SetBook> LabelledGraph for RouteSets<'a, B> {
    fn look(&self, alloc: Global, set: &MemberSet) -> Result<Option<&'a Object>, AllocError> {
        match set {
            MemberSet::AutNum(_) => Ok(None),
            MemberSet::Set(name) => registered_set(alloc, self.book, name),
        }
    }
}

/// The sets that references lead to, with the objects of those that are registered, and the ranges
/// of the set, whose object is `set`.
fn gathered<'a, B: SetBook>(
    alloc: Global,
    book: &'a B,
    name: &SetName,
    set: Option<&'a Object>,
    limit: usize,
) -> Result<NodesAndValues<MemberSet, Option<&'a Object>, Range>, ReachFault>
    requires { FindsSet (B.contents book.now) (MemberSet.Set name.now) (option_copied set) }
    ensures { FindsWithin (IsGatheredFrom (Refers (B.contents book.now))
        (HasRange (B.contents book.now)) applied
        (λ set object. FindsSet (B.contents book.now) set (option_copied object)) range_cmp
        (MemberSet.Set name.now)) (HasTooMany (B.contents book.now) limit name.now) result }
{
    let start = MemberSet::Set(name.copy(alloc)?);
    gather(alloc, &RouteSets { book }, &start, set, limit)
}

/// The names of those of the sets that there are not; `objects` has those of the sets that are
/// registered, each at the place of its set.
fn missing_names(
    alloc: Global,
    sets: &[MemberSet],
    objects: &[Option<&Object>],
) -> Result<Vec<SetName>, AllocError>
    requires { length objects.now ≡ length sets.now }
    ensures { IfOk result (λ missing. (r : Reg)
        → AreLooks (λ set object. FindsSet r set (option_copied object)) sets.now objects.now
        → missing.items ≡ filter_map (missing_name r) sets.now) }
{
    let mut missing = Vec::new(alloc);
    for (place, set) in sets.iter().enumerate() {
        if let Some(name) = missing_name(set, objects[place]) {
            missing.push(name.copy(alloc)?)?;
        }
    }
    Ok(missing)
}

/// The name of a set that there is not; `object` is the set's, if it is registered.
fn missing_name<'s>(set: &'s MemberSet, object: Option<&Object>) -> Option<&'s SetName>
    ensures { (r : Reg) → FindsSet r set.now (option_copied object.entry)
        → option_copied result ≡ missing_name r set.now }
{
    match set {
        MemberSet::AutNum(_) => None,
        MemberSet::Set(name) => {
            if is_known(name, object) {
                None
            } else {
                Some(name)
            }
        }
    }
}
