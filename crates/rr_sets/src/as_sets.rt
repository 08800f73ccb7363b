//! The expansion of as-sets into AS numbers, for `rr_answer`; and the names that as-sets list, for
//! `references`.

ghost use Rattle.std.specs.Prelude.{◌≡◌, ◌↔◌, ◌||◌, ◌++◌, ◌∷◌, [], ℕ, List, not, true, false};
ghost use Rattle.std.specs.Prelude.{Contains, IfOk, OnOk, filter, is_some, map};
ghost use Rattle.std.specs.BTreeSet.{IsFromIterResult};
ghost use Rattle.std.specs.Cmp.Lexicographic.{slice_cmp};
ghost use Rattle.std.specs.FinMap.{get};
ghost use Rattle.std.specs.Option.{option_copied};
ghost use Rattle.std.specs.Ordering.{nat_cmp};
ghost use Rattle.std.specs.List.{filter_map};
ghost use Rattle.std.specs.Str.{bytes_eq};
ghost use Rattle.rr_number.specs.AnySets.{as_any};
ghost use Rattle.rr_object.specs.declared.key.Key.TheVariants.{AsSet};
ghost use Rattle.rr_auth.specs.Registries.{LooksUp, Reg};
ghost use Rattle.rr_graph.specs.Answered.{FindsWithin, IsWalk, ListsInOrder, PutsInOrder};
ghost use Rattle.rr_graph.specs.Chain.{MoreThan};
ghost use Rattle.rr_graph.specs.Looks.{AreLooks};
ghost use Rattle.rr_sets.specs.AsSets.{IsDirect, IsReachedSet, ListsSet, has_as_set};
ghost use Rattle.rr_sets.specs.SetMeanings.{Expands, as_set_at};
ghost use Rattle.rr_sets.specs.SetObjects.{set_listed};

use crate::book::SetBook;
use crate::direct::{as_set, direct_numbers};
use crate::members::{ExpandFault, Members};
use rr_graph::{Graph, Nodes, ReachFault, Visits, ascending, reach};
use rr_number::{AsNumber, SetName};
use rr_object::{Member, MemberSet, Object};
use std::alloc::{AllocError, Global};
use std::collections::BTreeSet;

/// Lists exactly the AS numbers that an as-set stands for: those that are in a set that it reaches.
/// It reaches its own name, and each set's name in the `members` of a registered as-set whose name
/// it reaches. A number is in a registered as-set that lists it. It is also in one that its aut-num
/// names in `member-of`, if the `mbrs-by-ref` of that set has `ANY` or a maintainer in the
/// aut-num's `mnt-by`. In `AS-ANY` are all numbers that have an aut-num (RFC 2622, 5). A name that
/// is reached is missing if no as-set of this name is registered and it is not `AS-ANY`. Both lists
/// are in ascending order, without repeats.
///
/// The fault is `NoSuchSet` exactly where the name asked for is missing itself. For any other name
/// it is `TooMany` exactly where more than `limit` names are reached, itself among them. Whatever
/// is reached, the fault may be instead that memory ran out; when it is, no clause says.
///
/// The steps outside the book are O(n log n). n counts the names reached, the members of each,
/// listed or by reference, and the names in its `mbrs-by-ref` and in `mnt-by` of its referrers. The
/// book is asked once for the as-set of each name reached, and once for the `referrers` of each
/// that has `mbrs-by-ref`. No clause counts steps or questions.
pub fn expand_as_set<B: SetBook>(
    alloc: Global,
    book: &B,
    name: &SetName,
    limit: usize,
) -> Result<Members<AsNumber>, ExpandFault>
    ensures { Expands nat_cmp (as_set_at (B.contents book.now) limit name.now) result }
{
    let set = as_set(alloc, book, name)?;
    if !is_known(name, set) {
        return Err(ExpandFault::NoSuchSet);
    }
    expand_known(alloc, book, name, set, limit)
}

/// Lists what a set that there is stands for; `set` is its object, if it is registered.
fn expand_known<'a, B: SetBook>(
    alloc: Global,
    book: &'a B,
    name: &SetName,
    set: Option<&'a Object>,
    limit: usize,
) -> Result<Members<AsNumber>, ExpandFault>
    requires { LooksUp (B.contents book.now) (AsSet name.now) (option_copied set) }
    ensures { has_as_set (B.contents book.now) name.now ≡ true
        → Expands nat_cmp (as_set_at (B.contents book.now) limit name.now) result }
{
    let reached = reached_sets(alloc, book, name, set, limit)?;
    let members = members_of(alloc, book, &reached.nodes, &reached.looks)?;
    Ok(members)
}

/// What is in one of the sets itself, and which of the names are not an as-set's; `sets` has the
/// objects of those that are registered, each at the place of its name.
fn members_of<B: SetBook>(
    alloc: Global,
    book: &B,
    names: &[SetName],
    sets: &[Option<&Object>],
) -> Result<Members<AsNumber>, AllocError>
    requires { AreLooks (λ name set. LooksUp (B.contents book.now) (AsSet name)
        (option_copied set)) names.now sets.now }
    ensures found { IfOk result (λ members. ListsInOrder nat_cmp (λ n. (s : List ℕ)
        × Contains names.now s × IsDirect (B.contents book.now) s n) members.found.items) }
    ensures missing { IfOk result (λ members. ListsInOrder (slice_cmp nat_cmp) (λ s. Contains
        names.now s × (has_as_set (B.contents book.now) s ≡ false)) members.missing.items) }
{
    let Members { found, missing } = own_members(alloc, book, names, sets)?;
    let found = sorted(alloc, found)?;
    let missing = sorted(alloc, missing)?;
    Ok(Members { found, missing })
}

/// The names of as-sets. An edge leads from a registered one to each name that it lists.
#[derive(Drop)]
struct AsSets<'a, B: SetBook> {
    book: &'a B,
}

impl<B: SetBook> Nodes for AsSets<'_, B> {
    ghost use Rattle.std.proofs.lemmas.Map.Lookups.{exact_bytes};

    type Node = SetName;

    ghost exact = { exact_bytes };

    fn copy(&self, alloc: Global, name: &SetName) -> Result<SetName, AllocError> {
        name.copy(alloc)
    }
}

impl<'a, B: SetBook> Graph for AsSets<'a, B> {
    type Look = Option<&'a Object>;

    ghost edge = { λ s. ListsSet (B.contents s.book.now) };

    ghost shows = { λ s name set. LooksUp (B.contents s.book.now) (AsSet name)
        (option_copied set) };

    fn look(&self, alloc: Global, name: &SetName) -> Result<Option<&'a Object>, AllocError> {
        as_set(alloc, self.book, name)
    }

    fn successors<'l>(
        &self,
        alloc: Global,
        set: &'l Option<&'a Object>,
    ) -> Result<Vec<&'l SetName>, AllocError> {
        names_listed(alloc, *set)
    }
}

/// The names that chains of listed names lead to, with the objects of those that are registered;
/// `set` is that of the first.
fn reached_sets<'a, B: SetBook>(
    alloc: Global,
    book: &'a B,
    name: &SetName,
    set: Option<&'a Object>,
    limit: usize,
) -> Result<Visits<SetName, Option<&'a Object>>, ReachFault>
    requires { LooksUp (B.contents book.now) (AsSet name.now) (option_copied set) }
    ensures { FindsWithin (IsWalk (ListsSet (B.contents book.now))
        (λ name set. LooksUp (B.contents book.now) (AsSet name) (option_copied set))
        (name.now ∷ [])) (MoreThan limit (IsReachedSet (B.contents book.now) name.now)) result }
{
    let start = name.copy(alloc)?;
    reach(alloc, &AsSets { book }, start, set, limit)
}

/// The names of sets that an as-set lists, where it is registered.
pub(crate) fn names_listed<'a>(
    alloc: Global,
    set: Option<&'a Object>,
) -> Result<Vec<&'a SetName>, AllocError>
    ensures { IfOk result (λ names. (r : Reg) (name : List ℕ)
        → option_copied set.entry ≡ get r (AsSet name) → (listed : List ℕ)
        → Contains (map (λ n. n.now) names.items) listed ↔ ListsSet r name listed) }
{
    match set {
        Some(object) => sets_listed(alloc, object.members()),
        None => Ok(Vec::new(alloc)),
    }
}

/// The names of sets among the members.
fn sets_listed(alloc: Global, members: &[Member]) -> Result<Vec<&SetName>, AllocError>
    ensures { IfOk result
        (λ names. map (λ n. n.now) names.items ≡ filter_map set_listed members.now) }
{
    let mut names = Vec::new(alloc);
    for member in members {
        if let Some(name) = set_listed(member) {
            names.push(name)?;
        }
    }
    Ok(names)
}

/// The name of a set that the member is.
fn set_listed(member: &Member) -> Option<&SetName>
    ensures { option_copied result ≡ set_listed member.now }
{
    match member {
        Member::Set(MemberSet::Set(name), _) => Some(name),
        _ => None,
    }
}

/// Whether a set of the name is registered, or it is `AS-ANY`.
fn is_known(name: &SetName, set: Option<&Object>) -> bool
    ensures { result ≡ (is_some (option_copied set.entry) || bytes_eq name.now as_any) }
{
    set.is_some() || name.is_as_any()
}

/// The AS numbers that are in one of the sets itself, where one may come twice, and those of the
/// names that are not an as-set's; `sets` is as for `members_of`.
fn own_members<B: SetBook>(
    alloc: Global,
    book: &B,
    names: &[SetName],
    sets: &[Option<&Object>],
) -> Result<Members<AsNumber>, AllocError>
    requires { AreLooks (λ name set. LooksUp (B.contents book.now) (AsSet name)
        (option_copied set)) names.now sets.now }
    ensures found { IfOk result (λ members. (n : ℕ) → Contains members.found.items n
        ↔ ((s : List ℕ) × Contains names.now s × IsDirect (B.contents book.now) s n)) }
    ensures missing { IfOk result (λ members. members.missing.items
        ≡ filter (λ s. not (has_as_set (B.contents book.now) s)) names.now) }
{
    let mut found = Vec::new(alloc);
    let mut missing = Vec::new(alloc);
    for (place, name) in names.iter().enumerate() {
        let set = sets[place];
        found.extend_from_slice(&direct_numbers(alloc, book, name, set)?)?;
        add_missing(alloc, &mut missing, name, set)?;
    }
    Ok(Members { found, missing })
}

/// Adds a name that is not an as-set's; `set` is its object, if it is registered.
fn add_missing(
    alloc: Global,
    missing: &mut Vec<SetName>,
    name: &SetName,
    set: Option<&Object>,
) -> Result<(), AllocError>
    ensures { OnOk result ((r : Reg) → option_copied set.entry ≡ get r (AsSet name.now)
        → missing.new.items ≡ missing.old.items
        ++ filter (λ s. not (has_as_set r s)) (name.now ∷ [])) }
{
    if is_known(name, set) {
        return Ok(());
    }
    missing.push(name.copy(alloc)?)?;
    Ok(())
}

/// The list in ascending order, without repeats.
pub(crate) fn sorted<T: Ord + Drop>(alloc: Global, list: Vec<T>) -> Result<Vec<T>, AllocError>
    ensures { IfOk result (λ sorted. PutsInOrder T.cmp list.items sorted.items) }
{
    ascending(alloc, distinct(alloc, list)?)
}

/// The set of what the list has.
fn distinct<T: Ord + Drop>(alloc: Global, list: Vec<T>) -> Result<BTreeSet<T>, AllocError>
    ensures { IfOk result (λ set. IsFromIterResult T.cmp list.items set) }
{
    list.into_iter().collect(alloc)
}
