//! Lists of objects taken as registries: those of a new registry, of a dump that is loaded, and of
//! the rows of a database.

ghost use Rattle.std.specs.Prelude.{◌≡◌, ◌||◌, ◌<◌, ℕ, List};
ghost use Rattle.std.specs.Prelude.{IfOk, IfSome, MatchResult, OnOk, length, not, position};
ghost use Rattle.std.specs.BTreeSet.{contains};
ghost use Rattle.std.specs.Cmp.Lexicographic.{slice_cmp};
ghost use Rattle.std.specs.List.{list_any};
ghost use Rattle.std.specs.Ordering.{nat_cmp};
ghost use Rattle.rr_object.specs.Objects.{names_of};
ghost use Rattle.rr_object.specs.Keys.{is_mntner_of};
ghost use Rattle.rr_registry.specs.Private.{IsClashOf, IsGathered};

use crate::gathered::Gathered;
use crate::key_order::are_gathered;
use crate::registry::Registry;
use rr_book::Keeper;
use rr_number::Name;
use rr_object::{Key, Object};
use std::alloc::{AllocError, Global};
use std::collections::BTreeSet;

/// Why a list of objects is not taken as a registry. Objects are counted from 1.
#[derive(Clone, Copy, Debug, PartialEq, Eq)]
pub enum LoadFault {
    /// The key of this object is that of an object before it.
    Duplicate(u64),
    /// The span of this object crosses that of an object of its class before it.
    Overlap(u64),
    /// This object names a maintainer whose mntner is not in the list.
    Unnamed(u64),
    /// Memory ran out.
    Memory,
}

/// The fault is that memory ran out.
impl From<AllocError> for LoadFault {
    ghost use Rattle.std.specs.Prelude.{◌≡◌};
    ghost use Rattle.rr_registry.specs.declared.load.LoadFault.TheVariants.{Memory};

    ghost from_gives = { λ _ fault. fault ≡ Memory };

    fn from(_refused: AllocError) -> LoadFault {
        LoadFault::Memory
    }
}

impl<B: Keeper> Registry<B> {
    ghost use Rattle.rr_auth.specs.Registries.{Sound};
    ghost use Rattle.rr_registry.specs.Loading.{IsFaultOf, IsTaken};

    /// The registry of all these objects, which is sound; there is one only if the list has no
    /// fault. The fault is of the first object in the list that has the key of one before it or
    /// crosses one before it. It is `Duplicate` if that object does both. If there is none, it is
    /// of the first that names a maintainer whose mntner is not in the list (profile). Or memory
    /// ran out, with any list. For n objects and names in them it takes O(n log n) steps, which no
    /// clause says.
    #[tactic(auto, using(crate::proofs::Gathering::clash_is_fault))]
    pub fn from_objects(alloc: Global, objects: Vec<Object>) -> Result<Registry<B>, LoadFault>
        ensures taken { MatchResult result (IsTaken objects.items) (IsFaultOf objects.items) }
        ensures sound { IfOk result Sound }
    {
        let unnamed = first_unnamed(alloc, &objects)?;
        let gathered = gather(alloc, objects)?;
        match unnamed {
            Some(i) => Err(LoadFault::Unnamed(i as u64 + 1)),
            None => Ok(Registry::of(alloc, B::of(alloc, gathered)?)),
        }
    }
}

/// The names of the mntners among the objects; the error is that memory ran out.
fn names_of_mntners(alloc: Global, objects: &[Object]) -> Result<BTreeSet<Name>, AllocError>
    ensures { IfOk result (λ mntners. (name : List ℕ) → contains
        (slice_cmp nat_cmp) mntners name ≡ list_any (λ o. is_mntner_of name o.key) objects.now) }
{
    let mut mntners = BTreeSet::new(alloc);
    for object in objects {
        add_mntner(alloc, &mut mntners, object.key())?;
    }
    Ok(mntners)
}

/// Adds the name of the key to the mntners, where it is that of one; the error is that memory ran
/// out.
fn add_mntner(alloc: Global, mntners: &mut BTreeSet<Name>, key: &Key) -> Result<(), AllocError>
    ensures { OnOk result ((name : List ℕ) → contains (slice_cmp nat_cmp) mntners.new name
        ≡ (contains (slice_cmp nat_cmp) mntners.old name || is_mntner_of name key.now)) }
{
    match key {
        Key::Mntner(name) => {
            mntners.insert(name.copy(alloc)?)?;
            Ok(())
        }
        _ => Ok(()),
    }
}

/// The place of the first object that names a maintainer who is not among the objects; none if
/// there is no such object. The error is that memory ran out.
fn first_unnamed(alloc: Global, objects: &[Object]) -> Result<Option<usize>, AllocError>
    ensures value { IfOk result (λ place. place ≡ position (λ o. list_any
        (λ n. not (list_any (λ x. is_mntner_of n x.key) objects.now)) (names_of o)) objects.now) }
    ensures within { IfOk result (λ place. IfSome place (λ i. i < length objects.now)) }
{
    let mntners = names_of_mntners(alloc, objects)?;
    Ok(first_without(objects, &mntners))
}

/// The place of the first object that names a maintainer who is not one of these.
fn first_without(objects: &[Object], mntners: &BTreeSet<Name>) -> Option<usize>
    ensures value { result ≡ position (λ o. list_any
        (λ n. not (contains (slice_cmp nat_cmp) mntners.now n)) (names_of o)) objects.now }
    ensures within { IfSome result (λ i. i < length objects.now) }
{
    objects
        .iter()
        .position(|object| names_unknown(object, mntners))
}

/// Whether the object names a maintainer who is not one of these.
fn names_unknown(object: &Object, mntners: &BTreeSet<Name>) -> bool
    ensures { result ≡ list_any (λ n. not (contains (slice_cmp nat_cmp) mntners.now n))
        (names_of object.now) }
{
    object
        .maintainers_named()
        .any(|name| !mntners.contains(name))
}

/// The objects in order; or the first whose key stands twice or whose span crosses one before it,
/// or that memory ran out. Those that stand so already are not put together.
fn gather(alloc: Global, objects: Vec<Object>) -> Result<Vec<Object>, LoadFault>
    ensures { MatchResult result (λ gathered. IsGathered objects.items gathered.items)
        (IsClashOf objects.items) }
{
    if are_gathered(alloc, &objects)? {
        return Ok(objects);
    }
    put_in_order(alloc, objects)
}

/// The objects in order; or the first whose key stands twice or whose span crosses one before it,
/// or that memory ran out.
#[tactic(auto, using(crate::proofs::Gathering::clash_next))]
fn put_in_order(alloc: Global, objects: Vec<Object>) -> Result<Vec<Object>, LoadFault>
    ensures { MatchResult result (λ gathered. IsGathered objects.items gathered.items)
        (IsClashOf objects.items) }
{
    let mut gathered = Gathered::new(alloc);
    let mut n = 0;
    for object in objects {
        n += 1;
        gathered.take_in(alloc, n, object)?;
    }
    Ok(gathered.into_objects(alloc)?)
}
