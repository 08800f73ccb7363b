//! The AS numbers that are in an as-set itself, without those of the sets that it lists: for both
//! expansions.

ghost use Rattle.std.specs.Prelude.{◌≡◌, ◌↔◌, ◌⊎◌, ℕ, Contains, IfOk};
ghost use Rattle.std.specs.List.{filter_map};
ghost use Rattle.std.specs.Option.{option_copied};
ghost use Rattle.rr_auth.specs.Registries.{LooksUp};
ghost use Rattle.rr_sets.specs.AsSets.{BelongsTo, IsAnyNumber, IsDirect, ListsNumber};
ghost use Rattle.rr_sets.specs.KeyParts.{number_of_key};
ghost use Rattle.rr_sets.specs.SetObjects.{number_listed};

use crate::book::SetBook;
use crate::by_reference::belonging;
use rr_number::{AsNumber, SetName};
use rr_object::{Key, Member, MemberSet, Object};
use std::alloc::{AllocError, Global};

/// The AS numbers that are in the set itself, where one may come twice; `set` is its object, if it
/// is registered.
pub(crate) fn direct_numbers<B: SetBook>(
    alloc: Global,
    book: &B,
    name: &SetName,
    set: Option<&Object>,
) -> Result<Vec<AsNumber>, AllocError>
    requires { LooksUp (B.contents book.now) (Key.AsSet name.now) (option_copied set) }
    ensures { IfOk result (λ numbers. (n : ℕ)
        → Contains numbers.items n ↔ IsDirect (B.contents book.now) name.now n) }
{
    let mut numbers = registered_numbers(alloc, book, name, set)?;
    numbers.extend_from_slice(&any_numbers(alloc, book, name)?)?;
    Ok(numbers)
}

/// The AS numbers that a registered set lists, and those whose aut-nums belong to it by their own
/// word.
fn registered_numbers<B: SetBook>(
    alloc: Global,
    book: &B,
    name: &SetName,
    set: Option<&Object>,
) -> Result<Vec<AsNumber>, AllocError>
    requires { LooksUp (B.contents book.now) (Key.AsSet name.now) (option_copied set) }
    ensures { IfOk result (λ numbers. (n : ℕ) → Contains numbers.items n ↔ (ListsNumber
        (B.contents book.now) name.now n ⊎ BelongsTo (B.contents book.now) name.now n)) }
{
    match set {
        Some(object) => {
            let mut numbers = numbers_listed(alloc, object.members())?;
            let objects = belonging(alloc, book, name, object)?;
            numbers.extend_from_slice(&numbers_of(alloc, &objects)?)?;
            Ok(numbers)
        }
        None => Ok(Vec::new(alloc)),
    }
}

/// The AS numbers of `AS-ANY`; none for another set.
fn any_numbers<B: SetBook>(
    alloc: Global,
    book: &B,
    name: &SetName,
) -> Result<Vec<AsNumber>, AllocError>
    ensures { IfOk result (λ numbers. (n : ℕ)
        → Contains numbers.items n ↔ IsAnyNumber (B.contents book.now) name.now n) }
{
    if name.is_as_any() {
        numbers_of(alloc, &book.aut_nums(alloc)?)
    } else {
        Ok(Vec::new(alloc))
    }
}

/// The registered as-set of the name in a book, which is sound; the error is that memory ran out.
pub(crate) fn as_set<'a, B: SetBook>(
    alloc: Global,
    book: &'a B,
    name: &SetName,
) -> Result<Option<&'a Object>, AllocError>
    ensures { IfOk result (λ object.
        LooksUp (B.contents book.now) (Key.AsSet name.now) (option_copied object)) }
{
    let key = Key::AsSet(name.copy(alloc)?);
    Ok(book.get(&key))
}

/// The AS numbers among the members.
fn numbers_listed(alloc: Global, members: &[Member]) -> Result<Vec<AsNumber>, AllocError>
    ensures { IfOk result (λ numbers. numbers.items ≡ filter_map number_listed members.now) }
{
    members
        .iter()
        .filter_map(|member| number_listed(member))
        .collect(alloc)
}

/// The AS number that the member is.
fn number_listed(member: &Member) -> Option<AsNumber>
    ensures { result ≡ number_listed member.now }
{
    match member {
        Member::Set(MemberSet::AutNum(number), _) => Some(*number),
        _ => None,
    }
}

/// The AS numbers of those objects that are aut-nums.
fn numbers_of(alloc: Global, objects: &[&Object]) -> Result<Vec<AsNumber>, AllocError>
    ensures { IfOk result
        (λ numbers. numbers.items ≡ filter_map (λ o. number_of_key o.now.key) objects.now) }
{
    objects
        .iter()
        .filter_map(|object| number_of(object))
        .collect(alloc)
}

/// The number of an aut-num.
fn number_of(object: &Object) -> Option<AsNumber>
    ensures { result ≡ number_of_key object.now.key }
{
    match object.key() {
        Key::AutNum(number) => Some(*number),
        _ => None,
    }
}
