//! Reading items of `mnt-by`, `mnt-lower`, `mbrs-by-ref`, `member-of`, `members` and `auth`, for
//! `object_reading`. The error `BadValue` says that an item is badly spelled, and `Memory` that
//! memory ran out.

ghost use Rattle.std.specs.Prelude.{◌≡◌, ◌≢◌, IfErr, IfOk, None, Some};
ghost use Rattle.rr_number.specs.SetNames.{set_name_of};
ghost use Rattle.rr_object.specs.Auths.{auth_item};
ghost use Rattle.rr_object.specs.Members.{as_set_item, is_as_set_kind, is_in_as_sets};
ghost use Rattle.rr_object.specs.Members.{maintainer_item, operated_set, by_ref_item};
ghost use Rattle.rr_object.specs.Members.{route_set_item, set_item, member_set_of};
ghost use Rattle.rr_object.specs.declared.object_fault.ObjectFault.TheVariants.{BadValue, Memory};

use crate::auth::Auth;
use crate::auths::read_auth;
use crate::grants::{is_any, read_maintainer, read_range};
use crate::item::ReadItem;
use crate::member::{Member, MemberSet};
use crate::object_fault::ObjectFault;
use rr_bytes::cut_before;
use rr_number::{AsNumber, Name, Operator, SetKind, SetName};
use std::alloc::Global;

/// Maintainers' names.
pub(crate) struct Maintainers;

impl ReadItem for Maintainers {
    type Item = Name;

    ghost item_of = { maintainer_item };

    fn read_item(alloc: Global, item: &[u8]) -> Result<Option<Name>, ObjectFault> {
        Ok(Some(read_maintainer(alloc, item)?))
    }
}

/// Maintainers' names, and `ANY`, which is none.
pub(crate) struct ByRefNames;

impl ReadItem for ByRefNames {
    type Item = Name;

    ghost item_of = { by_ref_item };

    fn read_item(alloc: Global, item: &[u8]) -> Result<Option<Name>, ObjectFault> {
        if is_any(item) {
            return Ok(None);
        }
        Ok(Some(read_maintainer(alloc, item)?))
    }
}

/// Names of sets.
pub(crate) struct Sets;

impl ReadItem for Sets {
    type Item = SetName;

    ghost item_of = { set_item };

    fn read_item(alloc: Global, item: &[u8]) -> Result<Option<SetName>, ObjectFault> {
        Ok(Some(read_set_name(alloc, item)?))
    }
}

/// Values of `auth`.
pub(crate) struct Auths;

impl ReadItem for Auths {
    type Item = Auth;

    ghost item_of = { auth_item };

    fn read_item(alloc: Global, item: &[u8]) -> Result<Option<Auth>, ObjectFault> {
        read_auth(alloc, item)
    }
}

/// Members of as-sets.
pub(crate) struct AsSetMembers;

impl ReadItem for AsSetMembers {
    type Item = Member;

    ghost item_of = { as_set_item };

    #[tactic(auto, unfolding(crate::specs::Members::as_set_item))]
    fn read_item(alloc: Global, item: &[u8]) -> Result<Option<Member>, ObjectFault> {
        let set = read_set(alloc, item)?;
        if is_in_as_sets(&set) {
            Ok(Some(Member::Set(set, Operator::Plain)))
        } else {
            Err(ObjectFault::BadValue)
        }
    }
}

/// Members of route-sets.
pub(crate) struct RouteSetMembers;

impl ReadItem for RouteSetMembers {
    type Item = Member;

    ghost item_of = { route_set_item };

    #[tactic(auto, unfolding(crate::specs::Members::route_set_item))]
    fn read_item(alloc: Global, item: &[u8]) -> Result<Option<Member>, ObjectFault> {
        match read_range(item) {
            Ok(Some(range)) => Ok(Some(Member::Range(range))),
            Ok(None) => Ok(None),
            Err(_) => Ok(Some(read_operated_set(alloc, item)?)),
        }
    }
}

/// Whether as-sets may list it: an AS number, or an as-set.
fn is_in_as_sets(set: &MemberSet) -> bool
    ensures { result ≡ is_in_as_sets set.now }
{
    match set {
        MemberSet::AutNum(_) => true,
        MemberSet::Set(name) => is_as_set_kind(name.kind()),
    }
}

/// Whether sets of a kind are as-sets.
pub(crate) fn is_as_set_kind(kind: SetKind) -> bool
    ensures { result ≡ is_as_set_kind kind }
{
    match kind {
        SetKind::AsSet => true,
        SetKind::RouteSet => false,
    }
}

/// The set's name that an item spells.
fn read_set_name(alloc: Global, item: &[u8]) -> Result<SetName, ObjectFault>
    ensures good { IfOk result (λ name. set_name_of item.now ≡ Some name) }
    ensures bad { IfErr result
        (λ fault. fault ≢ Memory → (fault ≡ BadValue) × (set_name_of item.now ≡ None)) }
{
    match SetName::read(alloc, item)? {
        Some(name) => Ok(name),
        None => Err(ObjectFault::BadValue),
    }
}

/// The AS number or the set that an item names.
#[tactic(auto, unfolding(crate::specs::Members::member_set_of))]
fn read_set(alloc: Global, item: &[u8]) -> Result<MemberSet, ObjectFault>
    ensures good { IfOk result (λ set. member_set_of item.now ≡ Some set) }
    ensures bad { IfErr result
        (λ fault. fault ≢ Memory → (fault ≡ BadValue) × (member_set_of item.now ≡ None)) }
{
    match AsNumber::read(item) {
        Some(number) => Ok(MemberSet::AutNum(number)),
        None => Ok(MemberSet::Set(read_set_name(alloc, item)?)),
    }
}

/// The set that an item names, with its operator.
#[tactic(auto, unfolding(crate::specs::Members::operated_set))]
fn read_operated_set(alloc: Global, item: &[u8]) -> Result<Member, ObjectFault>
    ensures good { IfOk result (λ member. operated_set item.now ≡ Some member) }
    ensures bad { IfErr result
        (λ fault. fault ≢ Memory → (fault ≡ BadValue) × (operated_set item.now ≡ None)) }
{
    let (name, operator) = cut_before(item, b'^');
    let set = read_set(alloc, name)?;
    match Operator::read(operator) {
        Some(operator) => Ok(Member::Set(set, operator)),
        None => Err(ObjectFault::BadValue),
    }
}
