//! Reading entries of `mnt-routes`, for `object_reading`; and maintainers' names, ranges and `ANY`
//! as items, also for `members`. The error `BadValue` says that items are badly spelled, and
//! `Memory` that memory ran out.

ghost use Rattle.std.specs.Prelude.{◌≡◌, ◌≢◌, ◌++◌, map, IfErr, IfOk, None, OnOk};
ghost use Rattle.std.specs.Prelude.{Some};
ghost use Rattle.std.specs.Option.{option_to_list};
ghost use Rattle.rr_number.specs.Names.{maintainer_name_of};
ghost use Rattle.rr_object.specs.Grants.{grants_of, is_any, last_grant, next_grant, range_item};
ghost use Rattle.rr_object.specs.declared.object_fault.ObjectFault.TheVariants.{BadValue, Memory};
ghost use Rattle.rr_object.specs.declared.grants.OpenGrant.TheVariants.{Braced, Named};

use crate::grant::Grant;
use crate::object_fault::ObjectFault;
use rr_bytes::is_keyword;
use rr_number::{Name, Range, read_ranged};
use std::alloc::{AllocError, Global};

/// What was read of an entry.
#[derive(Debug, Drop)]
pub(crate) enum OpenGrant {
    /// Nothing.
    Nothing,
    /// Its maintainer.
    Named(Name),
    /// Its maintainer, an opening brace and ranges.
    Braced(Grant),
}

/// The entries that the items spell.
#[tactic(auto, unfolding(crate::specs::Grants::grants_after))]
pub(crate) fn read_grants(alloc: Global, listed: &[&[u8]]) -> Result<Vec<Grant>, ObjectFault>
    ensures good { IfOk result
        (λ read. grants_of (map (λ item. item.now) listed.now) ≡ Some read.items) }
    ensures bad { IfErr result (λ fault. fault ≢ Memory
        → (fault ≡ BadValue) × (grants_of (map (λ item. item.now) listed.now) ≡ None)) }
{
    let mut read = Vec::new(alloc);
    let mut open_grant = OpenGrant::Nothing;
    'items: for item in listed {
        let (ended, next) = next_grant(alloc, open_grant, item)?;
        push_ended(&mut read, ended)?;
        open_grant = next;
    }
    let ended = last_grant(alloc, open_grant)?;
    push_ended(&mut read, ended)?;
    Ok(read)
}

/// Adds an entry that was ended, if one was. No clause says what the list has after memory ran out.
fn push_ended(read: &mut Vec<Grant>, ended: Option<Grant>) -> Result<(), AllocError>
    ensures { OnOk result (read.new.items ≡ read.old.items ++ option_to_list ended) }
{
    if let Some(grant) = ended {
        read.push(grant)?;
    }
    Ok(())
}

/// The entry that the end of the items ends, if it ends one.
fn last_grant(alloc: Global, open_grant: OpenGrant) -> Result<Option<Grant>, ObjectFault>
    ensures good { IfOk result (λ ended. last_grant open_grant ≡ Some (option_to_list ended)) }
    ensures bad { IfErr result (λ fault. (fault ≡ BadValue) × (last_grant open_grant ≡ None)) }
{
    match open_grant {
        OpenGrant::Nothing => Ok(None),
        OpenGrant::Named(name) => Ok(Some(Grant::new(name, true, Vec::new(alloc)))),
        OpenGrant::Braced(_) => Err(ObjectFault::BadValue),
    }
}

/// The entry that an item ends, if it ends one, and what is open then.
#[tactic(auto, unfolding(crate::specs::Grants::next_grant))]
fn next_grant(
    alloc: Global,
    open_grant: OpenGrant,
    item: &[u8],
) -> Result<(Option<Grant>, OpenGrant), ObjectFault>
    ensures good { IfOk result (λ next. next_grant open_grant item.now ≡ Some next) }
    ensures bad { IfErr result (λ fault. fault ≢ Memory
        → (fault ≡ BadValue) × (next_grant open_grant item.now ≡ None)) }
{
    match open_grant {
        OpenGrant::Nothing => Ok((None, OpenGrant::Named(read_maintainer(alloc, item)?))),
        OpenGrant::Named(name) => after_name(alloc, name, item),
        OpenGrant::Braced(grant) => in_braces(grant, item),
    }
}

/// What an item adds to an entry of which its maintainer was read.
#[tactic(auto, unfolding(crate::specs::Grants::next_grant))]
fn after_name(
    alloc: Global,
    name: Name,
    item: &[u8],
) -> Result<(Option<Grant>, OpenGrant), ObjectFault>
    ensures good { IfOk result (λ next. next_grant (Named name) item.now ≡ Some next) }
    ensures bad { IfErr result (λ fault. fault ≢ Memory
        → (fault ≡ BadValue) × (next_grant (Named name) item.now ≡ None)) }
{
    if is_any(item) {
        Ok((
            Some(Grant::new(name, true, Vec::new(alloc))),
            OpenGrant::Nothing,
        ))
    } else if item == b"{".as_slice() {
        Ok((
            None,
            OpenGrant::Braced(Grant::new(name, false, Vec::new(alloc))),
        ))
    } else {
        let next = read_maintainer(alloc, item)?;
        Ok((
            Some(Grant::new(name, true, Vec::new(alloc))),
            OpenGrant::Named(next),
        ))
    }
}

/// What an item adds to an entry whose braces are open.
#[tactic(auto, unfolding(crate::specs::Grants::next_grant))]
fn in_braces(grant: Grant, item: &[u8]) -> Result<(Option<Grant>, OpenGrant), ObjectFault>
    ensures good { IfOk result (λ next. next_grant (Braced grant) item.now ≡ Some next) }
    ensures bad { IfErr result (λ fault. fault ≢ Memory
        → (fault ≡ BadValue) × (next_grant (Braced grant) item.now ≡ None)) }
{
    if item == b"}".as_slice() {
        Ok((Some(grant), OpenGrant::Nothing))
    } else {
        let range = read_range(item)?;
        Ok((None, OpenGrant::Braced(grant.with_range(range)?)))
    }
}

/// The maintainer's name that an item spells.
pub(crate) fn read_maintainer(alloc: Global, item: &[u8]) -> Result<Name, ObjectFault>
    ensures good { IfOk result (λ name. maintainer_name_of item.now ≡ Some name) }
    ensures bad { IfErr result (λ fault. fault ≢ Memory
        → (fault ≡ BadValue) × (maintainer_name_of item.now ≡ None)) }
{
    match Name::read_maintainer(alloc, item)? {
        Some(name) => Ok(name),
        None => Err(ObjectFault::BadValue),
    }
}

/// The range that an item spells, `None` where it is dropped.
#[tactic(auto, unfolding(crate::specs::Grants::range_item))]
pub(crate) fn read_range(item: &[u8]) -> Result<Option<Range>, ObjectFault>
    ensures good { IfOk result (λ range. range_item item.now ≡ Some range) }
    ensures bad { IfErr result (λ fault. (fault ≡ BadValue) × (range_item item.now ≡ None)) }
{
    match read_ranged(item) {
        Some((prefix, operator)) => Ok(operator.apply(Range::of(prefix))),
        None => Err(ObjectFault::BadValue),
    }
}

/// Whether an item is the keyword `ANY`.
pub(crate) fn is_any(item: &[u8]) -> bool
    ensures { result ≡ is_any item.now }
{
    is_keyword(item, b"any")
}
