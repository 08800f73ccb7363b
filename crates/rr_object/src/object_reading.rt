//! What the attributes of a paragraph say, for `object`: of its source, of authority and of sets.
//! The error `BadValue` says that a value is bad, and `Memory` that memory ran out.

ghost use Rattle.std.specs.Prelude.{◌≡◌, ◌≢◌, IfErr, IfOk, None, Some, false, map};
ghost use Rattle.std.specs.Prelude.{true};
ghost use Rattle.std.specs.List.{list_any};
ghost use Rattle.std.specs.Option.{option_and_then};
ghost use Rattle.rr_number.specs.Names.{name_of};
ghost use Rattle.rr_object.specs.Auths.{auth_item};
ghost use Rattle.rr_object.specs.Grants.{grants_of, is_any};
ghost use Rattle.rr_object.specs.Items.{are_good, items, meant, only, values_of};
ghost use Rattle.rr_object.specs.ObjectParts.{IsAuthorityOf, IsMembershipOf};
ghost use Rattle.rr_object.specs.Readings.{by_ref_of, has_bad_authority, has_bad_membership};
ghost use Rattle.rr_object.specs.Readings.{has_bad_text, is_pseudo_attribute, items_read};
ghost use Rattle.rr_object.specs.Readings.{member_item, source_of};
ghost use Rattle.rr_object.specs.Kinds.{kind_name};
ghost use Rattle.rr_object.specs.Members.{by_ref_item};
ghost use Rattle.rr_object.specs.declared.object_fault.ObjectFault.TheVariants.{BadValue, Memory};
ghost use Rattle.rr_object.specs.declared.kind.Kind.TheVariants as kinds;

use crate::auth::Auth;
use crate::by_ref::ByRef;
use crate::class::Class;
use crate::counts::list_text;
use crate::grant::Grant;
use crate::grants::{is_any, read_grants};
use crate::item::{ReadItem, read_items};
use crate::kind::Kind;
use crate::lists::{items, values_of};
use crate::member::Member;
use crate::members::{AsSetMembers, Auths, ByRefNames, Maintainers, RouteSetMembers, Sets};
use crate::object_fault::ObjectFault;
use rr_number::{Name, SetName};
use rr_text::{Attribute, Paragraph, Text};
use std::alloc::{AllocError, Global};

/// What an object says of whose secrets decide.
#[derive(Debug, Drop)]
pub(crate) struct Authority {
    pub(crate) maintainers: Vec<Name>,
    pub(crate) lower: Vec<Name>,
    pub(crate) routes: Vec<Grant>,
    pub(crate) auths: Vec<Auth>,
}

/// What an object says of sets.
#[derive(Debug, Drop)]
pub(crate) struct Membership {
    pub(crate) members: Vec<Member>,
    pub(crate) by_ref: ByRef,
    pub(crate) member_of: Vec<SetName>,
}

/// The source that a paragraph names. `BadValue` says that it names none, or that it has a
/// pseudo-attribute.
#[tactic(auto, unfolding(crate::specs::Readings::has_bad_text))]
pub(crate) fn read_source(
    alloc: Global,
    paragraph: &Paragraph,
    sources: &[Text],
) -> Result<Name, ObjectFault>
    requires { sources.now ≡ values_of (kind_name kinds.Source) paragraph.now }
    ensures good { IfOk result (λ _. has_bad_text paragraph.now ≡ false) }
    ensures source { IfOk result (λ source. source_of paragraph.now ≡ Some source) }
    ensures bad { IfErr result (λ fault. fault ≢ Memory
        → (fault ≡ BadValue) × (has_bad_text paragraph.now ≡ true)) }
{
    if has_pseudo_attribute(paragraph) {
        return Err(ObjectFault::BadValue);
    }
    match source_among(alloc, sources)? {
        Some(source) => Ok(source),
        None => Err(ObjectFault::BadValue),
    }
}

/// Whether there is an attribute that stands in submissions and in no object.
fn has_pseudo_attribute(paragraph: &Paragraph) -> bool
    ensures { result ≡ list_any is_pseudo_attribute paragraph.now }
{
    paragraph
        .attributes()
        .any(|attribute| is_pseudo_attribute(&attribute))
}

fn is_pseudo_attribute(attribute: &Attribute) -> bool
    ensures { result ≡ is_pseudo_attribute attribute.now }
{
    attribute.has_name(b"password") || attribute.has_name(b"delete")
}

/// The name that the one of these values spells; none where they are not one.
fn source_among(alloc: Global, values: &[Text]) -> Result<Option<Name>, AllocError>
    ensures { IfOk result (λ source. source ≡ option_and_then name_of (only values.now)) }
{
    match values {
        [value] => Name::read(alloc, value.as_slice()),
        _ => Ok(None),
    }
}

/// What an object of the class says of whose secrets decide, from the items of its `mnt-by`.
#[tactic(auto, unfolding(crate::specs::Readings::has_bad_authority))]
pub(crate) fn read_authority(
    alloc: Global,
    class: Class,
    paragraph: &Paragraph,
    maintainers: &[&[u8]],
) -> Result<Authority, ObjectFault>
    requires { map (λ item. item.now) maintainers.now
        ≡ items_read kinds.MntBy class paragraph.now }
    ensures good { IfOk result (λ _. has_bad_authority class paragraph.now ≡ false) }
    ensures value { IfOk result (IsAuthorityOf class paragraph.now) }
    ensures bad { IfErr result (λ fault. fault ≢ Memory
        → (fault ≡ BadValue) × (has_bad_authority class paragraph.now ≡ true)) }
{
    let maintainers = read_items::<Maintainers>(alloc, maintainers)?;
    let lower = read_listed::<Maintainers>(alloc, class, Kind::MntLower, paragraph)?;
    let routes = read_routes(alloc, class, paragraph)?;
    let auths = read_auths(alloc, class, paragraph)?;
    Ok(Authority {
        maintainers,
        lower,
        routes,
        auths,
    })
}

/// What an object of the class says of sets.
#[tactic(auto, unfolding(crate::specs::Readings::has_bad_membership))]
pub(crate) fn read_membership(
    alloc: Global,
    class: Class,
    paragraph: &Paragraph,
) -> Result<Membership, ObjectFault>
    ensures good { IfOk result (λ _. has_bad_membership class paragraph.now ≡ false) }
    ensures value { IfOk result (IsMembershipOf class paragraph.now) }
    ensures bad { IfErr result (λ fault. fault ≢ Memory
        → (fault ≡ BadValue) × (has_bad_membership class paragraph.now ≡ true)) }
{
    let members = read_members(alloc, class, paragraph)?;
    let by_ref = read_by_ref(alloc, class, paragraph)?;
    let member_of = read_listed::<Sets>(alloc, class, Kind::MemberOf, paragraph)?;
    Ok(Membership {
        members,
        by_ref,
        member_of,
    })
}

/// The text in which the items of an attribute other than `auth` stand, empty where the class does
/// not read it.
pub(crate) fn text_read(
    alloc: Global,
    class: Class,
    kind: Kind,
    paragraph: &Paragraph,
) -> Result<Vec<u8>, AllocError>
    requires { kind ≢ kinds.Auth }
    ensures { IfOk result (λ text. items text.items ≡ items_read kind class paragraph.now) }
{
    if !kind.is_read(class) {
        return Ok(Vec::new(alloc));
    }
    let values = values_of(alloc, paragraph, kind.name().as_bytes())?;
    list_text(alloc, kind, &values)
}

/// What the items of an attribute other than `auth` stand for.
fn read_listed<R: ReadItem>(
    alloc: Global,
    class: Class,
    kind: Kind,
    paragraph: &Paragraph,
) -> Result<Vec<R::Item>, ObjectFault>
    requires { kind ≢ kinds.Auth }
    ensures good { IfOk result
        (λ _. are_good R.item_of (items_read kind class paragraph.now) ≡ true) }
    ensures value { IfOk result
        (λ read. read.items ≡ meant R.item_of (items_read kind class paragraph.now)) }
    ensures bad { IfErr result (λ fault. fault ≢ Memory
        → (fault ≡ BadValue)
        × (are_good R.item_of (items_read kind class paragraph.now) ≡ false)) }
{
    let text = text_read(alloc, class, kind, paragraph)?;
    let listed = items(alloc, &text)?;
    read_items::<R>(alloc, &listed)
}

/// The entries of `mnt-routes`.
fn read_routes(
    alloc: Global,
    class: Class,
    paragraph: &Paragraph,
) -> Result<Vec<Grant>, ObjectFault>
    ensures good { IfOk result
        (λ read. grants_of (items_read kinds.MntRoutes class paragraph.now) ≡ Some read.items) }
    ensures bad { IfErr result (λ fault. fault ≢ Memory
        → (fault ≡ BadValue)
        × (grants_of (items_read kinds.MntRoutes class paragraph.now) ≡ None)) }
{
    let text = text_read(alloc, class, Kind::MntRoutes, paragraph)?;
    let listed = items(alloc, &text)?;
    read_grants(alloc, &listed)
}

/// The salts and digests in `auth`, each value of which is one item.
#[tactic(auto, unfolding(crate::specs::Readings::items_read, crate::specs::Readings::items_of))]
fn read_auths(alloc: Global, class: Class, paragraph: &Paragraph) -> Result<Vec<Auth>, ObjectFault>
    ensures good { IfOk result
        (λ _. are_good auth_item (items_read kinds.Auth class paragraph.now) ≡ true) }
    ensures value { IfOk result
        (λ read. read.items ≡ meant auth_item (items_read kinds.Auth class paragraph.now)) }
    ensures bad { IfErr result (λ fault. fault ≢ Memory
        → (fault ≡ BadValue)
        × (are_good auth_item (items_read kinds.Auth class paragraph.now) ≡ false)) }
{
    if !Kind::Auth.is_read(class) {
        return Ok(Vec::new(alloc));
    }
    let values = values_of(alloc, paragraph, Kind::Auth.name().as_bytes())?;
    let listed = as_slices(alloc, &values)?;
    read_items::<Auths>(alloc, &listed)
}

fn as_slices(alloc: Global, values: &[Text]) -> Result<Vec<&[u8]>, AllocError>
    ensures { IfOk result (λ listed. map (λ item. item.now) listed.items ≡ values.now) }
{
    let mut listed = Vec::new(alloc);
    'values: for value in values {
        listed.push(value.as_slice())?;
    }
    Ok(listed)
}

/// The items of `members`: as-sets have their own rule. The classes besides sets do not read them.
fn read_members(
    alloc: Global,
    class: Class,
    paragraph: &Paragraph,
) -> Result<Vec<Member>, ObjectFault>
    ensures good { IfOk result (λ _. are_good (member_item class)
        (items_read kinds.Members class paragraph.now) ≡ true) }
    ensures value { IfOk result (λ read. read.items
        ≡ meant (member_item class) (items_read kinds.Members class paragraph.now)) }
    ensures bad { IfErr result (λ fault. fault ≢ Memory
        → (fault ≡ BadValue) × (are_good (member_item class)
        (items_read kinds.Members class paragraph.now) ≡ false)) }
{
    match class {
        Class::AsSet => read_listed::<AsSetMembers>(alloc, class, Kind::Members, paragraph),
        _ => read_listed::<RouteSetMembers>(alloc, class, Kind::Members, paragraph),
    }
}

/// What `mbrs-by-ref` says.
fn read_by_ref(alloc: Global, class: Class, paragraph: &Paragraph) -> Result<ByRef, ObjectFault>
    ensures good { IfOk result
        (λ _. are_good by_ref_item (items_read kinds.MbrsByRef class paragraph.now) ≡ true) }
    ensures value { IfOk result
        (λ read. read ≡ by_ref_of (items_read kinds.MbrsByRef class paragraph.now)) }
    ensures bad { IfErr result (λ fault. fault ≢ Memory
        → (fault ≡ BadValue)
        × (are_good by_ref_item (items_read kinds.MbrsByRef class paragraph.now) ≡ false)) }
{
    let text = text_read(alloc, class, Kind::MbrsByRef, paragraph)?;
    let listed = items(alloc, &text)?;
    let names = read_items::<ByRefNames>(alloc, &listed)?;
    Ok(ByRef::new(has_any(&listed), names))
}

/// Whether one of the items is `ANY`.
fn has_any(listed: &[&[u8]]) -> bool
    ensures { result ≡ list_any is_any (map (λ item. item.now) listed.now) }
{
    'items: for item in listed {
        if is_any(item) {
            return true;
        }
    }
    false
}
