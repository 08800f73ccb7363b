//! Objects of the registry, each read from its paragraph. Submissions, loads and opened databases
//! read them, and all that decides or answers asks them.

ghost use Rattle.std.specs.Prelude.{◌≡◌, ◌≢◌, Err, IfErr, IfOk, Ok, Some};
ghost use Rattle.rr_object.specs.Faults.{GivesUnlessMemory};
ghost use Rattle.rr_object.specs.KeyOrders.{IsKeyValue};
ghost use Rattle.rr_object.specs.KeySpellings.{key_of};
ghost use Rattle.rr_object.specs.ObjectParts.{said};
ghost use Rattle.rr_object.specs.Readings.{obj_of, object_of, source_of};
ghost use Rattle.rr_object.specs.declared.object_fault.ObjectFault.TheVariants.{Memory};

use crate::auth::Auth;
use crate::counts::is_miscounted;
use crate::extra::Extra;
use crate::grant::Grant;
use crate::key::Key;
use crate::kind::Kind;
use crate::lists::{items, values_of};
use crate::member::Member;
use crate::object_fault::ObjectFault;
use crate::object_reading::{
    Authority, Membership, read_authority, read_membership, read_source, text_read,
};
use crate::paragraph_key::key_of;
use rr_number::{Name, SetName};
use rr_text::Paragraph;
use std::alloc::{AllocError, Global};
use std::marker::Model;

/// An object: its key, its paragraph, and what the interpreted attributes of it say (RFC 2622, 2 to
/// 6; RFC 2725, 10). An attribute that its class keeps as text says nothing here. All of it is in
/// memory of its own, so that lists and maps of objects stay small.
#[derive(Debug, Drop)]
pub struct Object {
    kept: Box<Kept>,
}

/// What an object keeps.
#[derive(Debug, Drop)]
struct Kept {
    key: Key,
    paragraph: Paragraph,
    maintainers: Vec<Name>,
    extra: Option<Box<Extra>>,
}

impl Model for Object {
    ghost use Rattle.std.specs.Prelude.{◌≡◌, Ok};
    ghost use Rattle.rr_object.specs.Objects.{Obj};
    ghost use Rattle.rr_object.specs.Readings.{obj_of};

    ghost Value = { Obj };

    ghost use Rattle.rr_object.specs.ObjectViews.{parts_of};

    ghost view = { parts_of };

    // the fields are those that are read from the paragraph
    ghost invariant = { λ o. obj_of o.kept.value.paragraph ≡ Ok (parts_of o) };
}

impl Object {
    /// The object that a paragraph is in the registry of this source; the letter case in which the
    /// paragraph names its source is ignored. The error is the first of its faults, in the order of
    /// `ObjectFault`, or that memory ran out.
    #[tactic(auto, using(crate::proofs::Parsed::keyless))]
    pub fn read(alloc: Global, paragraph: Paragraph, source: &Name) -> Result<Object, ObjectFault>
        ensures { GivesUnlessMemory (object_of paragraph source.now) result }
    {
        let key = key_of(alloc, &paragraph)?;
        Object::read_with_key(alloc, key, paragraph, source)
    }

    /// The object that a paragraph is in the registry of this source, where `key` must be the key
    /// of the paragraph. The error is the first of its faults, in the order of `ObjectFault`, or
    /// that memory ran out; the class and the key, which were read, have no fault.
    #[tactic(auto, unfolding(crate::specs::Readings::object_of))]
    pub fn read_with_key(
        alloc: Global,
        key: Key,
        paragraph: Paragraph,
        source: &Name,
    ) -> Result<Object, ObjectFault>
        requires { key_of paragraph ≡ Ok key }
        ensures { GivesUnlessMemory (object_of paragraph source.now) result }
    {
        let read = read_of_any_source(alloc, key, paragraph)?;
        if read.source.as_bytes() == source.as_bytes() {
            Ok(read.object)
        } else {
            Err(ObjectFault::OtherSource)
        }
    }

    /// An equal object; the error is that memory ran out.
    #[tactic(auto, using(crate::proofs::Parsed::kept_its_key))]
    pub fn copy(&self, alloc: Global) -> Result<Object, AllocError>
        ensures { IfOk result (λ copy. copy ≡ self.now) }
    {
        let key = self.kept.key.copy(alloc)?;
        let paragraph = self.kept.paragraph.copy(alloc)?;
        match read_of_any_source(alloc, key, paragraph) {
            Ok(read) => Ok(read.object),
            Err(_) => Err(AllocError),
        }
    }

    /// What names the object. It is well formed. A maintainer's name is a name in upper case; a
    /// set's name is as it is printed, of the key's class, and neither `AS-ANY` nor `RS-ANY`. The
    /// ends of a span are in order, both addresses or both AS numbers. A prefix has an address
    /// below 2^32, a length of at most 32 and no bit past its length. An AS number has 32 bits.
    #[tactic(auto, using(crate::proofs::KeyBounds::obj_key_formed))]
    pub fn key(&self) -> &Key
        ensures value { result.now ≡ self.now.key }
        ensures formed { IsKeyValue self.now.key }
    {
        &self.kept.key
    }

    /// The whole paragraph. Read again, whichever source it names, it is this object.
    pub fn paragraph(&self) -> &Paragraph
        ensures value { result.now ≡ self.now.paragraph }
        ensures read { obj_of self.now.paragraph ≡ Ok self.now }
    {
        &self.kept.paragraph
    }

    /// The maintainers in `mnt-by`, in their order.
    pub fn maintainers(&self) -> &[Name]
        ensures { result.now ≡ self.now.maintainers }
    {
        self.kept.maintainers.as_slice()
    }

    /// The maintainers in `mnt-lower`, in their order.
    pub fn lower(&self) -> &[Name]
        ensures { result.now ≡ self.now.lower }
    {
        match &self.kept.extra {
            Some(extra) => extra.lower.as_slice(),
            None => &[],
        }
    }

    /// The entries of `mnt-routes`, in their order.
    pub fn routes(&self) -> &[Grant]
        ensures { result.now ≡ self.now.routes }
    {
        match &self.kept.extra {
            Some(extra) => extra.routes.as_slice(),
            None => &[],
        }
    }

    /// The salts and digests in `auth`, in their order; values of other schemes than SHA256-PW are
    /// left out.
    pub fn auths(&self) -> &[Auth]
        ensures { result.now ≡ self.now.auths }
    {
        match &self.kept.extra {
            Some(extra) => extra.auths.as_slice(),
            None => &[],
        }
    }

    /// The items of `members`, in their order, without the ranges that their operators drop.
    pub fn members(&self) -> &[Member]
        ensures { result.now ≡ self.now.members }
    {
        match &self.kept.extra {
            Some(extra) => extra.members.as_slice(),
            None => &[],
        }
    }

    /// Whether anybody's objects may say that they belong to the set: whether `mbrs-by-ref` has
    /// `ANY`.
    pub fn by_ref_any(&self) -> bool
        ensures { result ≡ self.now.by_ref.any }
    {
        match &self.kept.extra {
            Some(extra) => extra.by_ref.any(),
            None => false,
        }
    }

    /// The maintainers in `mbrs-by-ref`, in their order: their objects may say that they belong to
    /// the set.
    pub fn by_ref(&self) -> &[Name]
        ensures { result.now ≡ self.now.by_ref.names }
    {
        match &self.kept.extra {
            Some(extra) => extra.by_ref.names(),
            None => &[],
        }
    }

    /// The sets in `member-of`, in their order.
    pub fn member_of(&self) -> &[SetName]
        ensures { result.now ≡ self.now.member_of }
    {
        match &self.kept.extra {
            Some(extra) => extra.member_of.as_slice(),
            None => &[],
        }
    }
}

/// The object that a paragraph is, whichever source it names, and that source.
#[derive(Debug, Drop)]
struct Sourced {
    object: Object,
    source: Name,
}

/// The object that a paragraph of this key is, whichever source it names, and that source. The
/// error is its first fault, or that memory ran out.
fn read_of_any_source(alloc: Global, key: Key, paragraph: Paragraph) -> Result<Sourced, ObjectFault>
    requires { key_of paragraph ≡ Ok key }
    ensures ok { IfOk result (λ read. obj_of paragraph ≡ Ok read.object) }
    ensures source { IfOk result (λ read. source_of paragraph ≡ Some read.source) }
    ensures fault { IfErr result (λ fault. fault ≢ Memory → obj_of paragraph ≡ Err fault) }
{
    let said = read_said(alloc, &key, &paragraph)?;
    let object = object_with(alloc, key, paragraph, said.authority, said.membership)?;
    let source = said.source;
    Ok(Sourced { object, source })
}

/// What a paragraph says beside its key.
#[derive(Drop)]
struct Said {
    source: Name,
    authority: Authority,
    membership: Membership,
}

/// What a paragraph of this key says. The error is its first fault, or that memory ran out.
#[tactic(auto, using(crate::proofs::Parsed::what_is_said))]
fn read_said(alloc: Global, key: &Key, paragraph: &Paragraph) -> Result<Said, ObjectFault>
    requires { key_of paragraph.now ≡ Ok key.now }
    ensures ok { IfOk result (λ read. obj_of paragraph.now
        ≡ Ok (said key.now paragraph.now read.authority read.membership)) }
    ensures source { IfOk result (λ read. source_of paragraph.now ≡ Some read.source) }
    ensures fault { IfErr result
        (λ fault. fault ≢ Memory → obj_of paragraph.now ≡ Err fault) }
{
    let class = key.class();
    let sources = values_of(alloc, paragraph, Kind::Source.name().as_bytes())?;
    let maintained = text_read(alloc, class, Kind::MntBy, paragraph)?;
    let maintainers = items(alloc, &maintained)?;
    if is_miscounted(alloc, class, paragraph, &sources, &maintainers)? {
        return Err(ObjectFault::BadCount);
    }
    let source = read_source(alloc, paragraph, &sources)?;
    let authority = read_authority(alloc, class, paragraph, &maintainers)?;
    let membership = read_membership(alloc, class, paragraph)?;
    Ok(Said {
        source,
        authority,
        membership,
    })
}

/// The object of this key and paragraph, with what the paragraph says of authority and of sets. The
/// error is that memory ran out.
fn object_with(
    alloc: Global,
    key: Key,
    paragraph: Paragraph,
    authority: Authority,
    membership: Membership,
) -> Result<Object, AllocError>
    requires { obj_of paragraph ≡ Ok (said key paragraph authority membership) }
    ensures { IfOk result (λ object. obj_of paragraph ≡ Ok object) }
{
    let Authority {
        maintainers,
        lower,
        routes,
        auths,
    } = authority;
    let Membership {
        members,
        by_ref,
        member_of,
    } = membership;
    let extra = Extra {
        lower,
        routes,
        auths,
        members,
        by_ref,
        member_of,
    };
    let extra = extra.kept(alloc)?;
    let kept = Kept {
        key,
        paragraph,
        maintainers,
        extra,
    };
    match Box::new(alloc, kept) {
        Ok(kept) => Ok(Object { kept }),
        Err(_) => Err(AllocError),
    }
}
