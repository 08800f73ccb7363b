//! The objects that a new registry opens with, for `Desk::create`. `desk_migrating` adds one of
//! them, the block of 32-bit AS numbers, too. Each error here is that memory ran out.

ghost use Rattle.std.specs.Prelude.{◌≡◌, [], ◌∷◌, ◌++◌, IfOk, OnOk};
ghost use Rattle.rr_text.specs.Fields.{AreFields, IsField, one_line};
ghost use Rattle.rr_auth.specs.Sources.{IsRegistryOf};
ghost use Rattle.rr_store.specs.Migrating.{upper_block};
ghost use Rattle.rr_desk.specs.Opening.{AreOpening, IsOpeningRegistry, addresses_fields, auth_line};
ghost use Rattle.rr_desk.specs.Opening.{numbers_fields, owner_fields, root_fields};
ghost use Rattle.rr_desk.specs.Private.{HasObject, IsParagraphOf};
ghost use Rattle.rr_desk.specs.Settings.{IsSettings};

use crate::settings::Settings;
use rr_index::IndexedBook;
use rr_number::Name;
use rr_object::{Auth, Object, ObjectFault};
use rr_registry::{LoadFault, Registry};
use rr_text::{LineAttribute, Paragraph};
use std::alloc::{AllocError, Global};

/// The objects that a registry of these settings opens with: the root maintainer, the blocks of AS
/// numbers of 16 and of 32 bits, and the span of all addresses, each maintained by the root
/// (profile). The error is that memory ran out.
fn opening_objects(alloc: Global, settings: &Settings) -> Result<Vec<Object>, AllocError>
    ensures opening { IfOk result (λ objects. AreOpening settings.now objects.items) }
    ensures good { OnOk result (IsSettings settings.now) }
{
    let objects = Vec::with_capacity(alloc, 4)?;
    let root = root_object(alloc, settings)?;
    let objects = with_object(objects, root)?;
    let numbers = numbers_object(alloc, settings)?;
    let objects = with_object(objects, numbers)?;
    let upper = upper_object(alloc, settings)?;
    let objects = with_object(objects, upper)?;
    let addresses = addresses_object(alloc, settings)?;
    let objects = with_object(objects, addresses)?;
    Ok(objects)
}

/// The objects and one more.
pub(crate) fn with_object(
    mut objects: Vec<Object>,
    object: Object,
) -> Result<Vec<Object>, AllocError>
    ensures { IfOk result (λ made. made.items ≡ objects.items ++ object ∷ []) }
{
    objects.push(object)?;
    Ok(objects)
}

/// The registry that opens with these settings: of the opening objects, and of no others. The error
/// is that memory ran out.
#[tactic(auto, using(crate::proofs::OpeningRegistry::opening_faultless))]
pub(crate) fn opening_registry(
    alloc: Global,
    settings: &Settings,
) -> Result<Registry<IndexedBook>, AllocError>
    ensures opening { IfOk result (IsOpeningRegistry settings.now) }
    ensures of_source { IfOk result (IsRegistryOf settings.now.source) }
{
    let objects = opening_objects(alloc, settings)?;
    match Registry::from_objects(alloc, objects) {
        Ok(registry) => Ok(registry),
        Err(fault) => {
            prove!(matches!(&fault, LoadFault::Memory));
            Err(AllocError)
        }
    }
}

/// The root maintainer.
#[tactic(auto, using(crate::proofs::Opens::root_readable, crate::proofs::Opens::read_back))]
fn root_object(alloc: Global, settings: &Settings) -> Result<Object, AllocError>
    ensures object { IfOk result (IsParagraphOf settings.now.source (root_fields settings.now)) }
    ensures good { OnOk result (IsSettings settings.now) }
{
    let paragraph = root_paragraph(alloc, settings)?;
    read_object(alloc, paragraph, settings.source())
}

/// The block of all 16-bit AS numbers.
#[tactic(auto, using(crate::proofs::Opens::numbers_readable, crate::proofs::Opens::read_back))]
fn numbers_object(alloc: Global, settings: &Settings) -> Result<Object, AllocError>
    ensures { IfOk result (IsParagraphOf settings.now.source (numbers_fields settings.now)) }
{
    let paragraph = numbers_paragraph(alloc, settings)?;
    read_object(alloc, paragraph, settings.source())
}

/// The block of the other 32-bit AS numbers, which migration adds too (RFC 6793).
pub(crate) fn upper_object(alloc: Global, settings: &Settings) -> Result<Object, AllocError>
    ensures { IfOk result (IsParagraphOf settings.now.source
        (upper_block settings.now.root settings.now.source)) }
{
    let object = rr_store::upper_object(alloc, settings.root(), settings.source())?;
    // (good settings give a block that is read)
    Ok(object.unwrap())
}

/// The span of all addresses.
#[tactic(auto, using(crate::proofs::Opens::addresses_readable, crate::proofs::Opens::read_back))]
fn addresses_object(alloc: Global, settings: &Settings) -> Result<Object, AllocError>
    ensures { IfOk result (IsParagraphOf settings.now.source (addresses_fields settings.now)) }
{
    let paragraph = addresses_paragraph(alloc, settings)?;
    read_object(alloc, paragraph, settings.source())
}

/// The paragraph of the root maintainer.
fn root_paragraph(alloc: Global, settings: &Settings) -> Result<Paragraph, AllocError>
    ensures { IfOk result (λ paragraph. paragraph ≡ root_fields settings.now) }
{
    let line = auth_text(alloc, settings.auth())?;
    let attributes = Vec::with_capacity(alloc, 4)?;
    let attributes = with_line(alloc, attributes, b"mntner", settings.root().as_bytes())?;
    let attributes = with_line(alloc, attributes, b"auth", line.as_slice())?;
    owned(alloc, attributes, settings)
}

/// The paragraph of the block of all 16-bit AS numbers.
fn numbers_paragraph(alloc: Global, settings: &Settings) -> Result<Paragraph, AllocError>
    ensures { IfOk result (λ paragraph. paragraph ≡ numbers_fields settings.now) }
{
    span_paragraph(alloc, settings, b"as-block", b"AS0 - AS65535")
}

/// The paragraph of the span of all addresses.
fn addresses_paragraph(alloc: Global, settings: &Settings) -> Result<Paragraph, AllocError>
    ensures { IfOk result (λ paragraph. paragraph ≡ addresses_fields settings.now) }
{
    span_paragraph(alloc, settings, b"inetnum", b"0.0.0.0 - 255.255.255.255")
}

/// The paragraph of a span of numbers or addresses.
fn span_paragraph(
    alloc: Global,
    settings: &Settings,
    class: &[u8],
    span: &[u8],
) -> Result<Paragraph, AllocError>
    requires { IsField (one_line class.now span.now) }
    ensures { IfOk result (λ paragraph.
        paragraph ≡ one_line class.now span.now ∷ owner_fields settings.now) }
{
    let attributes = Vec::with_capacity(alloc, 3)?;
    let attributes = with_line(alloc, attributes, class, span)?;
    owned(alloc, attributes, settings)
}

/// The object that a paragraph is; the error is that memory ran out.
fn read_object(alloc: Global, paragraph: Paragraph, source: &Name) -> Result<Object, AllocError>
    requires { HasObject source.now paragraph }
    ensures { IfOk result (IsParagraphOf source.now paragraph) }
{
    match Object::read(alloc, paragraph, source) {
        Ok(object) => Ok(object),
        Err(fault) => {
            prove!(matches!(&fault, ObjectFault::Memory));
            Err(AllocError)
        }
    }
}

/// The paragraph of these attributes, of the settings' source and maintained by the root.
fn owned(
    alloc: Global,
    attributes: Vec<LineAttribute>,
    settings: &Settings,
) -> Result<Paragraph, AllocError>
    requires { AreFields attributes.items }
    ensures { IfOk result (λ paragraph.
        paragraph ≡ attributes.items ++ owner_fields settings.now) }
{
    let attributes = with_line(alloc, attributes, b"mnt-by", settings.root().as_bytes())?;
    let attributes = with_line(alloc, attributes, b"source", settings.source().as_bytes())?;
    Paragraph::new(alloc, &attributes)
}

/// The attributes and one of a single line.
fn with_line(
    alloc: Global,
    mut attributes: Vec<LineAttribute>,
    name: &[u8],
    line: &[u8],
) -> Result<Vec<LineAttribute>, AllocError>
    ensures { IfOk result (λ made.
        made.items ≡ attributes.items ++ one_line name.now line.now ∷ []) }
{
    attributes.push(LineAttribute::new(alloc, name, line)?)?;
    Ok(attributes)
}

/// The value of `auth` for a salt and digest.
fn auth_text(alloc: Global, auth: &Auth) -> Result<Vec<u8>, AllocError>
    ensures { IfOk result (λ line. line.items ≡ auth_line auth.now) }
{
    let digits = hex::encode(alloc, auth.digest())?;
    let mut line = Vec::from_slice(alloc, b"SHA256-PW ")?;
    line.extend_from_slice(auth.salt())?;
    line.push(b':')?;
    line.extend_from_slice(digits.as_bytes())?;
    Ok(line)
}
