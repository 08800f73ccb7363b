//! Registries in memory, in either book: of texts, and what they report and answer.
use rr_answer::{dump, find_for};
use rr_auth::Item;
use rr_io::{Counted, Cut, Reader, write_all};
use rr_number::Name;
use rr_object::Object;
use rr_registry::{Keeper, Registry};
use rr_submission::submit;
use rr_text::next_paragraph;
use std::alloc::Global;
use std::test::Fail;

/// The source of every registry here.
pub fn source(alloc: Global) -> Result<Name, Fail> {
    Ok(Name::read(alloc, b"TEST")?.ok_or("no name")?)
}

/// The objects of a text.
fn objects(alloc: Global, text: &[u8]) -> Result<Vec<Object>, Fail> {
    let source = source(alloc)?;
    let mut objects = Vec::new(alloc);
    let mut rest = text;
    for _paragraph in 0..text.len() {
        let Some((paragraph, next)) = next_paragraph(alloc, rest, 0)? else {
            break;
        };
        objects.push(Object::read(alloc, paragraph, &source)?)?;
        let Some(after) = rest.get(next..) else {
            break;
        };
        rest = after;
    }
    Ok(objects)
}

/// The first object of a text.
pub fn object(alloc: Global, text: &str) -> Result<Object, Fail> {
    let objects = objects(alloc, text.as_bytes())?;
    Ok(objects.into_iter().next().ok_or("no object")?)
}

/// The item of a text's first object, or of its deletion.
pub fn item(alloc: Global, deletes: bool, text: &str) -> Result<Item, Fail> {
    let object = object(alloc, text)?;
    if deletes {
        Ok(Item::Delete(object.key().copy(alloc)?))
    } else {
        Ok(Item::Submit(object))
    }
}

/// The registry of a text's objects.
pub fn taken<B: Keeper>(alloc: Global, text: &[u8]) -> Result<Registry<B>, Fail> {
    match Registry::from_objects(alloc, objects(alloc, text)?) {
        Ok(registry) => Ok(registry),
        Err(_) => Err("no registry".into()),
    }
}

/// Submits what the reader gives to a registry; answers with the report.
pub fn report<B: Keeper, R: Reader>(
    alloc: Global,
    registry: &mut Registry<B>,
    reader: &mut R,
) -> Result<Vec<u8>, Fail> {
    let source = source(alloc)?;
    let mut writer = Counted::new(Vec::new(alloc));
    let _done = submit(alloc, registry, &source, reader, &mut writer)?;
    Ok(writer.into_inner())
}

/// Submits a text that comes in pieces of at most so many bytes, or of one; answers with the
/// report.
pub fn cut_report<B: Keeper>(
    alloc: Global,
    registry: &mut Registry<B>,
    text: &[u8],
    step: usize,
) -> Result<Vec<u8>, Fail> {
    let mut reader = Cut::new(Counted::new(text), step.max(1), usize::MAX);
    report(alloc, registry, &mut reader)
}

/// The dump of a registry.
pub fn dumped<B: Keeper>(
    alloc: Global,
    registry: &Registry<B>,
    full: bool,
) -> Result<Vec<u8>, Fail> {
    let mut writer = Counted::new(Vec::new(alloc));
    let _count = dump(alloc, registry, &mut writer, full)?;
    Ok(writer.into_inner())
}

/// What a registry answers to a query.
pub fn answered<B: Keeper>(
    alloc: Global,
    registry: &Registry<B>,
    limit: usize,
    query: &str,
) -> Result<Vec<u8>, Fail> {
    let mut writer = Counted::new(Vec::new(alloc));
    match find_for(alloc, registry, limit, query.as_bytes()) {
        Ok(found) => found.write(alloc, &mut writer)?,
        Err(fault) => write_all(&mut writer, fault.line())?,
    }
    Ok(writer.into_inner())
}
