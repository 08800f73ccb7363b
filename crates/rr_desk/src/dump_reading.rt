//! The objects of a dump, read entry by entry, for `Desk::load`.

ghost use Rattle.std.specs.Prelude.{◌≡◌, ◌⊎◌, ◌+◌, ◌<◌, ◌++◌, List, []};
ghost use Rattle.std.specs.Prelude.{◌∷◌, Ok, Err, IfOk, MatchResult, OnSome, length};
ghost use Rattle.rr_io.specs.Told.{Told};
ghost use Rattle.rr_text.specs.ParagraphReaders.{Entry, HasGiven, left_of};
ghost use Rattle.rr_object.specs.Readings.{object_of};
ghost use Rattle.rr_desk.specs.Dumps.{entry_object, object_result, objects_from};
ghost use Rattle.rr_desk.specs.DumpParts.{FindsEntry, IsEntryOf, IsFaultSoFar};
ghost use Rattle.rr_desk.specs.DumpReadings.{ReadsDump};
ghost use Rattle.rr_desk.specs.declared.dump_read_fault.DumpReadFault.TheVariants.{Memory};

use crate::dump_read_fault::DumpReadFault;
use crate::opening::with_object;
use rr_io::Reader;
use rr_number::Name;
use rr_object::{Object, ObjectFault};
use rr_text::{Paragraph, Paragraphs, TextFault};
use std::alloc::Global;

/// The objects that the entries of the reader's text are, in their order: each is read in this
/// source. The dump may be any RPSL text, and nothing asks whether the objects are a registry. The
/// fault is that of the first entry that is no object of the source. The dump is read to its end
/// even then. So a failed read, or no end within 16,777,216 reads, is told in place of it. If
/// memory runs out, the whole dump was read, or nothing of it was, and that may be told in place of
/// an entry's fault.
pub fn read_dump<R: Reader>(
    alloc: Global,
    reader: &mut R,
    source: &Name,
) -> Result<Vec<Object>, DumpReadFault>
    ensures { ReadsDump result (λ objects. objects.items) source.now (R.told reader.old)
        (R.told reader.new) }
{
    let mut paragraphs = Paragraphs::new(alloc)?;
    read_entries(alloc, &mut paragraphs, reader, source)
}

/// The objects of a dump of which nothing was read.
fn read_entries<R: Reader>(
    alloc: Global,
    paragraphs: &mut Paragraphs,
    reader: &mut R,
    source: &Name,
) -> Result<Vec<Object>, DumpReadFault>
    requires { HasGiven (R.told reader.old) (R.told reader.old) paragraphs.old [] }
    ensures { ReadsDump result (λ objects. objects.items) source.now (R.told reader.old)
        (R.told reader.new) }
{
    let mut read = Ok(Vec::new(alloc));
    let mut count = 0;
    'entries: loop {
        match next_entry(alloc, paragraphs, reader)? {
            Some(entry) => {
                count += 1;
                read = with_entry(alloc, read, count, entry, source);
            }
            None => return read,
        }
    }
}

/// The next entry of the text that this reader gives, a paragraph or its fault; `None` at its end.
/// The error is a failed read, or too many reads.
fn next_entry<R: Reader>(
    alloc: Global,
    paragraphs: &mut Paragraphs,
    reader: &mut R,
) -> Result<Option<Result<Paragraph, TextFault>>, DumpReadFault>
    ensures finds { (start : Told) (given : List Entry)
        → HasGiven start (R.told reader.old) paragraphs.old given
        → FindsEntry start (R.told reader.new) paragraphs.new given result }
    ensures nearer { IfOk result
        (λ next. OnSome next (left_of paragraphs.new < left_of paragraphs.old)) }
    ensures aside { (R.told reader.new).aside ≡ (R.told reader.old).aside }
{
    match paragraphs.next(alloc, reader) {
        Ok(None) => Ok(None),
        Ok(Some(paragraph)) => Ok(Some(Ok(paragraph))),
        Err(fault) => match fault {
            TextFault::Read => Err(DumpReadFault::Read),
            TextFault::Endless => Err(DumpReadFault::Endless),
            _ => Ok(Some(Err(fault))),
        },
    }
}

/// What was read of a dump, with its n-th entry.
fn with_entry(
    alloc: Global,
    read: Result<Vec<Object>, DumpReadFault>,
    n: u64,
    entry: Result<Paragraph, TextFault>,
    source: &Name,
) -> Result<Vec<Object>, DumpReadFault>
    ensures { (given : List Entry) (next : Entry) → n ≡ length given + 1
        → IsEntryOf entry next
        → MatchResult read (λ objects. objects_from source.now 1 given ≡ Ok objects.items)
        (IsFaultSoFar source.now given)
        → MatchResult result (λ objects. objects_from source.now 1 (given ++ next ∷ [])
        ≡ Ok objects.items) (IsFaultSoFar source.now (given ++ next ∷ [])) }
{
    let objects = read?;
    let object = entry_object(alloc, n, entry, source)?;
    Ok(with_object(objects, object)?)
}

/// The object that the n-th entry of a dump is, or its fault, unless memory ran out.
fn entry_object(
    alloc: Global,
    n: u64,
    entry: Result<Paragraph, TextFault>,
    source: &Name,
) -> Result<Object, DumpReadFault>
    ensures { (next : Entry) → IsEntryOf entry next → MatchResult result
        (λ object. entry_object source.now n next ≡ Ok object)
        (λ fault. (fault ≡ Memory) ⊎ (entry_object source.now n next ≡ Err fault)) }
{
    match entry {
        Ok(paragraph) => read_object(alloc, n, paragraph, source),
        Err(fault) => match fault {
            TextFault::Memory => Err(DumpReadFault::Memory),
            _ => Err(DumpReadFault::Text(n)),
        },
    }
}

/// The object that the paragraph of the n-th entry is.
fn read_object(
    alloc: Global,
    n: u64,
    paragraph: Paragraph,
    source: &Name,
) -> Result<Object, DumpReadFault>
    ensures { MatchResult result
        (λ object. object_result n (object_of paragraph source.now) ≡ Ok object)
        (λ fault. (fault ≡ Memory)
        ⊎ (object_result n (object_of paragraph source.now) ≡ Err fault)) }
{
    match Object::read(alloc, paragraph, source) {
        Ok(object) => Ok(object),
        Err(fault) => match fault {
            ObjectFault::Memory => Err(DumpReadFault::Memory),
            _ => Err(DumpReadFault::Object(n, fault.code())),
        },
    }
}
