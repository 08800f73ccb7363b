//! How a registry is written as a dump. A desk dumps by this. `read_dump` of `rr_desk` and
//! `tools/irr` read dumps: who changes their text changes these too.

ghost use Rattle.std.specs.Prelude.{◌≡◌, ◌++◌, IfOk, length};
ghost use Rattle.std.specs.FinMap.{values};
ghost use Rattle.std.specs.List.{flat_map};
ghost use Rattle.rr_text.specs.Outputs.{MayAdd};
ghost use Rattle.rr_sets.specs.Lists.{lent};
ghost use Rattle.rr_answer.specs.Dumps.{WritesDump, dump, dumped, end_line};

use crate::text::{push_paragraph, push_public};
use rr_book::Keeper;
use rr_io::{Writer, write_all};
use rr_object::Object;
use rr_registry::Registry;
use std::alloc::{AllocError, Global};
use std::io;

/// Why a dump was cut short.
#[derive(Clone, Copy, Debug, PartialEq, Eq)]
pub enum DumpFault {
    /// A write failed.
    Write,
    /// Memory ran out.
    Memory,
}

/// The fault is that a write failed.
impl From<io::Error> for DumpFault {
    ghost use Rattle.std.specs.Prelude.{◌≡◌};
    ghost use Rattle.rr_answer.specs.declared.dumping.DumpFault.TheVariants.{Write};

    ghost from_gives = { λ _ fault. fault ≡ Write };

    fn from(_failed: io::Error) -> DumpFault {
        DumpFault::Write
    }
}

/// The fault is that memory ran out.
impl From<AllocError> for DumpFault {
    ghost use Rattle.std.specs.Prelude.{◌≡◌};
    ghost use Rattle.rr_answer.specs.declared.dumping.DumpFault.TheVariants.{Memory};

    ghost from_gives = { λ _ fault. fault ≡ Memory };

    fn from(_refused: AllocError) -> DumpFault {
        DumpFault::Memory
    }
}

/// Writes all objects by class and key, an empty line after each, and the last line, `% end` with
/// their number. `full` says whether they are written with all their text, or in the public form in
/// which they are answered (profile). The result is their number. After a fault the writer has
/// taken the beginning of these bytes, and not all of them. A call of the writer failed where the
/// fault is `Write`, and none did where it is `Memory`. Each object is written by itself, which no
/// clause says.
#[tactic(auto, using(crate::proofs::Dumped::dump_has_bytes))]
pub fn dump<B: Keeper, W: Writer>(
    alloc: Global,
    registry: &Registry<B>,
    writer: &mut W,
    full: bool,
) -> Result<usize, DumpFault>
    ensures writes { WritesDump (dump full registry.now) (W.told writer.old)
        (W.told writer.new) result }
    ensures count { IfOk result (λ count. count ≡ length (values registry.now)) }
{
    let objects = registry.objects(alloc)?;
    dump_listed(alloc, &objects, writer, full)
}

/// Writes the objects and the last line, and gives the number of the objects. A fault leaves what
/// one of `dump` leaves, here and below.
fn dump_listed<W: Writer>(
    alloc: Global,
    objects: &[&Object],
    writer: &mut W,
    full: bool,
) -> Result<usize, DumpFault>
    ensures writes { WritesDump (flat_map (dumped full) (lent objects.now)
        ++ end_line (length objects.now)) (W.told writer.old) (W.told writer.new) result }
    ensures count { IfOk result (λ count. count ≡ length objects.now) }
{
    dump_objects(alloc, objects, writer, full)?;
    dump_end(alloc, writer, objects.len())?;
    Ok(objects.len())
}

/// Writes the objects, each of which is printed where the one before it was.
fn dump_objects<W: Writer>(
    alloc: Global,
    objects: &[&Object],
    writer: &mut W,
    full: bool,
) -> Result<(), DumpFault>
    ensures { WritesDump (flat_map (dumped full) (lent objects.now)) (W.told writer.old)
        (W.told writer.new) result }
{
    let mut text = Vec::new(alloc);
    'objects: for object in objects {
        dump_object(&mut text, object, writer, full)?;
    }
    Ok(())
}

/// Writes one object, whose text takes the place of what the buffer has.
#[tactic(auto, using(crate::proofs::Dumped::object_has_bytes))]
fn dump_object<W: Writer>(
    text: &mut Vec<u8>,
    object: &Object,
    writer: &mut W,
    full: bool,
) -> Result<(), DumpFault>
    ensures { WritesDump (dumped full object.now) (W.told writer.old)
        (W.told writer.new) result }
{
    text.clear();
    push_dumped(text, object, full)?;
    write_all(writer, text.as_slice())?;
    Ok(())
}

/// Appends an object as it stands in a dump.
fn push_dumped(text: &mut Vec<u8>, object: &Object, full: bool) -> Result<(), AllocError>
    ensures { MayAdd (dumped full object.now) text.old.items text.new.items result }
{
    if full {
        push_paragraph(text, object.paragraph())
    } else {
        push_public(text, object)
    }
}

/// Writes the last line.
#[tactic(auto, using(crate::specs::HasBytes::line_has_bytes))]
fn dump_end<W: Writer>(alloc: Global, writer: &mut W, count: usize) -> Result<(), DumpFault>
    ensures { WritesDump (end_line count) (W.told writer.old) (W.told writer.new) result }
{
    let line = format!(in alloc; "% end {count}\n")?;
    write_all(writer, line.as_bytes())?;
    Ok(())
}
