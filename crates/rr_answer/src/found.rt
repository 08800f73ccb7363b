//! What a query finds, and the text of it, which is the answer. `answering` gives it, and a desk
//! writes the text part by part. `tools/irr` and `web` read this text: who changes it changes them
//! too.

ghost use Rattle.std.specs.Prelude.{◌≡◌, IfOk};
ghost use Rattle.rr_io.specs.Sending.{Writes};
ghost use Rattle.rr_sets.specs.Lists.{lent};
ghost use Rattle.rr_answer.specs.Founds.{found_text};
ghost use Rattle.rr_answer.specs.Texts as texts;

use crate::form::{Form, forms};
use crate::writing::write_members;
use rr_io::Writer;
use rr_number::{AsNumber, Range};
use rr_object::Object;
use rr_sets::Members;
use std::alloc::{AllocError, Global};
use std::io;

/// The answer that there is no object, or no set.
const NO_ENTRIES: &[u8] = b"% no entries\n";

/// The answer that nothing is in a set.
const EMPTY: &[u8] = b"% empty\n";

/// What a query found: objects where they stand, or the members of a set. Its text is that of the
/// answer (profile), which need not be made whole to be written. Objects have their public
/// canonical texts, each with an empty line after it, or `% no entries` where there is none.
/// Members have a line each, and after them each missing name one that begins with `% missing`;
/// without either the text is `% empty`.
#[derive(Drop)]
pub enum Findings<'a> {
    /// Objects, in the order of the answer.
    Objects(Vec<Form<'a>>),
    /// The AS numbers of an as-set, and the names that are missing.
    Numbers(Members<AsNumber>),
    /// The ranges of a set of either kind, and the names that are missing.
    Ranges(Members<Range>),
}

impl<'a> Findings<'a> {
    /// The objects as they are answered: the public canonical text of each and an empty line, or
    /// `% no entries` where there is none (profile). The error is that memory ran out.
    #[tactic(auto, unfolding(crate::specs::Texts::objects_text))]
    pub(crate) fn of(alloc: Global, objects: &[&'a Object]) -> Result<Findings<'a>, AllocError>
        ensures { IfOk result (λ found. found_text found
            ≡ texts.objects_text (lent objects.now)) }
    {
        Ok(Findings::Objects(forms(alloc, objects)?))
    }

    /// Writes this text. The error is that a write failed: the writer has then taken the beginning
    /// of the text, and not all. Lack of memory is no error. Parts are gathered and written one
    /// after the other, which no clause says.
    #[tactic(auto, unfolding(crate::specs::Texts::members_text))]
    pub fn write<W: Writer>(&self, alloc: Global, writer: &mut W) -> io::Result<()>
        ensures { Writes (W.told writer.old) (W.told writer.new)
            (found_text self.now) result }
    {
        match self {
            Findings::Objects(forms) => write_members(alloc, writer, forms, &[], NO_ENTRIES),
            Findings::Numbers(members) => {
                write_members(alloc, writer, &members.found, &members.missing, EMPTY)
            }
            Findings::Ranges(members) => {
                write_members(alloc, writer, &members.found, &members.missing, EMPTY)
            }
        }
    }
}
