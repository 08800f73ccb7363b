//! The last line of a report, which says how the submission ended. `handling` writes it.
//! `tools/irr` and `web` read it: who changes it changes them too.

ghost use Rattle.std.specs.Prelude.{◌≡◌};
ghost use Rattle.rr_io.specs.Sending.{Writes};
ghost use Rattle.rr_submission.specs.Endings.{before_count, after_count, last_line};

use crate::short_text::ShortText;
use rr_io::{Writer, write_all};
use std::io;

/// How a submission ended, as its last line says. There is none after a write fault in the line of
/// an item, or where the ledger was stopped before.
#[derive(Clone, Copy, Debug, PartialEq, Eq)]
pub enum Ending {
    /// With the end of its text.
    Complete,
    /// With a failed read, or because the text had no end within 16,777,216 reads.
    ReadFault,
    /// Because memory ran out, before its first item.
    Memory,
    /// Because the ledger stopped at an item, whose line has the code E91.
    Stopped,
}

impl Ending {
    /// What stands before the count of items.
    fn before_count(self) -> &'static str
        ensures { result.now ≡ before_count self }
    {
        match self {
            Ending::Complete => "% items ",
            Ending::ReadFault => "% read fault after ",
            Ending::Memory => "% memory after ",
            Ending::Stopped => "% stopped after ",
        }
    }

    /// What stands after the count of items, with the LF.
    fn after_count(self) -> &'static str
        ensures { result.now ≡ after_count self }
    {
        match self {
            Ending::Complete => "\n",
            Ending::ReadFault | Ending::Memory | Ending::Stopped => " items\n",
        }
    }
}

/// Writes the last line of a report, with how many items were decided. The first call of the writer
/// is given all of it, which no clause says. After a fault the writer has taken the beginning of
/// it, and not all.
pub(crate) fn write_last_line<W: Writer>(
    writer: &mut W,
    ending: Ending,
    items: u64,
) -> io::Result<()>
    ensures { Writes (W.told writer.old) (W.told writer.new)
        (last_line ending items) result }
{
    write_all(writer, last_line(ending, items).as_bytes())
}

/// The last line.
fn last_line(ending: Ending, items: u64) -> ShortText
    ensures { result ≡ last_line ending items }
{
    let mut line = ShortText::new();
    line.push(ending.before_count().as_bytes());
    line.push_number(items);
    line.push(ending.after_count().as_bytes());
    line
}
