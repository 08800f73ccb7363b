//! What a desk writes as the dump of its registry: full or public for `irrdesk dump`, public for
//! `rr_http`.

ghost use Rattle.std.specs.Prelude.{◌≡◌, false, true, length, IfOk};
ghost use Rattle.std.specs.FinMap.{values};
ghost use Rattle.rr_answer.specs.Dumps as dumps;
ghost use Rattle.rr_desk.specs.Dumping.{Dumps, RefusesDump};
ghost use Rattle.rr_desk.specs.Events as events;
ghost use Rattle.rr_desk.specs.Histories.{Happens};
ghost use Rattle.rr_desk.specs.Histories as histories;

use crate::desk::Desk;
use rr_io::Writer;
use sqlite::Alter;
use std::alloc::Global;

/// Why there is no dump, or not all of one.
#[derive(Clone, Copy, Debug, PartialEq, Eq)]
pub enum DeskDumpFault {
    /// A write failed.
    Write,
    /// Memory ran out, and no write failed.
    Memory,
    /// The desk is stopped.
    Stopped,
}

impl From<rr_answer::DumpFault> for DeskDumpFault {
    ghost use Rattle.std.specs.Prelude.{◌≡◌};
    ghost use Rattle.rr_desk.specs.Dumping.{fault_of_cut};

    ghost from_gives = { λ cut fault. fault ≡ fault_of_cut cut };

    fn from(cut: rr_answer::DumpFault) -> DeskDumpFault {
        match cut {
            rr_answer::DumpFault::Write => DeskDumpFault::Write,
            rr_answer::DumpFault::Memory => DeskDumpFault::Memory,
        }
    }
}

impl<S: Alter> Desk<S> {
    /// Writes a dump of the registry: its objects by class and key, each with an empty line after
    /// it, and a last line that counts them. `full` prints all their text, otherwise their public
    /// forms (profile). It returns how many objects there are. After `Write` or `Memory` the writer
    /// has taken the beginning of the dump, and not all of it. A stopped desk alone answers
    /// `Stopped`, and writes nothing. The event of a desk that runs has the whole dump, also where
    /// not all was written.
    pub fn dump<W: Writer>(
        &self,
        alloc: Global,
        writer: &mut W,
        full: bool,
    ) -> Result<usize, DeskDumpFault>
        ensures stopped { self.now.stock.stopped ≡ true
            → RefusesDump writer.old writer.new result }
        ensures dumps { self.now.stock.stopped ≡ false
            → Dumps (dumps.dump full self.now.stock.registry)
            (W.told writer.old) (W.told writer.new) result }
        ensures count { IfOk result (λ count. count ≡ length (values self.now.stock.registry)) }
        ensures event { self.now.stock.stopped ≡ false → Happens S.Store
            (histories.at_desk self.now)
            (events.dumped full (dumps.dump full self.now.stock.registry))
            (histories.at_desk self.now) }
    {
        if self.stock.stopped() {
            return Err(DeskDumpFault::Stopped);
        }
        Ok(rr_answer::dump(alloc, self.stock.registry(), writer, full)?)
    }
}
