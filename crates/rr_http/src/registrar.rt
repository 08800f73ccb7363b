//! Whom connections ask: a desk (`desk_registrar`), or what does as one. `serve_one` alone asks it.

ghost use Rattle.std.specs.Prelude.{◌≡◌, true, false, ℕ, List};
ghost use Rattle.rr_submission.specs.declared.ledger.Ledger.{Ghosts};
ghost use Rattle.rr_submission.specs.Submissions.{RefusesSubmission, SubmitsText};
ghost use Rattle.rr_desk.specs.Dumping.{Dumps, RefusesDump};
ghost use Rattle.rr_desk.specs.Settings.{SettingsParts};
ghost use Rattle.rr_http.specs.Registrars.{AnswersInWriting, Leaves, LeavesSubmitted};

use rr_desk::{DeskDumpFault, Done, SubmissionFault, WriteFault};
use rr_io::{Reader, Writer};
use std::alloc::Global;

/// What answers queries, gives the public dump, and takes submissions, as a desk does.
pub trait Registrar {
    // How it decides items, what lasts of it and what it keeps, its registry, and whether it is
    // stopped: then it takes no submission and gives no dump.
    ghost ledger: { Ghosts Self };

    // Its settings.
    ghost settings: { Self → SettingsParts };

    // From this state it answers this query with this text, and is in this state then.
    ghost Answers: { Self → List ℕ → List ℕ → Self → Type 0 };

    // The public dump.
    ghost dumped: { Self → List ℕ };

    /// Whether it is stopped, as `ledger` says.
    fn stopped(&self) -> bool
        ensures { result ≡ ledger.is_stopped self.now };

    /// Answers a query with a text, and is in some state then; both are as `Answers` says. `Ok`
    /// says that the text is written whole. The error is that a write failed: the writer has taken
    /// the beginning of the text, and not all of it.
    fn answer<W: Writer>(
        &mut self,
        alloc: Global,
        query: &[u8],
        writer: &mut W,
    ) -> Result<(), WriteFault>
        ensures { AnswersInWriting Answers query.now self.old self.new
            (W.told writer.old) (W.told writer.new) result };

    /// Writes the public dump, which is that of `dumped`. If the registrar is stopped, the fault is
    /// `Stopped`, and nothing is written. Otherwise the fault is that a write failed, or that
    /// memory ran out and none failed. The beginning of the dump is written then, and not all of
    /// it.
    fn dump<W: Writer>(&self, alloc: Global, writer: &mut W) -> Result<(), DeskDumpFault>
        ensures stopped { ledger.is_stopped self.now ≡ true
            → RefusesDump writer.old writer.new result }
        ensures dumps { ledger.is_stopped self.now ≡ false
            → Dumps (dumped self.now) (W.told writer.old) (W.told writer.new) result };

    /// Submits what the reader gives, in the source of the settings, and writes the report, as
    /// `rr_submission::submit` says of a ledger. If the registrar is stopped, it answers `Stopped`,
    /// stays as it is, and reads and writes nothing.
    ///
    /// Only a fault of the store (`LedgerStopped`) stops it. After any other end it keeps what it
    /// is to keep (`Kept` of its ledger), as a desk the rows of its registry. What is to last of it
    /// (`Lasts`) lasts, its settings stay, and a registry of its source stays one. Where a prefix
    /// is held, and each item up to a fault of the store is foreign to its holders or their own,
    /// nobody else changes what they hold.
    fn submit<R: Reader, W: Writer>(
        &mut self,
        alloc: Global,
        reader: &mut R,
        writer: &mut W,
    ) -> Result<Done, SubmissionFault>
        ensures stopped { ledger.is_stopped self.old ≡ true → RefusesSubmission
            self.old self.new reader.old reader.new writer.old writer.new result }
        ensures submits { ledger.is_stopped self.old ≡ false
            → SubmitsText ledger self.old self.new (settings self.old).source
            (R.told reader.old) (R.told reader.new) (W.told writer.old) (W.told writer.new) result }
        ensures leaves { ledger.is_stopped self.old ≡ false
            → LeavesSubmitted ledger settings self.old self.new result };

    // What lasts of it lasts where nothing is done.
    ghost lasts_still: { (registrar : Self) → ledger.Lasts registrar registrar };

    // An answer leaves its settings, and what is to last of it.
    ghost answer_leaves: { (before : Self) (query text : List ℕ) (after : Self)
        → Answers before query text after → Leaves ledger settings before after };
}
