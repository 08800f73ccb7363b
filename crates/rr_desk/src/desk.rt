//! Desks: a registry with its tables, to which submissions are made. The commands of the program
//! make, open and close them, and `rr_http` serves them.

ghost use Rattle.std.specs.Prelude.{◌≡◌, false, true, IfErr, IfOk, is_some};
ghost use Rattle.rr_submission.specs.Submissions.{RefusesSubmission};
ghost use Rattle.rr_desk.specs.Desks.{LeavesDesk, SubmitsTo};
ghost use Rattle.rr_desk.specs.Events as events;
ghost use Rattle.rr_desk.specs.Histories.{Happens, MakesEvent, OpensEvent};
ghost use Rattle.rr_desk.specs.Histories as histories;
ghost use Rattle.rr_desk.specs.Opened.{FailsToMakeTables, FailsToOpenTables, HasOpeningRows};
ghost use Rattle.rr_desk.specs.Opened.{IsRunning, MakesTables, OpensTables};
ghost use Rattle.rr_desk.specs.Opening.{IsOpeningRegistry};
ghost use Rattle.rr_desk.specs.Stocks.{StoresUntilStopped};

use crate::opened::{create_stored, open_stored};
use crate::opening::opening_registry;
use crate::settings::Settings;
use crate::stock::Stock;
use rr_index::IndexedBook;
use rr_io::{Reader, Writer};
use rr_registry::Registry;
use rr_store::{CreateFault, IdleConnection, OpenFault};
use rr_submission::{Done, SubmissionFault};
use sqlite::{Alter, Error};
use std::alloc::Global;

/// A registry by its settings, kept in tables. A fault of the store stops it until it is opened
/// again. What its functions say of tables, rows, the rest of the file, and a connection that was
/// open, holds where the disk gives back what was written. Where they say that its rows are those
/// of its registry, the connection is open, and the tables hold no other rows. A stop of the
/// process leaves these rows too. That a fault leaves rows or tables as they were holds while also
/// the connection is open, and then it was open before.
///
/// No call forgets a fault of the disk, and nothing but such a fault shuts the connection. Its
/// limit of steps stays, and reads that are tested against a digest still are. What a call did, or
/// why it did nothing, is also an event of the history of its database, as its clause `event` says.
///
/// A registry of the settings' source is sound, and each object in it is what its paragraph reads
/// as there. A cause outside the rows is one of these: memory ran out, the disk failed or refused,
/// the connection was shut, or a limit of steps interrupted the call. The rest of the file is its
/// schema, the rows of its tables beside the three, and each other tree that is not an index's.
#[derive(Drop)]
pub struct Desk<S: Alter> {
    pub(crate) settings: Settings,
    pub(crate) stock: Stock<S>,
}

impl<S: Alter> Desk<S> {
    /// The desk of the registry that opens with these settings. Its objects are the root
    /// maintainer, the two blocks of AS numbers and the span of all addresses. The desk runs with
    /// the settings, its registry is one of their source, and its rows are those of it. The
    /// database had no table, index or view, or the three tables and no row in them, and the
    /// connection was open. Where nothing stood, the tables of a new store are made, and nothing
    /// else; where the three stood, the rest of the file stays.
    ///
    /// After a fault the connection is given back, in no transaction and with all tables as they
    /// were. `NotEmpty` comes only where the three tables are there, and one of them has a row.
    /// Where one has, an error of the database has a cause outside the rows. Where something
    /// stands, but not the three, such an error says that a table is not there. When `Memory`
    /// comes, no clause says.
    ///
    /// The rows are written whole or not at all. A stop of the process during the call leaves what
    /// one before it left. Or, where the connection was open and there was room for them, it leaves
    /// the new tables whole.
    pub fn create(
        alloc: Global,
        conn: IdleConnection<S>,
        settings: Settings,
    ) -> Result<Desk<S>, (CreateFault, IdleConnection<S>)>
        ensures runs { IfOk result (IsRunning S.Store settings) }
        ensures opening { IfOk result (λ desk. IsOpeningRegistry settings desk.stock.registry) }
        ensures makes { IfOk result (λ desk.
            MakesTables S.Store (HasOpeningRows settings) conn desk.stock.store) }
        ensures fails { IfErr result (λ e.
            FailsToMakeTables S.Store (HasOpeningRows settings) conn e.1 e.0) }
        ensures event { MakesEvent S.Store settings (events.of_settings settings) conn result }
    {
        let Ok(registry) = opening_registry(alloc, &settings) else {
            conn.note_idle();
            return Err((CreateFault::Memory, conn));
        };
        let stock = create_stored(alloc, conn, registry)?;
        Ok(Desk { settings, stock })
    }

    /// The desk of the registry of the settings' source whose rows, and no others, the tables of
    /// version 2 hold. It runs with these settings, and its rows are those of its registry. The
    /// connection was open, and nothing is changed or committed.
    ///
    /// After a fault the connection is given back, in no transaction and with all tables as they
    /// were, and nothing was committed. `WrongVersion` gives another version that a row of `meta`
    /// says. `BadRow` says that no row of `meta` says another version of 32 bits. The tables then
    /// hold the rows of no registry of the source in version 2. Both come only where the three
    /// tables are there. Where they are not, the fault is an error of the database, that a table is
    /// not there. Where they are, and each row has its own number, such an error has a cause
    /// outside the rows. When `Memory` comes, no clause says. A stop of the process during the call
    /// leaves what one before it left.
    pub fn open(
        alloc: Global,
        conn: IdleConnection<S>,
        settings: Settings,
    ) -> Result<Desk<S>, (OpenFault, IdleConnection<S>)>
        ensures runs { IfOk result (IsRunning S.Store settings) }
        ensures opens { IfOk result (λ desk. OpensTables S.Store conn desk.stock) }
        ensures fails { IfErr result (λ e.
            FailsToOpenTables S.Store settings.source conn e.1 e.0) }
        ensures event { OpensEvent S.Store settings conn result }
    {
        let stock = open_stored(alloc, conn, settings.source())?;
        Ok(Desk { settings, stock })
    }

    /// Submits what the reader gives, and writes the report. The items are read in the settings'
    /// source and decided one by one, in order. Each is decided before its line is written, and its
    /// rows are written whole or not at all. `Done` counts the items and those refused; a fault,
    /// where it counts, the items that stand. A stopped desk answers `Stopped`, stays as it is, and
    /// reads and writes nothing.
    ///
    /// If a read fails, or the text has no end within 16,777,216 reads, the items that came whole
    /// are decided, and their lines written. A last line says so, or is cut short. If the line of
    /// an item cannot be written, that item and those before it stand, and those after it are not
    /// decided. Up to 4,096 bytes after it may have been read. If the last line cannot be written,
    /// all items stand. If memory runs out before the first item, nothing is read, and a last line
    /// says so or is cut short. Later it refuses the item, or counts as a fault of the store; no
    /// clause says when.
    ///
    /// Only a fault of the store stops the desk, at an item that was to add, change or delete an
    /// object. The items before it stand. The registry in memory has that item too, and the rows do
    /// not while the connection is open. A stop of the process or machine leaves the rows of those
    /// before it, or these with that item whole, and the rest of the file as it was. At that item a
    /// line with E91 and a last line are written as far as they can be. The items after it are not
    /// decided, though up to 4,096 bytes after it may have been read. Until the desk is stopped,
    /// its rows are those of its registry. If the registry was one of the settings' source, it
    /// still is, stopped or not.
    ///
    /// Where a prefix is held, and each item is foreign to its holders or their own, those not
    /// foreign are answered as if nobody else had submitted anything. What the holders hold ends as
    /// it then would, and the prefix stays held. Where a fault of the store stops the desk, this is
    /// said of the items before that one. That one, if foreign, leaves what they hold as it was,
    /// and the prefix held.
    ///
    /// However the submission ends, no fault of the disk is forgotten, and nothing but such a fault
    /// shuts the connection. The settings stay. While the connection is open, it was open before,
    /// and the rest of the file is as it was.
    pub fn submit<R: Reader, W: Writer>(
        &mut self,
        alloc: Global,
        reader: &mut R,
        writer: &mut W,
    ) -> Result<Done, SubmissionFault>
        ensures stopped { self.old.stock.stopped ≡ true → RefusesSubmission
            self.old self.new reader.old reader.new writer.old writer.new result }
        ensures submits { self.old.stock.stopped ≡ false → SubmitsTo S.Store self.old self.new
            (R.told reader.old) (R.told reader.new) (W.told writer.old) (W.told writer.new) result }
        ensures leaves { LeavesDesk S.Store self.old self.new result }
        ensures event { Happens S.Store (histories.at_desk self.old)
            (events.submitted (R.told reader.old) (R.told reader.new)
            (W.told writer.old) (W.told writer.new) result)
            (histories.at_desk self.new) }
    {
        let source = self.settings.source();
        rr_submission::submit(alloc, &mut self.stock, source, reader, writer)
    }

    /// The settings.
    pub fn settings(&self) -> &Settings
        ensures { result.now ≡ self.now.settings }
    {
        &self.settings
    }

    /// Whether a fault of the store stopped the desk; until then its rows are those of its
    /// registry.
    pub fn stopped(&self) -> bool
        ensures told { result ≡ self.now.stock.stopped }
        ensures rows { StoresUntilStopped S.Store self.now.stock }
    {
        self.stock.stopped()
    }

    /// Always true. Until a fault of the store stops the desk, its rows are those of its registry:
    /// `prove!` asks this where a proof needs it and the code does not.
    pub fn keeps_its_rows(&self) -> bool
        ensures always { result ≡ true }
        ensures rows { StoresUntilStopped S.Store self.now.stock }
    {
        self.stock.stopped() == self.stock.cause().is_some()
    }

    /// The error of the database that stopped the desk. There is one exactly where the desk is
    /// stopped.
    pub fn cause(&self) -> Option<Error>
        ensures cause { result ≡ self.now.stock.cause }
        ensures stopped { self.now.stock.stopped ≡ is_some result }
    {
        self.stock.cause()
    }

    /// The registry.
    pub fn registry(&self) -> &Registry<IndexedBook>
        ensures { result.now ≡ self.now.stock.registry }
    {
        self.stock.registry()
    }

    /// Takes the desk apart and returns its connection, in no transaction, open or shut as it is;
    /// the rows stay.
    pub fn close(self) -> IdleConnection<S>
        ensures same { result ≡ self.stock.store }
        ensures autocommit { result.in_transaction ≡ false }
        ensures event { Happens S.Store (histories.at_desk self) events.closed
            (histories.at_rest result) }
    {
        let Desk { stock, .. } = self;
        stock.close()
    }
}
