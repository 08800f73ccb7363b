//! Desks made from dumps, as `irrdesk load` makes them.

ghost use Rattle.std.specs.Prelude.{◌≡◌, IfErr, IfOk};
ghost use Rattle.rr_auth.specs.Sources.{IsRegistryOf};
ghost use Rattle.rr_desk.specs.Events as events;
ghost use Rattle.rr_desk.specs.Histories.{MakesEvent};
ghost use Rattle.rr_desk.specs.Loaded.{FailsToLoad, FailsToLoadTables, HasLoadedRows, IsLoaded};
ghost use Rattle.rr_desk.specs.Opened.{IsRunning, MakesTables};
ghost use Rattle.rr_desk.specs.Private.{IsNotOfStore};

use crate::desk::Desk;
use crate::dump_read_fault::DumpReadFault;
use crate::dump_reading::read_dump;
use crate::opened::create_stored;
use crate::settings::Settings;
use rr_index::IndexedBook;
use rr_io::Reader;
use rr_number::Name;
use rr_registry::{LoadFault, Registry};
use rr_store::{CreateFault, IdleConnection};
use sqlite::Alter;
use std::alloc::Global;

/// Why no desk was made from a dump: while the connection is open, its tables are as they were.
/// Entries and objects are counted from 1. A failed read, or no end within 16,777,216 reads, is
/// judged first, then the first entry that is not an object of the source. Then comes the first
/// object whose key one before it has, or whose span crosses that of one before it. Then comes the
/// first object that names a maintainer who is not among the objects. The store is asked last.
#[derive(Clone, Copy, Debug, PartialEq, Eq)]
pub enum DeskLoadFault {
    /// The dump was not read, or an entry of it is not an object of the source.
    Unread(DumpReadFault),
    /// The dump was read to its end, and its objects are not a registry, or memory ran out.
    Untaken(LoadFault),
    /// The dump is that of a registry, and no store of it was made.
    Unmade(CreateFault),
}

impl From<DumpReadFault> for DeskLoadFault {
    ghost use Rattle.std.specs.Prelude.{◌≡◌};
    ghost use Rattle.rr_desk.specs.declared.loading.DeskLoadFault.TheVariants.{Unread};

    ghost from_gives = { λ refused fault. fault ≡ Unread refused };

    fn from(refused: DumpReadFault) -> DeskLoadFault {
        DeskLoadFault::Unread(refused)
    }
}

impl From<LoadFault> for DeskLoadFault {
    ghost use Rattle.std.specs.Prelude.{◌≡◌};
    ghost use Rattle.rr_desk.specs.declared.loading.DeskLoadFault.TheVariants.{Untaken};

    ghost from_gives = { λ refused fault. fault ≡ Untaken refused };

    fn from(refused: LoadFault) -> DeskLoadFault {
        DeskLoadFault::Untaken(refused)
    }
}

impl<S: Alter> Desk<S> {
    /// The desk of the registry whose dump this reader gives. The dump is read to its end: any RPSL
    /// text whose entries are the objects of a sound registry, each as it is read in the settings'
    /// source. The desk runs with the settings, its registry is one of their source, and its rows
    /// are those of it. The database had no table, index or view, or the three tables and no row in
    /// them, and the connection was open. Where nothing stood, the tables of a new store are made,
    /// and nothing else; where the three stood, the rest of the file stays.
    ///
    /// After a fault the connection is given back, in no transaction and with all tables as they
    /// were. `Unread` and `Untaken` say why the dump gives no registry, as [`DeskLoadFault`] has
    /// it. `Unmade` comes only of a dump of a registry that was read to its end. In it `NotEmpty`
    /// comes only where the three tables are there, and one of them has a row. Where one has, an
    /// error of the database has a cause outside the rows. Where something stands, but not the
    /// three, such an error says that a table is not there. When memory runs out, no clause says.
    ///
    /// The rows are written whole or not at all. A stop of the process during the call leaves what
    /// one before it left. Or, where the connection was open and there was room for them, it leaves
    /// the new tables whole.
    pub fn load<R: Reader>(
        alloc: Global,
        conn: IdleConnection<S>,
        settings: Settings,
        reader: &mut R,
    ) -> Result<Desk<S>, (DeskLoadFault, IdleConnection<S>)>
        ensures runs { IfOk result (IsRunning S.Store settings) }
        ensures loaded { IfOk result (λ desk. IsLoaded settings.source
            (R.told reader.old) (R.told reader.new) desk.stock.registry) }
        ensures makes { IfOk result (λ desk. MakesTables S.Store (HasLoadedRows settings.source
            (R.told reader.old) (R.told reader.new)) conn desk.stock.store) }
        ensures fails { IfErr result (λ e. FailsToLoadTables S.Store settings.source
            (R.told reader.old) (R.told reader.new) conn e.1 e.0) }
        ensures event { MakesEvent S.Store settings (events.of_dump settings.source
            (R.told reader.old) (R.told reader.new)) conn result }
    {
        match read_registry(alloc, settings.source(), reader) {
            Ok(registry) => match create_stored(alloc, conn, registry) {
                Ok(stock) => Ok(Desk { settings, stock }),
                Err((fault, conn)) => Err((DeskLoadFault::Unmade(fault), conn)),
            },
            Err(fault) => {
                conn.note_idle();
                Err((fault, conn))
            }
        }
    }
}

/// The registry of this source whose dump the reader gives.
fn read_registry<R: Reader>(
    alloc: Global,
    source: &Name,
    reader: &mut R,
) -> Result<Registry<IndexedBook>, DeskLoadFault>
    ensures loaded { IfOk result (IsLoaded source.now (R.told reader.old) (R.told reader.new)) }
    ensures of_source { IfOk result (IsRegistryOf source.now) }
    ensures why { IfErr result (FailsToLoad source.now (R.told reader.old) (R.told reader.new)) }
    ensures not_of_store { IfErr result IsNotOfStore }
{
    let objects = read_dump(alloc, reader, source)?;
    let registry = Registry::from_objects(alloc, objects)?;
    Ok(registry)
}
