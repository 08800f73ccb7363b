//! `irrdesk init`: the making of registries, for `rr_cli`.

ghost use Rattle.rr_commands.specs.Commands.{InDatabase};
ghost use Rattle.rr_commands.specs.Created.{CreatesBy, CreatesIn};
ghost use Rattle.rr_commands.specs.Worlds.{at, deed, done_by, named, ports};

use crate::command_fault::ProgramFault;
use crate::files::Files;
use crate::host::Host;
use crate::output::{Output, ended, tell};
use crate::registry_databases::{Absent, Databases, close};
use crate::settings_reading::read_settings_file;
use crate::trouble::Trouble;
use rr_desk::{Desk, Settings};
use rr_io::Writer;
use rr_store::IdleConnection;
use sqlite::Alter;
use std::alloc::Global;

/// Makes the registry that opens with the settings in `file`, in the database that they name, and
/// says so. A missing database is made (`Absent::Made`), though of files no clause says so. One
/// that exists is to have nothing in it, or the three tables and no row. At the end the database is
/// closed as [`Desk::create`] leaves it. The status is 0. The fault is why there are no settings,
/// and then no database is opened, or why there is no database or no registry. In these cases
/// nothing is printed. What the database had stands while it is open, though a stop of the process
/// may leave the tables. Or the fault is that the line was not printed whole, and then the registry
/// is made. The fault names what its trouble is about: the settings file, the database, standard
/// output or nothing. What is said of rows holds where the disk gives back what was written.
pub fn init<'a, D: Databases, F: Files, W: Output>(
    host: &mut Host<'_, D, W>,
    files: &F,
    file: &'a str,
) -> Result<u8, ProgramFault<'a>>
    ensures { CreatesBy (ports D.Disk.Store D.calls (F.calls files.now)) file.now
        (done_by W.told host.old host.new result) }
{
    let (settings, store) = read_settings_file(host.tools.alloc, files, file)?;
    let end = init_at(host, settings, store.path.as_str());
    ended(host, end, file, store)
}

/// Makes the registry that opens with these settings in the database at a path, and says so.
fn init_at<D: Databases, W: Output>(
    host: &mut Host<'_, D, W>,
    settings: Settings,
    path: &str,
) -> Result<u8, Trouble>
    ensures { InDatabase (at D.Disk.Store D.calls) Absent.Made
        (CreatesIn D.Disk.Store) (named settings path.now)
        (done_by W.told host.old host.new result) }
{
    match host.databases.open(path, Absent::Made) {
        Ok(conn) => {
            let (conn, end) = create_to(host.tools.alloc, conn, settings, &mut host.output);
            close(&mut host.databases, conn);
            end
        }
        Err(cause) => Err(Trouble::Database(cause)),
    }
}

/// Makes the registry that opens with these settings in a database, writes that it did, and gives
/// the status 0. The trouble is why none was made, and nothing is written then; or that the line
/// could not be written whole, and then the registry is made. The connection is given back, and its
/// database is as [`Desk::create`] leaves it (profile).
pub fn create_to<S: Alter, W: Writer>(
    alloc: Global,
    conn: IdleConnection<S>,
    settings: Settings,
    writer: &mut W,
) -> (IdleConnection<S>, Result<u8, Trouble>)
    ensures { CreatesIn S.Store settings
        (deed conn result.0 (W.told writer.old) (W.told writer.new) result.1) }
{
    match Desk::create(alloc, conn, settings) {
        Ok(desk) => {
            let told = tell(writer, b"created 4 objects\n");
            (desk.close(), told)
        }
        Err((fault, conn)) => (conn, Err(Trouble::Creating(fault))),
    }
}
