//! `irrdesk migrate`: the migration of databases of version 1, for `rr_cli`.

ghost use Rattle.rr_commands.specs.Commands.{InDatabase};
ghost use Rattle.rr_commands.specs.Migrated.{IsDiagnosed, MigratesBy, MigratesIn};
ghost use Rattle.rr_commands.specs.Worlds.{at, deed, done_by, named, ports};

use crate::command_fault::ProgramFault;
use crate::diagnosis::told_of;
use crate::files::Files;
use crate::host::Host;
use crate::output::{Output, ended, tell};
use crate::registry_databases::{Absent, Databases, close};
use crate::settings_reading::read_settings_file;
use crate::trouble::Trouble;
use rr_desk::{Desk, Settings};
use rr_io::Writer;
use rr_store::IdleConnection;
use sqlite::Alter;
use std::alloc::Global;

/// Turns the tables of version 1, in the database that the settings name, into those of version 2,
/// and says so. The block of the AS numbers above 65535 is added (RFC 6793). A missing database is
/// refused (`Absent::Refused`) and not made, though of files no clause says so. One that is opened
/// is closed as [`Desk::migrate`], or a further look at it, leaves it. The status is 0.
///
/// The fault is why there are no settings, and then no database is opened, or why there is no
/// database, or why the tables were not migrated. In these cases nothing is printed. In place of
/// why the tables were not migrated it may be what a further look at the database may find, which
/// commits nothing. No clause says that it is so. Or it is that the line was not printed whole, and
/// then the tables are migrated. The fault names what its trouble is about: the settings file, the
/// database, standard output or nothing.
pub fn migrate<'a, D: Databases, F: Files, W: Output>(
    host: &mut Host<'_, D, W>,
    files: &F,
    file: &'a str,
) -> Result<u8, ProgramFault<'a>>
    ensures { MigratesBy (ports D.Disk.Store D.calls (F.calls files.now)) file.now
        (done_by W.told host.old host.new result) }
{
    let (settings, mut store) = read_settings_file(host.tools.alloc, files, file)?;
    let end = migrate_at(host, settings, store.path.as_str(), &mut store.found);
    ended(host, end, file, store)
}

/// Migrates the tables of version 1 of the database at a path, and says so.
fn migrate_at<D: Databases, W: Output>(
    host: &mut Host<'_, D, W>,
    settings: Settings,
    path: &str,
    found: &mut String,
) -> Result<u8, Trouble>
    ensures { InDatabase (at D.Disk.Store D.calls) Absent.Refused
        (λ settings. IsDiagnosed D.Disk.Store (MigratesIn D.Disk.Store settings))
        (named settings path.now) (done_by W.told host.old host.new result) }
{
    match host.databases.open(path, Absent::Refused) {
        Ok(conn) => {
            let output = &mut host.output;
            let (conn, end) = migrate_told(host.tools.alloc, conn, settings, found, output);
            close(&mut host.databases, conn);
            end
        }
        Err(cause) => Err(Trouble::Database(cause)),
    }
}

/// Migrates the tables of version 1 of a database, and says so, or what is found the matter with it
/// if it is refused. The connection is given back.
fn migrate_told<S: Alter, W: Writer>(
    alloc: Global,
    conn: IdleConnection<S>,
    settings: Settings,
    found: &mut String,
    output: &mut W,
) -> (IdleConnection<S>, Result<u8, Trouble>)
    ensures { IsDiagnosed S.Store (MigratesIn S.Store settings)
        (deed conn result.0 (W.told output.old) (W.told output.new) result.1) }
{
    let source = settings.source().copy(alloc);
    let (mut conn, end) = migrate_to(alloc, conn, settings, output);
    let told = told_of(alloc, &mut conn, source, end, found);
    (conn, told)
}

/// Migrates the tables of version 1 of a database, writes that it did, and gives the status 0. The
/// block of the AS numbers above 65535 is added (RFC 6793). The trouble is why the tables were not
/// migrated, and nothing is written then; or that the line could not be written whole, and then
/// they are migrated. The connection is given back, and its database is as [`Desk::migrate`] leaves
/// it (profile).
pub fn migrate_to<S: Alter, W: Writer>(
    alloc: Global,
    conn: IdleConnection<S>,
    settings: Settings,
    writer: &mut W,
) -> (IdleConnection<S>, Result<u8, Trouble>)
    ensures { MigratesIn S.Store settings
        (deed conn result.0 (W.told writer.old) (W.told writer.new) result.1) }
{
    match Desk::migrate(alloc, conn, settings) {
        Ok(desk) => {
            let told = tell(writer, b"migrated to version 2\n");
            (desk.close(), told)
        }
        Err((fault, conn)) => (conn, Err(Trouble::Migrating(fault))),
    }
}
