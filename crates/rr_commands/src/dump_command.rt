//! `irrdesk dump`: dumps, of the registry in a database, for `rr_cli`.

ghost use Rattle.std.specs.Prelude.{◌≡◌, false};
ghost use Rattle.rr_answer.specs.Dumps as dumps;
ghost use Rattle.rr_commands.specs.Commands.{AtDesk};
ghost use Rattle.rr_commands.specs.Dumped.{DumpsBy, DumpsDesk, HasDumped};
ghost use Rattle.rr_commands.specs.Worlds.{at, done_by, named, ports};

use crate::command_fault::ProgramFault;
use crate::files::Files;
use crate::host::Host;
use crate::output::{Output, ended};
use crate::progress::Shown;
use crate::registry_databases::{Databases, close, open_desk};
use crate::settings_reading::read_settings_file;
use crate::trouble::Trouble;
use rr_desk::{Desk, Settings};
use rr_io::Writer;
use sqlite::Alter;
use std::alloc::Global;

/// Prints the dump of the registry in the database that the settings name: all of each object if it
/// is to be full, and else their public forms. The status is 0. A missing database is refused
/// (`Absent::Refused`) and not made, though of files no clause says so. The desk stays as it was,
/// and its database is closed then. The fault is why there are no settings, and then no database is
/// opened, or why there is no desk, as [`open_desk`] tells it. In both cases nothing is printed. Or
/// it is that a write failed, or that memory ran out and none failed: the beginning of the dump is
/// printed, not all. The fault names what its trouble is about: the settings file, the database,
/// standard output or nothing.
pub fn dump<'a, D: Databases, F: Files, W: Output>(
    host: &mut Host<'_, D, W>,
    files: &F,
    file: &'a str,
    full: bool,
) -> Result<u8, ProgramFault<'a>>
    ensures { DumpsBy (ports D.Disk.Store D.calls (F.calls files.now)) file.now full
        (done_by W.told host.old host.new result) }
{
    let (settings, mut store) = read_settings_file(host.tools.alloc, files, file)?;
    let path = store.path.as_str();
    let end = dump_at(host, settings, path, &mut store.found, full);
    ended(host, end, file, store)
}

/// Prints the dump of the registry in the database at a path.
fn dump_at<D: Databases, W: Output>(
    host: &mut Host<'_, D, W>,
    settings: Settings,
    path: &str,
    found: &mut String,
    full: bool,
) -> Result<u8, Trouble>
    ensures { AtDesk (at D.Disk.Store D.calls) (DumpsDesk full) (named settings path.now)
        (done_by W.told host.old host.new result) }
{
    let desk = open_desk(host.tools, &mut host.databases, settings, path, found)?;
    host.output.show(Shown::Objects);
    let end = dump_to(host.tools.alloc, &desk, full, &mut host.output);
    host.output.show(Shown::Nothing);
    let conn = desk.close();
    close(&mut host.databases, conn);
    end
}

/// Writes the dump of a desk that runs, full if that is asked for, and gives the status 0. The
/// trouble is that a write failed, or that memory ran out and none failed: the beginning of the
/// dump is written, not all.
pub fn dump_to<S: Alter, W: Writer>(
    alloc: Global,
    desk: &Desk<S>,
    full: bool,
    writer: &mut W,
) -> Result<u8, Trouble>
    requires { desk.now.stock.stopped ≡ false }
    ensures { HasDumped (dumps.dump full desk.now.stock.registry)
        (W.told writer.old) (W.told writer.new) result }
{
    match desk.dump(alloc, writer, full) {
        Ok(_) => Ok(0),
        Err(fault) => Err(Trouble::Dumping(fault)),
    }
}
