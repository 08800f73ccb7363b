//! `irrdesk query`: queries, of the registry in a database, for `rr_cli`.

ghost use Rattle.std.specs.Prelude.{◌≡◌, false};
ghost use Rattle.rr_commands.specs.Asked.{AsksBy, HasAsked, error_status};
ghost use Rattle.rr_commands.specs.Commands.{AtDesk};
ghost use Rattle.rr_commands.specs.Worlds.{at, deed, done_by, named, ports};

use crate::command_fault::ProgramFault;
use crate::files::Files;
use crate::host::Host;
use crate::output::{Output, ended};
use crate::registry_databases::{Databases, close, open_desk};
use crate::settings_reading::read_settings_file;
use crate::trouble::Trouble;
use rr_desk::{Answered, Desk, Settings};
use rr_io::Writer;
use sqlite::Alter;
use std::alloc::Global;

/// The status if the answer is an error.
const ERROR: u8 = 1;

/// Asks the registry in the database that the settings name, and prints the answer: the status is
/// 0, or 1 if the answer is an error. A missing database is refused (`Absent::Refused`) and not
/// made, though of files no clause says so. The desk stays as it was and keeps its rows, and its
/// database is closed then. The fault is why there are no settings, and then no database is opened,
/// or why there is no desk, as [`open_desk`] tells it. In both cases nothing is printed. Or it is
/// that a write failed, and the beginning of the answer is printed, not all. The fault names what
/// its trouble is about: the settings file, the database or standard output.
pub fn query<'a, D: Databases, F: Files, W: Output>(
    host: &mut Host<'_, D, W>,
    files: &F,
    file: &'a str,
    text: &str,
) -> Result<u8, ProgramFault<'a>>
    ensures { AsksBy (ports D.Disk.Store D.calls (F.calls files.now)) file.now text.now
        (done_by W.told host.old host.new result) }
{
    let (settings, mut store) = read_settings_file(host.tools.alloc, files, file)?;
    let path = store.path.as_str();
    let end = query_at(host, settings, path, &mut store.found, text.as_bytes());
    ended(host, end, file, store)
}

/// Asks the registry in the database at a path, and prints the answer.
fn query_at<D: Databases, W: Output>(
    host: &mut Host<'_, D, W>,
    settings: Settings,
    path: &str,
    found: &mut String,
    text: &[u8],
) -> Result<u8, Trouble>
    ensures { AtDesk (at D.Disk.Store D.calls) (HasAsked D.Disk.Store text.now)
        (named settings path.now) (done_by W.told host.old host.new result) }
{
    let desk = open_desk(host.tools, &mut host.databases, settings, path, found)?;
    let end = answer_to(host.tools.alloc, &desk, text, &mut host.output);
    let conn = desk.close();
    close(&mut host.databases, conn);
    end
}

/// Asks a desk that runs, and writes the answer: the status is 0, or 1 if the answer is an error.
/// The trouble is that a write failed, and the beginning of the answer is written, not all. Where
/// the disk gives back what was written, the desk keeps its rows while its database is open, and a
/// stop of the process leaves them.
pub fn answer_to<S: Alter, W: Writer>(
    alloc: Global,
    desk: &Desk<S>,
    query: &[u8],
    writer: &mut W,
) -> Result<u8, Trouble>
    requires { desk.now.stock.stopped ≡ false }
    ensures { HasAsked S.Store query.now
        (deed desk.now desk.now (W.told writer.old) (W.told writer.new) result) }
{
    match desk.answer(alloc, query, writer) {
        Ok(answered) => Ok(answered_status(answered)),
        Err(_) => Err(Trouble::Unwritten),
    }
}

/// 0 if no error was written, and else 1.
fn answered_status(answered: Answered) -> u8
    ensures { result ≡ error_status answered.error }
{
    if answered.error == 0 { 0 } else { ERROR }
}
