//! `irrdesk submit`: submissions, of a file to the registry in a database; and `irrdesk` without
//! arguments: of standard input to one in memory. Both are for `rr_cli`.

ghost use Rattle.std.specs.Prelude.{◌≡◌, IfErr, IfOk, false};
ghost use Rattle.sqlite.specs.Steps.{over_memory};
ghost use Rattle.rr_desk.specs.Opening.{IsOpeningRegistry};
ghost use Rattle.rr_desk.specs.Settings.{built_in};
ghost use Rattle.rr_commands.specs.Commands.{AtDesk};
ghost use Rattle.rr_commands.specs.Submitted.{EndsPlain, HasSubmitted, RunsPlain, SubmitsBy};
ghost use Rattle.rr_commands.specs.Submitted.{SubmitsDesk};
ghost use Rattle.rr_commands.specs.Worlds.{at, deed, done_by, named, ports};
ghost use Rattle.rr_commands.specs.Submitted.{done_status, plain_trouble};

use crate::cause::DatabaseCause;
use crate::command_fault::ProgramFault;
use crate::files::{FileAt, Files, open_file};
use crate::host::{Host, NamedDatabase, Tools};
use crate::output::{Input, Output, cause_of, ended, placed};
use crate::progress::{Reading, Shown};
use crate::registry_databases::{Databases, close, open_desk};
use crate::settings_reading::read_settings_file;
use crate::trouble::Trouble;
use rr_desk::{Desk, Done, Settings, SubmissionFault};
use rr_io::{Counted, Reader, Writer};
use rr_store::IdleConnection;
use sqlite::{Alter, Connection};
use std::alloc::Global;

/// The status if an item was refused.
const REFUSED: u8 = 1;

/// Submits `input` to a registry in memory, which opens with the built-in settings, and prints the
/// report: the status is 0, or 1 if an item was refused. The fault is that memory ran out, which is
/// told of faults of the database too, or how the submission was cut short. The fault names what
/// its trouble is about: standard input, standard output or nothing. If no registry was made,
/// nothing is read or printed.
pub fn plain<'a, R: Input, W: Output>(
    alloc: Global,
    input: &mut R,
    output: &mut W,
) -> Result<u8, ProgramFault<'a>>
    ensures { EndsPlain over_memory (deed (R.told input.old) (R.told input.new)
        (W.told output.old) (W.told output.new) result) }
{
    match submit_plain(alloc, input, output) {
        Ok(status) => Ok(status),
        Err(trouble) => {
            let store = NamedDatabase {
                path: String::new(alloc),
                found: String::new(alloc),
            };
            let cause = cause_of(Err(trouble), input, output);
            Err(placed(
                alloc,
                plain_trouble(trouble),
                "standard input",
                store,
                cause,
            ))
        }
    }
}

/// What is told of trouble without arguments: a database in memory fails only because memory ran
/// out, so that is told of its faults.
fn plain_trouble(trouble: Trouble) -> Trouble
    ensures { result ≡ plain_trouble trouble }
{
    match trouble {
        Trouble::Creating(_)
        | Trouble::Submission(
            SubmissionFault::LedgerStopped { .. } | SubmissionFault::Stopped,
            _,
        ) => { Trouble::Memory }
        _ => trouble,
    }
}

/// Submits `file` to the registry in the database that the settings name, and prints the report:
/// the status is 0, or 1 if an item was refused. A missing database is refused (`Absent::Refused`)
/// and not made, though of files no clause says so. At the end the database is closed as
/// [`Desk::submit`] leaves it, or as it was if the file cannot be opened. The fault is why there
/// are no settings, and then no database is opened; or why there is no desk (as [`open_desk`] tells
/// it) or no file. In these cases nothing is printed. Or it is how the submission was cut short.
/// Without settings the fault names their file. Otherwise it names what its trouble is about: the
/// file that is submitted, the database, standard output or nothing.
pub fn submit<'a, D: Databases, F: Files, W: Output>(
    host: &mut Host<'_, D, W>,
    files: &F,
    settings: &'a str,
    file: &'a str,
) -> Result<u8, ProgramFault<'a>>
    ensures { SubmitsBy (ports D.Disk.Store D.calls (F.calls files.now)) settings.now
        file.now (done_by W.told host.old host.new result) }
{
    let (read, mut store) = read_settings_file(host.tools.alloc, files, settings)?;
    let items = FileAt { files, path: file };
    let path = store.path.as_str();
    let end = submit_at(host, &items, read, path, &mut store.found);
    ended(host, end, file, store)
}

/// Submits a file to the registry in the database at a path, and prints the report.
fn submit_at<D: Databases, F: Files, W: Output>(
    host: &mut Host<'_, D, W>,
    items: &FileAt<'_, F>,
    settings: Settings,
    path: &str,
    found: &mut String,
) -> Result<u8, Trouble>
    ensures { AtDesk (at D.Disk.Store D.calls)
        (SubmitsDesk D.Disk.Store (F.calls items.now.files.now) items.now.path.now)
        (named settings path.now) (done_by W.told host.old host.new result) }
{
    let mut desk = open_desk(host.tools, &mut host.databases, settings, path, found)?;
    let end = submit_file(host.tools, &mut desk, items, &mut host.output);
    let conn = desk.close();
    close(&mut host.databases, conn);
    end
}

/// Submits a file to a desk, and prints the report.
fn submit_file<S: Alter, F: Files, W: Output>(
    tools: Tools<'_>,
    desk: &mut Desk<S>,
    items: &FileAt<'_, F>,
    output: &mut W,
) -> Result<u8, Trouble>
    requires { desk.old.stock.stopped ≡ false }
    ensures { SubmitsDesk S.Store (F.calls items.now.files.now) items.now.path.now
        (deed desk.old desk.new (W.told output.old) (W.told output.new) result) }
{
    let file = open_file(items.files, items.path)?;
    let mut reader = Reading::silent(tools.errors, Counted::new(file));
    output.show(Shown::Items);
    let end = submit_to(tools.alloc, desk, &mut reader, output);
    output.show(Shown::Nothing);
    let cause = cause_of(end, &reader, output);
    output.keep(cause);
    end
}

/// Submits `input` to a new desk with the built-in settings over a database in memory, and prints
/// the report. The status is 0, or 1 if an item was refused. The trouble is that there is no desk,
/// which stands for lack of memory, and then nothing is read or printed. Or it is how the
/// submission was cut short; of a fault of the database [`plain`] tells that memory ran out.
pub fn submit_plain<R: Reader, W: Writer>(
    alloc: Global,
    input: &mut R,
    output: &mut W,
) -> Result<u8, Trouble>
    ensures { RunsPlain over_memory (deed (R.told input.old) (R.told input.new)
        (W.told output.old) (W.told output.new) result) }
{
    match Connection::open_in_memory(alloc) {
        Ok(conn) => submit_new(alloc, IdleConnection::of(conn), input, output),
        Err(_) => Err(Trouble::Memory),
    }
}

/// Submits `input` to a new desk over a database with nothing in it, which is let go then.
fn submit_new<S: Alter + Drop, R: Reader, W: Writer>(
    alloc: Global,
    conn: IdleConnection<S>,
    input: &mut R,
    output: &mut W,
) -> Result<u8, Trouble>
    ensures { RunsPlain S.Store (deed (R.told input.old) (R.told input.new)
        (W.told output.old) (W.told output.new) result) }
{
    let mut desk = plain_desk(alloc, conn)?;
    submit_to(alloc, &mut desk, input, output)
}

/// A new desk with the built-in settings over a database with nothing in it. The trouble stands for
/// lack of memory, as `plain_trouble` tells it.
fn plain_desk<S: Alter + Drop>(alloc: Global, conn: IdleConnection<S>) -> Result<Desk<S>, Trouble>
    ensures running { IfOk result (λ desk. desk.stock.stopped ≡ false) }
    ensures settings { IfOk result (λ desk. desk.settings ≡ built_in) }
    ensures opened { IfOk result (λ desk. IsOpeningRegistry built_in desk.stock.registry) }
    ensures fails { IfErr result (λ trouble. plain_trouble trouble ≡ Trouble.Memory) }
{
    let Ok(settings) = Settings::built_in(alloc) else {
        return Err(Trouble::Memory);
    };
    match Desk::create(alloc, conn, settings) {
        Ok(desk) => Ok(desk),
        Err((fault, _conn)) => Err(Trouble::Creating(fault)),
    }
}

/// Submits what the reader gives to a desk that runs, and writes the report. The status is 0, or 1
/// if an item was refused. The trouble is how the submission was cut short, with why the database
/// failed if it did. The desk is left as [`Desk::submit`] leaves it: only a fault of the store
/// stops it.
pub fn submit_to<S: Alter, R: Reader, W: Writer>(
    alloc: Global,
    desk: &mut Desk<S>,
    reader: &mut R,
    writer: &mut W,
) -> Result<u8, Trouble>
    requires { desk.old.stock.stopped ≡ false }
    ensures { HasSubmitted S.Store (R.told reader.old) (R.told reader.new)
        (deed desk.old desk.new (W.told writer.old) (W.told writer.new) result) }
{
    match desk.submit(alloc, reader, writer) {
        Ok(done) => Ok(done_status(done)),
        Err(fault) => {
            let cause = DatabaseCause::of_stop(desk.cause());
            Err(Trouble::Submission(fault, cause))
        }
    }
}

/// 0 if no item was refused, and else 1.
fn done_status(done: Done) -> u8
    ensures { result ≡ done_status done }
{
    if done.refused == 0 { 0 } else { REFUSED }
}
