//! `irrdesk load`: loads of dumps, into a new database, for `rr_cli`.

ghost use Rattle.std.specs.Prelude.{◌≡◌, IfErr, IfOk, length, string_bytes};
ghost use Rattle.std.specs.FinMap.{values};
ghost use Rattle.rr_commands.specs.Commands.{EndsAlike, InDatabase};
ghost use Rattle.rr_commands.specs.Faults.{IsAboutDump};
ghost use Rattle.rr_commands.specs.Loaded.{Loads, LoadsBy, LoadsIn, TellsLoaded, loaded_line};
ghost use Rattle.rr_commands.specs.Loaded.{loading_trouble};
ghost use Rattle.rr_commands.specs.Printed.{Tells};
ghost use Rattle.rr_commands.specs.Worlds.{at, deed, done_by, named, ports};

use crate::command_fault::ProgramFault;
use crate::files::{FileAt, Files, open_file};
use crate::host::{Host, NamedDatabase, Tools};
use crate::output::{Output, cause_of, ended, tell};
use crate::places::about_paragraph;
use crate::progress::{Reading, Shown};
use crate::registry_databases::{Absent, Databases, close};
use crate::settings_reading::read_settings_file;
use crate::trouble::Trouble;
use itoa::Buffer;
use rr_desk::{Desk, DeskLoadFault, Settings};
use rr_index::IndexedBook;
use rr_io::{Counted, Reader, Writer, write_pieces};
use rr_registry::Registry;
use rr_store::IdleConnection;
use sqlite::Alter;
use std::alloc::{AllocError, Global};

/// Makes the registry of the dump in `file`, in the database that the settings name. A missing
/// database is made (`Absent::Made`), even if the dump then cannot be opened; of files no clause
/// says so. One that exists is to have nothing in it, or the three tables and no row. At the end
/// the database is closed as [`Desk::load`] leaves it, or as it was if the dump cannot be opened.
/// Says how many objects the registry has or, without memory to count them, that it was loaded: no
/// clause says which. The status is 0.
///
/// The fault is why there are no settings, and then no database is opened, or why there is no
/// database, no file or no registry. In these cases nothing is printed. Or it is that the line was
/// not printed whole, and then the registry is made. Without settings the fault names their file.
/// Otherwise it names what its trouble is about: the dump, and maybe a place in it, the database,
/// standard output or nothing.
pub fn load<'a, D: Databases, F: Files, W: Output>(
    host: &mut Host<'_, D, W>,
    files: &F,
    settings: &'a str,
    file: &'a str,
) -> Result<u8, ProgramFault<'a>>
    ensures { LoadsBy (ports D.Disk.Store D.calls (F.calls files.now)) settings.now
        file.now (done_by W.told host.old host.new result) }
{
    let (read, store) = read_settings_file(host.tools.alloc, files, settings)?;
    let end = load_at(host, files, read, store.path.as_str(), file);
    ended_in_dump(host, files, end, file, store)
}

/// How a load ended; trouble with a paragraph of the dump is about its line and its key.
fn ended_in_dump<'a, D: Databases, F: Files, W: Output>(
    host: &Host<'_, D, W>,
    files: &F,
    end: Result<u8, Trouble>,
    file: &'a str,
    store: NamedDatabase,
) -> Result<u8, ProgramFault<'a>>
    ensures ends { EndsAlike end result }
    ensures about { IfErr result
        (IsAboutDump file.now (string_bytes store.path) (string_bytes store.found)) }
{
    match end {
        Ok(status) => Ok(status),
        Err(trouble) => match trouble.paragraph() {
            Some(number) => Err(about_paragraph(host.tools.alloc, files, file, number, trouble)),
            None => ended(host, end, file, store),
        },
    }
}

/// Makes the registry of a dump in the database at a path, and says how many objects it has.
fn load_at<D: Databases, F: Files, W: Output>(
    host: &mut Host<'_, D, W>,
    files: &F,
    settings: Settings,
    path: &str,
    file: &str,
) -> Result<u8, Trouble>
    ensures { InDatabase (at D.Disk.Store D.calls) Absent.Made
        (LoadsIn D.Disk.Store (F.calls files.now) file.now) (named settings path.now)
        (done_by W.told host.old host.new result) }
{
    match host.databases.open(path, Absent::Made) {
        Ok(conn) => {
            let dump = FileAt { files, path: file };
            let output = &mut host.output;
            let (conn, end) = load_file(host.tools, conn, settings, &dump, output);
            close(&mut host.databases, conn);
            end
        }
        Err(cause) => Err(Trouble::Database(cause)),
    }
}

/// Loads the file of a dump into a database, and shows on a terminal how many bytes were read. The
/// connection is given back.
fn load_file<S: Alter, F: Files, W: Output>(
    tools: Tools<'_>,
    conn: IdleConnection<S>,
    settings: Settings,
    dump: &FileAt<'_, F>,
    output: &mut W,
) -> (IdleConnection<S>, Result<u8, Trouble>)
    ensures { LoadsIn S.Store (F.calls dump.now.files.now) dump.now.path.now settings
        (deed conn result.0 (W.told output.old) (W.told output.new) result.1) }
{
    let file = match open_file(dump.files, dump.path) {
        Ok(file) => file,
        Err(trouble) => return (conn, Err(trouble)),
    };
    let mut reading = Reading::new(tools.errors, Counted::new(file));
    output.show(Shown::Others);
    let (conn, end) = load_to(tools.alloc, conn, settings, &mut reading, output);
    reading.end();
    let cause = cause_of(end, &reading, output);
    output.keep(cause);
    (conn, end)
}

/// Makes the registry of the dump that a reader gives in a database, and gives the status 0. Writes
/// how many objects it has or, without memory to count them, that it was loaded: no clause says
/// which. The trouble is why none was made, and nothing is written then; or that the line could not
/// be written whole, and then the registry is made. The connection is given back, and its database
/// is as [`Desk::load`] leaves it (profile).
pub fn load_to<S: Alter, R: Reader, W: Writer>(
    alloc: Global,
    conn: IdleConnection<S>,
    settings: Settings,
    reader: &mut R,
    writer: &mut W,
) -> (IdleConnection<S>, Result<u8, Trouble>)
    ensures { Loads S.Store settings (R.told reader.old) (R.told reader.new)
        (deed conn result.0 (W.told writer.old) (W.told writer.new) result.1) }
{
    match Desk::load(alloc, conn, settings, reader) {
        Ok(desk) => {
            let told = tell_loaded(alloc, desk.registry(), writer);
            (desk.close(), told)
        }
        Err((fault, conn)) => (conn, Err(loading_trouble(fault))),
    }
}

/// What is told of a dump that was not loaded for this fault.
fn loading_trouble(fault: DeskLoadFault) -> Trouble
    ensures { result ≡ loading_trouble fault }
{
    match fault {
        DeskLoadFault::Unread(fault) => Trouble::DumpUnread(fault),
        DeskLoadFault::Untaken(fault) => Trouble::DumpUntaken(fault),
        DeskLoadFault::Unmade(fault) => Trouble::Creating(fault),
    }
}

/// Writes how many objects were loaded; if memory runs out as they are counted, that they were. No
/// clause says which.
fn tell_loaded<W: Writer>(
    alloc: Global,
    registry: &Registry<IndexedBook>,
    writer: &mut W,
) -> Result<u8, Trouble>
    ensures { TellsLoaded (length (values registry.now))
        (W.told writer.old) (W.told writer.new) result }
{
    match object_count(alloc, registry) {
        Ok(count) => tell_count(writer, count),
        Err(_) => tell(writer, b"loaded the dump\n"),
    }
}

/// How many objects a registry has; the error is that memory ran out.
fn object_count(alloc: Global, registry: &Registry<IndexedBook>) -> Result<u64, AllocError>
    ensures { IfOk result (λ count. count ≡ length (values registry.now)) }
{
    let objects = registry.objects(alloc)?;
    Ok(objects.as_slice().len() as u64)
}

/// Writes that so many objects were loaded.
fn tell_count<W: Writer>(writer: &mut W, count: u64) -> Result<u8, Trouble>
    ensures { Tells (loaded_line count) (W.told writer.old) (W.told writer.new) result }
{
    let mut buffer = Buffer::new();
    let number = buffer.format(count).as_bytes();
    match write_pieces(writer, &[b"loaded ", number, b" objects\n"]) {
        Ok(()) => Ok(0),
        Err(_) => Err(Trouble::Unwritten),
    }
}
