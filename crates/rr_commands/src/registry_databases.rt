//! Where the databases of registries are, by their paths, and the desks that commands, and `rr_cli`
//! for `serve` and `probe`, open over them.

ghost use Rattle.std.specs.Prelude.{◌≡◌, IfErr, IfOk, Ok, false};
ghost use Rattle.sqlite.specs.Held.{Held};
ghost use Rattle.rr_desk.specs.Opened.{IsRunning, OpensTables};
ghost use Rattle.rr_commands.specs.Commands.{FailsToOpenDesk, IsNotGiven};
ghost use Rattle.rr_commands.specs.Commands.{OpensDesk, OpensNoDesk};
ghost use Rattle.rr_commands.specs.Databases.{DatabaseCalls};
ghost use Rattle.rr_commands.specs.Worlds.{at, named};

use crate::cause::{Cause, DatabaseCause};
use crate::diagnosis::trouble_with;
use crate::host::Tools;
use crate::progress::Opening;
use crate::trouble::Trouble;
use rr_desk::{Desk, Settings};
use rr_store::IdleConnection;
use sqlite::{Alter, Connection};
use sqlite_std_file::File;
use sqlite_store::FileStore;
use std::alloc::Global;
use std::fs::OpenOptions;
use std::io::{ErrorKind, Read};
use std::os::unix::fs::OpenOptionsExt;
use std::path::PathBuf;
use std::{fs, io};

/// Where the header of a database says how its texts are encoded, in four bytes.
const ENCODING: usize = 56;

/// How many bytes a page of a database has at least, and so a log in which one was committed.
const LEAST_PAGE: u64 = 512;

/// How many links Linux follows one after another.
const MOST_LINKS: usize = 40;

/// How the name of a database's log ends.
const LOG: &str = "-wal";

/// How the name of a journal ends that SQLite's own program leaves.
const JOURNAL: &str = "-journal";

/// What is done if a path leads to no database.
#[derive(Clone, Copy)]
pub enum Absent {
    /// The path is refused.
    Refused,
    /// A database is made there.
    Made,
}

/// Where databases are, by their paths: in files, or in whatever else keeps them.
pub trait Databases {
    /// What keeps a database.
    type Disk: Alter + Drop;

    // What its calls do that open and close databases.
    ghost calls: { DatabaseCalls Self Self.Disk };

    /// Opens the database at a path; `absent` says what is done if there is none. The error is why
    /// it cannot be opened or made. Of the connection, of the error, and of what becomes of
    /// databases, clauses say what `calls.opens` says.
    fn open(
        &mut self,
        path: &str,
        absent: Absent,
    ) -> Result<IdleConnection<Self::Disk>, DatabaseCause>
        ensures { calls.opens path.now absent result self.old self.new };

    /// How many bytes the database at a path has, or 0 if that is not available. It is for a line
    /// on a terminal as a large one is opened, and no clause says which it is.
    fn size(&self, path: &str) -> u64;

    /// Closes the database of this connection; `calls.closes` says what is true then. No clause
    /// says what is done if there is no connection, or what `conn` is after. Call the function
    /// `close` of this module, which takes the connection by value. An impl of a method that takes
    /// a connection of a named store by value cannot be proved.
    fn close(&mut self, conn: &mut Option<IdleConnection<Self::Disk>>)
        ensures { (held : Held Self.Disk) → conn.old ≡ Some held
            → calls.closes held self.old self.new };
}

/// The databases in files, of which no clause says what they have. A file that is made is readable
/// by its owner alone, and so is the log beside it, though no clause says so.
#[derive(Clone, Copy)]
pub struct DatabaseFiles<'a> {
    rt: &'a HostRuntime,
}

impl<'a> DatabaseFiles<'a> {
    /// The databases in the files of this machine.
    pub fn new(rt: &'a HostRuntime) -> DatabaseFiles<'a> {
        DatabaseFiles { rt }
    }
}

impl Databases for DatabaseFiles<'_> {
    type Disk = FileStore<File>;

    // No contract can say what a file has.
    ghost calls = { record { opens = λ _ _ _ _ _. Unit {0}; closes = λ _ _ _. Unit {0} } };

    fn open(
        &mut self,
        path: &str,
        absent: Absent,
    ) -> Result<IdleConnection<FileStore<File>>, DatabaseCause> {
        make_ready(self.rt, path, absent)?;
        match Connection::open(self.rt, path) {
            Ok(conn) => Ok(IdleConnection::of(conn)),
            Err(error) => Err(cause_at(self.rt, path, error)),
        }
    }

    fn size(&self, path: &str) -> u64 {
        match fs::metadata(self.rt, path) {
            Ok(found) => found.len(),
            Err(_) => 0,
        }
    }

    fn close(&mut self, conn: &mut Option<IdleConnection<FileStore<File>>>) {
        if let Some(conn) = conn.take() {
            // If it fails, what was committed stays in the log.
            let _ = conn.into_connection().close();
        }
    }
}

/// Closes the database of a connection, for which `calls.closes` is true of the databases before
/// and after. Of one in a file `closes` says nothing. What the commits left in the log goes into
/// the file or, if that fails, stays for the next opening; no clause says so.
pub fn close<D: Databases>(databases: &mut D, conn: IdleConnection<D::Disk>)
    ensures { D.calls.closes conn databases.old databases.new }
{
    databases.close(&mut Some(conn));
}

/// Why the database at a path cannot be opened, by the library's error. It is the same for one that
/// is damaged and for one in UTF-16, and for one with a journal and for one whose log or journal is
/// denied.
fn cause_at(rt: &HostRuntime, path: &str, error: sqlite::Error) -> DatabaseCause {
    match DatabaseCause::of(error) {
        DatabaseCause::Damaged if is_utf16(rt, path) => DatabaseCause::Encoded,
        DatabaseCause::Unopened if has_journal(rt, path) => DatabaseCause::HasJournal,
        DatabaseCause::Unopened if is_rest_denied(rt, path) => DatabaseCause::Denied,
        cause => cause,
    }
}

/// Whether the header of the database at a path says that its texts are UTF-16.
fn is_utf16(rt: &HostRuntime, path: &str) -> bool {
    match read_first(rt, path, ENCODING as u64 + 4) {
        Ok(header) => matches!(header.as_slice().get(ENCODING..), Some([0, 0, 0, 2 | 3])),
        Err(_) => false,
    }
}

/// Whether SQLite's own program left a journal that is to be applied beside the database at a path.
fn has_journal(rt: &HostRuntime, path: &str) -> bool {
    match beside(rt, path, JOURNAL) {
        Ok(journal) => {
            is_file(rt, journal.as_str()) && matches!(is_hot(rt, journal.as_str()), Ok(true))
        }
        Err(_) => false,
    }
}

/// Whether the user may not use the log of the database at a path, or not read its journal.
fn is_rest_denied(rt: &HostRuntime, path: &str) -> bool {
    match (beside(rt, path, LOG), beside(rt, path, JOURNAL)) {
        (Ok(log), Ok(journal)) => {
            matches!(try_file(rt, log.as_str()), Err(DatabaseCause::Denied))
                || matches!(is_hot(rt, journal.as_str()), Err(DatabaseCause::Denied))
        }
        _ => false,
    }
}

/// The path of the file with this ending beside the database at a path: where a link leads, as the
/// library has it.
fn beside(rt: &HostRuntime, path: &str, ending: &str) -> Result<String, DatabaseCause> {
    match fs::canonicalize(rt, path) {
        Ok(found) => joined(rt, found.as_str(), ending),
        Err(error) if error.kind() == ErrorKind::NotFound => match target_of(rt, path) {
            Ok(target) => joined(rt, target.as_str(), ending),
            Err(error) => Err(refused(&error)),
        },
        Err(error) => Err(refused(&error)),
    }
}

/// Where a path leads to no file: a link leads on from its own folder.
fn target_of(rt: &HostRuntime, path: &str) -> io::Result<PathBuf> {
    let mut target = PathBuf::from_str(rt.alloc(), path)?;
    for _ in 0..MOST_LINKS {
        match fs::read_link(rt, target.as_str()) {
            Ok(next) => {
                target.pop();
                target.push(next.as_str())?;
            }
            // It is no link.
            Err(_) => return Ok(target),
        }
    }
    Ok(target)
}

/// The path with this ending; the error is that memory ran out.
fn joined(rt: &HostRuntime, path: &str, ending: &str) -> Result<String, DatabaseCause> {
    match format!(in rt.alloc(); "{path}{ending}") {
        Ok(joined) => Ok(joined),
        Err(_) => Err(DatabaseCause::Memory),
    }
}

/// The first bytes of a file, at most `most`.
fn read_first(rt: &HostRuntime, path: &str, most: u64) -> io::Result<Vec<u8>> {
    let mut first = Vec::new(rt.alloc());
    fs::File::open(rt, path)?
        .take(most)
        .read_to_end(&mut first)?;
    Ok(first)
}

/// Sees that a file may be read and written, and makes it if it is missing and that is asked for.
/// It is then readable by its owner alone, whatever the umask, because the digests of all secrets
/// stand in it. Its log gets the permissions of the file. A path that the library takes for no file
/// (`:memory:`, `file:`) is refused.
fn make_ready(rt: &HostRuntime, path: &str, absent: Absent) -> Result<(), DatabaseCause> {
    if path == ":memory:" || path.starts_with("file:") {
        return Err(DatabaseCause::Unopened);
    }
    match fs::metadata(rt, path) {
        Ok(found) if found.is_file() => {
            if found.len() == 0 {
                refuse_rest(rt, path, DatabaseCause::EmptyWithLog)?;
            }
            try_file(rt, path)?;
            match absent {
                // The library would write a header to it.
                Absent::Refused if found.len() == 0 => Err(DatabaseCause::Empty),
                _ => Ok(()),
            }
        }
        Ok(found) if found.is_dir() => Err(DatabaseCause::Refused(Cause::Folder)),
        // What stands there is neither: the opening refuses it.
        Ok(_) => Ok(()),
        Err(error) if error.kind() == ErrorKind::NotFound => {
            refuse_rest(rt, path, DatabaseCause::MissingWithLog)?;
            match absent {
                Absent::Refused => Err(DatabaseCause::Missing),
                Absent::Made => make_file(rt, path),
            }
        }
        Err(error) => Err(refused(&error)),
    }
}

/// Sees that a file may be read and written.
fn try_file(rt: &HostRuntime, path: &str) -> Result<(), DatabaseCause> {
    match OpenOptions::new().read(true).write(true).open(rt, path) {
        Ok(_) => Ok(()),
        Err(error) => Err(refused(&error)),
    }
}

/// Why the system refuses a database.
fn refused(error: &io::Error) -> DatabaseCause {
    match Cause::of(error) {
        Cause::Denied => DatabaseCause::Denied,
        cause => DatabaseCause::Refused(cause),
    }
}

/// Refuses a file that is empty or missing, for this cause, if its log has what was committed, or
/// its journal what is to be applied. The library would begin that log anew, and SQLite's own
/// program would remove that journal.
fn refuse_rest(rt: &HostRuntime, path: &str, cause: DatabaseCause) -> Result<(), DatabaseCause> {
    let log = beside(rt, path, LOG)?;
    let journal = beside(rt, path, JOURNAL)?;
    if has_commits(rt, log.as_str())? || is_hot(rt, journal.as_str())? {
        Err(cause)
    } else {
        Ok(())
    }
}

/// Whether the log at a path may have what was committed: one that was only begun has not, if it
/// may be used. What is no file counts as such a log, because the library refuses it.
fn has_commits(rt: &HostRuntime, log: &str) -> Result<bool, DatabaseCause> {
    match fs::symlink_metadata(rt, log) {
        Ok(found) if found.is_file() && found.len() < LEAST_PAGE => {
            try_file(rt, log)?;
            Ok(false)
        }
        Ok(_) => Ok(true),
        Err(error) if error.kind() == ErrorKind::NotFound => Ok(false),
        Err(error) => Err(refused(&error)),
    }
}

/// Whether the journal at a path is to be applied: one that is empty or begins with a zero is not.
/// What is no file counts as such a journal, because the library refuses it.
fn is_hot(rt: &HostRuntime, journal: &str) -> Result<bool, DatabaseCause> {
    match fs::symlink_metadata(rt, journal) {
        Ok(found) if found.is_file() => match read_first(rt, journal, 1) {
            Ok(first) => Ok(!matches!(first.as_slice(), [] | [0])),
            Err(error) => Err(refused(&error)),
        },
        Ok(_) => Ok(true),
        Err(error) if error.kind() == ErrorKind::NotFound => Ok(false),
        Err(error) => Err(refused(&error)),
    }
}

/// Whether a file is at a path, and not a link to one.
fn is_file(rt: &HostRuntime, path: &str) -> bool {
    match fs::symlink_metadata(rt, path) {
        Ok(found) => found.is_file(),
        Err(_) => false,
    }
}

/// Makes a file that its owner alone may read and write.
fn make_file(rt: &HostRuntime, path: &str) -> Result<(), DatabaseCause> {
    match OpenOptions::new()
        .write(true)
        .create_new(true)
        .mode(0o600)
        .open(rt, path)
    {
        Ok(_) => Ok(()),
        Err(error) => match error.kind() {
            // A link that leads nowhere, which the opening refuses, or a file that was made
            // meanwhile.
            ErrorKind::AlreadyExists => Ok(()),
            ErrorKind::NotFound => Err(DatabaseCause::NoFolder),
            _ => Err(refused(&error)),
        },
    }
}

/// Opens the desk of the registry in the database at a path. A missing database is refused
/// (`Absent::Refused`) and not made, though of files no clause says so. The desk runs with these
/// settings, and its registry is of their source. Nothing was committed; where the disk gives back
/// what was written, the connection was open, the tables are as they were, and their rows are those
/// of the registry. The trouble is why there is no desk: no database was given, or the registry of
/// these settings was not opened in the one that was. That one is closed. The trouble may then be
/// one that a look at the database may find, which commits nothing; no clause says that it is so.
/// `found` is for the message, as a line on a terminal is while a large one is opened, and no
/// clause speaks of these.
pub fn open_desk<D: Databases>(
    tools: Tools<'_>,
    databases: &mut D,
    settings: Settings,
    path: &str,
    found: &mut String,
) -> Result<Desk<D::Disk>, Trouble>
    ensures opens { IfOk result (OpensDesk (at D.Disk.Store D.calls) (named settings path.now)
        databases.old databases.new) }
    ensures fails { IfErr result (OpensNoDesk (at D.Disk.Store D.calls) (named settings path.now)
        databases.old databases.new) }
{
    let opening = Opening::begin(tools.errors, databases.size(path));
    let opened = open_quietly(tools.alloc, databases, settings, path, found);
    opening.end();
    opened
}

/// Opens the desk, without a line on a terminal. A database that has no registry of these settings
/// is closed.
fn open_quietly<D: Databases>(
    alloc: Global,
    databases: &mut D,
    settings: Settings,
    path: &str,
    found: &mut String,
) -> Result<Desk<D::Disk>, Trouble>
    ensures opens { IfOk result (OpensDesk (at D.Disk.Store D.calls) (named settings path.now)
        databases.old databases.new) }
    ensures fails { IfErr result (OpensNoDesk (at D.Disk.Store D.calls) (named settings path.now)
        databases.old databases.new) }
{
    let conn = open_at(databases, path)?;
    match open_over(alloc, conn, settings, found) {
        Ok(desk) => Ok(desk),
        Err((trouble, conn)) => {
            close(databases, conn);
            Err(trouble)
        }
    }
}

/// Opens the database at a path, which is to be there.
fn open_at<D: Databases>(databases: &mut D, path: &str) -> Result<IdleConnection<D::Disk>, Trouble>
    ensures gives { IfOk result (λ conn.
        D.calls.opens path.now Absent.Refused (Ok conn) databases.old databases.new) }
    ensures fails { IfErr result
        (IsNotGiven D.calls path.now Absent.Refused databases.old databases.new) }
{
    match databases.open(path, Absent::Refused) {
        Ok(conn) => Ok(conn),
        Err(cause) => Err(Trouble::Database(cause)),
    }
}

/// Opens the desk over a database, which is given back if it has no registry of these settings.
fn open_over<S: Alter>(
    alloc: Global,
    conn: IdleConnection<S>,
    settings: Settings,
    found: &mut String,
) -> Result<Desk<S>, (Trouble, IdleConnection<S>)>
    ensures opens { IfOk result (λ desk. OpensTables S.Store conn desk.stock) }
    ensures runs { IfOk result (IsRunning S.Store settings) }
    ensures fails { IfErr result (λ e.
        FailsToOpenDesk S.Store settings.source conn e.1 e.0) }
{
    let source = settings.source().copy(alloc);
    match Desk::open(alloc, conn, settings) {
        Ok(desk) => Ok(desk),
        Err((fault, mut conn)) => {
            let trouble = trouble_with(alloc, &mut conn, source, fault, found);
            Err((trouble, conn))
        }
    }
}
