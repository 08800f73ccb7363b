//! Why a file, a socket or a database could not be used, in words of the program's own. Commands
//! and `rr_cli` put it into a trouble or a fault, and `command_fault` writes it.

ghost use Rattle.std.specs.Prelude.{◌≡◌, Option};
ghost use Rattle.std.specs.IoError.{error_kind, raw_os_error};
ghost use Rattle.rr_commands.specs.Causes.{cause_text, code_cause, database_cause};
ghost use Rattle.rr_commands.specs.Causes.{database_cause_text, input_cause, number_cause};
ghost use Rattle.rr_commands.specs.Causes.{number_of, numbered, stop_cause, system_cause, text_or};

use sqlite::ErrorCode;
use std::io;
use std::io::ErrorKind;

/// Linux's number for an error of a disk or a device, for which `ErrorKind` has no kind.
const EIO: u32 = 5;

/// Linux's number for a closed stream.
const EBADF: u32 = 9;

/// Linux's number for a call that does not fit its file or socket.
const EINVAL: u32 = 22;

/// Linux's number for a machine with too many open files.
const ENFILE: u32 = 23;

/// Linux's number for a program with too many open files.
const EMFILE: u32 = 24;

/// Why the system refused a file or a socket. Only causes that ask for different things of who
/// reads the line are told apart.
#[derive(Clone, Copy)]
pub enum Cause {
    /// There is none of that name.
    Missing,
    /// The user may not.
    Denied,
    /// The path leads to a folder.
    Folder,
    /// The path leads through a file as if that were a folder.
    NoFolder,
    /// The path leads through too many links, as one that leads to itself.
    Loop,
    /// The name is too long.
    LongName,
    /// The path has a zero byte.
    BadName,
    /// The file system is read-only.
    ReadOnly,
    /// The disk is full.
    Full,
    /// The quota is used up.
    Quota,
    /// A file may not grow so large.
    TooLarge,
    /// Who reads has ended.
    Ended,
    /// The address is taken.
    Taken,
    /// The machine has no such address.
    NoAddress,
    /// Something of that name is there.
    Exists,
    /// Another program uses it.
    InUse,
    /// The system does not do that with such a file.
    Unfit,
    /// The server of a file has it no longer.
    Lost,
    /// No read of it failed, and it does not end.
    Endless,
    /// It ends too early, or is spoilt.
    Spoilt,
    /// A signal came first.
    Interrupted,
    /// Nothing came in time.
    Late,
    /// The connection broke off.
    Broken,
    /// The network is down.
    NoNetwork,
    /// Memory ran out.
    Memory,
    /// The program has too many open files.
    ManyFiles,
    /// The machine has too many open files.
    AllFiles,
    /// A disk or a device fails.
    BadDisk,
    /// The call does not fit the file or socket.
    Invalid,
    /// The stream is closed.
    Closed,
    /// Any other cause, by the number that the system gives it.
    Numbered(u32),
    /// A cause that has no number.
    Unnumbered,
}

impl Cause {
    /// The cause of an error of the system, by its kind, and by its number where the kind tells
    /// none, or only that input does not fit. Of an error whose number is to tell the cause, and
    /// that has none or one below 0, the cause is `Unnumbered`. But of input that does not fit,
    /// without a number, it is `BadName` (profile).
    pub fn of(error: &io::Error) -> Cause
        ensures { result ≡ system_cause (error_kind error.now) (raw_os_error error.now) }
    {
        match error.kind() {
            ErrorKind::NotFound => Cause::Missing,
            ErrorKind::PermissionDenied => Cause::Denied,
            ErrorKind::IsADirectory => Cause::Folder,
            ErrorKind::NotADirectory => Cause::NoFolder,
            ErrorKind::FilesystemLoop => Cause::Loop,
            ErrorKind::InvalidFilename => Cause::LongName,
            ErrorKind::InvalidInput => Cause::of_input(error.raw_os_error()),
            ErrorKind::ReadOnlyFilesystem => Cause::ReadOnly,
            ErrorKind::StorageFull => Cause::Full,
            ErrorKind::QuotaExceeded => Cause::Quota,
            ErrorKind::FileTooLarge => Cause::TooLarge,
            ErrorKind::BrokenPipe => Cause::Ended,
            ErrorKind::AddrInUse => Cause::Taken,
            ErrorKind::AddrNotAvailable => Cause::NoAddress,
            ErrorKind::AlreadyExists | ErrorKind::DirectoryNotEmpty => Cause::Exists,
            ErrorKind::ResourceBusy | ErrorKind::ExecutableFileBusy | ErrorKind::Deadlock =>
                Cause::InUse,
            ErrorKind::Unsupported
            | ErrorKind::NotSeekable
            | ErrorKind::CrossesDevices
            | ErrorKind::TooManyLinks
            | ErrorKind::ArgumentListTooLong => Cause::Unfit,
            ErrorKind::StaleNetworkFileHandle => Cause::Lost,
            ErrorKind::InvalidData | ErrorKind::UnexpectedEof | ErrorKind::WriteZero =>
                Cause::Spoilt,
            ErrorKind::Interrupted => Cause::Interrupted,
            ErrorKind::WouldBlock | ErrorKind::TimedOut => Cause::Late,
            ErrorKind::ConnectionRefused
            | ErrorKind::ConnectionReset
            | ErrorKind::ConnectionAborted
            | ErrorKind::NotConnected
            | ErrorKind::InProgress => Cause::Broken,
            ErrorKind::NetworkDown | ErrorKind::NetworkUnreachable | ErrorKind::HostUnreachable =>
                Cause::NoNetwork,
            ErrorKind::OutOfMemory => Cause::Memory,
            _ => Cause::numbered(error.raw_os_error()),
        }
    }

    /// The cause of input that does not fit: without a number the system did not see it, because it
    /// is a name with a zero byte.
    fn of_input(code: Option<i32>) -> Cause
        ensures { result ≡ input_cause code }
    {
        match code {
            Some(_) => Cause::numbered(code),
            None => Cause::BadName,
        }
    }

    /// The cause that has this number of the system, if it has one.
    fn numbered(code: Option<i32>) -> Cause
        ensures { result ≡ numbered code }
    {
        match code {
            Some(code) => match u32::try_from(code) {
                Ok(number) => Cause::of_number(number),
                Err(_) => Cause::Unnumbered,
            },
            None => Cause::Unnumbered,
        }
    }

    /// The cause of this number.
    fn of_number(number: u32) -> Cause
        ensures { result ≡ number_cause number }
    {
        if number == EIO {
            Cause::BadDisk
        } else if number == EBADF {
            Cause::Closed
        } else if number == EINVAL {
            Cause::Invalid
        } else if number == ENFILE {
            Cause::AllFiles
        } else if number == EMFILE {
            Cause::ManyFiles
        } else {
            Cause::Numbered(number)
        }
    }

    /// The words for the cause, before its number if [`Cause::number`] gives one.
    pub fn text(self) -> &'static str
        ensures { result.now ≡ cause_text self }
    {
        match self {
            Cause::Missing => "there is none of that name: correct the path",
            Cause::Denied => "permission is denied: ask for it, or take another file or port",
            Cause::Folder => "it is a folder: name a file",
            Cause::NoFolder => "a part of the path is not a folder: correct the path",
            Cause::Loop => "the path leads through too many links: correct the path",
            Cause::LongName => "the name is too long: shorten it",
            Cause::BadName => "no file has such a name: correct the path",
            Cause::ReadOnly => "the file system is read-only: take another path",
            Cause::Full => "the disk is full: make room",
            Cause::Quota => "the quota is used up: make room, or ask for more",
            Cause::TooLarge =>
                "no file may grow so large: raise the limit, as `ulimit -f` shows it",
            Cause::Ended => "its reader has ended: let it read to the end",
            Cause::Taken => "the address is in use: end what has it, or take another port",
            Cause::NoAddress => "the machine has no such address: see that 127.0.0.1 can be used",
            Cause::Exists => "something of that name is there: take another path",
            Cause::InUse => "another program uses it: end that, or try again later",
            Cause::Unfit => "the system does not do that with such a file: take another",
            Cause::Lost => "its file server has it no longer: mount that again",
            Cause::Endless => "it has no end within 16777216 reads: name a whole file",
            Cause::Spoilt => "it ends too early or is spoilt: try again, or take another file",
            Cause::Interrupted => "a signal interrupted it: try again",
            Cause::Late => "nothing came in time: try again",
            Cause::Broken => "the connection broke off: try again",
            Cause::NoNetwork => "the network is down: bring it up",
            Cause::Memory => "out of memory: give the program more",
            Cause::ManyFiles =>
                "the program has too many open files: raise the limit, as `ulimit -n` shows it \
                (system error 24)",
            Cause::AllFiles =>
                "the machine has too many open files: end a program, or raise `fs.file-max` \
                (system error 23)",
            Cause::BadDisk =>
                "input/output error: look at the disk, or take another file (system error 5)",
            Cause::Invalid =>
                "the system does not do that with it: take another file (system error 22)",
            Cause::Closed => "it is closed: leave it open (system error 9)",
            Cause::Numbered(_) => "system error ",
            Cause::Unnumbered => "the system does not say why",
        }
    }

    /// The number that the system gives the cause, if the words do not say what it is.
    pub fn number(self) -> Option<u64>
        ensures { result ≡ number_of self }
    {
        match self {
            Cause::Numbered(number) => Some(u64::from(number)),
            _ => None,
        }
    }
}

/// Why a database could not be opened, or failed.
#[derive(Clone, Copy)]
pub enum DatabaseCause {
    /// The file is missing.
    Missing,
    /// The file is missing, and its write-ahead log or journal is there.
    MissingWithLog,
    /// The folder of a file that is to be made is missing.
    NoFolder,
    /// The system refuses the file.
    Refused(Cause),
    /// The user may not use the file, its write-ahead log or its folder.
    Denied,
    /// SQLite's own program left a journal of what it was about to change.
    HasJournal,
    /// The file, its write-ahead log or its folder cannot be opened or made.
    Unopened,
    /// The file is empty.
    Empty,
    /// The file is empty, and its write-ahead log or journal is not.
    EmptyWithLog,
    /// Another process has it open.
    Busy,
    /// The file is not a database, or it was damaged, or changed in a way that is not read.
    NoDatabase,
    /// The file is a database whose text is UTF-16.
    Encoded,
    /// The file was damaged, or changed in a way that is not read.
    Damaged,
    /// The disk is full.
    Full,
    /// The disk cannot be read or written.
    Failed,
    /// A rule that was added to the tables forbids the change.
    Forbidden,
    /// Memory ran out.
    Memory,
    /// Any other cause.
    Unknown,
}

impl DatabaseCause {
    /// The cause of an error of the database, by its code if it is a failure. It is `Unknown` for
    /// any other error, and for a code that has no cause of its own.
    pub fn of(error: sqlite::Error) -> DatabaseCause
        ensures { result ≡ database_cause error }
    {
        match error {
            sqlite::Error::SqliteFailure(code) => DatabaseCause::of_code(code),
            _ => DatabaseCause::Unknown,
        }
    }

    /// Why a desk stopped, by the error of its database that it keeps; `Unknown` if it keeps none.
    pub fn of_stop(error: Option<sqlite::Error>) -> DatabaseCause
        ensures { result ≡ stop_cause error }
    {
        match error {
            Some(error) => DatabaseCause::of(error),
            None => DatabaseCause::Unknown,
        }
    }

    /// The cause of a failure of the database, by its code.
    fn of_code(code: ErrorCode) -> DatabaseCause
        ensures { result ≡ code_cause code }
    {
        match code {
            ErrorCode::CannotOpen => DatabaseCause::Unopened,
            ErrorCode::DatabaseBusy => DatabaseCause::Busy,
            ErrorCode::NotADatabase => DatabaseCause::NoDatabase,
            ErrorCode::DatabaseCorrupt => DatabaseCause::Damaged,
            ErrorCode::DiskFull => DatabaseCause::Full,
            ErrorCode::SystemIoFailure | ErrorCode::Closed => DatabaseCause::Failed,
            ErrorCode::ConstraintViolation(_) => DatabaseCause::Forbidden,
            ErrorCode::OutOfMemory => DatabaseCause::Memory,
            _ => DatabaseCause::Unknown,
        }
    }

    /// The words for the cause, before those of the system's cause in `Refused`.
    pub fn text(self) -> &'static str
        ensures { result.now ≡ database_cause_text self }
    {
        match self {
            DatabaseCause::Missing =>
                "there is no such database: correct `store`, restore a backup, or make a first one \
                by `irrdesk init` or `irrdesk load`",
            DatabaseCause::MissingWithLog =>
                "there is no such database, but its write-ahead log or journal (`-wal`, \
                `-journal`): put the database back, or move that elsewhere and restore a backup",
            DatabaseCause::NoFolder =>
                "the folder of the database is missing: make it, or correct `store`",
            DatabaseCause::Refused(_) => "the database cannot be opened or made: ",
            DatabaseCause::Denied =>
                "permission is denied for the database, its write-ahead log or its folder: let \
                the user who runs irrdesk own and write them",
            DatabaseCause::HasJournal =>
                "a program of SQLite left a journal (`-journal`): copy both elsewhere, and run \
                `sqlite3 DATABASE 'PRAGMA integrity_check'`, which applies it",
            DatabaseCause::Unopened =>
                "the database cannot be opened or made: look at its folder, its links, its \
                permissions and the limit on open files",
            DatabaseCause::Empty =>
                "the database has no registry that can be read: restore a backup, or make one by \
                `irrdesk init` or `irrdesk load`",
            DatabaseCause::EmptyWithLog =>
                "it is empty, but not its write-ahead log or journal (`-wal`, `-journal`): move \
                that elsewhere, and restore a backup",
            DatabaseCause::Busy =>
                "in use, most likely by the running server: ask it over its port, or stop it first",
            DatabaseCause::NoDatabase | DatabaseCause::Damaged =>
                "it is not the database of a registry, or one that was damaged or changed in a way \
                that irrdesk does not read: name another file, or restore a backup",
            DatabaseCause::Encoded =>
                "its text is UTF-16: `umask 077; sqlite3 OLD .dump | sqlite3 NEW` makes it UTF-8; \
                OLD is the database, NEW the new `store`",
            DatabaseCause::Full => "the disk is full: make room",
            DatabaseCause::Failed =>
                "the disk cannot be read or written: look at its health, and keep a copy of the \
                database",
            DatabaseCause::Forbidden =>
                "a rule that was added to the tables forbids the change: take the rule out",
            DatabaseCause::Memory => "out of memory: give the program more",
            DatabaseCause::Unknown => "the database cannot be used: look at its disk",
        }
    }

    /// The words for the cause, but `words` for `NoDatabase` and `Unknown`, whose own tell no more.
    pub fn text_or(self, words: &'static str) -> &'static str
        ensures { result.now ≡ text_or self words.now }
    {
        match self {
            DatabaseCause::NoDatabase | DatabaseCause::Unknown => words,
            _ => self.text(),
        }
    }
}
