//! What went wrong: the status that it ends the program with, and what it is about. Commands and
//! `rr_cli` end by one, `words` has the words of each, and `command_fault` writes its line. A new
//! one is added here, in `words`, in the definitions of both, and in docs/MESSAGES.md.

ghost use Rattle.std.specs.Prelude.{◌≡◌};
ghost use Rattle.rr_commands.specs.Troubles.{cause_words, paragraph_in, trouble_cause};
ghost use Rattle.rr_commands.specs.Troubles.{trouble_end, trouble_number};

use crate::cause::{Cause, DatabaseCause};
use crate::settings_file::SettingKey;
use rr_desk::{
    CreateFault, DeskDumpFault, DumpReadFault, MigrateFault, OpenFault, SubmissionFault,
};
use rr_registry::LoadFault;

/// The status at wrong arguments.
const WRONG_ARGUMENTS: u8 = 2;

/// The status at wrong settings, also if their file cannot be read.
const WRONG_SETTINGS: u8 = 3;

/// The status at trouble with the database, or if the desk is stopped.
const DATABASE_TROUBLE: u8 = 4;

/// The status at a fault of a file other than the settings, of a socket or of standard output. It
/// is also that at a dump that is not a registry, or if memory ran out, save SQLite's in a database
/// that is open.
const FAILED: u8 = 5;

/// What went wrong.
#[derive(Clone, Copy)]
pub enum Trouble {
    /// The arguments are none of a command.
    BadArguments,
    /// A port is not a number, or out of its bounds.
    BadPort,
    /// A count is not a number, or out of its bounds.
    BadCount,
    /// An argument is not text.
    ArgumentsNotText,
    /// The settings file cannot be read.
    SettingsUnread(Cause),
    /// The settings file is not text.
    SettingsNotText,
    /// The settings file is too long.
    SettingsTooLong,
    /// The settings are not TOML: the line where that shows, from 1.
    SettingsNotToml(u64),
    /// A setting is missing or bad.
    SettingBad(SettingKey),
    /// The database cannot be used.
    Database(DatabaseCause),
    /// No registry was made in the database.
    Creating(CreateFault),
    /// The registry in the database was not opened.
    Opening(OpenFault),
    /// Most rows of the database are of a registry of another source.
    OtherSource,
    /// The object of a row of the database is of another source.
    OtherSourceRow,
    /// A row of the database has no object of the source by its class and key.
    BadObject,
    /// A row's object names a maintainer who is not there.
    Unnamed,
    /// The span of a row's object crosses one before it.
    Overlap,
    /// The rows of `meta`, or those of `named`, are not those of a registry.
    OtherRows,
    /// `meta` says the version that is read, and the keys of objects are those of the one before.
    OldKeys,
    /// `meta` says the version that is migrated, and the keys of objects are those of the one that
    /// is read.
    NewKeys,
    /// The objects of the database are those of a registry, and a row of names is of none of them.
    NoObject,
    /// The tables of the database have no objects.
    Empty,
    /// The three tables of the database do not stand first and in order.
    OtherOrder,
    /// The three tables of the database have their columns, and were made otherwise.
    OtherTables,
    /// What was added to a table keeps the tables from being read.
    Obstacle,
    /// A file cannot be opened.
    FileUnopened(Cause),
    /// A submission was cut short: how, and why the database failed if it did.
    Submission(SubmissionFault, DatabaseCause),
    /// A dump was cut short.
    Dumping(DeskDumpFault),
    /// A dump was not read.
    DumpUnread(DumpReadFault),
    /// The objects of a dump are not a registry.
    DumpUntaken(LoadFault),
    /// The tables of the database were not migrated.
    Migrating(MigrateFault),
    /// No listener was opened.
    ListenerUnopened(Cause),
    /// No connection could be accepted.
    Unaccepted(Cause),
    /// The program's own listener could not be asked.
    ProbeFailed(Cause),
    /// The database failed while the registry was served.
    ServedInVain(DatabaseCause),
    /// Standard output could not be written.
    Unwritten,
    /// Memory ran out.
    Memory,
}

/// What trouble is about.
#[derive(Clone, Copy)]
pub enum TroublePlace {
    /// Nothing that has a name.
    Nothing,
    /// The database.
    Database,
    /// The file that is read.
    File,
    /// Standard output.
    Output,
}

/// How the program ends by trouble.
#[derive(Clone, Copy)]
pub struct TroubleEnd {
    /// The status: 2 at wrong arguments, 3 at wrong settings. It is 4 at trouble with the database,
    /// also if SQLite lacks memory once it is open, or if the desk is stopped. It is else 5, also
    /// if other memory ran out (profile).
    pub status: u8,
    /// What the line on standard error is about.
    pub place: TroublePlace,
}

impl Trouble {
    /// How the program ends by this trouble: its status, as `TroubleEnd` says, and what its line is
    /// about. That is the database at status 4, and also if memory ran out as that or its registry
    /// was opened. It is the settings file at status 3, another file at trouble with that or with
    /// what it has, and standard output if a write failed. Else it is nothing (profile).
    pub fn end(self) -> TroubleEnd
        ensures { result ≡ trouble_end self }
    {
        match self {
            Trouble::BadArguments
            | Trouble::BadPort
            | Trouble::BadCount
            | Trouble::ArgumentsNotText => TroubleEnd {
                status: WRONG_ARGUMENTS,
                place: TroublePlace::Nothing,
            },
            Trouble::SettingsUnread(_)
            | Trouble::SettingsNotText
            | Trouble::SettingsTooLong
            | Trouble::SettingsNotToml(_)
            | Trouble::SettingBad(_) => TroubleEnd {
                status: WRONG_SETTINGS,
                place: TroublePlace::File,
            },
            Trouble::Database(cause) => database_end(cause),
            Trouble::Opening(OpenFault::Memory) => TroubleEnd {
                status: FAILED,
                place: TroublePlace::Database,
            },
            Trouble::Opening(OpenFault::WrongVersion(_) | OpenFault::BadRow | OpenFault::Store(_))
            | Trouble::OtherSource
            | Trouble::OtherSourceRow
            | Trouble::BadObject
            | Trouble::Unnamed
            | Trouble::Overlap
            | Trouble::OtherRows
            | Trouble::OldKeys
            | Trouble::NewKeys
            | Trouble::NoObject
            | Trouble::Empty
            | Trouble::OtherOrder
            | Trouble::OtherTables
            | Trouble::Obstacle
            | Trouble::ServedInVain(_)
            | Trouble::Creating(CreateFault::NotEmpty | CreateFault::Store(_))
            | Trouble::Submission(
                SubmissionFault::LedgerStopped { .. } | SubmissionFault::Stopped,
                _,
            )
            | Trouble::Dumping(DeskDumpFault::Stopped)
            | Trouble::Migrating(
                MigrateFault::WrongVersion(_)
                | MigrateFault::BadRow
                | MigrateFault::NoRoot
                | MigrateFault::Store(_),
            ) => TroubleEnd {
                status: DATABASE_TROUBLE,
                place: TroublePlace::Database,
            },
            Trouble::Unwritten
            | Trouble::Dumping(DeskDumpFault::Write)
            | Trouble::Submission(SubmissionFault::WriteFault { .. }, _) => TroubleEnd {
                status: FAILED,
                place: TroublePlace::Output,
            },
            Trouble::FileUnopened(_)
            | Trouble::Submission(SubmissionFault::ReadFault { .. }, _)
            | Trouble::DumpUnread(
                DumpReadFault::Read
                | DumpReadFault::Endless
                | DumpReadFault::Text(_)
                | DumpReadFault::Object(_, _),
            )
            | Trouble::DumpUntaken(
                LoadFault::Duplicate(_) | LoadFault::Overlap(_) | LoadFault::Unnamed(_),
            ) => TroubleEnd {
                status: FAILED,
                place: TroublePlace::File,
            },
            Trouble::Creating(CreateFault::Memory)
            | Trouble::Submission(SubmissionFault::Memory, _)
            | Trouble::Dumping(DeskDumpFault::Memory)
            | Trouble::DumpUnread(DumpReadFault::Memory)
            | Trouble::DumpUntaken(LoadFault::Memory)
            | Trouble::Migrating(MigrateFault::Memory)
            | Trouble::ListenerUnopened(_)
            | Trouble::Unaccepted(_)
            | Trouble::ProbeFailed(_)
            | Trouble::Memory => TroubleEnd {
                status: FAILED,
                place: TroublePlace::Nothing,
            },
        }
    }

    /// The cause that the system gave, if it gave one: that in the trouble or, if reading or
    /// printing failed, `stream`.
    pub fn cause(self, stream: Cause) -> Option<Cause>
        ensures { result ≡ trouble_cause self stream }
    {
        match self {
            Trouble::SettingsUnread(cause)
            | Trouble::FileUnopened(cause)
            | Trouble::ListenerUnopened(cause)
            | Trouble::Unaccepted(cause)
            | Trouble::ProbeFailed(cause)
            | Trouble::Database(DatabaseCause::Refused(cause)) => Some(cause),
            Trouble::Submission(
                SubmissionFault::ReadFault { .. } | SubmissionFault::WriteFault { .. },
                _,
            ) => { Some(stream) }
            Trouble::Unwritten
            | Trouble::Dumping(DeskDumpFault::Write)
            | Trouble::DumpUnread(DumpReadFault::Read) => Some(stream),
            _ => None,
        }
    }

    /// The cause in words: why the database failed, if the ledger stopped in a submission or the
    /// registry was served in vain. It is else the given `cause`, and no bytes without one.
    pub fn cause_words(self, cause: Option<Cause>) -> &'static str
        ensures { result.now ≡ cause_words self cause }
    {
        match self {
            Trouble::Submission(SubmissionFault::LedgerStopped { .. }, cause)
            | Trouble::ServedInVain(cause) => cause.text(),
            _ => match cause {
                Some(cause) => cause.text(),
                None => "",
            },
        }
    }

    /// The number, if there is one: a line, a version, a paragraph, or how many items were decided.
    pub fn number(self) -> Option<u64>
        ensures { result ≡ trouble_number self }
    {
        match self {
            Trouble::SettingsNotToml(line) => Some(line),
            Trouble::Opening(OpenFault::WrongVersion(version)) => Some(u64::from(version)),
            Trouble::Migrating(MigrateFault::WrongVersion(version)) => Some(u64::from(version)),
            Trouble::DumpUnread(_) | Trouble::DumpUntaken(_) => self.paragraph(),
            Trouble::Submission(
                SubmissionFault::ReadFault { items }
                | SubmissionFault::WriteFault { items }
                | SubmissionFault::LedgerStopped { items },
                _,
            ) => Some(items),
            _ => None,
        }
    }

    /// The paragraph of a dump, from 1, that is the matter, if one is.
    pub fn paragraph(self) -> Option<u64>
        ensures { result ≡ paragraph_in self }
    {
        match self {
            Trouble::DumpUnread(DumpReadFault::Text(number) | DumpReadFault::Object(number, _))
            | Trouble::DumpUntaken(
                LoadFault::Duplicate(number)
                | LoadFault::Overlap(number)
                | LoadFault::Unnamed(number),
            ) => Some(number),
            _ => None,
        }
    }
}

/// The status and the place of a database that cannot be used for this cause.
fn database_end(cause: DatabaseCause) -> TroubleEnd
    ensures { result ≡ trouble_end (Trouble.Database cause) }
{
    match cause {
        DatabaseCause::Memory | DatabaseCause::Refused(Cause::Memory) => TroubleEnd {
            status: FAILED,
            place: TroublePlace::Database,
        },
        _ => TroubleEnd {
            status: DATABASE_TROUBLE,
            place: TroublePlace::Database,
        },
    }
}
