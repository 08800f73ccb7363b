//! What went wrong in words, for the line that `command_fault` writes: those before the cause and
//! the number, and those after. docs/MESSAGES.md has each line for users.

ghost use Rattle.std.specs.Prelude.{◌≡◌};
ghost use Rattle.rr_commands.specs.Words.{after_migrated, after_number, after_opened};
ghost use Rattle.rr_commands.specs.Words.{before_cause, before_number, creating_words};
ghost use Rattle.rr_commands.specs.Words.{dumping_words, migrating_words, opening_words, reason};
ghost use Rattle.rr_commands.specs.Words.{refused_words, setting_words, submission_words};

use crate::cause::DatabaseCause;
use crate::settings_file::SettingKey;
use crate::trouble::Trouble;
use rr_desk::{
    CreateFault, DeskDumpFault, DumpReadFault, MigrateFault, OpenFault, SubmissionFault,
};
use rr_object::Code;
use rr_registry::LoadFault;
use rr_store::{OLD_VERSION, VERSION};
use sqlite::Error;

const OUT_OF_MEMORY: &str = "out of memory: give the program more";

const OF_VERSION: &str = "the tables of the database are of version ";

const STOPPED: &str = "the database failed before: run the command again";

/// The words before the cause and the number, or all of them.
pub(crate) fn before_cause(trouble: Trouble) -> &'static str
    ensures { result.now ≡ before_cause trouble }
{
    match trouble {
        Trouble::BadArguments => "`irrdesk help` lists the commands",
        Trouble::BadPort => "a port is a number from 1 to 65535",
        Trouble::BadCount => "a count is a number from 1 to 1000000",
        Trouble::ArgumentsNotText => "an argument is not UTF-8 text: write it as such",
        Trouble::SettingsUnread(_) => "the settings cannot be read: ",
        Trouble::SettingsNotText => "the settings are not UTF-8 text: save them as such",
        Trouble::SettingsTooLong => "the settings are longer than 1048576 bytes: shorten them",
        Trouble::SettingsNotToml(_) => "the settings are not TOML: see line ",
        Trouble::SettingBad(key) => setting_words(key),
        Trouble::Database(cause) => cause.text(),
        Trouble::Creating(fault) => creating_words(fault),
        Trouble::Opening(fault) => opening_words(fault),
        Trouble::OtherSource => "most rows of the database are of another source: correct `source`",
        Trouble::OtherSourceRow =>
            "the object of the row is of another source: restore a backup, or correct it or \
            `source`",
        Trouble::BadObject =>
            "the row is not as irrdesk writes one: restore a backup, or go by \"A damaged file\" \
            in docs/BACKUP.md",
        Trouble::Unnamed =>
            "the object of the row names a maintainer who is not there: restore a backup, or go by \
            \"A damaged file\" in docs/BACKUP.md",
        Trouble::Overlap =>
            "the object of the row has a range that overlaps one before it: restore a backup, or \
            take one of the two out of `object` and `named`",
        Trouble::OtherRows =>
            "its rows are not those of a registry: restore a backup, or mend the table",
        Trouble::OldKeys =>
            "`meta` says version 2, and the keys are of version 1: restore a backup, or set the \
            value to 1 in a copy, and migrate that",
        Trouble::NewKeys =>
            "`meta` says version 1, and the keys are of version 2: restore a backup, or set the \
            value to 2 in a copy",
        Trouble::NoObject =>
            "`named` has a row of this class and okey, and `object` has none: restore a backup, or \
            take that row out",
        Trouble::Empty =>
            "the database has no objects: restore a backup, or let `store` name another one",
        Trouble::OtherOrder =>
            "the tables of the registry are not first and in order: `umask 077; sqlite3 OLD '.dump \
            meta' '.dump object' '.dump named' | sqlite3 NEW` lays them so; OLD is the database, \
            NEW the new `store`",
        Trouble::OtherTables =>
            "the tables of the registry were not made by irrdesk: \"A damaged file\" in \
            docs/BACKUP.md makes a registry of their rows",
        Trouble::Obstacle => "it keeps the tables of the registry from being read: take it out",
        Trouble::FileUnopened(_) => "the file cannot be opened: ",
        Trouble::Submission(fault, _) => submission_words(fault),
        Trouble::Dumping(fault) => dumping_words(fault),
        Trouble::DumpUnread(DumpReadFault::Read) => {
            "the dump could not be read to its end, and nothing is loaded: "
        }
        Trouble::DumpUnread(DumpReadFault::Endless) => {
            "the dump has no end within 16777216 reads: name a whole dump"
        }
        Trouble::DumpUnread(DumpReadFault::Text(_) | DumpReadFault::Object(_, _))
        | Trouble::DumpUntaken(
            LoadFault::Duplicate(_) | LoadFault::Overlap(_) | LoadFault::Unnamed(_),
        ) => "nothing is loaded, because paragraph ",
        Trouble::Migrating(fault) => migrating_words(fault),
        Trouble::ListenerUnopened(_) => "it cannot listen: ",
        Trouble::Unaccepted(_) => "no connection could be accepted: ",
        Trouble::ProbeFailed(_) => "the program's own listener cannot be asked: ",
        Trouble::ServedInVain(_) =>
            "the database failed, and each request is refused until the server is started again: ",
        Trouble::Unwritten => "the write failed: ",
        Trouble::DumpUnread(DumpReadFault::Memory)
        | Trouble::DumpUntaken(LoadFault::Memory)
        | Trouble::Memory => OUT_OF_MEMORY,
    }
}

/// The words between the cause and the number.
pub(crate) fn before_number(trouble: Trouble) -> &'static str
    ensures { result.now ≡ before_number trouble }
{
    match trouble {
        Trouble::Submission(
            SubmissionFault::ReadFault { .. }
            | SubmissionFault::WriteFault { .. }
            | SubmissionFault::LedgerStopped { .. },
            _,
        ) => "; items decided before that: ",
        _ => "",
    }
}

/// The words after the number.
pub(crate) fn after_number(trouble: Trouble) -> &'static str
    ensures { result.now ≡ after_number trouble }
{
    match trouble {
        Trouble::Opening(OpenFault::WrongVersion(version)) => after_opened(version),
        Trouble::Migrating(MigrateFault::WrongVersion(version)) => after_migrated(version),
        Trouble::DumpUnread(DumpReadFault::Text(_)) => {
            " is not RPSL, or over 65536 bytes: mend it"
        }
        Trouble::DumpUnread(DumpReadFault::Object(_, code)) => reason(code),
        Trouble::DumpUntaken(LoadFault::Duplicate(_)) => {
            " has the key of one before it: take one of the two out"
        }
        Trouble::DumpUntaken(LoadFault::Overlap(_)) => {
            " has a range that overlaps one before it: mend one of the two"
        }
        Trouble::DumpUntaken(LoadFault::Unnamed(_)) =>
            " names a maintainer who is not in the dump: add its mntner, or take the name out",
        _ => "",
    }
}

fn setting_words(key: SettingKey) -> &'static str
    ensures { result.now ≡ setting_words key }
{
    match key {
        SettingKey::Source => "`source` is missing or bad: it names the registry, as \"TEST\"",
        SettingKey::Root => "`root` is missing or bad: it names a maintainer, as \"ROOT-MNT\"",
        SettingKey::Auth => {
            "`auth` is missing or bad: it is \"SHA256-PW salt:hash\", with 64 hexadecimal digits"
        }
        SettingKey::Limit => "`limit` is missing or bad: it is a whole number from 1 to 1000000",
        SettingKey::Store => "`store` is missing or bad: it is the path of the database",
    }
}

/// Why the database refused: its cause if that tells more than these words do, and else these.
fn refused_words(error: Error, words: &'static str) -> &'static str
    ensures { result.now ≡ refused_words error words.now }
{
    DatabaseCause::of(error).text_or(words)
}

fn creating_words(fault: CreateFault) -> &'static str
    ensures { result.now ≡ creating_words fault }
{
    match fault {
        CreateFault::NotEmpty => "the database has a registry already: take a new one",
        CreateFault::Store(error) => refused_words(
            error,
            "the database has other tables, or refuses those of a registry: take a new one",
        ),
        CreateFault::Memory => OUT_OF_MEMORY,
    }
}

fn opening_words(fault: OpenFault) -> &'static str
    ensures { result.now ≡ opening_words fault }
{
    match fault {
        OpenFault::WrongVersion(_) => OF_VERSION,
        OpenFault::BadRow =>
            "the rows of the database are not a registry of the settings' source: correct \
            `source`, or restore a backup",
        OpenFault::Store(error) => refused_words(
            error,
            "the database has no registry that can be read: restore a backup, or make one by \
            `irrdesk init` or `irrdesk load`",
        ),
        OpenFault::Memory => OUT_OF_MEMORY,
    }
}

fn submission_words(fault: SubmissionFault) -> &'static str
    ensures { result.now ≡ submission_words fault }
{
    match fault {
        SubmissionFault::ReadFault { .. } =>
            "the submission could not be read to its end, so submit the whole text again: ",
        SubmissionFault::WriteFault { .. } => {
            "the report could not be written, so submit the whole text again: "
        }
        SubmissionFault::LedgerStopped { .. } =>
            "the database failed, so submit the whole text again: ",
        SubmissionFault::Memory => OUT_OF_MEMORY,
        SubmissionFault::Stopped => STOPPED,
    }
}

fn dumping_words(fault: DeskDumpFault) -> &'static str
    ensures { result.now ≡ dumping_words fault }
{
    match fault {
        DeskDumpFault::Write => "the dump is not whole, so dump again: ",
        DeskDumpFault::Memory =>
            "out of memory, and the dump is not whole: give the program more, and dump again",
        DeskDumpFault::Stopped => STOPPED,
    }
}

fn migrating_words(fault: MigrateFault) -> &'static str
    ensures { result.now ≡ migrating_words fault }
{
    match fault {
        MigrateFault::WrongVersion(_) => OF_VERSION,
        MigrateFault::BadRow =>
            "the rows of the database are not a registry of version 1 of the settings' source: \
            correct `source`, or restore a backup",
        MigrateFault::NoRoot =>
            "the root of the settings is not a maintainer of the registry: let `root` name one \
            that is",
        MigrateFault::Store(error) => refused_words(
            error,
            "the database has no tables of version 1: look at `store`",
        ),
        MigrateFault::Memory => OUT_OF_MEMORY,
    }
}

/// What to do with tables of this version, which is not the one that is read.
fn after_opened(version: u32) -> &'static str
    ensures { result.now ≡ after_opened version }
{
    if version == OLD_VERSION {
        ", and this program reads version 2: `irrdesk migrate SETTINGS` turns them into that"
    } else if version > VERSION {
        ", and this program reads version 2: take a newer irrdesk, which wrote them"
    } else {
        ", and this program reads version 2: no irrdesk wrote them, so correct `store`"
    }
}

/// What to do with tables of this version, which is not the one that is migrated.
fn after_migrated(version: u32) -> &'static str
    ensures { result.now ≡ after_migrated version }
{
    if version == VERSION {
        ", as this program reads them: there is nothing to migrate"
    } else if version > VERSION {
        ", and what is migrated is version 1: take a newer irrdesk, which wrote them"
    } else {
        ", and what is migrated is version 1: no irrdesk wrote them, so correct `store`"
    }
}

/// Why a paragraph of a dump is not an object, by the code of its refusal, and what to do; nothing
/// for other codes than E02 to E06.
fn reason(code: Code) -> &'static str
    ensures { result.now ≡ reason code }
{
    match code {
        Code::E02 => " is not an object: E02, its class is unknown: take it out",
        Code::E03 => " is not an object: E03, its key is bad: mend it",
        Code::E04 =>
            " is not an object: E04, an attribute that it needs is missing, empty or repeated: \
            mend it",
        Code::E05 =>
            " is not an object: E05, an attribute has a bad value, as `auth` in a dump that is not \
            full, or is `password` or `delete`, which no dump has: load a full one, or mend it",
        Code::E06 =>
            " is not an object: E06, its `source` is not that of the settings: let both be the \
            same",
        // No object is refused with another code as it is read.
        _ => "",
    }
}
