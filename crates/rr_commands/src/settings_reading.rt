//! Settings files: the settings that one gives, read within a bound, or why it gives none. Each
//! command that has settings reads them so, and `rr_cli` for `serve` and `probe`.

ghost use Rattle.std.specs.Prelude.{◌≡◌, ◌≤◌, [], IfErr, IfOk};
ghost use Rattle.std.specs.Prelude.{Ok, OnOk, length, string_bytes};
ghost use Rattle.rr_commands.specs.Commands.{GivesNoSettings, HasSettings, IsNotRead};
ghost use Rattle.rr_commands.specs.Commands.{ReadsFile, unread_trouble};
ghost use Rattle.rr_commands.specs.Faults.{ShowsOnLine, place_on_line};
ghost use Rattle.rr_commands.specs.SettingsFiles.{AreNoSettings, IsToldOf, settings_of_text};
ghost use Rattle.rr_commands.specs.Worlds.{named};
ghost use Rattle.rr_commands.specs.declared.trouble.TroublePlace.TheVariants as place;

use crate::cause::Cause;
use crate::command_fault::ProgramFault;
use crate::files::Files;
use crate::host::NamedDatabase;
use crate::readable::Readable;
use crate::settings_file::{SettingsFault, read_settings};
use crate::trouble::Trouble;
use rr_desk::Settings;
use rr_io::Reader;
use std::alloc::Global;
use std::io;
use std::io::{ErrorKind, Read};

/// The most bytes of a settings file (profile).
const MOST_BYTES: u64 = 1_048_576;

/// The settings in a file of at most 1,048,576 bytes, and the path of their database, with nothing
/// found in it yet. The fault names the file. It is that the file cannot be opened or a read of it
/// failed, or why its bytes are no settings (status 3). Or it is that memory ran out (status 5).
/// The file is closed after a failed read, and where memory ran out as it was read; otherwise no
/// clause says whether it is. Nor does one say which line is told of a text that is not TOML.
pub fn read_settings_file<'a, F: Files>(
    alloc: Global,
    files: &F,
    file: &'a str,
) -> Result<(Settings, NamedDatabase), ProgramFault<'a>>
    ensures read { IfOk result (λ read. HasSettings (F.calls files.now) file.now
        (named read.0 (string_bytes read.1.path))) }
    ensures unfound { IfOk result (λ read. string_bytes read.1.found ≡ []) }
    ensures fails { IfErr result (λ fault.
        GivesNoSettings (F.calls files.now) file.now fault.trouble) }
    ensures about { IfErr result (ShowsOnLine (place_on_line place.File file.now [])) }
{
    match read_at(alloc, files, file) {
        Ok((settings, path)) => Ok((
            settings,
            NamedDatabase {
                path,
                found: String::new(alloc),
            },
        )),
        Err(trouble) => Err(ProgramFault::of(file, trouble)),
    }
}

/// The settings in a file, and the path of the database.
fn read_at<F: Files>(alloc: Global, files: &F, file: &str) -> Result<(Settings, String), Trouble>
    ensures read { IfOk result (λ read.
        HasSettings (F.calls files.now) file.now (named read.0 (string_bytes read.1))) }
    ensures fails { IfErr result (GivesNoSettings (F.calls files.now) file.now) }
{
    match read_bytes(alloc, files, file) {
        Ok(bytes) => read_text(alloc, bytes.as_slice()),
        Err(error) => Err(unread_trouble(Cause::of(&error))),
    }
}

/// The bytes of a file, or one more than the most if it has more. The error is that the file cannot
/// be opened, or that of a failed read, or else that memory ran out.
fn read_bytes<F: Files>(alloc: Global, files: &F, file: &str) -> io::Result<Vec<u8>>
    ensures read { IfOk result (λ read. ReadsFile (F.calls files.now) file.now read.items) }
    ensures fails { IfErr result (IsNotRead (F.calls files.now) file.now) }
{
    let mut taken = Readable::new(files.open(file)?).take(MOST_BYTES + 1);
    let mut bytes = Vec::new(alloc);
    let end = taken.read_to_end(&mut bytes);
    let counted = taken.into_inner().into_counted();
    let failed = counted.failed_reads();
    files.close(file, counted);
    match end {
        Ok(_) => Ok(bytes),
        Err(error) if failed > 0 => Err(error),
        Err(_) => Err(io::Error::from(ErrorKind::OutOfMemory)),
    }
}

/// What is told of settings that cannot be read for this cause: that memory ran out if it is that,
/// and else the cause.
fn unread_trouble(cause: Cause) -> Trouble
    ensures { result ≡ unread_trouble cause }
{
    match cause {
        Cause::Memory => Trouble::Memory,
        _ => Trouble::SettingsUnread(cause),
    }
}

/// The settings that the bytes of a file are, and the path of the database.
#[tactic(auto, using(crate::proofs::SettingsLemmas::told_of_text))]
fn read_text(alloc: Global, bytes: &[u8]) -> Result<(Settings, String), Trouble>
    ensures ok { IfOk result
        (λ read. settings_of_text bytes.now ≡ Ok (read.0, string_bytes read.1)) }
    ensures short { OnOk result (length bytes.now ≤ MOST_BYTES) }
    ensures why { IfErr result (AreNoSettings bytes.now) }
{
    if bytes.len() as u64 > MOST_BYTES {
        return Err(Trouble::SettingsTooLong);
    }
    match std::str::from_utf8(bytes) {
        Ok(text) => match read_settings(alloc, text) {
            Ok(read) => Ok(read),
            Err(fault) => Err(trouble_of(alloc, text, fault)),
        },
        Err(_) => Err(Trouble::SettingsNotText),
    }
}

/// What is told of a text that is no settings for this reason.
fn trouble_of(alloc: Global, text: &str, fault: SettingsFault) -> Trouble
    ensures { IsToldOf fault result }
{
    match fault {
        SettingsFault::BadToml => Trouble::SettingsNotToml(bad_line(alloc, text)),
        SettingsFault::BadKey(key) => Trouble::SettingBad(key),
        SettingsFault::Memory => Trouble::Memory,
    }
}

/// The line, from 1, at which it shows that a text is not TOML. No clause says which that is.
fn bad_line(alloc: Global, text: &str) -> u64 {
    let place = match toml::table_from_str(alloc, text) {
        Ok(_) => 0,
        Err(error) => error.span().map_or(0, |span| span.start),
    };
    let before = text.as_bytes().get(..place).unwrap_or(b"");
    1 + before.iter().filter(|byte| **byte == b'\n').count() as u64
}
